//! Tests of the libraries of networks: texts of plans, rules, and runs.
#![tactic(auto)]

#[cfg(test)]
mod tests;
