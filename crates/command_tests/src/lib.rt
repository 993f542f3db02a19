//! Tests of the commands of `mctpplan`: what a user gives, and what is told.
#![tactic(auto)]

#[cfg(test)]
mod tests;
