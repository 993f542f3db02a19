//! The tests of the message crates: packets, control messages, bridges, PLDM messages, records and their repositories.
#![tactic(auto)]

#[cfg(test)]
mod tests;
