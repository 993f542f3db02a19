//! What a plan and its certificate say of nodes and their rows, as the rules and the runs of networks read it.
#![tactic(auto)]

pub mod lookup;
mod node_tables;

pub use node_tables::{routing_table, routing_tables};
