//! What a planned node takes into the world: its rows with whom they lead to, the answers that tell its routing table,
//! its records, and texts for a Linux node and for firmware.
#![tactic(auto)]

mod c_sources;
mod device_trees;
mod devices;
mod entries;
mod identifiers;
mod laws;
mod links;
mod linux;
mod mctpd;
mod planned_tables;
mod repositories;
mod rows;
mod words;

pub use c_sources::{CTerminus, c_source};
pub use device_trees::device_tree;
pub use entries::{entry_lines, entry_messages, planned_entries};
pub use laws::words_are_plain;
pub use links::Link;
pub use linux::linux_script;
pub use mctpd::mctpd_script;
pub use planned_tables::range_table;
pub use repositories::joined_records;
