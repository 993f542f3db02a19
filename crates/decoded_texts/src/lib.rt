//! What a capture of a bus says: for each entry what became of it and what its message says.
#![tactic(auto)]

mod control;
mod decoding;
mod entries;
mod heads;
mod message;
mod names;
mod platform;

pub use decoding::{decoded_lines, named_lines};
