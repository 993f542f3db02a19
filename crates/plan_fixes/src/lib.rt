//! Edits that are made in the text of a plan, one after the other, until a certificate fits it.
#![tactic(auto)]

mod fixing;
mod splicing;

pub use fixing::{Draft, Fixed, fix};
