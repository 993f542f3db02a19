//! How the nodes of a network get from the rows of one plan to those of another, in steps that are lawful moves.
#![tactic(auto)]

mod change;
mod changed_plan;
mod eid_ways;
mod proposals;
mod row_pieces;
mod steps;

pub use change::{Change, LastStep, Part, Rollout, Step};
pub use steps::rollout;
