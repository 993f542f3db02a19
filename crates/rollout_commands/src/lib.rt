//! The command `rollout`: how nodes get from the rows of one plan to those of another, told or with the files of its
//! steps.
#![tactic(auto)]

mod rollout;
mod writing;

pub use rollout::TellSteps;
pub use writing::run_rollout_written;
