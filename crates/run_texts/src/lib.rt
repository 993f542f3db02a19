//! The lines that tell what comes of events, and which requests an assignment has.
#![tactic(auto)]

mod assignments;
mod outcomes;

pub use assignments::assignment_lines;
pub use outcomes::outcome_line;
