//! The lines of the answers to questions about plans: what looks wrong, who reaches whom, and the way of a packet.
#![tactic(auto)]

mod findings;
mod pairs;
mod ways;

pub use findings::lint_lines;
pub use pairs::reach_lines;
pub use ways::trace_lines;
