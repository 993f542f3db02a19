//! The command that lays what was captured beside a plan.
#![tactic(auto)]

mod audit;
mod buses;
mod repositories;

pub use audit::run_audit;
