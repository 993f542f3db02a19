//! The command `report`: a page about a plan, for a review and for paper.
#![tactic(auto)]

mod bodies;
mod matrix;
mod promises;
mod reports;

pub use reports::{ReportCertified, ReportPlan};
