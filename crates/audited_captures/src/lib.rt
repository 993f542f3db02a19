//! What captured devices said, laid beside a plan.
#![tactic(auto)]

mod asked;
mod audits;
mod counts;
mod exchanges;
mod failures;
mod identities;
mod laws;
mod lines;
mod names;
mod packets;
mod places;
mod readings;
mod record_faults;
mod record_lines;
mod record_parts;
mod record_readings;
mod refusals;
mod routes;
mod strangers;
mod sums;
mod talk;
mod tids;
mod traffic;
mod traffic_lines;
mod untold;
mod words;

pub use audits::{Audit, audit_text, audited, is_match};
pub use laws::{
    audits_match_where_as_planned, matches_where_as_planned, nodes_compare_where_heard,
    nodes_match_where_as_planned, told_tables_forward_as_planned, traffic_matches_where_as_planned,
};
pub use lines::{Finding, Line};
pub use sums::Sum;
