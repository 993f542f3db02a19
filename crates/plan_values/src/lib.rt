//! Plans, certificates and events of MCTP networks.
#![tactic(auto)]

mod certificate;
mod event;
mod name;
mod nodes;
mod plan;
mod references;
mod same;
mod terminus;

pub use certificate::{Certificate, NodeLevel, NodePlaces, NodeRanks, RankRange, RecordPlace};
pub use event::Event;
pub use name::{Name, is_name};
pub use nodes::{Bus, Kind, Node, Pool, Port, Row};
pub use plan::{BASELINE_UNIT, LARGEST_UNIT, Plan};
pub use references::are_placed;
pub use same::{PlanPart, are_same, are_same_but_rows, are_same_plans};
pub use terminus::{PlannedRecord, PlannedTerminus};
