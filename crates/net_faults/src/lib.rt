//! All that rules certificates of a plan out: the places where it breaks a rule, loops of owners, loops of rows, and
//! records that make no chain.
#![tactic(auto)]

mod chain_faults;
mod circles;
mod key_index;
mod listing;
mod next_nodes;
mod owner_loops;
mod plan_fault;
mod routing_loops;

pub use listing::{all_faults, plan_faults};
pub use plan_fault::PlanFault;
