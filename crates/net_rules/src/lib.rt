//! The rules of a plan, of its certificate and of a move between two plans: the search for the first fault, and the
//! certificate that `certify` makes of a plan.
#![tactic(auto)]

mod all_faults;
mod asked;
mod certified_ranks;
mod certify_error;
mod certifying;
mod certifying_move;
mod fault;
mod fault_run;
mod first_fault;
mod first_move_fault;
mod holders;
mod mixed_loop;
mod move_error;
mod move_fault;
mod move_obstacle;
mod node_ranges;
mod node_rows;
mod plan_fault;
mod plan_index;
mod plans;
mod rule;
mod rules;
mod span;
mod spans;
mod spot;
mod stretches;

pub use all_faults::faults;
pub use certify_error::CertifyError;
pub use certifying::certify;
pub use certifying::chains::ChainFault;
pub use certifying_move::certify_move;
pub use fault::Fault;
pub use fault_run::{EidSpan, FaultRun};
pub use first_fault::first_of_all;
pub use first_move_fault::{fault_of_plan, meet_rules_of_move};
pub use mixed_loop::{MixedLoop, Side};
pub use move_error::MoveError;
pub use move_fault::{MoveFault, MoveRule};
pub use move_obstacle::MoveObstacle;
pub use rule::Rule;
pub use rules::frames::{first_unlike_node, have_same_frame};
pub use rules::locators::{eid_locator, is_held_with_tid};
pub use rules::names::have_one_name;
pub use rules::owners::share_bus;
pub use rules::pools::is_pool_in_range;
pub use rules::rows::is_in_range;
