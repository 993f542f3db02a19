//! The commands of `mctpplan` that play a network: `sim`, `simmove`, `expect` and `script`.
#![tactic(auto)]

mod expect;
mod script;
mod sim;

pub use command_questions::{Flights, WalkScript};
pub use expect::ExpectLines;
pub use script::WriteScript;
pub use sim::files::{read_run, simulate};
pub use sim::moves::simulate_move;
pub use sim::{run_sim, run_simmove};
