//! The commands that talk over buses: `emulate`, a planned node on a line protocol, and `capture`, a run as a capture
//! file.
#![tactic(auto)]

mod capture;
mod departure;
mod emulate;
mod hops;
mod line;
mod lines;
mod player;
mod playing;
mod start;
mod turn;

pub use capture::run_capture;
pub use command_questions::{Emulation, LineForm};
pub use emulate::run_emulate;
