//! The commands of `mctpplan` that answer about plans: of one alone, with its certificate, or of a move, and that make
//! plans.
#![tactic(auto)]

mod assign;
mod certified;
mod certify_move;
mod commands;
mod draw;
mod keeping;
mod lint;
mod listing;
mod make;
mod moving;
mod planned;
mod reach;
mod require;
mod rows;
mod trace;
mod walk;

pub use certified::run_certified;
pub use certify_move::CertifyMove;
pub use command_questions::{DrawnRows, MakeFiles, PlanQuestion, Question, RecordFiles};
pub use commands::{run_assign, run_certify, run_check, run_walk};
pub use keeping::run_make_kept;
pub use make::{run_make, run_make_certified};
pub use moving::run_move;
pub use planned::run_planned;
pub use require::RequireWays;
