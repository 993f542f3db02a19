//! The command `export`: what a planned node takes into the world, in the form that is asked for.
#![tactic(auto)]

mod exported;
mod exports;

pub use command_questions::{Export, ExportKind};
pub use exports::run_export;
