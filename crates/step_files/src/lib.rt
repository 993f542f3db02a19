//! The files of a roll-out: for each step the plan after it, the plan's certificate, and the certificate of the move.
//! Each text is judged before it is answered.
#![tactic(auto)]

mod files;
mod paths;
mod text_files;
mod texts;

pub use files::step_files;
pub use text_files::{TextFiles, write_files};
pub use texts::{TextFile, Unmade};
