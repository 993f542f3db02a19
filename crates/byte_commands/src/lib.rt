//! The commands of `mctpplan` that tell what bytes are: `show`, `describe`, `record` and `decode`.
#![tactic(auto)]

mod decode;
mod show;
mod worded;

pub use command_questions::{ShownKind, WordQuestion};
pub use decode::{DecodeCapture, DecodeNamed, not_given};
pub use show::run_show;
pub use worded::run_worded;
