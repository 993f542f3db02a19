//! The plan that is made of a board's text, or a plan with rows, judged before it is answered, or why none is.
#![tactic(auto)]

mod answer;
mod judged;
mod numbers;
mod reasons;
mod renumbered;
mod rowed;

pub use answer::{BoardAnswer, MadePlan, answer_board, files_of_board, unread_file};
pub use board::RecordFile;
pub use renumbered::{kept_line, renumbered_lines};
pub use rowed::{RowsAnswer, answer_rows};
