//! Boards: what an engineer says of a network in TOML, and the plan that is made of it.
#![tactic(auto)]

mod addresses;
mod board;
mod fault;
mod given;
mod given_plan;
mod given_text;
mod items;
mod making;
mod places;
mod reading;
mod record_words;
mod writing;

pub use board::{
    Board, BoardBus, BoardNode, BoardPool, BoardPort, BoardRecord, BoardRow, FieldText, FieldWord,
    RecordContent, RecordFile,
};
pub use fault::BoardError;
pub use given_plan::board_of_plan;
pub use given_text::text_of_plan;
pub use making::{Cut, Made, NoPlan, made_plan, named_files};
pub use places::{line_of_node, line_of_record};
pub use reading::read_board;
