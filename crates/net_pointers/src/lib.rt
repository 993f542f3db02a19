//! Where the first fault of a text stands: the pointer to the value that has it, and its line and column.
#![tactic(auto)]

mod doubled;
mod index;
mod known;
mod nearest;
mod offset;
mod order;
mod path;
mod position;
mod ranges;
mod scan;
mod showing;
mod spots;
mod syntax;
mod tape;
mod texts;
mod tokens;

pub use doubled::{DoubledKey, TwoIndices, doubled_key, first_doubled};
pub use index::TextIndex;
pub use nearest::nearest_name;
pub use offset::{offset_of_key, offset_of_pointer};
pub use order::{Asked, NameList, TextSort, Trouble, asked_of, list_key, name_key, trouble_of};
pub use path::part_after;
pub use position::{Position, position_of};
pub use ranges::{Overlap, end_of_range, first_in_range, first_overlap};
pub use showing::{MOST_SHOWN, first_characters, shown_characters, shown_key};
pub use spots::Spot;
pub use syntax::{JsonFault, Wanted, closing_quote, is_blank, json_fault};
pub use texts::{TextTrouble, no_value};
