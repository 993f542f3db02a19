//! Whether a plan keeps what a board says, and whether its nodes reach each other as the board asks.
#![tactic(auto)]

mod asked;
mod fields;
mod fit;
mod kept;
mod keys;
mod nodes;
mod ports;
mod records;
mod rowed;
mod same;
mod texts;
mod unfit;
mod whole;

pub use fit::judge;
pub use kept::keeps;
pub use rowed::judge_rows;
pub use same::is_same_but_rows;
pub use unfit::Unfit;
pub use whole::is_whole;
