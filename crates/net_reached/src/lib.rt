//! Whom the nodes of a checked plan are to reach, as a text wants it, and a table of whom they do reach.
#![tactic(auto)]

mod matrix;
mod names;
mod reached;
mod reading;
mod texts;
mod unmet;
mod wish;

pub use matrix::matrix_text;
pub use reached::{avoids, hops_between, reaches, reaches_all};
pub use reading::{BadLine, WishError, wishes_of_text};
pub use texts::wish_lines;
pub use unmet::unmet_wishes;
pub use wish::Wish;
