//! JSON texts in which nothing is unusual, token by token from their bytes: strings of ASCII without escapes, and whole
//! numbers without a sign. At anything else a reader gives up.
#![tactic(auto)]

mod bytes;
mod reader;
mod value;

pub use bytes::{digit_of, is_digit};
pub use reader::PlainReader;
pub use value::read_value;
