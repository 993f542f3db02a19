//! The fields of platform descriptor records (DSP0248) by their names: what they hold, and records that are made from
//! words. Sections are those of DSP0248 1.2.
#![tactic(auto)]

mod fields;
mod held;
mod layouts;
mod made;
mod notes;
mod said;
mod sized;
mod telling;
mod text;
mod words;

pub use fields::named_fields;
pub use held::{Held, NamedField};
pub use made::{MakeError, made_record};
pub use said::{is_record_of, is_type, says};
pub use sized::bits_of;
pub use telling::description;
