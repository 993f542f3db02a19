//! The texts of the program itself: what codes mean, the guides to the commands, and the JSON schemas.
#![tactic(auto)]

mod codes;
mod guides;
mod schemas;

pub use codes::text_of;
pub use guides::{GUIDE, VERSION, guide_to};
pub use schemas::schema_of;
