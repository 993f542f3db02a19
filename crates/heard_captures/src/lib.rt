//! What was heard in a capture: what an assembler makes of each packet, and the messages that came whole.
#![tactic(auto)]

mod laws;
mod messages;
mod seeing;
mod stations;
mod times;

pub use laws::one_entry_more;
pub use messages::{Message, heard_messages};
pub use seeing::{Sight, see};
pub use stations::Stations;
