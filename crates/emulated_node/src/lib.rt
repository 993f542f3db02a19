//! A node of a plan as a device that answers: it takes packets in, one after another, and says which it sends for each.
#![tactic(auto)]

mod deciding;
mod emulated;
mod handled;
mod hearing;
mod network;
mod received;
mod replying;
mod responding;
mod sending;
mod way;

pub use emulated::Emulated;
pub use handled::{Handled, SentPacket};
pub use network::{EmulatedNetwork, Spread, destination_of};
pub use received::{Reason, Received};
pub use way::{Way, is_at};
