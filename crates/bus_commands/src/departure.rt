//! Packets that are about to move.
ghost use Rattle.std.specs.Prelude.{◌≤◌, length};

use mctp_transport::Eid;

/// A packet that an event is to move, and the node where it is.
#[derive(Drop)]
pub struct Departure {
    pub node: usize,
    pub destination: Eid,
    /// The packet: at most 1028 bytes.
    pub bytes: Vec<u8>,
    pub ghost few: { length bytes.items ≤ 1028 },
}
