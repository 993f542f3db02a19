//! Packets that are sent in a network of emulated nodes, and what becomes of them.
use crate::received::Reason;
use crate::way::Way;
use mctp_transport::PacketError;

/// How often a packet is sent on at most.
pub const MOST_HOPS: u8 = 64;

/// A packet that was sent.
#[derive(Drop)]
pub struct SentPacket {
    pub way: Way,
    /// How often it was sent on: 0 where nobody has yet.
    pub hops: u8,
    pub bytes: Vec<u8>,
}

/// What became of a packet.
#[derive(Clone, Copy)]
pub enum Handled {
    /// It comes out: no emulated node is where it goes.
    Out,
    /// It was sent on too often.
    Worn,
    /// Its bytes are no packet.
    NoPacket(PacketError),
    /// It reached a node, where it waits for the next packets of its message.
    Held,
    /// It reached a node, which sends nothing for it.
    Dropped(Reason),
    /// It reached a node, which sent packets for it.
    Sent,
}
