//! What assemblers make of packets, with the messages that come whole copied.
ghost use Rattle.std.specs.Prelude.{◌≡◌, All, IfOk, length};
ghost use Rattle.mctp_transport.{specs.Assembly.{HoldsHistory, assembler_slots, assembler_limit}, specs.Heard.{IsIdle, heard_answer}, specs.Hearing.{HearsOnly, Whole}, specs.Histories.{History, Arrived, after}, specs.Packets.{packet_value_of}};

use crate::assembler::{Assembler, Fed};
use crate::cutting::MAX_MESSAGE;
use crate::drop_cause::DropCause;
use crate::packet::PacketView;
use std::alloc::{AllocError, Global};

/// How many messages an idle assembler joins at once.
const SLOTS: usize = 16;

/// What an assembler made of a packet.
#[derive(Debug, Drop)]
pub enum Heard {
    /// The packet ended this message.
    Whole(Vec<u8>),
    /// The packet's message is open: more of its packets have to come.
    Held,
    /// The packet was dropped.
    Dropped(DropCause),
}

/// So many assemblers, each of 16 slots for messages of at most 4096 bytes, to which nothing was given.
pub fn idle_assemblers(alloc: Global, count: usize) -> Result<Vec<Assembler>, AllocError>
    ensures many { IfOk result (λ assemblers. length assemblers.items ≡ count) }
    ensures idle { IfOk result (λ assemblers. All IsIdle assemblers.items) }
{
    let mut assemblers = Vec::new(alloc);
    for _ in 0..count {
        assemblers.push(Assembler::new(alloc, SLOTS, MAX_MESSAGE)?)?;
    }
    Ok(assemblers)
}

/// Gives a packet to an assembler. A message that comes is copied. Where there is no memory for the copy, the assembler
/// has taken the packet all the same, and the message is lost.
pub fn hear(
    alloc: Global,
    assembler: &mut Assembler,
    packet: PacketView,
) -> Result<Heard, AllocError>
    ensures slots { assembler_slots assembler.new ≡ assembler_slots assembler.old }
    ensures limit { assembler_limit assembler.new ≡ assembler_limit assembler.old }
    ensures hears { IfOk result (λ heard. (h : History) → HoldsHistory assembler.old h
        → HearsOnly (assembler_slots assembler.old) (assembler_limit assembler.old) h (packet_value_of packet.entry) (heard_answer heard)) }
    ensures stands { (h : History) → HoldsHistory assembler.old h
        → HoldsHistory assembler.new (after h (Arrived (packet_value_of packet.entry))) }
{
    match assembler.feed(packet) {
        Fed::Whole(message) => whole(alloc, message),
        Fed::Held => Ok(Heard::Held),
        Fed::Dropped(why) => Ok(Heard::Dropped(why)),
    }
}

/// A message that came, copied.
fn whole(alloc: Global, message: &[u8]) -> Result<Heard, AllocError>
    ensures { IfOk result (λ heard. heard_answer heard ≡ Whole message.now) }
{
    Ok(Heard::Whole(Vec::from_slice(alloc, message)?))
}
