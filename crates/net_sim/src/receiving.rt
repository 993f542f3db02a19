//! A packet that has come to its node (DSP0236, "Message assembly"), and the room that this takes.
ghost use Rattle.std.specs.Prelude.{◌≡◌, ◌≤◌, [], length, vec_capacity, true, IfOk, OnErr};
ghost use Rattle.mctp_transport.{specs.Histories.{History, Arrived, after}, specs.Hearing.{Hears}, specs.Assembly.{HoldsHistory, assembler_slots, assembler_limit}};
ghost use Rattle.net_sim.{specs.KeptPackets.{kept_frame}, specs.Receiving.{receipt_value, HasRoomAfter}};

use crate::kept_packet::KeptPacket;
use mctp_transport::{Assembler, DropCause, Fed, Header, MAX_MESSAGE};
use std::alloc::{AllocError, Global};

/// What an assembler made of a packet.
#[derive(Debug, Drop)]
pub enum Receipt {
    /// The packet ended this message.
    Whole(Vec<u8>),
    Held,
    Dropped(DropCause),
}

/// Room for the message that a packet with this header may end: 4096 bytes, and none where it ends none.
pub fn room_for_message(alloc: Global, header: Header) -> Result<Vec<u8>, AllocError>
    ensures empty { IfOk result (λ room. room.items ≡ []) }
    ensures room { IfOk result (HasRoomAfter header) }
    ensures full { OnErr result (header.eom ≡ true) }
{
    if header.eom {
        Vec::with_capacity(alloc, MAX_MESSAGE)
    } else {
        Ok(Vec::new(alloc))
    }
}

/// A message in memory of its own length or, where that is refused, in the room.
pub fn kept(alloc: Global, message: &[u8], mut room: Vec<u8>) -> Vec<u8>
    requires { room.items ≡ [] }
    ensures { length message.now ≤ vec_capacity room → result.items ≡ message.now }
{
    match Vec::from_slice(alloc, message) {
        Ok(own) => own,
        Err(_) => {
            let _ = room.extend_from_slice(message);
            room.shrink_to_fit();
            room
        }
    }
}

/// Feeds a packet to an assembler. A message that comes is kept, in the room at worst.
pub fn feed(alloc: Global, assembler: &mut Assembler, packet: &KeptPacket, room: Vec<u8>) -> Receipt
    requires empty { room.items ≡ [] }
    requires room { HasRoomAfter packet.now.header room }
    requires limit { assembler_limit assembler.old ≤ 4096 }
    ensures slots { assembler_slots assembler.new ≡ assembler_slots assembler.old }
    ensures limit { assembler_limit assembler.new ≡ assembler_limit assembler.old }
    ensures hears { (h : History) → HoldsHistory assembler.old h
        → Hears (assembler_slots assembler.old) (assembler_limit assembler.old) h (kept_frame packet.now) (receipt_value result) }
    ensures stands { (h : History) → HoldsHistory assembler.old h
        → HoldsHistory assembler.new (after h (Arrived (kept_frame packet.now))) }
{
    match assembler.feed(packet.view()) {
        Fed::Whole(message) => Receipt::Whole(kept(alloc, message, room)),
        Fed::Held => Receipt::Held,
        Fed::Dropped(why) => Receipt::Dropped(why),
    }
}
