//! The payloads of the packets that a network keeps, and the rooms that they take.
ghost use Rattle.std.specs.Prelude.{◌≡◌, ◌*◌, ◌<◌, ◌≤◌, ◌∷◌, List, length, All, IfOk, OnErr};
ghost use Rattle.mctp_transport.specs.PacketValues.{PacketValue, IsUnit};
ghost use Rattle.net_sim.specs.Payloads.{payload_bytes, IsRoomFor, HaveRooms};

use arrayvec::ArrayVec;
use mctp_transport::BASELINE_UNIT;
use pdr_repository::MAX_ANSWER;
use std::alloc::{AllocError, Global};

/// A payload. One of up to 64 bytes stands in its place; under the baseline unit each does. A longer one has memory of
/// its own.
#[derive(Debug, Drop)]
pub enum Payload {
    Short(ArrayVec<u8, BASELINE_UNIT>),
    Long(Vec<u8>),
}

impl Payload {
    /// A payload of these bytes. A long one is copied into the room.
    pub fn of(bytes: &[u8], mut room: Vec<u8>) -> Payload
        requires { IsRoomFor (length bytes.now) room }
        ensures { payload_bytes result ≡ bytes.now }
    {
        if bytes.len() <= BASELINE_UNIT {
            let mut short = ArrayVec::new();
            let _ = short.try_extend_from_slice(bytes);
            Payload::Short(short)
        } else {
            let _ = room.extend_from_slice(bytes);
            room.shrink_to_fit();
            Payload::Long(room)
        }
    }

    /// Its bytes.
    pub fn as_slice(&self) -> &[u8]
        ensures { result.now ≡ payload_bytes self.now }
    {
        match self {
            Payload::Short(bytes) => bytes.as_slice(),
            Payload::Long(bytes) => bytes.as_slice(),
        }
    }
}

/// Room for a payload of so many bytes. A short one takes none.
pub fn room_for_payload(alloc: Global, count: usize) -> Result<Vec<u8>, AllocError>
    ensures room { IfOk result (IsRoomFor count) }
    ensures full { OnErr result (64 < count) }
{
    if count <= BASELINE_UNIT {
        Ok(Vec::new(alloc))
    } else {
        Vec::with_capacity(alloc, count)
    }
}

/// Takes a room off for the payload of the first of some packets. Where no room is left, the packets need none.
pub fn take_room(alloc: Global, rooms: &mut Vec<Vec<u8>>) -> Vec<u8>
    ensures first { (f : PacketValue) (fs : List PacketValue) → HaveRooms (f ∷ fs) rooms.old.items → IsRoomFor (length f.payload) result }
    ensures others { (f : PacketValue) (fs : List PacketValue) → HaveRooms (f ∷ fs) rooms.old.items → HaveRooms fs rooms.new.items }
{
    match rooms.pop() {
        Some(room) => room,
        None => Vec::new(alloc),
    }
}

/// Rooms for the payloads of the longest answer under a transmission unit.
pub fn rooms_for_answer(alloc: Global, unit: usize) -> Result<Vec<Vec<u8>>, AllocError>
    requires { IsUnit unit }
    ensures enough { IfOk result (λ rooms. 64 < unit → 4096 ≤ length rooms.items * unit) }
    ensures rooms { IfOk result (λ rooms. All (IsRoomFor unit) rooms.items) }
    ensures full { OnErr result (64 < unit) }
{
    if unit <= BASELINE_UNIT {
        return Ok(Vec::new(alloc));
    }
    let mut rooms = Vec::new(alloc);
    for _ in 0..MAX_ANSWER.div_ceil(unit) {
        rooms.push(room_for_payload(alloc, unit)?)?;
    }
    Ok(rooms)
}
