//! The packets that a network keeps.
ghost use Rattle.std.specs.Prelude.{◌<◌, ◌≤◌, length};
ghost use Rattle.net_sim.specs.Payloads.{payload_bytes};

use crate::payload::Payload;
use mctp_transport::{Header, PacketView};

/// A packet that holds its payload of 1 to 1024 bytes, in no more memory than these take where they are more than 64.
#[derive(Debug, Drop)]
pub struct KeptPacket {
    pub header: Header,
    payload: Payload,
    ghost some: { 0 < length (payload_bytes payload) },
    ghost most: { length (payload_bytes payload) ≤ 1024 },
}

impl KeptPacket {
    ghost use Rattle.std.specs.Prelude.{◌≡◌};
    ghost use Rattle.mctp_transport.specs.Packets.{packet_value_of};
    ghost use Rattle.net_sim.{specs.Payloads.{IsRoomFor}, specs.KeptPackets.{kept_frame}};

    /// The packet that a view shows, with its bytes. A long payload is copied into the room.
    pub fn of(view: PacketView, room: Vec<u8>) -> KeptPacket
        requires { IsRoomFor (length view.payload.now) room }
        ensures { kept_frame result ≡ packet_value_of view.entry }
    {
        KeptPacket {
            header: view.header,
            payload: Payload::of(view.payload, room),
        }
    }

    /// The packet, with its payload lent.
    pub fn view(&self) -> PacketView<'_>
        ensures { packet_value_of result ≡ kept_frame self.now }
    {
        PacketView::new(self.header, self.payload.as_slice())
    }
}
