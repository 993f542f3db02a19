//! What becomes of the entries of a capture.
ghost use Rattle.std.specs.Prelude.{◌≡◌, IfOk};
ghost use Rattle.bus_captures.specs.Values.{entry_value};
ghost use Rattle.mctp_transport.specs.PacketValues.{IsUnit};
ghost use Rattle.heard_captures.{specs.Sights.{seen_of}, specs.Steps.{Sees}};

use crate::stations::Stations;
use bus_captures::{Direction, Entry, Interface, Kind, Unread};
use mctp_transport::{Heard, PacketError, PacketView};
use std::alloc::{AllocError, Global};

/// What became of an entry.
#[derive(Debug, Drop)]
pub enum Sight<'e> {
    /// A packet on an interface, and what the assembler of its destination there made of it.
    Fed(Interface, PacketView<'e>, Heard),
    /// Bytes that are no packet, and why.
    NoPacket(PacketError),
    /// A message that was captured whole, and which way it went.
    Told(Option<Direction>, &'e [u8]),
    /// Something of another protocol, by its number.
    Other(u16),
    /// Something that isn't read, and why.
    NotRead(Unread),
}

/// Says what becomes of an entry under a transmission unit of 64 to 1024 bytes. A packet is given to the assembler of
/// its interface and destination.
pub fn see<'e>(
    alloc: Global,
    stations: &mut Stations,
    unit: usize,
    entry: &'e Entry,
) -> Result<Sight<'e>, AllocError>
    requires unit { IsUnit unit }
    ensures { IfOk result (λ sight. Sees unit stations.old stations.new (entry_value entry.now) (seen_of sight)) }
{
    match entry.kind {
        Kind::Packet => see_packet(alloc, stations, unit, entry),
        Kind::Message => Ok(Sight::Told(entry.direction, &entry.bytes)),
        Kind::Other(protocol) => Ok(Sight::Other(protocol)),
        Kind::Unread(why) => Ok(Sight::NotRead(why)),
    }
}

/// Says what becomes of bytes that may be a packet.
fn see_packet<'e>(
    alloc: Global,
    stations: &mut Stations,
    unit: usize,
    entry: &'e Entry,
) -> Result<Sight<'e>, AllocError>
    requires kind { entry.now.kind ≡ Kind.Packet }
    requires unit { IsUnit unit }
    ensures { IfOk result (λ sight. Sees unit stations.old stations.new (entry_value entry.now) (seen_of sight)) }
{
    match PacketView::read_within(&entry.bytes, unit) {
        Ok(packet) => {
            let heard = stations.feed(alloc, entry.interface, packet)?;
            Ok(Sight::Fed(entry.interface, packet, heard))
        }
        Err(error) => Ok(Sight::NoPacket(error)),
    }
}
