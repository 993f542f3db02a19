//! The messages of a capture that came whole, each once.
ghost use Rattle.std.specs.Prelude.{IfOk, OnOk, map};
ghost use Rattle.bus_captures.specs.Values.{entry_value};
ghost use Rattle.mctp_transport.{specs.PacketValues.{IsUnit}, specs.Heard.{heard_answer}, specs.Packets.{packet_value_of}};
ghost use Rattle.heard_captures.{specs.Messages.{message_value, messages_of, came_of}, specs.Hearing.{AddsCame, HearsMore, AreHeard}, specs.Sights.{seen_of}};

use crate::seeing::{Sight, see};
use crate::stations::Stations;
use crate::times::Tally;
use bus_captures::{Capture, Entry, Interface};
use mctp_transport::{Eid, Heard, PacketView, Tag};
use std::alloc::{AllocError, Global};

/// A message that came whole in packets.
#[derive(Debug, Drop)]
pub struct Message {
    /// The endpoint ID that sent it.
    pub source: Eid,
    /// The endpoint ID to which it went.
    pub destination: Eid,
    /// Whether the sender owns the tag, as it does in a request.
    pub owner: bool,
    pub tag: Tag,
    /// Its bytes, the message type first; at most 4096.
    pub bytes: Vec<u8>,
}

/// The messages of a capture that came whole, in the order of the packets that ended them, under a transmission unit of
/// 64 to 1024 bytes. A message that goes over several interfaces is told once.
///
/// The packets to one destination on one interface are joined by an assembler of 16 slots for messages of at most 4096
/// bytes.
pub fn heard_messages(
    alloc: Global,
    unit: usize,
    capture: &Capture,
) -> Result<Vec<Message>, AllocError>
    requires { IsUnit unit }
    ensures { IfOk result (λ messages. AreHeard unit (map entry_value capture.now.entries.items) (map message_value messages.items)) }
{
    let mut stations = Stations::new(alloc);
    let mut tally = Tally::new(alloc);
    let mut messages = Vec::new(alloc);
    for entry in capture.entries.iter() {
        hear(alloc, &mut stations, &mut tally, unit, entry, &mut messages)?;
    }
    Ok(messages)
}

/// Says what becomes of an entry, and adds the message that it ends.
fn hear(
    alloc: Global,
    stations: &mut Stations,
    tally: &mut Tally,
    unit: usize,
    entry: &Entry,
    messages: &mut Vec<Message>,
) -> Result<(), AllocError>
    requires { IsUnit unit }
    ensures { OnOk result (HearsMore unit stations.old stations.new tally.old tally.new (entry_value entry.now) messages.old.items messages.new.items) }
{
    let sight = see(alloc, stations, unit, entry)?;
    add_ended(alloc, tally, messages, sight)
}

/// Adds the message that an entry ended, if it ended a new one.
fn add_ended(
    alloc: Global,
    tally: &mut Tally,
    messages: &mut Vec<Message>,
    sight: Sight,
) -> Result<(), AllocError>
    ensures { OnOk result (AddsCame (messages_of (seen_of sight.entry)) tally.old tally.new (map message_value messages.old.items) (map message_value messages.new.items)) }
{
    match sight {
        Sight::Fed(interface, packet, heard) => {
            add_heard(alloc, tally, messages, interface, &packet, heard)
        }
        Sight::NoPacket(_) | Sight::Told(..) | Sight::Other(_) | Sight::NotRead(_) => Ok(()),
    }
}

/// Adds the message that a packet ended, if it ended a new one.
fn add_heard(
    alloc: Global,
    tally: &mut Tally,
    messages: &mut Vec<Message>,
    interface: Interface,
    packet: &PacketView,
    heard: Heard,
) -> Result<(), AllocError>
    ensures { OnOk result (AddsCame (came_of interface (packet_value_of packet.now) (heard_answer heard)) tally.old tally.new (map message_value messages.old.items) (map message_value messages.new.items)) }
{
    let Heard::Whole(bytes) = heard else {
        return Ok(());
    };
    let message = Message {
        source: packet.header.source,
        destination: packet.header.destination,
        owner: packet.header.owner,
        tag: packet.header.tag,
        bytes,
    };
    if tally.count(alloc, interface, &message)? {
        messages.push(message)?;
    }
    Ok(())
}
