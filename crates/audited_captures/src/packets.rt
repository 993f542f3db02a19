//! The packets of a capture.
ghost use Rattle.std.specs.Prelude.{◌≡◌, ◌++◌, ◌∷◌, [], IfOk, OnOk, MatchOption, map};
ghost use Rattle.bus_captures.specs.Values.{entry_value};
ghost use Rattle.mctp_transport.specs.PacketValues.{PacketValue, IsUnit, Spelled};
ghost use Rattle.audited_captures.{specs.Packets.{numbered_packet, numbered, IsPacket, IsNoPacket, ArePackets}, specs.PacketSteps.{AddsPacket}};

use bus_captures::{Capture, Entry, Kind};
use mctp_transport::{Eid, PacketView};
use std::alloc::{AllocError, Global};

/// A packet of a capture.
#[derive(Clone, Copy, Debug)]
pub struct CapturedPacket {
    /// Its number among the entries, from 1.
    pub number: usize,
    pub source: Eid,
    pub destination: Eid,
}

/// The packets of a capture under a transmission unit of 64 to 1024 bytes, in their order.
pub fn packets_of(
    alloc: Global,
    unit: usize,
    capture: &Capture,
) -> Result<Vec<CapturedPacket>, AllocError>
    requires { IsUnit unit }
    ensures { IfOk result (λ packets. ArePackets unit (map entry_value capture.now.entries.items) (map numbered_packet packets.items)) }
{
    let mut packets = Vec::new(alloc);
    for (i, entry) in capture.entries.iter().enumerate() {
        add_packet(&mut packets, unit, i + 1, entry)?;
    }
    Ok(packets)
}

/// Adds an entry of this number, if it is a packet.
fn add_packet(
    packets: &mut Vec<CapturedPacket>,
    unit: usize,
    number: usize,
    entry: &Entry,
) -> Result<(), AllocError>
    requires { IsUnit unit }
    ensures { OnOk result (AddsPacket unit number (entry_value entry.now) (map numbered_packet packets.old.items) (map numbered_packet packets.new.items)) }
{
    match packet_of(unit, number, entry) {
        Some(packet) => Ok(packets.push(packet)?),
        None => Ok(()),
    }
}

fn packet_of(unit: usize, number: usize, entry: &Entry) -> Option<CapturedPacket>
    requires { IsUnit unit }
    ensures { MatchOption result (IsNoPacket unit (entry_value entry.now))
        (λ packet. (f : PacketValue) × IsPacket unit (entry_value entry.now) f × (numbered_packet packet ≡ numbered number f)) }
{
    match entry.kind {
        Kind::Packet => packet_in(unit, number, &entry.bytes),
        Kind::Message | Kind::Other(_) | Kind::Unread(_) => None,
    }
}

/// The packet that the bytes are, all of them.
fn packet_in(unit: usize, number: usize, bytes: &[u8]) -> Option<CapturedPacket>
    requires { IsUnit unit }
    ensures { MatchOption result ((f : PacketValue) → ¬ Spelled unit f bytes.now)
        (λ packet. (f : PacketValue) × Spelled unit f bytes.now × (numbered_packet packet ≡ numbered number f)) }
{
    match PacketView::read_within(bytes, unit) {
        Ok(packet) => Some(CapturedPacket {
            number,
            source: packet.header.source,
            destination: packet.header.destination,
        }),
        Err(_) => None,
    }
}
