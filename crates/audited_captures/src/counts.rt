//! How many packets went from each endpoint ID to each.
ghost use Rattle.std.specs.Prelude.{◌≡◌, ◌+◌, ◌<◌, ◌==◌, ◌++◌, ◌∷◌, [], ℕ, IfOk, OnOk, List, map, length, slice_index_or, slice_set, if◌then◌else◌};
ghost use Rattle.audited_captures.{specs.Packets.{NumberedPacket, numbered_packet, count_like, AreFirst}, specs.Counts.{place_of, AreCounts}};

use crate::packets::CapturedPacket;
use std::alloc::{AllocError, Global};

/// How many endpoint IDs there are.
const EIDS: usize = 256;

/// The first packets from each endpoint ID to each, in their order, and how many there are.
#[derive(Debug, Drop)]
pub struct FirstPackets {
    pub packets: Vec<CapturedPacket>,
    /// A place for each source and destination.
    counts: Vec<usize>,
}

impl FirstPackets {
    ghost use Rattle.std.specs.Prelude.{◌≡◌, ◌<◌, List, length};
    ghost use Rattle.audited_captures.{specs.Packets.{NumberedPacket, numbered_packet, count_like}, specs.Counts.{AreCounts}};

    /// How many packets went the way of this one, itself among them.
    pub fn count_like(&self, packet: &CapturedPacket) -> usize
        requires { length self.now.counts.items ≡ 65536 }
        ensures { (ps : List NumberedPacket) → AreCounts ps self.now.counts.items → result ≡ count_like (numbered_packet packet.now) ps }
    {
        self.counts[place_of(packet)]
    }
}

/// The first packets from each endpoint ID to each.
pub fn first_packets(alloc: Global, packets: &[CapturedPacket]) -> Result<FirstPackets, AllocError>
    ensures first { IfOk result (λ found. AreFirst (map numbered_packet packets.now) (map numbered_packet found.packets.items)) }
    ensures counts { IfOk result (λ found. AreCounts (map numbered_packet packets.now) found.counts.items) }
{
    let mut counts = vec![in alloc; 0; EIDS * EIDS]?;
    let mut firsts = Vec::new(alloc);
    for packet in packets {
        let before = count(&mut counts, packet);
        add_if_first(&mut firsts, packet, before)?;
    }
    Ok(FirstPackets {
        packets: firsts,
        counts,
    })
}

/// Counts a packet, and says how many went its way before it.
fn count(counts: &mut Vec<usize>, packet: &CapturedPacket) -> usize
    requires many { length counts.old.items ≡ 65536 }
    requires few { slice_index_or counts.old.items (place_of packet.now.source.value packet.now.destination.value) 0 < 18446744073709551615 }
    ensures before { result ≡ slice_index_or counts.old.items (place_of packet.now.source.value packet.now.destination.value) 0 }
    ensures counted { counts.new.items ≡ slice_set counts.old.items (place_of packet.now.source.value packet.now.destination.value) (result + 1) }
{
    let place = place_of(packet);
    let before = counts[place];
    counts[place] = before + 1;
    before
}

fn place_of(packet: &CapturedPacket) -> usize
    ensures within { result < 65536 }
    ensures place { result ≡ place_of packet.now.source.value packet.now.destination.value }
{
    packet.source.value as usize * EIDS + packet.destination.value as usize
}

/// Adds a packet, if none went its way before it.
fn add_if_first(
    firsts: &mut Vec<CapturedPacket>,
    packet: &CapturedPacket,
    before: usize,
) -> Result<(), AllocError>
    ensures { OnOk result (firsts.new.items ≡ firsts.old.items ++ (if before == 0 then packet.now ∷ [] else [])) }
{
    if before == 0 {
        firsts.push(*packet)?;
    }
    Ok(())
}
