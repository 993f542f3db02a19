//! Packets that are sent.
ghost use Rattle.std.specs.Prelude.{◌≡◌, ◌≤◌, ◌<◌, List, length, map, IfOk};
ghost use Rattle.mctp_transport.{specs.Cutting.{ArePacketsOf}, specs.PacketValues.{PacketValue, IsUnit, packet_value_bytes}, specs.Packets.{packet_value_of, key_value}};

use mctp_transport::{Eid, Key, MAX_MESSAGE, PacketView, Packets, Seq};
use std::alloc::{AllocError, Global};

/// The bytes of a packet.
pub fn packet_bytes(alloc: Global, packet: &PacketView) -> Result<Vec<u8>, AllocError>
    ensures { IfOk result (λ bytes. bytes.items ≡ packet_value_bytes (packet_value_of packet.now)) }
{
    let mut bytes = vec![in alloc; 0; packet.len()]?;
    packet.put(bytes.as_mut_slice());
    Ok(bytes)
}

/// The bytes of the packets of a message of at most 4096 bytes, numbered from 0; none where it has no bytes.
pub fn cut(
    alloc: Global,
    unit: usize,
    message: &[u8],
    destination: Eid,
    key: Key,
) -> Result<Vec<Vec<u8>>, AllocError>
    requires unit { IsUnit unit }
    requires most { length message.now ≤ MAX_MESSAGE }
    ensures { IfOk result (λ packets. (frames : List PacketValue) × ArePacketsOf unit message.now destination.value (key_value key) 0 frames
        × (map (λ v. v.items) packets.items ≡ map packet_value_bytes frames)) }
{
    let mut cut = Vec::new(alloc);
    if message.is_empty() {
        return Ok(cut);
    }
    for packet in Packets::within(unit, message, destination, key, Seq::new(0)) {
        cut.push(packet_bytes(alloc, &packet)?)?;
    }
    Ok(cut)
}
