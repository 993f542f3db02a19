//! Messages that come whole, and what is sent for them.
ghost use Rattle.std.specs.Prelude.{◌≡◌, ◌<◌, length, option_map, IfOk};
ghost use Rattle.mctp_control.{specs.Devices.{device_value}, specs.EntryLists.{values_of}};
ghost use Rattle.mctp_transport.{specs.PacketValues.{IsUnit}, specs.Packets.{key_value}};
ghost use Rattle.emulated_node.{specs.ReceivedValues.{received_value}, specs.Replying.{RepliesTo}, specs.Termini.{terminus_value}};

use crate::received::{Reason, Received};
use crate::responding::{own_eid, respond};
use crate::sending::cut;
use arrayvec::ArrayVec;
use mctp_control::{Device, RouteEntry};
use mctp_transport::Key;
use pdr_repository::Terminus;
use std::alloc::{AllocError, Global};

/// Answers a message that came over a bus, if it is a request. The answer goes back over that bus, to where the request
/// came from, under its tag.
pub fn reply<T: Terminus>(
    alloc: Global,
    unit: usize,
    device: &mut Device,
    terminus: &mut Option<T>,
    bus: u8,
    entries: &[RouteEntry],
    asked: Key,
    request: &[u8],
) -> Result<Received, AllocError>
    requires unit { IsUnit unit }
    requires entries { length entries.now < 255 }
    ensures { let means = terminus_value T.tid T.records in
        IfOk result (λ received. RepliesTo unit (device_value device.old) (option_map means terminus.old) bus (values_of entries.now) (key_value asked)
        request.now (received_value received) (device_value device.new) (option_map means terminus.new)) }
{
    if !asked.owner {
        return Ok(Received::Dropped(Reason::NoRequest));
    }
    let mut out = ArrayVec::new();
    if !respond(device, terminus, bus, entries, request, &mut out) {
        return Ok(Received::Dropped(Reason::NoAnswer));
    }
    let key = Key {
        source: own_eid(device),
        tag: asked.tag,
        owner: false,
    };
    let packets = cut(alloc, unit, &out, asked.source, key)?;
    Ok(Received::Sent {
        bus: usize::from(bus),
        packets,
    })
}
