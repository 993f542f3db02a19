//! Requests, and what answers them.
ghost use Rattle.std.specs.Prelude.{◌≡◌, ◌↔◌, ◌<◌, IsTrue, length, option_map, slice_index};
ghost use Rattle.mctp_control.{specs.Devices.{device_value, present_eid}, specs.EntryLists.{values_of}, specs.Replies.{Replies}};
ghost use Rattle.pdr_repository.specs.Answers.{answer_of};
ghost use Rattle.emulated_node.{specs.Responding.{Responds}, specs.Termini.{terminus_value}};

use arrayvec::ArrayVec;
use mctp_control::{Device, RouteEntry};
use mctp_transport::Eid;
use pdr_repository::{MAX_ANSWER, Terminus};

/// The message type of MCTP control messages.
const CONTROL: u8 = 0;

/// Writes the answer to a request that comes over a bus, and says whether there is one. The device answers control
/// messages, and the terminus all others.
pub fn respond<T: Terminus>(
    device: &mut Device,
    terminus: &mut Option<T>,
    bus: u8,
    entries: &[RouteEntry],
    request: &[u8],
    out: &mut ArrayVec<u8, MAX_ANSWER>,
) -> bool
    requires { length entries.now < 255 }
    ensures responds { Responds (device_value device.old) (option_map (terminus_value T.tid T.records) terminus.old) bus (values_of entries.now)
        request.now (answer_of result out.new.items) (device_value device.new) (option_map (terminus_value T.tid T.records) terminus.new) }
{
    if is_control(request) {
        return control(device, bus, entries, request, out);
    }
    match terminus {
        Some(terminus) => terminus.answer(request, out),
        None => false,
    }
}

/// Whether the device is to answer the request. It has no answer to one without any byte.
fn is_control(request: &[u8]) -> bool
    ensures { IsTrue result ↔ (slice_index request.now 0 ≡ 0) }
{
    match request {
        [message_type, ..] => *message_type == CONTROL,
        [] => true,
    }
}

/// Writes the device's answer.
fn control(
    device: &mut Device,
    bus: u8,
    entries: &[RouteEntry],
    request: &[u8],
    out: &mut ArrayVec<u8, MAX_ANSWER>,
) -> bool
    requires { length entries.now < 255 }
    ensures replies { Replies (device_value device.old) bus (values_of entries.now) request.now (answer_of result out.new.items) (device_value device.new) }
{
    out.clear();
    match device.answer(bus, entries, request) {
        Some(reply) => {
            let _ = out.try_extend_from_slice(&reply);
            true
        }
        None => false,
    }
}

/// The endpoint ID that a device holds, 0 for none.
pub fn own_eid(device: &Device) -> Eid
    ensures { result.value ≡ present_eid (device_value device.now).eid }
{
    match device.eid() {
        Some(eid) => eid,
        None => Eid::new(0),
    }
}
