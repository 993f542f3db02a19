//! Where packets go.
ghost use Rattle.std.specs.Prelude.{◌≡◌, ◌≢◌, false};
ghost use Rattle.mctp_routing.{specs.declared.decision.Decision.TheVariants.{Here}, specs.Decisions.{IsDecided}};
ghost use Rattle.mctp_control.specs.Devices.{device_value, present_eid};

use crate::responding::own_eid;
use mctp_control::Device;
use mctp_routing::{Decision, DeviceKind, ForwardingNode, RangeTable, decide};
use mctp_transport::Header;

/// What a node decides on a packet that came over a bus. One for the endpoint ID 0 is for the node that it reaches.
pub fn decide_on(device: &Device, kind: DeviceKind, table: &RangeTable, header: &Header) -> Decision
    ensures null { header.now.destination.value ≡ 0 → result ≡ Here }
    ensures decided { header.now.destination.value ≢ 0
        → IsDecided (present_eid (device_value device.now).eid) kind table.now false header.now.destination.value result }
{
    if header.destination.value == 0 {
        return Decision::Here;
    }
    let node = ForwardingNode {
        eid: own_eid(device),
        kind,
        table,
    };
    decide(&node, false, header)
}
