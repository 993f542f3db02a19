//! The requests of an assignment (DSP0236, "Set Endpoint ID" and "Allocate Endpoint IDs"), with instance ID 0.
ghost use Rattle.std.specs.Prelude.{◌≡◌};
ghost use Rattle.mctp_control.{specs.Headers.{header_value}, specs.Requests.{request_value}};
ghost use Rattle.net_sim.specs.Assignments.{plain_header, sets_eid, allocates_pool};

use mctp_control::{
    AllocateOperation, ControlCommand, ControlHeader, ControlInstanceId, Request, ReservedBits,
    SetOperation,
};
use mctp_transport::Eid;
use plan_values::Pool;

/// The header of a request that wants a response.
fn header() -> ControlHeader
    ensures { header_value result ≡ plain_header }
{
    ControlHeader {
        datagram: false,
        reserved: false,
        instance: ControlInstanceId::new(0),
    }
}

/// Set Endpoint ID.
pub fn set_eid(eid: Eid) -> Request
    ensures { request_value result ≡ sets_eid eid.value }
{
    Request {
        header: header(),
        command: ControlCommand::SetEndpointId {
            operation: SetOperation::Set,
            reserved: ReservedBits::new(0),
            eid,
        },
    }
}

/// Allocate Endpoint IDs.
pub fn allocate_pool(pool: Pool) -> Request
    ensures { request_value result ≡ allocates_pool pool }
{
    Request {
        header: header(),
        command: ControlCommand::AllocateEndpointIds {
            operation: AllocateOperation::Allocate,
            reserved: ReservedBits::new(0),
            size: pool.size,
            first: pool.first,
        },
    }
}
