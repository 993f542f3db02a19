//! MCTP control messages (DSP0236, "MCTP control messages"): the four commands that give out endpoint IDs and routes,
//! the devices that answer them, and pools of endpoint IDs. Sections are those of DSP0236 1.3.
#![tactic(auto)]

mod command_number;
mod control_error;
mod device;
mod eid_pool;
mod eid_range;
mod entries;
mod header;
mod laws;
mod operations;
mod replies;
mod request;
mod response;
mod route_entry;
mod statuses;

pub use command_number::CommandNumber;
pub use control_error::ControlError;
pub use device::Device;
pub use eid_pool::EidPool;
pub use eid_range::EidRange;
pub use entries::{Entries, MAX_ENTRIES, MAX_ENTRY_BYTES};
pub use header::{ControlHeader, ControlInstanceId};
pub use laws::one_reply;
pub use mctp_transport::DeviceKind;
pub use operations::{AllocateOperation, ReservedBits, SetOperation};
pub use replies::MAX_BODY;
pub use request::{ControlCommand, Request};
pub use response::{CompletionCode, ControlAnswer, Response};
pub use route_entry::{EntryKind, EntryPort, MAX_ADDRESS, RouteEntry};
pub use statuses::{
    Acceptance, Allocation, EidType, EndpointStatus, EndpointType, PoolStatus, ReservedPair,
    SetStatus,
};
