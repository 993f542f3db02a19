//! What `script` is asked.
use crate::flights::Flights;
use crate::part_size::PartSize;
use mctp_transport::Eid;

/// A walk whose events are asked for.
#[derive(Clone, Copy)]
pub struct WalkScript<'a> {
    /// The name of the node that asks.
    pub node: &'a str,
    /// The endpoint ID of the terminus.
    pub eid: Eid,
    pub part: PartSize,
    /// Flights that are lost.
    pub lost: Flights<'a>,
    /// Flights that come twice.
    pub repeated: Flights<'a>,
}
