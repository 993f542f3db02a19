//! A step of a packet's way.
use mctp_routing::Hop;

/// Where a node sends a packet.
#[derive(Clone, Copy, Debug, PartialEq, Eq)]
pub struct WayStep {
    /// The index of the node in the plan's list.
    pub node: usize,
    /// The port by which the packet leaves, and the next node.
    pub hop: Hop,
}
