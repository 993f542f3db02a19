//! One request of an assignment.

use mctp_control::Request;

/// A request to a node, and the bus over which it goes. `Wire::put` gives the request's bytes.
#[derive(Clone, Copy, Debug, PartialEq, Eq)]
pub struct Assignment {
    /// The index of the bus in the plan's list.
    pub bus: usize,
    /// The index of the node in the plan's list.
    pub node: usize,
    pub body: Request,
}
