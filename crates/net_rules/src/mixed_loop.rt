//! Loops of what is on its way while nodes move from one plan to another.

use mctp_transport::Eid;

/// The plan whose row is gone by.
#[derive(Clone, Copy, Debug, PartialEq, Eq)]
pub enum Side {
    /// The plan before.
    Old,
    /// The plan after.
    New,
}

/// A loop of what is for an endpoint ID, along rows of either plan.
#[derive(Debug, Drop)]
pub struct MixedLoop {
    /// The endpoint ID.
    pub eid: Eid,
    /// The nodes from the first one on, along the rows, back to itself, so that the first stands there twice. No other
    /// does, so each node goes by one of its rows.
    pub nodes: Vec<usize>,
    /// The plan of the row from each of the nodes but the last.
    pub sides: Vec<Side>,
}
