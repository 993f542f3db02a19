//! A certificate: what a plan's author claims of it.
ghost use Rattle.std.specs.Prelude.{◌≡◌, ◌+◌, ◌<◌, ◌≤◌};

use mctp_transport::{Eid, EidRun};

/// A run of endpoint IDs of one rank.
#[derive(Clone, Copy, Debug, PartialEq, Eq)]
pub struct RankRange {
    pub first: Eid,
    /// At least 1.
    pub rank: u8,
    /// How many endpoint IDs from the first on: at least 1, none of them over 255.
    pub size: u8,
    pub ghost ranked: { 0 < rank },
    pub ghost some: { 0 < size },
    pub ghost rank_within: { rank ≤ 255 },
    pub ghost size_within: { size ≤ 255 },
    pub ghost within: { first.value + size ≤ 256 },
}

impl RankRange {
    /// The endpoint IDs of the range.
    pub fn eids(&self) -> EidRun
        ensures { result ≡ record { first = self.now.first; size = self.now.size } }
    {
        EidRun {
            first: self.first,
            size: self.size,
        }
    }
}

/// The ranks that a certificate gives one node; an endpoint ID in none of the ranges has rank 0.
#[derive(Debug, Drop)]
pub struct NodeRanks {
    /// The index of the node in the plan's list.
    pub node: usize,
    pub ranges: Vec<RankRange>,
}

/// How many owners stand above a node.
#[derive(Clone, Copy, Debug, PartialEq, Eq)]
pub struct NodeLevel {
    /// 1 to 63.
    pub level: u8,
    /// The index of the node in the plan's list.
    pub node: usize,
    pub ghost owned: { 0 < level },
    pub ghost within: { level ≤ 63 },
}

/// The index of a record along the next handles of its list, 0 to 4,095.
#[derive(Clone, Copy, Debug, PartialEq, Eq)]
pub struct RecordPlace {
    pub value: u16,
    pub ghost in_range: { value < 4096 },
}

/// The places of one node's records, in the order of its list.
#[derive(Debug, Drop)]
pub struct NodePlaces {
    /// The index of the node in the plan's list.
    pub node: usize,
    pub places: Vec<RecordPlace>,
}

/// What is claimed of a plan: how many owners each node has above it, where each record stands along the next handles,
/// and how many moves each endpoint ID is from each node.
#[derive(Debug, Drop)]
pub struct Certificate {
    pub levels: Vec<NodeLevel>,
    pub places: Vec<NodePlaces>,
    pub ranks: Vec<NodeRanks>,
}
