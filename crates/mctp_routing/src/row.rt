//! A row of a routing table (DSP0236, bridging).
ghost use Rattle.std.specs.Prelude.{◌≡◌, ◌+◌, ◌↔◌, IsTrue};
ghost use Rattle.mctp_routing.specs.Rows.{IsEmpty, IsOutside, AreApart, Covers};

use mctp_transport::{Eid, EidRun};

/// Where a row sends packets.
#[derive(Clone, Copy, Debug, PartialEq, Eq)]
pub struct Hop {
    /// The number of the port through which they leave.
    pub port: u8,
    /// The number of the node that gets them next.
    pub next: usize,
}

/// A row of a routing table: where packets to a run of endpoint IDs go.
#[derive(Clone, Copy, Debug, PartialEq, Eq)]
pub struct TableRow {
    /// The first endpoint ID that the row covers.
    pub first: Eid,
    /// How many it covers from there, as far as 255.
    pub size: u8,
    /// Where they go from here.
    pub hop: Hop,
}

impl TableRow {
    /// The endpoint IDs of the row. It covers those that are at most 255.
    fn eids(&self) -> EidRun
        ensures { result ≡ record { first = self.now.first; size = self.now.size } }
    {
        EidRun {
            first: self.first,
            size: self.size,
        }
    }

    /// Whether the row covers the endpoint ID.
    pub fn covers(&self, eid: Eid) -> bool
        ensures { IsTrue result ↔ Covers self.now eid.value }
    {
        self.eids().contains(eid)
    }

    /// Whether it covers no endpoint ID.
    pub(crate) fn is_empty(&self) -> bool
        ensures { IsTrue result ↔ IsEmpty self.now }
    {
        self.size == 0
    }

    /// Whether it begins below 8 or reaches past 254.
    pub(crate) fn is_outside(&self) -> bool
        ensures { IsTrue result ↔ IsOutside self.now }
    {
        self.first.value < 8 || self.end() > 255
    }

    /// Whether no endpoint ID lies in both rows.
    #[tactic(auto, unfolding(crate::specs::Rows::AreApart))]
    pub(crate) fn is_apart_from(&self, other: &TableRow) -> bool
        ensures { IsTrue result ↔ AreApart self.now other.now }
    {
        self.eids().is_apart_from(other.eids())
    }

    /// The number after the last endpoint ID that a row's size reaches.
    pub(crate) fn end(&self) -> u16
        ensures { result ≡ self.now.first.value + self.now.size }
    {
        self.eids().end()
    }
}
