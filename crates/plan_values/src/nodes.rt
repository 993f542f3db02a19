//! Buses, and nodes with their ports, routing tables, owners and pools.
ghost use Rattle.std.specs.Prelude.{◌≡◌, ◌≤◌, vec_len};

use crate::name::Name;
use crate::terminus::PlannedTerminus;
use mctp_transport::{Eid, EidRun};

/// An MCTP bus segment.
#[derive(Debug, Drop)]
pub struct Bus {
    pub name: Name,
    /// The physical transport binding identifier of its packets (DSP0239).
    pub binding: u8,
    /// The physical media identifier of its packets (DSP0239).
    pub media: u8,
}

/// What a node does with the packets of others.
#[derive(Clone, Copy, Debug, PartialEq, Eq)]
pub enum Kind {
    /// It forwards packets by its rows.
    Bridge,
    /// It only sends its own.
    Endpoint,
}

/// A node's connection to a bus, with its physical address there.
#[derive(Debug, Drop)]
pub struct Port {
    /// The index of the bus in the plan's list.
    pub bus: usize,
    /// The node's physical address on the bus: at most 8 bytes, in the order in which they are written.
    pub address: Vec<u8>,
    pub ghost short: { vec_len address ≤ 8 },
}

/// A row of a routing table: where packets to some endpoint IDs, one after another, go.
#[derive(Clone, Copy, Debug, PartialEq, Eq)]
pub struct Row {
    /// The first endpoint ID that the row covers.
    pub first: Eid,
    /// How many it covers from there. `check` asks for at least one, none over 254.
    pub size: u8,
    /// The index, in the node's list of ports, of the port through which the packets leave.
    pub port: u8,
    /// The index of the next node in the plan's list.
    pub next: usize,
}

impl Row {
    /// The endpoint IDs that the row covers.
    pub fn eids(&self) -> EidRun
        ensures { result ≡ record { first = self.now.first; size = self.now.size } }
    {
        EidRun {
            first: self.first,
            size: self.size,
        }
    }
}

/// An EID pool (DSP0236): the endpoint IDs, one after another, that a bridge gives to the nodes behind it.
#[derive(Clone, Copy, Debug, PartialEq, Eq)]
pub struct Pool {
    /// The first endpoint ID of the pool.
    pub first: Eid,
    /// How many it has from there.
    pub size: u8,
}

impl Pool {
    /// The endpoint IDs of the pool.
    pub fn eids(self) -> EidRun
        ensures { result ≡ record { first = self.first; size = self.size } }
    {
        EidRun {
            first: self.first,
            size: self.size,
        }
    }
}

/// A node of a plan: a bridge or an endpoint.
#[derive(Debug, Drop)]
pub struct Node {
    pub name: Name,
    pub kind: Kind,
    /// The endpoint ID that the node holds. Any byte may stand here; `check` asks for one of 8 to 254.
    pub eid: Eid,
    /// The index, in the plan's list, of the bus owner that gives the node its endpoint ID. `None` where nobody does.
    pub owner: Option<usize>,
    /// The endpoint IDs that the node gives to others, where it does.
    pub pool: Option<Pool>,
    /// At most 32.
    pub ports: Vec<Port>,
    /// The routing table, at most 256 rows.
    pub rows: Vec<Row>,
    /// The PLDM terminus, where the node has one.
    pub terminus: Option<PlannedTerminus>,
    pub ghost few_ports: { vec_len ports ≤ 32 },
    pub ghost few_rows: { vec_len rows ≤ 256 },
}
