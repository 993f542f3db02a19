//! What a plan says of one thing.
ghost use Rattle.std.specs.Prelude.{◌≡◌, ◌↔◌, IsTrue};
ghost use Rattle.plan_differences.specs.Facts.{fact_value};

use mctp_transport::Eid;
use plan_values::{Kind, Pool};

/// What a plan says of one thing. Buses and nodes stand by their names.
#[derive(Clone, Copy, PartialEq, Eq)]
pub enum Fact<'p> {
    /// The transmission unit, in bytes.
    Unit(u16),
    /// A bus has these identifiers (DSP0239).
    Bus {
        name: &'p str,
        binding: u8,
        media: u8,
    },
    /// A node is of this kind, holds this endpoint ID, and has this owner, if any.
    Node {
        name: &'p str,
        kind: Kind,
        eid: Eid,
        owner: Option<&'p str>,
    },
    /// A node has a pool.
    Pool {
        node: &'p str,
        pool: Pool,
    },
    /// A node's port at the index is on this bus, with this physical address.
    Port {
        node: &'p str,
        index: usize,
        bus: &'p str,
        address: &'p [u8],
    },
    /// A node has a row: so many endpoint IDs from the first on go through the port to the next node.
    Row {
        node: &'p str,
        first: Eid,
        size: u8,
        port: u8,
        next: &'p str,
    },
    /// A node has a terminus of this terminus ID (DSP0240).
    Terminus {
        node: &'p str,
        tid: u8,
    },
    /// The repository of a node's terminus has a record.
    Record {
        node: &'p str,
        handle: u32,
        next: u32,
        bytes: &'p [u8],
    },
}

/// Whether two facts are the same.
pub fn is_same(fact: &Fact, other: &Fact) -> bool
    ensures { IsTrue result ↔ (fact_value fact.now ≡ fact_value other.now) }
{
    fact == other
}
