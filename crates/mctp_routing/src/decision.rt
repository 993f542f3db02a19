//! What a node does with a packet that is there (DSP0236, bridging).
ghost use Rattle.std.specs.Prelude.{◌≡◌, ◌↔◌, IsTrue};
ghost use Rattle.mctp_routing.specs.Decisions.{Forwards, IsDecided};

use crate::range_table::RangeTable;
use crate::row::Hop;
use mctp_transport::{DeviceKind, Eid, Header};

/// A node as its decisions see it.
#[derive(Clone, Copy, Debug)]
pub struct ForwardingNode<'a> {
    /// The endpoint ID that it holds.
    pub eid: Eid,
    /// Whether it is a bridge, which forwards packets of others.
    pub kind: DeviceKind,
    /// Its rows.
    pub table: &'a RangeTable,
}

/// Why a packet goes no further. Where several causes apply, the first of these is told.
#[derive(Clone, Copy, Debug, PartialEq, Eq)]
pub enum ForwardFault {
    /// B10: its destination can't be held: it isn't one of 8 to 254.
    Unassignable,
    /// B12: the node is no bridge, and the packet isn't its own.
    NoBridge,
    /// B11: the node has no row for the destination.
    NoRow,
}

/// What a node does with a packet.
#[derive(Clone, Copy, Debug, PartialEq, Eq)]
pub enum Decision {
    /// It takes the packet: it holds the destination.
    Here,
    /// It drops the packet.
    Drop(ForwardFault),
    /// It sends the packet on.
    Forward(Hop),
}

impl ForwardFault {
    ghost use Rattle.mctp_routing.specs.Decisions.{forward_fault_code};

    /// The code that users see, as `B10`.
    pub fn code(self) -> &'static str
        ensures { result.now ≡ forward_fault_code self }
    {
        match self {
            ForwardFault::Unassignable => "B10",
            ForwardFault::NoBridge => "B12",
            ForwardFault::NoRow => "B11",
        }
    }
}

/// What the node does with a packet of this header: it takes it where it holds the destination; else it drops it where
/// the destination can't be held, or where it is no bridge and the packet isn't its own, or where it has no row for the
/// destination; else it sends it along that row's hop. The packet is at its origin where it was put in here and has made no
/// hop.
pub fn decide(node: &ForwardingNode, at_origin: bool, header: &Header) -> Decision
    ensures { IsDecided node.now.eid.value node.now.kind node.now.table.now at_origin header.now.destination.value result }
{
    let destination = header.destination;
    if destination.value == node.eid.value {
        return Decision::Here;
    }
    if !destination.is_assignable() {
        return Decision::Drop(ForwardFault::Unassignable);
    }
    if !forwards(node.kind, at_origin) {
        return Decision::Drop(ForwardFault::NoBridge);
    }
    match node.table.next(destination) {
        Some(hop) => Decision::Forward(hop),
        None => Decision::Drop(ForwardFault::NoRow),
    }
}

/// Whether such a node forwards such a packet at all.
fn forwards(kind: DeviceKind, at_origin: bool) -> bool
    ensures { IsTrue result ↔ Forwards kind at_origin }
{
    kind == DeviceKind::Bridge || at_origin
}
