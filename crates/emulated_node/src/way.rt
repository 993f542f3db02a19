//! Where the packets go that a node sends.
ghost use Rattle.std.specs.Prelude.{◌≡◌, ◌↔◌, IsTrue, find, option_map};
ghost use Rattle.emulated_node.specs.Ways.{IsAt, IsPortAt, back_over, covers, hop_way, row_way, way_address, way_or_back};

use mctp_routing::{Hop, TableRow};
use mctp_transport::Eid;
use net_tables::lookup::{address_on, bus_at, ports_at};
use plan_values::{Plan, Port};

/// Where a packet goes: over a bus, to a node that has a port there.
#[derive(Clone, Copy)]
pub struct Way {
    /// The index of the bus in the plan's list.
    pub bus: usize,
    /// The index of the next node in the plan's list. None where the packet goes back to where a request came from,
    /// and no row says who that is.
    pub next: Option<usize>,
}

impl Way {
    /// The physical address to which the packet goes; empty where nothing is known of the next node.
    pub fn address(self, plan: &Plan) -> &[u8]
        ensures { result.now ≡ way_address plan.now self }
    {
        match self.next {
            Some(next) => address_on(plan, next, Some(self.bus)),
            None => &[],
        }
    }
}

/// Whether a node has a port of this physical address on the bus. Packets to other addresses aren't the node's.
pub fn is_at(plan: &Plan, node: usize, bus: usize, address: &[u8]) -> bool
    ensures { IsTrue result ↔ IsAt plan.now node bus address.now }
{
    let ports = ports_at(plan, node);
    for port in ports {
        if is_port_at(port, bus, address) {
            return true;
        }
    }
    false
}

/// Whether a port is on the bus, with this physical address.
fn is_port_at(port: &Port, bus: usize, address: &[u8]) -> bool
    ensures { IsTrue result ↔ IsPortAt port.now bus address.now }
{
    port.bus == bus && port.address.as_slice() == address
}

/// Where a node's packet to an endpoint ID goes, by its rows.
pub(crate) fn row_way(plan: &Plan, node: usize, rows: &[TableRow], eid: Eid) -> Option<Way>
    ensures { result ≡ row_way plan.now node rows.now eid.value }
{
    match row_for(rows, eid) {
        Some(row) => hop_way(plan, node, row.hop),
        None => None,
    }
}

/// The row that covers the endpoint ID.
fn row_for(rows: &[TableRow], eid: Eid) -> Option<&TableRow>
    ensures { option_map (λ r. r.now) result ≡ find (covers eid.value) rows.now }
{
    rows.iter().find(|row| covers(row, eid))
}

/// Whether the row covers the endpoint ID.
fn covers(row: &TableRow, eid: Eid) -> bool
    ensures { result ≡ covers eid.value row.now }
{
    row.first.value <= eid.value
        && u16::from(eid.value) < u16::from(row.first.value) + u16::from(row.size)
}

/// Along a hop, if the node has its port.
fn hop_way(plan: &Plan, node: usize, hop: Hop) -> Option<Way>
    ensures { result ≡ hop_way plan.now node hop }
{
    match bus_at(plan, node, hop.port) {
        Some(bus) => Some(Way {
            bus,
            next: Some(hop.next),
        }),
        None => None,
    }
}

/// The way by the rows, or back over the bus where the packet came for which this one is sent. An answer to a request
/// for the endpoint ID 0 goes back over that bus.
pub(crate) fn way_or_back(over: usize, asked: Eid, way: Option<Way>) -> Way
    ensures { result ≡ way_or_back over asked.value way }
{
    match way {
        Some(way) => {
            if asked.value == 0 && way.bus != over {
                return back_over(over);
            }
            way
        }
        None => back_over(over),
    }
}

/// Back over a bus.
fn back_over(bus: usize) -> Way
    ensures { result ≡ back_over bus }
{
    Way { bus, next: None }
}
