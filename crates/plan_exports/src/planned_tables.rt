//! The routing table of a planned node, and whom its rows lead to.
ghost use Rattle.std.specs.Prelude.{◌≡◌, IfOk, map};
ghost use Rattle.plan_exports.{specs.PlannedRows.{IsOrdered}, specs.Neighbors.{kind_at, bus_numbers, neighbor_of, neighbor_value}, specs.PlannedTables.{IsPlannedTable}};
ghost use Rattle.net_tables.{specs.Routing.{rows_of}, specs.Tables.{AreRows}};

use mctp_bridge::Neighbor;
use mctp_routing::{DeviceKind, Hop, RangeTable, TableRow};
use mctp_transport::Eid;
use net_tables::lookup::{address_on, bus_at, eid_at, is_bridge, rows_at};
use net_tables::routing_table;
use plan_values::Plan;
use std::alloc::{AllocError, Global};

/// The routing table of a planned node, and for each of its rows the node to which it leads.
#[derive(Drop)]
pub struct PlannedTable<'a> {
    /// The node's rows, in the order of their endpoint IDs.
    pub table: RangeTable,
    /// As many as the table has rows, in the same order.
    pub neighbors: Vec<Neighbor<'a>>,
}

/// The routing table of a node whose rows are lawful, and whom its rows lead to.
pub fn planned_table<'a>(
    alloc: Global,
    plan: &'a Plan,
    node: usize,
) -> Result<PlannedTable<'a>, AllocError>
    requires { AreRows (rows_of plan.now node) }
    ensures { IfOk result (λ planned. IsPlannedTable plan.now node planned.table planned.neighbors.items) }
{
    let table = range_table(alloc, plan, node)?;
    let neighbors = neighbors_of(alloc, plan, node, table.rows())?;
    Ok(PlannedTable { table, neighbors })
}

/// The routing table of a node whose rows are lawful.
pub fn range_table(alloc: Global, plan: &Plan, node: usize) -> Result<RangeTable, AllocError>
    requires { AreRows (rows_of plan.now node) }
    ensures { IfOk result (λ table. IsOrdered plan.now node table) }
{
    routing_table(alloc, rows_at(plan, node))
}

/// The nodes to which the rows of a node lead.
fn neighbors_of<'a>(
    alloc: Global,
    plan: &'a Plan,
    node: usize,
    rows: &[TableRow],
) -> Result<Vec<Neighbor<'a>>, AllocError>
    ensures { IfOk result (λ list. map neighbor_value list.items ≡ map (λ row. neighbor_of plan.now node row.hop) rows.now) }
{
    let mut list = Vec::with_capacity(alloc, rows.len())?;
    for row in rows {
        list.push(neighbor_at(plan, node, row.hop))?;
    }
    Ok(list)
}

/// The node to which a hop of a node leads.
pub fn neighbor_at<'a>(plan: &'a Plan, node: usize, hop: Hop) -> Neighbor<'a>
    ensures { neighbor_value result ≡ neighbor_of plan.now node hop }
{
    let bus = bus_at(plan, node, hop.port);
    let (binding, media) = bus_numbers(plan, bus);
    Neighbor {
        kind: kind_at(plan, hop.next),
        eid: eid_at(plan, hop.next).unwrap_or(Eid::new(0)),
        binding,
        media,
        address: address_on(plan, hop.next, bus),
    }
}

/// Whether a node is a bridge.
fn kind_at(plan: &Plan, node: usize) -> DeviceKind
    ensures { result ≡ kind_at plan.now node }
{
    if is_bridge(plan, node) {
        DeviceKind::Bridge
    } else {
        DeviceKind::Endpoint
    }
}

/// The binding and the media identifier of a bus, 0 where there is no such bus.
pub fn bus_numbers(plan: &Plan, bus: Option<usize>) -> (u8, u8)
    ensures { result ≡ bus_numbers plan.now bus }
{
    match bus {
        Some(bus) => plan
            .buses
            .get(bus)
            .map_or((0, 0), |bus| (bus.binding, bus.media)),
        None => (0, 0),
    }
}
