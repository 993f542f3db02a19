//! The rows of a planned node as texts show them.
ghost use Rattle.std.specs.Prelude.{◌≡◌, IfOk, map};
ghost use Rattle.net_tables.{specs.Routing.{rows_of}, specs.Tables.{AreRows}};
ghost use Rattle.plan_exports.specs.PlannedRows.{ArePlannedRows, facts_of, row_facts};

use crate::planned_tables::{neighbor_at, range_table};
use mctp_routing::TableRow;
use mctp_transport::Eid;
use net_tables::lookup::bus_at;
use plan_values::Plan;
use std::alloc::{AllocError, Global};

/// A row of a planned node, with the node to which it leads.
#[derive(Clone, Copy, Debug)]
pub struct PlannedRow<'a> {
    /// The first endpoint ID that the row covers.
    pub first: Eid,
    /// How many it covers from there.
    pub size: u8,
    /// The index of the port.
    pub port: u8,
    /// The index of the port's bus in the plan's list.
    pub bus: Option<usize>,
    /// The index of the next node in the plan's list.
    pub next: usize,
    /// The endpoint ID of the next node.
    pub eid: Eid,
    /// The physical address of the next node on the bus: that of its first port there, at most 8 bytes.
    pub address: &'a [u8],
}

/// The rows of a node, in the order of their endpoint IDs, each once.
pub fn planned_rows<'a>(
    alloc: Global,
    plan: &'a Plan,
    node: usize,
) -> Result<Vec<PlannedRow<'a>>, AllocError>
    requires { AreRows (rows_of plan.now node) }
    ensures { IfOk result (λ rows. ArePlannedRows plan.now node (map row_facts rows.items)) }
{
    let table = range_table(alloc, plan, node)?;
    facts_of_rows(alloc, plan, node, table.rows())
}

/// What the plan says of these rows of a node.
fn facts_of_rows<'a>(
    alloc: Global,
    plan: &'a Plan,
    node: usize,
    rows: &[TableRow],
) -> Result<Vec<PlannedRow<'a>>, AllocError>
    ensures { IfOk result (λ list. map row_facts list.items ≡ map (facts_of plan.now node) rows.now) }
{
    let mut list = Vec::with_capacity(alloc, rows.len())?;
    for row in rows {
        list.push(facts_of(plan, node, row))?;
    }
    Ok(list)
}

/// What the plan says of a row of a node.
fn facts_of<'a>(plan: &'a Plan, node: usize, row: &TableRow) -> PlannedRow<'a>
    ensures { row_facts result ≡ facts_of plan.now node row.now }
{
    let neighbor = neighbor_at(plan, node, row.hop);
    PlannedRow {
        first: row.first,
        size: row.size,
        port: row.hop.port,
        bus: bus_at(plan, node, row.hop.port),
        next: row.hop.next,
        eid: neighbor.eid,
        address: neighbor.address,
    }
}
