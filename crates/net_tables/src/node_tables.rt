//! The rows of a plan's nodes as routing tables, ready for look-ups.
ghost use Rattle.std.{specs.Prelude.{◌≡◌, IfOk, length, map}, specs.List.Sorted.{IsPermutation}};
ghost use Rattle.mctp_routing.specs.Rows.{HasSameRoutes, IsTable};
ghost use Rattle.net_tables.{specs.Rows.{RowsAreApart, RowsAreInRange}, specs.Tables.{AreRows, AreTabled, table_row}};

use crate::lookup::rows_at;
use mctp_routing::{Hop, RangeTable, TableFault};
use plan_values::{Plan, Row};
use std::alloc::{AllocError, Global};

/// The routing tables of the plan's nodes, in their order.
pub fn routing_tables(alloc: Global, plan: &Plan) -> Result<Vec<RangeTable>, AllocError>
    requires apart { RowsAreApart plan.now }
    requires in_range { RowsAreInRange plan.now }
    ensures { IfOk result (λ tables. AreTabled plan.now (length plan.now.nodes.items) tables.items) }
{
    let mut tables = Vec::new(alloc);
    for node in 0..plan.nodes.len() {
        tables.push(routing_table(alloc, rows_at(plan, node))?)?;
    }
    Ok(tables)
}

/// The routing table of lawful rows.
pub fn routing_table(alloc: Global, rows: &[Row]) -> Result<RangeTable, AllocError>
    requires { AreRows rows.now }
    ensures same { IfOk result (λ table. IsPermutation (map table_row rows.now) table) }
    ensures ordered { IfOk result (λ table. IsTable table) }
    ensures routes { IfOk result (λ table. HasSameRoutes (map table_row rows.now) table) }
{
    let rows = table_rows(alloc, rows)?;
    match RangeTable::build(alloc, &rows) {
        Ok(table) => Ok(table),
        Err(fault) => match fault {
            TableFault::Memory => Err(AllocError),
            _ => unreachable!(),
        },
    }
}

/// The rows as those of a routing table.
fn table_rows(alloc: Global, rows: &[Row]) -> Result<Vec<mctp_routing::TableRow>, AllocError>
    ensures { IfOk result (λ copied. copied.items ≡ map table_row rows.now) }
{
    rows.iter().map(table_row).collect(alloc)
}

/// The row as one of a routing table.
fn table_row(row: &Row) -> mctp_routing::TableRow
    ensures { result ≡ table_row row.now }
{
    mctp_routing::TableRow {
        first: row.first,
        size: row.size,
        hop: Hop {
            port: row.port,
            next: row.next,
        },
    }
}
