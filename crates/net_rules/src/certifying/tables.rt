//! The rows of a plan's nodes as routing tables, ready for look-ups.
ghost use Rattle.std.specs.Prelude.{◌≡◌, IfOk, length};
ghost use Rattle.net_tables.{specs.Rows.{RowsAreApart, RowsAreInRange}, specs.Tables.{AreTables}};

use mctp_routing::RangeTable;
use net_tables::routing_tables;
use plan_values::Plan;
use std::alloc::{AllocError, Global};

/// The routing tables of the plan's nodes.
pub fn certifying_tables(alloc: Global, plan: &Plan) -> Result<Vec<RangeTable>, AllocError>
    requires apart { RowsAreApart plan.now }
    requires in_range { RowsAreInRange plan.now }
    ensures { IfOk result (λ tables. AreTables plan.now (length plan.now.nodes.items) tables.items) }
{
    routing_tables(alloc, plan)
}
