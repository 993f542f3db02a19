//! What a plan says of a node beside `net_tables::lookup`: the first of its rows for an endpoint ID.
ghost use Rattle.std.specs.Prelude.{◌<◌, length, map, MatchOption};
ghost use Rattle.mctp_routing.specs.Rows.{IsNext};
ghost use Rattle.net_tables.{specs.Routing.{Holds, HasRow, rows_of}, specs.Tables.{table_row}};
ghost use Rattle.net_questions.specs.Lint.{IsFirstRowFor};

use mctp_routing::Hop;
use mctp_transport::Eid;
use net_tables::lookup::{covers, rows_at};
use plan_values::{Plan, Row};

/// The endpoint ID of a node of the plan.
pub fn eid_at(plan: &Plan, node: usize) -> Eid
    requires { node < length plan.now.nodes.items }
    ensures { Holds plan.now node result.value }
{
    plan.nodes[node].eid
}

/// The first of the node's rows for the endpoint ID, if it has one.
pub fn row_for(plan: &Plan, node: usize, eid: Eid) -> Option<&Row>
    ensures { MatchOption result (¬ HasRow plan.now node eid.value) (λ row. IsFirstRowFor plan.now node eid.value row.now) }
{
    let rows = rows_at(plan, node);
    for row in rows {
        if covers(row, eid) {
            return Some(row);
        }
    }
    None
}

/// Where the first of the node's rows for the endpoint ID leads, if it has one.
pub fn hop_at(plan: &Plan, node: usize, eid: Eid) -> Option<Hop>
    ensures { IsNext (map table_row (rows_of plan.now node)) eid.value result }
{
    match row_for(plan, node, eid) {
        Some(row) => Some(Hop {
            port: row.port,
            next: row.next,
        }),
        None => None,
    }
}
