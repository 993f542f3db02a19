//! Where what is for an endpoint ID goes on to from each node, by the first of its rows that covers it.
ghost use Rattle.std.specs.Prelude.{IfOk, MatchOption, length};
ghost use Rattle.net_rules.specs.Moves.{IsEnd};
ghost use Rattle.net_faults.specs.FirstRows.{AreGoings, AreTables, GoesTo};

use mctp_transport::Eid;
use net_tables::lookup::{covers, holds, rows_at};
use plan_values::Plan;
use std::alloc::{AllocError, Global};

/// A table of next nodes for each endpoint ID.
pub fn next_tables(alloc: Global, plan: &Plan) -> Result<Vec<Vec<Option<usize>>>, AllocError>
    ensures { IfOk result (λ tables. AreTables plan.now tables.items) }
{
    let mut tables = Vec::new(alloc);
    for eid in 0..256u16 {
        tables.push(next_nodes(alloc, plan, Eid::new(eid as u8))?)?;
    }
    Ok(tables)
}

/// Where what is for the endpoint ID goes on to from each node.
fn next_nodes(alloc: Global, plan: &Plan, eid: Eid) -> Result<Vec<Option<usize>>, AllocError>
    ensures { IfOk result (λ nexts. AreGoings plan.now eid.value (length plan.now.nodes.items) nexts.items) }
{
    let mut nexts = Vec::new(alloc);
    for node in 0..plan.nodes.len() {
        nexts.push(next_node(plan, node, eid))?;
    }
    Ok(nexts)
}

/// Where what is for the endpoint ID goes on to from a node; nowhere from its holder, nor without a row.
fn next_node(plan: &Plan, node: usize, eid: Eid) -> Option<usize>
    ensures { MatchOption result (IsEnd (GoesTo plan.now eid.value) node) (GoesTo plan.now eid.value node) }
{
    if holds(plan, node, eid) {
        return None;
    }
    let rows = rows_at(plan, node);
    for row in rows {
        if covers(row, eid) {
            return Some(row.next);
        }
    }
    None
}
