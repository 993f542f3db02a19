//! Where what is for an endpoint ID goes on to from each node.
ghost use Rattle.std.specs.Prelude.{length, IfOk};
ghost use Rattle.net_tables.{specs.Routing.{MovesTo, rows_of}, specs.Rows.{RowsAreApart}, specs.Tables.{SendsAs, AreTables}};
ghost use Rattle.net_rules.{specs.RoutingLoops.{IsNext, AreNexts}, specs.Circles.{IsWalked}};

use crate::certifying::walks::{Walked, walk};
use mctp_routing::RangeTable;
use mctp_transport::Eid;
use net_tables::lookup::holds;
use plan_values::Plan;
use std::alloc::{AllocError, Global};

/// Where what is for the endpoint ID ends up from each node: at an end of its way, or on a circle.
pub fn walk_for(
    alloc: Global,
    plan: &Plan,
    tables: &[RangeTable],
    eid: Eid,
) -> Result<Walked, AllocError>
    requires apart { RowsAreApart plan.now }
    requires tables { AreTables plan.now (length plan.now.nodes.items) tables.now }
    ensures { IfOk result (λ walked. IsWalked (MovesTo plan.now eid.value) (length plan.now.nodes.items) walked) }
{
    let nexts = next_nodes(alloc, plan, tables, eid)?;
    walk(alloc, &nexts)
}

/// Where what is for the endpoint ID goes on to from each node.
pub fn next_nodes(
    alloc: Global,
    plan: &Plan,
    tables: &[RangeTable],
    eid: Eid,
) -> Result<Vec<Option<usize>>, AllocError>
    requires { AreTables plan.now (length plan.now.nodes.items) tables.now }
    ensures { IfOk result (λ nexts. AreNexts plan.now eid.value (length plan.now.nodes.items) nexts.items) }
{
    let mut nexts = Vec::new(alloc);
    for node in 0..plan.nodes.len() {
        nexts.push(next_node(plan, &tables[node], node, eid))?;
    }
    Ok(nexts)
}

/// Where what is for the endpoint ID goes on to from a node; nowhere from its holder, nor without a row.
fn next_node(plan: &Plan, table: &RangeTable, node: usize, eid: Eid) -> Option<usize>
    requires { SendsAs (rows_of plan.now node) table.now }
    ensures { IsNext plan.now eid.value node result }
{
    if holds(plan, node, eid) {
        return None;
    }
    match table.next(eid) {
        Some(hop) => Some(hop.next),
        None => None,
    }
}
