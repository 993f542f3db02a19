//! How many moves along rows lead to the holder of an endpoint ID.
ghost use Rattle.std.specs.Prelude.{◌≡◌, length, IfOk, MatchOption};
ghost use Rattle.net_rules.{specs.Moves.{IsEnd}, specs.RoutingLoops.{IsNext, AreNexts}, specs.Circles.{next_in}};
ghost use Rattle.net_questions.{specs.Lint.{IsForwardedTo}, specs.Reaching.{IsReach, NeverCircles, AreHopsTo, AreHopsToEach, hops_in}};

use crate::lookup::{eid_at, row_for};
use mctp_transport::Eid;
use net_tables::lookup::holds;
use plan_values::Plan;
use std::alloc::{AllocError, Global};

/// The numbers of moves to one node.
#[derive(Debug, Drop)]
pub struct HopsTo {
    /// From each node of the plan, in plan order; none where no way leads there.
    pub from_each: Vec<Option<usize>>,
}

/// For each node of the plan how many moves lead to it from each, where they do.
pub fn hops_to_each(alloc: Global, plan: &Plan) -> Result<Vec<HopsTo>, AllocError>
    requires { NeverCircles plan.now }
    ensures { IfOk result (λ table. AreHopsToEach plan.now (length plan.now.nodes.items) table.items) }
{
    let mut table = Vec::new(alloc);
    for to in 0..plan.nodes.len() {
        let eid = eid_at(plan, to);
        let from_each = hops_to(alloc, plan, eid)?;
        table.push(HopsTo { from_each })?;
    }
    Ok(table)
}

/// How many moves lead from each node to the holder of the endpoint ID, where they do.
fn hops_to(alloc: Global, plan: &Plan, eid: Eid) -> Result<Vec<Option<usize>>, AllocError>
    requires { NeverCircles plan.now }
    ensures { IfOk result (λ hops. AreHopsTo plan.now eid.value (length plan.now.nodes.items) hops.items) }
{
    let nexts = next_nodes(alloc, plan, eid)?;
    let mut hops = Vec::new(alloc);
    for from in 0..plan.nodes.len() {
        hops.push(hops_from(plan, &nexts, eid, from))?;
    }
    Ok(hops)
}

/// How many moves lead from a node to the holder of the endpoint ID, if they do.
fn hops_from(plan: &Plan, nexts: &[Option<usize>], eid: Eid, from: usize) -> Option<usize>
    requires circles { NeverCircles plan.now }
    requires nexts { AreNexts plan.now eid.value (length plan.now.nodes.items) nexts.now }
    ensures { IsReach plan.now eid.value from result }
{
    let mut at = from;
    let mut moves = 0;
    while let Some(next) = next_of(nexts, at) {
        at = next;
        moves += 1;
    }
    if holds(plan, at, eid) {
        Some(moves)
    } else {
        None
    }
}

/// The number of moves from a node to another, if the table has one.
pub fn hops_between(table: &[HopsTo], from: usize, to: usize) -> Option<usize>
    ensures { result ≡ hops_in table.now from to }
{
    *table.get(to)?.from_each.get(from)?
}

/// The next node in a table, if any.
fn next_of(nexts: &[Option<usize>], node: usize) -> Option<usize>
    ensures { result ≡ next_in nexts.now node }
{
    *nexts.get(node)?
}

/// Where what is for the endpoint ID goes on to from each node.
fn next_nodes(alloc: Global, plan: &Plan, eid: Eid) -> Result<Vec<Option<usize>>, AllocError>
    ensures { IfOk result (λ nexts. AreNexts plan.now eid.value (length plan.now.nodes.items) nexts.items) }
{
    let mut nexts = Vec::new(alloc);
    for node in 0..plan.nodes.len() {
        nexts.push(next_node(plan, node, eid))?;
    }
    Ok(nexts)
}

/// Where what is for the endpoint ID goes on to from a node: where its first row for it leads. Nowhere from its holder,
/// nor without a row.
pub fn next_node(plan: &Plan, node: usize, eid: Eid) -> Option<usize>
    ensures row { IsNext plan.now eid.value node result }
    ensures first { MatchOption result (IsEnd (IsForwardedTo plan.now eid.value) node) (IsForwardedTo plan.now eid.value node) }
{
    if holds(plan, node, eid) {
        return None;
    }
    match row_for(plan, node, eid) {
        Some(row) => Some(row.next),
        None => None,
    }
}
