//! All loops of rows.
ghost use Rattle.std.specs.Prelude.{◌≡◌, ◌+◌, ◌<◌, ◌↔◌, IfOk, OnOk, IsTrue, Some, length, slice_get};
ghost use Rattle.net_rules.specs.Circles.{MovesBy};
ghost use Rattle.net_faults.{specs.Circles.{AreJoined}, specs.FirstRows.{AreTables, IsJoinedBy}, specs.PlanFaults.{AreEidsOf, AreLoopsBefore, AreRoutingLoops}};

use crate::circles::{circle_at, next_of};
use crate::next_nodes::next_tables;
use crate::plan_fault::PlanFault;
use mctp_transport::Eid;
use net_rules::CertifyError;
use plan_values::Plan;
use std::alloc::{AllocError, Global};

/// Each loop of rows, with the least endpoint ID that goes round it: first the lesser of these, and of one endpoint ID
/// the loop whose first node comes first.
pub fn routing_loops(alloc: Global, plan: &Plan) -> Result<Vec<PlanFault>, AllocError>
    ensures { IfOk result (λ loops. AreRoutingLoops plan.now loops.items) }
{
    let tables = next_tables(alloc, plan)?;
    let mut loops = Vec::new(alloc);
    for eid in 0..256u16 {
        add_for(alloc, plan, &tables, Eid::new(eid as u8), &mut loops)?;
    }
    Ok(loops)
}

/// Adds the loops for the endpoint ID that no lesser one goes round.
fn add_for(
    alloc: Global,
    plan: &Plan,
    tables: &[Vec<Option<usize>>],
    eid: Eid,
    loops: &mut Vec<PlanFault>,
) -> Result<(), AllocError>
    requires tables { AreTables plan.now tables.now }
    requires before { AreLoopsBefore plan.now eid.value 0 loops.old.items }
    ensures { OnOk result (AreLoopsBefore plan.now (eid.value + 1) 0 loops.new.items) }
{
    for node in 0..plan.nodes.len() {
        add_at(alloc, plan, tables, eid, node, loops)?;
    }
    Ok(())
}

/// Adds the loop for the endpoint ID whose first node this is, if there is one that no lesser one goes round.
fn add_at(
    alloc: Global,
    plan: &Plan,
    tables: &[Vec<Option<usize>>],
    eid: Eid,
    node: usize,
    loops: &mut Vec<PlanFault>,
) -> Result<(), AllocError>
    requires tables { AreTables plan.now tables.now }
    requires before { AreLoopsBefore plan.now eid.value node loops.old.items }
    ensures { OnOk result (AreLoopsBefore plan.now eid.value (node + 1) loops.new.items) }
{
    let Some(nodes) = circle_at(alloc, &tables[usize::from(eid.value)], node)? else {
        return Ok(());
    };
    let eids = eids_round(alloc, tables, &nodes)?;
    let least = least_of(&eids);
    if least < eid.value {
        return Ok(());
    }
    let more = others_of(&eids);
    loops.push(PlanFault::Obstacle(CertifyError::Loop(eid, nodes), more))?;
    Ok(())
}

/// The first of some endpoint IDs.
fn least_of(eids: &[u8]) -> u8
    requires { 0 < length eids.now }
    ensures { slice_get eids.now 0 ≡ Some result }
{
    eids[0]
}

/// How many there are beside the first.
fn others_of(eids: &[u8]) -> usize
    requires { 0 < length eids.now }
    ensures { length eids.now ≡ result + 1 }
{
    eids.len() - 1
}

/// The endpoint IDs for which each of the nodes but the last goes on to the one after it.
fn eids_round(
    alloc: Global,
    tables: &[Vec<Option<usize>>],
    nodes: &[usize],
) -> Result<Vec<u8>, AllocError>
    requires { length tables.now ≡ 256 }
    ensures { IfOk result (λ eids. AreEidsOf (λ e. IsJoinedBy tables.now e nodes.now) eids.items) }
{
    let mut eids = Vec::new(alloc);
    for eid in 0..256u16 {
        if are_joined(&tables[usize::from(eid)], nodes) {
            eids.push(eid as u8)?;
        }
    }
    Ok(eids)
}

/// Whether each of the nodes but the last goes on to the one after it.
fn are_joined(table: &[Option<usize>], nodes: &[usize]) -> bool
    ensures { IsTrue result ↔ AreJoined (MovesBy table.now) nodes.now }
{
    for place in 1..nodes.len() {
        if next_of(table, nodes[place - 1]) != Some(nodes[place]) {
            return false;
        }
    }
    true
}
