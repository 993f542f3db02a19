//! All loops of owners.
ghost use Rattle.std.specs.Prelude.{◌≡◌, ◌+◌, IfOk, OnOk, map};
ghost use Rattle.net_faults.specs.PlanFaults.{AreOwnerLoops, AreOwnerLoopsBefore};

use crate::circles::circle_at;
use crate::plan_fault::PlanFault;
use net_rules::CertifyError;
use plan_values::Plan;
use std::alloc::{AllocError, Global};

/// Each loop of owners, from its first node in the plan's order on.
pub fn owner_loops(alloc: Global, plan: &Plan) -> Result<Vec<PlanFault>, AllocError>
    ensures { IfOk result (λ loops. AreOwnerLoops plan.now loops.items) }
{
    let owners = owners_of(alloc, plan)?;
    let mut loops = Vec::new(alloc);
    for node in 0..plan.nodes.len() {
        add_loop(alloc, plan, &owners, node, &mut loops)?;
    }
    Ok(loops)
}

/// Adds the loop of owners whose first node this is, if there is one.
fn add_loop(
    alloc: Global,
    plan: &Plan,
    owners: &[Option<usize>],
    node: usize,
    loops: &mut Vec<PlanFault>,
) -> Result<(), AllocError>
    requires owners { owners.now ≡ map (λ node. node.owner) plan.now.nodes.items }
    requires before { AreOwnerLoopsBefore plan.now node loops.old.items }
    ensures { OnOk result (AreOwnerLoopsBefore plan.now (node + 1) loops.new.items) }
{
    let Some(nodes) = circle_at(alloc, owners, node)? else {
        return Ok(());
    };
    loops.push(PlanFault::Obstacle(CertifyError::OwnerLoop(nodes), 0))?;
    Ok(())
}

/// Each node's owner, if any.
fn owners_of(alloc: Global, plan: &Plan) -> Result<Vec<Option<usize>>, AllocError>
    ensures { IfOk result (λ owners. owners.items ≡ map (λ node. node.owner) plan.now.nodes.items) }
{
    plan.nodes.iter().map(|node| node.owner).collect(alloc)
}
