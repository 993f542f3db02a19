//! The requests that give the owned nodes of a plan their endpoint IDs and pools.
ghost use Rattle.std.specs.Prelude.{◌≡◌, ℕ, ◌++◌, ◌<◌, length, map, option_and_then, IfOk, OnOk};
ghost use Rattle.net_sim.{specs.Assignments.{assignment_value, shared_bus, requests_over, requests_to, IsAssignmentOf}, specs.AssignmentRuns.{CanBeCarriedOut, IsAcceptedThroughout, AssignsAll}, specs.AssignmentSteps.{HasAskedUpTo}};

mod assignment;
mod laws;
mod requests;

use crate::assigning::requests::{allocate_pool, set_eid};
pub use assignment::Assignment;
pub use laws::one_assignment;
use net_check::Checked;
use net_tables::lookup::{is_on_bus, level_of};
use plan_values::{Certificate, Node, Plan};
use std::alloc::{AllocError, Global};

/// The requests that give each owned node its endpoint ID and, where it has one, its pool: Set Endpoint ID, then
/// Allocate Endpoint IDs (DSP0236). Nodes of lower levels come first, those of one level in the plan's order; a node is
/// asked over the bus of its lowest port whose bus its owner shares.
pub fn assign(alloc: Global, checked: &Checked) -> Result<Vec<Assignment>, AllocError>
    ensures listed { IfOk result (λ list. IsAssignmentOf checked.now.0 checked.now.1 (map assignment_value list.items)) }

    // The plan's devices, the owned ones empty, can be asked so; however they reply, each request is accepted, and each
    // device then holds the plan's endpoint ID and pool.
    ensures possible { IfOk result (λ list. CanBeCarriedOut checked.now.0 (map assignment_value list.items)) }
    ensures accepted { IfOk result (λ list. IsAcceptedThroughout checked.now.0 (map assignment_value list.items)) }
    ensures assigned { IfOk result (λ list. AssignsAll checked.now.0 (map assignment_value list.items)) }
{
    let plan = checked.plan();
    let certificate = checked.certificate();
    let mut list = Vec::new(alloc);
    // Levels are 1 to 63.
    for level in 1..64u8 {
        ask_level(&mut list, plan, certificate, level)?;
    }
    Ok(list)
}

/// Adds the requests to the owned nodes of a level.
fn ask_level(
    list: &mut Vec<Assignment>,
    plan: &Plan,
    certificate: &Certificate,
    level: u8,
) -> Result<(), AllocError>
    requires owned { 0 < level }
    requires lower { HasAskedUpTo plan.now certificate.now level 0 (map assignment_value list.old.items) }
    ensures { OnOk result (HasAskedUpTo plan.now certificate.now level (length plan.now.nodes.items) (map assignment_value list.new.items)) }
{
    for index in 0..plan.nodes.len() {
        if level_of(plan, certificate, index) == level {
            ask(list, plan, index)?;
        }
    }
    Ok(())
}

/// Adds the requests to a node, over the bus that it shares with its owner.
fn ask(list: &mut Vec<Assignment>, plan: &Plan, index: usize) -> Result<(), AllocError>
    requires { index < length plan.now.nodes.items }
    ensures { OnOk result (map assignment_value list.new.items ≡ map assignment_value list.old.items ++ requests_to plan.now index) }
{
    let node = &plan.nodes[index];
    match owner_bus(plan, node) {
        Some(bus) => ask_over(list, index, node, bus),
        None => Ok(()),
    }
}

/// The bus that a node shares with its owner.
fn owner_bus(plan: &Plan, node: &Node) -> Option<usize>
    ensures { result ≡ option_and_then (shared_bus plan.now node.now) node.now.owner }
{
    shared_bus(plan, node, node.owner?)
}

/// The bus of the node's lowest port whose bus the owner shares.
fn shared_bus(plan: &Plan, node: &Node, owner: usize) -> Option<usize>
    ensures { result ≡ shared_bus plan.now node.now owner }
{
    let shared = node
        .ports
        .iter()
        .find(|port| is_on_bus(plan, owner, port.bus))?;
    Some(shared.bus)
}

/// Adds the requests to a node that go over the bus.
fn ask_over(
    list: &mut Vec<Assignment>,
    index: usize,
    node: &Node,
    bus: usize,
) -> Result<(), AllocError>
    ensures { OnOk result (map assignment_value list.new.items ≡ map assignment_value list.old.items ++ requests_over index node.now bus) }
{
    list.push(Assignment {
        bus,
        node: index,
        body: set_eid(node.eid),
    })?;
    if let Some(pool) = node.pool {
        list.push(Assignment {
            bus,
            node: index,
            body: allocate_pool(pool),
        })?;
    }
    Ok(())
}
