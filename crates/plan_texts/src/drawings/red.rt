//! What is red in a drawing: the loop that rules certificates out.
ghost use Rattle.std.{specs.Prelude.{◌≡◌, ◌==◌, IfOk, codes, option_map, if◌then◌else◌}, specs.List.{list_any}};
ghost use Rattle.plan_texts.specs.Drawings.{hops_along, loop_hops, loop_nodes, owner_loop_nodes};

use mctp_transport::Eid;
use net_rules::CertifyError;
use std::alloc::{AllocError, Global};

/// A hop of packets for an endpoint ID that go round.
#[derive(Clone, Copy)]
pub struct Hop {
    pub eid: Eid,
    pub from: usize,
    pub to: usize,
}

/// The color of a node: red on the loop.
pub fn node_color(obstacle: Option<&CertifyError>, node: usize) -> &'static str
    ensures { result.now ≡ (if list_any (λ m. m == node) (loop_nodes (option_map (λ it. it.now) obstacle.entry)) then codes "red" else codes "black") }
{
    match obstacle {
        Some(CertifyError::OwnerLoop(nodes) | CertifyError::Loop(_, nodes)) => {
            color_among(nodes, node)
        }
        _ => "black",
    }
}

/// The color of the arrow to a node from its owner: red on a loop of owners.
pub fn owner_color(obstacle: Option<&CertifyError>, node: usize) -> &'static str
    ensures { result.now ≡ (if list_any (λ m. m == node) (owner_loop_nodes (option_map (λ it. it.now) obstacle.entry)) then codes "red" else codes "black") }
{
    match obstacle {
        Some(CertifyError::OwnerLoop(nodes)) => color_among(nodes, node),
        _ => "black",
    }
}

/// Red where the node is among those, black otherwise.
fn color_among(red: &[usize], node: usize) -> &'static str
    ensures { result.now ≡ (if list_any (λ m. m == node) red.now then codes "red" else codes "black") }
{
    if red.contains(&node) { "red" } else { "black" }
}

/// The hops of packets that go round, where rows lead round a loop.
pub fn red_hops(alloc: Global, obstacle: Option<&CertifyError>) -> Result<Vec<Hop>, AllocError>
    ensures { IfOk result (λ hops. hops.items ≡ loop_hops (option_map (λ it. it.now) obstacle.entry)) }
{
    match obstacle {
        Some(CertifyError::Loop(eid, nodes)) => hops_along(alloc, *eid, nodes),
        _ => Ok(Vec::new(alloc)),
    }
}

/// The hop from each of the nodes to the one behind it.
fn hops_along(alloc: Global, eid: Eid, nodes: &[usize]) -> Result<Vec<Hop>, AllocError>
    ensures { IfOk result (λ hops. hops.items ≡ hops_along eid nodes.now) }
{
    let mut hops = Vec::new(alloc);
    for index in 1..nodes.len() {
        let (from, to) = (nodes[index - 1], nodes[index]);
        hops.push(Hop { eid, from, to })?;
    }
    Ok(hops)
}
