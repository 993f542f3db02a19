//! H06 and H07: the ways between a node and its topmost owner.
ghost use Rattle.std.specs.Prelude.{◌≡◌, ◌<◌, ◌↔◌, ℕ, IsTrue, Some, length};
ghost use Rattle.net_questions.specs.Lint.{OwnersEndAt, IsTopmostOwner, ComesTo, HasWayTo, HasNoWayFromOwner, HasNoWayToOwner};

use crate::hops::next_node;
use crate::lookup::eid_at;
use mctp_transport::Eid;
use net_tables::lookup::owner_at;
use plan_values::Plan;

/// Whether the owner is a node's topmost one, and has no way to it.
pub fn has_no_way_from_owner(plan: &Plan, node: usize, owner: usize) -> bool
    ensures { IsTrue result ↔ HasNoWayFromOwner plan.now node owner }
{
    is_topmost_owner(plan, node, owner) && !has_way(plan, owner, node)
}

/// Whether the owner is a node's topmost one, and the node has no way to it.
pub fn has_no_way_to_owner(plan: &Plan, node: usize, owner: usize) -> bool
    ensures { IsTrue result ↔ HasNoWayToOwner plan.now node owner }
{
    is_topmost_owner(plan, node, owner) && !has_way(plan, node, owner)
}

/// Whether the owner is a node's topmost one.
fn is_topmost_owner(plan: &Plan, node: usize, owner: usize) -> bool
    ensures { IsTrue result ↔ IsTopmostOwner plan.now node owner }
{
    topmost_owner(plan, node) == Some(owner)
}

/// The topmost owner of a node; none where nobody owns it, and where its owners go round in a circle.
fn topmost_owner(plan: &Plan, node: usize) -> Option<usize>
    ensures { (top : ℕ) → (result ≡ Some top) ↔ IsTopmostOwner plan.now node top }
{
    match owner_at(plan, node) {
        Some(owner) => last_owner(plan, owner),
        None => None,
    }
}

/// Where the way from a node to its owner, to the owner's owner and so on ends; nowhere where it goes round in a
/// circle. It passes each node of the plan at most once before it ends.
fn last_owner(plan: &Plan, node: usize) -> Option<usize>
    requires { node < length plan.now.nodes.items }
    ensures { (top : ℕ) → (result ≡ Some top) ↔ OwnersEndAt plan.now node top }
{
    let mut last = node;
    for _owners in 0..plan.nodes.len() {
        match owner_at(plan, last) {
            Some(owner) => last = owner,
            None => return Some(last),
        }
    }
    None
}

/// Whether what is put in at a node for the endpoint ID of another one comes to that one.
fn has_way(plan: &Plan, from: usize, to: usize) -> bool
    ensures { IsTrue result ↔ HasWayTo plan.now from to }
{
    if to < plan.nodes.len() {
        comes_to(plan, eid_at(plan, to), from, to)
    } else {
        false
    }
}

/// Whether what is for the endpoint ID comes from one node to another. It passes each node of the plan at most once
/// before it does.
fn comes_to(plan: &Plan, eid: Eid, from: usize, to: usize) -> bool
    requires { to < length plan.now.nodes.items }
    ensures { IsTrue result ↔ ComesTo plan.now eid.value from to }
{
    let mut at = from;
    for _moves in 0..plan.nodes.len() {
        if at == to {
            return true;
        }
        match next_node(plan, at, eid) {
            Some(next) => at = next,
            None => return false,
        }
    }
    false
}
