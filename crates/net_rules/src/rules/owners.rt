//! C07: an owner is a bridge that shares a bus with its node, of a lower level.
ghost use Rattle.std.{specs.Prelude.{◌≡◌, ◌<◌, ◌↔◌, ◌==◌, IsTrue, length}, specs.List.{list_any}};
ghost use Rattle.net_tables.specs.Routing.{ports_of};
ghost use Rattle.net_rules.{specs.Owners.{ShareBus, HasBridgeAsOwner, IsBelowItsOwner}, specs.Rules.{PlanDemands, Demands}, specs.Search.{IsFirstSpot}};

use crate::rule::Rule;
use crate::spot::Spot;
use net_tables::lookup::{is_bridge, is_on_bus, level_of, owner_at, ports_at};
use plan_values::{Certificate, Plan, Port};

/// Where the node's owner is no bridge that shares a bus with it.
pub fn owner_without_bridge(plan: &Plan, node: usize) -> Option<Spot>
    requires { node < length plan.now.nodes.items }
    ensures { IsFirstSpot (PlanDemands plan.now Rule.C07 node) result }
{
    if has_bridge_as_owner(plan, node) {
        return None;
    }
    Some(Spot::at_node())
}

/// Where the node's owner is no bridge that shares a bus with it, or not of a lower level.
pub fn unlawful_owner(plan: &Plan, certificate: &Certificate, node: usize) -> Option<Spot>
    requires { node < length plan.now.nodes.items }
    ensures { IsFirstSpot (Demands plan.now certificate.now Rule.C07 node) result }
{
    if has_bridge_as_owner(plan, node) && is_below_its_owner(plan, certificate, node) {
        return None;
    }
    Some(Spot::at_node())
}

/// Whether the node's owner, if it has one, is a bridge that shares a bus with it.
#[tactic(auto, unfolding(crate::specs::Owners::HasBridgeAsOwner))]
pub(crate) fn has_bridge_as_owner(plan: &Plan, node: usize) -> bool
    ensures { IsTrue result ↔ HasBridgeAsOwner plan.now node }
{
    match owner_at(plan, node) {
        Some(owner) => is_bridge(plan, owner) && share_bus(plan, node, owner),
        None => true,
    }
}

/// Whether two nodes have a port each on one bus.
pub fn share_bus(plan: &Plan, node: usize, other: usize) -> bool
    ensures { IsTrue result ↔ ShareBus plan.now node other }
{
    are_some_on_bus_of(plan, ports_at(plan, node), other)
}

/// Whether one of the ports is on a bus of the node.
fn are_some_on_bus_of(plan: &Plan, ports: &[Port], node: usize) -> bool
    ensures { result ≡ list_any (λ port. list_any (λ other. other.bus == port.bus) (ports_of plan.now node)) ports.now }
{
    ports.iter().any(|port| is_on_bus(plan, node, port.bus))
}

/// Whether the node's owner, if it has one, is of a lower level.
#[tactic(auto, unfolding(crate::specs::Owners::IsBelowItsOwner))]
pub(crate) fn is_below_its_owner(plan: &Plan, certificate: &Certificate, node: usize) -> bool
    ensures { IsTrue result ↔ IsBelowItsOwner plan.now certificate.now node }
{
    match owner_at(plan, node) {
        Some(owner) => level_of(plan, certificate, owner) < level_of(plan, certificate, node),
        None => true,
    }
}
