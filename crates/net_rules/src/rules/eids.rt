//! C02 and C03: each node holds an endpoint ID of its own that can be held.
ghost use Rattle.std.specs.Prelude.{◌≡◌, ◌<◌, ◌↔◌, IsTrue, length};
ghost use Rattle.net_rules.{specs.Eids.{IsNewlyHeld}, specs.Rules.{PlanDemands}, specs.Search.{IsFirstSpot}};

use crate::holders::Holders;
use crate::rule::Rule;
use crate::spot::Spot;
use mctp_transport::Eid;
use plan_values::Plan;

/// Where the node's endpoint ID cannot be held.
pub fn unassignable_eid(plan: &Plan, node: usize) -> Option<Spot>
    requires { node < length plan.now.nodes.items }
    ensures { IsFirstSpot (PlanDemands plan.now Rule.C02 node) result }
{
    let eid = plan.nodes[node].eid;
    if eid.is_assignable() {
        return None;
    }
    Some(Spot::at_eid(eid))
}

/// Where an earlier node holds the node's endpoint ID.
pub fn repeated_eid(plan: &Plan, holders: &Holders<'_>, node: usize) -> Option<Spot>
    requires within { node < length plan.now.nodes.items }
    requires holders { holders.now ≡ plan.now }
    ensures { IsFirstSpot (PlanDemands plan.now Rule.C03 node) result }
{
    let eid = plan.nodes[node].eid;
    if is_newly_held(holders, node, eid) {
        return None;
    }
    Some(Spot::at_eid(eid))
}

/// Whether no earlier node holds the endpoint ID.
#[tactic(auto, unfolding(crate::specs::Eids::IsNewlyHeld))]
pub(crate) fn is_newly_held(holders: &Holders<'_>, node: usize, eid: Eid) -> bool
    ensures { IsTrue result ↔ IsNewlyHeld holders.now node eid.value }
{
    match holders.first(eid) {
        Some(first) => node <= first,
        None => true,
    }
}
