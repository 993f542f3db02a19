//! C01: no two nodes have one name.
ghost use Rattle.std.specs.Prelude.{◌<◌, ◌↔◌, IsTrue, length};
ghost use Rattle.net_rules.{specs.Names.{HasNewName, HaveOneName}, specs.Rules.{PlanDemands}, specs.Search.{IsFirstSpot}};

use crate::rule::Rule;
use crate::spot::Spot;
use plan_values::Plan;

/// Where an earlier node has the node's name.
pub fn repeated_name(plan: &Plan, node: usize) -> Option<Spot>
    requires { node < length plan.now.nodes.items }
    ensures { IsFirstSpot (PlanDemands plan.now Rule.C01 node) result }
{
    if has_new_name(plan, node) {
        return None;
    }
    Some(Spot::at_node())
}

/// Whether no earlier node has the node's name.
#[tactic(auto, unfolding(crate::specs::Names::HasNewName))]
pub(crate) fn has_new_name(plan: &Plan, node: usize) -> bool
    requires { node < length plan.now.nodes.items }
    ensures { IsTrue result ↔ HasNewName plan.now node }
{
    for earlier in 0..node {
        if have_one_name(plan, earlier, node) {
            return false;
        }
    }
    true
}

/// Whether two nodes have one name.
pub fn have_one_name(plan: &Plan, node: usize, other: usize) -> bool
    requires first { node < length plan.now.nodes.items }
    requires second { other < length plan.now.nodes.items }
    ensures { IsTrue result ↔ HaveOneName plan.now node other }
{
    plan.nodes[node].name == plan.nodes[other].name
}
