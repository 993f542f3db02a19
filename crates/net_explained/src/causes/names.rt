//! C01: the earlier node that has a node's name.
ghost use Rattle.std.specs.Prelude.{◌<◌, length, None};
ghost use Rattle.net_rules.{specs.Names.{HaveOneName}, specs.declared.rule.Rule.TheVariants.{C01}};
ghost use Rattle.net_explained.{specs.Searches.{IsFirstBelow}, specs.Causes.{IsCauseAt}};

use crate::cause::Cause;
use net_rules::have_one_name;
use plan_values::Plan;

/// The first earlier node that has the node's name.
#[tactic(auto, unfolding(net_rules::specs::Names::HasNewName))]
pub fn shared_name(plan: &Plan, node: usize) -> Option<Cause>
    ensures { IsCauseAt plan.now (record { rule = C01; node = node; entry = None; eid = None }) result }
{
    match earlier_namesake(plan, node) {
        Some(earlier) => Some(Cause::SharedName { earlier }),
        None => None,
    }
}

/// The first earlier node that has the node's name; none where there is no such node.
fn earlier_namesake(plan: &Plan, node: usize) -> Option<usize>
    ensures { IsFirstBelow node (λ m. HaveOneName plan.now m node) result }
{
    if node < plan.nodes.len() {
        first_namesake(plan, node)
    } else {
        None
    }
}

/// The first earlier node that has the name of a node of the plan.
fn first_namesake(plan: &Plan, node: usize) -> Option<usize>
    requires { node < length plan.now.nodes.items }
    ensures { IsFirstBelow node (λ m. HaveOneName plan.now m node) result }
{
    for earlier in 0..node {
        if have_one_name(plan, earlier, node) {
            return Some(earlier);
        }
    }
    None
}
