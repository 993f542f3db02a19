//! C07: what is wrong with a node's owner.
ghost use Rattle.std.specs.Prelude.{◌≡◌, Some, None};
ghost use Rattle.net_tables.{specs.Routing.{IsBridge}, specs.Ownership.{IsOwnedBy}};
ghost use Rattle.net_rules.specs.declared.rule.Rule.TheVariants.{C07};
ghost use Rattle.net_explained.{specs.declared.cause.Cause.TheVariants.{OwnerSharesNoBus}, specs.Causes.{IsCauseAt}};

use crate::cause::Cause;
use net_rules::share_bus;
use net_tables::lookup::{is_bridge, owner_at};
use plan_values::Plan;

/// Why the node's owner can't own it: it is no bridge, or it is one that shares no bus with the node.
#[tactic(auto, unfolding(net_rules::specs::Owners::HasBridgeAsOwner))]
pub fn unfit(plan: &Plan, node: usize) -> Option<Cause>
    ensures { IsCauseAt plan.now (record { rule = C07; node = node; entry = None; eid = None }) result }
{
    match owner_at(plan, node) {
        Some(owner) => unfit_owner(plan, node, owner),
        None => None,
    }
}

/// Why this owner of the node can't own it.
#[tactic(auto, unfolding(net_rules::specs::Owners::HasBridgeAsOwner))]
fn unfit_owner(plan: &Plan, node: usize, owner: usize) -> Option<Cause>
    requires { IsOwnedBy plan.now node owner }
    ensures cause { IsCauseAt plan.now (record { rule = C07; node = node; entry = None; eid = None }) result }
    ensures bus { result ≡ Some (OwnerSharesNoBus owner) → IsBridge plan.now owner }
{
    if !is_bridge(plan, owner) {
        Some(Cause::OwnerIsEndpoint { owner })
    } else if !share_bus(plan, node, owner) {
        Some(Cause::OwnerSharesNoBus { owner })
    } else {
        None
    }
}
