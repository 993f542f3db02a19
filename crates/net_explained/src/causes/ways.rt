//! C11: why a row leads what another node holds nowhere.
ghost use Rattle.std.specs.Prelude.{◌≢◌, ◌↔◌, ◌⊎◌, ⊤, IsTrue, Some, MatchOption};
ghost use Rattle.net_tables.{specs.Routing.{Holds, IsBridge, HasRow}, specs.TwoPlans.{one_plan}};
ghost use Rattle.net_rules.{specs.HeldEids.{IsLedOn}, specs.declared.rule.Rule.TheVariants.{C11}};
ghost use Rattle.net_explained.{specs.Searches.{IsFirst}, specs.Causes.{IsCauseAt}};

use crate::cause::Cause;
use mctp_transport::Eid;
use net_tables::lookup::{covers, has_row, holds, is_bridge, row_at};
use plan_values::Plan;

/// Who holds the endpoint ID that the node's row leads to a node that neither holds it nor leads it on.
pub fn cut(plan: &Plan, node: usize, row: usize, eid: Eid) -> Option<Cause>
    ensures { IsCauseAt plan.now (record { rule = C11; node = node; entry = Some row; eid = Some eid.value }) result }
{
    let found = row_at(plan, node, row)?;
    if !covers(found, eid) {
        return None;
    }
    let holder = holder_cut_off(plan, node, eid, found.next)?;
    if is_bridge(plan, found.next) {
        Some(Cause::NextHasNoRow { holder })
    } else {
        Some(Cause::NextIsEndpoint { holder })
    }
}

/// The first node other than this one that holds the endpoint ID, where the next node neither holds it nor leads it on.
#[tactic(auto, unfolding(net_rules::specs::HeldEids::IsLedOn))]
fn holder_cut_off(plan: &Plan, node: usize, eid: Eid, next: usize) -> Option<usize>
    ensures cut { MatchOption result (IsLedOn (one_plan plan.now) node eid.value next) (λ _. ¬ Holds plan.now next eid.value × ¬ (IsBridge plan.now next × HasRow plan.now next eid.value)) }
    ensures first { MatchOption result ⊤ (λ holder. IsFirst (λ m. Holds plan.now m eid.value × (m ≢ node)) (Some holder)) }
{
    if leads_on(plan, next, eid) {
        None
    } else {
        other_holder(plan, node, eid)
    }
}

/// Whether the node holds the endpoint ID, or is a bridge with a row for it.
fn leads_on(plan: &Plan, node: usize, eid: Eid) -> bool
    ensures { IsTrue result ↔ (Holds plan.now node eid.value ⊎ (IsBridge plan.now node × HasRow plan.now node eid.value)) }
{
    holds(plan, node, eid) || (is_bridge(plan, node) && has_row(plan, node, eid))
}

/// The first node other than this one that holds the endpoint ID.
fn other_holder(plan: &Plan, node: usize, eid: Eid) -> Option<usize>
    ensures { IsFirst (λ m. Holds plan.now m eid.value × (m ≢ node)) result }
{
    for holder in 0..plan.nodes.len() {
        if holder != node && holds(plan, holder, eid) {
            return Some(holder);
        }
    }
    None
}
