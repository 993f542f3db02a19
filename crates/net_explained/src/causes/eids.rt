//! C02 and C03: the endpoint ID that a node holds, and the earlier node that holds it too.
ghost use Rattle.std.specs.Prelude.{Some, None};
ghost use Rattle.net_rules.specs.declared.rule.Rule.TheVariants.{C02, C03};
ghost use Rattle.net_explained.specs.Causes.{IsCauseAt};

use crate::cause::Cause;
use crate::holders::holder_before;
use mctp_transport::Eid;
use net_tables::lookup::holds;
use plan_values::Plan;

/// That the node holds the endpoint ID, which can't be assigned.
pub fn unassignable(plan: &Plan, node: usize, eid: Eid) -> Option<Cause>
    ensures { IsCauseAt plan.now (record { rule = C02; node = node; entry = None; eid = Some eid.value }) result }
{
    if holds(plan, node, eid) && !eid.is_assignable() {
        Some(Cause::UnassignableEid)
    } else {
        None
    }
}

/// The first earlier node that holds the node's endpoint ID.
#[tactic(auto, unfolding(net_rules::specs::Eids::IsNewlyHeld))]
pub fn shared(plan: &Plan, node: usize, eid: Eid) -> Option<Cause>
    ensures { IsCauseAt plan.now (record { rule = C03; node = node; entry = None; eid = Some eid.value }) result }
{
    if !holds(plan, node, eid) {
        return None;
    }
    match holder_before(plan, node, eid) {
        Some(earlier) => Some(Cause::SharedEid { earlier }),
        None => None,
    }
}
