//! The holder of an endpoint ID among the first nodes of a plan.
ghost use Rattle.net_tables.specs.Routing.{Holds};
ghost use Rattle.net_explained.specs.Searches.{IsFirstBelow};

use mctp_transport::Eid;
use net_tables::lookup::holds;
use plan_values::Plan;

/// The first node before the end that holds the endpoint ID.
pub fn holder_before(plan: &Plan, end: usize, eid: Eid) -> Option<usize>
    ensures { IsFirstBelow end (λ m. Holds plan.now m eid.value) result }
{
    for node in 0..end {
        if holds(plan, node, eid) {
            return Some(node);
        }
    }
    None
}
