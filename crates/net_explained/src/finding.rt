//! The cause of a fault.
ghost use Rattle.net_rules.specs.Faults.{site_of};
ghost use Rattle.net_explained.specs.Causes.{IsCauseAt};

use crate::cause::Cause;
use crate::causes::{eids, locators, names, owners, pools, records, rows, ways};
use net_rules::{Fault, Rule};
use plan_values::Plan;

/// Why the plan breaks the fault's rule at the fault's spot; none exactly where the plan meets the rule there, whatever
/// the certificate. Where several causes apply, the contract leaves open which of them is told.
pub fn find_cause(plan: &Plan, fault: &Fault) -> Option<Cause>
    ensures { IsCauseAt plan.now (site_of fault.now) result }
{
    let node = fault.node;
    match (fault.rule, fault.entry, fault.eid) {
        (Rule::C01, None, None) => names::shared_name(plan, node),
        (Rule::C02, None, Some(eid)) => eids::unassignable(plan, node, eid),
        (Rule::C03, None, Some(eid)) => eids::shared(plan, node, eid),
        (Rule::C04, Some(row), None) => rows::out_of_range(plan, node, row),
        (Rule::C05, Some(row), None) => rows::overlapped(plan, node, row),
        (Rule::C06, Some(row), None) => rows::no_neighbor(plan, node, row),
        (Rule::C07, None, None) => owners::unfit(plan, node),
        (Rule::C08, None, Some(eid)) => pools::eid_out_of_its_pool(plan, node, eid),
        (Rule::C09, None, None) => pools::unlawful(plan, node),
        (Rule::C11, Some(row), Some(eid)) => ways::cut(plan, node, row, eid),
        (Rule::C12, None, None) => records::none(plan, node),
        (Rule::C12, Some(record), None) => records::old_handle(plan, node, record),
        (Rule::C13, Some(record), None) => records::unreadable(plan, node, record),
        (Rule::C15, Some(record), None) => locators::long(plan, node, record),
        (Rule::C15, Some(record), Some(eid)) => locators::misleading(plan, node, record, eid),
        _ => None,
    }
}
