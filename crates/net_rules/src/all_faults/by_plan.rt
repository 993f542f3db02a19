//! Whether the plan meets a rule at one place.
ghost use Rattle.std.specs.Prelude.{◌≡◌, ◌↔◌, ◌<◌, IsTrue, Some, None, length};
ghost use Rattle.net_rules.specs.Rules.{PlanDemands};

use crate::all_faults::{records, rows};
use crate::plan_index::PlanIndex;
use crate::rule::Rule;
use crate::rules::eids::is_newly_held;
use crate::rules::names::has_new_name;
use crate::rules::owners::has_bridge_as_owner;
use crate::rules::pools::{has_lawful_pool, is_in_its_pool};
use crate::rules::records::has_records;
use mctp_transport::Eid;
use net_tables::lookup::holds;
use plan_values::Plan;

/// Whether it does at the node itself.
pub fn is_met_at_node(plan: &Plan, rule: Rule, node: usize) -> bool
    requires { node < length plan.now.nodes.items }
    ensures { IsTrue result ↔ PlanDemands plan.now rule node None None }
{
    match rule {
        Rule::C01 => has_new_name(plan, node),
        Rule::C07 => has_bridge_as_owner(plan, node),
        Rule::C09 => has_lawful_pool(plan, node),
        Rule::C12 => has_records(plan, node),
        _ => true,
    }
}

/// Whether it does at an endpoint ID of the node.
pub fn is_met_at_eid(plan: &Plan, index: &PlanIndex<'_>, rule: Rule, node: usize, eid: Eid) -> bool
    requires { index.now ≡ plan.now }
    ensures { IsTrue result ↔ PlanDemands plan.now rule node None (Some eid.value) }
{
    match rule {
        Rule::C02 => !holds(plan, node, eid) || eid.is_assignable(),
        Rule::C03 => !holds(plan, node, eid) || is_newly_held(index.holders(), node, eid),
        Rule::C08 => !holds(plan, node, eid) || is_in_its_pool(plan, node, eid),
        _ => true,
    }
}

/// Whether it does at a row or a record.
pub fn is_met_at_entry(plan: &Plan, rule: Rule, node: usize, entry: usize) -> bool
    ensures { IsTrue result ↔ PlanDemands plan.now rule node (Some entry) None }
{
    match rule {
        Rule::C04 => rows::is_row_in_range(plan, node, entry),
        Rule::C05 => rows::is_row_apart(plan, node, entry),
        Rule::C06 => rows::has_row_neighbor(plan, node, entry),
        Rule::C12 => records::is_handle_new(plan, node, entry),
        Rule::C13 => records::is_record_readable(plan, node, entry),
        Rule::C15 => records::is_locator_of_one_byte(plan, node, entry),
        _ => true,
    }
}

/// Whether it does at an endpoint ID of a row or a record.
pub fn is_met_at_entry_eid(
    plan: &Plan,
    index: &PlanIndex<'_>,
    rule: Rule,
    node: usize,
    entry: usize,
    eid: Eid,
) -> bool
    requires { index.now ≡ plan.now }
    ensures { IsTrue result ↔ PlanDemands plan.now rule node (Some entry) (Some eid.value) }
{
    match rule {
        Rule::C11 => rows::does_row_lead_on(plan, index, node, entry, eid),
        Rule::C15 => records::does_locate(plan, index.holders(), node, entry, eid),
        _ => true,
    }
}
