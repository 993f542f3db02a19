//! The search for the first fault of a plan alone, whatever the certificate.
ghost use Rattle.std.specs.Prelude.{◌≡◌, ◌<◌, length, IfOk};
ghost use Rattle.net_rules.{specs.Rules.{PlanDemands}, specs.Search.{IsFirstSpot}, specs.PlanFaults.{IsFirstOfPlanRule}};

use crate::fault::Fault;
use crate::plan_index::PlanIndex;
use crate::plans::Plans;
use crate::rule::Rule;
use crate::rules::{eids, held_eids, locators, names, owners, pools, records, rows};
use crate::spot::Spot;
use plan_values::Plan;
use std::alloc::{AllocError, Global};

/// The first spot where the plan breaks the rule.
pub fn first_of_plan_rule(
    alloc: Global,
    plan: &Plan,
    index: &PlanIndex<'_>,
    rule: Rule,
) -> Result<Option<Fault>, AllocError>
    requires { index.now ≡ plan.now }
    ensures { IfOk result (IsFirstOfPlanRule plan.now rule) }
{
    for node in 0..plan.nodes.len() {
        if let Some(spot) = first_of_plan_at(alloc, plan, index, rule, node)? {
            return Ok(Some(Fault {
                rule,
                node,
                entry: spot.entry,
                eid: spot.eid,
            }));
        }
    }
    Ok(None)
}

/// The first spot at the node where the plan breaks the rule.
pub fn first_of_plan_at(
    alloc: Global,
    plan: &Plan,
    index: &PlanIndex<'_>,
    rule: Rule,
    node: usize,
) -> Result<Option<Spot>, AllocError>
    requires within { node < length plan.now.nodes.items }
    requires index { index.now ≡ plan.now }
    ensures { IfOk result (IsFirstSpot (PlanDemands plan.now rule node)) }
{
    Ok(match rule {
        Rule::C01 => names::repeated_name(plan, node),
        Rule::C02 => eids::unassignable_eid(plan, node),
        Rule::C03 => eids::repeated_eid(plan, index.holders(), node),
        Rule::C04 => rows::row_out_of_range(plan, node),
        Rule::C05 => rows::overlapping_row(plan, index, node),
        Rule::C06 => rows::row_without_neighbor(plan, node),
        Rule::C07 => owners::owner_without_bridge(plan, node),
        Rule::C08 => pools::eid_out_of_its_pool(plan, node),
        Rule::C09 => pools::unlawful_pool(plan, node),
        Rule::C11 => held_eids::row_without_way_on(
            &Plans {
                plan: index,
                after: None,
            },
            plan,
            node,
        ),
        Rule::C12 => return records::unlawful_handle(alloc, plan, node),
        Rule::C13 => records::unreadable_record(plan, node),
        Rule::C15 => locators::misleading_locator(plan, index.holders(), node),
        Rule::C10 | Rule::C14 | Rule::C16 => None,
    })
}
