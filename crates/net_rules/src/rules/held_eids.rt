//! C11 and M02: rows lead on what other nodes hold, whether or not a node has switched to new rows.
ghost use Rattle.std.specs.Prelude.{ℕ, ◌≡◌, ◌≢◌, ◌⊎◌, ◌↔◌, IsTrue};
ghost use Rattle.net_tables.{specs.Routing.{Holds, IsBridge, eid_number}, specs.TwoPlans.{HasRowAlways}};
ghost use Rattle.net_rules.{specs.PlanTables.{plans_value}, specs.HeldEids.{IsLedOn}, specs.Rules.{AtRowEid}, specs.Search.{IsFirstSpot, IsFirstEid}};

use crate::plan_index::PlanIndex;
use crate::plans::Plans;
use crate::spot::Spot;
use crate::stretches::{Stretched, first_broken};
use mctp_transport::Eid;
use net_tables::lookup::{holds, is_bridge, row_end, rows_at};
use plan_values::{Plan, Row};

/// Where a row of one of the plans leads what another node holds to a node that neither holds it nor leads it on, by
/// each of the plans.
pub fn row_without_way_on(plans: &Plans<'_>, whose: &Plan, node: usize) -> Option<Spot>
    ensures { IsFirstSpot (AtRowEid whose.now node (λ row e. IsLedOn (plans_value plans.now) node e row.next)) result }
{
    let rows = rows_at(whose, node);
    for (r, row) in rows.iter().enumerate() {
        if let Some(eid) = first_without_way_on(plans, node, row) {
            return Some(Spot::at_entry_eid(r, eid));
        }
    }
    None
}

/// The first of the row's endpoint IDs that another node holds, and that the row's next node neither holds nor leads
/// on.
fn first_without_way_on(plans: &Plans<'_>, node: usize, row: &Row) -> Option<Eid>
    ensures { IsFirstEid row.now (λ e. IsLedOn (plans_value plans.now) node e row.now.next) (eid_number result) }
{
    let way_on = WayOn {
        plans,
        node,
        next: row.next,
    };
    first_broken(&way_on, u16::from(row.first.value), row_end(row).min(256))
}

/// That a row leads on what other nodes hold.
#[derive(Clone, Copy)]
struct WayOn<'a> {
    plans: &'a Plans<'a>,
    node: usize,
    next: usize,
}

impl<'a> Stretched for WayOn<'a> {
    ghost use Rattle.std.specs.Prelude.{ℕ, ◌↔◌, IsTrue};
    ghost use Rattle.net_rules.{specs.PlanTables.{plans_value}, specs.HeldEids.{IsLedOn}};

    ghost Demand = { λ way e. IsLedOn (plans_value way.plans.now) way.node e way.next };

    fn is_met_at(&self, eid: Eid) -> bool {
        is_led_on(self.plans, self.node, eid, self.next)
    }

    fn stretch_end(&self, eid: Eid) -> u16 {
        let end = self.plans.row_border(self.next, eid);
        // What the next node has rows for is led on, whoever holds it.
        if is_routing_bridge(self.plans, self.next, eid) {
            end
        } else {
            self.plans.plan.holders().border(eid).min(end)
        }
    }
}

/// Whether no node other than this one holds the endpoint ID, or the next node holds it or is a bridge with a row for
/// it in each of the plans.
#[tactic(auto, unfolding(crate::specs::HeldEids::IsLedOn))]
pub(crate) fn is_led_on(plans: &Plans<'_>, node: usize, eid: Eid, next: usize) -> bool
    ensures { IsTrue result ↔ IsLedOn (plans_value plans.now) node eid.value next }
{
    // Rows are looked through last.
    holds(plans.plan.plan(), next, eid)
        || !is_held_elsewhere(plans.plan, node, eid)
        || has_way_on(plans, next, eid)
}

/// Whether the node holds the endpoint ID, or is a bridge with a row for it in each of the plans.
fn has_way_on(plans: &Plans<'_>, node: usize, eid: Eid) -> bool
    ensures { IsTrue result ↔ (Holds plans.now.plan.now node eid.value ⊎ (IsBridge plans.now.plan.now node × HasRowAlways (plans_value plans.now) node eid.value)) }
{
    holds(plans.plan.plan(), node, eid) || is_routing_bridge(plans, node, eid)
}

/// Whether the node is a bridge with a row for the endpoint ID in each of the plans.
fn is_routing_bridge(plans: &Plans<'_>, node: usize, eid: Eid) -> bool
    ensures { IsTrue result ↔ (IsBridge plans.now.plan.now node × HasRowAlways (plans_value plans.now) node eid.value) }
{
    is_bridge(plans.plan.plan(), node) && plans.has_row_in_each(node, eid)
}

/// Whether a node other than this one holds the endpoint ID.
fn is_held_elsewhere(index: &PlanIndex<'_>, node: usize, eid: Eid) -> bool
    ensures { IsTrue result ↔ ((holder : ℕ) × Holds index.now holder eid.value × (holder ≢ node)) }
{
    match index.holders().first(eid) {
        Some(holder) => holder != node || is_held_by_another(index.plan(), node, eid),
        None => false,
    }
}

/// The same by a search through all nodes.
fn is_held_by_another(plan: &Plan, node: usize, eid: Eid) -> bool
    ensures { IsTrue result ↔ ((holder : ℕ) × Holds plan.now holder eid.value × (holder ≢ node)) }
{
    for holder in 0..plan.nodes.len() {
        if holder != node && holds(plan, holder, eid) {
            return true;
        }
    }
    false
}
