//! Whether a row of a node is as the rules demand.
ghost use Rattle.std.specs.Prelude.{◌≡◌, ◌↔◌, IsTrue};
ghost use Rattle.net_tables.{specs.Routing.{rows_of, Covers, OfItem}, specs.Rows.{IsInRange, IsApartFromEarlier, NamesNeighbor}, specs.Ranks.{Falls}, specs.TwoPlans.{one_plan}};
ghost use Rattle.net_rules.specs.HeldEids.{IsLedOn};

use crate::certified_ranks::CertifiedRanks;
use crate::plan_index::PlanIndex;
use crate::plans::Plans;
use crate::rules::held_eids::is_led_on;
use crate::rules::ranks::falls;
use crate::rules::rows::{is_apart_from_all, is_in_range, names_neighbor};
use mctp_transport::Eid;
use net_tables::lookup::{covers, row_at, rows_at};
use plan_values::Plan;

/// Whether the row covers an endpoint ID, and only such as can be held.
pub fn is_row_in_range(plan: &Plan, node: usize, row: usize) -> bool
    ensures { IsTrue result ↔ OfItem (rows_of plan.now node) row (λ r. IsInRange r) }
{
    match row_at(plan, node, row) {
        Some(row) => is_in_range(row),
        None => true,
    }
}

/// Whether the row lies apart from those before it.
pub fn is_row_apart(plan: &Plan, node: usize, row: usize) -> bool
    ensures { IsTrue result ↔ OfItem (rows_of plan.now node) row (IsApartFromEarlier (rows_of plan.now node) row) }
{
    let rows = rows_at(plan, node);
    row >= rows.len() || is_apart_from_all(&rows[row], &rows[..row])
}

/// Whether the row names a neighbor.
pub fn has_row_neighbor(plan: &Plan, node: usize, row: usize) -> bool
    ensures { IsTrue result ↔ OfItem (rows_of plan.now node) row (λ r. NamesNeighbor plan.now node r) }
{
    match row_at(plan, node, row) {
        Some(row) => names_neighbor(plan, node, row),
        None => true,
    }
}

/// Whether the rank falls along the row for the endpoint ID, if the row covers it.
#[tactic(auto, unfolding(net_tables::specs::Ranks::Falls))]
pub fn does_row_fall(
    plan: &Plan,
    ranks: &CertifiedRanks<'_>,
    node: usize,
    row: usize,
    eid: Eid,
) -> bool
    ensures { IsTrue result ↔ OfItem (rows_of plan.now node) row (λ r. Covers r eid.value → Falls plan.now ranks.now node r eid.value) }
{
    match row_at(plan, node, row) {
        Some(row) => !covers(row, eid) || falls(plan, ranks, node, row.next, eid),
        None => true,
    }
}

/// Whether the row leads the endpoint ID on, if the row covers it.
pub fn does_row_lead_on(
    plan: &Plan,
    index: &PlanIndex<'_>,
    node: usize,
    row: usize,
    eid: Eid,
) -> bool
    requires { index.now ≡ plan.now }
    ensures { IsTrue result ↔ OfItem (rows_of plan.now node) row (λ r. Covers r eid.value → IsLedOn (one_plan plan.now) node eid.value r.next) }
{
    let plans = Plans {
        plan: index,
        after: None,
    };
    match row_at(plan, node, row) {
        Some(row) => !covers(row, eid) || is_led_on(&plans, node, eid, row.next),
        None => true,
    }
}
