//! C04 to C06: a node's rows are lawful, lie apart, and lead to neighbors.
ghost use Rattle.std.specs.Prelude.{◌≡◌, ℕ, ◌<◌, ◌↔◌, IsTrue, All, length};
ghost use Rattle.net_tables.specs.Rows.{IsInRange, AreApart, IsApartFromEarlier, IsJoined, NamesNeighbor};
ghost use Rattle.net_rules.{specs.Rules.{PlanDemands}, specs.Search.{IsFirstItem, IsFirstSpot}};

use crate::plan_index::PlanIndex;
use crate::rule::Rule;
use crate::spot::Spot;
use net_tables::lookup::{bus_at, is_bridge, is_on_bus, row_end, rows_at};
use plan_values::{Plan, Row};

/// Where a row is empty or reaches beyond the endpoint IDs that can be held.
pub fn row_out_of_range(plan: &Plan, node: usize) -> Option<Spot>
    ensures { IsFirstSpot (PlanDemands plan.now Rule.C04 node) result }
{
    Spot::at_found(first_out_of_range(rows_at(plan, node)))
}

/// Where a row overlaps an earlier one.
pub fn overlapping_row(plan: &Plan, index: &PlanIndex<'_>, node: usize) -> Option<Spot>
    requires { index.now ≡ plan.now }
    ensures { IsFirstSpot (PlanDemands plan.now Rule.C05 node) result }
{
    if index.are_rows_apart(node) {
        return None;
    }
    Spot::at_found(first_overlapping(rows_at(plan, node)))
}

/// Where a row names no neighbor.
pub fn row_without_neighbor(plan: &Plan, node: usize) -> Option<Spot>
    ensures { IsFirstSpot (PlanDemands plan.now Rule.C06 node) result }
{
    Spot::at_found(first_without_neighbor(plan, node, rows_at(plan, node)))
}

/// The first row that is empty or reaches beyond the endpoint IDs that can be held.
fn first_out_of_range(rows: &[Row]) -> Option<usize>
    ensures { IsFirstItem rows.now (λ _ row. IsInRange row) result }
{
    for (r, row) in rows.iter().enumerate() {
        if !is_in_range(row) {
            return Some(r);
        }
    }
    None
}

/// Whether a row covers an endpoint ID, and only such as can be held.
#[tactic(auto, unfolding(net_tables::specs::Rows::IsInRange))]
pub fn is_in_range(row: &Row) -> bool
    ensures { IsTrue result ↔ IsInRange row.now }
{
    1 <= row.size && 8 <= row.first.value && row_end(row) <= 255
}

/// The first row that overlaps an earlier one.
fn first_overlapping(rows: &[Row]) -> Option<usize>
    ensures { IsFirstItem rows.now (IsApartFromEarlier rows.now) result }
{
    for (r, row) in rows.iter().enumerate() {
        if !is_apart_from_all(row, &rows[..r]) {
            return Some(r);
        }
    }
    None
}

/// Whether a row lies apart from each of the others.
pub(crate) fn is_apart_from_all(row: &Row, others: &[Row]) -> bool
    ensures { IsTrue result ↔ All (AreApart row.now) others.now }
{
    others.iter().all(|other| are_apart(row, other))
}

/// Whether no endpoint ID lies in both rows.
fn are_apart(row: &Row, other: &Row) -> bool
    ensures { IsTrue result ↔ AreApart row.now other.now }
{
    row.eids().is_apart_from(other.eids())
}

/// The first of the node's rows that names no neighbor.
fn first_without_neighbor(plan: &Plan, node: usize, rows: &[Row]) -> Option<usize>
    ensures { IsFirstItem rows.now (λ _ row. NamesNeighbor plan.now node row) result }
{
    for (r, row) in rows.iter().enumerate() {
        if !names_neighbor(plan, node, row) {
            return Some(r);
        }
    }
    None
}

/// Whether the row's port exists, and its next node is another one on that port's bus, a bridge for several endpoint
/// IDs.
#[tactic(auto, unfolding(net_tables::specs::Rows::NamesNeighbor))]
pub(crate) fn names_neighbor(plan: &Plan, node: usize, row: &Row) -> bool
    ensures { IsTrue result ↔ NamesNeighbor plan.now node row.now }
{
    row.next != node
        && is_joined(plan, node, row.port, row.next)
        && (row.size < 2 || is_bridge(plan, row.next))
}

/// Whether the node has the port, and the other node a port on its bus.
#[tactic(auto, unfolding(net_tables::specs::Rows::IsJoined))]
fn is_joined(plan: &Plan, node: usize, port: u8, other: usize) -> bool
    ensures { IsTrue result ↔ IsJoined plan.now node port other }
{
    match bus_at(plan, node, port) {
        Some(bus) => is_on_bus(plan, other, bus),
        None => false,
    }
}
