//! C04 to C06: what is wrong with a row.
ghost use Rattle.std.specs.Prelude.{◌≡◌, ◌≢◌, ◌≤◌, ℕ, ◌↔◌, IsTrue, Some, None, slice_get};
ghost use Rattle.net_tables.{specs.Routing.{rows_of, Covers, IsBridge}, specs.Rows.{IsJoined, bus_of}};
ghost use Rattle.net_rules.specs.declared.rule.Rule.TheVariants.{C04, C05, C06};
ghost use Rattle.net_explained.{specs.declared.cause.Cause.TheVariants.{NextIsItself, NoSuchPort, EndpointForSeveral}, specs.Searches.{IsLeastEid, IsFirstWithEid}, specs.Causes.{IsCauseAt}, specs.Rows.{CoversAt}};

use crate::cause::Cause;
use mctp_transport::Eid;
use net_rules::is_in_range;
use net_tables::lookup::{bus_at, covers, is_bridge, is_on_bus, row_at};
use plan_values::{Plan, Row};

/// That the node's row covers nothing, or more than can be assigned.
#[tactic(auto, using(crate::proofs::Items::of_item, crate::proofs::Items::of_no_item, crate::proofs::Items::not_of_item))]
pub fn out_of_range(plan: &Plan, node: usize, row: usize) -> Option<Cause>
    ensures { IsCauseAt plan.now (record { rule = C04; node = node; entry = Some row; eid = None }) result }
{
    match row_at(plan, node, row) {
        Some(found) if !is_in_range(found) => Some(Cause::RowOutOfRange),
        _ => None,
    }
}

/// The first earlier row of the node that covers an endpoint ID of the row, and the least such endpoint ID.
pub fn overlapped(plan: &Plan, node: usize, row: usize) -> Option<Cause>
    ensures { IsCauseAt plan.now (record { rule = C05; node = node; entry = Some row; eid = None }) result }
{
    let found = row_at(plan, node, row)?;
    match first_overlapping(plan, node, row, found) {
        Some((earlier, eid)) => Some(Cause::OverlappedRow { earlier, eid }),
        None => None,
    }
}

/// The first of the node's rows before the end that covers an endpoint ID of the row, and the least such endpoint ID.
fn first_overlapping(plan: &Plan, node: usize, end: usize, row: &Row) -> Option<(usize, Eid)>
    ensures { IsFirstWithEid end (λ i e. CoversAt plan.now node i e × Covers row.now e) result }
{
    for earlier in 0..end {
        if let Some(eid) = common_eid_at(plan, node, earlier, row) {
            return Some((earlier, eid));
        }
    }
    None
}

/// The least endpoint ID that both a row of the node and another row cover.
fn common_eid_at(plan: &Plan, node: usize, index: usize, row: &Row) -> Option<Eid>
    ensures { IsLeastEid (λ e. CoversAt plan.now node index e × Covers row.now e) result }
{
    match row_at(plan, node, index) {
        Some(other) => common_eid(other, row),
        None => None,
    }
}

/// The least endpoint ID that both rows cover: if there is one, the first of the row that begins later.
fn common_eid(row: &Row, other: &Row) -> Option<Eid>
    ensures { IsLeastEid (λ e. Covers row.now e × Covers other.now e) result }
{
    let eid = if row.first.value < other.first.value {
        other.first
    } else {
        row.first
    };
    if covers(row, eid) && covers(other, eid) {
        Some(eid)
    } else {
        None
    }
}

/// Why the node's row names no neighbor.
pub fn no_neighbor(plan: &Plan, node: usize, row: usize) -> Option<Cause>
    ensures { IsCauseAt plan.now (record { rule = C06; node = node; entry = Some row; eid = None }) result }
{
    match row_at(plan, node, row) {
        Some(found) => no_neighbor_in(plan, node, found),
        None => None,
    }
}

/// Why the row, as one of the node's, names no neighbor: the first cause in the order of the tests.
#[tactic(auto, unfolding(net_tables::specs::Rows::NamesNeighbor, net_tables::specs::Rows::IsJoined))]
fn no_neighbor_in(plan: &Plan, node: usize, row: &Row) -> Option<Cause>
    ensures cause { (r : ℕ) → slice_get (rows_of plan.now node) r ≡ Some row.now → IsCauseAt plan.now (record { rule = C06; node = node; entry = Some r; eid = None }) result }
    ensures itself { row.now.next ≡ node → result ≡ Some NextIsItself }
    ensures port { row.now.next ≢ node → bus_of plan.now node row.now.port ≡ None → result ≡ Some NoSuchPort }
    ensures several { result ≡ Some EndpointForSeveral → IsJoined plan.now node row.now.port row.now.next }
{
    if row.next == node {
        return Some(Cause::NextIsItself);
    }
    match bus_at(plan, node, row.port) {
        None => Some(Cause::NoSuchPort),
        Some(bus) if !is_on_bus(plan, row.next, bus) => Some(Cause::NextNotOnBus { bus }),
        Some(_) if is_bridge_for_several(plan, row) => None,
        Some(_) => Some(Cause::EndpointForSeveral),
    }
}

/// Whether the row's next node is a bridge, if the row covers several endpoint IDs.
fn is_bridge_for_several(plan: &Plan, row: &Row) -> bool
    ensures { IsTrue result ↔ (2 ≤ row.now.size → IsBridge plan.now row.now.next) }
{
    row.size < 2 || is_bridge(plan, row.next)
}
