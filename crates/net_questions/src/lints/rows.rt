//! H08, H09 and H12: rows, pools, and whom rows lead to.
ghost use Rattle.std.specs.Prelude.{◌<◌, ◌⊎◌, ◌↔◌, ℕ, IsTrue, length};
ghost use Rattle.net_tables.{specs.Routing.{Holds, Covers}, specs.Ownership.{IsInPool, IsInPoolOf}};
ghost use Rattle.net_questions.specs.Lint.{LeadsToNobody, HasIdleRow, LeavesHeld, NobodyHasRow, IsUnknown, IsIsolated};

use crate::lookup::eid_at;
use mctp_transport::Eid;
use net_tables::lookup::{
    covers, has_row, holds, is_bridge, is_held, is_in_pool, is_in_pool_of, pool_at, row_at, rows_at,
};
use plan_values::{Plan, Pool, Row};

/// Whether a node's row leads to nobody: no node holds any of its endpoint IDs, and none lies in a pool.
pub fn has_idle_row(plan: &Plan, node: usize, row: usize) -> bool
    ensures { IsTrue result ↔ HasIdleRow plan.now node row }
{
    match row_at(plan, node, row) {
        Some(row) => leads_to_nobody(plan, row),
        None => false,
    }
}

/// Whether no node holds any of the row's endpoint IDs, and none lies in a pool.
fn leads_to_nobody(plan: &Plan, row: &Row) -> bool
    ensures { IsTrue result ↔ LeadsToNobody plan.now row.now }
{
    for node in 0..plan.nodes.len() {
        if leads_to(plan, row, node) {
            return false;
        }
    }
    true
}

/// Whether a node holds one of the row's endpoint IDs, or has one in its pool.
fn leads_to(plan: &Plan, row: &Row, node: usize) -> bool
    requires { node < length plan.now.nodes.items }
    ensures { IsTrue result ↔ (e : ℕ) × Covers row.now e × (Holds plan.now node e ⊎ IsInPoolOf plan.now node e) }
{
    covers(row, eid_at(plan, node)) || meets_pool_of(plan, row, node)
}

/// Whether a node has one of the row's endpoint IDs in its pool.
fn meets_pool_of(plan: &Plan, row: &Row, node: usize) -> bool
    ensures { IsTrue result ↔ (e : ℕ) × Covers row.now e × IsInPoolOf plan.now node e }
{
    match pool_at(plan, node) {
        Some(pool) => meets(row, pool),
        None => false,
    }
}

/// Whether one of the row's endpoint IDs lies in the pool: if any does, the first one of the two that begins later.
fn meets(row: &Row, pool: Pool) -> bool
    ensures { IsTrue result ↔ (e : ℕ) × Covers row.now e × IsInPool pool e }
{
    if row.first.value < pool.first.value {
        covers(row, pool.first) && pool.size > 0
    } else {
        row.size > 0 && is_in_pool(pool, row.first)
    }
}

/// Whether a bridge has the endpoint ID in its pool, another node holds it, and the bridge has no row for it.
pub fn leaves_held(plan: &Plan, node: usize, eid: Eid) -> bool
    ensures { IsTrue result ↔ LeavesHeld plan.now node eid.value }
{
    is_bridge(plan, node)
        && is_in_pool_of(plan, node, eid)
        && is_held(plan, eid)
        && !holds(plan, node, eid)
        && !has_row(plan, node, eid)
}

/// Whether a node has no rows, and no node has a row for its endpoint ID.
pub fn is_isolated(plan: &Plan, node: usize) -> bool
    ensures { IsTrue result ↔ IsIsolated plan.now node }
{
    rows_at(plan, node).is_empty() && is_unknown(plan, node)
}

/// Whether there is such a node, and no node has a row for its endpoint ID.
fn is_unknown(plan: &Plan, node: usize) -> bool
    ensures { IsTrue result ↔ IsUnknown plan.now node }
{
    if node < plan.nodes.len() {
        nobody_has_row(plan, eid_at(plan, node))
    } else {
        false
    }
}

/// Whether no node has a row for the endpoint ID.
fn nobody_has_row(plan: &Plan, eid: Eid) -> bool
    ensures { IsTrue result ↔ NobodyHasRow plan.now eid.value }
{
    for node in 0..plan.nodes.len() {
        if has_row(plan, node, eid) {
            return false;
        }
    }
    true
}
