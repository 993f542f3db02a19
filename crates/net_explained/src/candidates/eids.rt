//! Endpoint IDs that a node may hold in place of its own.

use crate::candidates::add;
use crate::edit::{Change, Edit};
use mctp_transport::Eid;
use net_tables::lookup::{covers, holds, is_in_pool_of, owner_at, rows_at};
use plan_values::Plan;
use std::alloc::AllocError;

/// How many of one sort are tried.
const FEW: usize = 6;

/// Adds endpoint IDs that nobody holds: first those that a row of another node already leads to the node, and then
/// others of its owner's pool.
pub fn add_eids(plan: &Plan, node: usize, edits: &mut Vec<Edit>) -> Result<(), AllocError> {
    add_free(plan, node, true, edits)?;
    add_free(plan, node, false, edits)
}

fn add_free(
    plan: &Plan,
    node: usize,
    is_led: bool,
    edits: &mut Vec<Edit>,
) -> Result<(), AllocError> {
    let mut found = 0;
    for number in 8..255usize {
        let eid = Eid::new(number as u8);
        if found < FEW
            && is_free(plan, eid)
            && is_for(plan, node, eid)
            && is_led_to(plan, node, eid) == is_led
        {
            found += 1;
            add(edits, node, Change::Eid(eid))?;
        }
    }
    Ok(())
}

/// Whether no node holds the endpoint ID.
fn is_free(plan: &Plan, eid: Eid) -> bool {
    for node in 0..plan.nodes.len() {
        if holds(plan, node, eid) {
            return false;
        }
    }
    true
}

/// Whether a row of some node leads the endpoint ID to this one.
fn is_led_to(plan: &Plan, node: usize, eid: Eid) -> bool {
    for other in 0..plan.nodes.len() {
        for row in rows_at(plan, other) {
            if row.next == node && covers(row, eid) {
                return true;
            }
        }
    }
    false
}

/// Whether the node's owner has the endpoint ID in its pool, where it has an owner, and no node of the same owner has.
fn is_for(plan: &Plan, node: usize, eid: Eid) -> bool {
    let owner = owner_at(plan, node);
    let is_owned = match owner {
        Some(owner) => is_in_pool_of(plan, owner, eid),
        None => true,
    };
    is_owned && !is_in_peers_pool(plan, owner, eid)
}

/// Whether a node of this owner, or without one, has the endpoint ID in its pool.
fn is_in_peers_pool(plan: &Plan, owner: Option<usize>, eid: Eid) -> bool {
    for peer in 0..plan.nodes.len() {
        if owner_at(plan, peer) == owner && is_in_pool_of(plan, peer, eid) {
            return true;
        }
    }
    false
}
