//! Owners and pools that a node may have in place of its own.

use crate::candidates::add;
use crate::edit::{Change, Edit};
use mctp_transport::Eid;
use net_rules::share_bus;
use net_tables::lookup::{
    eid_at, is_bridge, is_in_pool_of, is_on_bus, owner_at, pool_at, pool_end, ports_at,
};
use plan_values::{Plan, Pool};
use std::alloc::AllocError;

/// Adds the bridges on a bus of the node that have its endpoint ID in their pool.
pub fn add_owners(plan: &Plan, node: usize, edits: &mut Vec<Edit>) -> Result<(), AllocError> {
    if let Some(eid) = eid_at(plan, node) {
        for owner in 0..plan.nodes.len() {
            if owner != node
                && owner_at(plan, node) != Some(owner)
                && is_bridge(plan, owner)
                && is_in_pool_of(plan, owner, eid)
                && share_bus(plan, node, owner)
            {
                add(edits, node, Change::Owner(Some(owner)))?;
            }
        }
    }
    Ok(())
}

/// Adds owners of a node that has none.
pub fn add_lost_owners(plan: &Plan, node: usize, edits: &mut Vec<Edit>) -> Result<(), AllocError> {
    match owner_at(plan, node) {
        Some(_) => Ok(()),
        None => add_owners(plan, node, edits),
    }
}

/// Adds the pool from the first number to that before the end, unless it is empty or not within 8 to 254.
fn add_pool(node: usize, first: u16, end: u16, edits: &mut Vec<Edit>) -> Result<(), AllocError> {
    if first < 8 || first >= end || end > 255 {
        return Ok(());
    }
    let pool = Pool {
        first: Eid::new(first as u8),
        size: (end - first) as u8,
    };
    add(edits, node, Change::Pool(Some(pool)))
}

/// Adds the node's pool with the endpoint ID too.
pub fn add_larger(
    plan: &Plan,
    node: usize,
    eid: Option<Eid>,
    edits: &mut Vec<Edit>,
) -> Result<(), AllocError> {
    let Some(eid) = eid else {
        return Ok(());
    };
    let eid = u16::from(eid.value);
    match pool_at(plan, node) {
        Some(pool) => {
            let first = u16::from(pool.first.value).min(eid);
            add_pool(node, first, pool_end(pool).max(eid + 1), edits)
        }
        None => add_pool(node, eid, eid + 1, edits),
    }
}

/// Adds the pool that begins with the least endpoint ID of the nodes that the node owns and of their pools, as large as
/// its own, and the one that has all of these.
pub fn add_for_owned(plan: &Plan, owner: usize, edits: &mut Vec<Edit>) -> Result<(), AllocError> {
    let (mut first, mut end) = (255, 0);
    for node in 0..plan.nodes.len() {
        if let (true, Some(eid)) = (owner_at(plan, node) == Some(owner), eid_at(plan, node)) {
            first = u16::from(eid.value).min(first);
            end = (u16::from(eid.value) + 1).max(end);
            if let Some(pool) = pool_at(plan, node) {
                first = u16::from(pool.first.value).min(first);
                end = pool_end(pool).max(end);
            }
        }
    }
    if let Some(pool) = pool_at(plan, owner) {
        add_pool(
            owner,
            first,
            first.saturating_add(u16::from(pool.size)),
            edits,
        )?;
    }
    add_pool(owner, first, end, edits)
}

/// Adds what is left of the node's pool below the endpoint ID, and above it.
pub fn add_parts(
    plan: &Plan,
    node: usize,
    eid: Option<Eid>,
    edits: &mut Vec<Edit>,
) -> Result<(), AllocError> {
    match (pool_at(plan, node), eid) {
        (Some(pool), Some(eid)) => {
            let eid = u16::from(eid.value);
            add_around(node, pool, eid, eid + 1, edits)
        }
        _ => Ok(()),
    }
}

/// Adds what is left of the node's pool without that of the other node.
pub fn add_apart(
    plan: &Plan,
    node: usize,
    other: usize,
    edits: &mut Vec<Edit>,
) -> Result<(), AllocError> {
    match (pool_at(plan, node), pool_at(plan, other)) {
        (Some(pool), Some(other)) => {
            let first = u16::from(other.first.value);
            add_around(node, pool, first, pool_end(other), edits)
        }
        _ => Ok(()),
    }
}

/// Adds the parts of a pool below and above some endpoint IDs, from the first to that before the end.
fn add_around(
    node: usize,
    pool: Pool,
    first: u16,
    end: u16,
    edits: &mut Vec<Edit>,
) -> Result<(), AllocError> {
    add_pool(
        node,
        end.max(u16::from(pool.first.value)),
        pool_end(pool),
        edits,
    )?;
    add_pool(
        node,
        u16::from(pool.first.value),
        first.min(pool_end(pool)),
        edits,
    )
}

/// Adds the node's pool as far as it lies within 8 to 254, and as far as it lies in its owner's.
pub fn add_clipped(plan: &Plan, node: usize, edits: &mut Vec<Edit>) -> Result<(), AllocError> {
    if let Some(owner) = owner_at(plan, node) {
        add_within(plan, node, owner, edits)?;
    }
    match pool_at(plan, node) {
        Some(pool) => {
            let first = u16::from(pool.first.value).max(8);
            add_pool(
                node,
                first,
                pool_end(pool).min(next_pool(plan, node, pool)),
                edits,
            )?;
            add_pool(node, first, first + 1, edits)?;
            add(edits, node, Change::Pool(None))
        }
        None => Ok(()),
    }
}

/// Adds the node's pool as far as it lies in that of its owner, that of the owner large enough for it, and none.
pub fn add_within(
    plan: &Plan,
    node: usize,
    owner: usize,
    edits: &mut Vec<Edit>,
) -> Result<(), AllocError> {
    if let (Some(pool), Some(around)) = (pool_at(plan, node), pool_at(plan, owner)) {
        let first = u16::from(pool.first.value);
        let first_around = u16::from(around.first.value);
        let end = pool_end(pool);
        let end_around = pool_end(around);
        let end_apart = end.min(end_around).min(next_pool(plan, node, pool));
        add_pool(node, first.max(first_around), end_apart, edits)?;
        add_pool(node, first.max(first_around), end.min(end_around), edits)?;
        add_pool(owner, first.min(first_around), end.max(end_around), edits)?;
    }
    add(edits, node, Change::Pool(None))
}

/// Where the next pool of a node with the same owner begins behind the beginning of this one, or 255.
fn next_pool(plan: &Plan, node: usize, pool: Pool) -> u16 {
    let mut next = 255;
    for peer in 0..plan.nodes.len() {
        if let Some(other) = pool_at(plan, peer) {
            let first = u16::from(other.first.value);
            if peer != node
                && owner_at(plan, peer) == owner_at(plan, node)
                && pool.first.value < other.first.value
                && first < next
            {
                next = first;
            }
        }
    }
    next
}
