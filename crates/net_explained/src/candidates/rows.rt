//! Rows that a node may have in place of its own.

use crate::candidates::add;
use crate::edit::{Change, Edit};
use mctp_transport::Eid;
use net_tables::lookup::{
    covers, eid_at, has_row, holds, is_bridge, is_held, is_in_pool_of, is_on_bus, pool_at,
    pool_end, port_at, row_at, row_end, rows_at,
};
use plan_values::{Kind, Plan, Row};
use std::alloc::AllocError;

/// Adds a row that covers from the first number on to that before the end, unless this is nothing or not within 8 to
/// 254.
fn add_row(
    node: usize,
    at: usize,
    row: Row,
    first: u16,
    end: u16,
    edits: &mut Vec<Edit>,
) -> Result<(), AllocError> {
    if first < 8 || first >= end || end > 255 {
        return Ok(());
    }
    let row = Row {
        first: Eid::new(first as u8),
        size: (end - first) as u8,
        port: row.port,
        next: row.next,
    };
    add(edits, node, Change::Row(at, row))
}

/// Adds the row with the first endpoint IDs, one after another, that no other row of the node covers.
pub fn add_rest(
    plan: &Plan,
    node: usize,
    at: usize,
    edits: &mut Vec<Edit>,
) -> Result<(), AllocError> {
    let Some(row) = row_at(plan, node, at) else {
        return Ok(());
    };
    let mut first = None;
    for number in 0..256u16 {
        let is_alone = covers_alone(plan, node, at, Eid::new(number as u8));
        match first {
            None if is_alone => first = Some(number),
            Some(first) if !is_alone => return add_row(node, at, *row, first, number, edits),
            _ => {}
        }
    }
    Ok(())
}

/// Whether the row of the node is the only one there that covers the endpoint ID.
fn covers_alone(plan: &Plan, node: usize, at: usize, eid: Eid) -> bool {
    for (index, row) in rows_at(plan, node).iter().enumerate() {
        if covers(row, eid) != (index == at) {
            return false;
        }
    }
    true
}

/// Adds the row with the endpoint ID of its next node, and with its pool.
pub fn add_what_next_has(
    plan: &Plan,
    node: usize,
    at: usize,
    edits: &mut Vec<Edit>,
) -> Result<(), AllocError> {
    let Some(row) = row_at(plan, node, at) else {
        return Ok(());
    };
    if let Some(pool) = pool_at(plan, row.next) {
        let first = u16::from(pool.first.value);
        add_row(node, at, *row, first, pool_end(pool), edits)?;
    }
    match eid_at(plan, row.next) {
        Some(eid) => {
            let first = u16::from(eid.value);
            add_row(node, at, *row, first, first + 1, edits)
        }
        None => Ok(()),
    }
}

/// Adds that the row's next node is a bridge.
pub fn add_next_as_bridge(
    plan: &Plan,
    node: usize,
    at: usize,
    edits: &mut Vec<Edit>,
) -> Result<(), AllocError> {
    match row_at(plan, node, at) {
        Some(row) => add(edits, row.next, Change::Kind(Kind::Bridge)),
        None => Ok(()),
    }
}

/// Adds the row as far as it lies within 8 to 254, and for its first endpoint ID alone.
pub fn add_clipped(
    plan: &Plan,
    node: usize,
    at: usize,
    edits: &mut Vec<Edit>,
) -> Result<(), AllocError> {
    let Some(row) = row_at(plan, node, at) else {
        return Ok(());
    };
    let first = u16::from(row.first.value).max(8);
    add_row(node, at, *row, first, row_end(row).min(255), edits)?;
    add_row(node, at, *row, first, first + 1, edits)
}

/// Adds the row to its next node by other ports, and to other nodes: those that hold its first endpoint ID, and those
/// that have a row for it or have it in their pool.
pub fn add_neighbors(
    plan: &Plan,
    node: usize,
    at: usize,
    edits: &mut Vec<Edit>,
) -> Result<(), AllocError> {
    let Some(row) = row_at(plan, node, at) else {
        return Ok(());
    };
    add_by_ports(plan, node, at, *row, row.next, edits)?;
    for next in 0..plan.nodes.len() {
        if holds(plan, next, row.first) {
            add_by_ports(plan, node, at, *row, next, edits)?;
        }
    }
    for next in 0..plan.nodes.len() {
        if is_bridge(plan, next) && is_in_pool_of(plan, next, row.first) {
            add_by_ports(plan, node, at, *row, next, edits)?;
        }
    }
    for next in 0..plan.nodes.len() {
        if is_bridge(plan, next) && has_row(plan, next, row.first) {
            add_by_ports(plan, node, at, *row, next, edits)?;
        }
    }
    Ok(())
}

/// Adds the row to a node by each port that has it on its bus.
fn add_by_ports(
    plan: &Plan,
    node: usize,
    at: usize,
    row: Row,
    next: usize,
    edits: &mut Vec<Edit>,
) -> Result<(), AllocError> {
    if next == node {
        return Ok(());
    }
    for port in 0..32u8 {
        if is_joined(plan, node, port, next) && (port != row.port || next != row.next) {
            add(
                edits,
                node,
                Change::Row(
                    at,
                    Row {
                        port,
                        next,
                        first: row.first,
                        size: row.size,
                    },
                ),
            )?;
        }
    }
    Ok(())
}

/// Whether the other node is on the bus of the node's port.
fn is_joined(plan: &Plan, node: usize, port: u8, next: usize) -> bool {
    match port_at(plan, node, usize::from(port)) {
        Some(port) => is_on_bus(plan, next, port.bus),
        None => false,
    }
}

/// Adds what is left of the row below the endpoint ID and above it, and what is left of the rows without it.
fn add_without(
    plan: &Plan,
    node: usize,
    at: usize,
    eid: Eid,
    edits: &mut Vec<Edit>,
) -> Result<(), AllocError> {
    if let Some(row) = row_at(plan, node, at) {
        let eid = u16::from(eid.value);
        add_row(node, at, *row, u16::from(row.first.value), eid, edits)?;
        add_row(node, at, *row, eid + 1, row_end(row), edits)?;
    }
    add(edits, node, Change::LessRow(at))
}

/// Adds ways out of a loop of the endpoint ID: the node's row for it leads elsewhere, or covers it no more.
pub fn add_ways_out(
    plan: &Plan,
    node: usize,
    eid: Eid,
    edits: &mut Vec<Edit>,
) -> Result<(), AllocError> {
    for at in 0..rows_at(plan, node).len() {
        if covers_at(plan, node, at, eid) {
            if !is_held(plan, eid) {
                add_without(plan, node, at, eid, edits)?;
            } else {
                add_neighbors(plan, node, at, edits)?;
                add_without(plan, node, at, eid, edits)?;
            }
        }
    }
    Ok(())
}

/// Whether the node's row covers the endpoint ID.
fn covers_at(plan: &Plan, node: usize, at: usize, eid: Eid) -> bool {
    match row_at(plan, node, at) {
        Some(row) => covers(row, eid),
        None => false,
    }
}

/// Adds ways on to the holder of an endpoint ID, where the next node of the row has none: the row leads to the holder,
/// or the next node gets a row, or the row covers it no more.
pub fn add_ways_on(
    plan: &Plan,
    node: usize,
    at: usize,
    eid: Option<Eid>,
    holder: usize,
    edits: &mut Vec<Edit>,
) -> Result<(), AllocError> {
    let (Some(row), Some(eid)) = (row_at(plan, node, at), eid) else {
        return Ok(());
    };
    if is_bridge(plan, row.next) {
        add_rows_for(plan, node, row, eid, holder, edits)?;
    } else {
        add_next_as_bridge(plan, node, at, edits)?;
    }
    add_by_ports(plan, node, at, *row, holder, edits)?;
    add_neighbors(plan, node, at, edits)?;
    add_without(plan, node, at, eid, edits)
}

/// Adds rows of the row's next node for the endpoint ID: those to its holder cover it in place of another one, or there
/// is one more.
fn add_rows_for(
    plan: &Plan,
    node: usize,
    row: &Row,
    eid: Eid,
    holder: usize,
    edits: &mut Vec<Edit>,
) -> Result<(), AllocError> {
    let from = row.next;
    let first = u16::from(eid.value);
    for at in 0..rows_at(plan, from).len() {
        if let Some(other) = row_at(plan, from, at) {
            if other.next == holder {
                add_row(from, at, *other, first, first + 1, edits)?;
            }
        }
    }
    add_more_rows(plan, from, eid, own_run(plan, holder, eid), holder, edits)?;
    add_more_rows(plan, from, eid, 1, holder, edits)?;
    for next in 0..plan.nodes.len() {
        if next != node && is_bridge(plan, next) && has_row(plan, next, eid) {
            add_more_rows(plan, from, eid, lacking(plan, from, row, eid), next, edits)?;
            add_more_rows(plan, from, eid, 1, next, edits)?;
        }
    }
    Ok(())
}

/// How many endpoint IDs, one after another from that of the node on, are its own or of its pool.
fn own_run(plan: &Plan, node: usize, eid: Eid) -> u8 {
    let number = u16::from(eid.value);
    match pool_at(plan, node) {
        Some(pool) if u16::from(pool.first.value) <= number + 1 && number < pool_end(pool) => {
            (pool_end(pool) - number).min(247) as u8
        }
        _ => 1,
    }
}

/// How many endpoint IDs of the row, one after another from this one on, the node has no row for.
fn lacking(plan: &Plan, node: usize, row: &Row, eid: Eid) -> u8 {
    let mut count = 0u8;
    for number in usize::from(eid.value)..255 {
        let next = Eid::new(number as u8);
        if has_row(plan, node, next) || !covers(row, next) {
            return count;
        }
        count = count.saturating_add(1);
    }
    count
}

/// Adds one more row of the node to another one, by each port that has it on its bus.
fn add_more_rows(
    plan: &Plan,
    node: usize,
    first: Eid,
    size: u8,
    next: usize,
    edits: &mut Vec<Edit>,
) -> Result<(), AllocError> {
    if next == node {
        return Ok(());
    }
    for port in 0..32u8 {
        if is_joined(plan, node, port, next) {
            add(
                edits,
                node,
                Change::MoreRow(Row {
                    first,
                    size,
                    port,
                    next,
                }),
            )?;
        }
    }
    Ok(())
}
