//! Tables of the buses, nodes, pools and rows of a plan.

use crate::markup::{begin_row, end_row, push_cell, push_listed, table};
use net_tables::lookup::{
    address_on, bus_at, bus_name, is_in_pool, is_on_bus, kind_word, level_of, node_name,
};
use plan_texts::{address_text, bus_text, name_or_none, number_text, span_text};
use plan_values::{Bus, Certificate, Node, Plan, Pool, Port, Row};
use std::alloc::{AllocError, Global};

/// The buses, with the nodes on each.
pub fn bus_table(alloc: Global, plan: &Plan) -> Result<String, AllocError> {
    let mut rows = String::new(alloc);
    for (index, bus) in plan.buses.iter().enumerate() {
        push_bus(alloc, plan, index, bus, &mut rows)?;
    }
    table(alloc, &["Bus", "Binding", "Media", "Nodes"], &rows)
}

fn push_bus(
    alloc: Global,
    plan: &Plan,
    index: usize,
    bus: &Bus,
    rows: &mut String,
) -> Result<(), AllocError> {
    let binding = bus.binding;
    let media = bus.media;
    begin_row(alloc, bus.name.text.as_str(), rows)?;
    write!(rows, "<td>{binding}</td><td>{media}</td>")?;
    push_cell(alloc, &nodes_on(alloc, plan, index)?, rows)?;
    end_row(rows)
}

/// The names of the nodes that are on a bus.
fn nodes_on(alloc: Global, plan: &Plan, bus: usize) -> Result<String, AllocError> {
    let mut nodes = String::new(alloc);
    for node in 0..plan.nodes.len() {
        if is_on_bus(plan, node, bus) {
            push_listed(&mut nodes, node_name(plan, node))?;
        }
    }
    Ok(nodes)
}

/// The nodes, with the levels that a certificate gives them where there is one.
pub fn node_table(
    alloc: Global,
    plan: &Plan,
    certificate: Option<&Certificate>,
) -> Result<String, AllocError> {
    let mut rows = String::new(alloc);
    for (index, node) in plan.nodes.iter().enumerate() {
        let level = certificate.map(|it| usize::from(level_of(plan, it, index)));
        push_node(alloc, plan, index, node, level, &mut rows)?;
    }
    let headings = [
        "Node",
        "No.",
        "Kind",
        "Endpoint ID",
        "Level",
        "Owner",
        "Ports",
        "Rows",
        "Terminus ID",
    ];
    table(alloc, &headings, &rows)
}

fn push_node(
    alloc: Global,
    plan: &Plan,
    index: usize,
    node: &Node,
    level: Option<usize>,
    rows: &mut String,
) -> Result<(), AllocError> {
    let number = index.saturating_add(1);
    let kind = kind_word(node.kind);
    let eid = node.eid.value;
    let level = number_text(alloc, level)?;
    begin_row(alloc, node.name.text.as_str(), rows)?;
    write!(
        rows,
        "<td>{number}</td><td>{kind}</td><td>{eid}</td><td>{level}</td>"
    )?;
    push_cell(alloc, name_or_none(plan, node.owner), rows)?;
    push_cell(alloc, &ports_text(alloc, plan, &node.ports)?, rows)?;
    let count = node.rows.len();
    let tid = node.terminus.as_ref().map(|it| usize::from(it.tid));
    let tid = number_text(alloc, tid)?;
    write!(rows, "<td>{count}</td><td>{tid}</td>")?;
    end_row(rows)
}

/// The ports of a node: each number, the bus, and the physical address there.
fn ports_text(alloc: Global, plan: &Plan, ports: &[Port]) -> Result<String, AllocError> {
    let mut text = String::new(alloc);
    for (index, port) in ports.iter().enumerate() {
        let bus = bus_name(plan, port.bus);
        let address = address_text(alloc, &port.address)?;
        push_listed(&mut text, &format!(in alloc; "{index}: {bus} {address}")?)?;
    }
    Ok(text)
}

/// The pools, each with the nodes that hold one of its endpoint IDs.
pub fn pool_table(alloc: Global, plan: &Plan) -> Result<String, AllocError> {
    let mut rows = String::new(alloc);
    for node in &plan.nodes {
        if let Some(pool) = node.pool {
            begin_row(alloc, node.name.text.as_str(), &mut rows)?;
            push_pool(alloc, plan, pool, &mut rows)?;
        }
    }
    table(alloc, &["Bridge", "Endpoint IDs", "Size", "Held by"], &rows)
}

fn push_pool(alloc: Global, plan: &Plan, pool: Pool, rows: &mut String) -> Result<(), AllocError> {
    let span = span_text(alloc, pool.first.value, pool.size)?;
    let size = pool.size;
    write!(rows, "<td>{span}</td><td>{size}</td>")?;
    push_cell(alloc, &holders_of(alloc, plan, pool)?, rows)?;
    end_row(rows)
}

/// The names of the nodes that hold one of a pool's endpoint IDs.
fn holders_of(alloc: Global, plan: &Plan, pool: Pool) -> Result<String, AllocError> {
    let mut holders = String::new(alloc);
    for node in &plan.nodes {
        if is_in_pool(pool, node.eid) {
            push_listed(&mut holders, node.name.text.as_str())?;
        }
    }
    Ok(holders)
}

/// The rows of the routing tables.
pub fn row_table(alloc: Global, plan: &Plan) -> Result<String, AllocError> {
    let mut rows = String::new(alloc);
    for (index, node) in plan.nodes.iter().enumerate() {
        for (number, row) in node.rows.iter().enumerate() {
            begin_row(alloc, node.name.text.as_str(), &mut rows)?;
            push_row(alloc, plan, index, number, row, &mut rows)?;
        }
    }
    let headings = [
        "Node",
        "Row",
        "Endpoint IDs",
        "Port",
        "Bus",
        "Next node",
        "Address there",
    ];
    table(alloc, &headings, &rows)
}

fn push_row(
    alloc: Global,
    plan: &Plan,
    node: usize,
    number: usize,
    row: &Row,
    rows: &mut String,
) -> Result<(), AllocError> {
    let port = row.port;
    let bus = bus_at(plan, node, port);
    let span = span_text(alloc, row.first.value, row.size)?;
    write!(rows, "<td>{number}</td><td>{span}</td><td>{port}</td>")?;
    push_cell(alloc, bus_text(plan, bus), rows)?;
    push_cell(alloc, node_name(plan, row.next), rows)?;
    let address = address_text(alloc, address_on(plan, row.next, bus))?;
    write!(rows, "<td>{address}</td>")?;
    end_row(rows)
}
