//! Writing a plan as a person would lay it out.
use crate::board::{Board, BoardBus, BoardNode, BoardPort, BoardRow};
use crate::making::{Chosen, MadePool, MadeRecord};
use plan_values::Kind;
use std::alloc::{AllocError, Global};

/// The transmission unit of a plan that says none.
const BASELINE: u16 = 64;

/// The text of a plan: format 1 at the unit of 64, else format 2.
pub fn plan_text(
    alloc: Global,
    board: &Board,
    chosen: &[Chosen],
    rows: &[Vec<BoardRow>],
    records: &[Vec<MadeRecord>],
) -> Result<String, AllocError> {
    let mut text = String::new(alloc);
    add_plan(&mut text, board, chosen, rows, records)?;
    Ok(text)
}

fn add_plan(
    text: &mut String,
    board: &Board,
    chosen: &[Chosen],
    rows: &[Vec<BoardRow>],
    records: &[Vec<MadeRecord>],
) -> Result<(), AllocError> {
    add_head(text, board.unit)?;
    add_buses(text, &board.buses)?;
    for (index, node) in board.nodes.iter().enumerate() {
        add_identity(text, board, chosen, index, node)?;
        add_ports(text, board, &node.ports)?;
        add_rows(text, board, list_at(rows, index))?;
        add_terminus(text, node.tid, list_at(records, index))?;
    }
    text.push_str(if board.nodes.is_empty() {
        "]\n}\n"
    } else {
        "\n  ]\n}\n"
    })
}

fn list_at<T>(lists: &[Vec<T>], index: usize) -> &[T] {
    match lists.get(index) {
        Some(list) => list.as_slice(),
        None => &[],
    }
}

/// What stands before an item of a list: the end of a line.
fn line_end(index: usize) -> &'static str {
    if index == 0 { "\n" } else { ",\n" }
}

/// All before the buses.
fn add_head(text: &mut String, unit: u16) -> Result<(), AllocError> {
    if unit == BASELINE {
        return text.push_str("{\n  \"format\": 1,\n  \"buses\": [");
    }
    write!(
        text,
        "{{\n  \"format\": 2,\n  \"unit\": {unit},\n  \"buses\": ["
    )
}

/// The buses, and the beginning of the nodes.
fn add_buses(text: &mut String, buses: &[BoardBus]) -> Result<(), AllocError> {
    for (index, bus) in buses.iter().enumerate() {
        add_bus(text, index, bus)?;
    }
    text.push_str(if buses.is_empty() {
        "],\n  \"nodes\": ["
    } else {
        "\n  ],\n  \"nodes\": ["
    })
}

fn add_bus(text: &mut String, index: usize, bus: &BoardBus) -> Result<(), AllocError> {
    let before = line_end(index);
    let name = bus.name.as_str();
    let binding = bus.binding;
    let media = bus.media;
    write!(
        text,
        "{before}    {{ \"name\": \"{name}\", \"binding\": {binding}, \"media\": {media} }}"
    )
}

fn name_of(board: &Board, node: usize) -> &str {
    match board.nodes.get(node) {
        Some(node) => node.name.as_str(),
        None => "",
    }
}

/// A node's name, kind, endpoint ID, owner and pool.
fn add_identity(
    text: &mut String,
    board: &Board,
    chosen: &[Chosen],
    index: usize,
    node: &BoardNode,
) -> Result<(), AllocError> {
    let Some(own) = chosen.get(index) else {
        return Ok(());
    };
    let before = line_end(index);
    let name = node.name.as_str();
    let kind = match own.kind {
        Kind::Bridge => "bridge",
        Kind::Endpoint => "endpoint",
    };
    let eid = own.eid;
    write!(
        text,
        "{before}    {{\n      \"name\": \"{name}\", \"kind\": \"{kind}\", \"eid\": {eid}, \"owner\": "
    )?;
    add_owner(text, board, node.owner)?;
    add_pool(text, own.pool)
}

fn add_owner(text: &mut String, board: &Board, owner: Option<usize>) -> Result<(), AllocError> {
    match owner {
        Some(owner) => {
            let owner = name_of(board, owner);
            write!(text, "\"{owner}\",\n")
        }
        None => text.push_str("null,\n"),
    }
}

fn add_pool(text: &mut String, pool: Option<MadePool>) -> Result<(), AllocError> {
    match pool {
        Some(pool) => {
            let first = pool.first;
            let size = pool.size;
            write!(
                text,
                "      \"pool\": {{ \"first\": {first}, \"size\": {size} }},\n"
            )
        }
        None => text.push_str("      \"pool\": null,\n"),
    }
}

fn add_ports(text: &mut String, board: &Board, ports: &[BoardPort]) -> Result<(), AllocError> {
    text.push_str("      \"ports\": [")?;
    for (index, port) in ports.iter().enumerate() {
        let comma = if index == 0 { "" } else { ", " };
        let bus = match board.buses.get(port.bus) {
            Some(bus) => bus.name.as_str(),
            None => "",
        };
        let address = port.address.as_str();
        write!(
            text,
            "{comma}{{ \"bus\": \"{bus}\", \"address\": \"{address}\" }}"
        )?;
    }
    text.push_str("],\n")
}

fn add_rows(text: &mut String, board: &Board, rows: &[BoardRow]) -> Result<(), AllocError> {
    text.push_str("      \"rows\": [")?;
    for (index, row) in rows.iter().enumerate() {
        add_row(text, index, name_of(board, row.next), *row)?;
    }
    text.push_str(if rows.is_empty() {
        "],\n"
    } else {
        "\n      ],\n"
    })
}

fn add_row(text: &mut String, index: usize, next: &str, row: BoardRow) -> Result<(), AllocError> {
    let before = line_end(index);
    let first = row.first;
    let size = row.size;
    let port = row.port;
    write!(
        text,
        "{before}        {{ \"first\": {first}, \"size\": {size}, \"port\": {port}, \"next\": \"{next}\" }}"
    )
}

/// The terminus of a node that has a terminus ID or a record, and the end of the node.
fn add_terminus(
    text: &mut String,
    tid: Option<u8>,
    records: &[MadeRecord],
) -> Result<(), AllocError> {
    if tid.is_none() && records.is_empty() {
        return text.push_str("      \"terminus\": null\n    }");
    }
    let tid = tid.unwrap_or(0);
    write!(
        text,
        "      \"terminus\": {{\n        \"tid\": {tid},\n        \"records\": ["
    )?;
    for (index, record) in records.iter().enumerate() {
        add_record(text, index, record)?;
    }
    text.push_str(if records.is_empty() {
        "]\n      }\n    }"
    } else {
        "\n        ]\n      }\n    }"
    })
}

fn add_record(text: &mut String, index: usize, record: &MadeRecord) -> Result<(), AllocError> {
    let before = line_end(index);
    let handle = record.handle;
    let next = record.next;
    let bytes = record.hex.as_str();
    write!(
        text,
        "{before}          {{ \"handle\": {handle}, \"next\": {next}, \"bytes\": \"{bytes}\" }}"
    )
}
