//! A plan as a board that gives all that the plan has.
use crate::board::{
    Board, BoardBus, BoardNode, BoardPool, BoardPort, BoardRecord, BoardRow, RecordContent,
};
use plan_values::{Bus, Node, Plan, PlannedRecord, Pool, Port, Row};
use std::alloc::{AllocError, Global};

/// The board that gives all that a plan has, its rows too, and asks that all nodes reach each other.
pub fn board_of_plan(alloc: Global, plan: &Plan) -> Result<Board, AllocError> {
    let mut buses = Vec::new(alloc);
    for bus in &plan.buses {
        buses.push(bus_of(alloc, bus)?)?;
    }
    let mut nodes = Vec::new(alloc);
    for node in &plan.nodes {
        nodes.push(node_of(alloc, node)?)?;
    }
    Ok(Board {
        unit: plan.unit,
        buses,
        nodes,
    })
}

fn bus_of(alloc: Global, bus: &Bus) -> Result<BoardBus, AllocError> {
    Ok(BoardBus {
        name: bus.name.text.as_str().to_string(alloc)?,
        binding: bus.binding,
        media: bus.media,
    })
}

fn node_of(alloc: Global, node: &Node) -> Result<BoardNode, AllocError> {
    let ports = ports_of(alloc, &node.ports)?;
    let rows = rows_of(alloc, &node.rows)?;
    let records = records_of(alloc, node)?;
    Ok(BoardNode {
        name: node.name.text.as_str().to_string(alloc)?,
        kind: Some(node.kind),
        eid: Some(node.eid.value),
        owner: node.owner,
        pool: node.pool.map(pool_of),
        ports,
        reaches: None,
        rows,
        tid: tid_of(node),
        records,
    })
}

fn pool_of(pool: Pool) -> BoardPool {
    BoardPool::Range {
        first: pool.first.value,
        size: pool.size,
    }
}

fn tid_of(node: &Node) -> Option<u8> {
    match &node.terminus {
        Some(terminus) => Some(terminus.tid),
        None => None,
    }
}

fn ports_of(alloc: Global, ports: &[Port]) -> Result<Vec<BoardPort>, AllocError> {
    let mut own = Vec::new(alloc);
    for port in ports {
        own.push(port_of(alloc, port)?)?;
    }
    Ok(own)
}

fn port_of(alloc: Global, port: &Port) -> Result<BoardPort, AllocError> {
    Ok(BoardPort {
        bus: port.bus,
        address: hex::encode(alloc, port.address.as_slice())?,
    })
}

/// Rows, in their order.
pub fn rows_of(alloc: Global, rows: &[Row]) -> Result<Vec<BoardRow>, AllocError> {
    let mut own = Vec::new(alloc);
    for row in rows {
        own.push(row_of(*row))?;
    }
    Ok(own)
}

fn row_of(row: Row) -> BoardRow {
    BoardRow {
        next: row.next,
        first: row.first.value,
        size: row.size,
        port: usize::from(row.port),
    }
}

fn records_of(alloc: Global, node: &Node) -> Result<Vec<BoardRecord>, AllocError> {
    let mut own = Vec::new(alloc);
    if let Some(terminus) = &node.terminus {
        for record in &terminus.records {
            own.push(record_of(alloc, record)?)?;
        }
    }
    Ok(own)
}

fn record_of(alloc: Global, record: &PlannedRecord) -> Result<BoardRecord, AllocError> {
    let bytes = hex::encode(alloc, record.bytes.as_slice())?;
    Ok(BoardRecord {
        handle: Some(record.handle),
        next: Some(record.next),
        content: RecordContent::Hex(bytes),
    })
}
