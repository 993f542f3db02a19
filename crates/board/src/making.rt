//! Making a plan of a board.
mod eids;
mod handles;
mod keeping;
mod pools;
mod records;
mod rows;
mod ways;

use crate::board::{Board, BoardNode, BoardRow, RecordFile};
use crate::writing::plan_text;
use eids::choose_eids;
use plan_values::{Kind, Plan};
use pools::Runs;
use records::make_records;
pub use records::named_files;
use rows::{given_rows, make_rows};
use std::alloc::{AllocError, AllocFailed, Global};
use ways::net_of;

/// Why no plan is made of a board. Nodes are named by their indices.
#[derive(Clone, Copy)]
pub enum NoPlan {
    /// The node's owners go round in a circle, and something is to be chosen for a node of which that is so.
    OwnerLoop {
        node: usize,
    },
    /// The node's owner has no pool.
    NoPool {
        node: usize,
        owner: usize,
    },
    /// No endpoint ID of the owner's pool is left for the node; where nobody owns it, none of 8 to 254.
    NoEid {
        node: usize,
        owner: Option<usize>,
    },
    /// No run of so many endpoint IDs of the owner's pool is left for the node's pool.
    NoRun {
        node: usize,
        size: u8,
        owner: Option<usize>,
    },
    /// The node would have more than 256 rows.
    TooManyRows {
        node: usize,
    },
    /// The record of the node names no field of its type, or gives what the field can't hold.
    WrongRecord {
        node: usize,
        record: usize,
    },
    /// There is too little memory.
    OutOfMemory,
}

impl From<AllocError> for NoPlan {
    fn from(_error: AllocError) -> NoPlan {
        NoPlan::OutOfMemory
    }
}

impl<T: Drop> From<AllocFailed<T>> for NoPlan {
    fn from(_error: AllocFailed<T>) -> NoPlan {
        NoPlan::OutOfMemory
    }
}

/// A pool: its first endpoint ID, and how many it has.
#[derive(Clone, Copy)]
pub struct MadePool {
    pub first: u8,
    pub size: u8,
}

/// What is chosen for a node.
#[derive(Clone, Copy)]
pub struct Chosen {
    pub kind: Kind,
    pub eid: u8,
    pub pool: Option<MadePool>,
}

/// A record with its handles and its bytes in hex.
#[derive(Drop)]
pub struct MadeRecord {
    pub handle: u32,
    pub next: u32,
    pub hex: String,
}

/// What was made of a board.
#[derive(Drop)]
pub struct Made {
    /// The text of a plan.
    pub text: String,
    /// Two nodes of which the first is to reach the second, and no way was found.
    pub cut: Option<Cut>,
}

/// Two nodes between which no way was found. They are named by their indices.
#[derive(Clone, Copy)]
pub struct Cut {
    pub from: usize,
    pub to: usize,
}

/// The text of a plan that is made of a board, whose records may name these files, or why none is made. What the board
/// leaves open stays as in an earlier plan, where it can. Nothing of the plan is promised here.
pub fn made_plan(
    alloc: Global,
    board: &Board,
    files: &[RecordFile],
    old: Option<&Plan>,
) -> Result<Made, NoPlan> {
    let first = made_with(alloc, board, files, Runs::Free, old)?;
    if first.cut.is_none() {
        return Ok(first);
    }
    match made_with(alloc, board, files, Runs::Unrouted, old) {
        Ok(other) if other.cut.is_none() => Ok(other),
        Err(NoPlan::OutOfMemory) => Err(NoPlan::OutOfMemory),
        _ => Ok(first),
    }
}

/// What is made of a board where pools are chosen of these runs.
fn made_with(
    alloc: Global,
    board: &Board,
    files: &[RecordFile],
    runs: Runs,
    old: Option<&Plan>,
) -> Result<Made, NoPlan> {
    let net = net_of(alloc, board)?;
    let chosen = choose_eids(alloc, board, &net, runs, old)?;
    let made = make_rows(alloc, board, &net, &chosen)?;
    let records = make_records(alloc, board, files, &chosen, old)?;
    let text = plan_text(alloc, board, &chosen, &made.rows, &records)?;
    Ok(Made {
        text,
        cut: made.cut,
    })
}

/// The text of a plan that a board gives as a whole, with the rows that it gives and no others.
pub fn given_plan(alloc: Global, board: &Board) -> Result<String, NoPlan> {
    let net = net_of(alloc, board)?;
    let chosen = choose_eids(alloc, board, &net, Runs::Free, None)?;
    let rows = given_rows(alloc, board)?;
    let records = make_records(alloc, board, &[], &chosen, None)?;
    Ok(plan_text(alloc, board, &chosen, &rows, &records)?)
}

/// Whether the node is a bridge: where the board doesn't say, one that has a pool, owns a node, or has rows and ports
/// on two buses.
pub fn kind_of(board: &Board, index: usize, node: &BoardNode) -> Kind {
    if let Some(kind) = node.kind {
        return kind;
    }
    let is_router = !node.rows.is_empty() && is_on_two_buses(node);
    if node.pool.is_some() || is_router || owns_some(board, index) {
        Kind::Bridge
    } else {
        Kind::Endpoint
    }
}

fn owns_some(board: &Board, index: usize) -> bool {
    for other in &board.nodes {
        if other.owner == Some(index) {
            return true;
        }
    }
    false
}

fn is_on_two_buses(node: &BoardNode) -> bool {
    for port in &node.ports {
        if port.bus != node.ports[0].bus {
            return true;
        }
    }
    false
}

/// A row that the board gives at a node for an endpoint ID.
pub fn given_row(node: &BoardNode, eid: u8) -> Option<BoardRow> {
    for row in &node.rows {
        if covers(row.first, row.size, eid) {
            return Some(*row);
        }
    }
    None
}

/// Whether the board gives a row for an endpoint ID.
pub fn is_given(board: &Board, eid: u8) -> bool {
    for node in &board.nodes {
        if given_row(node, eid).is_some() {
            return true;
        }
    }
    false
}

/// Whether an endpoint ID is one of a run.
pub fn covers(first: u8, size: u8, eid: u8) -> bool {
    first <= eid && u16::from(eid) < u16::from(first) + u16::from(size)
}
