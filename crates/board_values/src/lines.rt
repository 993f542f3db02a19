//! The words that say what a board lacks.
use crate::owners::name_of;
use board::{NoPlan, line_of_node, line_of_record};
use std::alloc::{AllocError, Global};
use toml::Value;

/// The words that say what is lacking. `text` is that of the board. Want of memory, and a node without a name, have
/// none.
pub fn lacking_words(
    alloc: Global,
    board: &Value,
    text: &str,
    why: NoPlan,
) -> Result<String, AllocError> {
    match why {
        NoPlan::OwnerLoop { node } => {
            let own = node_text(alloc, board, text, node)?;
            format!(in alloc; "node stands above all owners of {own}: they go round in a circle")
        }
        NoPlan::NoPool { node, owner } => {
            let own = node_text(alloc, board, text, node)?;
            let above = node_text(alloc, board, text, owner)?;
            format!(in alloc; "pool stands at {above}, from which {own} is to take endpoint IDs")
        }
        NoPlan::NoEid { node, owner } => {
            let own = node_text(alloc, board, text, node)?;
            let whose = pool_text(alloc, board, text, owner)?;
            format!(in alloc; "endpoint ID of {whose} is left for {own}")
        }
        NoPlan::NoRun { node, size, owner } => {
            let own = node_text(alloc, board, text, node)?;
            let whose = pool_text(alloc, board, text, owner)?;
            format!(in alloc;
                "{size} endpoint IDs of {whose}, one after another, are left for the pool of {own}"
            )
        }
        NoPlan::TooManyRows { node } => {
            let own = node_text(alloc, board, text, node)?;
            format!(in alloc; "room is left for the rows of {own}: it would have more than 256")
        }
        NoPlan::WrongRecord { node, record } => {
            let own = node_text(alloc, board, text, node)?;
            let line = line_of_record(text, node, record);
            format!(in alloc;
                "bytes spell record {record} (line {line}) of {own}: it gives a field that its type doesn't have, or what the field can't hold"
            )
        }
        NoPlan::OutOfMemory => Err(AllocError),
    }
}

/// A node by its name and the line of its table.
pub fn node_text(
    alloc: Global,
    board: &Value,
    text: &str,
    node: usize,
) -> Result<String, AllocError> {
    match name_of(board, node) {
        Some(name) => {
            let line = line_of_node(text, node);
            format!(in alloc; "node \"{name}\" (line {line})")
        }
        // no memory: each node of a board that was read has a name, so this can't be.
        None => Err(AllocError),
    }
}

/// The pool that an owner gives from.
fn pool_text(
    alloc: Global,
    board: &Value,
    text: &str,
    owner: Option<usize>,
) -> Result<String, AllocError> {
    match owner {
        Some(owner) => {
            let own = node_text(alloc, board, text, owner)?;
            format!(in alloc; "the pool of {own}")
        }
        None => "8 to 254".to_string(alloc),
    }
}
