//! Whether no way over the buses and bridges of a board leads from one node to another.
use board::{Board, BoardNode};
use plan_values::Kind;
use std::alloc::{AllocError, Global};

/// Whether the board asks that a node reaches another, to which no way leads, whatever is chosen of what it leaves out.
/// Where the answer is no, that is not known. Nothing is promised of it.
pub fn is_cut_off(
    alloc: Global,
    board: &Board,
    from: usize,
    to: usize,
) -> Result<bool, AllocError> {
    let (Some(first), Some(last)) = (board.nodes.get(from), board.nodes.get(to)) else {
        return Ok(false);
    };
    let reached = all_reached(alloc, board, from, last)?;
    Ok(asks_for(first, to) && reached.get(to).copied() == Some(false))
}

fn asks_for(node: &BoardNode, to: usize) -> bool {
    match &node.reaches {
        Some(nodes) => nodes.contains(&to),
        None => true,
    }
}

/// A flag for each node: whether a way leads to it from the one for the last one.
fn all_reached(
    alloc: Global,
    board: &Board,
    from: usize,
    last: &BoardNode,
) -> Result<Vec<bool>, AllocError> {
    let mut reached = Vec::new(alloc);
    for node in 0..board.nodes.len() {
        reached.push(node == from)?;
    }
    for _ in &board.nodes {
        reach_more(board, &mut reached, from, last);
    }
    Ok(reached)
}

/// Adds the nodes to which a hop leads from one that is reached, and sends on what comes from another.
fn reach_more(board: &Board, reached: &mut Vec<bool>, from: usize, last: &BoardNode) {
    for (index, node) in board.nodes.iter().enumerate() {
        if reached.get(index).copied() == Some(true)
            && (index == from || may_be_bridge(board, index, node))
        {
            reach_next(board, reached, node, last);
        }
    }
}

/// Adds those on a bus of the node, or the one alone to which a row leads that the board gives there.
fn reach_next(board: &Board, reached: &mut Vec<bool>, node: &BoardNode, last: &BoardNode) {
    let turn = turn_of(node, last);
    for (index, other) in board.nodes.iter().enumerate() {
        if turn.unwrap_or(index) == index && are_near(node, other) {
            if let Some(flag) = reached.get_mut(index) {
                *flag = true;
            }
        }
    }
}

/// Where a row leads that the board gives a node for the endpoint ID that it gives of the last one.
fn turn_of(node: &BoardNode, last: &BoardNode) -> Option<usize> {
    let eid = last.eid?;
    for row in &node.rows {
        if row.first <= eid && u16::from(eid) < u16::from(row.first) + u16::from(row.size) {
            return Some(row.next);
        }
    }
    None
}

/// Whether two nodes have ports on one bus.
fn are_near(one: &BoardNode, other: &BoardNode) -> bool {
    for port in &one.ports {
        for own in &other.ports {
            if own.bus == port.bus {
                return true;
            }
        }
    }
    false
}

/// Whether a node may be a bridge. One that gives rows and no kind is taken for one, on however many buses it is.
fn may_be_bridge(board: &Board, index: usize, node: &BoardNode) -> bool {
    match node.kind {
        Some(kind) => kind == Kind::Bridge,
        None => node.pool.is_some() || !node.rows.is_empty() || owns_some(board, index),
    }
}

fn owns_some(board: &Board, index: usize) -> bool {
    for other in &board.nodes {
        if other.owner == Some(index) {
            return true;
        }
    }
    false
}
