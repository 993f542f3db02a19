//! Making rows along ways of the fewest hops.
use super::eids::{FIRST, LAST, is_in};
use super::ways::{Link, Net, Step, is_bridge, is_to_reach, steps_to};
use super::{Chosen, Cut, NoPlan, given_row, is_given};
use crate::board::{Board, BoardNode, BoardRow};
use std::alloc::{AllocError, Global};

/// The most rows of a node.
const MOST_ROWS: usize = 256;

/// The rows of each node, and two nodes between which no way was found.
#[derive(Drop)]
pub struct MadeRows {
    pub rows: Vec<Vec<BoardRow>>,
    pub cut: Option<Cut>,
}

/// The rows of each node: those that the board gives, and those that lead to the nodes that it is to reach.
pub fn make_rows(
    alloc: Global,
    board: &Board,
    net: &Net,
    chosen: &[Chosen],
) -> Result<MadeRows, NoPlan> {
    let mut rows = given_rows(alloc, board)?;
    let mut last = None;
    let mut cut = None;
    for eid in FIRST..=LAST {
        if let Some(target) = target_of(board, chosen, eid) {
            let ways = ways_to(alloc, board, net, target, last.take())?;
            let from = add_rows(alloc, board, net, &ways, &mut rows)?;
            cut = cut.or(from.map(|from| Cut {
                from,
                to: target.node,
            }));
            last = Some(ways);
        }
    }
    sort_all(&mut rows)?;
    Ok(MadeRows { rows, cut })
}

/// The rows that the board gives.
pub fn given_rows(alloc: Global, board: &Board) -> Result<Vec<Vec<BoardRow>>, AllocError> {
    let mut rows = Vec::new(alloc);
    for node in &board.nodes {
        rows.push(node.rows.clone()?)?;
    }
    Ok(rows)
}

fn sort_all(rows: &mut Vec<Vec<BoardRow>>) -> Result<(), NoPlan> {
    for node in 0..rows.len() {
        rows[node].sort()?;
        if rows[node].len() > MOST_ROWS {
            return Err(NoPlan::TooManyRows { node });
        }
    }
    Ok(())
}

/// An endpoint ID to which rows lead.
#[derive(Clone, Copy)]
struct Target {
    eid: u8,
    /// Who holds it, or else the bridge that hands it out.
    node: usize,
    is_held: bool,
    /// Whether the board gives a row for it.
    is_given: bool,
}

/// The ways to a target from each node.
#[derive(Drop)]
struct Ways {
    target: Target,
    steps: Vec<Option<Step>>,
}

fn target_of(board: &Board, chosen: &[Chosen], eid: u8) -> Option<Target> {
    let holder = holder_of(chosen, eid);
    Some(Target {
        eid,
        node: holder.or(keeper_of(board, chosen, eid))?,
        is_held: holder.is_some(),
        is_given: is_given(board, eid),
    })
}

fn holder_of(chosen: &[Chosen], eid: u8) -> Option<usize> {
    for (index, own) in chosen.iter().enumerate() {
        if own.eid == eid {
            return Some(index);
        }
    }
    None
}

/// The bridge that hands out an endpoint ID that nobody holds; none where a row that the board gives there leads it on,
/// since rows to the bridge could come back to it then.
fn keeper_of(board: &Board, chosen: &[Chosen], eid: u8) -> Option<usize> {
    let bridge = innermost_of(chosen, eid)?;
    match given_row(board.nodes.get(bridge)?, eid) {
        Some(_) => None,
        None => Some(bridge),
    }
}

/// The node with the smallest pool that has the endpoint ID.
fn innermost_of(chosen: &[Chosen], eid: u8) -> Option<usize> {
    let mut found = None;
    let mut least = u8::MAX;
    for (index, own) in chosen.iter().enumerate() {
        if let Some(pool) = own.pool {
            if is_in(own.pool, eid) && pool.size <= least {
                least = pool.size;
                found = Some(index);
            }
        }
    }
    found
}

/// The ways to a target. Those of the last one are the same where both lead to one node and no row is given for either.
fn ways_to(
    alloc: Global,
    board: &Board,
    net: &Net,
    target: Target,
    last: Option<Ways>,
) -> Result<Ways, AllocError> {
    if let Some(last) = last {
        let is_same = last.target.node == target.node && !last.target.is_given;
        if is_same && !target.is_given {
            return Ok(Ways {
                target,
                steps: last.steps,
            });
        }
    }
    Ok(Ways {
        target,
        steps: steps_to(alloc, board, net, target.node, target.eid)?,
    })
}

/// Adds the rows for a target at each node from which it is to be reached, and along the ways from there. Answers the
/// first of these nodes from which no way leads to one that holds the endpoint ID.
fn add_rows(
    alloc: Global,
    board: &Board,
    net: &Net,
    ways: &Ways,
    rows: &mut Vec<Vec<BoardRow>>,
) -> Result<Option<usize>, AllocError> {
    let mut marked = vec![in alloc; false; board.nodes.len()]?;
    let cut = mark_all(board, ways, &mut marked);
    for (index, node) in board.nodes.iter().enumerate() {
        if is_set(&marked, index) && given_row(node, ways.target.eid).is_none() {
            add_row(net, ways, node, index, rows)?;
        }
    }
    Ok(cut)
}

/// Marks the nodes that send on what is for a target.
fn mark_all(board: &Board, ways: &Ways, marked: &mut Vec<bool>) -> Option<usize> {
    let mut cut = None;
    for (index, node) in board.nodes.iter().enumerate() {
        if index != ways.target.node && asks(node, ways.target) {
            let comes = mark_way(ways, index, marked);
            if !comes && ways.target.is_held && cut.is_none() {
                cut = Some(index);
            }
        }
    }
    cut
}

/// Whether a target is to be reached from a node. Where the board names whom it is to reach, nobody is to come to an
/// endpoint ID that no node holds.
fn asks(node: &BoardNode, target: Target) -> bool {
    if target.is_held {
        is_to_reach(node, target.node, target.eid)
    } else {
        node.reaches.is_none()
    }
}

/// Marks the nodes on the way from a node to a target, and tells whether there is one.
fn mark_way(ways: &Ways, from: usize, marked: &mut Vec<bool>) -> bool {
    let mut at = from;
    for _ in 0..ways.steps.len() {
        if at == ways.target.node || is_set(marked, at) {
            return true;
        }
        let Some(Some(step)) = ways.steps.get(at) else {
            return false;
        };
        if at < marked.len() {
            marked[at] = true;
        }
        at = step.link.next;
    }
    true
}

fn is_set(marked: &[bool], index: usize) -> bool {
    marked.get(index).copied() == Some(true)
}

/// Adds a row at a node for a target, or makes a row longer that was made for the endpoint ID before.
fn add_row(
    net: &Net,
    ways: &Ways,
    node: &BoardNode,
    index: usize,
    rows: &mut Vec<Vec<BoardRow>>,
) -> Result<(), AllocError> {
    let Some(Some(step)) = ways.steps.get(index) else {
        return Ok(());
    };
    if index >= rows.len() {
        return Ok(());
    }
    let link = step.link;
    let own = &mut rows[index];
    if is_bridge(net, link.next) && lengthen(own, node.rows.len(), link, ways.target.eid) {
        return Ok(());
    }
    own.push(BoardRow {
        next: link.next,
        first: ways.target.eid,
        size: 1,
        port: link.port,
    })?;
    Ok(())
}

/// Makes a row longer by an endpoint ID that comes next, behind those that are given, and tells whether there is one.
fn lengthen(rows: &mut Vec<BoardRow>, given: usize, link: Link, eid: u8) -> bool {
    for index in given..rows.len() {
        let row = rows[index];
        let end = end_of(row.first, row.size);
        if row.next == link.next && row.port == link.port && end == u16::from(eid) {
            rows[index].size = row.size.saturating_add(1);
            return true;
        }
    }
    false
}

/// The number after that of the last of some endpoint IDs.
fn end_of(first: u8, size: u8) -> u16 {
    u16::from(first) + u16::from(size)
}
