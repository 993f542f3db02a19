//! Choosing pools of which the board gives the size alone.
use super::eids::{Known, known_at, last_of, owned_range, owner_of};
use super::{MadePool, NoPlan, covers};
use crate::board::{Board, BoardPool};

/// Of which runs a pool is chosen.
#[derive(Clone, Copy)]
pub enum Runs {
    /// Of all that are free.
    Free,
    /// Of these, where there are such, of those for which the board gives no row.
    Unrouted,
}

/// Chooses a node's pool, where the board gives its size alone and it isn't known.
pub fn choose_pool(
    board: &Board,
    known: &mut Vec<Known>,
    index: usize,
    given: Option<BoardPool>,
    runs: Runs,
) -> Result<(), NoPlan> {
    let Some(size) = open_size(known_at(known, index), given) else {
        return Ok(());
    };
    let pool = free_run(board, known, index, size, runs)?;
    if index < known.len() {
        known[index].pool = Some(pool);
    }
    Ok(())
}

/// The size of a pool that is still to be chosen.
pub fn open_size(own: Known, given: Option<BoardPool>) -> Option<u8> {
    match given {
        Some(BoardPool::Size(size)) if own.pool.is_none() => Some(size),
        _ => None,
    }
}

/// The first run of so many endpoint IDs of the owner's pool that no other node holds or hands on, and that has all
/// that are given below the node.
fn free_run(
    board: &Board,
    known: &[Known],
    index: usize,
    size: u8,
    runs: Runs,
) -> Result<MadePool, NoPlan> {
    let owner = owner_of(board, index);
    let (first, last) = owned_range(known, index, owner)?;
    let mut found = None;
    for start in first..=last {
        let run = MadePool { first: start, size };
        if can_be_pool(board, known, index, run) {
            if is_wanted(board, run, runs) {
                return Ok(run);
            }
            found = found.or(Some(run));
        }
    }
    match found {
        Some(run) => Ok(run),
        None => Err(NoPlan::NoRun {
            node: index,
            size,
            owner,
        }),
    }
}

/// Whether a run can be a node's pool: it is the owner's to give, and free.
pub fn can_be_pool(board: &Board, known: &[Known], index: usize, run: MadePool) -> bool {
    let Ok((first, last)) = owned_range(known, index, owner_of(board, index)) else {
        return false;
    };
    let is_owned = first <= run.first
        && u16::from(run.first) + u16::from(run.size) <= u16::from(last) + 1;
    is_owned && is_free(board, known, index, run)
}

/// Whether a run is one of those of which pools are chosen.
pub fn is_wanted(board: &Board, run: MadePool, runs: Runs) -> bool {
    match runs {
        Runs::Free => true,
        Runs::Unrouted => !is_routed(board, run),
    }
}

/// Whether the board gives a row for an endpoint ID of a run.
fn is_routed(board: &Board, run: MadePool) -> bool {
    for node in &board.nodes {
        for row in &node.rows {
            let routed = MadePool {
                first: row.first,
                size: row.size,
            };
            if overlap(run, routed) {
                return true;
            }
        }
    }
    false
}

fn is_free(board: &Board, known: &[Known], index: usize, run: MadePool) -> bool {
    let owner = owner_of(board, index);
    for (other, own) in known.iter().enumerate() {
        let is_apart = if is_below(board, other, index) {
            has_all(run, own)
        } else {
            has_none(run, own, owner_of(board, other) == owner)
        };
        if !is_apart {
            return false;
        }
    }
    true
}

/// Whether the run has what is known of a node below.
fn has_all(run: MadePool, own: &Known) -> bool {
    let has_eid = match own.eid {
        Some(eid) => covers(run.first, run.size, eid),
        None => true,
    };
    let has_pool = match own.pool {
        Some(pool) => has_run(run, pool),
        None => true,
    };
    has_eid && has_pool
}

/// Whether a run has another as a whole.
pub fn has_run(run: MadePool, other: MadePool) -> bool {
    covers(run.first, run.size, other.first) && covers(run.first, run.size, last_of(other))
}

/// Whether the run has nothing of a node's own, and of its pool where that is of the same owner.
fn has_none(run: MadePool, own: &Known, is_beside: bool) -> bool {
    let has_eid = match own.eid {
        Some(eid) => covers(run.first, run.size, eid),
        None => false,
    };
    let has_pool = match own.pool {
        Some(pool) => is_beside && overlap(run, pool),
        None => false,
    };
    !has_eid && !has_pool
}

fn overlap(one: MadePool, other: MadePool) -> bool {
    one.first <= last_of(other) && other.first <= last_of(one)
}

/// Whether a node stands below another, by owners.
pub fn is_below(board: &Board, node: usize, above: usize) -> bool {
    let mut at = node;
    for _ in 0..board.nodes.len() {
        match owner_of(board, at) {
            Some(owner) if owner == above => return true,
            Some(owner) => at = owner,
            None => return false,
        }
    }
    false
}
