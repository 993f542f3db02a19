//! Choosing endpoint IDs and pools.
use super::keeping::Keeping;
use super::pools::{Runs, choose_pool, open_size};
use super::ways::{Net, is_reached};
use super::{Chosen, MadePool, NoPlan, covers, is_given, kind_of};
use crate::board::{Board, BoardNode, BoardPool};
use plan_values::Plan;
use std::alloc::{AllocError, Global};

/// The first endpoint ID that can be assigned, and the last.
pub const FIRST: u8 = 8;

pub const LAST: u8 = 254;

/// What is known of a node so far, or what is to stay of it.
#[derive(Clone, Copy)]
pub struct Known {
    pub eid: Option<u8>,
    pub pool: Option<MadePool>,
    /// How many owners stand above it; as many as there are nodes where these go round in a circle.
    pub level: usize,
}

/// The kind, the endpoint ID and the pool of each node: what is given, what an earlier plan has and can stay, and what
/// is free for the rest, owners before the nodes that they own.
pub fn choose_eids(
    alloc: Global,
    board: &Board,
    net: &Net,
    runs: Runs,
    old: Option<&Plan>,
) -> Result<Vec<Chosen>, NoPlan> {
    let given = given_numbers(alloc, board)?;
    let keeping = Keeping {
        alloc,
        board,
        net,
        runs,
        given: &given,
    };
    let known = match old {
        Some(old) => keeping.kept_of(old)?,
        None => choose_rest(alloc, board, net, runs, &given)?,
    };
    if let Some(node) = first_unchosen(board, &known) {
        return Err(NoPlan::OwnerLoop { node });
    }
    let mut chosen = Vec::new(alloc);
    for (index, node) in board.nodes.iter().enumerate() {
        let own = known_at(&known, index);
        chosen.push(Chosen {
            kind: kind_of(board, index, node),
            eid: own.eid.unwrap_or(0),
            pool: own.pool,
        })?;
    }
    Ok(chosen)
}

pub fn known_at(known: &[Known], index: usize) -> Known {
    match known.get(index) {
        Some(own) => *own,
        None => Known {
            eid: None,
            pool: None,
            level: 0,
        },
    }
}

/// What the board gives of each node.
fn given_numbers(alloc: Global, board: &Board) -> Result<Vec<Known>, AllocError> {
    let mut known = Vec::new(alloc);
    for (index, node) in board.nodes.iter().enumerate() {
        known.push(given_of(board, index, node))?;
    }
    Ok(known)
}

/// What the board gives of a node.
fn given_of(board: &Board, index: usize, node: &BoardNode) -> Known {
    let pool = match node.pool {
        Some(BoardPool::Range { first, size }) => Some(MadePool { first, size }),
        _ => None,
    };
    Known {
        eid: node.eid,
        pool,
        level: level_of(board, index),
    }
}

/// The first node whose owners go round in a circle, where something is to be chosen for one of these.
fn first_unchosen(board: &Board, known: &[Known]) -> Option<usize> {
    let mut first = None;
    let mut are_some = false;
    for (index, node) in board.nodes.iter().enumerate() {
        let own = known_at(known, index);
        if own.level == board.nodes.len() {
            first = first.or(Some(index));
            let is_pool_left = own.pool.is_none() && node.pool.is_some();
            are_some = are_some || own.eid.is_none() || is_pool_left;
        }
    }
    if are_some { first } else { None }
}

/// The owner of a node.
pub fn owner_of(board: &Board, index: usize) -> Option<usize> {
    board.nodes.get(index)?.owner
}

/// How many owners stand above a node; as many as there are nodes where they go round in a circle.
pub fn level_of(board: &Board, index: usize) -> usize {
    let mut at = index;
    for level in 0..board.nodes.len() {
        match owner_of(board, at) {
            Some(owner) => at = owner,
            None => return level,
        }
    }
    board.nodes.len()
}

/// What is chosen first at each level.
#[derive(Clone, Copy)]
enum First {
    /// Endpoint IDs, then pools, in the order of the nodes.
    Eids,
    /// Pools, the largest first, then endpoint IDs.
    Pools,
}

/// What is known, with what is chosen for the rest: first endpoint IDs, and if there is no room, first pools.
pub fn choose_rest(
    alloc: Global,
    board: &Board,
    net: &Net,
    runs: Runs,
    known: &[Known],
) -> Result<Vec<Known>, NoPlan> {
    let why = match choose_by(alloc, board, net, runs, known, First::Eids) {
        Err(why) if is_short(why) => why,
        answer => return answer,
    };
    match choose_by(alloc, board, net, runs, known, First::Pools) {
        Err(other) if is_short(other) => Err(why),
        answer => answer,
    }
}

/// Whether no endpoint ID or no run of them was left.
pub fn is_short(why: NoPlan) -> bool {
    matches!(why, NoPlan::NoEid { .. } | NoPlan::NoRun { .. })
}

fn choose_by(
    alloc: Global,
    board: &Board,
    net: &Net,
    runs: Runs,
    known: &[Known],
    first: First,
) -> Result<Vec<Known>, NoPlan> {
    let mut known = Vec::from_slice(alloc, known)?;
    for level in 0..board.nodes.len() {
        match first {
            First::Eids => {
                choose_level_eids(alloc, board, net, &mut known, level)?;
                choose_level_pools(board, &mut known, level, runs)?;
            }
            First::Pools => {
                choose_largest_pools(board, &mut known, level, runs)?;
                choose_level_eids(alloc, board, net, &mut known, level)?;
            }
        }
    }
    Ok(known)
}

fn choose_level_eids(
    alloc: Global,
    board: &Board,
    net: &Net,
    known: &mut Vec<Known>,
    level: usize,
) -> Result<(), NoPlan> {
    for index in 0..board.nodes.len() {
        if known_at(known, index).level == level {
            choose_eid(alloc, board, net, known, index)?;
        }
    }
    Ok(())
}

fn choose_level_pools(
    board: &Board,
    known: &mut Vec<Known>,
    level: usize,
    runs: Runs,
) -> Result<(), NoPlan> {
    for (index, node) in board.nodes.iter().enumerate() {
        if known_at(known, index).level == level {
            choose_pool(board, known, index, node.pool, runs)?;
        }
    }
    Ok(())
}

/// The same, the largest first.
fn choose_largest_pools(
    board: &Board,
    known: &mut Vec<Known>,
    level: usize,
    runs: Runs,
) -> Result<(), NoPlan> {
    for _ in 0..board.nodes.len() {
        let Some((index, size)) = largest_open(board, known, level) else {
            return Ok(());
        };
        choose_pool(board, known, index, Some(BoardPool::Size(size)), runs)?;
    }
    Ok(())
}

/// The first node of a level with the largest pool that is still to be chosen, and its size.
fn largest_open(board: &Board, known: &[Known], level: usize) -> Option<(usize, u8)> {
    let mut found = None;
    let mut largest = 0;
    for (index, node) in board.nodes.iter().enumerate() {
        let own = known_at(known, index);
        let size = open_size(own, node.pool).unwrap_or(0);
        if own.level == level && size > largest {
            largest = size;
            found = Some((index, size));
        }
    }
    found
}

/// Chooses a node's endpoint ID, where none is given.
fn choose_eid(
    alloc: Global,
    board: &Board,
    net: &Net,
    known: &mut Vec<Known>,
    index: usize,
) -> Result<(), NoPlan> {
    if known_at(known, index).eid.is_some() {
        return Ok(());
    }
    let eid = free_eid(alloc, board, net, known, index)?;
    if index < known.len() {
        known[index].eid = Some(eid);
    }
    Ok(())
}

/// The least free endpoint ID that no given row keeps from those that are to reach the node; the least free one where
/// there is none such.
fn free_eid(
    alloc: Global,
    board: &Board,
    net: &Net,
    known: &[Known],
    index: usize,
) -> Result<u8, NoPlan> {
    let owner = owner_of(board, index);
    let (first, last) = owned_range(known, index, owner)?;
    let mut least = None;
    // whether rows are given for other endpoint IDs than where it was tried last.
    let mut is_other = true;
    for eid in first..=last {
        is_other = is_other || begins_or_ends(board, eid);
        if !is_eid_free(board, known, owner, eid) {
            continue;
        }
        if !is_given(board, eid) || (is_other && is_reached(alloc, board, net, index, eid)?) {
            return Ok(eid);
        }
        is_other = false;
        least = least.or(Some(eid));
    }
    match least {
        Some(eid) => Ok(eid),
        None => Err(NoPlan::NoEid { node: index, owner }),
    }
}

/// Whether a row that the board gives begins at an endpoint ID, or ends before it.
fn begins_or_ends(board: &Board, eid: u8) -> bool {
    for node in &board.nodes {
        for row in &node.rows {
            let end = u16::from(row.first) + u16::from(row.size);
            if row.first == eid || end == u16::from(eid) {
                return true;
            }
        }
    }
    false
}

/// The endpoint IDs that an owner gives to a node, from the first to the last.
pub fn owned_range(known: &[Known], node: usize, owner: Option<usize>) -> Result<(u8, u8), NoPlan> {
    let Some(owner) = owner else {
        return Ok((FIRST, LAST));
    };
    match known_at(known, owner).pool {
        Some(pool) => Ok((pool.first.max(FIRST), last_of(pool).min(LAST))),
        None => Err(NoPlan::NoPool { node, owner }),
    }
}

/// The last endpoint ID of a pool.
pub fn last_of(pool: MadePool) -> u8 {
    pool.first.saturating_add(pool.size.saturating_sub(1))
}

/// Whether no node holds an endpoint ID or hands it on beside those of an owner.
pub fn is_eid_free(board: &Board, known: &[Known], owner: Option<usize>, eid: u8) -> bool {
    !is_held(known, eid) && !is_in_pool_beside(board, known, owner, eid)
}

fn is_held(known: &[Known], eid: u8) -> bool {
    for other in known {
        if other.eid == Some(eid) {
            return true;
        }
    }
    false
}

/// Whether an endpoint ID is in the pool of a node of the same owner.
fn is_in_pool_beside(board: &Board, known: &[Known], owner: Option<usize>, eid: u8) -> bool {
    for (other, own) in known.iter().enumerate() {
        if owner_of(board, other) == owner && is_in(own.pool, eid) {
            return true;
        }
    }
    false
}

pub fn is_in(pool: Option<MadePool>, eid: u8) -> bool {
    match pool {
        Some(pool) => covers(pool.first, pool.size, eid),
        None => false,
    }
}
