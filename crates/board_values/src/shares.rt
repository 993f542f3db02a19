//! Whether the nodes of an owner take more endpoint IDs than its pool has.
ghost use Rattle.std.specs.Prelude.{ℕ, IfOk, IfSome, IsTrue, Some, codes};
ghost use Rattle.toml.specs.View.{view};
ghost use Rattle.board_values.specs.Owners.{at_node, IsPoolOf, Takes, HasInPool, IsOverdrawn, HaveTaken};

use crate::eids::says_run;
use crate::owners::{at_node, is_of};
use crate::said::is_number;
use board::{Board, BoardPool};
use std::alloc::{AllocError, Global};
use toml::Value;

/// How many endpoint IDs can be assigned: 8 to 254.
const ASSIGNABLE: u8 = 247;

/// Whether the nodes of an owner take more endpoint IDs, with their pools, than its pool has.
pub fn is_overdrawn(
    alloc: Global,
    board: &Value,
    given: &Board,
    owner: Option<usize>,
) -> Result<bool, AllocError>
    ensures { IfOk result (λ answer. IsTrue answer → IsOverdrawn (view board.now) owner) }
{
    match size_of_owner(alloc, board, given, owner)? {
        Some(size) => Ok(usize::from(size) < taken_of(alloc, board, given, owner)?),
        None => Ok(false),
    }
}

/// How many endpoint IDs the pool of an owner has; 247 where it is none.
fn size_of_owner(
    alloc: Global,
    board: &Value,
    given: &Board,
    owner: Option<usize>,
) -> Result<Option<u8>, AllocError>
    ensures { IfOk result (λ found. IfSome found (λ size. HasInPool (view board.now) owner size)) }
{
    match owner {
        Some(owner) => pool_size(alloc, board, given, owner),
        None => Ok(Some(ASSIGNABLE)),
    }
}

/// How many endpoint IDs the nodes of an owner take, or fewer.
fn taken_of(
    alloc: Global,
    board: &Value,
    given: &Board,
    owner: Option<usize>,
) -> Result<usize, AllocError>
    ensures { IfOk result (λ total. (count : ℕ) × HaveTaken (view board.now) owner count total) }
{
    let mut total = 0usize;
    for node in 0..given.nodes.len() {
        total = total.saturating_add(share_of(alloc, board, given, owner, node)?);
    }
    Ok(total)
}

/// How many endpoint IDs a node takes of an owner.
fn share_of(
    alloc: Global,
    board: &Value,
    given: &Board,
    owner: Option<usize>,
    node: usize,
) -> Result<usize, AllocError>
    ensures { IfOk result (λ taken. Takes (view board.now) owner node taken) }
{
    if !is_of(board, owner, node) {
        return Ok(0);
    }
    match pool_size(alloc, board, given, node)? {
        Some(size) => Ok(usize::from(size) + 1),
        None => Ok(1),
    }
}

/// How many endpoint IDs a node's pool has, where it has one.
fn pool_size(
    alloc: Global,
    board: &Value,
    given: &Board,
    node: usize,
) -> Result<Option<u8>, AllocError>
    ensures { IfOk result (λ found. IfSome found (λ size. IsPoolOf (at_node (codes "pool") node (view board.now)) size)) }
{
    match at_node(board, node, "pool") {
        Some(said) => size_if_said(alloc, said, pool_in(given, node)),
        None => Ok(None),
    }
}

fn pool_in(given: &Board, node: usize) -> Option<BoardPool> {
    given.nodes.get(node)?.pool
}

/// How many endpoint IDs a pool has, if the value is what a board writes of it.
fn size_if_said(
    alloc: Global,
    said: &Value,
    pool: Option<BoardPool>,
) -> Result<Option<u8>, AllocError>
    ensures { IfOk result (λ found. IfSome found (λ size. IsPoolOf (Some (view said.now)) size)) }
{
    match pool {
        Some(BoardPool::Range { first, size }) => run_if_said(alloc, said, first, size),
        Some(BoardPool::Size(size)) => Ok(if is_number(said, u32::from(size)) {
            Some(size)
        } else {
            None
        }),
        None => Ok(None),
    }
}

fn run_if_said(alloc: Global, said: &Value, first: u8, size: u8) -> Result<Option<u8>, AllocError>
    ensures { IfOk result (λ found. IfSome found (λ size. IsPoolOf (Some (view said.now)) size)) }
{
    Ok(if says_run(alloc, said, first, size)? {
        Some(size)
    } else {
        None
    })
}
