//! Whether a board lacks what a plan needs.
ghost use Rattle.std.specs.Prelude.{◌≡◌, ◌⊎◌, ℕ, IfOk, IsTrue, None, codes};
ghost use Rattle.toml.specs.View.{view};
ghost use Rattle.board_values.{specs.Said.{SaysNumber}, specs.Owners.{at_node}, specs.Lacks.{IsToTake, IsWithoutPool, IsWithoutEid, IsWithoutRun, Lacks}};

use crate::owners::{at_node, has_owners_without_end, is_of, leaves_out, owns};
use crate::said::is_number;
use crate::shares::is_overdrawn;
use board::{Board, NoPlan};
use std::alloc::{AllocError, Global};
use toml::Value;

/// Whether a board lacks what is said to be lacking. `given` is what was read of it. Where the answer is no, that is
/// not known.
pub fn lacks(alloc: Global, board: &Value, given: &Board, why: NoPlan) -> Result<bool, AllocError>
    ensures { IfOk result (λ answer. IsTrue answer → Lacks (view board.now) why) }
{
    match why {
        NoPlan::OwnerLoop { node } => has_owners_without_end(alloc, board, given, node),
        NoPlan::NoPool { node, owner } => Ok(lacks_pool(board, node, owner)),
        NoPlan::NoEid { node, owner } => lacks_eid(alloc, board, given, node, owner),
        NoPlan::NoRun { node, size, owner } => lacks_run(alloc, board, given, node, size, owner),
        NoPlan::TooManyRows { node: _ } => Ok(false),
        NoPlan::WrongRecord { node: _, record: _ } => Ok(false),
        NoPlan::OutOfMemory => Ok(false),
    }
}

fn lacks_pool(board: &Value, node: usize, owner: usize) -> bool
    ensures { IsTrue result → IsWithoutPool (view board.now) node owner }
{
    owns(board, owner, node) && has_nothing(board, owner, "pool") && is_to_take(board, node)
}

/// Whether nothing stands at a key of the node at an index.
fn has_nothing(board: &Value, node: usize, key: &str) -> bool
    ensures { IsTrue result → at_node key.now node (view board.now) ≡ None }
{
    at_node(board, node, key).is_none()
}

/// Whether a node's endpoint ID or its pool are left to be chosen.
fn is_to_take(board: &Value, node: usize) -> bool
    ensures { IsTrue result → IsToTake (view board.now) node }
{
    leaves_out(board, node, "eid") || has_size(board, node)
}

fn has_size(board: &Value, node: usize) -> bool
    ensures { IsTrue result → (size : ℕ) × SaysNumber (at_node (codes "pool") node (view board.now)) size }
{
    for size in 0..=255u32 {
        if says_size(board, node, size) {
            return true;
        }
    }
    false
}

/// Whether a node gives its pool by this size.
fn says_size(board: &Value, node: usize, size: u32) -> bool
    ensures { IsTrue result → SaysNumber (at_node (codes "pool") node (view board.now)) size }
{
    match at_node(board, node, "pool") {
        Some(said) => is_number(said, size),
        None => false,
    }
}

fn lacks_eid(
    alloc: Global,
    board: &Value,
    given: &Board,
    node: usize,
    owner: Option<usize>,
) -> Result<bool, AllocError>
    ensures { IfOk result (λ answer. IsTrue answer → IsWithoutEid (view board.now) node owner) }
{
    let is_left = is_of(board, owner, node) && leaves_out(board, node, "eid");
    Ok(is_overdrawn(alloc, board, given, owner)? && is_left)
}

fn lacks_run(
    alloc: Global,
    board: &Value,
    given: &Board,
    node: usize,
    size: u8,
    owner: Option<usize>,
) -> Result<bool, AllocError>
    ensures { IfOk result (λ answer. IsTrue answer → IsWithoutRun (view board.now) node size owner) }
{
    let is_left = is_of(board, owner, node) && says_size(board, node, u32::from(size));
    Ok(is_overdrawn(alloc, board, given, owner)? && is_left)
}
