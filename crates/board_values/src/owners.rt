//! Who owns whom on a board.
ghost use Rattle.std.specs.Prelude.{◌≡◌, ℕ, IfOk, IfSome, IsTrue, Some, None, true, codes, option_map, option_copied, slice_get};
ghost use Rattle.toml.specs.View.{view};
ghost use Rattle.board_values.{specs.Said.{SaysText}, specs.Owners.{at_node, IsNamed, Owns, HasOwnersWithoutEnd, LeavesOut, IsOf, IsOwnerFlagged, AreOwnersFlagged}};

use crate::said::{is_left_out, is_text, item};
use board::Board;
use std::alloc::{AllocError, Global};
use toml::Value;

/// What stands at a key of the node at an index.
pub fn at_node<'v>(board: &'v Value, node: usize, key: &str) -> Option<&'v Value>
    ensures { option_map (λ v. view v.now) result ≡ at_node key.now node (view board.now) }
{
    match item(board, "node", node) {
        Some(own) => own.get(key),
        None => None,
    }
}

/// The name of the node at an index.
pub fn name_of(board: &Value, node: usize) -> Option<&str>
    ensures { IfSome result (λ name. IsNamed (view board.now) node name.now) }
{
    match at_node(board, node, "name") {
        Some(name) => name.as_str(),
        None => None,
    }
}

/// Whether a text stands at a key of the node at an index.
fn says_text_at(board: &Value, node: usize, key: &str, text: &str) -> bool
    ensures { IsTrue result → SaysText (at_node key.now node (view board.now)) text.now }
{
    match at_node(board, node, key) {
        Some(value) => is_text(value, text),
        None => false,
    }
}

/// Whether a node names another as its owner.
pub fn owns(board: &Value, owner: usize, node: usize) -> bool
    ensures { IsTrue result → Owns (view board.now) owner node }
{
    match name_of(board, owner) {
        Some(name) => says_text_at(board, node, "owner", name),
        None => false,
    }
}

/// Whether nothing stands at a key of the node at an index.
pub fn leaves_out(board: &Value, node: usize, key: &str) -> bool
    ensures { IsTrue result → LeavesOut key.now (view board.now) node }
{
    match item(board, "node", node) {
        Some(own) => is_left_out(own, key),
        None => false,
    }
}

/// Whether a node has this owner; where it is none, whether nobody owns the node.
pub fn is_of(board: &Value, owner: Option<usize>, node: usize) -> bool
    ensures { IsTrue result → IsOf (view board.now) owner node }
{
    match owner {
        Some(owner) => owns(board, owner, node),
        None => leaves_out(board, node, "owner"),
    }
}

/// Whether above a node there is an owner however far one goes.
pub fn has_owners_without_end(
    alloc: Global,
    board: &Value,
    given: &Board,
    node: usize,
) -> Result<bool, AllocError>
    ensures { IfOk result (λ answer. IsTrue answer → HasOwnersWithoutEnd (view board.now) node) }
{
    let above = owners_above(alloc, given, node)?;
    Ok(leads_up_without_end(board, given, &above, node))
}

/// Whether a node has a flag, and the owner of each node with a flag.
fn leads_up_without_end(board: &Value, given: &Board, above: &[bool], node: usize) -> bool
    ensures { IsTrue result → HasOwnersWithoutEnd (view board.now) node }
{
    is_set(above, node) && are_owners_flagged(board, given, above)
}

/// A flag for each node: whether it is the one, or stands above it.
fn owners_above(alloc: Global, given: &Board, node: usize) -> Result<Vec<bool>, AllocError> {
    let mut above = Vec::new(alloc);
    for _ in &given.nodes {
        above.push(false)?;
    }
    let mut at = Some(node);
    for _ in 0..=given.nodes.len() {
        at = set_and_go_up(given, &mut above, at);
    }
    Ok(above)
}

/// Sets the flag of a node, and answers its owner.
fn set_and_go_up(given: &Board, above: &mut Vec<bool>, at: Option<usize>) -> Option<usize> {
    let node = at?;
    if node < above.len() {
        above[node] = true;
    }
    owner_in(given, node)
}

fn owner_in(given: &Board, node: usize) -> Option<usize> {
    given.nodes.get(node)?.owner
}

fn is_set(flags: &[bool], node: usize) -> bool
    ensures { IsTrue result → slice_get flags.now node ≡ Some true }
{
    match flags.get(node) {
        Some(flag) => *flag,
        None => false,
    }
}

/// Whether the owner of each node with a flag has a flag.
fn are_owners_flagged(board: &Value, given: &Board, above: &[bool]) -> bool
    ensures { IsTrue result → AreOwnersFlagged (view board.now) above.now }
{
    for node in 0..above.len() {
        if !is_owner_flagged(board, given, above, node) {
            return false;
        }
    }
    true
}

fn is_owner_flagged(board: &Value, given: &Board, above: &[bool], node: usize) -> bool
    ensures { IsTrue result → IsOwnerFlagged (view board.now) above.now node }
{
    if above.get(node).copied() != Some(true) {
        return true;
    }
    match owner_in(given, node) {
        Some(owner) => is_set(above, owner) && owns(board, owner, node),
        None => false,
    }
}
