//! What a board asks for: who is to reach whom.
ghost use Rattle.std.specs.Prelude.{◌↔◌, IsTrue, codes};
ghost use Rattle.toml.specs.View.{view};
ghost use Rattle.board_values.specs.Said.{SaysText, item_at};
ghost use Rattle.board_kept.specs.Made.{ListsName, Asks, AsksFor};

use crate::texts::node_name;
use board_values::{has_item, is_left_out, is_text, item};
use plan_values::Plan;
use toml::Value;

/// Whether the board asks that a node reaches another.
pub fn asks_for(board: &Value, plan: &Plan, from: usize, to: usize) -> bool
    ensures { AsksFor (view board.now) plan.now from to → IsTrue result }
{
    match item(board, "node", from) {
        Some(said) => asks(said, plan, to),
        None => false,
    }
}

/// Whether what stands of a node asks for another.
fn asks(said: &Value, plan: &Plan, to: usize) -> bool
    ensures { Asks (view said.now) plan.now to → IsTrue result }
{
    if is_left_out(said, "reaches") {
        return true;
    }
    match node_name(plan, to) {
        Some(name) => lists_name(said, name),
        None => false,
    }
}

/// The most nodes that are named.
const MOST_NAMES: usize = 64;

/// Whether the name stands in the list at `reaches`, or more names do than are looked at.
fn lists_name(said: &Value, name: &str) -> bool
    ensures { ListsName (view said.now) name.now → IsTrue result }
{
    let are_more = has_item(said, "reaches", MOST_NAMES);
    for index in 0..MOST_NAMES {
        if is_name_at(said, name, index) {
            return true;
        }
    }
    are_more
}

/// Whether a name stands at an index of the list at `reaches`.
fn is_name_at(said: &Value, name: &str, index: usize) -> bool
    ensures { IsTrue result ↔ SaysText (item_at (codes "reaches") index (view said.now)) name.now }
{
    match item(said, "reaches", index) {
        Some(value) => is_text(value, name),
        None => false,
    }
}
