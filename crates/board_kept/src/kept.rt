//! Whether a plan keeps what a board says.
ghost use Rattle.std.specs.Prelude.{◌≡◌, IfOk, IsTrue, codes};
ghost use Rattle.toml.{specs.Data.{get}, specs.View.{view}};
ghost use Rattle.board_values.specs.Said.{SaysText, IsItemKept, AreItemsKept};
ghost use Rattle.board_kept.specs.Kept.{SaysBinding, IsFormKept, IsBusKept, IsNodeKept, Keeps};

use crate::keys::{Level, has_only_keys};
use crate::nodes::keeps_node;
use crate::texts::binding_word;
use board::RecordFile;
use board_values::{is_left_out, is_list_at, item, says_number, says_or, says_text};
use plan_values::{Bus, Plan};
use std::alloc::{AllocError, Global};
use toml::Value;

/// Whether all that a board gives is in the plan. Its records may name these files.
pub fn keeps(
    alloc: Global,
    files: &[RecordFile],
    board: &Value,
    plan: &Plan,
) -> Result<bool, AllocError>
    ensures { IfOk result (λ answer. IsTrue answer → Keeps files.now (view board.now) plan.now) }
{
    let head = has_only_keys(board, Level::Top)
        && says_or(board, "unit", u32::from(plan.unit), 64)
        && keeps_buses(board, &plan.buses);
    Ok(keeps_nodes(alloc, files, board, plan)? && head)
}

fn keeps_buses(board: &Value, buses: &[Bus]) -> bool
    ensures { IsTrue result → AreItemsKept IsBusKept buses.now (codes "bus") (view board.now) }
{
    for index in 0..buses.len() {
        if !keeps_bus_at(board, buses, index) {
            return false;
        }
    }
    is_list_at(board, "bus") && item(board, "bus", buses.len()).is_none()
}

fn keeps_bus_at(board: &Value, buses: &[Bus], index: usize) -> bool
    ensures { IsTrue result → IsItemKept IsBusKept buses.now (codes "bus") (view board.now) index }
{
    match buses.get(index) {
        Some(bus) => match item(board, "bus", index) {
            Some(said) => keeps_bus(said, bus),
            None => false,
        },
        None => true,
    }
}

fn keeps_bus(said: &Value, bus: &Bus) -> bool
    ensures { IsTrue result → IsBusKept bus.now (view said.now) }
{
    has_only_keys(said, Level::OfBus)
        && says_text(said, "name", bus.name.text.as_str())
        && says_binding(said, bus.binding)
        && says_or(said, "media", u32::from(bus.media), 0)
        && keeps_form(said)
}

/// Whether nothing stands at `addresses`, or the word for 7 bits.
fn keeps_form(said: &Value) -> bool
    ensures { IsTrue result → IsFormKept (get (codes "addresses") (view said.now)) }
{
    is_left_out(said, "addresses") || says_text(said, "addresses", "7-bit")
}

/// Whether the number of a binding stands there, or its word.
fn says_binding(said: &Value, number: u8) -> bool
    ensures { IsTrue result → SaysBinding (get (codes "binding") (view said.now)) number }
{
    match binding_word(number) {
        Some(word) => {
            says_number(said, "binding", u32::from(number))
                || says_text(said, "binding", word)
                || says_i2c(said, number)
        }
        None => says_number(said, "binding", u32::from(number)),
    }
}

/// Whether the word for I2C stands there, and the number is that of SMBus.
fn says_i2c(said: &Value, number: u8) -> bool
    ensures number { IsTrue result → number ≡ 1 }
    ensures word { IsTrue result → SaysText (get (codes "binding") (view said.now)) (codes "i2c") }
{
    number == 1 && says_text(said, "binding", "i2c")
}

fn keeps_nodes(
    alloc: Global,
    files: &[RecordFile],
    board: &Value,
    plan: &Plan,
) -> Result<bool, AllocError>
    ensures { IfOk result (λ answer. IsTrue answer → AreItemsKept (IsNodeKept files.now (view board.now) plan.now) plan.now.nodes.items (codes "node") (view board.now)) }
{
    for index in 0..plan.nodes.len() {
        if !keeps_node_at(alloc, files, board, plan, index)? {
            return Ok(false);
        }
    }
    Ok(is_list_at(board, "node") && item(board, "node", plan.nodes.len()).is_none())
}

fn keeps_node_at(
    alloc: Global,
    files: &[RecordFile],
    board: &Value,
    plan: &Plan,
    index: usize,
) -> Result<bool, AllocError>
    ensures { IfOk result (λ answer. IsTrue answer → IsItemKept (IsNodeKept files.now (view board.now) plan.now) plan.now.nodes.items (codes "node") (view board.now) index) }
{
    match plan.nodes.get(index) {
        Some(node) => match item(board, "node", index) {
            Some(said) => keeps_node(alloc, files, board, plan, node, said),
            None => Ok(false),
        },
        None => Ok(true),
    }
}
