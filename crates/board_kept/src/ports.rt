//! Whether a plan keeps what a board says of ports.
ghost use Rattle.std.specs.Prelude.{◌≡◌, ◌↔◌, ◌+◌, [], IfOk, IfSome, IsTrue, Some, codes, unwrap_or};
ghost use Rattle.toml.specs.View.{view};
ghost use Rattle.board_values.specs.Said.{SaysText, IsItemKept, AreItemsKept};
ghost use Rattle.board_kept.{specs.Kept.{IsOfSevenBits, IsShifted, IsOnWire, IsPortKept}, specs.Texts.{port_text}};

use crate::texts::port_text;
use board_values::{is_list_at, is_text, item, says_text};
use plan_values::{Plan, Port};
use std::alloc::{AllocError, Global};
use toml::Value;

/// Whether the ports stand in the list, in their order, and no others.
pub fn keeps_ports(
    alloc: Global,
    board: &Value,
    plan: &Plan,
    ports: &[Port],
    said: &Value,
) -> Result<bool, AllocError>
    ensures { IfOk result (λ answer. IsTrue answer → AreItemsKept (IsPortKept (view board.now) plan.now) ports.now (codes "ports") (view said.now)) }
{
    for index in 0..ports.len() {
        if !keeps_port_at(alloc, board, plan, ports, said, index)? {
            return Ok(false);
        }
    }
    Ok(is_list_at(said, "ports") && item(said, "ports", ports.len()).is_none())
}

fn keeps_port_at(
    alloc: Global,
    board: &Value,
    plan: &Plan,
    ports: &[Port],
    said: &Value,
    index: usize,
) -> Result<bool, AllocError>
    ensures { IfOk result (λ answer. IsTrue answer → IsItemKept (IsPortKept (view board.now) plan.now) ports.now (codes "ports") (view said.now) index) }
{
    match ports.get(index) {
        Some(port) => match item(said, "ports", index) {
            Some(value) => keeps_port(alloc, board, plan, port, value),
            None => Ok(false),
        },
        None => Ok(true),
    }
}

/// Whether the port stands there, with its address as the bus has it written.
fn keeps_port(
    alloc: Global,
    board: &Value,
    plan: &Plan,
    port: &Port,
    said: &Value,
) -> Result<bool, AllocError>
    ensures { IfOk result (λ answer. IsTrue answer → IsPortKept (view board.now) plan.now port.now (view said.now)) }
{
    match given_address(alloc, board, port.bus, &port.address)? {
        Some(address) => Ok(says_port(alloc, plan, port.bus, &address, said)?),
        None => Ok(false),
    }
}

/// Whether a port on the bus at an index stands there, with this address.
fn says_port(
    alloc: Global,
    plan: &Plan,
    bus: usize,
    address: &[u8],
    said: &Value,
) -> Result<bool, AllocError>
    ensures { IfOk result (λ answer. IsTrue answer → SaysText (Some (view said.now)) (port_text plan.now bus address.now)) }
{
    let text = port_text(alloc, plan, bus, address)?;
    Ok(is_text(said, &text))
}

/// The address that the board gives for one on the wire of the bus at an index. None where the bus writes addresses in 7
/// bits, and none of these is that on the wire.
fn given_address(
    alloc: Global,
    board: &Value,
    bus: usize,
    wire: &[u8],
) -> Result<Option<Vec<u8>>, AllocError>
    ensures { IfOk result (λ found. IfSome found (λ given. IsOnWire (view board.now) bus given.items wire.now)) }
{
    if is_of_seven_bits(board, bus) {
        return unshifted(alloc, wire);
    }
    Ok(Some(Vec::from_slice(alloc, wire)?))
}

/// Whether the bus at an index writes the addresses of its ports in 7 bits.
fn is_of_seven_bits(board: &Value, bus: usize) -> bool
    ensures { IsTrue result ↔ IsOfSevenBits (view board.now) bus }
{
    match item(board, "bus", bus) {
        Some(said) => says_text(said, "addresses", "7-bit"),
        None => false,
    }
}

/// The address of 7 bits that is this on the wire, where there is one.
fn unshifted(alloc: Global, wire: &[u8]) -> Result<Option<Vec<u8>>, AllocError>
    ensures { IfOk result (λ found. IfSome found (λ given. IsShifted given.items wire.now)) }
{
    match wire {
        [] => Ok(Some(Vec::new(alloc))),
        [byte] => match half_of(*byte) {
            Some(half) => Ok(Some(vec![in alloc; half]?)),
            None => Ok(None),
        },
        _ => Ok(None),
    }
}

/// Half of a byte, where that is a whole number.
fn half_of(byte: u8) -> Option<u8>
    ensures { IfSome result (λ half. half + half ≡ byte) }
{
    let half = byte / 2;
    if u16::from(half) + u16::from(half) == u16::from(byte) {
        Some(half)
    } else {
        None
    }
}
