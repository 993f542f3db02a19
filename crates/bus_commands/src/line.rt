//! What a line of the line protocol says.
ghost use Rattle.std.specs.Prelude.{◌≡◌, ◌≢◌, ◌↔◌, ℕ, List, Ok, IfOk, IsTrue, MatchOption, map, string_bytes};
ghost use Rattle.hex.specs.Hex.{decode_of};
ghost use Rattle.bus_captures.specs.Values.{entry_value};
ghost use Rattle.bus_commands.specs.PacketLines.{IsOnePacket, IsReadAt, IsReadOver, NamesAddress, NamesBus, Says, said_value};

use bus_captures::{Capture, End, Kind, read_capture, split_word, uncommented};
use emulated_node::is_at;
use hex::FromHexError;
use net_tables::lookup::is_on_bus;
use plan_values::{Bus, Plan};
use std::alloc::{AllocError, Global};

/// What a line says.
#[derive(Drop)]
pub enum Said {
    /// Nothing but a comment.
    Nothing,
    /// Its first word is the name of no bus on which the node has a port.
    NoBus,
    /// What stands behind the bus is no physical address.
    NoAddress,
    /// The packet is sent to another physical address than the node's on the bus.
    Elsewhere,
    /// What stands behind the bus and the address is no packet.
    NoPacket,
    /// These bytes came over the bus.
    Packet { bus: usize, bytes: Vec<u8> },
}

/// What a line says to a node. `is_addressed` says whether a physical address stands behind the bus.
pub fn read_line(
    alloc: Global,
    plan: &Plan,
    node: usize,
    is_addressed: bool,
    line: &[u8],
) -> Result<Said, AllocError>
    ensures { IfOk result (λ said. Says is_addressed plan.now node line.now (said_value said)) }
{
    let (word, behind) = split_word(uncommented(line));
    if word.is_empty() {
        return Ok(Said::Nothing);
    }
    match bus_named(plan, node, word) {
        Some(bus) => {
            if is_addressed {
                return read_addressed(alloc, plan, node, bus, behind);
            }
            read_packet(alloc, bus, behind)
        }
        None => Ok(Said::NoBus),
    }
}

/// What the text behind the name of a bus says, where it begins with a physical address.
fn read_addressed(
    alloc: Global,
    plan: &Plan,
    node: usize,
    bus: usize,
    text: &[u8],
) -> Result<Said, AllocError>
    ensures { IfOk result (λ said. IsReadAt plan.now node bus text.now (said_value said)) }
{
    let (word, behind) = split_word(text);
    let Some(address) = read_address(alloc, word)? else {
        return Ok(Said::NoAddress);
    };
    if !is_at(plan, node, bus, &address) {
        return Ok(Said::Elsewhere);
    }
    read_packet(alloc, bus, behind)
}

/// The physical address that a word names, in hex; a dash names one without bytes.
fn read_address(alloc: Global, word: &[u8]) -> Result<Option<Vec<u8>>, AllocError>
    ensures { IfOk result (λ address. MatchOption address ((bytes : List ℕ) → ¬ NamesAddress word.now bytes)
        (λ address. NamesAddress word.now address.items)) }
{
    match word {
        [] => Ok(None),
        [b'-'] => Ok(Some(Vec::new(alloc))),
        _ => read_digits(alloc, word),
    }
}

/// The bytes of digits, if they are some.
fn read_digits(alloc: Global, digits: &[u8]) -> Result<Option<Vec<u8>>, AllocError>
    ensures { IfOk result (λ address. MatchOption address ((bytes : List ℕ) → decode_of digits.now ≢ Ok bytes)
        (λ address. decode_of digits.now ≡ Ok address.items)) }
{
    match hex::decode(alloc, digits) {
        Ok(bytes) => Ok(Some(bytes)),
        Err(FromHexError::OutOfMemory) => Err(AllocError),
        Err(_) => Ok(None),
    }
}

/// What the text behind the name of a bus says.
fn read_packet(alloc: Global, bus: usize, text: &[u8]) -> Result<Said, AllocError>
    ensures { IfOk result (λ said. IsReadOver bus text.now (said_value said)) }
{
    let capture = read_capture(alloc, text)?;
    match only_packet(&capture) {
        Some(bytes) => Ok(Said::Packet {
            bus,
            bytes: Vec::from_slice(alloc, bytes)?,
        }),
        None => Ok(Said::NoPacket),
    }
}

/// The bytes of a capture that is one packet.
fn only_packet<'a>(capture: &'a Capture) -> Option<&'a [u8]>
    ensures { let entries = map entry_value capture.now.entries.items in
        MatchOption result ((bytes : List ℕ) → ¬ IsOnePacket entries capture.now.end bytes)
        (λ bytes. IsOnePacket entries capture.now.end bytes.now) }
{
    if capture.end != End::Whole {
        return None;
    }
    let [entry] = capture.entries.as_slice() else {
        return None;
    };
    if entry.kind != Kind::Packet {
        return None;
    }
    Some(&entry.bytes)
}

/// The index of the first bus of the name on which the node has a port.
fn bus_named(plan: &Plan, node: usize, name: &[u8]) -> Option<usize>
    ensures { MatchOption result ((b : ℕ) → ¬ NamesBus plan.now node name.now b) (NamesBus plan.now node name.now) }
{
    for (index, bus) in plan.buses.iter().enumerate() {
        if is_named(bus, name) && is_on_bus(plan, node, index) {
            return Some(index);
        }
    }
    None
}

fn is_named(bus: &Bus, name: &[u8]) -> bool
    ensures { IsTrue result ↔ (string_bytes bus.now.name.text ≡ name.now) }
{
    bus.name.text.as_bytes() == name
}
