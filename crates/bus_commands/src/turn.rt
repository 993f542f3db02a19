//! What becomes of a line: the lines that are sent for it, and what is noted of it.
ghost use Rattle.std.{specs.Prelude.{◌≡◌, ◌<◌, ◌++◌, [], IfOk, length, map, string_bytes}, specs.List.{flat_map}};
ghost use Rattle.emulated_node.{specs.Nodes.{NodeState}, specs.ReceivedValues.{received_value, Sent}, specs.Standing.{HasNodeState, setting_of}};
ghost use Rattle.bus_commands.specs.Turns.{GivesLine, IsToldOf, Takes, TakesBytes, address_word, addressed_line, answer_line, end_mark, note_line, onward_line, reason_words, sent_text, shown_byte};

use crate::line::{Said, read_line};
use command_questions::LineForm;
use emulated_node::{Emulated, Reason, Received, Way, destination_of};
use mctp_transport::{Eid, PacketView};
use net_tables::lookup::bus_name;
use pdr_repository::Terminus;
use plan_values::Plan;
use std::alloc::{AllocError, Global};

/// What is written for a line: the lines that the node sends, and a note of what it dropped. Each may be empty.
#[derive(Drop)]
pub struct Turn {
    pub answer: String,
    pub note: Vec<u8>,
}

/// The bus over which a packet came, and its destination.
#[derive(Clone, Copy)]
struct Arrival {
    bus: usize,
    asked: Eid,
}

/// Gives a node a line of the line protocol.
pub fn take_line<T: Terminus>(
    alloc: Global,
    form: LineForm,
    emulated: &mut Emulated<T>,
    line: &[u8],
) -> Result<Turn, AllocError>
    ensures setting { setting_of emulated.new ≡ setting_of emulated.old }
    ensures takes { IfOk result (λ turn. (s : NodeState) → HasNodeState T.tid T.records emulated.old s
        → (next : NodeState) × Takes form (setting_of emulated.old) s line.now (string_bytes turn.answer) turn.note.items next
        × HasNodeState T.tid T.records emulated.new next) }
{
    let mut turn = give_line(alloc, form.is_addressed, emulated, line)?;
    turn.answer.push_str(end_mark(form.has_ends, line))?;
    Ok(turn)
}

/// What stands behind what is sent for a line; nothing where the line is empty.
pub fn end_mark(has_ends: bool, line: &[u8]) -> &'static str
    ensures { result.now ≡ end_mark has_ends line.now }
{
    match line {
        [] => "",
        [_, ..] => { if has_ends { ".\n" } else { "" } }
    }
}

/// The same, but for the end mark.
fn give_line<T: Terminus>(
    alloc: Global,
    is_addressed: bool,
    emulated: &mut Emulated<T>,
    line: &[u8],
) -> Result<Turn, AllocError>
    ensures setting { setting_of emulated.new ≡ setting_of emulated.old }
    ensures gives { IfOk result (λ turn. (s : NodeState) → HasNodeState T.tid T.records emulated.old s
        → (next : NodeState) × GivesLine is_addressed (setting_of emulated.old) s line.now (string_bytes turn.answer) turn.note.items next
        × HasNodeState T.tid T.records emulated.new next) }
{
    let said = read_line(alloc, emulated.plan(), emulated.node(), is_addressed, line)?;
    match said {
        Said::Nothing => Ok(silent(alloc)),
        Said::NoBus => noted(alloc, "no bus", "", line),
        Said::NoAddress => noted(alloc, "no address", "", line),
        Said::Elsewhere => Ok(silent(alloc)),
        Said::NoPacket => noted(alloc, "no packet", "", line),
        Said::Packet { bus, bytes } => {
            take_bytes(alloc, is_addressed, emulated, bus, &bytes, line)
        }
    }
}

/// Gives a node the bytes that came over a bus.
fn take_bytes<T: Terminus>(
    alloc: Global,
    is_addressed: bool,
    emulated: &mut Emulated<T>,
    bus: usize,
    bytes: &[u8],
    line: &[u8],
) -> Result<Turn, AllocError>
    requires bus { bus < length (setting_of emulated.old).plan.buses.items }
    ensures setting { setting_of emulated.new ≡ setting_of emulated.old }
    ensures takes { IfOk result (λ turn. (s : NodeState) → HasNodeState T.tid T.records emulated.old s
        → (next : NodeState) × TakesBytes is_addressed (setting_of emulated.old) s bus bytes.now line.now (string_bytes turn.answer) turn.note.items next
        × HasNodeState T.tid T.records emulated.new next) }
{
    match PacketView::read_within(bytes, usize::from(emulated.plan().unit)) {
        Ok(packet) => {
            let arrival = Arrival {
                bus,
                asked: packet.header.destination,
            };
            let received = emulated.receive(bus, packet)?;
            told(alloc, is_addressed, emulated, arrival, &received, line)
        }
        Err(why) => noted(alloc, "dropped ", why.code(), line),
    }
}

/// What is written for what becomes of a packet.
fn told<T: Terminus>(
    alloc: Global,
    is_addressed: bool,
    emulated: &Emulated<T>,
    arrival: Arrival,
    received: &Received,
    line: &[u8],
) -> Result<Turn, AllocError>
    ensures { IfOk result (λ turn. IsToldOf is_addressed (setting_of emulated.now) arrival.bus arrival.asked.value (received_value received.now)
        line.now (string_bytes turn.answer) turn.note.items) }
{
    match received {
        Received::Sent { bus, packets } => Ok(Turn {
            answer: sent_lines(alloc, is_addressed, emulated, arrival, *bus, packets)?,
            note: Vec::new(alloc),
        }),
        Received::Held => Ok(silent(alloc)),
        Received::Dropped(why) => {
            let (word, code) = reason_words(*why);
            noted(alloc, word, code, line)
        }
    }
}

/// Packets that are sent, each in a line.
fn sent_lines<T: Terminus>(
    alloc: Global,
    is_addressed: bool,
    emulated: &Emulated<T>,
    arrival: Arrival,
    bus: usize,
    packets: &[Vec<u8>],
) -> Result<String, AllocError>
    ensures { IfOk result (λ lines. string_bytes lines
        ≡ sent_text is_addressed (setting_of emulated.now) arrival.bus arrival.asked.value (Sent bus (map (λ p. p.items) packets.now))) }
{
    if is_addressed {
        return onward_lines(alloc, emulated, arrival, packets);
    }
    answer_lines(alloc, emulated.plan(), bus, packets)
}

/// Packets that are sent, each in a line with the bus and the physical address to which its destination's row leads.
fn onward_lines<T: Terminus>(
    alloc: Global,
    emulated: &Emulated<T>,
    arrival: Arrival,
    packets: &[Vec<u8>],
) -> Result<String, AllocError>
    ensures { IfOk result (λ lines. string_bytes lines
        ≡ flat_map (onward_line (setting_of emulated.now) arrival.bus arrival.asked.value) (map (λ p. p.items) packets.now)) }
{
    let mut lines = String::new(alloc);
    for packet in packets {
        lines.push_str(&onward_line(alloc, emulated, arrival, packet)?)?;
    }
    Ok(lines)
}

fn onward_line<T: Terminus>(
    alloc: Global,
    emulated: &Emulated<T>,
    arrival: Arrival,
    packet: &[u8],
) -> Result<String, AllocError>
    ensures { IfOk result (λ line. string_bytes line ≡ onward_line (setting_of emulated.now) arrival.bus arrival.asked.value packet.now) }
{
    let way = emulated.way(arrival.bus, arrival.asked, destination_of(packet));
    addressed_line(alloc, emulated.plan(), way, packet)
}

pub fn addressed_line(
    alloc: Global,
    plan: &Plan,
    way: Way,
    packet: &[u8],
) -> Result<String, AllocError>
    ensures { IfOk result (λ line. string_bytes line ≡ addressed_line plan.now way packet.now) }
{
    let bus = bus_name(plan, way.bus);
    let address = address_word(alloc, way.address(plan))?;
    let packet = hex::encode(alloc, packet)?;
    format!(in alloc; "{bus} {address} {packet}\n")
}

/// A physical address in hex; a dash for one without bytes.
fn address_word(alloc: Global, address: &[u8]) -> Result<String, AllocError>
    ensures { IfOk result (λ word. string_bytes word ≡ address_word address.now) }
{
    if address.is_empty() {
        return String::from_str(alloc, "-");
    }
    hex::encode(alloc, address)
}

/// Nothing is sent, and nothing noted.
pub fn silent(alloc: Global) -> Turn
    ensures answer { string_bytes result.answer ≡ [] }
    ensures note { result.note.items ≡ [] }
{
    Turn {
        answer: String::new(alloc),
        note: Vec::new(alloc),
    }
}

/// Packets that are sent over a bus, each in a line.
fn answer_lines(
    alloc: Global,
    plan: &Plan,
    bus: usize,
    packets: &[Vec<u8>],
) -> Result<String, AllocError>
    ensures { IfOk result (λ lines. string_bytes lines ≡ flat_map (answer_line plan.now bus) (map (λ p. p.items) packets.now)) }
{
    let mut lines = String::new(alloc);
    for packet in packets {
        lines.push_str(&answer_line(alloc, plan, bus, packet)?)?;
    }
    Ok(lines)
}

fn answer_line(alloc: Global, plan: &Plan, bus: usize, packet: &[u8]) -> Result<String, AllocError>
    ensures { IfOk result (λ line. string_bytes line ≡ answer_line plan.now bus packet.now) }
{
    let bus = bus_name(plan, bus);
    let packet = hex::encode(alloc, packet)?;
    format!(in alloc; "{bus} {packet}\n")
}

/// Why nothing is sent for a packet, and the code of it, if it has one.
pub fn reason_words(why: Reason) -> (&'static str, &'static str)
    ensures { result.0.now ++ result.1.now ≡ reason_words why }
{
    match why {
        Reason::ForwardFault(fault) => ("dropped ", fault.code()),
        Reason::NoPort => ("no port", ""),
        Reason::Unassembled(cause) => ("dropped ", cause.code()),
        Reason::NoRequest => ("no request", ""),
        Reason::NoAnswer => ("no answer", ""),
    }
}

/// A line for which nothing is sent, and a note of why.
pub fn noted(alloc: Global, word: &str, code: &str, line: &[u8]) -> Result<Turn, AllocError>
    ensures answer { IfOk result (λ turn. string_bytes turn.answer ≡ []) }
    ensures note { IfOk result (λ turn. turn.note.items ≡ note_line (word.now ++ code.now) line.now) }
{
    let mut note = Vec::from_slice(alloc, b"# ")?;
    note.extend_from_slice(word.as_bytes())?;
    note.extend_from_slice(code.as_bytes())?;
    note.extend_from_slice(b": ")?;
    let shown: Vec<u8> = line.iter().map(shown_byte).collect(alloc)?;
    note.extend_from_slice(&shown)?;
    note.push(b'\n')?;
    Ok(Turn {
        answer: String::new(alloc),
        note,
    })
}

/// A byte as a note shows it: a printable ASCII character as it is, and any other as a question mark.
fn shown_byte(byte: &u8) -> u8
    ensures { result ≡ shown_byte byte.now }
{
    if b' ' <= *byte && *byte <= b'~' {
        *byte
    } else {
        b'?'
    }
}
