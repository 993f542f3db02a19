//! The answers of a planned bridge that tell its routing table (DSP0236, Get Routing Table Entries).
ghost use Rattle.std.{specs.Prelude.{◌≡◌, ◌⊎◌, ◌<◌, ◌≤◌, All, IfOk, length, map, slice_index, string_bytes}, specs.List.{flat_map}};
ghost use Rattle.mctp_control.{specs.Devices.{device_value}, specs.EntryLists.{values_of}};
ghost use Rattle.mctp_bridge.{specs.Readers.{handle_after}, specs.Reads.{AreShort}};
ghost use Rattle.mctp_transport.specs.PacketValues.{IsAssignable};
ghost use Rattle.plan_exports.{specs.PlannedTables.{HasLawfulRows}, specs.TableAnswers.{AreAnswers, AreEntriesOf, AreEntryLines, AreEntryMessages, IsAnswer, hex_line}};

use crate::planned_tables::planned_table;
use arrayvec::ArrayVec;
use mctp_bridge::{NO_MORE, route_entries};
use mctp_control::{CommandNumber, Device, MAX_BODY, RouteEntry};
use mctp_routing::DeviceKind;
use mctp_transport::Eid;
use plan_values::Plan;
use std::alloc::{AllocError, Global};

/// A control message.
type Message = ArrayVec<u8, MAX_BODY>;

/// The answers by which a planned bridge with lawful rows tells its whole routing table, from its first entry to its
/// last: each a control message, with instance ID 0.
pub fn entry_messages(
    alloc: Global,
    plan: &Plan,
    node: usize,
    eid: Eid,
) -> Result<Vec<Message>, AllocError>
    requires rows { HasLawfulRows plan.now node }
    requires eid { IsAssignable eid.value }
    ensures { IfOk result (λ messages. AreEntryMessages plan.now node eid.value (map (λ m. m.items) messages.items)) }
{
    let entries = planned_entries(alloc, plan, node)?;
    let mut bridge = Device::configured(DeviceKind::Bridge, eid, None);
    answers(alloc, &mut bridge, &entries)
}

/// The same answers as text, each in a line in hex.
pub fn entry_lines(alloc: Global, plan: &Plan, node: usize, eid: Eid) -> Result<String, AllocError>
    requires rows { HasLawfulRows plan.now node }
    requires eid { IsAssignable eid.value }
    ensures { IfOk result (λ text. AreEntryLines plan.now node eid.value (string_bytes text)) }
{
    let messages = entry_messages(alloc, plan, node, eid)?;
    let lines = hex_lines(alloc, &messages)?;
    Ok(lines)
}

/// Each message in a line in hex.
fn hex_lines(alloc: Global, messages: &[Message]) -> Result<String, AllocError>
    ensures { IfOk result (λ text. string_bytes text ≡ flat_map hex_line (map (λ m. m.items) messages.now)) }
{
    let mut text = String::new(alloc);
    for message in messages {
        text.push_str(&hex_line(alloc, message)?)?;
    }
    Ok(text)
}

fn hex_line(alloc: Global, message: &[u8]) -> Result<String, AllocError>
    ensures { IfOk result (λ text. string_bytes text ≡ hex_line message.now) }
{
    let mut line = hex::encode(alloc, message)?;
    line.push_str("\n")?;
    Ok(line)
}

/// The entries of the routing table that the lawful rows of a node give, in the order of their endpoint IDs.
pub fn planned_entries(
    alloc: Global,
    plan: &Plan,
    node: usize,
) -> Result<Vec<RouteEntry>, AllocError>
    requires { HasLawfulRows plan.now node }
    ensures listed { IfOk result (λ entries. AreEntriesOf plan.now node (values_of entries.items)) }
    ensures short { IfOk result (λ entries. AreShort (values_of entries.items)) }
{
    let planned = planned_table(alloc, plan, node)?;
    route_entries(alloc, &planned.table, &planned.neighbors)
}

/// The answers by which a bridge tells its whole table, from its first entry to its last.
fn answers(
    alloc: Global,
    bridge: &mut Device,
    table: &[RouteEntry],
) -> Result<Vec<Message>, AllocError>
    requires bridge { (device_value bridge.old).kind ≡ DeviceKind.Bridge }
    requires short { AreShort (values_of table.now) }
    ensures { IfOk result (λ messages. AreAnswers (device_value bridge.old) (values_of table.now) (map (λ m. m.items) messages.items)) }
{
    let mut messages = Vec::new(alloc);
    let mut due = Some(0);
    while let Some(handle) = due {
        let message = answer_to(bridge, table, handle);
        due = handle_after(&message);
        messages.push(message)?;
    }
    Ok(messages)
}

/// What a bridge answers to the request for the entries from a handle on.
fn answer_to(bridge: &mut Device, table: &[RouteEntry], handle: u8) -> Message
    requires bridge { (device_value bridge.old).kind ≡ DeviceKind.Bridge }
    requires short { AreShort (values_of table.now) }
    requires known { (handle ≡ 0) ⊎ (handle < length (values_of table.now)) }
    ensures answer { IsAnswer (device_value bridge.old) (values_of table.now) handle result.items }
    ensures same { device_value bridge.new ≡ device_value bridge.old }
{
    let request = [0, 0x80, CommandNumber::GetRoutingTableEntries as u8, handle];
    match bridge.answer(0, table, &request) {
        Some(message) => message,
        None => unreachable!(),
    }
}

/// The entry handle that an answer gives for the entries after its own, if there are any.
fn handle_after(message: &[u8]) -> Option<u8>
    requires { 4 < length message.now }
    ensures { result ≡ handle_after (slice_index message.now 4) }
{
    let next = message[4];
    if next == NO_MORE { None } else { Some(next) }
}
