//! What requesters read of a bridge's routing table (DSP0236, "Get Routing Table Entries").
ghost use Rattle.std.specs.Prelude.{◌≡◌, ◌++◌, IfOk, OnOk, map};
ghost use Rattle.mctp_control.{specs.RouteEntries.{entry_value}, specs.Responses.{EntriesTold}};
ghost use Rattle.audited_captures.{specs.Exchanges.{exchange_value}, specs.Readings.{part_value, part_of, parts_of, turn_by, turn_of, read_from}, specs.Turns.{Takes, entry_values, reading_value}};

use crate::exchanges::Exchange;
use mctp_control::{ControlAnswer, ControlCommand, RouteEntry};
use mctp_transport::Eid;
use std::alloc::{AllocError, Global};

/// The next handle of an answer after which there are no more entries.
const NO_MORE: u8 = 0xff;

/// What was answered when routing table entries were asked for.
#[derive(Clone, Copy, Debug)]
pub struct Part<'w> {
    pub requester: Eid,
    /// The entry handle that was asked for.
    pub handle: u8,
    pub answer: &'w ControlAnswer,
}

/// How a reading goes on at a part.
#[derive(Clone, Copy, Debug)]
pub enum Turn {
    /// The part is another requester's.
    Other,
    /// The part doesn't follow, or has no entries.
    Fails,
    /// The device refused what was due.
    Refuses,
    Ends,
    /// With this entry handle.
    GoesOn(u8),
}

/// What a requester read of a routing table.
#[derive(Drop)]
pub enum Reading<'w> {
    /// All entries.
    Read(Vec<&'w RouteEntry>),
    /// An answer failed.
    Refused,
    /// No answer ended it.
    Unended,
}

/// What was answered from an endpoint ID when routing table entries were asked for, in the order of the answers.
pub fn parts_of<'w>(
    alloc: Global,
    exchanges: &[Exchange<'w>],
    eid: Eid,
) -> Result<Vec<Part<'w>>, AllocError>
    ensures { IfOk result (λ parts. map part_value parts.items ≡ parts_of eid.value (map exchange_value exchanges.now)) }
{
    let mut parts = Vec::new(alloc);
    for exchange in exchanges {
        add_part(&mut parts, exchange, eid)?;
    }
    Ok(parts)
}

fn add_part<'w>(
    parts: &mut Vec<Part<'w>>,
    exchange: &Exchange<'w>,
    eid: Eid,
) -> Result<(), AllocError>
    ensures { OnOk result (map part_value parts.new.items ≡ map part_value parts.old.items ++ part_of eid.value (exchange_value exchange.now)) }
{
    if exchange.responder.value != eid.value {
        return Ok(());
    }
    match exchange.command {
        ControlCommand::GetRoutingTableEntries { handle } => parts.push(Part {
            requester: exchange.requester,
            handle: *handle,
            answer: exchange.answer,
        })?,
        ControlCommand::SetEndpointId { .. } => {}
        ControlCommand::GetEndpointId => {}
        ControlCommand::AllocateEndpointIds { .. } => {}
    }
    Ok(())
}

/// What a requester reads from entry handle 0 on.
pub fn read_from_0<'w>(
    alloc: Global,
    requester: Eid,
    parts: &[Part<'w>],
) -> Result<Reading<'w>, AllocError>
    ensures { IfOk result (λ found. reading_value found ≡ read_from requester.value 0 (map part_value parts.now)) }
{
    let mut entries = Vec::new(alloc);
    let mut due = 0;
    for part in parts {
        match take(part, requester, due, &mut entries)? {
            Turn::Other => {}
            Turn::Fails => return Ok(Reading::Unended),
            Turn::Refuses => return Ok(Reading::Refused),
            Turn::Ends => return Ok(Reading::Read(entries)),
            Turn::GoesOn(next) => due = next,
        }
    }
    Ok(Reading::Unended)
}

/// Adds the entries of a part, if it follows.
fn take<'w>(
    part: &Part<'w>,
    requester: Eid,
    due: u8,
    entries: &mut Vec<&'w RouteEntry>,
) -> Result<Turn, AllocError>
    ensures { IfOk result (λ turn. Takes (turn_of requester.value due (part_value part.now)) turn (entry_values entries.old.items) (entry_values entries.new.items)) }
{
    if part.requester.value != requester.value {
        return Ok(Turn::Other);
    }
    if part.handle != due {
        return Ok(Turn::Fails);
    }
    match part.answer {
        ControlAnswer::GetRoutingTableEntries {
            next,
            entries: told,
        } => { take_entries(*next, told.items.as_slice(), entries) }
        ControlAnswer::SetEndpointId { .. } => Ok(Turn::Fails),
        ControlAnswer::GetEndpointId { .. } => Ok(Turn::Fails),
        ControlAnswer::AllocateEndpointIds { .. } => Ok(Turn::Fails),
        ControlAnswer::Failed { .. } => Ok(Turn::Refuses),
    }
}

fn take_entries<'w>(
    next: u8,
    told: &'w [RouteEntry],
    entries: &mut Vec<&'w RouteEntry>,
) -> Result<Turn, AllocError>
    ensures { IfOk result (λ turn. Takes (turn_by (EntriesTold next (map entry_value told.now))) turn (entry_values entries.old.items) (entry_values entries.new.items)) }
{
    if next == 0 {
        return Ok(Turn::Fails);
    }
    for entry in told {
        entries.push(entry)?;
    }
    if next == NO_MORE {
        Ok(Turn::Ends)
    } else {
        Ok(Turn::GoesOn(next))
    }
}
