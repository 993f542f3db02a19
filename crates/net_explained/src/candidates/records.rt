//! Records that a terminus may have in place of its own.

use crate::candidates::add;
use crate::edit::{Change, Edit};
use net_rules::ChainFault;
use net_tables::lookup::{eid_at, record_at, records_at, terminus_at};
use pdr_record::HEADER_LENGTH;
use plan_values::{Plan, PlannedRecord};
use std::alloc::{AllocError, Global};

/// Where a terminus locator has its terminus ID, and the length of its value, which is its last part (DSP0248).
const TID_AT: usize = 13;

const VALUE_LENGTH_AT: usize = 17;

// ---- next handles

/// Adds other next handles of the record at which a chain goes wrong: of a record to which none leads, and 0.
pub fn add_links(
    plan: &Plan,
    node: usize,
    kind: ChainFault,
    at: usize,
    edits: &mut Vec<Edit>,
) -> Result<(), AllocError> {
    let records = records_at(plan, node);
    match kind {
        ChainFault::Missing => add_next(node, records, at, edits),
        ChainFault::Doubled => match records.get(at) {
            Some(record) => {
                add_following(node, records, record.next, edits)?;
                add_next(node, records, at, edits)?;
                add_before(node, records, record.next, edits)
            }
            None => Ok(()),
        },
        ChainFault::Circle => match records.get(at) {
            Some(record) => add_before(node, records, record.handle, edits),
            None => Ok(()),
        },
    }
}

/// Adds the handle of the record behind as the next one, for each record that has this next handle.
fn add_following(
    node: usize,
    records: &[PlannedRecord],
    next: u32,
    edits: &mut Vec<Edit>,
) -> Result<(), AllocError> {
    for at in 0..records.len() {
        if let Some(behind) = records.get(at + 1) {
            if records[at].next == next && !leads_to(records, behind.handle) {
                add(edits, node, Change::Next(at, behind.handle))?;
            }
        }
    }
    Ok(())
}

/// Adds other next handles of the first record that has this one.
fn add_before(
    node: usize,
    records: &[PlannedRecord],
    next: u32,
    edits: &mut Vec<Edit>,
) -> Result<(), AllocError> {
    match records.iter().position(|record| record.next == next) {
        Some(at) => add_next(node, records, at, edits),
        None => Ok(()),
    }
}

/// Adds the next handles that the record may have: of each record to which none leads, and 0.
fn add_next(
    node: usize,
    records: &[PlannedRecord],
    at: usize,
    edits: &mut Vec<Edit>,
) -> Result<(), AllocError> {
    for other in 0..records.len() {
        let handle = records[other].handle;
        if other != at && !leads_to(records, handle) {
            add(edits, node, Change::Next(at, handle))?;
        }
    }
    add(edits, node, Change::Next(at, 0))
}

/// Whether one of the records has this next handle.
fn leads_to(records: &[PlannedRecord], handle: u32) -> bool {
    records.iter().any(|record| record.next == handle)
}

/// Whether one of the records has this handle.
fn has_handle(records: &[PlannedRecord], handle: u32) -> bool {
    records.iter().any(|record| record.handle == handle)
}

// ---- handles and bytes

/// Adds other handles of the record: that of its bytes, and the next handles that no record has.
pub fn add_handles(
    plan: &Plan,
    node: usize,
    at: usize,
    edits: &mut Vec<Edit>,
) -> Result<(), AllocError> {
    let records = records_at(plan, node);
    if let Some(handle) = records
        .get(at)
        .and_then(|record| header_handle(&record.bytes))
    {
        add_handle(node, records, at, handle, edits)?;
    }
    for record in records {
        add_handle(node, records, at, record.next, edits)?;
    }
    Ok(())
}

/// Adds a handle of the record, where no record has it.
fn add_handle(
    node: usize,
    records: &[PlannedRecord],
    at: usize,
    handle: u32,
    edits: &mut Vec<Edit>,
) -> Result<(), AllocError> {
    if handle != 0 && !has_handle(records, handle) {
        add(edits, node, Change::Handle(at, handle))?;
    }
    Ok(())
}

/// The handle in a record's header: its first four bytes, the lowest first (DSP0248).
fn header_handle(bytes: &[u8]) -> Option<u32> {
    let (a, b) = (*bytes.get(0)?, *bytes.get(1)?);
    let (c, d) = (*bytes.get(2)?, *bytes.get(3)?);
    Some(u32::from_le_bytes([a, b, c, d]))
}

/// Adds the record's bytes with the length of those behind the header.
pub fn add_length(
    alloc: Global,
    plan: &Plan,
    node: usize,
    at: usize,
    edits: &mut Vec<Edit>,
) -> Result<(), AllocError> {
    let Some(record) = record_at(plan, node, at) else {
        return Ok(());
    };
    let length = record.bytes.len();
    if length < HEADER_LENGTH || length - HEADER_LENGTH > 0xffff {
        return Ok(());
    }
    let [low, high] = ((length - HEADER_LENGTH) as u16).to_le_bytes();
    let mut bytes = record.bytes.as_slice().to_vec(alloc)?;
    bytes[8] = low;
    bytes[9] = high;
    add(edits, node, Change::Bytes(at, bytes))
}

/// Adds the record's bytes with its handle, and the handle of its bytes.
pub fn add_header_handle(
    alloc: Global,
    plan: &Plan,
    node: usize,
    at: usize,
    handle: u32,
    edits: &mut Vec<Edit>,
) -> Result<(), AllocError> {
    if let Some(record) = record_at(plan, node, at) {
        if record.bytes.len() >= 4 {
            let mut bytes = record.handle.to_le_bytes().as_slice().to_vec(alloc)?;
            bytes.extend_from_slice(&record.bytes.as_slice()[4..])?;
            add(edits, node, Change::Bytes(at, bytes))?;
        }
    }
    add(edits, node, Change::Handle(at, handle))
}

// ---- locators

/// Adds the bytes of a terminus locator with the endpoint ID of the node that has its terminus ID, and with the
/// terminus ID of the node that has its endpoint ID.
pub fn add_locators(
    alloc: Global,
    plan: &Plan,
    node: usize,
    at: usize,
    tid: u8,
    edits: &mut Vec<Edit>,
) -> Result<(), AllocError> {
    let Some(record) = record_at(plan, node, at) else {
        return Ok(());
    };
    let bytes = record.bytes.as_slice();
    for other in 0..plan.nodes.len() {
        if let (Some(terminus), Some(eid)) = (terminus_at(plan, other), eid_at(plan, other)) {
            if terminus.tid == tid {
                let own = Change::Bytes(at, locator(alloc, bytes, tid, eid.value)?);
                add(edits, node, own)?;
            } else if bytes.last() == Some(&eid.value) {
                let own = Change::Bytes(at, locator(alloc, bytes, terminus.tid, eid.value)?);
                add(edits, node, own)?;
            }
        }
    }
    Ok(())
}

/// The bytes of the locator with this terminus ID and this endpoint ID as its value.
fn locator(alloc: Global, bytes: &[u8], tid: u8, eid: u8) -> Result<Vec<u8>, AllocError> {
    let end = bytes.len().min(VALUE_LENGTH_AT);
    let mut made = bytes[..end].to_vec(alloc)?;
    made.push(1)?;
    made.push(eid)?;
    if made.len() > TID_AT {
        made[8] = 9;
        made[9] = 0;
        made[TID_AT] = tid;
    }
    Ok(made)
}
