//! The handles of a node's records.
use crate::board::{BoardRecord, RecordContent};
use plan_values::{Node, PlannedRecord};
use std::alloc::{AllocError, Global};

/// Those that the board gives; the others count from 1, by the place in the list.
pub fn counted_handles(alloc: Global, records: &[BoardRecord]) -> Result<Vec<u32>, AllocError> {
    let mut handles = Vec::new(alloc);
    for (place, record) in records.iter().enumerate() {
        let counted = u32::try_from(place).unwrap_or(0).saturating_add(1);
        handles.push(record.handle.unwrap_or(counted))?;
    }
    Ok(handles)
}

/// Those that the board gives; of the others those that equal records of an earlier plan have, then those that records
/// of the same type have there, and for what is left the least that no record has.
pub fn kept_handles(
    alloc: Global,
    records: &[BoardRecord],
    drafts: &[Vec<u8>],
    before: Option<&Node>,
) -> Result<Vec<u32>, AllocError> {
    let mut handles = Vec::new(alloc);
    for record in records {
        handles.push(record.handle)?;
    }
    take_own(records, drafts, &mut handles);
    let old = records_of(before);
    let mut taken = vec![in alloc; false; old.len()]?;
    take_from(Likeness::Equal, old, drafts, &mut taken, &mut handles);
    take_from(Likeness::OfOneType, old, drafts, &mut taken, &mut handles);
    take_least(alloc, &handles)
}

fn records_of(before: Option<&Node>) -> &[PlannedRecord] {
    match before {
        Some(node) => match &node.terminus {
            Some(terminus) => &terminus.records,
            None => &[],
        },
        None => &[],
    }
}

/// Records of which the board gives all bytes have the handles that stand in these.
fn take_own(records: &[BoardRecord], drafts: &[Vec<u8>], handles: &mut Vec<Option<u32>>) {
    for (place, (record, draft)) in records.iter().zip(drafts).enumerate() {
        if !matches!(record.content, RecordContent::Fields { .. }) {
            take(handles, place, handle_in(draft));
        }
    }
}

/// The handle that stands in the bytes of a record, little-endian.
fn handle_in(bytes: &[u8]) -> u32 {
    match bytes {
        [a, b, c, d, ..] => u32::from_le_bytes([*a, *b, *c, *d]),
        _ => 0,
    }
}

/// Gives a record that has none a handle that no other has, and tells whether it does.
fn take(handles: &mut Vec<Option<u32>>, place: usize, handle: u32) -> bool {
    let can_have = is_open(handles, place) && handle != 0 && !is_had(handles, handle);
    if can_have && place < handles.len() {
        handles[place] = Some(handle);
    }
    can_have
}

fn is_open(handles: &[Option<u32>], place: usize) -> bool {
    match handles.get(place) {
        Some(handle) => handle.is_none(),
        None => false,
    }
}

fn is_had(handles: &[Option<u32>], handle: u32) -> bool {
    for other in handles {
        if *other == Some(handle) {
            return true;
        }
    }
    false
}

/// How much a record is like one of an earlier plan.
#[derive(Clone, Copy)]
enum Likeness {
    /// All bytes are the same but those of the handle.
    Equal,
    OfOneType,
}

/// Gives records, in their order, the handles of the first ones of an earlier plan that are like them and not taken.
fn take_from(
    likeness: Likeness,
    old: &[PlannedRecord],
    drafts: &[Vec<u8>],
    taken: &mut Vec<bool>,
    handles: &mut Vec<Option<u32>>,
) {
    for (place, draft) in drafts.iter().enumerate() {
        if is_open(handles, place) {
            take_first(likeness, old, draft, taken, handles, place);
        }
    }
}

fn take_first(
    likeness: Likeness,
    old: &[PlannedRecord],
    draft: &[u8],
    taken: &mut Vec<bool>,
    handles: &mut Vec<Option<u32>>,
    place: usize,
) {
    for (index, own) in old.iter().enumerate() {
        let is_left = taken.get(index).copied() == Some(false);
        if is_left && is_like(likeness, &own.bytes, draft) && take(handles, place, own.handle) {
            if index < taken.len() {
                taken[index] = true;
            }
            return;
        }
    }
}

fn is_like(likeness: Likeness, one: &[u8], other: &[u8]) -> bool {
    match (likeness, one, other) {
        (Likeness::Equal, [_, _, _, _, one @ ..], [_, _, _, _, other @ ..]) => one == other,
        (Likeness::OfOneType, _, _) => one.get(5) == other.get(5),
        _ => false,
    }
}

/// What each record has, or the least handle from 1 on that no other has.
fn take_least(alloc: Global, handles: &[Option<u32>]) -> Result<Vec<u32>, AllocError> {
    let mut all = Vec::new(alloc);
    let mut next = 1u32;
    for own in handles {
        all.push(match own {
            Some(handle) => *handle,
            None => least_free(handles, &mut next),
        })?;
    }
    Ok(all)
}

/// The least handle from this one on that no record has, from behind which the next one is looked for.
fn least_free(handles: &[Option<u32>], next: &mut u32) -> u32 {
    for _ in 0..handles.len() {
        if !is_had(handles, *next) {
            break;
        }
        *next = next.saturating_add(1);
    }
    let found = *next;
    *next = next.saturating_add(1);
    found
}
