//! The records of a plan's termini, in the order of the certificate's places.
ghost use Rattle.std.{specs.Prelude.{◌≡◌, ◌==◌, ◌++◌, ◌<◌, ℕ, if◌then◌else◌, Some, None, IfOk, OnOk, length, map, option_map, slice_get, slice_index_or}, specs.Option.{option_and_then, option_or, option_to_list}};
ghost use Rattle.pdr_repository.specs.Records.{entries};
ghost use Rattle.net_tables.specs.Repositories.{entry_of, records_by_place};
ghost use Rattle.command_answers.specs.Ordering.{AreFirstAt};

use net_tables::lookup::{places_at, records_at};
use plan_values::{Certificate, Plan, PlannedRecord, RecordPlace};
use std::alloc::{AllocError, Global};

/// The records of a node's terminus by place, as handles and bytes; none where it has no terminus.
pub fn records_by_place(
    alloc: Global,
    plan: &Plan,
    certificate: &Certificate,
    node: usize,
) -> Result<Vec<(u32, Vec<u8>)>, AllocError>
    ensures { IfOk result (λ records. entries records.items ≡ records_by_place plan.now certificate.now node) }
{
    let listed = records_at(plan, node);
    let by_place = indices_by_place(alloc, places_at(certificate, node), listed.len())?;
    let mut ordered = Vec::with_capacity(alloc, listed.len())?;
    for place in 0..by_place.len() {
        push_record(alloc, record_in(listed, by_place[place]), &mut ordered)?;
    }
    Ok(ordered)
}

/// For each of so many places the index of the first record that is given it, in one pass over the places.
fn indices_by_place(
    alloc: Global,
    places: &[RecordPlace],
    count: usize,
) -> Result<Vec<Option<usize>>, AllocError>
    ensures { IfOk result (λ by_place. (length by_place.items ≡ count) × AreFirstAt (map (λ p. p.value) places.now) by_place.items) }
{
    let mut by_place = vec![in alloc; None; count]?;
    for (index, given) in places.iter().enumerate() {
        note_first(&mut by_place, usize::from(given.value), index);
    }
    Ok(by_place)
}

/// Notes an index for a place, if there is the place and it has none.
fn note_first(by_place: &mut [Option<usize>], place: usize, index: usize)
    ensures long { length by_place.new ≡ length by_place.old }
    ensures noted { (k : ℕ) → k < length by_place.old
        → slice_index_or by_place.new k None ≡ option_or (slice_index_or by_place.old k None) (if place == k then Some index else None) }
{
    if place < by_place.len() && by_place[place].is_none() {
        by_place[place] = Some(index);
    }
}

/// Adds a copy of the record, if there is one.
fn push_record(
    alloc: Global,
    found: Option<&PlannedRecord>,
    ordered: &mut Vec<(u32, Vec<u8>)>,
) -> Result<(), AllocError>
    ensures { OnOk result (entries ordered.new.items ≡ entries ordered.old.items ++ option_to_list (option_map (λ r. entry_of r.now) found.entry)) }
{
    if let Some(listed) = found {
        ordered.push(copy_of(alloc, listed)?)?;
    }
    Ok(())
}

/// The record that stands at an index of the list, where there is one.
fn record_in(records: &[PlannedRecord], index: Option<usize>) -> Option<&PlannedRecord>
    ensures { option_map (λ r. r.now) result ≡ option_and_then (slice_get records.now) index }
{
    records.get(index?)
}

/// A record's handle and a copy of its bytes.
fn copy_of(alloc: Global, listed: &PlannedRecord) -> Result<(u32, Vec<u8>), AllocError>
    ensures { IfOk result (λ copied. (copied.0 ≡ listed.now.handle) × (copied.1.items ≡ listed.now.bytes.items)) }
{
    let mut bytes = Vec::with_capacity(alloc, listed.bytes.len())?;
    bytes.extend_from_slice(&listed.bytes)?;
    Ok((listed.handle, bytes))
}
