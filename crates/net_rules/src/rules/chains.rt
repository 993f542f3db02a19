//! C14: the certified places lead along the next handles through all records of a terminus once.
ghost use Rattle.std.{specs.Prelude.{◌≡◌, ℕ, ◌+◌, ◌<◌, ◌≤◌, ◌↔◌, ◌⊎◌, IsTrue, IfOk, IfSome, Some, None, length, map, replicate, slice_get}, specs.BTreeSet.{IsFromIterResult, contains}};
ghost use Rattle.net_rules.{specs.Handles.{by_place_and_handle, pairs, AreFiled}, specs.RecordChains.{AreChained}, specs.Rules.{CertificateDemands}, specs.Search.{IsFirstItem, IsFirstSpot}};
ghost use Rattle.net_tables.specs.Repositories.{IsChained};

use crate::rule::Rule;
use crate::spot::Spot;
use net_tables::lookup::{places_at, records_at};
use plan_values::{Certificate, Plan, PlannedRecord, RecordPlace};
use std::alloc::{AllocError, Global};
use std::collections::BTreeSet;

/// Where a record has no place of its own, or its next handle is not that of the record at the following place.
pub fn unchained_record(
    alloc: Global,
    plan: &Plan,
    certificate: &Certificate,
    node: usize,
) -> Result<Option<Spot>, AllocError>
    ensures { IfOk result (IsFirstSpot (CertificateDemands plan.now certificate.now Rule.C14 node)) }
{
    let places = places_at(certificate, node);
    let found = first_unchained(alloc, records_at(plan, node), places)?;
    Ok(Spot::at_found(found))
}

/// The first record that has no place of its own, or whose next handle is not that of a record at the following place.
fn first_unchained(
    alloc: Global,
    records: &[PlannedRecord],
    places: &[RecordPlace],
) -> Result<Option<usize>, AllocError>
    ensures { IfOk result (IsFirstItem records.now (IsChained records.now (map (λ p. p.value) places.now))) }
{
    if are_all_chained(alloc, records, places)? {
        return Ok(None);
    }
    search_unchained(alloc, records, places)
}

/// Whether each record has a place of its own, and its next handle is that of the record at the following place. It is
/// found in two passes, by a list of the handles in the order of the places.
fn are_all_chained(
    alloc: Global,
    records: &[PlannedRecord],
    places: &[RecordPlace],
) -> Result<bool, AllocError>
    ensures { IfOk result (λ all. IsTrue all → AreChained records.now (map (λ p. p.value) places.now)) }
{
    match handles_in_order(alloc, records, places)? {
        Some(handles) => Ok(all_lead_on(records, places, &handles)),
        None => Ok(false),
    }
}

/// The handles in the order of the places, if each record has a place of its own.
fn handles_in_order(
    alloc: Global,
    records: &[PlannedRecord],
    places: &[RecordPlace],
) -> Result<Option<Vec<Option<u32>>>, AllocError>
    ensures { IfOk result (λ filed. IfSome filed (λ handles. AreFiled records.now (map (λ p. p.value) places.now) (length records.now) handles.items)) }
{
    let mut handles = no_handles(alloc, records.len())?;
    for (j, record) in records.iter().enumerate() {
        let Some(place) = places.get(j) else {
            return Ok(None);
        };
        let place = usize::from(place.value);
        if !is_free(&handles, place) {
            return Ok(None);
        }
        handles[place] = Some(record.handle);
    }
    Ok(Some(handles))
}

/// `count` places without a handle.
fn no_handles(alloc: Global, count: usize) -> Result<Vec<Option<u32>>, AllocError>
    ensures { IfOk result (λ handles. handles.items ≡ replicate count None) }
{
    vec![in alloc; None; count]
}

/// Whether there is the place, and it has no handle.
fn is_free(handles: &[Option<u32>], place: usize) -> bool
    ensures { IsTrue result ↔ (slice_get handles.now place ≡ Some None) }
{
    handles.get(place) == Some(&None)
}

/// Whether each record's next handle stands at the place after that of the record.
fn all_lead_on(records: &[PlannedRecord], places: &[RecordPlace], handles: &[Option<u32>]) -> bool
    requires { AreFiled records.now (map (λ p. p.value) places.now) (length records.now) handles.now }
    ensures { IsTrue result → AreChained records.now (map (λ p. p.value) places.now) }
{
    for (j, record) in records.iter().enumerate() {
        let Some(place) = places.get(j) else {
            return false;
        };
        if !is_followed_by(handles, place.value, record.next) {
            return false;
        }
    }
    true
}

/// Whether the next handle stands at the place after this one, or is 0 where there is none.
fn is_followed_by(handles: &[Option<u32>], place: u16, next: u32) -> bool
    ensures { IsTrue result ↔ ((slice_get handles.now (place + 1) ≡ Some (Some next)) ⊎ ((length handles.now ≤ place + 1) × (next ≡ 0))) }
{
    match handles.get(usize::from(place) + 1) {
        Some(handle) => *handle == Some(next),
        None => next == 0,
    }
}

/// The same record by sets of the places that are taken and of the handles at each, also where two records have one
/// place.
fn search_unchained(
    alloc: Global,
    records: &[PlannedRecord],
    places: &[RecordPlace],
) -> Result<Option<usize>, AllocError>
    ensures { IfOk result (IsFirstItem records.now (IsChained records.now (map (λ p. p.value) places.now))) }
{
    let handles = handles_by_place(alloc, records, places)?;
    let mut taken = BTreeSet::new(alloc);
    for (j, record) in records.iter().enumerate() {
        let Some(place) = places.get(j) else {
            return Ok(Some(j));
        };
        let is_new = taken.insert(place.value)?;
        if !is_new || !leads_on(&handles, records.len(), place.value, record.next) {
            return Ok(Some(j));
        }
    }
    Ok(None)
}

/// Each place with the handles of the records that are given it.
fn handles_by_place(
    alloc: Global,
    records: &[PlannedRecord],
    places: &[RecordPlace],
) -> Result<BTreeSet<(u16, u32)>, AllocError>
    ensures { IfOk result (IsFromIterResult by_place_and_handle (pairs places.now records.now)) }
{
    places
        .iter()
        .zip(records)
        .map(|(place, record)| (place.value, record.handle))
        .collect(alloc)
}

/// Whether the place is below `count`, and the next handle stands at the following place, or is 0 after the last one.
fn leads_on(handles: &BTreeSet<(u16, u32)>, count: usize, place: u16, next: u32) -> bool
    requires { place < 4096 }
    ensures { IsTrue result ↔ ((place < count) × (IsTrue (contains by_place_and_handle handles.now (place + 1, next)) ⊎ ((place + 1 ≡ count) × (next ≡ 0)))) }
{
    let following = place + 1;
    usize::from(place) < count
        && (handles.contains(&(following, next)) || usize::from(following) == count && next == 0)
}
