//! C12 and C13: the records of a terminus have handles of their own, and bytes that are those of a record.
ghost use Rattle.std.{specs.Prelude.{◌≡◌, ◌≢◌, ℕ, ◌<◌, ◌↔◌, true, false, IsTrue, IfOk, OnOk, Some, map, replicate, slice_get}, specs.BTreeSet.{contains, Updates}, specs.Ordering.{nat_cmp}};
ghost use Rattle.pdr_repository.specs.Records.{IsRecordOf};
ghost use Rattle.net_rules.{specs.RecordChains.{HaveNewHandles}, specs.Rules.{PlanDemands}, specs.Search.{IsFirstItem, IsFirstSpot}};
ghost use Rattle.net_tables.specs.Repositories.{HasRecords, HasNewHandle};

use crate::rule::Rule;
use crate::spot::Spot;
use net_tables::lookup::{records_at, terminus_at};
use pdr_repository::{ascend, is_record};
use plan_values::{Plan, PlannedRecord};
use std::alloc::{AllocError, Global};
use std::collections::BTreeSet;

/// How many places the list has for each record in which handles are ticked off.
const PLACES_EACH: usize = 4;

/// Where a terminus has no record, or a record's handle is 0 or an earlier record's.
pub fn unlawful_handle(alloc: Global, plan: &Plan, node: usize) -> Result<Option<Spot>, AllocError>
    ensures { IfOk result (IsFirstSpot (PlanDemands plan.now Rule.C12 node)) }
{
    if !has_records(plan, node) {
        return Ok(Some(Spot::at_node()));
    }
    let found = first_without_new_handle(alloc, records_at(plan, node))?;
    Ok(Spot::at_found(found))
}

/// Where the bytes of a record are not those of a record of its handle.
pub fn unreadable_record(plan: &Plan, node: usize) -> Option<Spot>
    ensures { IsFirstSpot (PlanDemands plan.now Rule.C13 node) result }
{
    Spot::at_found(first_unreadable(records_at(plan, node)))
}

/// Whether the node's terminus has records, if there is one.
#[tactic(auto, unfolding(net_tables::specs::Repositories::HasRecords))]
pub(crate) fn has_records(plan: &Plan, node: usize) -> bool
    ensures { IsTrue result ↔ HasRecords plan.now node }
{
    match terminus_at(plan, node) {
        Some(terminus) => !terminus.records.is_empty(),
        None => true,
    }
}

/// The first record whose handle is 0 or an earlier record's. Most lists have none, which is found without sorting
/// where the handles are small.
fn first_without_new_handle(
    alloc: Global,
    records: &[PlannedRecord],
) -> Result<Option<usize>, AllocError>
    ensures { IfOk result (IsFirstItem records.now (HasNewHandle records.now)) }
{
    if are_ticked_off_once(alloc, records)? || have_new_handles(alloc, records)? {
        return Ok(None);
    }
    first_with_old_handle(alloc, records)
}

/// Whether each handle is above 0, and is ticked off once in a list that has four places for each record. A handle past
/// its end is not looked for.
fn are_ticked_off_once(alloc: Global, records: &[PlannedRecord]) -> Result<bool, AllocError>
    ensures { IfOk result (λ once. IsTrue once → HaveNewHandles records.now) }
{
    let mut ticks = no_ticks(alloc, records.len().saturating_mul(PLACES_EACH))?;
    for record in records {
        if !can_be_ticked(&ticks, record.handle) {
            return Ok(false);
        }
        ticks[record.handle as usize] = true;
    }
    Ok(true)
}

/// `count` places that are not ticked off.
fn no_ticks(alloc: Global, count: usize) -> Result<Vec<bool>, AllocError>
    ensures { IfOk result (λ ticks. ticks.items ≡ replicate count false) }
{
    vec![in alloc; false; count]
}

/// Whether the handle is above 0, and its place is there and is not ticked off.
fn can_be_ticked(ticks: &[bool], handle: u32) -> bool
    ensures { IsTrue result ↔ ((handle ≢ 0) × (slice_get ticks.now handle ≡ Some false)) }
{
    handle != 0 && ticks.get(handle as usize) == Some(&false)
}

/// Whether no handle is 0, and no two are the same: they ascend from above 0 on, as they stand or once they are sorted.
fn have_new_handles(alloc: Global, records: &[PlannedRecord]) -> Result<bool, AllocError>
    ensures { IfOk result (λ all. IsTrue all ↔ HaveNewHandles records.now) }
{
    let mut handles = handles_of(alloc, records)?;
    if ascend(&handles) {
        return Ok(true);
    }
    handles.sort_unstable();
    Ok(ascend(&handles))
}

/// The handles of the records.
fn handles_of(alloc: Global, records: &[PlannedRecord]) -> Result<Vec<u32>, AllocError>
    ensures { IfOk result (λ handles. handles.items ≡ map (λ r. r.handle) records.now) }
{
    records.iter().map(|record| record.handle).collect(alloc)
}

/// The first record whose handle is 0 or in the set of those of earlier records.
fn first_with_old_handle(
    alloc: Global,
    records: &[PlannedRecord],
) -> Result<Option<usize>, AllocError>
    ensures { IfOk result (IsFirstItem records.now (HasNewHandle records.now)) }
{
    let mut handles = BTreeSet::new(alloc);
    for (j, record) in records.iter().enumerate() {
        let is_new = add_handle(&mut handles, record.handle)?;
        if !is_new {
            return Ok(Some(j));
        }
    }
    Ok(None)
}

/// Adds a handle to those of earlier records. Whether it is not 0 and none of them.
fn add_handle(handles: &mut BTreeSet<u32>, handle: u32) -> Result<bool, AllocError>
    ensures new { IfOk result (λ is_new. IsTrue is_new ↔ ((handle ≢ 0) × (contains nat_cmp handles.old handle ≡ false))) }
    ensures added { OnOk result (Updates nat_cmp handles.old handles.new handle true) }
{
    Ok(handles.insert(handle)? && handle != 0)
}

/// The first record whose bytes are not those of a record of its handle.
fn first_unreadable(records: &[PlannedRecord]) -> Option<usize>
    ensures { IsFirstItem records.now (λ _ r. IsRecordOf r.handle r.bytes.items) result }
{
    for (j, record) in records.iter().enumerate() {
        if !is_record(record.handle, &record.bytes) {
            return Some(j);
        }
    }
    None
}
