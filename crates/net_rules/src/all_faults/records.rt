//! Whether a record of a node's terminus is as the rules demand.
ghost use Rattle.std.specs.Prelude.{◌≡◌, ◌≢◌, ◌<◌, ◌↔◌, ◌+◌, ◌⊎◌, ℕ, IsTrue, IfSome, Some, length, map, slice_get};
ghost use Rattle.plan_values.specs.declared.terminus.PlannedRecord.{PlannedRecord};
ghost use Rattle.net_tables.{specs.Routing.{OfItem}, specs.Repositories.{records_of, places_of, HasNewHandle, IsChained, IsHandleAt}};
ghost use Rattle.pdr_repository.specs.Records.{IsRecordOf};
ghost use Rattle.net_rules.specs.Locators.{HasOneByteAsEid, LocatesTerminus};

use crate::all_faults::locators::{has_one_byte_as_eid, locates_terminus};
use crate::holders::Holders;
use mctp_transport::Eid;
use net_tables::lookup::{places_at, record_at, records_at};
use pdr_repository::is_record;
use plan_values::{Certificate, Plan, PlannedRecord, RecordPlace};

/// Whether the record's handle is not 0, and no earlier record's.
pub fn is_handle_new(plan: &Plan, node: usize, index: usize) -> bool
    ensures { IsTrue result ↔ OfItem (records_of plan.now node) index (HasNewHandle (records_of plan.now node) index) }
{
    let records = records_at(plan, node);
    index >= records.len() || has_new_handle(records, index)
}

/// The same of a record of the list.
fn has_new_handle(records: &[PlannedRecord], index: usize) -> bool
    requires { index < length records.now }
    ensures { IsTrue result ↔ OfItem records.now index (HasNewHandle records.now index) }
{
    let handle = records[index].handle;
    handle != 0 && is_new_handle(records, index, handle)
}

/// Whether no record before this one has the handle.
fn is_new_handle(records: &[PlannedRecord], index: usize, handle: u32) -> bool
    requires { index < length records.now }
    ensures { IsTrue result ↔ ((i : ℕ) (other : PlannedRecord) → i < index → slice_get records.now i ≡ Some other → other.handle ≢ handle) }
{
    for earlier in 0..index {
        if records[earlier].handle == handle {
            return false;
        }
    }
    true
}

/// Whether the record's bytes are those of a record of its handle.
pub fn is_record_readable(plan: &Plan, node: usize, index: usize) -> bool
    ensures { IsTrue result ↔ OfItem (records_of plan.now node) index (λ r. IsRecordOf r.handle r.bytes.items) }
{
    match record_at(plan, node, index) {
        Some(listed) => is_record(listed.handle, &listed.bytes),
        None => true,
    }
}

/// Whether the record, as a terminus locator, has a value of one byte.
pub fn is_locator_of_one_byte(plan: &Plan, node: usize, index: usize) -> bool
    ensures { IsTrue result ↔ OfItem (records_of plan.now node) index HasOneByteAsEid }
{
    match record_at(plan, node, index) {
        Some(listed) => has_one_byte_as_eid(listed),
        None => true,
    }
}

/// Whether the record, as a terminus locator of this endpoint ID, locates a terminus of the plan.
pub fn does_locate(plan: &Plan, holders: &Holders<'_>, node: usize, index: usize, eid: Eid) -> bool
    requires { holders.now ≡ plan.now }
    ensures { IsTrue result ↔ OfItem (records_of plan.now node) index (λ r. LocatesTerminus plan.now r eid.value) }
{
    match record_at(plan, node, index) {
        Some(listed) => locates_terminus(plan, holders, listed, eid),
        None => true,
    }
}

/// Whether the record has a place of its own, and its next handle is that of the record at the following place.
pub fn is_record_chained(plan: &Plan, certificate: &Certificate, node: usize, index: usize) -> bool
    ensures { IsTrue result ↔ OfItem (records_of plan.now node) index (IsChained (records_of plan.now node) (places_of certificate.now node) index) }
{
    let records = records_at(plan, node);
    let places = places_at(certificate, node);
    index >= records.len() || is_chained(records, places, index)
}

/// The same of a record of the list.
fn is_chained(records: &[PlannedRecord], places: &[RecordPlace], index: usize) -> bool
    requires { index < length records.now }
    ensures { IsTrue result ↔ OfItem records.now index (IsChained records.now (map (λ p. p.value) places.now) index) }
{
    match place_of(places, index) {
        Some(place) => is_chained_at(records, places, index, place),
        None => false,
    }
}

/// The place that the record at the index is given.
fn place_of(places: &[RecordPlace], index: usize) -> Option<u16>
    ensures given { result ≡ slice_get (map (λ p. p.value) places.now) index }
    ensures within { IfSome result (λ place. place < 4096) }
{
    match places.get(index) {
        Some(place) => Some(place.value),
        None => None,
    }
}

/// Whether the record at the index, which is given the place, is the first one there, and is followed as it says.
fn is_chained_at(
    records: &[PlannedRecord],
    places: &[RecordPlace],
    index: usize,
    place: u16,
) -> bool
    requires index { index < length records.now }
    requires place { place < 4096 }
    ensures { IsTrue result ↔ ((place < length records.now) × ((i : ℕ) → i < index → slice_get (map (λ p. p.value) places.now) i ≢ Some place)
        × OfItem records.now index (λ r. IsHandleAt records.now (map (λ p. p.value) places.now) (place + 1) r.next ⊎ ((place + 1 ≡ length records.now) × (r.next ≡ 0)))) }
{
    has_own_place(records, places, index, place)
        && leads_on(records, places, place, records[index].next)
}

/// Whether the place is one of as many as there are records, and no record before this one has it.
fn has_own_place(
    records: &[PlannedRecord],
    places: &[RecordPlace],
    index: usize,
    place: u16,
) -> bool
    ensures { IsTrue result ↔ ((place < length records.now) × ((i : ℕ) → i < index → slice_get (map (λ p. p.value) places.now) i ≢ Some place)) }
{
    usize::from(place) < records.len() && is_new_place(places, index, place)
}

/// Whether no record before this one is given the place.
fn is_new_place(places: &[RecordPlace], index: usize, place: u16) -> bool
    ensures { IsTrue result ↔ ((i : ℕ) → i < index → slice_get (map (λ p. p.value) places.now) i ≢ Some place) }
{
    for earlier in 0..index {
        if is_given(places, earlier, place) {
            return false;
        }
    }
    true
}

/// Whether the handle is that of a record at the place after this one, or is 0 after the last one.
fn leads_on(records: &[PlannedRecord], places: &[RecordPlace], place: u16, next: u32) -> bool
    requires { place < 4096 }
    ensures { IsTrue result ↔ (IsHandleAt records.now (map (λ p. p.value) places.now) (place + 1) next ⊎ ((place + 1 ≡ length records.now) × (next ≡ 0))) }
{
    let following = place + 1;
    has_handle_at(records, places, following, next)
        || usize::from(following) == records.len() && next == 0
}

/// Whether a record at the place has the handle.
fn has_handle_at(records: &[PlannedRecord], places: &[RecordPlace], place: u16, handle: u32) -> bool
    ensures { IsTrue result ↔ IsHandleAt records.now (map (λ p. p.value) places.now) place handle }
{
    for index in 0..records.len() {
        if is_handle_at(records, places, index, place, handle) {
            return true;
        }
    }
    false
}

/// Whether the record at the index has the handle and is given the place.
fn is_handle_at(
    records: &[PlannedRecord],
    places: &[RecordPlace],
    index: usize,
    place: u16,
    handle: u32,
) -> bool
    requires { index < length records.now }
    ensures { IsTrue result ↔ ((r : PlannedRecord) × (slice_get records.now index ≡ Some r)
        × (slice_get (map (λ p. p.value) places.now) index ≡ Some place) × (handle ≡ r.handle)) }
{
    if records[index].handle != handle {
        return false;
    }
    is_given(places, index, place)
}

/// Whether the record at the index is given the place.
fn is_given(places: &[RecordPlace], index: usize, place: u16) -> bool
    ensures { IsTrue result ↔ (slice_get (map (λ p. p.value) places.now) index ≡ Some place) }
{
    match places.get(index) {
        Some(given) => given.value == place,
        None => false,
    }
}
