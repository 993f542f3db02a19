//! The chain that the next handles of a terminus's records make, or what is wrong with it.
ghost use Rattle.std.specs.Prelude.{◌≡◌, ◌<◌, ◌≤◌, ◌↔◌, IsTrue, IfOk, length, map, replicate};
ghost use Rattle.net_tables.specs.Routing.{OfItem};
ghost use Rattle.net_rules.{specs.Search.{IsFirstItem}, specs.RecordChains.{HasNext, HasNewNext, HaveNewHandles, IsChainOf, IsIndexOf, AreLinked, AreFromTheEnd}};

use crate::certifying::handle_index::{HandleIndex, first_at, index_of};
use plan_values::{PlannedRecord, RecordPlace};
use std::alloc::{AllocError, Global};

/// What is wrong with a chain of records. It is told of the first record of the list of which it is so.
#[derive(Clone, Copy, Debug, PartialEq, Eq)]
pub enum ChainFault {
    /// The record's next handle is neither 0 nor a record's handle.
    Missing,
    /// The record's next handle, 0 too, is an earlier record's.
    Doubled,
    /// The next handles lead from the record back to itself.
    Circle,
}

impl ChainFault {
    ghost use Rattle.std.specs.Prelude.{◌≡◌};
    ghost use Rattle.net_rules.specs.RecordChains.{chain_word_of};

    /// What is wrong, in the word that users see.
    pub fn word(self) -> &'static str
        ensures { result.now ≡ chain_word_of self }
    {
        match self {
            ChainFault::Missing => "missing",
            ChainFault::Doubled => "doubled",
            ChainFault::Circle => "circle",
        }
    }
}

/// The places of records along their chain, or what is wrong with it.
#[derive(Debug, Drop)]
pub enum Chained {
    /// For each record, in the order of the list, its place.
    Places(Vec<RecordPlace>),
    /// There are no places: what is wrong, and the index of the record in the list.
    Bad(ChainFault, usize),
}

/// The places of the records along their next handles, or what is wrong with these.
pub fn chain_of(alloc: Global, records: &[PlannedRecord]) -> Result<Chained, AllocError>
    requires few { length records.now ≤ 4096 }
    requires handles { HaveNewHandles records.now }
    ensures { IfOk result (IsChainOf records.now) }
{
    let handles = handles_of(alloc, records)?;
    if let Some(record) = first_missing(records, &handles) {
        return Ok(Chained::Bad(ChainFault::Missing, record));
    }
    let nexts = nexts_of(alloc, records)?;
    if let Some(record) = first_doubled(records, &nexts) {
        return Ok(Chained::Bad(ChainFault::Doubled, record));
    }
    let places = places_from_the_end(alloc, records, &nexts)?;
    all_places(alloc, records, &places)
}

/// The record of each handle.
fn handles_of(alloc: Global, records: &[PlannedRecord]) -> Result<HandleIndex, AllocError>
    ensures { IfOk result (IsIndexOf (map (λ r. r.handle) records.now)) }
{
    let handles: Vec<u32> = records.iter().map(|record| record.handle).collect(alloc)?;
    index_of(alloc, &handles)
}

/// The first record of each next handle.
fn nexts_of(alloc: Global, records: &[PlannedRecord]) -> Result<HandleIndex, AllocError>
    ensures { IfOk result (IsIndexOf (map (λ r. r.next) records.now)) }
{
    let nexts: Vec<u32> = records.iter().map(|record| record.next).collect(alloc)?;
    index_of(alloc, &nexts)
}

/// The first record whose next handle is neither 0 nor a record's handle.
fn first_missing(records: &[PlannedRecord], handles: &HandleIndex) -> Option<usize>
    requires { IsIndexOf (map (λ r. r.handle) records.now) handles.now }
    ensures { IsFirstItem records.now (λ _ r. HasNext records.now r) result }
{
    for j in 0..records.len() {
        if !has_next(records, handles, j) {
            return Some(j);
        }
    }
    None
}

/// Whether the record's next handle is 0 or a record's handle.
fn has_next(records: &[PlannedRecord], handles: &HandleIndex, j: usize) -> bool
    requires within { j < length records.now }
    requires handles { IsIndexOf (map (λ r. r.handle) records.now) handles.now }
    ensures { IsTrue result ↔ OfItem records.now j (HasNext records.now) }
{
    let next = records[j].next;
    if next == 0 {
        return true;
    }
    first_at(handles, next).is_some()
}

/// The first record whose next handle is an earlier record's.
fn first_doubled(records: &[PlannedRecord], nexts: &HandleIndex) -> Option<usize>
    requires { IsIndexOf (map (λ r. r.next) records.now) nexts.now }
    ensures { IsFirstItem records.now (HasNewNext records.now) result }
{
    for j in 0..records.len() {
        if !has_new_next(records, nexts, j) {
            return Some(j);
        }
    }
    None
}

/// Whether the record's next handle is no earlier record's.
fn has_new_next(records: &[PlannedRecord], nexts: &HandleIndex, j: usize) -> bool
    requires within { j < length records.now }
    requires nexts { IsIndexOf (map (λ r. r.next) records.now) nexts.now }
    ensures { IsTrue result ↔ OfItem records.now j (HasNewNext records.now j) }
{
    match first_at(nexts, records[j].next) {
        Some(first) => first == j,
        None => false,
    }
}

/// The places of the records from which the next handles lead to the end of the chain: from the last place down, each
/// of the record before.
fn places_from_the_end(
    alloc: Global,
    records: &[PlannedRecord],
    nexts: &HandleIndex,
) -> Result<Vec<Option<usize>>, AllocError>
    requires linked { AreLinked records.now }
    requires nexts { IsIndexOf (map (λ r. r.next) records.now) nexts.now }
    ensures { IfOk result (λ places. AreFromTheEnd records.now places.items) }
{
    let mut places = no_places(alloc, records.len())?;
    let mut next = 0;
    for place in (0..records.len()).rev() {
        match first_at(nexts, next) {
            Some(record) => {
                places[record] = Some(place);
                next = handle_at(records, record);
            }
            None => return Ok(places),
        }
    }
    Ok(places)
}

/// `count` records without a place.
fn no_places(alloc: Global, count: usize) -> Result<Vec<Option<usize>>, AllocError>
    ensures { IfOk result (λ places. places.items ≡ replicate count None) }
{
    vec![in alloc; None; count]
}

/// The record's handle.
fn handle_at(records: &[PlannedRecord], j: usize) -> u32
    requires { j < length records.now }
    ensures { OfItem records.now j (λ r. result ≡ r.handle) }
{
    records[j].handle
}

/// The places, if each record has one.
fn all_places(
    alloc: Global,
    records: &[PlannedRecord],
    places: &[Option<usize>],
) -> Result<Chained, AllocError>
    requires few { length records.now ≤ 4096 }
    requires linked { AreLinked records.now }
    requires given { AreFromTheEnd records.now places.now }
    ensures { IfOk result (IsChainOf records.now) }
{
    let mut all = Vec::new(alloc);
    for (record, place) in places.iter().enumerate() {
        match place {
            Some(place) => all.push(RecordPlace {
                value: *place as u16,
            })?,
            None => return Ok(Chained::Bad(ChainFault::Circle, record)),
        }
    }
    Ok(Chained::Places(all))
}
