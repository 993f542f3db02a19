//! The bad chains of records.
ghost use Rattle.std.specs.Prelude.{◌≡◌, ◌+◌, ◌<◌, ◌↔◌, IfOk, IsTrue, OnOk, MatchOption, None, length, map};
ghost use Rattle.net_rules.{specs.Search.{IsFirstItem}, specs.Circles.{HasNoCircle, IsLeastOnCircle}, specs.RecordChains.{HasNext, HasNewNext, IsFollowedBy}};
ghost use Rattle.net_faults.{specs.Chains.{IsChainFault, IsIndexOf, found_in}, specs.PlanFaults.{AreBadChains, AreBadChainsBefore}};
ghost use Rattle.net_tables.specs.Routing.{OfItem};

use crate::circles::{first_on_circle, heights_fall, next_of};
use crate::key_index::{KeyIndex, index_of};
use crate::plan_fault::PlanFault;
use net_rules::{CertifyError, ChainFault};
use net_tables::lookup::records_at;
use plan_values::{Plan, PlannedRecord};
use std::alloc::{AllocError, Global};

/// What is wrong with the chain of each node's records, in plan order.
pub fn bad_chains(alloc: Global, plan: &Plan) -> Result<Vec<PlanFault>, AllocError>
    ensures { IfOk result (λ chains. AreBadChains plan.now chains.items) }
{
    let mut chains = Vec::new(alloc);
    for node in 0..plan.nodes.len() {
        add_chain(alloc, plan, node, &mut chains)?;
    }
    Ok(chains)
}

/// Adds what is wrong with the chain of a node's records, if anything is.
fn add_chain(
    alloc: Global,
    plan: &Plan,
    node: usize,
    chains: &mut Vec<PlanFault>,
) -> Result<(), AllocError>
    requires { AreBadChainsBefore plan.now node chains.old.items }
    ensures { OnOk result (AreBadChainsBefore plan.now (node + 1) chains.new.items) }
{
    let Some((kind, entry)) = chain_fault(alloc, records_at(plan, node))? else {
        return Ok(());
    };
    chains.push(PlanFault::Obstacle(CertifyError::BadChain(node, kind, entry), 0))?;
    Ok(())
}

/// What is wrong with the chain of the records, if anything, and of which of them it is told.
fn chain_fault(
    alloc: Global,
    records: &[PlannedRecord],
) -> Result<Option<(ChainFault, usize)>, AllocError>
    ensures { IfOk result (IsChainFault records.now) }
{
    let handles = handles_of(alloc, records)?;
    if let Some(record) = first_missing(records, &handles) {
        return Ok(Some((ChainFault::Missing, record)));
    }
    let nexts = nexts_of(alloc, records)?;
    if let Some(record) = first_doubled(records, &nexts) {
        return Ok(Some((ChainFault::Doubled, record)));
    }
    match first_circling(alloc, records, &nexts)? {
        Some(record) => Ok(Some((ChainFault::Circle, record))),
        None => Ok(None),
    }
}

/// The first record of each next handle.
fn nexts_of(alloc: Global, records: &[PlannedRecord]) -> Result<KeyIndex, AllocError>
    ensures { IfOk result (IsIndexOf (map (λ r. r.next) records.now)) }
{
    let nexts: Vec<u32> = records.iter().map(|record| record.next).collect(alloc)?;
    index_of(alloc, &nexts)
}

/// The first record of each handle.
fn handles_of(alloc: Global, records: &[PlannedRecord]) -> Result<KeyIndex, AllocError>
    ensures { IfOk result (IsIndexOf (map (λ r. r.handle) records.now)) }
{
    let handles: Vec<u32> = records.iter().map(|record| record.handle).collect(alloc)?;
    index_of(alloc, &handles)
}

/// The first record whose next handle is neither 0 nor a record's handle.
fn first_missing(records: &[PlannedRecord], handles: &KeyIndex) -> Option<usize>
    requires { IsIndexOf (map (λ r. r.handle) records.now) handles.now }
    ensures { IsFirstItem records.now (λ _ r. HasNext records.now r) result }
{
    for j in 0..records.len() {
        if !has_next(records, handles, j) {
            return Some(j);
        }
    }
    None
}

/// Whether the record's next handle is 0 or a record's handle.
fn has_next(records: &[PlannedRecord], handles: &KeyIndex, j: usize) -> bool
    requires within { j < length records.now }
    requires handles { IsIndexOf (map (λ r. r.handle) records.now) handles.now }
    ensures { IsTrue result ↔ OfItem records.now j (HasNext records.now) }
{
    let next = records[j].next;
    if next == 0 {
        return true;
    }
    handles.get(next).is_some()
}

/// The first record whose next handle is an earlier record's.
fn first_doubled(records: &[PlannedRecord], nexts: &KeyIndex) -> Option<usize>
    requires { IsIndexOf (map (λ r. r.next) records.now) nexts.now }
    ensures { IsFirstItem records.now (HasNewNext records.now) result }
{
    for j in 0..records.len() {
        if !has_new_next(records, nexts, j) {
            return Some(j);
        }
    }
    None
}

/// Whether the record's next handle is no earlier record's.
fn has_new_next(records: &[PlannedRecord], nexts: &KeyIndex, j: usize) -> bool
    requires within { j < length records.now }
    requires nexts { IsIndexOf (map (λ r. r.next) records.now) nexts.now }
    ensures { IsTrue result ↔ OfItem records.now j (HasNewNext records.now j) }
{
    match nexts.get(records[j].next) {
        Some(first) => first == j,
        None => false,
    }
}

/// The first record from which the next handles lead back to itself. It is looked for back along them, where at most
/// one record leads to each.
fn first_circling(
    alloc: Global,
    records: &[PlannedRecord],
    nexts: &KeyIndex,
) -> Result<Option<usize>, AllocError>
    requires nexts { IsIndexOf (map (λ r. r.next) records.now) nexts.now }
    requires apart { IsFirstItem records.now (HasNewNext records.now) None }
    ensures { IfOk result (λ found. MatchOption found (HasNoCircle (IsFollowedBy records.now)) (IsLeastOnCircle (IsFollowedBy records.now))) }
{
    let before = befores_of(alloc, records, nexts)?;
    let heights = heights_of(alloc, &before, nexts.get(0))?;
    if heights_fall(&before, &heights) {
        return Ok(None);
    }
    Ok(first_on_circle(alloc, &before)?)
}

/// For each record the one that has its handle as its next one.
fn befores_of(
    alloc: Global,
    records: &[PlannedRecord],
    nexts: &KeyIndex,
) -> Result<Vec<Option<usize>>, AllocError>
    ensures { IfOk result (λ before. before.items ≡ map (λ r. found_in nexts.now r.handle) records.now) }
{
    let mut before = Vec::new(alloc);
    for record in records {
        before.push(nexts.get(record.handle))?;
    }
    Ok(before)
}

/// Heights that fall along a chain from its last record back to its first. Whether they fall everywhere is for
/// `heights_fall` to say.
fn heights_of(
    alloc: Global,
    before: &[Option<usize>],
    last: Option<usize>,
) -> Result<Vec<usize>, AllocError> {
    let mut heights: Vec<usize> = vec![in alloc; 0; before.len()]?;
    let mut at = last;
    for height in (0..before.len()).rev() {
        match at {
            Some(record) if record < heights.len() => {
                heights[record] = height;
                at = next_of(before, record);
            }
            _ => return Ok(heights),
        }
    }
    Ok(heights)
}
