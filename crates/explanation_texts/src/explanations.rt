//! What the command `explain` prints below its first line.
ghost use Rattle.std.{specs.Prelude.{◌≡◌, ◌==◌, IfOk, Some, position, string_bytes}, specs.List.{flat_map}};
ghost use Rattle.net_rules.{specs.Certificates.{NamesObstacle}, specs.Circles.{IsOnCircle}, specs.RecordChains.{HaveNewHandles, IsBadChain, IsFollowedBy}};
ghost use Rattle.net_tables.{specs.Repositories.{records_of}, specs.Routing.{rows_of}};
ghost use Rattle.explanation_texts.{specs.Explanations.{IsNamedOf, IsNamedOfChain, IsNamedOfCircle, IsNamedOfFault, IsObstacleTold, around, covers_eid, doubled_subjects, missing_subjects, next_handle, owner_subjects, record_before, record_subjects, row_for, told_subjects, way_subjects}, specs.Pieces.{Tells, entry_at, subjects}};

use crate::causes::cause_pieces;
use crate::lookups::record_of;
use crate::pieces::Piece::{
    At, Given, Handle, Name, NextHandle, OwnerName, RowAddress, RowBus, RowNext, RowPort,
};
use crate::pieces::{Entry, Piece, entry_at, render, told};
use mctp_transport::Eid;
use net_explained::{Cause, circle_from, find_cause};
use net_rules::{CertifyError, ChainFault, Fault};
use net_tables::lookup::{records_at, rows_at};
use plan_values::{Plan, PlannedRecord, Row};
use std::alloc::{AllocError, Global};

/// Explains what rules certificates of a plan out.
pub fn obstacle_lines(
    alloc: Global,
    plan: &Plan,
    obstacle: &CertifyError,
) -> Result<String, AllocError>
    requires { NamesObstacle plan.now obstacle.now }
    ensures { IfOk result (λ text. IsObstacleTold plan.now obstacle.now (string_bytes text)) }
{
    let pieces = obstacle_pieces(alloc, plan, obstacle)?;
    render(alloc, plan, &pieces)
}

fn obstacle_pieces(
    alloc: Global,
    plan: &Plan,
    obstacle: &CertifyError,
) -> Result<Vec<Piece>, AllocError>
    requires { NamesObstacle plan.now obstacle.now }
    ensures { IfOk result (λ pieces. IsNamedOf plan.now obstacle.now (subjects pieces.items)) }
{
    match obstacle {
        CertifyError::Fault(fault) => fault_pieces(alloc, plan, fault),
        CertifyError::OwnerLoop(nodes) => owners_pieces(alloc, around(nodes)),
        CertifyError::Loop(eid, nodes) => ways_pieces(alloc, plan, *eid, around(nodes)),
        CertifyError::BadChain(node, kind, entry) => {
            chain_pieces(alloc, plan, *node, *kind, *entry)
        }
        CertifyError::OutOfMemory => Err(AllocError),
    }
}

// ---- faults

/// Tells a cause of a fault.
pub fn cause_lines(
    alloc: Global,
    plan: &Plan,
    fault: &Fault,
    cause: Cause,
) -> Result<String, AllocError>
    ensures { IfOk result (λ text. Tells plan.now (told_subjects plan.now fault.now (Some cause)) (string_bytes text)) }
{
    let pieces = cause_pieces(alloc, plan, fault, cause)?;
    render(alloc, plan, &pieces)
}

/// The cause of a fault, if the plan itself breaks the rule.
fn fault_pieces(alloc: Global, plan: &Plan, fault: &Fault) -> Result<Vec<Piece>, AllocError>
    ensures { IfOk result (λ pieces. IsNamedOfFault plan.now fault.now (subjects pieces.items)) }
{
    match find_cause(plan, fault) {
        Some(cause) => cause_pieces(alloc, plan, fault, cause),
        None => Ok(Vec::new(alloc)),
    }
}

// ---- loops

/// The nodes of a loop, each once: its list ends with the first node again.
pub fn around(nodes: &[usize]) -> &[usize]
    ensures { result.now ≡ around nodes.now }
{
    if nodes.is_empty() {
        nodes
    } else {
        &nodes[..nodes.len() - 1]
    }
}

/// How each node sends what is for the endpoint ID, a line a node.
fn ways_pieces(
    alloc: Global,
    plan: &Plan,
    eid: Eid,
    nodes: &[usize],
) -> Result<Vec<Piece>, AllocError>
    ensures { IfOk result (λ pieces. subjects pieces.items ≡ flat_map (λ n. way_subjects (row_for plan.now eid.value n)) nodes.now) }
{
    let mut pieces = Vec::new(alloc);
    for &node in nodes {
        pieces.extend_from_slice(&way_pieces(alloc, row_for(plan, eid, node))?)?;
    }
    Ok(pieces)
}

/// How a node sends by a row: port, bus, address and next node.
fn way_pieces(alloc: Global, at: Entry) -> Result<Vec<Piece>, AllocError>
    ensures { IfOk result (λ pieces. subjects pieces.items ≡ way_subjects at) }
{
    told!(alloc; "Row " {At(at)} ": port " {RowPort(at)} " bus " {RowBus(at)} " address " {RowAddress(at)} " to "
        {RowNext(at)} "\n")
}

/// The first of a node's rows that covers the endpoint ID.
fn row_for(plan: &Plan, eid: Eid, node: usize) -> Entry
    ensures { result ≡ row_for plan.now eid.value node }
{
    let index = index_for(plan, eid, node);
    Entry { node, index }
}

/// The index of the first of a node's rows that covers the endpoint ID, if one does.
pub fn index_for(plan: &Plan, eid: Eid, node: usize) -> Option<usize>
    ensures { result ≡ position (covers_eid eid.value) (rows_of plan.now node) }
{
    rows_at(plan, node)
        .iter()
        .position(|row| covers_eid(row, eid))
}

/// Whether the endpoint ID is one of the row's.
fn covers_eid(row: &Row, eid: Eid) -> bool
    ensures { result ≡ covers_eid eid.value row.now }
{
    row.first.value <= eid.value
        && u16::from(eid.value) < u16::from(row.first.value) + u16::from(row.size)
}

// ---- owners

/// The owner of each node, a line a node.
fn owners_pieces(alloc: Global, nodes: &[usize]) -> Result<Vec<Piece>, AllocError>
    ensures { IfOk result (λ pieces. subjects pieces.items ≡ flat_map owner_subjects nodes.now) }
{
    let mut pieces = Vec::new(alloc);
    for &node in nodes {
        pieces.extend_from_slice(&owner_pieces(alloc, node)?)?;
    }
    Ok(pieces)
}

fn owner_pieces(alloc: Global, node: usize) -> Result<Vec<Piece>, AllocError>
    ensures { IfOk result (λ pieces. subjects pieces.items ≡ owner_subjects node) }
{
    told!(alloc; "The owner of " {Name(node)} " is " {OwnerName(node)} ".\n")
}

// ---- chains

/// Where a bad chain of records goes.
fn chain_pieces(
    alloc: Global,
    plan: &Plan,
    node: usize,
    kind: ChainFault,
    index: usize,
) -> Result<Vec<Piece>, AllocError>
    requires handles { HaveNewHandles (records_of plan.now node) }
    requires bad { IsBadChain (records_of plan.now node) kind index }
    ensures { IfOk result (λ pieces. IsNamedOfChain plan.now node kind index (subjects pieces.items)) }
{
    match kind {
        ChainFault::Missing => missing_pieces(alloc, node, index),
        ChainFault::Doubled => doubled_pieces(alloc, plan, node, index),
        ChainFault::Circle => circle_pieces(alloc, plan, node, index),
    }
}

/// A record whose next handle no record has.
fn missing_pieces(alloc: Global, node: usize, index: usize) -> Result<Vec<Piece>, AllocError>
    ensures { IfOk result (λ pieces. subjects pieces.items ≡ missing_subjects node index) }
{
    let at = entry_at(node, index);
    told!(alloc; "Record " {At(at)} " has next handle " {NextHandle(at)} ".\nNo record has that handle.\n")
}

/// A record whose next handle an earlier record has too.
fn doubled_pieces(
    alloc: Global,
    plan: &Plan,
    node: usize,
    index: usize,
) -> Result<Vec<Piece>, AllocError>
    ensures { IfOk result (λ pieces. subjects pieces.items ≡ doubled_subjects plan.now node index) }
{
    let at = entry_at(node, index);
    let earlier = record_before(plan, node, next_handle(plan, at));
    told!(alloc; "Records " {Given(earlier)} " and " {At(at)} " both have next handle " {NextHandle(at)} ".\n")
}

/// The next handle of a record.
fn next_handle(plan: &Plan, at: Entry) -> Option<u32>
    ensures { result ≡ next_handle plan.now at }
{
    Some(record_of(plan, at)?.next)
}

/// The first record of a node that has this next handle, if one has it.
fn record_before(plan: &Plan, node: usize, next: Option<u32>) -> Option<usize>
    ensures { result ≡ record_before plan.now node next }
{
    match next {
        Some(next) => first_leading_to(records_at(plan, node), next),
        None => None,
    }
}

/// The first of the records that has this next handle, if one has it.
fn first_leading_to(records: &[PlannedRecord], next: u32) -> Option<usize>
    ensures { result ≡ position (λ r. r.next == next) records.now }
{
    records.iter().position(|record| record.next == next)
}

/// The way round the circle of a record, a line a record.
fn circle_pieces(
    alloc: Global,
    plan: &Plan,
    node: usize,
    index: usize,
) -> Result<Vec<Piece>, AllocError>
    requires handles { HaveNewHandles (records_of plan.now node) }
    requires circle { IsOnCircle (IsFollowedBy (records_of plan.now node)) index }
    ensures { IfOk result (λ pieces. IsNamedOfCircle plan.now node index (subjects pieces.items)) }
{
    let circle = circle_from(alloc, records_at(plan, node), index)?;
    let pieces = records_pieces(alloc, node, around(&circle))?;
    Ok(pieces)
}

/// The handle and the next handle of each of these records.
fn records_pieces(alloc: Global, node: usize, records: &[usize]) -> Result<Vec<Piece>, AllocError>
    ensures { IfOk result (λ pieces. subjects pieces.items ≡ flat_map (λ j. record_subjects (entry_at node j)) records.now) }
{
    let mut pieces = Vec::new(alloc);
    for &index in records {
        pieces.extend_from_slice(&record_pieces(alloc, entry_at(node, index))?)?;
    }
    Ok(pieces)
}

fn record_pieces(alloc: Global, at: Entry) -> Result<Vec<Piece>, AllocError>
    ensures { IfOk result (λ pieces. subjects pieces.items ≡ record_subjects at) }
{
    told!(alloc; "Record " {At(at)} ": handle " {Handle(at)} " next " {NextHandle(at)} "\n")
}
