//! What the command `explain` tells of a certificate that breaks a rule.
ghost use Rattle.std.specs.Prelude.{◌≡◌, IfOk, option_map, string_bytes};
ghost use Rattle.net_tables.{specs.Routing.{eid_number}, specs.Ownership.{owner_of}};
ghost use Rattle.explanation_texts.{specs.CertificateSubjects.{certificate_subjects, next_of, owner_level, rank_at, rank_subjects, unowned_subjects, useless_subjects}, specs.Pieces.{Tells, subjects}};

use crate::causes::{eid_of_fault, entry_of};
use crate::lookups::row_of;
use crate::pieces::Piece::{At, Given, Name, Number, OwnerName, RowNext};
use crate::pieces::{Entry, Piece, render, told};
use mctp_transport::Eid;
use net_explained::rank_of;
use net_rules::{Fault, Rule};
use net_tables::lookup::{given_level_of, holds, level_of, owner_at, places_at, records_at};
use plan_values::{Certificate, Plan};
use std::alloc::{AllocError, Global};

/// Tells what the certificate gives by which it breaks the rule of a fault.
pub fn certificate_fault_lines(
    alloc: Global,
    plan: &Plan,
    certificate: &Certificate,
    fault: &Fault,
) -> Result<String, AllocError>
    ensures { IfOk result (λ text. Tells plan.now (certificate_subjects plan.now certificate.now fault.now) (string_bytes text)) }
{
    let pieces = certificate_pieces(alloc, plan, certificate, fault)?;
    render(alloc, plan, &pieces)
}

fn certificate_pieces(
    alloc: Global,
    plan: &Plan,
    certificate: &Certificate,
    fault: &Fault,
) -> Result<Vec<Piece>, AllocError>
    ensures { IfOk result (λ pieces. subjects pieces.items ≡ certificate_subjects plan.now certificate.now fault.now) }
{
    let node = fault.node;
    match fault.rule {
        Rule::C07 => told!(alloc; "The level of " {Name(node)} " is "
            {Number(usize::from(level_of(plan, certificate, node)))} ".\nThat of its owner, " {OwnerName(node)} ", is "
            {Given(owner_level(plan, certificate, node))} "; it has to be less.\n"),
        Rule::C10 => rank_pieces(alloc, plan, certificate, entry_of(fault), fault.eid),
        Rule::C14 =>
            told!(alloc; "The places of " {Name(node)} " don't follow its next handles at record "
            {Given(fault.entry)} ".\n"),
        Rule::C16 => useless_pieces(alloc, plan, certificate, node, fault.eid),
        _ => Ok(Vec::new(alloc)),
    }
}

/// The level of a node's owner, if it has one.
fn owner_level(plan: &Plan, certificate: &Certificate, node: usize) -> Option<usize>
    ensures { result ≡ owner_level plan.now certificate.now node }
{
    Some(usize::from(level_of(plan, certificate, owner_at(plan, node)?)))
}

/// Where a row leads an endpoint ID, and the ranks here and there.
fn rank_pieces(
    alloc: Global,
    plan: &Plan,
    certificate: &Certificate,
    at: Entry,
    eid: Option<Eid>,
) -> Result<Vec<Piece>, AllocError>
    ensures { IfOk result (λ pieces. subjects pieces.items ≡ rank_subjects plan.now certificate.now at (eid_number eid)) }
{
    let rank = Given(rank_at(certificate, Some(at.node), eid));
    let next_rank = Given(rank_at(certificate, next_of(plan, at), eid));
    told!(alloc; "Row " {At(at)} " leads " {Given(number_of(eid))} " to " {RowNext(at)} ".\nThe rank must fall: "
        {Name(at.node)} " " {rank} ", " {RowNext(at)} " " {next_rank} ".\n")
}

/// The node to which a row leads.
fn next_of(plan: &Plan, at: Entry) -> Option<usize>
    ensures { result ≡ next_of plan.now at }
{
    Some(row_of(plan, at)?.next)
}

/// The number of an endpoint ID.
fn number_of(eid: Option<Eid>) -> Option<usize>
    ensures { result ≡ eid_number eid }
{
    Some(usize::from(eid?.value))
}

/// The rank of a node for an endpoint ID, where both are there.
fn rank_at(certificate: &Certificate, node: Option<usize>, eid: Option<Eid>) -> Option<usize>
    ensures { result ≡ rank_at certificate.now node (eid_number eid) }
{
    match (node, eid) {
        (Some(node), Some(eid)) => Some(usize::from(rank_of(certificate, node, eid))),
        _ => None,
    }
}

/// What a certificate gives a node that has no need of it.
fn useless_pieces(
    alloc: Global,
    plan: &Plan,
    certificate: &Certificate,
    node: usize,
    eid: Option<Eid>,
) -> Result<Vec<Piece>, AllocError>
    ensures { IfOk result (λ pieces. subjects pieces.items ≡ useless_subjects plan.now certificate.now node (eid_number eid)) }
{
    match eid {
        Some(eid) if holds(plan, node, eid) => told!(alloc; {Name(node)} " has endpoint ID "
            {Number(usize::from(eid.value))} " itself, so no rank for it.\n"),
        Some(eid) => told!(alloc; {Name(node)} " has no row for " {Number(usize::from(eid.value))}
            ", so no rank for it.\n"),
        None => unowned_pieces(alloc, plan, certificate, node),
    }
}

/// A level without an owner, or places without records.
fn unowned_pieces(
    alloc: Global,
    plan: &Plan,
    certificate: &Certificate,
    node: usize,
) -> Result<Vec<Piece>, AllocError>
    ensures { IfOk result (λ pieces. subjects pieces.items ≡ unowned_subjects plan.now certificate.now node (owner_of plan.now node)) }
{
    let level = given_level_of(certificate, node);
    match owner_at(plan, node) {
        None if level != 0 =>
            told!(alloc; {Name(node)} " has no owner, so no level; the certificate gives it "
            {Number(usize::from(level))} ".\n"),
        _ =>
            told!(alloc; "The records of " {Name(node)} " are " {Number(records_at(plan, node).len())}
            "; the certificate gives " {Number(places_at(certificate, node).len())} " places.\n"),
    }
}
