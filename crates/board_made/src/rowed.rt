//! A plan with rows, judged before it is answered.
ghost use Rattle.std.specs.Prelude.{◌≡◌, IfOk, IfSome, IsUtf8, None, string_bytes};
ghost use Rattle.plan_values.specs.PlanValues.{plan_value};
ghost use Rattle.net_plan.{specs.PlanText.{IsPlanOf}, specs.Texts.{IsJsonTextOf}};
ghost use Rattle.net_rules.specs.Certificates.{NamesObstacle, RulesOutCertificates};
ghost use Rattle.board_kept.specs.Rowed.{IsRowedFrom, IsWhole};
ghost use Rattle.board_made.{specs.Reasons.{IsRowsReason, IsUnfound}, specs.Rowed.{IsRowsAnswer, IsText}};

use crate::reasons::{lacking, no_rows_line, obstacle_reason, unfit_line, unfound, way_line_of};
use board::{Made, board_of_plan, made_plan};
use board_kept::{is_same_but_rows, is_whole, judge_rows};
use net_check::{CertifyError, CheckError, certify, check};
use net_plan::{PlanError, plan_of_text};
use plan_values::{Certificate, Plan};
use std::alloc::{AllocError, Global};

/// What is answered of a plan that is to have rows.
#[derive(Drop)]
pub enum RowsAnswer {
    /// The text of the plan with rows, judged.
    Made(String),
    /// Why no such plan can be made.
    NoPlan(String),
}

/// A plan with rows by which all its nodes reach each other, or why there is none. It keeps the rows that it has. A plan
/// of which every rule holds and whose nodes reach each other is answered by its own text.
pub fn answer_rows(alloc: Global, text: &[u8], before: &Plan) -> Result<RowsAnswer, AllocError>
    requires { IsJsonTextOf IsPlanOf text.now (plan_value before.now) }
    ensures answer { IfOk result (λ answer. IsRowsAnswer before.now answer) }
    ensures whole { IfOk result (λ answer. IsWhole before.now → IsText text.now answer) }
{
    if is_whole(alloc, before)? {
        return as_it_stands(alloc, text, before);
    }
    with_rows(alloc, before)
}

/// The text of a plan that needs no rows.
fn as_it_stands(alloc: Global, text: &[u8], before: &Plan) -> Result<RowsAnswer, AllocError>
    requires reads { IsJsonTextOf IsPlanOf text.now (plan_value before.now) }
    requires whole { IsWhole before.now }
    ensures answer { IfOk result (λ answer. IsRowsAnswer before.now answer) }
    ensures text { IfOk result (λ answer. IsText text.now answer) }
{
    Ok(RowsAnswer::Made(string_of(alloc, text)?))
}

fn string_of(alloc: Global, text: &[u8]) -> Result<String, AllocError>
    requires { IsUtf8 text.now }
    ensures { IfOk result (λ string. string_bytes string ≡ text.now) }
{
    match std::str::from_utf8(text) {
        Ok(text) => text.to_string(alloc),
        Err(_) => unreachable!(),
    }
}

/// A plan with the rows that it has and those that are made, or why there is none.
fn with_rows(alloc: Global, before: &Plan) -> Result<RowsAnswer, AllocError>
    ensures { IfOk result (λ answer. IsRowsAnswer before.now answer) }
{
    let board = board_of_plan(alloc, before)?;
    match made_plan(alloc, &board, &[], None) {
        Ok(made) => answer_made(alloc, before, made),
        Err(why) => Ok(RowsAnswer::NoPlan(no_rows_line(alloc, before, why)?)),
    }
}

/// Where no way leads from a node to another, that is told.
fn answer_made(alloc: Global, before: &Plan, made: Made) -> Result<RowsAnswer, AllocError>
    ensures { IfOk result (λ answer. IsRowsAnswer before.now answer) }
{
    match made.cut {
        Some(cut) => Ok(RowsAnswer::NoPlan(way_line_of(alloc, before, cut.from, cut.to)?)),
        None => judged(alloc, before, made.text),
    }
}

fn judged(alloc: Global, before: &Plan, made: String) -> Result<RowsAnswer, AllocError>
    ensures { IfOk result (λ answer. IsRowsAnswer before.now answer) }
{
    match plan_of_text(alloc, made.as_str().as_bytes()) {
        Ok(plan) => Ok(judged_text(alloc, before, made, &plan)?),
        Err(PlanError::OutOfMemory) => Err(AllocError),
        Err(_) => Ok(RowsAnswer::NoPlan(unfound(alloc, "text that was made reads as a plan")?)),
    }
}

fn judged_text(
    alloc: Global,
    before: &Plan,
    made: String,
    plan: &Plan,
) -> Result<RowsAnswer, AllocError>
    requires { IsJsonTextOf IsPlanOf (string_bytes made) (plan_value plan.now) }
    ensures { IfOk result (λ answer. IsRowsAnswer before.now answer) }
{
    match certify(alloc, plan) {
        Ok(certificate) => Ok(judged_with(alloc, before, made, plan, &certificate)?),
        Err(obstacle) => Ok(RowsAnswer::NoPlan(why_ruled_out(alloc, before, plan, &obstacle)?)),
    }
}

/// What rules certificates of a plan out, where the plan is the given one but for its rows.
fn why_ruled_out(
    alloc: Global,
    before: &Plan,
    plan: &Plan,
    obstacle: &CertifyError,
) -> Result<String, AllocError>
    requires names { NamesObstacle plan.now obstacle.now }
    requires none { RulesOutCertificates plan.now obstacle.now }
    ensures { IfOk result (λ reason. IsRowsReason before.now (string_bytes reason)) }
{
    if is_same_but_rows(before, plan) {
        Ok(obstacle_reason(alloc, None, plan, obstacle)?)
    } else {
        Ok(lacking(alloc)?)
    }
}

fn judged_with(
    alloc: Global,
    before: &Plan,
    made: String,
    plan: &Plan,
    certificate: &Certificate,
) -> Result<RowsAnswer, AllocError>
    requires { IsJsonTextOf IsPlanOf (string_bytes made) (plan_value plan.now) }
    ensures { IfOk result (λ answer. IsRowsAnswer before.now answer) }
{
    match why_unfit(alloc, before, plan, certificate)? {
        Some(reason) => Ok(RowsAnswer::NoPlan(reason)),
        None => Ok(RowsAnswer::Made(made)),
    }
}

/// Why a plan with its certificate is not the given one with rows; none where it is.
fn why_unfit(
    alloc: Global,
    before: &Plan,
    plan: &Plan,
    certificate: &Certificate,
) -> Result<Option<String>, AllocError>
    ensures rowed { IfOk result (λ why. why ≡ None → IsRowedFrom before.now plan.now certificate.now) }
    ensures reason { IfOk result (λ why. IfSome why (λ reason. IsUnfound (string_bytes reason))) }
{
    match check(alloc, plan, certificate) {
        Ok(checked) => match judge_rows(alloc, before, &checked) {
            Ok(()) => Ok(None),
            Err(unfit) => Ok(Some(unfit_line(alloc, None, plan, unfit)?)),
        },
        Err(CheckError::Fault(_)) => Ok(Some(unfound(
            alloc,
            "certificate that was made meets every rule",
        )?)),
        Err(CheckError::OutOfMemory) => Err(AllocError),
    }
}
