//! A plan that was made, judged before it is answered.
ghost use Rattle.std.specs.Prelude.{◌≡◌, IfOk, IfSome, None, string_bytes};
ghost use Rattle.toml.specs.View.{view};
ghost use Rattle.plan_values.{specs.CertificateValues.{certificate_value}, specs.PlanValues.{plan_value}, specs.WellFormed.{IsWellFormed}};
ghost use Rattle.net_plan.{specs.PlanText.{IsPlanOf}, specs.Texts.{IsJsonTextOf}};
ghost use Rattle.net_rules.specs.Certificates.{IsExact, NamesObstacle, RulesOutCertificates};
ghost use Rattle.board_kept.specs.Made.{IsFitFor};
ghost use Rattle.board_made.{specs.Made.{IsAnswerFor, IsCertificateText}, specs.Reasons.{IsReason, IsUnfound, IsWayLine}};

use crate::answer::{BoardAnswer, MadePlan};
use crate::reasons::{lacking, obstacle_reason, unfit_line, unfound, way_line};
use board::{Board, Cut, Made, RecordFile};
use board_kept::{judge, keeps};
use board_values::is_cut_off;
use net_check::{CertifyError, CheckError, certify, check};
use net_plan::{PlanError, plan_of_text, text_of_certificate};
use plan_values::{Certificate, Plan};
use std::alloc::{AllocError, Global};
use toml::Value;

/// The plan that was made of a board, where it is fit for it, or why there is none. `given` is what was read of the
/// board.
pub fn judged(
    alloc: Global,
    text: &str,
    files: &[RecordFile],
    board: &Value,
    given: &Board,
    made: Made,
) -> Result<BoardAnswer, AllocError>
    ensures { IfOk result (λ answer. IsAnswerFor files.now (view board.now) answer) }
{
    match cut_reason(alloc, text, board, given, made.cut)? {
        Some(reason) => Ok(BoardAnswer::NoPlan(reason)),
        None => judged_text(alloc, text, files, board, made.text),
    }
}

/// Why no plan is made where no way leads from a node to another, if that is so whatever is chosen.
fn cut_reason(
    alloc: Global,
    text: &str,
    board: &Value,
    given: &Board,
    cut: Option<Cut>,
) -> Result<Option<String>, AllocError>
    ensures { IfOk result (λ found. IfSome found (λ reason. IsWayLine (string_bytes reason))) }
{
    match cut {
        Some(cut) if is_cut_off(alloc, given, cut.from, cut.to)? => {
            Ok(Some(way_line(alloc, text, board, cut.from, cut.to)?))
        }
        _ => Ok(None),
    }
}

/// The text of a plan, where it reads as one that is fit for a board, or why it isn't.
fn judged_text(
    alloc: Global,
    text: &str,
    files: &[RecordFile],
    board: &Value,
    made: String,
) -> Result<BoardAnswer, AllocError>
    ensures { IfOk result (λ answer. IsAnswerFor files.now (view board.now) answer) }
{
    match plan_of_text(alloc, made.as_str().as_bytes()) {
        Ok(plan) => judged_plan(alloc, text, files, board, made, plan),
        Err(PlanError::OutOfMemory) => Err(AllocError),
        Err(_) => Ok(BoardAnswer::NoPlan(unfound(alloc, "text that was made reads as a plan")?)),
    }
}

fn judged_plan(
    alloc: Global,
    text: &str,
    files: &[RecordFile],
    board: &Value,
    made: String,
    plan: Plan,
) -> Result<BoardAnswer, AllocError>
    requires { IsJsonTextOf IsPlanOf (string_bytes made) (plan_value plan) }
    ensures { IfOk result (λ answer. IsAnswerFor files.now (view board.now) answer) }
{
    match certify(alloc, &plan) {
        Ok(certificate) => judged_with(alloc, text, files, board, made, plan, &certificate),
        Err(obstacle) => Ok(BoardAnswer::NoPlan(why_ruled_out(
            alloc, text, files, board, &plan, &obstacle,
        )?)),
    }
}

/// What rules certificates of a plan out, where the plan has all that the board gives.
fn why_ruled_out(
    alloc: Global,
    text: &str,
    files: &[RecordFile],
    board: &Value,
    plan: &Plan,
    obstacle: &CertifyError,
) -> Result<String, AllocError>
    requires names { NamesObstacle plan.now obstacle.now }
    requires none { RulesOutCertificates plan.now obstacle.now }
    ensures { IfOk result (λ reason. IsReason files.now (view board.now) (string_bytes reason)) }
{
    if keeps(alloc, files, board, plan)? {
        Ok(obstacle_reason(alloc, Some(text), plan, obstacle)?)
    } else {
        Ok(lacking(alloc)?)
    }
}

fn judged_with(
    alloc: Global,
    text: &str,
    files: &[RecordFile],
    board: &Value,
    made: String,
    plan: Plan,
    certificate: &Certificate,
) -> Result<BoardAnswer, AllocError>
    requires reads { IsJsonTextOf IsPlanOf (string_bytes made) (plan_value plan) }
    requires exact { IsExact plan certificate.now }
    requires well_formed { IsWellFormed (plan_value plan) (certificate_value certificate.now) }
    ensures { IfOk result (λ answer. IsAnswerFor files.now (view board.now) answer) }
{
    let certified = certified_text(alloc, &plan, certificate)?;
    match why_unfit(alloc, text, files, board, &plan, certificate)? {
        Some(reason) => Ok(BoardAnswer::NoPlan(reason)),
        None => Ok(BoardAnswer::Made(MadePlan {
            plan: made,
            value: plan,
            certificate: certified,
        })),
    }
}

fn certified_text(
    alloc: Global,
    plan: &Plan,
    certificate: &Certificate,
) -> Result<String, AllocError>
    requires exact { IsExact plan.now certificate.now }
    requires well_formed { IsWellFormed (plan_value plan.now) (certificate_value certificate.now) }
    ensures { IfOk result (λ text. IsCertificateText plan.now certificate.now (string_bytes text)) }
{
    text_of_certificate(alloc, plan, certificate)
}

/// Why a plan with its certificate is not fit for a board; none where it is.
fn why_unfit(
    alloc: Global,
    text: &str,
    files: &[RecordFile],
    board: &Value,
    plan: &Plan,
    certificate: &Certificate,
) -> Result<Option<String>, AllocError>
    ensures fit { IfOk result (λ why. why ≡ None → IsFitFor files.now (view board.now) plan.now certificate.now) }
    ensures reason { IfOk result (λ why. IfSome why (λ reason. IsUnfound (string_bytes reason))) }
{
    match check(alloc, plan, certificate) {
        Ok(checked) => match judge(alloc, files, board, &checked) {
            Ok(()) => Ok(None),
            Err(unfit) => Ok(Some(unfit_line(alloc, Some(text), plan, unfit)?)),
        },
        Err(CheckError::Fault(_)) => Ok(Some(unfound(
            alloc,
            "certificate that was made meets every rule",
        )?)),
        Err(CheckError::OutOfMemory) => Err(AllocError),
    }
}
