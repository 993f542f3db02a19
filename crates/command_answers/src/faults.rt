//! The fault for which a plan and its certificate, or a move, are not accepted.
ghost use Rattle.std.{specs.Prelude.{◌≡◌, IfOk, IfErr, string_bytes}, specs.Cow.{cow_str_bytes}};
ghost use Rattle.command_answers.{specs.declared.status.Status.TheVariants.{Fault}, specs.Answers.{IsErrorText}, specs.Moves.{IsMoveErrorText}};

use crate::answer::Answer;
use crate::refused::Refused;
use net_check::{CheckError, MoveError};
use plan_texts::{fault_line, move_error_line};
use plan_values::Plan;
use std::alloc::{AllocError, Global};

/// The answer where a plan and its certificate are not accepted.
pub fn fault_answer(alloc: Global, plan: &Plan, error: &CheckError) -> Result<Answer, Refused>
    ensures answers { IfOk result (λ answer. (answer.status ≡ Fault) × IsErrorText plan.now error.now (cow_str_bytes answer.text)) }
    ensures refused { IfErr result (λ refused. refused ≡ Refused.NoMemory) }
{
    Ok(Answer::fault(fault_text(alloc, plan, error)?))
}

/// The line of the fault for which a plan and its certificate are not accepted.
pub fn fault_text(alloc: Global, plan: &Plan, error: &CheckError) -> Result<String, Refused>
    ensures text { IfOk result (λ text. IsErrorText plan.now error.now (string_bytes text)) }
    ensures refused { IfErr result (λ refused. refused ≡ Refused.NoMemory) }
{
    match error {
        CheckError::Fault(fault) => Ok(fault_line(alloc, plan, fault)?),
        CheckError::OutOfMemory => Err(Refused::NoMemory),
    }
}

/// The answer where two plans and a certificate are not accepted as a move.
pub fn move_fault_answer(
    alloc: Global,
    before: &Plan,
    error: &MoveError,
) -> Result<Answer, AllocError>
    ensures { IfOk result (λ answer. (answer.status ≡ Fault) × IsMoveErrorText before.now error.now (cow_str_bytes answer.text)) }
{
    Ok(Answer::fault(move_error_line(alloc, before, error)?))
}
