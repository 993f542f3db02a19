//! The command `move`: whether the nodes of a running network may go from the rows of one plan to those of another.
ghost use Rattle.std.{specs.Prelude.{◌≡◌, IfOk}, specs.Cow.{cow_str_bytes}};
ghost use Rattle.net_plan.specs.Stream.{HasRoom};
ghost use Rattle.command_answers.{specs.Answers.{stream, IsWithoutPlan}, specs.Moves.{IsMoveUnread}, specs.Told.{Concludes}};
ghost use Rattle.plan_commands.specs.Moving.{AnswersMoveOn, AnswersMoveSo};

use command_answers::{Answer, Status, move_fault_answer, read_move, refuse, tell_made};
use net_check::check_move;
use net_plan::{Sink, Source};
use plan_values::{Certificate, Plan};
use std::alloc::{AllocError, Global};

/// Answers on `output` whether the nodes of the plan before may switch, one after another in any order, to the rows of
/// the plan after, with one certificate for both. Where a file can't be read, says so on `errors`; of several the first
/// is told, and those after it are not read.
pub fn run_move<P: Source, Q: Source, C: Source, O: Sink, E: Sink>(
    alloc: Global,
    before: &mut P,
    after: &mut Q,
    certificate: &mut C,
    output: &mut O,
    errors: &mut E,
) -> Status
    requires before { HasRoom (P.account before.old) }
    requires after { HasRoom (Q.account after.old) }
    requires certificate { HasRoom (C.account certificate.old) }
    requires output { HasRoom (O.account output.old) }
    requires errors { HasRoom (E.account errors.old) }
    ensures concludes { let befores = stream P.account before.old before.new in
        let afters = stream Q.account after.old after.new in
        let certificates = stream C.account certificate.old certificate.new in
        Concludes (AnswersMoveSo befores afters certificates) (λ why. IsMoveUnread why befores afters certificates) result
        (stream O.account output.old output.new) (stream E.account errors.old errors.new)
        (output.new ≡ output.old) (errors.new ≡ errors.old) }
    ensures in_order { let befores = stream P.account before.old before.new in
        IsWithoutPlan befores → (after.new ≡ after.old) × (certificate.new ≡ certificate.old) }
    ensures after_in_order { let afters = stream Q.account after.old after.new in
        IsWithoutPlan afters → certificate.new ≡ certificate.old }
{
    match read_move(alloc, before, after, certificate) {
        Ok((before, after, certificate)) => {
            let answered = answer_of_move(alloc, &before, &after, &certificate);
            tell_made(alloc, answered, output, errors)
        }
        Err(refused) => refuse(alloc, refused, errors),
    }
}

/// The answer on two plans and a certificate.
fn answer_of_move(
    alloc: Global,
    before: &Plan,
    after: &Plan,
    certificate: &Certificate,
) -> Result<Answer, AllocError>
    ensures { IfOk result (λ answer. AnswersMoveOn before.now after.now certificate.now answer.status (cow_str_bytes answer.text)) }
{
    match check_move(alloc, before, after, certificate) {
        Ok(_) => Ok(Answer::yes()),
        Err(error) => move_fault_answer(alloc, before, &error),
    }
}
