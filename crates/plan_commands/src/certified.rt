//! Commands that read a plan and its certificate, check them, and answer a question about them.
ghost use Rattle.std.{specs.Prelude.{◌≡◌, ◌⊎◌, true, false, IfOk, IfErr}, specs.Cow.{cow_str_bytes}};
ghost use Rattle.net_check.specs.Errors.{NamesFirstFault};
ghost use Rattle.net_plan.specs.Stream.{HasRoom};
ghost use Rattle.command_answers.{specs.declared.status.Status.TheVariants.{Fault}, specs.Answers.{stream, IsWithoutPlan}, specs.Told.{Concludes}};
ghost use Rattle.plan_commands.specs.Certified.{IsAnswer, IsFaultAnswer, IsNamedIn, IsTooMuch, AnswersOn, AnswersSo, IsUnansweredOn, IsUnansweredFor};
ghost use Rattle.command_answers.specs.declared.refused.Refused.TheVariants as refused;

use crate::assign::requests_text;
use crate::draw::certified_drawing;
use crate::listing::faults_of_both;
use crate::reach::pairs_text;
use crate::trace::way_between;
use crate::walk::records_text;
use command_answers::{
    Answer, PlanText, Refused, Status, YES, fault_answer, named_ends, named_terminus, read_texts,
    refuse, tell,
};
use command_questions::Question;
use net_check::{CheckError, Checked, check};
use net_plan::{Sink, Source};
use net_reached::matrix_text;
use plan_values::{Certificate, Plan};
use std::alloc::Global;
use std::borrow::CowStr;

/// Answers a question on `output`, where the certificate fits the plan, or tells the fault there. Where a file can't be
/// read, or then where the plan has nothing that the question names, says so on `errors`. Of two files that can't be
/// read, the plan is told and the certificate is not read.
pub fn run_certified<P: Source, C: Source, O: Sink, E: Sink>(
    alloc: Global,
    question: &Question,
    plan: &mut P,
    certificate: &mut C,
    output: &mut O,
    errors: &mut E,
) -> Status
    requires plan { HasRoom (P.account plan.old) }
    requires certificate { HasRoom (C.account certificate.old) }
    requires output { HasRoom (O.account output.old) }
    requires errors { HasRoom (E.account errors.old) }
    ensures concludes { let plans = stream P.account plan.old plan.new in
        let certificates = stream C.account certificate.old certificate.new in
        Concludes (AnswersSo question.now plans certificates) (IsUnansweredFor question.now plans certificates) result
        (stream O.account output.old output.new) (stream E.account errors.old errors.new)
        (output.new ≡ output.old) (errors.new ≡ errors.old) }
    ensures in_order { IsWithoutPlan (stream P.account plan.old plan.new) → certificate.new ≡ certificate.old }
{
    match read_texts(alloc, plan, certificate) {
        Ok((given, certificate)) => {
            let answered = answer_of_both(alloc, question, &given, &certificate);
            tell(alloc, answered, output, errors)
        }
        Err(refused) => refuse(alloc, refused, errors),
    }
}

/// The answer on a plan and a certificate.
fn answer_of_both(
    alloc: Global,
    question: &Question,
    given: &PlanText,
    certificate: &Certificate,
) -> Result<Answer, Refused>
    ensures answers { IfOk result (λ answer. AnswersOn question.now given.now.text.items given.now.plan certificate.now answer.status (cow_str_bytes answer.text)) }
    ensures unanswered { IfErr result (IsUnansweredOn question.now given.now.plan certificate.now) }
{
    if !is_named_in(question, &given.plan) {
        return Err(Refused::UnknownNode);
    }
    match check(alloc, &given.plan, certificate) {
        Ok(checked) => Ok(Answer::said(text_of_checked(alloc, question, &checked)?)),
        Err(error) => answer_of_fault(alloc, question, given, certificate, &error),
    }
}

/// The answer on a plan and a certificate that are not accepted.
fn answer_of_fault(
    alloc: Global,
    question: &Question,
    given: &PlanText,
    certificate: &Certificate,
    error: &CheckError,
) -> Result<Answer, Refused>
    requires { NamesFirstFault given.now.plan certificate.now error.now }
    ensures answers { IfOk result (λ answer. (answer.status ≡ Fault) × IsFaultAnswer question.now given.now.text.items given.now.plan certificate.now (cow_str_bytes answer.text)) }
    ensures refused { IfErr result (λ why. why ≡ refused.NoMemory) }
{
    match *question {
        Question::Faults { name } => faults_of_both(alloc, name, given, certificate, error),
        _ => fault_answer(alloc, &given.plan, error),
    }
}

/// Whether a plan has what a question names.
fn is_named_in(question: &Question, plan: &Plan) -> bool
    ensures yes { result ≡ true → IsNamedIn question.now plan.now }
    ensures no { result ≡ false → ¬ IsNamedIn question.now plan.now }
{
    match *question {
        Question::Check | Question::Faults { .. } | Question::Assign => true,
        Question::Reach | Question::Matrix | Question::Draw { .. } => true,
        Question::Walk { node, .. } => named_terminus(plan, node).is_some(),
        Question::Trace { from, to } => named_ends(plan, from, to).is_some(),
    }
}

/// The text that answers on a checked plan.
fn text_of_checked(
    alloc: Global,
    question: &Question,
    checked: &Checked,
) -> Result<CowStr<'static>, Refused>
    requires { IsNamedIn question.now checked.now.0 }
    ensures text { IfOk result (λ text. IsAnswer question.now checked.now.0 checked.now.1 (cow_str_bytes text)) }
    ensures early { IfErr result (λ why. (why ≡ refused.NoMemory) ⊎ ((why ≡ refused.TooMuch) × IsTooMuch question.now checked.now.0 checked.now.1)) }
{
    match *question {
        Question::Check | Question::Faults { .. } => Ok(CowStr::Borrowed(YES)),
        Question::Assign => Ok(CowStr::Owned(requests_text(alloc, checked)?)),
        Question::Reach => Ok(CowStr::Owned(pairs_text(alloc, checked)?)),
        Question::Matrix => Ok(CowStr::Owned(matrix_text(alloc, checked)?)),
        Question::Draw { rows } => Ok(CowStr::Owned(certified_drawing(alloc, checked, rows)?)),
        Question::Walk { node, part } => {
            Ok(CowStr::Owned(records_text(alloc, checked, node, part)?))
        }
        Question::Trace { from, to } => {
            Ok(CowStr::Owned(way_between(alloc, checked, from, to)?))
        }
    }
}
