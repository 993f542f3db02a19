//! Commands that read a plan alone, and answer a question about it.
ghost use Rattle.std.{specs.Prelude.{◌≡◌, IfOk}, specs.Cow.{cow_str_bytes}};
ghost use Rattle.net_plan.specs.Stream.{HasRoom};
ghost use Rattle.command_answers.{specs.Answers.{stream, IsPlanUnread}, specs.Told.{Concludes}, specs.UnreadInputs.{IsTextOf}};
ghost use Rattle.plan_commands.specs.Planned.{IsSaidOf, SaysSo};

use crate::draw::drawing_of_plan;
use crate::lint::findings_of_plan;
use crate::listing::faults_of_plan;
use crate::rows::rows_of_plan;
use command_answers::{
    Answer, PlanText, Status, certificate_of_plan, given_plan_text, refuse, tell_made,
};
use command_questions::PlanQuestion;
use net_plan::{Sink, Source};
use std::alloc::{AllocError, Global};

/// Answers a question about a plan on `output`. Where the plan can't be read, says so on `errors`.
pub fn run_planned<P: Source, O: Sink, E: Sink>(
    alloc: Global,
    question: &PlanQuestion,
    plan: &mut P,
    output: &mut O,
    errors: &mut E,
) -> Status
    requires plan { HasRoom (P.account plan.old) }
    requires output { HasRoom (O.account output.old) }
    requires errors { HasRoom (E.account errors.old) }
    ensures concludes { let plans = stream P.account plan.old plan.new in
        Concludes (SaysSo question.now plans) (λ why. IsPlanUnread why plans) result
        (stream O.account output.old output.new) (stream E.account errors.old errors.new)
        (output.new ≡ output.old) (errors.new ≡ errors.old) }
{
    match given_plan_text(alloc, plan) {
        Ok(given) => {
            let answered = answer_of_plan(alloc, question, &given);
            tell_made(alloc, answered, output, errors)
        }
        Err(refused) => refuse(alloc, refused, errors),
    }
}

/// The answer on a plan.
fn answer_of_plan(
    alloc: Global,
    question: &PlanQuestion,
    given: &PlanText,
) -> Result<Answer, AllocError>
    requires { IsTextOf given.now.text.items given.now.plan }
    ensures { IfOk result (λ answer. IsSaidOf question.now given.now.text.items given.now.plan answer.status (cow_str_bytes answer.text)) }
{
    match *question {
        PlanQuestion::Certify => certificate_of_plan(alloc, &given.plan),
        PlanQuestion::Draw { rows } => drawing_of_plan(alloc, &given.plan, rows),
        PlanQuestion::Faults { name } => faults_of_plan(alloc, name, given),
        PlanQuestion::Lint => findings_of_plan(alloc, &given.plan),
        PlanQuestion::Rows => rows_of_plan(alloc, given),
    }
}
