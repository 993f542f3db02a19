//! Commands that read a plan alone, and answer in JSON.
ghost use Rattle.std.{specs.Prelude.{◌≡◌, ◌≢◌, IfOk, IfErr}, specs.Cow.{cow_str_bytes}};
ghost use Rattle.serde_json.specs.View.{view};
ghost use Rattle.net_plan.specs.Stream.{HasRoom};
ghost use Rattle.command_answers.{specs.Answers.{stream}, specs.Told.{ConcludesOnOutput}, specs.UnreadInputs.{IsTextOf}};
ghost use Rattle.json_commands.specs.Planned.{IsPlanSaid, IsSaidOfSource, SaysInJson, form_of};
ghost use Rattle.command_answers.specs.declared.refused.Refused.TheVariants as refused;
ghost use Rattle.command_answers.specs.declared.status.Status.TheVariants as status;

use crate::explained::explained_plan;
use crate::faults::faults_of_plan;
use crate::findings::findings_of_plan;
use crate::said::{Said, answer_of};
use crate::unread::unread_input;
use command_answers::{Answer, Input, PlanText, Refused, Status, plan_or_text, tell};
use command_questions::{Form, PlanJson};
use net_plan::{Sink, Source};
use std::alloc::{AllocError, Global};

/// Answers in JSON what is asked of a plan, on `output`: one value, in one line. Where the plan can't be read, the
/// value tells so. The name is that of the plan's file. The run ends as that of the command without JSON.
pub fn run_planned_json<P: Source, O: Sink, E: Sink>(
    alloc: Global,
    asked: PlanJson,
    name: &str,
    plan: &mut P,
    output: &mut O,
    errors: &mut E,
) -> Status
    requires plan { HasRoom (P.account plan.old) }
    requires output { HasRoom (O.account output.old) }
    requires errors { HasRoom (E.account errors.old) }
    ensures concludes { let plans = stream P.account plan.old plan.new in
        ConcludesOnOutput (SaysInJson asked name.now plans) result
        (stream O.account output.old output.new) (stream E.account errors.old errors.new)
        (output.new ≡ output.old) (errors.new ≡ errors.old) }
    ensures quiet { result ≢ status.NoMemory → (O.account output.new).failures ≡ (O.account output.old).failures → errors.new ≡ errors.old }
{
    let answered = answer_planned(alloc, asked, name, plan);
    tell(alloc, answered, output, errors)
}

fn answer_planned<P: Source>(
    alloc: Global,
    asked: PlanJson,
    name: &str,
    plan: &mut P,
) -> Result<Answer, Refused>
    requires { HasRoom (P.account plan.old) }
    ensures answers { let plans = stream P.account plan.old plan.new in
        IfOk result (λ answer. SaysInJson asked name.now plans answer.status (cow_str_bytes answer.text)) }
    ensures refused { IfErr result (λ why. why ≡ refused.NoMemory) }
{
    let said = said_of_source(alloc, asked, name, plan)?;
    Ok(answer_of(alloc, &said)?)
}

/// What is said of the plan that a source gives, or where it gives none.
fn said_of_source<P: Source>(
    alloc: Global,
    asked: PlanJson,
    name: &str,
    plan: &mut P,
) -> Result<Said, AllocError>
    requires { HasRoom (P.account plan.old) }
    ensures { let plans = stream P.account plan.old plan.new in
        IfOk result (λ said. IsSaidOfSource asked name.now plans said.status (view said.value)) }
{
    match plan_or_text(alloc, plan) {
        Ok(given) => Ok(said_of_plan(alloc, asked, name, &given)?),
        Err(unread) => {
            let (form, command) = form_and_command(asked);
            Ok(unread_input(alloc, form, command, name, Input::Plan, &unread)?)
        }
    }
}

/// What is said of a plan.
fn said_of_plan(
    alloc: Global,
    asked: PlanJson,
    name: &str,
    given: &PlanText,
) -> Result<Said, AllocError>
    requires { IsTextOf given.now.text.items given.now.plan }
    ensures { IfOk result (λ said. IsPlanSaid asked name.now given.now.text.items given.now.plan said.status (view said.value)) }
{
    match asked {
        PlanJson::Explain => Ok(explained_plan(alloc, name, given)?),
        PlanJson::Faults(form) => Ok(faults_of_plan(alloc, form, name, given)?),
        PlanJson::Lint => Ok(findings_of_plan(alloc, name, given)?),
    }
}

/// The form of the answer, and the command that asks.
fn form_and_command(asked: PlanJson) -> (Form, &'static str)
    ensures { result.0 ≡ form_of asked }
{
    match asked {
        PlanJson::Explain => (Form::Json, "explain"),
        PlanJson::Faults(form) => (form, "faults"),
        PlanJson::Lint => (Form::Json, "lint"),
    }
}
