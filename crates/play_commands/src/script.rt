//! The command `script`: the events of a walk over a network, made as it runs.
ghost use Rattle.std.{specs.Prelude.{◌≡◌, IfOk, IfErr}, specs.Cow.{cow_str_bytes}};
ghost use Rattle.command_answers.specs.Naming.{IsFirstNamed};
ghost use Rattle.play_commands.specs.Scripting.{AnswersScriptOn, IsUnscriptedOn};
ghost use Rattle.command_answers.specs.declared.refused.Refused.TheVariants as refused;

mod course;
mod judging;
mod making;
mod text;

use command_answers::{Answer, Command, Refused, fault_answer, first_named};
use command_questions::WalkScript;
use judging::{Judged, judge};
use making::made_events;
use net_check::{Checked, check};
use plan_values::{Certificate, Plan};
use std::alloc::{AllocError, Global};
use text::script_text;

/// What is told where no text that was made is a script. No walk is known of which this is told.
const NO_SCRIPT: &str = "no script: no text that was made reads back as a walk\n";

/// Asks a plan with its certificate for the events of a walk over its network.
#[derive(Clone, Copy)]
pub struct WriteScript<'a> {
    pub script: &'a WalkScript<'a>,
}

impl Command for WriteScript<'_> {
    type Of = (Plan, Certificate);

    ghost Answers = { λ s both ended text. AnswersScriptOn s.script.now both.0 both.1 ended text };

    ghost IsUnanswered = { λ s both why. IsUnscriptedOn s.script.now.node.now both.0 why };

    /// The events, or what comes of the event with which the walk doesn't go on; or the fault for which the plan and its
    /// certificate are not accepted.
    fn answer(&self, alloc: Global, both: &(Plan, Certificate)) -> Result<Answer, Refused> {
        answer_of_both(alloc, self.script, &both.0, &both.1)
    }
}

/// The answer on a plan and a certificate.
fn answer_of_both(
    alloc: Global,
    script: &WalkScript,
    plan: &Plan,
    certificate: &Certificate,
) -> Result<Answer, Refused>
    ensures answers { IfOk result (λ answer. AnswersScriptOn script.now plan.now certificate.now answer.status (cow_str_bytes answer.text)) }
    ensures unanswered { IfErr result (IsUnscriptedOn script.now.node.now plan.now) }
{
    match first_named(plan, script.node) {
        Some(node) => answer_at(alloc, script, plan, certificate, node),
        None => Err(Refused::UnknownNode),
    }
}

/// The answer where the node that asks is this one.
fn answer_at(
    alloc: Global,
    script: &WalkScript,
    plan: &Plan,
    certificate: &Certificate,
    node: usize,
) -> Result<Answer, Refused>
    requires { IsFirstNamed plan.now script.now.node.now node }
    ensures answers { IfOk result (λ answer. AnswersScriptOn script.now plan.now certificate.now answer.status (cow_str_bytes answer.text)) }
    ensures lacks { IfErr result (λ why. why ≡ refused.NoMemory) }
{
    match check(alloc, plan, certificate) {
        Ok(checked) => {
            let text = made_text(alloc, script, checked, node)?;
            answer_by_text(alloc, script, plan, certificate, node, text)
        }
        Err(error) => fault_answer(alloc, plan, &error),
    }
}

/// The text of the events that are made for the walk.
fn made_text(
    alloc: Global,
    script: &WalkScript,
    checked: Checked,
    node: usize,
) -> Result<String, AllocError> {
    let plan = checked.plan();
    let events = made_events(alloc, script, checked, node)?;
    script_text(alloc, plan, &events)
}

/// The answer by a text of events, whoever made it: the text itself, if by these the walk is done.
fn answer_by_text(
    alloc: Global,
    script: &WalkScript,
    plan: &Plan,
    certificate: &Certificate,
    node: usize,
    text: String,
) -> Result<Answer, Refused>
    requires { IsFirstNamed plan.now script.now.node.now node }
    ensures answers { IfOk result (λ answer. AnswersScriptOn script.now plan.now certificate.now answer.status (cow_str_bytes answer.text)) }
    ensures lacks { IfErr result (λ why. why ≡ refused.NoMemory) }
{
    match check(alloc, plan, certificate) {
        Ok(checked) => match judge(alloc, script, checked, node, &text)? {
            Judged::Script => Ok(Answer::found(text)),
            Judged::Stuck(line) => Ok(Answer::fault(line)),
            Judged::Other => Ok(Answer::fault(NO_SCRIPT.to_string(alloc)?)),
        },
        Err(error) => fault_answer(alloc, plan, &error),
    }
}
