//! The command `expect`: whether `sim` prints the lines of a file.
ghost use Rattle.std.{specs.Prelude.{◌≡◌, IfOk, IfErr, map, string_bytes}, specs.Cow.{cow_str_bytes}};
ghost use Rattle.net_sim.specs.Outcomes.{event_value, outcome_value};
ghost use Rattle.net_tables.specs.TwoPlans.{one_plan};
ghost use Rattle.play_commands.{specs.Expecting.{given_only, IsPrinted, AnswersLinesOn}, specs.Simulating.{ShowsWalks}};
ghost use Rattle.run_texts.specs.OutcomeLines.{outcome_lines};
ghost use Rattle.command_answers.specs.declared.refused.Refused.TheVariants as refused;

use command_answers::{Answer, Command, Refused, fault_text, planned_network};
use net_check::{AcceptedNetwork, Checked, check};
use net_sim::Outcome;
use plan_texts::first_difference;
use plan_values::{Certificate, Event, Plan};
use run_texts::outcome_line;
use std::alloc::{AllocError, Global};

/// Asks a plan with its certificate and events whether `sim` prints lines of them.
#[derive(Clone, Copy)]
pub struct ExpectLines;

impl Command for ExpectLines {
    type Of = (((Plan, Certificate), Vec<Event>), String);

    ghost Answers = { λ s given ended text. AnswersLinesOn given.0.0.0 given.0.0.1 (map event_value given.0.1.items) (string_bytes given.1) ended text };

    ghost IsUnanswered = { λ s given why. why ≡ refused.NoMemory };

    /// That it does, or the first line that differs.
    fn answer(
        &self,
        alloc: Global,
        given: &(((Plan, Certificate), Vec<Event>), String),
    ) -> Result<Answer, Refused> {
        let both = &given.0.0;
        answer_on_lines(alloc, &both.0, &both.1, given.0.1.as_slice(), &given.1)
    }
}

/// The answer whether `sim` prints the wanted lines.
fn answer_on_lines(
    alloc: Global,
    plan: &Plan,
    certificate: &Certificate,
    events: &[Event],
    wanted: &str,
) -> Result<Answer, Refused>
    ensures answers { IfOk result (λ answer. AnswersLinesOn plan.now certificate.now (map event_value events.now) wanted.now answer.status (cow_str_bytes answer.text)) }
    ensures lacks { IfErr result (λ why. why ≡ refused.NoMemory) }
{
    let printed = printed_text(alloc, plan, certificate, events)?;
    match first_difference(alloc, wanted, &printed)? {
        None => Ok(Answer::yes()),
        Some(difference) => Ok(Answer::fault(difference)),
    }
}

/// What `sim` prints.
fn printed_text(
    alloc: Global,
    plan: &Plan,
    certificate: &Certificate,
    events: &[Event],
) -> Result<String, Refused>
    ensures text { IfOk result (λ text. IsPrinted plan.now certificate.now (map event_value events.now) (string_bytes text)) }
    ensures lacks { IfErr result (λ why. why ≡ refused.NoMemory) }
{
    match check(alloc, plan, certificate) {
        Ok(checked) => played_text(alloc, checked, events),
        Err(error) => fault_text(alloc, plan, &error),
    }
}

/// The lines of what comes of events in the network of a checked plan.
fn played_text(alloc: Global, checked: Checked, events: &[Event]) -> Result<String, Refused>
    ensures text { IfOk result (λ text. ShowsWalks (one_plan checked.entry.0) checked.entry.1 (map event_value events.now) (given_only (string_bytes text))) }
    ensures lacks { IfErr result (λ why. why ≡ refused.NoMemory) }
{
    let plan = checked.plan();
    let mut network = planned_network(alloc, AcceptedNetwork::of_plan(checked))?;
    let played = network.run(events)?;
    if played.stopped {
        // no memory: the run stopped at a growth that was refused.
        return Err(Refused::NoMemory);
    }
    Ok(outcome_lines(alloc, plan, &played.outcomes)?)
}

/// The lines of outcomes, numbered from 1.
fn outcome_lines(alloc: Global, plan: &Plan, outcomes: &[Outcome]) -> Result<String, AllocError>
    ensures { IfOk result (λ text. string_bytes text ≡ outcome_lines plan.now (map outcome_value outcomes.now)) }
{
    let mut lines = String::new(alloc);
    for (index, outcome) in outcomes.iter().enumerate() {
        lines.push_str(&outcome_line(alloc, plan, index + 1, outcome)?)?;
    }
    Ok(lines)
}
