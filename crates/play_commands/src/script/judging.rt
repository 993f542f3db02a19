//! What a text of events is for the walk that is asked for: it is read and played once more, whoever made it.
ghost use Rattle.std.specs.Prelude.{◌≡◌, ◌≢◌, ◌↔◌, IfOk, IfErr, IsTrue, MatchBool, length, map, option_map};
ghost use Rattle.net_runs.specs.Walkers.{BeginWalk};
ghost use Rattle.net_sim.{specs.Effects.{effect_value}, specs.Outcomes.{event_value, handed_value, outcome_value}};
ghost use Rattle.net_tables.{specs.Repositories.{records_of}, specs.Routing.{Holds}};
ghost use Rattle.play_commands.specs.Scripting.{AreOfWalk, ArePlayed, EndsWith, FailsBy, HasRecords, IsDone, IsJudged, IsObstacle, IsOfWalk, IsStuck};
ghost use Rattle.net_plan.specs.declared.error.PlanError.TheVariants as error_of;
ghost use Rattle.command_answers.specs.declared.refused.Refused.TheVariants as refused;

use crate::script::course::{TAG, WALKER};
use crate::script::making::MOST_EVENTS;
use command_answers::{Refused, planned_network};
use command_questions::WalkScript;
use mctp_transport::Eid;
use net_check::{AcceptedNetwork, Checked};
use net_plan::{PlanError, events_of_text};
use net_sim::{Effect, Handed, Outcome, Standing};
use net_tables::lookup::{holds, records_at};
use pdr_repository::WalkFault;
use plan_values::{Event, Plan};
use run_texts::outcome_line;
use std::alloc::Global;

/// What a text is, read as events and played.
#[derive(Drop)]
pub enum Judged {
    /// By its events the walk is done.
    Script,
    /// The walk doesn't go on by them: the line of what comes of the last one.
    Stuck(String),
    /// Neither.
    Other,
}

/// What a text of events is for the walk of a node.
pub fn judge(
    alloc: Global,
    script: &WalkScript,
    checked: Checked,
    node: usize,
    text: &str,
) -> Result<Judged, Refused>
    ensures judged { IfOk result (IsJudged node script.now checked.entry.0 checked.entry.1 text.now) }
    ensures lacks { IfErr result (λ why. why ≡ refused.NoMemory) }
{
    match events_of_text(alloc, checked.plan(), text.as_bytes()) {
        Ok(events) => judge_events(alloc, script, checked, node, &events),
        Err(error) if is_refusal(error) => Ok(Judged::Other),
        // no memory: all other errors are refusals.
        Err(_) => Err(Refused::NoMemory),
    }
}

/// Whether an error is one of a text.
fn is_refusal(error: PlanError) -> bool
    ensures { IsTrue result ↔ (error ≢ error_of.OutOfMemory) }
{
    !matches!(error, PlanError::OutOfMemory)
}

/// What events are for the walk of a node.
fn judge_events(
    alloc: Global,
    script: &WalkScript,
    checked: Checked,
    node: usize,
    events: &[Event],
) -> Result<Judged, Refused>
    ensures judged { IfOk result (ArePlayed node script.now checked.entry.0 checked.entry.1 events.now) }
    ensures lacks { IfErr result (λ why. why ≡ refused.NoMemory) }
{
    if !are_of_walk(script, node, events) {
        return Ok(Judged::Other);
    }
    let plan = checked.plan();
    let Some(last) = last_outcome(alloc, checked, events)? else {
        return Ok(Judged::Other);
    };
    if is_done(plan, script.eid, &last) {
        return Ok(Judged::Script);
    }
    if is_stuck(&last) || MOST_EVENTS <= events.len() {
        let line = outcome_line(alloc, plan, events.len(), &last)?;
        return Ok(Judged::Stuck(line));
    }
    Ok(Judged::Other)
}

/// Whether the first event is the walk that a node is to ask for, and the others are of it.
fn are_of_walk(script: &WalkScript, node: usize, events: &[Event]) -> bool
    ensures { IsTrue result ↔ AreOfWalk node script.now events.now }
{
    match events {
        [first, rest @ ..] => begins_walk(script, node, first) && rest.iter().all(is_of_walk),
        [] => false,
    }
}

/// Whether an event is the walk that a node is to ask for.
fn begins_walk(script: &WalkScript, node: usize, event: &Event) -> bool
    ensures { IsTrue result ↔ (event_value event.now ≡ BeginWalk node script.now.eid.value 0 script.now.part.bytes) }
{
    match event {
        Event::Walk {
            node: asking,
            eid,
            tag,
            count,
        } => {
            *asking == node
                && eid.value == script.eid.value
                && tag.value == TAG
                && *count == script.part.bytes()
        }
        _ => false,
    }
}

/// Whether an event may happen once a walk has begun.
fn is_of_walk(event: &Event) -> bool
    ensures { IsTrue result ↔ IsOfWalk (event_value event.now) }
{
    match event {
        Event::Ask { walker } | Event::Collected { walker } => *walker == WALKER,
        Event::Move { .. } | Event::Lose { .. } | Event::Answer { .. } | Event::Expire { .. } => {
            true
        }
        Event::Walk { .. } | Event::Put { .. } | Event::Switch { .. } => false,
    }
}

/// What comes of the last event in the network of a checked plan.
fn last_outcome(
    alloc: Global,
    checked: Checked,
    events: &[Event],
) -> Result<Option<Outcome>, Refused>
    ensures ends { IfOk result (λ last. EndsWith checked.entry.0 checked.entry.1 (map event_value events.now) (option_map outcome_value last)) }
    ensures lacks { IfErr result (λ why. why ≡ refused.NoMemory) }
{
    let mut network = planned_network(alloc, AcceptedNetwork::of_plan(checked))?;
    let mut played = network.run(events)?;
    if played.stopped {
        // no memory: the run stopped at a growth that was refused.
        return Err(Refused::NoMemory);
    }
    Ok(played.outcomes.pop())
}

/// Whether it comes of an event that the first walker is done, with as many records as a node has that holds the
/// endpoint ID.
fn is_done(plan: &Plan, eid: Eid, last: &Outcome) -> bool
    ensures { MatchBool result (IsDone plan.now eid.value (outcome_value last.now)) (¬ IsDone plan.now eid.value (outcome_value last.now)) }
{
    match last {
        Outcome::Collected {
            walker: 1,
            records,
            standing: Standing::Done,
        } => has_records(plan, eid, *records),
        _ => false,
    }
}

/// Whether a node that holds the endpoint ID has so many records.
fn has_records(plan: &Plan, eid: Eid, count: usize) -> bool
    ensures { MatchBool result (HasRecords plan.now eid.value count) (¬ HasRecords plan.now eid.value count) }
{
    for node in 0..plan.nodes.len() {
        if is_holder(plan, node, eid, count) {
            return true;
        }
    }
    false
}

/// Whether a node holds the endpoint ID, and has so many records.
fn is_holder(plan: &Plan, node: usize, eid: Eid, count: usize) -> bool
    ensures { IsTrue result ↔ Holds plan.now node eid.value × (length (records_of plan.now node) ≡ count) }
{
    holds(plan, node, eid) && records_at(plan, node).len() == count
}

/// Whether it comes of an event that the walk doesn't go on.
pub fn is_stuck(outcome: &Outcome) -> bool
    ensures { IsTrue result → IsStuck (outcome_value outcome.now) }
{
    match outcome {
        Outcome::Refused(_) => true,
        Outcome::Collected { standing, .. } => matches!(standing, Standing::Ended(_)),
        Outcome::Happened { effect, handed } => is_obstacle(effect) || is_failure(handed),
        Outcome::Begun { .. } | Outcome::Asked { .. } => false,
    }
}

/// Whether it is refused, or a packet is dropped on its way, or there is no answer.
fn is_obstacle(effect: &Effect) -> bool
    ensures { IsTrue result → IsObstacle (effect_value effect.now) }
{
    matches!(
        effect,
        Effect::Refused(_) | Effect::Stopped { .. } | Effect::Silent { .. }
    )
}

/// Whether the walker has failed by a message. One that it hasn't asked for changes nothing.
fn is_failure(handed: &Option<Handed>) -> bool
    ensures { IsTrue result → FailsBy (option_map handed_value handed.now) }
{
    match handed {
        Some(handed) => !matches!(handed.result, Ok(_) | Err(WalkFault::NotAsked)),
        None => false,
    }
}
