//! Whether what comes of the events of each run are its lines.
ghost use Rattle.std.specs.Prelude.{◌≡◌, ◌⊎◌, Some, Ok, IfOk, IfErr, OnOk, map, string_bytes};
ghost use Rattle.net_sim.specs.Outcomes.{event_value, outcome_value};
ghost use Rattle.net_tables.specs.TwoPlans.{one_plan};
ghost use Rattle.play_commands.{specs.Expecting.{given_only}, specs.Simulating.{ShowsWalks}};
ghost use Rattle.run_texts.specs.OutcomeLines.{outcome_lines};
ghost use Rattle.verify_commands.{specs.Folders.{IsCause, IsPlanHeld, IsUnjudged, lines_path}, specs.Parts.{AddsRuns, FitsOrNot, HasEvents, IsJudgedBy, IsPlayed, IsPrinted, IsRunPart, IsRunSo, Prints, PrintsOthers, Says}};
ghost use Rattle.verify_commands.specs.declared.unjudged.Unjudged.TheVariants as unjudged;

use crate::fit::{Fit, skipped};
use crate::folder::{FolderFiles, FolderText, needed_text};
use crate::names::run_names;
use crate::parts::{Judged, Part, add};
use crate::unjudged::{Unjudged, unread};
use command_answers::{accepted, planned_network};
use net_check::{AcceptedNetwork, Checked};
use net_plan::{PlanError, TextFault, events_of_text};
use net_sim::Outcome;
use plan_texts::first_difference;
use plan_values::{Event, Plan};
use reading_texts::unread_line;
use run_texts::outcome_line;
use std::alloc::{AllocError, Global};

/// Adds whether what comes of the events of each run of the folder are its lines.
pub fn add_runs<F: FolderFiles>(
    alloc: Global,
    folder: &F,
    plan: &Plan,
    fit: &Fit,
    told: &mut Vec<Judged>,
) -> Result<(), Unjudged>
    requires plan { IsPlanHeld (F.reads folder.now) plan.now }
    requires fit { FitsOrNot (F.reads folder.now) plan.now fit.now }
    ensures added { OnOk result (AddsRuns (F.reads folder.now) (F.lists folder.now) plan.now told.old.items told.new.items) }
    ensures unread { IfErr result (IsUnjudged (F.reads folder.now) (F.lists folder.now)) }
{
    let files = listed_files(alloc, folder)?;
    let names = run_names(alloc, &files)?;
    for index in 0..names.len() {
        add(judge_run(alloc, folder, plan, fit, &names[index])?, told)?;
    }
    Ok(())
}

fn listed_files<F: FolderFiles>(alloc: Global, folder: &F) -> Result<Vec<String>, Unjudged>
    ensures listed { IfOk result (λ files. F.lists folder.now (Ok (map string_bytes files.items))) }
    ensures unread { IfErr result (IsUnjudged (F.reads folder.now) (F.lists folder.now)) }
{
    match folder.list_runs(alloc) {
        Ok(files) => Ok(files),
        Err(fault) => Err(unread_runs(alloc, fault)),
    }
}

/// The folder of the runs can't be listed.
fn unread_runs(alloc: Global, fault: TextFault) -> Unjudged
    ensures { (result ≡ unjudged.NoMemory) ⊎ IsCause fault }
{
    match fault {
        TextFault::OutOfMemory => Unjudged::NoMemory,
        fault => told_runs(alloc, PlanError::from(fault)),
    }
}

fn told_runs(alloc: Global, cause: PlanError) -> Unjudged {
    match unread_line(alloc, "runs", cause) {
        Ok(line) => Unjudged::Unread(line),
        // no memory: there was no room for the line.
        Err(AllocError) => Unjudged::NoMemory,
    }
}

/// Whether what comes of the events of a run are its lines.
fn judge_run<F: FolderFiles>(
    alloc: Global,
    folder: &F,
    plan: &Plan,
    fit: &Fit,
    name: &str,
) -> Result<Judged, Unjudged>
    requires plan { IsPlanHeld (F.reads folder.now) plan.now }
    requires fit { FitsOrNot (F.reads folder.now) plan.now fit.now }
    ensures judged { IfOk result (IsRunSo (F.reads folder.now) plan.now name.now) }
    ensures unread { IfErr result (IsUnjudged (F.reads folder.now) (F.lists folder.now)) }
{
    let events = run_events(alloc, folder, plan, name)?;
    let lines = run_lines(alloc, folder, name)?;
    Ok(judge_lines(alloc, fit, name, &events, &lines)?)
}

fn run_events<F: FolderFiles>(
    alloc: Global,
    folder: &F,
    plan: &Plan,
    name: &str,
) -> Result<Vec<Event>, Unjudged>
    requires plan { IsPlanHeld (F.reads folder.now) plan.now }
    ensures held { IfOk result (λ events. HasEvents (F.reads folder.now) plan.now name.now events.items) }
    ensures unread { IfErr result (IsUnjudged (F.reads folder.now) (F.lists folder.now)) }
{
    let text = needed_text(alloc, folder, FolderText::Events(name))?;
    match events_of_text(alloc, plan, &text) {
        Ok(events) => Ok(events),
        Err(cause) => Err(unread(alloc, FolderText::Events(name), cause)),
    }
}

fn run_lines<F: FolderFiles>(alloc: Global, folder: &F, name: &str) -> Result<String, Unjudged>
    ensures held { IfOk result (λ lines. F.reads folder.now (lines_path name.now) (Ok (Some (string_bytes lines)))) }
    ensures unread { IfErr result (IsUnjudged (F.reads folder.now) (F.lists folder.now)) }
{
    let text = needed_text(alloc, folder, FolderText::Lines(name))?;
    match String::from_utf8(text) {
        Ok(lines) => Ok(lines),
        Err(_) => Err(unread(alloc, FolderText::Lines(name), PlanError::NotJson)),
    }
}

/// Whether what comes of events are lines.
fn judge_lines(
    alloc: Global,
    fit: &Fit,
    name: &str,
    events: &[Event],
    lines: &str,
) -> Result<Judged, AllocError>
    ensures name { IfOk result (λ judged. IsRunPart name.now judged.part) }
    ensures verdict { IfOk result (λ judged. IsJudgedBy fit.now (IsPlayed (map event_value events.now) lines.now) judged.verdict) }
{
    match fit {
        Fit::Fits(checked) => judge_played(alloc, checked, name, events, lines),
        Fit::Unfit { is_held, .. } => skipped(alloc, Part::Run(name.to_string(alloc)?), *is_held),
    }
}

fn judge_played(
    alloc: Global,
    checked: &Checked,
    name: &str,
    events: &[Event],
    lines: &str,
) -> Result<Judged, AllocError>
    ensures name { IfOk result (λ judged. IsRunPart name.now judged.part) }
    ensures verdict { IfOk result (λ judged. Says judged.verdict (Prints checked.now.0 checked.now.1 (map event_value events.now) lines.now)
        (PrintsOthers checked.now.0 checked.now.1 (map event_value events.now) lines.now) ⊥) }
{
    let part = Part::Run(name.to_string(alloc)?);
    let printed = printed_text(alloc, checked, events)?;
    match first_difference(alloc, lines, &printed)? {
        None => Ok(Judged::holds(alloc, part)),
        Some(difference) => Judged::fails(alloc, part, &difference),
    }
}

/// What `sim` prints of events. The plan is checked once more, since the network takes what was checked.
fn printed_text(alloc: Global, checked: &Checked, events: &[Event]) -> Result<String, AllocError>
    ensures { IfOk result (λ text. IsPrinted checked.now.0 checked.now.1 (map event_value events.now) (string_bytes text)) }
{
    let again = accepted(alloc, checked.plan(), checked.certificate())?;
    played_text(alloc, again, events)
}

/// The lines of what comes of events in the network of a checked plan.
fn played_text(alloc: Global, checked: Checked, events: &[Event]) -> Result<String, AllocError>
    ensures { IfOk result (λ text. ShowsWalks (one_plan checked.entry.0) checked.entry.1 (map event_value events.now) (given_only (string_bytes text))) }
{
    let plan = checked.plan();
    let mut network = planned_network(alloc, AcceptedNetwork::of_plan(checked))?;
    let played = network.run(events)?;
    if played.stopped {
        // no memory: the run stopped at a growth that was refused.
        return Err(AllocError);
    }
    let lines = outcome_lines(alloc, plan, &played.outcomes)?;
    Ok(lines)
}

/// The lines of outcomes, numbered from 1.
fn outcome_lines(alloc: Global, plan: &Plan, outcomes: &[Outcome]) -> Result<String, AllocError>
    ensures { IfOk result (λ text. string_bytes text ≡ outcome_lines plan.now (map outcome_value outcomes.now)) }
{
    let mut lines = String::new(alloc);
    for (index, outcome) in outcomes.iter().enumerate() {
        lines.push_str(&outcome_line(alloc, plan, index + 1, outcome)?)?;
    }
    Ok(lines)
}
