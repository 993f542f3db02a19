//! The commands `sim` and `simmove`: what comes of events in the network of a checked plan, or of a checked move.
ghost use Rattle.std.specs.Prelude.{◌≡◌, ◌⊎◌, ℕ, IfOk, IfErr, length, map};
ghost use Rattle.net_plan.specs.Stream.{HasRoom};
ghost use Rattle.command_answers.{specs.declared.status.Status.TheVariants.{Yes, Fault, Unreadable}, specs.declared.refused.Refused.TheVariants.{Unwritten}, specs.Answers.{stream, Refuses}};
ghost use Rattle.net_tables.specs.TwoPlans.{one_plan, moving};
ghost use Rattle.net_runs.specs.Walkers.{WalkedState, walked_at_start};
ghost use Rattle.net_sim.{specs.Dealing.{resting, at_rest, planned_termini}, specs.Networks.{network_value, checked_of}, specs.Outcomes.{event_value, outcome_value}, specs.Promised.{IsPromised}, specs.WalkedStanding.{StandsForWalked, without_walkers}};
ghost use Rattle.play_commands.specs.Simulating.{PlaysSo, RunsIn, IsTextIn, ShowsAllOr, PlaysFrom, PlaysBy, ReportsPlay, SimulatesFrom, SimulatesBy, AreFirstLines, ShowsLines};

pub mod files;
pub mod moves;

use command_answers::{Gathered, Refused, Status, planned_network, refuse};
use net_check::{AcceptedNetwork, Checked, CheckedMove};
use net_plan::Sink;
use net_sim::{Network, Outcome};
use pdr_repository::Terminus;
use plan_values::{Event, Plan};
use run_texts::outcome_line;
use std::alloc::Global;

/// Plays events in the network of a checked plan, and gives on `output` what comes of each.
///
/// The termini are one for each node that has one (`net_sim::planned_termini_count`), in the plan's order. The outcomes
/// are those of a run from rest over these termini. Where the termini are as planned, it is a run from the start. In it
/// a walker collects the planned records, where nobody else puts packets in under its keys. Where memory runs out, the
/// lines of what was played before are out, and `errors` says so.
pub fn run_sim<T: Terminus, O: Sink, E: Sink>(
    alloc: Global,
    checked: Checked,
    termini: Vec<T>,
    events: &[Event],
    output: &mut O,
    errors: &mut E,
) -> Status
    requires output { HasRoom (O.account output.old) }
    requires errors { HasRoom (E.account errors.old) }
    requires termini { length termini.items ≡ length (planned_termini checked.0 checked.1) }
    ensures plays { let outputs = stream O.account output.old output.new in
        map (resting T.tid T.records) termini.items ≡ planned_termini checked.entry.0 checked.entry.1
        → SimulatesBy (one_plan checked.entry.0) checked.entry.1 (map event_value events.now) result outputs }
    ensures rests { let outputs = stream O.account output.old output.new in
        SimulatesFrom (one_plan checked.entry.0) (without_walkers (at_rest checked.entry.0 (map (resting T.tid T.records) termini.items)))
        (map event_value events.now) result outputs }
    // Every run of the network with its walkers keeps the headline, and what is promised of deliveries.
    ensures promises { IsPromised (one_plan checked.entry.0) checked.entry.1 }
    ensures silent { result ≡ Yes → errors.new ≡ errors.old }
    // Where not all lines are out, standard error has the line that says why.
    ensures reports { let said = stream E.account errors.old errors.new in
        ReportsPlay result said }
{
    run_accepted(
        alloc,
        AcceptedNetwork::of_plan(checked),
        termini,
        events,
        output,
        errors,
    )
}

/// Plays events in the network of a checked move, and gives on `output` what comes of each.
///
/// The termini are those of the plan before: one for each node that has one, in its order. The outcomes are those of a
/// run from rest over these termini. Where the termini are as planned, it is a run from the start. In it a walker
/// collects the planned records, where nobody else puts packets in under its keys. Where memory runs out, the lines of
/// what was played before are out, and `errors` says so.
pub fn run_simmove<T: Terminus, O: Sink, E: Sink>(
    alloc: Global,
    checked: CheckedMove,
    termini: Vec<T>,
    events: &[Event],
    output: &mut O,
    errors: &mut E,
) -> Status
    requires output { HasRoom (O.account output.old) }
    requires errors { HasRoom (E.account errors.old) }
    requires termini { length termini.items ≡ length (planned_termini checked.0 checked.2) }
    ensures plays { let outputs = stream O.account output.old output.new in
        map (resting T.tid T.records) termini.items ≡ planned_termini checked.entry.0 checked.entry.2
        → SimulatesBy (moving checked.entry.0 checked.entry.1) checked.entry.2 (map event_value events.now) result outputs }
    ensures rests { let outputs = stream O.account output.old output.new in
        SimulatesFrom (moving checked.entry.0 checked.entry.1) (without_walkers (at_rest checked.entry.0 (map (resting T.tid T.records) termini.items)))
        (map event_value events.now) result outputs }
    // Every run of the network with its walkers keeps the headline, and what is promised of deliveries.
    ensures promises { IsPromised (moving checked.entry.0 checked.entry.1) checked.entry.2 }
    ensures silent { result ≡ Yes → errors.new ≡ errors.old }
    // Where not all lines are out, standard error has the line that says why.
    ensures reports { let said = stream E.account errors.old errors.new in
        ReportsPlay result said }
{
    run_accepted(
        alloc,
        AcceptedNetwork::of_move(checked),
        termini,
        events,
        output,
        errors,
    )
}

/// Plays events in the network of what was checked, and gives on `output` what comes of each.
fn run_accepted<T: Terminus, O: Sink, E: Sink>(
    alloc: Global,
    accepted: AcceptedNetwork,
    termini: Vec<T>,
    events: &[Event],
    output: &mut O,
    errors: &mut E,
) -> Status
    requires output { HasRoom (O.account output.old) }
    requires errors { HasRoom (E.account errors.old) }
    ensures plays { let outputs = stream O.account output.old output.new in
        map (resting T.tid T.records) termini.items ≡ planned_termini accepted.entry.0.plan accepted.entry.1
        → SimulatesBy accepted.entry.0 accepted.entry.1 (map event_value events.now) result outputs }
    ensures rests { let outputs = stream O.account output.old output.new in
        SimulatesFrom accepted.entry.0 (without_walkers (at_rest accepted.entry.0.plan (map (resting T.tid T.records) termini.items)))
        (map event_value events.now) result outputs }
    ensures promises { IsPromised accepted.entry.0 accepted.entry.1 }
    ensures silent { result ≡ Yes → errors.new ≡ errors.old }
    ensures reports { let said = stream E.account errors.old errors.new in
        ReportsPlay result said }
{
    match play_accepted(alloc, accepted, termini, events, output) {
        Ok(()) => Status::Yes,
        Err(refused) => refuse(alloc, refused, errors),
    }
}

/// The same without standard error.
fn play_accepted<T: Terminus, O: Sink>(
    alloc: Global,
    accepted: AcceptedNetwork,
    termini: Vec<T>,
    events: &[Event],
    output: &mut O,
) -> Result<(), Refused>
    requires { HasRoom (O.account output.old) }
    ensures plays { let outputs = stream O.account output.old output.new in
        map (resting T.tid T.records) termini.items ≡ planned_termini accepted.entry.0.plan accepted.entry.1
        → PlaysBy accepted.entry.0 accepted.entry.1 (map event_value events.now) result outputs }
    ensures rests { let outputs = stream O.account output.old output.new in
        PlaysFrom accepted.entry.0 (without_walkers (at_rest accepted.entry.0.plan (map (resting T.tid T.records) termini.items)))
        (map event_value events.now) result outputs }
    ensures promises { IsPromised accepted.entry.0 accepted.entry.1 }
{
    // (that the plan is accepted is known of it once it is taken out)
    let _plan = accepted.plan();
    let network = Network::start(alloc, accepted, termini)?;
    play_in(alloc, network, events, output)
}

/// Plays events in the network of what was checked, with the termini that are planned.
pub fn play_planned<O: Sink>(
    alloc: Global,
    accepted: AcceptedNetwork,
    events: &[Event],
    output: &mut O,
) -> Result<Status, Refused>
    requires { HasRoom (O.account output.old) }
    ensures { let happening = map event_value events.now in
        PlaysSo (RunsIn accepted.entry.0 accepted.entry.1 happening) (λ text. ⊥) (IsTextIn accepted.entry.0 accepted.entry.1 happening)
        (λ why. ⊥) (output.new ≡ output.old) result (stream O.account output.old output.new) }
{
    let network = planned_network(alloc, accepted)?;
    play_in(alloc, network, events, output)?;
    Ok(Status::Yes)
}

/// Plays events in a network, and gives on `output` what comes of each.
fn play_in<T: Terminus, O: Sink>(
    alloc: Global,
    mut network: Network<T>,
    events: &[Event],
    output: &mut O,
) -> Result<(), Refused>
    requires { HasRoom (O.account output.old) }
    ensures plays { (w : WalkedState) → StandsForWalked (network_value T.tid T.records network.entry) w
        → PlaysFrom (checked_of network.entry).0 w (map event_value events.now) result (stream O.account output.old output.new) }
    ensures walks { let checked = checked_of network.entry in
        StandsForWalked (network_value T.tid T.records network.entry) (walked_at_start checked.0.plan checked.1)
        → PlaysBy checked.0 checked.1 (map event_value events.now) result (stream O.account output.old output.new) }
{
    let plan = network.plan();
    let played = network.run(events)?;
    print_outcomes(alloc, plan, &played.outcomes, output)?;
    if played.stopped {
        // no memory: the run stopped at a growth that was refused.
        return Err(Refused::NoMemory);
    }
    Ok(())
}

/// How a run ends that was answered so: where there is no answer, `errors` says why.
pub fn end<E: Sink>(alloc: Global, answered: Result<Status, Refused>, errors: &mut E) -> Status
    requires { HasRoom (E.account errors.old) }
    ensures ended { IfOk answered (λ status. result ≡ status) }
    ensures refuses { let said = stream E.account errors.old errors.new in
        IfErr answered (λ why. Refuses why result said) }
    ensures unwritten { IfErr answered (λ why. why ≡ Unwritten → result ≡ Unreadable) }
    ensures silent { (result ≡ Yes) ⊎ (result ≡ Fault) → errors.new ≡ errors.old }
{
    match answered {
        Ok(status) => status,
        Err(refused) => refuse(alloc, refused, errors),
    }
}

/// Writes the lines of the outcomes, many at once.
fn print_outcomes<O: Sink>(
    alloc: Global,
    plan: &Plan,
    outcomes: &[Outcome],
    output: &mut O,
) -> Result<(), Refused>
    requires { HasRoom (O.account output.old) }
    ensures { let outputs = stream O.account output.old output.new in
        ShowsAllOr result ((shown : ℕ) × ShowsLines plan.now (map outcome_value outcomes.now) shown outputs)
        (ShowsLines plan.now (map outcome_value outcomes.now) (length outcomes.now) outputs)
        (AreFirstLines plan.now (map outcome_value outcomes.now)) outputs }
{
    let mut gathered = Gathered::new(alloc);
    for (index, outcome) in outcomes.iter().enumerate() {
        match outcome_line(alloc, plan, index + 1, outcome) {
            Ok(line) => gathered.add(&line, output)?,
            Err(error) => {
                gathered.write(output)?;
                return Err(Refused::from(error));
            }
        }
    }
    gathered.write(output)
}
