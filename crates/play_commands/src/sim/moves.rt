//! The command `simmove` over the files that it reads.
ghost use Rattle.std.specs.Prelude.{◌≡◌, IfOk, IfErr, map};
ghost use Rattle.net_plan.specs.Stream.{HasRoom};
ghost use Rattle.net_sim.specs.Outcomes.{event_value};
ghost use Rattle.command_answers.{specs.Answers.{stream, IsWithoutPlan}, specs.Moves.{AreWithoutMoveCertificate, IsMoveFaultText}};
ghost use Rattle.play_commands.{specs.MoveSimulating.{IsPlayGiven, MovesOn, IsMovePlayText, TellsMovedRun, IsPlayFault, IsPlayAnswer, IsPlayUnread}, specs.Simulating.{PlaysSo, ConcludesPlay}};

use crate::sim::{end, play_planned};
use command_answers::{Refused, Status, give, given_events, move_fault_answer, read_move};
use net_check::{AcceptedNetwork, check_move};
use net_plan::{Sink, Source};
use plan_values::{Certificate, Event, Plan};
use std::alloc::Global;

/// Gives on `output` what comes of the events of a file in the network of the plan before, whose nodes may switch to
/// the rows of the plan after, or the fault for which the move is not accepted. Of files that can't be read the first
/// is told on `errors`, and those after it are not read.
pub fn simulate_move<P: Source, Q: Source, C: Source, V: Source, O: Sink, E: Sink>(
    alloc: Global,
    before: &mut P,
    after: &mut Q,
    certificate: &mut C,
    events: &mut V,
    output: &mut O,
    errors: &mut E,
) -> Status
    requires before { HasRoom (P.account before.old) }
    requires after { HasRoom (Q.account after.old) }
    requires certificate { HasRoom (C.account certificate.old) }
    requires events { HasRoom (V.account events.old) }
    requires output { HasRoom (O.account output.old) }
    requires errors { HasRoom (E.account errors.old) }
    ensures concludes { let befores = stream P.account before.old before.new in
        let afters = stream Q.account after.old after.new in
        let certificates = stream C.account certificate.old certificate.new in
        let happenings = stream V.account events.old events.new in
        ConcludesPlay (TellsMovedRun befores afters certificates happenings) (IsPlayFault befores afters certificates happenings)
        (IsPlayAnswer befores afters certificates happenings) (λ why. IsPlayUnread why befores afters certificates happenings) result
        (stream O.account output.old output.new) (stream E.account errors.old errors.new)
        (output.new ≡ output.old) (errors.new ≡ errors.old) }
    ensures in_order { IsWithoutPlan (stream P.account before.old before.new)
        → (after.new ≡ after.old) × (certificate.new ≡ certificate.old) × (events.new ≡ events.old) }
    ensures after_in_order { IsWithoutPlan (stream Q.account after.old after.new)
        → (certificate.new ≡ certificate.old) × (events.new ≡ events.old) }
    ensures certified_in_order { AreWithoutMoveCertificate (stream P.account before.old before.new)
        (stream Q.account after.old after.new) (stream C.account certificate.old certificate.new)
        → events.new ≡ events.old }
{
    let answered = answer_move_files(alloc, before, after, certificate, events, output);
    end(alloc, answered, errors)
}

fn answer_move_files<P: Source, Q: Source, C: Source, V: Source, O: Sink>(
    alloc: Global,
    before: &mut P,
    after: &mut Q,
    certificate: &mut C,
    events: &mut V,
    output: &mut O,
) -> Result<Status, Refused>
    requires before { HasRoom (P.account before.old) }
    requires after { HasRoom (Q.account after.old) }
    requires certificate { HasRoom (C.account certificate.old) }
    requires events { HasRoom (V.account events.old) }
    requires output { HasRoom (O.account output.old) }
    ensures plays { let befores = stream P.account before.old before.new in
        let afters = stream Q.account after.old after.new in
        let certificates = stream C.account certificate.old certificate.new in
        let happenings = stream V.account events.old events.new in
        PlaysSo (TellsMovedRun befores afters certificates happenings) (IsPlayFault befores afters certificates happenings)
        (IsPlayAnswer befores afters certificates happenings) (λ why. IsPlayUnread why befores afters certificates happenings)
        (output.new ≡ output.old) result (stream O.account output.old output.new) }
    ensures in_order { IsWithoutPlan (stream P.account before.old before.new)
        → (after.new ≡ after.old) × (certificate.new ≡ certificate.old) × (events.new ≡ events.old) }
    ensures after_in_order { IsWithoutPlan (stream Q.account after.old after.new)
        → (certificate.new ≡ certificate.old) × (events.new ≡ events.old) }
    ensures certified_in_order { AreWithoutMoveCertificate (stream P.account before.old before.new)
        (stream Q.account after.old after.new) (stream C.account certificate.old certificate.new)
        → events.new ≡ events.old }
{
    let (before, after, certificate, events) = read_move_files(
        alloc,
        before,
        after,
        certificate,
        events,
    )?;
    play_move(
        alloc,
        &before,
        &after,
        &certificate,
        events.as_slice(),
        output,
    )
}

/// The plans, their certificate and the events. Each is read only where those before it could be read; the certificate
/// and the events are read for the plan before.
fn read_move_files<P: Source, Q: Source, C: Source, V: Source>(
    alloc: Global,
    before: &mut P,
    after: &mut Q,
    certificate: &mut C,
    events: &mut V,
) -> Result<(Plan, Plan, Certificate, Vec<Event>), Refused>
    requires before { HasRoom (P.account before.old) }
    requires after { HasRoom (Q.account after.old) }
    requires certificate { HasRoom (C.account certificate.old) }
    requires events { HasRoom (V.account events.old) }
    ensures given { let befores = stream P.account before.old before.new in
        let afters = stream Q.account after.old after.new in
        let certificates = stream C.account certificate.old certificate.new in
        let happenings = stream V.account events.old events.new in
        IfOk result (λ read. IsPlayGiven befores afters certificates happenings read.0 read.1 read.2 read.3.items) }
    ensures unread { let befores = stream P.account before.old before.new in
        let afters = stream Q.account after.old after.new in
        let certificates = stream C.account certificate.old certificate.new in
        let happenings = stream V.account events.old events.new in
        IfErr result (λ why. IsPlayUnread why befores afters certificates happenings) }
    ensures in_order { IsWithoutPlan (stream P.account before.old before.new)
        → (after.new ≡ after.old) × (certificate.new ≡ certificate.old) × (events.new ≡ events.old) }
    ensures after_in_order { IsWithoutPlan (stream Q.account after.old after.new)
        → (certificate.new ≡ certificate.old) × (events.new ≡ events.old) }
    ensures certified_in_order { AreWithoutMoveCertificate (stream P.account before.old before.new)
        (stream Q.account after.old after.new) (stream C.account certificate.old certificate.new)
        → events.new ≡ events.old }
{
    let (before, after, certificate) = read_move(alloc, before, after, certificate)?;
    let events = given_events(alloc, &before, events)?;
    Ok((before, after, certificate, events))
}

/// Gives what comes of events in the network of a move, or the fault for which the move is not accepted.
fn play_move<O: Sink>(
    alloc: Global,
    before: &Plan,
    after: &Plan,
    certificate: &Certificate,
    events: &[Event],
    output: &mut O,
) -> Result<Status, Refused>
    requires { HasRoom (O.account output.old) }
    ensures { let happening = map event_value events.now in
        PlaysSo (MovesOn before.now after.now certificate.now happening) (IsMoveFaultText before.now after.now certificate.now)
        (IsMovePlayText before.now after.now certificate.now happening) (λ why. ⊥) (output.new ≡ output.old) result
        (stream O.account output.old output.new) }
{
    match check_move(alloc, before, after, certificate) {
        Ok(checked) => play_planned(alloc, AcceptedNetwork::of_move(checked), events, output),
        Err(error) => give(&move_fault_answer(alloc, before, &error)?, output),
    }
}
