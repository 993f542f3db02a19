//! The command `sim` over the files that it reads.
ghost use Rattle.std.specs.Prelude.{◌≡◌, IfOk, IfErr, map};
ghost use Rattle.net_plan.specs.Stream.{HasRoom};
ghost use Rattle.net_sim.specs.Outcomes.{event_value};
ghost use Rattle.command_answers.{specs.Answers.{stream, IsWithoutPlan, AreGiven, AreWithoutCertificate, IsFaultText}, specs.Inputs.{GaveEvents}};
ghost use Rattle.play_commands.specs.Simulating.{RunsOn, IsPlayText, AreUnreadAmong, PlaysSo, ConcludesPlay, TellsRun, IsSimFault, IsSimAnswer};

use crate::sim::{end, play_planned};
use command_answers::{Refused, Status, fault_answer, give, given_events, read_inputs};
use net_check::{AcceptedNetwork, check};
use net_plan::{Sink, Source};
use plan_values::{Certificate, Event, Plan};
use std::alloc::Global;

/// Gives on `output` what comes of the events of a file in the network of a plan with its certificate, or the fault for
/// which they are not accepted. Of files that can't be read the first is told on `errors`, and those after it are not
/// read.
pub fn simulate<P: Source, C: Source, V: Source, O: Sink, E: Sink>(
    alloc: Global,
    plan: &mut P,
    certificate: &mut C,
    events: &mut V,
    output: &mut O,
    errors: &mut E,
) -> Status
    requires plan { HasRoom (P.account plan.old) }
    requires certificate { HasRoom (C.account certificate.old) }
    requires events { HasRoom (V.account events.old) }
    requires output { HasRoom (O.account output.old) }
    requires errors { HasRoom (E.account errors.old) }
    ensures concludes { let plans = stream P.account plan.old plan.new in
        let certificates = stream C.account certificate.old certificate.new in
        let happenings = stream V.account events.old events.new in
        ConcludesPlay (TellsRun plans certificates happenings) (IsSimFault plans certificates happenings)
        (IsSimAnswer plans certificates happenings) (λ why. AreUnreadAmong why plans certificates happenings) result
        (stream O.account output.old output.new) (stream E.account errors.old errors.new)
        (output.new ≡ output.old) (errors.new ≡ errors.old) }
    ensures in_order { IsWithoutPlan (stream P.account plan.old plan.new)
        → (certificate.new ≡ certificate.old) × (events.new ≡ events.old) }
    ensures certified_in_order { AreWithoutCertificate (stream P.account plan.old plan.new) (stream C.account certificate.old certificate.new)
        → events.new ≡ events.old }
{
    let answered = answer_files(alloc, plan, certificate, events, output);
    end(alloc, answered, errors)
}

fn answer_files<P: Source, C: Source, V: Source, O: Sink>(
    alloc: Global,
    plan: &mut P,
    certificate: &mut C,
    events: &mut V,
    output: &mut O,
) -> Result<Status, Refused>
    requires plan { HasRoom (P.account plan.old) }
    requires certificate { HasRoom (C.account certificate.old) }
    requires events { HasRoom (V.account events.old) }
    requires output { HasRoom (O.account output.old) }
    ensures plays { let plans = stream P.account plan.old plan.new in
        let certificates = stream C.account certificate.old certificate.new in
        let happenings = stream V.account events.old events.new in
        PlaysSo (TellsRun plans certificates happenings) (IsSimFault plans certificates happenings)
        (IsSimAnswer plans certificates happenings) (λ why. AreUnreadAmong why plans certificates happenings)
        (output.new ≡ output.old) result (stream O.account output.old output.new) }
    ensures in_order { IsWithoutPlan (stream P.account plan.old plan.new)
        → (certificate.new ≡ certificate.old) × (events.new ≡ events.old) }
    ensures certified_in_order { AreWithoutCertificate (stream P.account plan.old plan.new) (stream C.account certificate.old certificate.new)
        → events.new ≡ events.old }
{
    let (plan, certificate, events) = read_run(alloc, plan, certificate, events)?;
    play(alloc, &plan, &certificate, events.as_slice(), output)
}

/// The plan, its certificate and the events. Each is read only where those before it could be read.
pub fn read_run<P: Source, C: Source, V: Source>(
    alloc: Global,
    plan: &mut P,
    certificate: &mut C,
    events: &mut V,
) -> Result<(Plan, Certificate, Vec<Event>), Refused>
    requires plan { HasRoom (P.account plan.old) }
    requires certificate { HasRoom (C.account certificate.old) }
    requires events { HasRoom (V.account events.old) }
    ensures given { let plans = stream P.account plan.old plan.new in
        let certificates = stream C.account certificate.old certificate.new in
        IfOk result (λ read. AreGiven plans certificates read.0 read.1) }
    ensures events { let happenings = stream V.account events.old events.new in
        IfOk result (λ read. GaveEvents read.0 happenings read.2.items) }
    ensures unread { let plans = stream P.account plan.old plan.new in
        let certificates = stream C.account certificate.old certificate.new in
        let happenings = stream V.account events.old events.new in
        IfErr result (λ why. AreUnreadAmong why plans certificates happenings) }
    ensures in_order { IsWithoutPlan (stream P.account plan.old plan.new)
        → (certificate.new ≡ certificate.old) × (events.new ≡ events.old) }
    ensures certified_in_order { AreWithoutCertificate (stream P.account plan.old plan.new) (stream C.account certificate.old certificate.new)
        → events.new ≡ events.old }
{
    let (plan, certificate) = read_inputs(alloc, plan, certificate)?;
    let events = given_events(alloc, &plan, events)?;
    Ok((plan, certificate, events))
}

/// Gives what comes of events in the network of a plan with its certificate, or the fault for which they are not
/// accepted.
fn play<O: Sink>(
    alloc: Global,
    plan: &Plan,
    certificate: &Certificate,
    events: &[Event],
    output: &mut O,
) -> Result<Status, Refused>
    requires { HasRoom (O.account output.old) }
    ensures { let happening = map event_value events.now in
        PlaysSo (RunsOn plan.now certificate.now happening) (IsFaultText plan.now certificate.now)
        (IsPlayText plan.now certificate.now happening) (λ why. ⊥) (output.new ≡ output.old) result
        (stream O.account output.old output.new) }
{
    match check(alloc, plan, certificate) {
        Ok(checked) => play_planned(alloc, AcceptedNetwork::of_plan(checked), events, output),
        Err(error) => give(&fault_answer(alloc, plan, &error)?, output),
    }
}
