//! The command `capture`: the hops of a run as a capture file.
ghost use Rattle.std.specs.Prelude.{◌≡◌, IfOk, IfErr, map};
ghost use Rattle.command_answers.{specs.Answers.{stream, IsWithoutPlan, AreWithoutCertificate}, specs.Told.{Concludes}};
ghost use Rattle.net_plan.specs.Stream.{HasRoom};
ghost use Rattle.net_sim.specs.Outcomes.{event_value};
ghost use Rattle.play_commands.specs.Simulating.{AreUnreadAmong};
ghost use Rattle.bus_commands.specs.Capturing.{AnswersCapture, AnswersRun, IsRunFile};
ghost use Rattle.command_answers.specs.declared.refused.Refused.TheVariants as refused;

use crate::hops::{add_hop, departing};
use bus_captures::begin_file;
use command_answers::{
    BytesAnswer, Refused, Status, fault_text, planned_network, refuse, tell_bytes,
};
use net_check::{AcceptedNetwork, Checked, check};
use net_plan::{Sink, Source};
use plan_values::{Certificate, Event, Plan};
use play_commands::read_run;
use std::alloc::{AllocError, Global};

/// Writes on `output` a capture file of the packets that go from a node to the next one while events happen in the
/// network of a plan, where the certificate fits the plan, or tells the fault there. Where a file can't be read, says
/// so on `errors`.
///
/// The file is one of libpcap's, with Linux' second cooked link type. A packet has the number of its event for a
/// second, the number of the bus in the plan's list, from 1 on, for an interface, and the address of the port that sent
/// it.
pub fn run_capture<P: Source, C: Source, V: Source, O: Sink, E: Sink>(
    alloc: Global,
    plan: &mut P,
    certificate: &mut C,
    events: &mut V,
    output: &mut O,
    errors: &mut E,
) -> Status
    requires plan { HasRoom (P.account plan.old) }
    requires certificate { HasRoom (C.account certificate.old) }
    requires events { HasRoom (V.account events.old) }
    requires output { HasRoom (O.account output.old) }
    requires errors { HasRoom (E.account errors.old) }
    ensures concludes { let plans = stream P.account plan.old plan.new in
        let certificates = stream C.account certificate.old certificate.new in
        let happenings = stream V.account events.old events.new in
        Concludes (AnswersCapture plans certificates happenings) (λ why. AreUnreadAmong why plans certificates happenings) result
        (stream O.account output.old output.new) (stream E.account errors.old errors.new)
        (output.new ≡ output.old) (errors.new ≡ errors.old) }
    ensures in_order { IsWithoutPlan (stream P.account plan.old plan.new)
        → (certificate.new ≡ certificate.old) × (events.new ≡ events.old) }
    ensures certified_in_order { AreWithoutCertificate (stream P.account plan.old plan.new) (stream C.account certificate.old certificate.new)
        → events.new ≡ events.old }
{
    match read_run(alloc, plan, certificate, events) {
        Ok((plan, certificate, events)) => {
            let answered = answer_run(alloc, &plan, &certificate, &events);
            tell_bytes(alloc, answered, output, errors)
        }
        Err(refused) => refuse(alloc, refused, errors),
    }
}

/// The answer on a plan, its certificate and events.
fn answer_run(
    alloc: Global,
    plan: &Plan,
    certificate: &Certificate,
    events: &[Event],
) -> Result<BytesAnswer, Refused>
    ensures answers { IfOk result (λ answer. AnswersRun plan.now certificate.now (map event_value events.now) answer.status answer.bytes.items) }
    ensures refused { IfErr result (λ why. why ≡ refused.NoMemory) }
{
    match check(alloc, plan, certificate) {
        Ok(checked) => Ok(BytesAnswer::whole(captured(alloc, checked, events)?)),
        Err(error) => Ok(BytesAnswer::fault(fault_text(alloc, plan, &error)?)),
    }
}

/// The capture file of the events in the network of a checked plan, with the termini that are planned.
fn captured(alloc: Global, checked: Checked, events: &[Event]) -> Result<Vec<u8>, AllocError>
    ensures { IfOk result (λ file. IsRunFile checked.entry.0 checked.entry.1 (map event_value events.now) file.items) }
{
    let plan = checked.plan();
    let mut network = planned_network(alloc, AcceptedNetwork::of_plan(checked))?;
    let mut file = begin_file(alloc)?;
    for (index, event) in events.iter().enumerate() {
        let departure = departing(alloc, &network, event)?;
        let outcome = network.step(event)?;
        add_hop(plan, index + 1, departure, &outcome, &mut file)?;
    }
    Ok(file)
}
