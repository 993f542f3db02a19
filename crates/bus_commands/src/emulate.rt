//! The command `emulate`: a planned node on a line protocol.
ghost use Rattle.std.specs.Prelude.{◌≡◌, ◌<◌, Ok, length};
ghost use Rattle.command_answers.{specs.Answers.{stream, IsWithoutPlan, AreWithoutCertificate}, specs.declared.status.Status.TheVariants.{Fault}};
ghost use Rattle.net_plan.specs.Stream.{HasRoom};
ghost use Rattle.bus_commands.{specs.Emulating.{AnswersEmulation, AnswersNode, AnswersOn, EndsEmulation}, specs.Playing.{KeepsRoom}};

use crate::player::NodePlayer;
use crate::playing::{Stop, play_lines};
use crate::start::start;
use command_answers::{Refused, Status, fault_answer, first_named, give, read_inputs, refuse};
use command_questions::Emulation;
use net_check::{Checked, check};
use net_plan::{Sink, Source};
use plan_values::{Certificate, Plan};
use std::alloc::Global;

/// Emulates a node of a plan where the certificate fits the plan, or tells the fault there.
///
/// `packets` gives lines: the name of a bus, a blank, and in hex a packet that comes to the node over that bus. What
/// the node sends is written on `output` as such lines, for each line before the next one is read. Where the question
/// asks for it, the physical address to which a packet is sent stands behind the bus, in hex, or a line `.` behind what
/// is sent for each line that isn't empty. On `errors` a line that begins with `#` says of what nothing comes, and why. Where a file can't be read, or then where the plan has no
/// node of the name, says so on `errors`, and reads no packets.
pub fn run_emulate<P: Source, C: Source, I: Source, O: Sink, E: Sink>(
    alloc: Global,
    emulation: &Emulation,
    plan: &mut P,
    certificate: &mut C,
    packets: &mut I,
    output: &mut O,
    errors: &mut E,
) -> Status
    requires plan { HasRoom (P.account plan.old) }
    requires certificate { HasRoom (C.account certificate.old) }
    requires packets { HasRoom (I.account packets.old) }
    requires output { HasRoom (O.account output.old) }
    requires errors { HasRoom (E.account errors.old) }
    ensures emulates { let plans = stream P.account plan.old plan.new in
        let certificates = stream C.account certificate.old certificate.new in
        EndsEmulation emulation.now plans certificates result (stream I.account packets.old packets.new)
        (stream O.account output.old output.new) (stream E.account errors.old errors.new) }
    ensures silent { result ≡ Fault → errors.new ≡ errors.old }
    ensures unread { result ≡ Fault → packets.new ≡ packets.old }
    ensures in_order { IsWithoutPlan (stream P.account plan.old plan.new)
        → (certificate.new ≡ certificate.old) × (packets.new ≡ packets.old) × (output.new ≡ output.old) }
    ensures certified_in_order { AreWithoutCertificate (stream P.account plan.old plan.new) (stream C.account certificate.old certificate.new)
        → (packets.new ≡ packets.old) × (output.new ≡ output.old) }
{
    match answer_emulation(alloc, emulation, plan, certificate, packets, output, errors) {
        Ok(status) => status,
        Err(Stop::Refused(why)) => refuse(alloc, why, errors),
        Err(Stop::Unsaid) => Status::Unreadable,
    }
}

/// The same, but for what is said of a run that stops.
fn answer_emulation<P: Source, C: Source, I: Source, O: Sink, E: Sink>(
    alloc: Global,
    emulation: &Emulation,
    plan: &mut P,
    certificate: &mut C,
    packets: &mut I,
    output: &mut O,
    errors: &mut E,
) -> Result<Status, Stop>
    requires plan { HasRoom (P.account plan.old) }
    requires certificate { HasRoom (C.account certificate.old) }
    requires packets { HasRoom (I.account packets.old) }
    requires output { HasRoom (O.account output.old) }
    requires errors { HasRoom (E.account errors.old) }
    ensures answers { let plans = stream P.account plan.old plan.new in
        let certificates = stream C.account certificate.old certificate.new in
        AnswersEmulation emulation.now plans certificates result (stream I.account packets.old packets.new)
        (stream O.account output.old output.new) (stream E.account errors.old errors.new) }
    ensures noted { KeepsRoom result (stream E.account errors.old errors.new) }
    ensures silent { result ≡ Ok Fault → errors.new ≡ errors.old }
    ensures unread { result ≡ Ok Fault → packets.new ≡ packets.old }
    ensures in_order { IsWithoutPlan (stream P.account plan.old plan.new)
        → (certificate.new ≡ certificate.old) × (packets.new ≡ packets.old) × (output.new ≡ output.old) × (errors.new ≡ errors.old) }
    ensures certified_in_order { AreWithoutCertificate (stream P.account plan.old plan.new) (stream C.account certificate.old certificate.new)
        → (packets.new ≡ packets.old) × (output.new ≡ output.old) }
{
    let (plan, certificate) = read_inputs(alloc, plan, certificate)?;
    answer_on(
        alloc,
        emulation,
        &plan,
        &certificate,
        packets,
        output,
        errors,
    )
}

/// Emulates a node of a plan with its certificate.
fn answer_on<I: Source, O: Sink, E: Sink>(
    alloc: Global,
    emulation: &Emulation,
    plan: &Plan,
    certificate: &Certificate,
    packets: &mut I,
    output: &mut O,
    errors: &mut E,
) -> Result<Status, Stop>
    requires packets { HasRoom (I.account packets.old) }
    requires output { HasRoom (O.account output.old) }
    requires errors { HasRoom (E.account errors.old) }
    ensures answers { AnswersOn emulation.now plan.now certificate.now result (stream I.account packets.old packets.new)
        (stream O.account output.old output.new) (stream E.account errors.old errors.new) }
    ensures noted { KeepsRoom result (stream E.account errors.old errors.new) }
    ensures silent { result ≡ Ok Fault → errors.new ≡ errors.old }
    ensures unread { result ≡ Ok Fault → packets.new ≡ packets.old }
{
    let Some(node) = first_named(plan, emulation.node) else {
        return Err(Stop::Refused(Refused::UnknownNode));
    };
    match check(alloc, plan, certificate) {
        Ok(checked) => {
            emulate(alloc, &checked, node, emulation, packets, output, errors)?;
            Ok(Status::Yes)
        }
        Err(error) => {
            let answer = fault_answer(alloc, plan, &error)?;
            let status = give(&answer, output)?;
            Ok(status)
        }
    }
}

/// Emulates a node of a checked plan.
fn emulate<I: Source, O: Sink, E: Sink>(
    alloc: Global,
    checked: &Checked,
    node: usize,
    emulation: &Emulation,
    packets: &mut I,
    output: &mut O,
    errors: &mut E,
) -> Result<(), Stop>
    requires node { node < length checked.now.0.nodes.items }
    requires packets { HasRoom (I.account packets.old) }
    requires output { HasRoom (O.account output.old) }
    requires errors { HasRoom (E.account errors.old) }
    ensures plays { AnswersNode emulation.now checked.now.0 checked.now.1 node result (stream I.account packets.old packets.new)
        (stream O.account output.old output.new) (stream E.account errors.old errors.new) }
    ensures noted { KeepsRoom result (stream E.account errors.old errors.new) }
{
    match start(alloc, checked, node, emulation.is_configured) {
        Ok(emulated) => {
            let mut player = NodePlayer {
                alloc,
                form: emulation.form,
                emulated,
            };
            play_lines(alloc, &mut player, packets, output, errors)
        }
        // no memory: `start` has no other error.
        Err(_) => Err(Stop::Refused(Refused::NoMemory)),
    }
}
