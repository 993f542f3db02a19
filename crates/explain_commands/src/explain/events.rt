//! The command `explain` of a plan with its certificate and events: what `check` answers, why, and why events can't be
//! read.
ghost use Rattle.std.{specs.Prelude.{◌≡◌, ◌≢◌, IfOk, IfErr, map}, specs.Cow.{cow_str_bytes}};
ghost use Rattle.net_plan.{specs.EventText.{AreEventsOf}, specs.Stream.{HasRoom}, specs.Texts.{IsJsonTextOf}};
ghost use Rattle.plan_values.{specs.EventValues.{event_entry}, specs.PlanValues.{plan_value}};
ghost use Rattle.net_rules.specs.Rules.{Accepts};
ghost use Rattle.command_answers.{specs.Answers.{stream, IsWithoutPlan}, specs.Inputs.{GaveEvents}, specs.Told.{ConcludesOnOutput}, specs.UnreadInputs.{AreNoEventsBy, AreNoEventsIn, IsTextOf}};
ghost use Rattle.explain_commands.specs.ExplainingEvents.{AreEventsExplained, IsExplainedWithEvents, AreAllExplained, ExplainsAllSo};
ghost use Rattle.command_answers.specs.declared.refused.Refused.TheVariants as refused;
ghost use Rattle.command_answers.specs.declared.status.Status.TheVariants as status;

use super::certified::explained;
use super::sound_text;
use command_answers::{
    Answer, Input, PlanText, Refused, Status, Unread, certificate_or_text, plan_or_text, tell,
    unread_answer, without_text,
};
use net_check::check;
use net_plan::{Sink, Source, TEXT_LIMIT, read_within};
use plan_values::{Certificate, Event, Plan};
use reading_texts::{TextError, events_or_fault};
use std::alloc::Global;

/// Says on `output` what `check` says of a plan and its certificate, and explains it. Where they are accepted and the
/// events can't be read, it says that there, and where their text has its first fault. Of the files that can't be read
/// the first is told, and the others are not read; the events are not read either where the plan is not accepted. The
/// names are those of the plan's file and the certificate's.
pub fn run_explain_events<P: Source, C: Source, V: Source, O: Sink, E: Sink>(
    alloc: Global,
    name: &str,
    certified_by: &str,
    plan: &mut P,
    certificate: &mut C,
    events: &mut V,
    output: &mut O,
    errors: &mut E,
) -> Status
    requires plan { HasRoom (P.account plan.old) }
    requires certificate { HasRoom (C.account certificate.old) }
    requires events { HasRoom (V.account events.old) }
    requires output { HasRoom (O.account output.old) }
    requires errors { HasRoom (E.account errors.old) }
    ensures concludes { let plans = stream P.account plan.old plan.new in
        let certificates = stream C.account certificate.old certificate.new in
        let happenings = stream V.account events.old events.new in
        ConcludesOnOutput (ExplainsAllSo name.now certified_by.now plans certificates happenings) result
        (stream O.account output.old output.new) (stream E.account errors.old errors.new)
        (output.new ≡ output.old) (errors.new ≡ errors.old) }
    ensures quiet { result ≢ status.NoMemory → (O.account output.new).failures ≡ (O.account output.old).failures → errors.new ≡ errors.old }
    ensures in_order { let plans = stream P.account plan.old plan.new in
        IsWithoutPlan plans → (certificate.new ≡ certificate.old) × (events.new ≡ events.old) }
{
    let answered = answer_explain_events(alloc, name, certified_by, plan, certificate, events);
    tell(alloc, answered, output, errors)
}

fn answer_explain_events<P: Source, C: Source, V: Source>(
    alloc: Global,
    name: &str,
    certified_by: &str,
    plan: &mut P,
    certificate: &mut C,
    events: &mut V,
) -> Result<Answer, Refused>
    requires plan { HasRoom (P.account plan.old) }
    requires certificate { HasRoom (C.account certificate.old) }
    requires events { HasRoom (V.account events.old) }
    ensures answers { let plans = stream P.account plan.old plan.new in
        let certificates = stream C.account certificate.old certificate.new in
        let happenings = stream V.account events.old events.new in
        IfOk result (λ answer. ExplainsAllSo name.now certified_by.now plans certificates happenings answer.status (cow_str_bytes answer.text)) }
    ensures refused { IfErr result (λ why. why ≡ refused.NoMemory) }
    ensures in_order { let plans = stream P.account plan.old plan.new in
        IsWithoutPlan plans → (certificate.new ≡ certificate.old) × (events.new ≡ events.old) }
{
    match plan_or_text(alloc, plan) {
        Ok(given) => answer_of_plan(alloc, name, certified_by, &given, certificate, events),
        Err(unread) => unread_answer(alloc, Input::Plan, &unread),
    }
}

/// The answer on a plan, and the certificate and the events that sources give.
fn answer_of_plan<C: Source, V: Source>(
    alloc: Global,
    name: &str,
    certified_by: &str,
    given: &PlanText,
    certificate: &mut C,
    events: &mut V,
) -> Result<Answer, Refused>
    requires certificate { HasRoom (C.account certificate.old) }
    requires events { HasRoom (V.account events.old) }
    requires text { IsTextOf given.now.text.items given.now.plan }
    ensures answers { let certificates = stream C.account certificate.old certificate.new in
        let happenings = stream V.account events.old events.new in
        IfOk result (λ answer. IsExplainedWithEvents name.now certified_by.now given.now.text.items given.now.plan certificates happenings answer.status (cow_str_bytes answer.text)) }
    ensures refused { IfErr result (λ why. why ≡ refused.NoMemory) }
{
    match certificate_or_text(alloc, &given.plan, certificate) {
        Ok(certificate) => {
            answer_of_both(alloc, name, certified_by, given, &certificate, events)
        }
        Err(unread) => unread_answer(alloc, Input::Certificate, &unread),
    }
}

/// The answer on a plan and a certificate, and the events that a source gives.
fn answer_of_both<V: Source>(
    alloc: Global,
    name: &str,
    certified_by: &str,
    given: &PlanText,
    certificate: &Certificate,
    events: &mut V,
) -> Result<Answer, Refused>
    requires events { HasRoom (V.account events.old) }
    requires text { IsTextOf given.now.text.items given.now.plan }
    ensures answers { let happenings = stream V.account events.old events.new in
        IfOk result (λ answer. AreAllExplained name.now certified_by.now given.now.text.items given.now.plan certificate.now happenings answer.status (cow_str_bytes answer.text)) }
    ensures refused { IfErr result (λ why. why ≡ refused.NoMemory) }
{
    match check(alloc, &given.plan, certificate) {
        Ok(_checked) => answer_of_events(alloc, &given.plan, certificate, events),
        Err(error) => explained(alloc, name, certified_by, given, certificate, &error),
    }
}

/// The answer on the events that a source gives, of a plan and a certificate that are accepted.
fn answer_of_events<V: Source>(
    alloc: Global,
    plan: &Plan,
    certificate: &Certificate,
    events: &mut V,
) -> Result<Answer, Refused>
    requires events { HasRoom (V.account events.old) }
    requires accepted { Accepts plan.now certificate.now }
    ensures answers { let happenings = stream V.account events.old events.new in
        IfOk result (λ answer. AreEventsExplained plan.now certificate.now happenings answer.status (cow_str_bytes answer.text)) }
    ensures refused { IfErr result (λ why. why ≡ refused.NoMemory) }
{
    match events_or_text(alloc, plan, events) {
        Ok(_events) => Ok(Answer::found(sound_text(alloc, plan, certificate)?)),
        Err(unread) => unread_answer(alloc, Input::Events, &unread),
    }
}

/// The events that a source gives at the nodes of a plan, or why it gives none, with the text that it gave.
fn events_or_text<V: Source>(
    alloc: Global,
    plan: &Plan,
    events: &mut V,
) -> Result<Vec<Event>, Unread>
    requires { HasRoom (V.account events.old) }
    ensures given { let happenings = stream V.account events.old events.new in
        IfOk result (λ read. GaveEvents plan.now happenings read.items) }
    ensures unread { let happenings = stream V.account events.old events.new in
        IfErr result (AreNoEventsBy plan.now happenings) }
{
    match read_within(alloc, events, TEXT_LIMIT) {
        Ok(text) => events_in(alloc, plan, text),
        Err(fault) => Err(without_text(fault)),
    }
}

/// The events at a plan's nodes that a text is, or why it is none.
fn events_in(alloc: Global, plan: &Plan, text: Vec<u8>) -> Result<Vec<Event>, Unread>
    ensures given { IfOk result (λ es. IsJsonTextOf (AreEventsOf (plan_value plan.now)) text.items (map event_entry es.items)) }
    ensures unread { IfErr result (AreNoEventsIn plan.now text.items) }
{
    match events_or_fault(alloc, plan, &text) {
        Ok(events) => Ok(events),
        Err(TextError::OutOfMemory) => Err(Unread::NoMemory),
        Err(TextError::Faulty(fault)) => Err(Unread::Text { text, fault }),
    }
}
