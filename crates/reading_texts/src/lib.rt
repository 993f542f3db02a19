//! The lines that tell why a text doesn't read, and where.
#![tactic(auto)]

ghost use Rattle.std.{specs.Prelude.{◌≡◌, ◌<◌, ◌≤◌, None, Some, IfOk, IfErr, IsTrue, MatchOption, OnOk, length, map, string_bytes, vec_len}, specs.List.{list_all}};
ghost use Rattle.json.specs.Value.{value_view};
ghost use Rattle.net_plan.{specs.CertificateReading.{certificate}, specs.CertificateText.{IsCertificateOf}, specs.EventReading.{events}, specs.EventText.{AreEventsOf}, specs.PlanReading.{plan}, specs.PlanText.{IsPlanOf}, specs.Refusals.{IsNoValue}, specs.Texts.{IsJson, IsTree, IsJsonTextOf}, specs.Trees.{view}, specs.Limits.{most_text_bytes, most_events}};
ghost use Rattle.plan_values.{specs.CertificateValues.{are_known, certificate_value}, specs.EventValues.{event_entry, is_known_event}, specs.PlanValues.{node_names, plan_value}};
ghost use Rattle.net_pointers.{specs.Asks.{asks, asks_of, certificate_text, events_text, plan_text, sort_of}, specs.Offsets.{IsTextOf}, specs.OrderOfTests.{IsTold}, specs.TextTroubles.{IsToldOfNoValue}};
ghost use Rattle.reading_texts.{specs.ReadingLines.{unread_code, unread_line}, specs.TextErrors.{IsFaultOfValue, IsNoValueTold, IsToldAs, IsToldOf, IsToldTooLong}, specs.declared.text_error.TextError.TheVariants.{Faulty}, specs.TroubleLines.{AreLines, AreTroubleLines}};

mod joined;
mod names;
mod positions;
mod shapes;
mod shown;
mod syntax;
mod syntax_causes;
mod text_error;
mod twice;
mod values;

use json::{Scratch, Value};
use names::unknown_name_lines;
use net_plan::{
    PlanError, PointerStep, certificate_at_once, certificate_of_value, events_at_once,
    events_of_value, json_of, plan_at_once, plan_of_value,
};
use net_pointers::{Asked, TextSort, TextTrouble, Trouble, asked_of, no_value, trouble_of};
use plan_values::{Certificate, Event, Plan};
pub use positions::pointer_text;
use shapes::also_words;
use std::alloc::{AllocError, Global};
use syntax::json_lines;
pub use text_error::{TextError, TextFault};
use twice::{doubled_key_lines, doubled_name_lines, overlap_lines};
use values::value_line;

/// The code of why a text gave nothing; `file` where the source failed.
pub fn unread_code(cause: PlanError) -> &'static str
    ensures { result.now ≡ unread_code cause }
{
    match cause {
        PlanError::NotJson => "J01",
        PlanError::WrongKind => "J02",
        PlanError::MissingKey => "J03",
        PlanError::UnknownKey => "J04",
        PlanError::OutOfRange => "J05",
        PlanError::UnknownName => "J06",
        PlanError::BadHex => "J07",
        PlanError::OverLimit => "J08",
        PlanError::Doubled => "J09",
        PlanError::Device => "file",
        PlanError::OutOfMemory => "no memory",
    }
}

/// The line that tells that a text doesn't read: `role` says whose it is.
pub fn unread_line(alloc: Global, role: &str, cause: PlanError) -> Result<String, AllocError>
    ensures { IfOk result (λ line. string_bytes line ≡ unread_line role.now cause) }
{
    let code = unread_code(cause);
    format!(in alloc; "unreadable {role}: {code}\n")
}

/// The plan that a text stands for. The error tells the text's first fault in the order of tests: where that stands,
/// and what may stand there.
pub fn plan_or_fault(alloc: Global, text: &[u8]) -> Result<Plan, TextError>
    ensures ok { IfOk result (λ plan. IsJsonTextOf IsPlanOf text.now (plan_value plan)) }
    ensures refused { IfErr result (IsToldAs plan_text plan IsPlanOf text.now) }
    ensures too_long { most_text_bytes < length text.now → IsToldTooLong text.now result }
{
    if let Some(plan) = plan_at_once(alloc, text) {
        return Ok(plan);
    }
    let mut scratch = Scratch::new(alloc);
    let value = sound_value(alloc, TextSort::Plan, text, &mut scratch)?;
    match plan_of_value(alloc, &value) {
        Ok(plan) => Ok(plan),
        Err(error) => Err(no_memory(error)),
    }
}

/// The certificate that a text stands for, whose entries name nodes of this plan. The error is as of a plan's text.
pub fn certificate_or_fault(
    alloc: Global,
    plan: &Plan,
    text: &[u8],
) -> Result<Certificate, TextError>
    ensures ok { IfOk result (λ certificate. IsJsonTextOf (IsCertificateOf (plan_value plan.now)) text.now (certificate_value certificate)) }
    ensures known { IfOk result (λ certificate. IsTrue (are_known (length plan.now.nodes.items) (certificate_value certificate))) }
    ensures refused { let nodes = node_names (plan_value plan.now).nodes in
        IfErr result (IsToldAs (certificate_text nodes) (certificate nodes) (IsCertificateOf (plan_value plan.now)) text.now) }
    ensures too_long { most_text_bytes < length text.now → IsToldTooLong text.now result }
{
    if let Some(certificate) = certificate_at_once(alloc, plan, text) {
        return Ok(certificate);
    }
    let mut scratch = Scratch::new(alloc);
    let value = sound_value(alloc, TextSort::Certificate(plan), text, &mut scratch)?;
    match certificate_of_value(alloc, plan, &value) {
        Ok(certificate) => Ok(certificate),
        Err(error) => Err(no_memory(error)),
    }
}

/// The events that a text stands for, at nodes of this plan. The error is as of a plan's text.
pub fn events_or_fault(alloc: Global, plan: &Plan, text: &[u8]) -> Result<Vec<Event>, TextError>
    ensures ok { IfOk result (λ events. IsJsonTextOf (AreEventsOf (plan_value plan.now)) text.now (map event_entry events.items)) }
    ensures known { IfOk result (λ events. IsTrue (list_all (is_known_event (length plan.now.nodes.items)) (map event_entry events.items))) }
    ensures within { IfOk result (λ events. vec_len events ≤ most_events) }
    ensures refused { let nodes = node_names (plan_value plan.now).nodes in
        IfErr result (IsToldAs (events_text nodes) (events nodes) (AreEventsOf (plan_value plan.now)) text.now) }
    ensures too_long { most_text_bytes < length text.now → IsToldTooLong text.now result }
{
    if let Some(events) = events_at_once(alloc, plan, text) {
        return Ok(events);
    }
    let mut scratch = Scratch::new(alloc);
    let value = sound_value(alloc, TextSort::Events(plan), text, &mut scratch)?;
    match events_of_value(alloc, plan, &value) {
        Ok(events) => Ok(events),
        Err(error) => Err(no_memory(error)),
    }
}

/// What alone is left where nothing is wrong with a value.
fn no_memory(_error: PlanError) -> TextError
    requires { _error ≡ PlanError.OutOfMemory }
    ensures { result ≡ TextError.OutOfMemory }
{
    // no memory: the error is that, by `requires`.
    TextError::OutOfMemory
}

/// The JSON value of a text of a sort, with which nothing is wrong.
fn sound_value<'t>(
    alloc: Global,
    sort: TextSort<'_>,
    text: &'t [u8],
    scratch: &'t mut Scratch,
) -> Result<Value<'t>, TextError>
    ensures json { IfOk result (λ value. IsJson text.now (view value) × IsTree text.now (value_view value)) }
    ensures sound { IfOk result (λ value. IsTold (sort_of sort.entry) (value_view value) None) }
    ensures within { OnOk result (length text.now ≤ most_text_bytes) }
    ensures refused { IfErr result (IsToldOf (sort_of sort.entry) text.now) }
{
    let value = match json_of(alloc, text, scratch) {
        Ok(value) => value,
        Err(error) => return Err(no_value_error(alloc, text, error)),
    };
    match value_fault(alloc, sort, text, &value) {
        Ok(None) => Ok(value),
        Ok(Some(fault)) => Err(TextError::Faulty(fault)),
        // no memory: `value_fault` has no other error.
        Err(_) => Err(TextError::OutOfMemory),
    }
}

/// Why a text that is no value of JSON doesn't read.
fn no_value_error(alloc: Global, text: &[u8], error: PlanError) -> TextError
    requires { IsNoValue text.now error }
    ensures { IsNoValueTold text.now result }
{
    match no_value_fault(alloc, text, error) {
        Ok(fault) => TextError::Faulty(fault),
        // no memory: `no_value_fault` has no other error.
        Err(_) => TextError::OutOfMemory,
    }
}

fn no_value_fault(alloc: Global, text: &[u8], error: PlanError) -> Result<TextFault, AllocError>
    requires { IsNoValue text.now error }
    ensures { IfOk result (λ fault. IsNoValueTold text.now (Faulty fault)) }
{
    let trouble = no_value(alloc, text, error)?;
    let lines = no_value_lines(alloc, text, &trouble)?;
    Ok(TextFault { trouble, lines })
}

/// The lines of a text that is no value of JSON.
fn no_value_lines(alloc: Global, text: &[u8], trouble: &TextTrouble) -> Result<String, AllocError>
    requires { IsToldOfNoValue text.now trouble.now }
    ensures { IfOk result (λ lines. AreTroubleLines plan_text text.now trouble.now (string_bytes lines)) }
{
    match trouble {
        TextTrouble::TooLong(count) => {
            format!(in alloc; "The text has {count} bytes; it may have 16777216.\n")
        }
        TextTrouble::NotJson(fault) => json_lines(alloc, text, *fault),
        TextTrouble::Wrong(_) => unreachable!(),
    }
}

/// What is wrong with the value of a text, if anything is.
fn value_fault(
    alloc: Global,
    sort: TextSort<'_>,
    text: &[u8],
    value: &Value<'_>,
) -> Result<Option<TextFault>, AllocError>
    requires { IsJson text.now (view value.now) × IsTree text.now (value_view value.now) }
    ensures { IfOk result (λ fault. MatchOption fault (IsTold (sort_of sort.entry) (value_view value.now) None) (IsFaultOfValue (sort_of sort.entry) text.now (value_view value.now))) }
{
    let asked = asked_of(alloc, sort, value)?;
    match trouble_of(alloc, sort, &asked, value)? {
        Some(trouble) => {
            let lines = trouble_lines(alloc, sort, &asked, text, value, &trouble)?;
            let trouble = TextTrouble::Wrong(trouble);
            Ok(Some(TextFault { trouble, lines }))
        }
        None => Ok(None),
    }
}

/// Tells what is wrong with the value of a text.
fn trouble_lines(
    alloc: Global,
    sort: TextSort<'_>,
    asked: &Asked<'_>,
    text: &[u8],
    value: &Value<'_>,
    trouble: &Trouble,
) -> Result<String, AllocError>
    requires asked { asks asked.now ≡ asks_of (sort_of sort) (view value.now) }
    requires text { IsTextOf text.now (value_view value.now) }
    requires told { IsTold (sort_of sort) (value_view value.now) (Some trouble.now) }
    ensures { IfOk result (λ lines. AreLines (sort_of sort.entry) text.now (value_view value.now) trouble.now (string_bytes lines)) }
{
    match trouble {
        Trouble::Value(found) => {
            value_line(
                alloc,
                text,
                value,
                found,
                also_in(sort, found.pointer.as_slice()),
            )
        }
        Trouble::DoubledName(list, indices) => {
            doubled_name_lines(alloc, text, value, *list, *indices)
        }
        Trouble::Overlap(overlap) => overlap_lines(alloc, text, value, *overlap),
        Trouble::DoubledKey(doubled) => doubled_key_lines(alloc, text, value, doubled),
        Trouble::UnknownName(found) => {
            unknown_name_lines(alloc, text, value, &asked.known, found)
        }
    }
}

/// What else may stand where a pointer leads: of a plan the other format, and the endpoint IDs that a node has.
fn also_in(sort: TextSort<'_>, pointer: &[PointerStep]) -> &'static str {
    match sort {
        TextSort::Plan => also_words(pointer),
        TextSort::Certificate(_) | TextSort::Events(_) => "",
    }
}
