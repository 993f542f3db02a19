//! What devices told of their terminus IDs, beside the plan (DSP0240, GetTID).
ghost use Rattle.std.{specs.Prelude.{◌≡◌, ◌++◌, IfOk, Ok, OnOk, map, option_map, option_to_list, string_bytes, codes}, specs.Fmt.{decimal}};
ghost use Rattle.pldm_message.specs.Heads.{outcome_value};
ghost use Rattle.audited_captures.{specs.Exchanges.{concerns, last_that}, specs.Failures.{failed_lines}, specs.Lines.{line_value}, specs.Tids.{AreTids, is_that, tid_ended, tid_failure, tid_line, tid_lines, tid_of, tid_values, tid_words, tells_tid}, specs.Words.{word_value}};

use crate::exchanges::last_concerned;
use crate::failures::failed_lines;
use crate::identities::told_lines;
use crate::lines::{Line, add_difference};
use crate::words::{Body, Word};
use mctp_transport::Eid;
use pldm_message::{CompletionCode, Tid};
use std::alloc::{AllocError, Global};

/// An answer to GetTID: the terminus ID, or why there is none.
pub type TidAnswer = Result<Tid, CompletionCode>;

/// What the device of an endpoint ID answered when its terminus ID was asked for, in the order of the answers.
pub fn tids_of(alloc: Global, words: &[Word], eid: Eid) -> Result<Vec<TidAnswer>, AllocError>
    ensures { IfOk result (λ tids. AreTids eid.value (map word_value words.now) (tid_values tids.items)) }
{
    let mut tids = Vec::new(alloc);
    for i in 0..words.len() {
        add(&mut tids, tid_of(&words[..i], &words[i], eid))?;
    }
    Ok(tids)
}

fn add(tids: &mut Vec<TidAnswer>, tid: Option<TidAnswer>) -> Result<(), AllocError>
    ensures { OnOk result (tid_values tids.new.items ≡ tid_values tids.old.items ++ option_to_list (option_map (outcome_value (λ tid. tid.value)) tid)) }
{
    match tid {
        Some(tid) => Ok(tids.push(tid)?),
        None => Ok(()),
    }
}

/// What a word of the device answers, if it answers a request for the terminus ID, and is the first to do so.
fn tid_of(before: &[Word], word: &Word, eid: Eid) -> Option<TidAnswer>
    ensures { option_map (outcome_value (λ tid. tid.value)) result ≡ tid_of eid.value (map word_value before.now) (word_value word.now) }
{
    if word.responder.value != eid.value {
        return None;
    }
    tid_ended(before, word)
}

fn tid_ended(before: &[Word], word: &Word) -> Option<TidAnswer>
    ensures { option_map (outcome_value (λ tid. tid.value)) result ≡ tid_ended (word_value word.now) (last_that (concerns (word_value word.now)) (map word_value before.now)) }
{
    let Body::TellsTid(outcome) = word.body else {
        return None;
    };
    let Body::AsksTid = last_concerned(before, word)?.body else {
        return None;
    };
    Some(outcome)
}

/// What answers of one device say of its terminus ID.
pub fn tid_lines(
    alloc: Global,
    name: &str,
    planned: Option<u8>,
    tids: &[TidAnswer],
) -> Result<Vec<Line>, AllocError>
    ensures { IfOk result (λ lines. map line_value lines.items ≡ tid_lines name.now planned (tid_values tids.now)) }
{
    let mut told = false;
    let mut lines = Vec::new(alloc);
    let mut failures = Vec::new(alloc);
    for tid in tids {
        told = told || tells_tid(tid);
        add_tid(alloc, &mut lines, name, planned, tid)?;
        add_failure(&mut failures, tid)?;
    }
    let mut all = told_lines(alloc, told, match_text(alloc, name, planned)?, lines)?;
    let mut failed = failed_tids(alloc, name, told || planned.is_none(), &failures)?;
    all.append(&mut failed)?;
    Ok(all)
}

fn tells_tid(tid: &TidAnswer) -> bool
    ensures { result ≡ tells_tid (outcome_value (λ tid. tid.value) tid.now) }
{
    match tid {
        Ok(tid) => tid.value != 0,
        Err(_) => false,
    }
}

fn add_tid(
    alloc: Global,
    lines: &mut Vec<Line>,
    name: &str,
    planned: Option<u8>,
    tid: &TidAnswer,
) -> Result<(), AllocError>
    ensures { OnOk result (map line_value lines.new.items ≡ map line_value lines.old.items ++ tid_line name.now planned (outcome_value (λ tid. tid.value) tid.now)) }
{
    match tid {
        Ok(tid) => add_told(alloc, lines, name, planned, tid.value),
        Err(_) => Ok(()),
    }
}

/// Adds a line where a terminus ID that was told is another than the planned one.
fn add_told(
    alloc: Global,
    lines: &mut Vec<Line>,
    name: &str,
    planned: Option<u8>,
    tid: u8,
) -> Result<(), AllocError>
    ensures { OnOk result (map line_value lines.new.items ≡ map line_value lines.old.items ++ tid_line name.now planned (Ok tid)) }
{
    if tid == 0 || is_that(planned, tid) {
        return Ok(());
    }
    let text = tid_text(alloc, name, planned, tid)?;
    add_difference(lines, text)
}

fn tid_text(alloc: Global, name: &str, planned: Option<u8>, tid: u8) -> Result<String, AllocError>
    ensures { IfOk result (λ text. string_bytes text ≡ name.now ++ (codes " tid " ++ (decimal tid ++ (codes " planned " ++ tid_words planned)))) }
{
    let planned = tid_words(alloc, planned)?;
    format!(in alloc; "{name} tid {tid} planned {planned}")
}

fn match_text(alloc: Global, name: &str, planned: Option<u8>) -> Result<String, AllocError>
    ensures { IfOk result (λ text. string_bytes text ≡ name.now ++ (codes " tid match " ++ tid_words planned)) }
{
    let planned = tid_words(alloc, planned)?;
    format!(in alloc; "{name} tid match {planned}")
}

fn is_that(planned: Option<u8>, tid: u8) -> bool
    ensures { result ≡ is_that planned tid }
{
    match planned {
        Some(planned) => planned == tid,
        None => false,
    }
}

/// A planned terminus ID, in words.
fn tid_words(alloc: Global, planned: Option<u8>) -> Result<String, AllocError>
    ensures { IfOk result (λ words. string_bytes words ≡ tid_words planned) }
{
    match planned {
        Some(tid) => format!(in alloc; "{tid}"),
        None => String::from_str(alloc, "none"),
    }
}

fn add_failure(failures: &mut Vec<u8>, tid: &TidAnswer) -> Result<(), AllocError>
    ensures { OnOk result (failures.new.items ≡ failures.old.items ++ tid_failure (outcome_value (λ tid. tid.value) tid.now)) }
{
    match tid {
        Ok(_) => Ok(()),
        Err(code) => Ok(failures.push(code.value)?),
    }
}

/// What is told of the answers that fail.
fn failed_tids(
    alloc: Global,
    name: &str,
    is_remark: bool,
    failures: &[u8],
) -> Result<Vec<Line>, AllocError>
    ensures { IfOk result (λ lines. map line_value lines.items ≡ failed_lines is_remark (name.now ++ codes " tid") failures.now) }
{
    let words = format!(in alloc; "{name} tid")?;
    failed_lines(alloc, is_remark, &words, failures)
}
