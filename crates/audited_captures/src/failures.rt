//! Answers that fail, and what is told of them (DSP0236, "MCTP control message completion codes").
ghost use Rattle.std.{specs.Prelude.{◌≡◌, ◌∷◌, ◌++◌, [], IfOk, OnOk, map, string_bytes, codes}, specs.List.{flat_map}};
ghost use Rattle.hex.specs.Hex.{encode_lower};
ghost use Rattle.mctp_control.specs.Responses.{answer_value};
ghost use Rattle.audited_captures.{specs.Answers.{answer_values}, specs.Failures.{is_of, code_if, failures_of, failures_in, code_words, failed_text, failed_finding, failed_lines}, specs.Lines.{line_value}, specs.Readings.{part_value}};

use crate::lines::{Finding, Line};
use crate::readings::Part;
use mctp_control::ControlAnswer;
use std::alloc::{AllocError, Global};

/// What an answer is about.
#[derive(Clone, Copy, Debug)]
pub enum Topic {
    /// The endpoint ID.
    Eid,
    /// The pool.
    Pool,
    /// The routing table.
    Table,
}

/// The completion codes of the answers that fail, to commands of a topic.
pub fn failures_of(
    alloc: Global,
    topic: Topic,
    answers: &[&ControlAnswer],
) -> Result<Vec<u8>, AllocError>
    ensures { IfOk result (λ failures. failures.items ≡ failures_of topic (answer_values answers.now)) }
{
    let mut failures = Vec::new(alloc);
    for answer in answers {
        add_failure(&mut failures, topic, answer)?;
    }
    Ok(failures)
}

/// The completion codes of the answers about a routing table that fail.
pub fn failures_in(alloc: Global, parts: &[Part]) -> Result<Vec<u8>, AllocError>
    ensures { IfOk result (λ failures. failures.items ≡ failures_in (map part_value parts.now)) }
{
    let mut failures = Vec::new(alloc);
    for part in parts {
        add_failure(&mut failures, Topic::Table, part.answer)?;
    }
    Ok(failures)
}

fn add_failure(
    failures: &mut Vec<u8>,
    topic: Topic,
    answer: &ControlAnswer,
) -> Result<(), AllocError>
    ensures { OnOk result (failures.new.items ≡ failures.old.items ++ code_if topic (answer_value answer.now)) }
{
    match answer {
        ControlAnswer::Failed { command, failure } => {
            if is_of(topic, *command as u8) {
                failures.push(failure.code)?;
            }
        }
        ControlAnswer::SetEndpointId { .. } => {}
        ControlAnswer::GetEndpointId { .. } => {}
        ControlAnswer::AllocateEndpointIds { .. } => {}
        ControlAnswer::GetRoutingTableEntries { .. } => {}
    }
    Ok(())
}

/// Whether a command is of a topic. All that is asked of a routing table is.
fn is_of(topic: Topic, command: u8) -> bool
    ensures { result ≡ is_of topic command }
{
    match topic {
        Topic::Eid => command == 1 || command == 2,
        Topic::Pool => command == 8,
        Topic::Table => true,
    }
}

/// The line of answers that fail, if some do, behind these words. It tells a difference, or is a remark.
pub fn failed_lines(
    alloc: Global,
    is_remark: bool,
    words: &str,
    failures: &[u8],
) -> Result<Vec<Line>, AllocError>
    ensures { IfOk result (λ lines. map line_value lines.items ≡ failed_lines is_remark words.now failures.now) }
{
    let mut lines = Vec::new(alloc);
    if !failures.is_empty() {
        lines.push(failed_line(alloc, is_remark, words, failures)?)?;
    }
    Ok(lines)
}

fn failed_line(
    alloc: Global,
    is_remark: bool,
    words: &str,
    failures: &[u8],
) -> Result<Line, AllocError>
    ensures text { IfOk result (λ line. (line_value line).text ≡ failed_text words.now failures.now) }
    ensures finding { IfOk result (λ line. (line_value line).finding ≡ failed_finding is_remark) }
{
    let text = failed_text(alloc, words, failures)?;
    let finding = if is_remark {
        Finding::Silent
    } else {
        Finding::Differs
    };
    Ok(Line { text, finding })
}

fn failed_text(alloc: Global, words: &str, failures: &[u8]) -> Result<String, AllocError>
    ensures { IfOk result (λ text. string_bytes text ≡ failed_text words.now failures.now) }
{
    let mut text = format!(in alloc; "{words} failed")?;
    for code in failures {
        push_code(alloc, &mut text, *code)?;
    }
    Ok(text)
}

/// Adds a completion code in hex.
fn push_code(alloc: Global, text: &mut String, code: u8) -> Result<(), AllocError>
    ensures { OnOk result (string_bytes text.new ≡ string_bytes text.old ++ code_words code) }
{
    let digits = hex::encode(alloc, [code].as_slice())?;
    text.push_str(" ")?;
    Ok(text.push_str(&digits)?)
}
