//! What devices said of their endpoint IDs and pools, beside the plan (DSP0236, "Set Endpoint ID", "Get Endpoint ID",
//! "Allocate Endpoint IDs").
ghost use Rattle.std.{specs.Prelude.{◌≡◌, ◌≤◌, ◌+◌, ◌++◌, ◌==◌, ◌||◌, IfOk, OnOk, map, string_bytes, codes}, specs.Fmt.{decimal}};
ghost use Rattle.mctp_control.{specs.Requests.{command_value}, specs.Responses.{answer_value}};
ghost use Rattle.audited_captures.{specs.Exchanges.{exchange_value}, specs.Failures.{failures_of, failed_lines}, specs.Lines.{line_value, note}, specs.Identities.{answered_by, is_answer_of, kind_number, kind_word, eid_line, kind_line, identity_lines, tells_eid, span_words, first_of, size_of, same_span, pool_line, pool_lines_of, tells_pool, told_lines, eid_lines, pool_lines, answers_of, answer_if}, specs.Answers.{answer_values}};
ghost use Rattle.audited_captures.specs.declared.failures.Topic.TheVariants as topic;

use crate::exchanges::Exchange;
use crate::failures::{Topic, failed_lines, failures_of};
use crate::lines::{Line, add_difference, differences_or};
use mctp_control::{ControlAnswer, ControlCommand};
use mctp_transport::Eid;
use plan_values::{Kind, Pool};
use std::alloc::{AllocError, Global};

/// The answers of the device of an endpoint ID.
pub fn answers_of<'w>(
    alloc: Global,
    exchanges: &[Exchange<'w>],
    eid: Eid,
) -> Result<Vec<&'w ControlAnswer>, AllocError>
    ensures { IfOk result (λ answers. answer_values answers.items ≡ answers_of eid.value (map exchange_value exchanges.now)) }
{
    let mut answers = Vec::new(alloc);
    for exchange in exchanges {
        add_answer(&mut answers, exchange, eid)?;
    }
    Ok(answers)
}

fn add_answer<'w>(
    answers: &mut Vec<&'w ControlAnswer>,
    exchange: &Exchange<'w>,
    eid: Eid,
) -> Result<(), AllocError>
    ensures { OnOk result (answer_values answers.new.items ≡ answer_values answers.old.items ++ answer_if eid.value (exchange_value exchange.now)) }
{
    if is_answer_of(exchange, eid) {
        answers.push(exchange.answer)?;
    }
    Ok(())
}

/// Whether it is the device of the endpoint ID that answers. What answers Set Endpoint ID may not have had the endpoint
/// ID yet that it was to take.
fn is_answer_of(exchange: &Exchange, eid: Eid) -> bool
    ensures { result ≡ is_answer_of eid.value (exchange_value exchange.now) }
{
    is_device(eid, exchange.responder, exchange.command)
}

/// Whether what an endpoint ID answers to a command, or is asked by it, is of the device of this endpoint ID.
pub fn is_device(eid: Eid, responder: Eid, command: &ControlCommand) -> bool
    ensures { result ≡ (answered_by responder.value (command_value command.now) == eid.value) }
{
    match command {
        ControlCommand::SetEndpointId { eid: taken, .. } => taken.value == eid.value,
        ControlCommand::GetEndpointId => responder.value == eid.value,
        ControlCommand::AllocateEndpointIds { .. } => responder.value == eid.value,
        ControlCommand::GetRoutingTableEntries { .. } => responder.value == eid.value,
    }
}

/// What answers of one device say of its endpoint ID and of its type.
pub fn eid_lines(
    alloc: Global,
    name: &str,
    eid: Eid,
    kind: Kind,
    answers: &[&ControlAnswer],
) -> Result<Vec<Line>, AllocError>
    ensures { IfOk result (λ lines. map line_value lines.items ≡ eid_lines name.now eid.value (kind_number kind) (answer_values answers.now)) }
{
    let mut told = false;
    let mut lines = Vec::new(alloc);
    for answer in answers {
        told = told || tells_eid(answer);
        add_identity(alloc, &mut lines, name, eid, kind, answer)?;
    }
    let mut all = told_lines(alloc, told, eid_text(alloc, name, eid.value)?, lines)?;
    let mut failed = failed_eids(alloc, name, told, answers)?;
    all.append(&mut failed)?;
    Ok(all)
}

fn eid_text(alloc: Global, name: &str, eid: u8) -> Result<String, AllocError>
    ensures { IfOk result (λ text. string_bytes text ≡ name.now ++ (codes " eid match " ++ decimal eid)) }
{
    format!(in alloc; "{name} eid match {eid}")
}

/// What is told of the answers to Set Endpoint ID and Get Endpoint ID that fail.
fn failed_eids(
    alloc: Global,
    name: &str,
    is_remark: bool,
    answers: &[&ControlAnswer],
) -> Result<Vec<Line>, AllocError>
    ensures { IfOk result (λ lines. map line_value lines.items ≡ failed_lines is_remark (name.now ++ codes " eid") (failures_of topic.Eid (answer_values answers.now))) }
{
    let failures = failures_of(alloc, Topic::Eid, answers)?;
    let words = format!(in alloc; "{name} eid")?;
    failed_lines(alloc, is_remark, &words, &failures)
}

/// The differences, or where there are none and something was told, a line that it is as planned.
pub fn told_lines(
    alloc: Global,
    told: bool,
    text: String,
    lines: Vec<Line>,
) -> Result<Vec<Line>, AllocError>
    ensures { IfOk result (λ all. map line_value all.items ≡ told_lines told (note (string_bytes text)) (map line_value lines.items)) }
{
    if told {
        differences_or(text, lines)
    } else {
        Ok(Vec::new(alloc))
    }
}

pub fn tells_eid(answer: &ControlAnswer) -> bool
    ensures { result ≡ tells_eid (answer_value answer.now) }
{
    match answer {
        ControlAnswer::SetEndpointId { .. } => true,
        ControlAnswer::GetEndpointId { .. } => true,
        ControlAnswer::AllocateEndpointIds { .. } => false,
        ControlAnswer::GetRoutingTableEntries { .. } => false,
        ControlAnswer::Failed { .. } => false,
    }
}

fn add_identity(
    alloc: Global,
    lines: &mut Vec<Line>,
    name: &str,
    eid: Eid,
    kind: Kind,
    answer: &ControlAnswer,
) -> Result<(), AllocError>
    ensures { OnOk result (map line_value lines.new.items ≡ map line_value lines.old.items ++ identity_lines name.now eid.value (kind_number kind) (answer_value answer.now)) }
{
    match answer {
        ControlAnswer::SetEndpointId { eid: found, .. } => add_eid(alloc, lines, name, eid, *found),
        ControlAnswer::GetEndpointId {
            eid: found,
            status,
            ..
        } => {
            add_eid(alloc, lines, name, eid, *found)?;
            add_kind(alloc, lines, name, kind_number(kind), status.endpoint as u8)
        }
        ControlAnswer::AllocateEndpointIds { .. } => Ok(()),
        ControlAnswer::GetRoutingTableEntries { .. } => Ok(()),
        ControlAnswer::Failed { .. } => Ok(()),
    }
}

fn add_eid(
    alloc: Global,
    lines: &mut Vec<Line>,
    name: &str,
    planned: Eid,
    found: Eid,
) -> Result<(), AllocError>
    ensures { OnOk result (map line_value lines.new.items ≡ map line_value lines.old.items ++ eid_line name.now planned.value found.value) }
{
    let planned = planned.value;
    let found = found.value;
    if planned == found {
        return Ok(());
    }
    let text = format!(in alloc; "{name} eid {found} planned {planned}")?;
    add_difference(lines, text)
}

fn add_kind(
    alloc: Global,
    lines: &mut Vec<Line>,
    name: &str,
    planned: u8,
    found: u8,
) -> Result<(), AllocError>
    ensures { OnOk result (map line_value lines.new.items ≡ map line_value lines.old.items ++ kind_line name.now planned found) }
{
    if planned == found {
        return Ok(());
    }
    let found = kind_word(found);
    let planned = kind_word(planned);
    let text = format!(in alloc; "{name} type {found} planned {planned}")?;
    add_difference(lines, text)
}

/// The number of a node's endpoint type.
fn kind_number(kind: Kind) -> u8
    ensures { result ≡ kind_number kind }
{
    match kind {
        Kind::Endpoint => 0,
        Kind::Bridge => 1,
    }
}

fn kind_word(number: u8) -> &'static str
    ensures { result.now ≡ kind_word number }
{
    match number {
        0 => "endpoint",
        1 => "bridge",
        _ => "reserved",
    }
}

/// What answers of one device say of its pool.
pub fn pool_lines(
    alloc: Global,
    name: &str,
    pool: Option<Pool>,
    answers: &[&ControlAnswer],
) -> Result<Vec<Line>, AllocError>
    ensures { IfOk result (λ lines. map line_value lines.items ≡ pool_lines name.now (first_of pool) (size_of pool) (answer_values answers.now)) }
{
    span_lines(alloc, name, first_of(pool), size_of(pool), answers)
}

fn span_lines(
    alloc: Global,
    name: &str,
    first: u8,
    size: u8,
    answers: &[&ControlAnswer],
) -> Result<Vec<Line>, AllocError>
    ensures { IfOk result (λ lines. map line_value lines.items ≡ pool_lines name.now first size (answer_values answers.now)) }
{
    let mut told = false;
    let mut lines = Vec::new(alloc);
    for answer in answers {
        told = told || tells_pool(answer);
        add_pool(alloc, &mut lines, name, first, size, answer)?;
    }
    let mut all = told_lines(alloc, told, match_text(alloc, name, first, size)?, lines)?;
    let mut failed = failed_pools(alloc, name, told || size == 0, answers)?;
    all.append(&mut failed)?;
    Ok(all)
}

/// What is told of the answers to Allocate Endpoint IDs that fail.
fn failed_pools(
    alloc: Global,
    name: &str,
    is_remark: bool,
    answers: &[&ControlAnswer],
) -> Result<Vec<Line>, AllocError>
    ensures { IfOk result (λ lines. map line_value lines.items ≡ failed_lines is_remark (name.now ++ codes " pool") (failures_of topic.Pool (answer_values answers.now))) }
{
    let failures = failures_of(alloc, Topic::Pool, answers)?;
    let words = format!(in alloc; "{name} pool")?;
    failed_lines(alloc, is_remark, &words, &failures)
}

fn match_text(alloc: Global, name: &str, first: u8, size: u8) -> Result<String, AllocError>
    ensures { IfOk result (λ text. string_bytes text ≡ name.now ++ (codes " pool match " ++ span_words first size)) }
{
    let span = span_words(alloc, first, size)?;
    format!(in alloc; "{name} pool match {span}")
}

pub fn tells_pool(answer: &ControlAnswer) -> bool
    ensures { result ≡ tells_pool (answer_value answer.now) }
{
    match answer {
        ControlAnswer::AllocateEndpointIds { .. } => true,
        ControlAnswer::SetEndpointId { .. } => false,
        ControlAnswer::GetEndpointId { .. } => false,
        ControlAnswer::GetRoutingTableEntries { .. } => false,
        ControlAnswer::Failed { .. } => false,
    }
}

fn first_of(pool: Option<Pool>) -> u8
    ensures { result ≡ first_of pool }
{
    match pool {
        Some(pool) => pool.first.value,
        None => 0,
    }
}

pub fn size_of(pool: Option<Pool>) -> u8
    ensures { result ≡ size_of pool }
{
    match pool {
        Some(pool) => pool.size,
        None => 0,
    }
}

fn add_pool(
    alloc: Global,
    lines: &mut Vec<Line>,
    name: &str,
    first: u8,
    size: u8,
    answer: &ControlAnswer,
) -> Result<(), AllocError>
    ensures { OnOk result (map line_value lines.new.items ≡ map line_value lines.old.items ++ pool_lines_of name.now first size (answer_value answer.now)) }
{
    match answer {
        ControlAnswer::AllocateEndpointIds {
            size: found_size,
            first: found_first,
            ..
        } => add_pool_line(
            alloc,
            lines,
            name,
            (first, size),
            (found_first.value, *found_size),
        ),
        ControlAnswer::SetEndpointId { .. } => Ok(()),
        ControlAnswer::GetEndpointId { .. } => Ok(()),
        ControlAnswer::GetRoutingTableEntries { .. } => Ok(()),
        ControlAnswer::Failed { .. } => Ok(()),
    }
}

/// Adds a line where a pool that was told, by its first endpoint ID and its size, is another than the planned one.
fn add_pool_line(
    alloc: Global,
    lines: &mut Vec<Line>,
    name: &str,
    planned: (u8, u8),
    found: (u8, u8),
) -> Result<(), AllocError>
    ensures { OnOk result (map line_value lines.new.items ≡ map line_value lines.old.items ++ pool_line name.now planned.0 planned.1 found.0 found.1) }
{
    if same_span(planned.0, planned.1, found.0, found.1) {
        return Ok(());
    }
    let text = pool_text(alloc, name, planned, found)?;
    add_difference(lines, text)
}

fn pool_text(
    alloc: Global,
    name: &str,
    planned: (u8, u8),
    found: (u8, u8),
) -> Result<String, AllocError>
    ensures { IfOk result (λ text. string_bytes text ≡ name.now ++ (codes " pool " ++ (span_words found.0 found.1 ++ (codes " planned " ++ span_words planned.0 planned.1)))) }
{
    let planned = span_words(alloc, planned.0, planned.1)?;
    let found = span_words(alloc, found.0, found.1)?;
    format!(in alloc; "{name} pool {found} planned {planned}")
}

fn same_span(first: u8, size: u8, other_first: u8, other_size: u8) -> bool
    ensures { result ≡ same_span first size other_first other_size }
{
    size == other_size && (size == 0 || first == other_first)
}

/// The endpoint IDs of a pool, in words.
fn span_words(alloc: Global, first: u8, size: u8) -> Result<String, AllocError>
    ensures { IfOk result (λ words. string_bytes words ≡ span_words first size) }
{
    if size == 0 {
        return String::from_str(alloc, "none");
    }
    let last = u16::from(first) + u16::from(size) - 1;
    format!(in alloc; "{first} to {last}")
}
