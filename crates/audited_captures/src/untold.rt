//! What nodes didn't tell of what the plan has of them.
ghost use Rattle.std.{specs.Prelude.{◌≡◌, ◌++◌, ◌==◌, ◌||◌, IfOk, OnOk, map, string_bytes}, specs.List.{list_any}};
ghost use Rattle.plan_values.specs.NodeValues.{name_bytes};
ghost use Rattle.audited_captures.{specs.Answers.{answer_values}, specs.Exchanges.{exchange_value}, specs.Identities.{size_of, tells_eid, tells_pool}, specs.Lines.{line_value}, specs.Readings.{part_value, readings}, specs.Turns.{reading_value}, specs.Untold.{is_bridge, is_read, is_some, readings_begun, tells_records, tells_routes, untold_if, untold_lines, untold_text}};

use crate::exchanges::Exchange;
use crate::identities::{answers_of, size_of, tells_eid, tells_pool};
use crate::lines::{Line, add_difference};
use crate::places::from_place;
use crate::readings::{Part, Reading, parts_of, read_from_0};
use crate::record_lines::missing_count;
use crate::record_readings::Verdict;
use mctp_control::ControlAnswer;
use plan_values::{Kind, Node, PlannedTerminus};
use std::alloc::{AllocError, Global};

/// A line for each of these that a node didn't tell: its endpoint ID; its routing table to the end, where it is a
/// bridge; its pool, where one is planned; its records to the last, where it has a terminus.
pub fn untold_lines(
    alloc: Global,
    node: &Node,
    exchanges: &[Exchange],
    records: usize,
    verdicts: &[Verdict],
) -> Result<Vec<Line>, AllocError>
    ensures { IfOk result (λ lines. map line_value lines.items ≡ untold_lines node.now (map exchange_value exchanges.now) records verdicts.now) }
{
    let answers = answers_of(alloc, exchanges, node.eid)?;
    let routes = tells_routes(alloc, node, exchanges)?;
    let mut lines = Vec::new(alloc);
    add_untold(alloc, &mut lines, node, "eid", some_tells_eid(&answers))?;
    add_untold(alloc, &mut lines, node, "routes", routes)?;
    add_untold(
        alloc,
        &mut lines,
        node,
        "pool",
        tells_its_pool(node, &answers),
    )?;
    add_untold(
        alloc,
        &mut lines,
        node,
        "records",
        tells_records(node, records, verdicts),
    )?;
    Ok(lines)
}

/// Adds the line of something, if it wasn't told.
fn add_untold(
    alloc: Global,
    lines: &mut Vec<Line>,
    node: &Node,
    what: &str,
    is_told: bool,
) -> Result<(), AllocError>
    ensures { OnOk result (map line_value lines.new.items ≡ map line_value lines.old.items ++ untold_if is_told (untold_text (name_bytes node.now.name) what.now)) }
{
    if is_told {
        return Ok(());
    }
    let text = untold_text(alloc, node.name.text.as_str(), what)?;
    add_difference(lines, text)
}

fn untold_text(alloc: Global, name: &str, what: &str) -> Result<String, AllocError>
    ensures { IfOk result (λ text. string_bytes text ≡ untold_text name.now what.now) }
{
    format!(in alloc; "{name} {what} not told")
}

fn some_tells_eid(answers: &[&ControlAnswer]) -> bool
    ensures { result ≡ list_any tells_eid (answer_values answers.now) }
{
    for answer in answers {
        if tells_eid(answer) {
            return true;
        }
    }
    false
}

/// Whether a node tells its routing table to the end, or is no bridge.
fn tells_routes(alloc: Global, node: &Node, exchanges: &[Exchange]) -> Result<bool, AllocError>
    ensures { IfOk result (λ tells. tells ≡ tells_routes node.now (map exchange_value exchanges.now)) }
{
    let parts = parts_of(alloc, exchanges, node.eid)?;
    let read = some_is_read(alloc, &parts)?;
    Ok(!is_bridge(node.kind) || read)
}

fn is_bridge(kind: Kind) -> bool
    ensures { result ≡ is_bridge kind }
{
    match kind {
        Kind::Bridge => true,
        Kind::Endpoint => false,
    }
}

/// Whether some reading comes to its end.
fn some_is_read(alloc: Global, parts: &[Part]) -> Result<bool, AllocError>
    ensures { IfOk result (λ is. is ≡ list_any is_read (readings (map part_value parts.now))) }
{
    for i in 0..parts.len() {
        let is_read = begins_read(alloc, from_place(parts, i))?;
        if is_read {
            return Ok(true);
        }
    }
    Ok(false)
}

/// Whether the first of these parts begins a reading that comes to its end.
fn begins_read(alloc: Global, parts: &[Part]) -> Result<bool, AllocError>
    ensures { IfOk result (λ is. is ≡ list_any is_read (readings_begun (map part_value parts.now))) }
{
    match parts.first() {
        Some(first) if first.handle == 0 => Ok(is_read(&read_from_0(
            alloc,
            first.requester,
            parts,
        )?)),
        Some(_) | None => Ok(false),
    }
}

fn is_read(reading: &Reading) -> bool
    ensures { result ≡ is_read (reading_value reading.now) }
{
    match reading {
        Reading::Read(_) => true,
        Reading::Refused | Reading::Unended => false,
    }
}

/// Whether a pool is told, or none is planned.
fn tells_its_pool(node: &Node, answers: &[&ControlAnswer]) -> bool
    ensures { result ≡ (size_of node.now.pool == 0 || list_any tells_pool (answer_values answers.now)) }
{
    size_of(node.pool) == 0 || some_tells_pool(answers)
}

fn some_tells_pool(answers: &[&ControlAnswer]) -> bool
    ensures { result ≡ list_any tells_pool (answer_values answers.now) }
{
    for answer in answers {
        if tells_pool(answer) {
            return true;
        }
    }
    false
}

/// Whether each of so many records was read to its end, or no terminus is planned.
fn tells_records(node: &Node, records: usize, verdicts: &[Verdict]) -> bool
    ensures { result ≡ tells_records node.now records verdicts.now }
{
    !is_some(&node.terminus) || missing_count(verdicts, records) == 0
}

fn is_some(terminus: &Option<PlannedTerminus>) -> bool
    ensures { result ≡ is_some terminus.now }
{
    match terminus {
        Some(_) => true,
        None => false,
    }
}
