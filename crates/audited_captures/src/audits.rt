//! What captured devices said, laid beside a plan.
ghost use Rattle.std.{specs.Prelude.{◌≡◌, ◌++◌, ◌<◌, ◌≤◌, ◌+◌, ◌==◌, ◌&&◌, Bool, List, IfOk, OnOk, map, length, slice_get, Some, string_bytes, codes, ◌∷◌, []}, specs.List.{flat_map}};
ghost use Rattle.bus_captures.specs.Values.{entry_value as bus_entry_value};
ghost use Rattle.heard_captures.specs.Messages.{message_value};
ghost use Rattle.plan_values.specs.NodeValues.{name_bytes};
ghost use Rattle.mctp_control.specs.RouteEntries.{entry_value};
ghost use Rattle.audited_captures.{specs.Exchanges.{exchange_value}, specs.Lines.{LineValue, line_value, silence}, specs.Answers.{answer_values}, specs.Identities.{answers_of}, specs.Counting.{difference_count, has_compared}, specs.RecordLines.{one_if}, specs.Audits.{HasTables, answered_lines, said_lines, quiet_text, lines_of_node, AreNodeLines, AreLines, is_match, last_line, whole_line, part_line, text_line, rest_line, audit_text, AreBeside, AreAudited, AreOthers, AreRepositories, heard_of}, specs.Refusals.{IsRefusedOf}, specs.Repositories.{repository_values}, specs.Tids.{planned_tid, tid_lines, tid_values}, specs.Untold.{wanted_lines}, specs.Words.{word_value}};
ghost use Rattle.plan_exports.specs.PlannedTables.{HasLawfulRows};
ghost use Rattle.pdr_repository.specs.Records.{entries};

use crate::asked::unanswered;
use crate::exchanges::{Exchange, exchanges_of};
use crate::identities::{answers_of, eid_lines, pool_lines};
use crate::lines::{Counted, Line, silence};
use crate::readings::parts_of;
use crate::record_lines::record_lines;
use crate::record_parts::record_parts_of;
use crate::record_readings::verdicts_of;
use crate::refusals::{refusals_of, refused_lines};
use crate::routes::routes_lines;
use crate::strangers::stranger_lines;
use crate::sums::{Sum, sum_words};
use crate::talk::{owner_lines, talk_lines};
use crate::tids::{TidAnswer, tid_lines, tids_of};
use crate::traffic_lines::{traffic_lines, unit_of};
use crate::untold::untold_lines;
use crate::words::{Word, words_of};
use bus_captures::{Capture, End};
use heard_captures::{Message, heard_messages};
use mctp_control::{ControlAnswer, RouteEntry};
use net_check::Checked;
use plan_exports::planned_entries;
use plan_values::{Node, Plan};
use std::alloc::{AllocError, Global};

/// The lines of nodes, those of what they didn't tell, and how many nodes were compared.
#[derive(Debug, Drop)]
struct Told {
    lines: Vec<Line>,
    untold: Vec<Line>,
    count: usize,
}

/// The lines of a node, and those of what it didn't tell.
#[derive(Debug, Drop)]
struct NodeLines {
    lines: Vec<Line>,
    untold: Vec<Line>,
}

/// What was captured, laid beside a plan: the lines, and what it has seen in numbers.
#[derive(Debug, Drop)]
pub struct Audit {
    pub lines: Vec<Line>,
    pub sum: Sum,
}

/// What was captured, laid beside a checked plan: the lines of what each node said, in the plan's order, behind them
/// those of devices that took an endpoint ID that no node holds, of what nodes didn't tell, where that is wanted, and of
/// requests and answers that don't go together, then those of the packets that the plan doesn't have on the bus, or on
/// any bus where none is given, and last a remark on what was refused. The repositories are the nodes' records by place,
/// as handles and bytes.
pub fn audited(
    alloc: Global,
    checked: &Checked,
    repositories: &[Vec<(u32, Vec<u8>)>],
    bus: Option<usize>,
    is_complete: bool,
    capture: &Capture,
) -> Result<Audit, AllocError>
    requires { AreRepositories checked.now.0 checked.now.1 (length checked.now.0.nodes.items) (repository_values repositories.now) }
    ensures { IfOk result (λ audit. AreAudited checked.now.0 checked.now.1 bus is_complete (map bus_entry_value capture.now.entries.items) (map line_value audit.lines.items) audit.sum) }
{
    let mut told = lines_of_capture(alloc, checked.plan(), repositories, is_complete, capture)?;
    let mut traffic = traffic_lines(alloc, checked, bus, capture)?;
    let mut refused = lines_of_refused(alloc, checked, capture)?;
    told.lines.append(&mut traffic.lines)?;
    told.lines.append(&mut refused.lines)?;
    Ok(Audit {
        lines: told.lines,
        sum: Sum {
            compared: told.count,
            nodes: checked.plan().nodes.len(),
            packets: traffic.count,
            refused: refused.count,
        },
    })
}

/// The remark on what was refused, and how much that is.
fn lines_of_refused(
    alloc: Global,
    checked: &Checked,
    capture: &Capture,
) -> Result<Counted, AllocError>
    ensures { IfOk result (λ refused. IsRefusedOf checked.now.0.unit (map bus_entry_value capture.now.entries.items) (map line_value refused.lines.items) refused.count) }
{
    let refusals = refusals_of(alloc, unit_of(checked), capture)?;
    let lines = refused_lines(alloc, &refusals)?;
    Ok(Counted {
        lines,
        count: refusals.len(),
    })
}

/// The lines of nodes and behind them the others, and how many nodes were compared.
fn lines_of_capture(
    alloc: Global,
    plan: &Plan,
    repositories: &[Vec<(u32, Vec<u8>)>],
    is_complete: bool,
    capture: &Capture,
) -> Result<Counted, AllocError>
    requires tables { HasTables plan.now }
    requires stored { length repositories.now ≡ length plan.now.nodes.items }
    ensures { IfOk result (λ told. AreBeside plan.now is_complete (repository_values repositories.now) (map bus_entry_value capture.now.entries.items) (map line_value told.lines.items) told.count) }
{
    let messages = heard_messages(alloc, usize::from(plan.unit), capture)?;
    let words = words_of(alloc, &messages)?;
    let exchanges = exchanges_of(alloc, &words)?;
    let told = lines_of_nodes(alloc, plan, repositories, &words, &exchanges)?;
    let wanted = wanted_lines(alloc, is_complete, told.untold);
    let mut others = other_lines(alloc, plan, wanted, &messages, &words, &exchanges)?;
    let mut lines = told.lines;
    lines.append(&mut others)?;
    Ok(Counted {
        lines,
        count: told.count,
    })
}

/// The lines of what nodes didn't tell, if they are wanted.
fn wanted_lines(alloc: Global, is_complete: bool, untold: Vec<Line>) -> Vec<Line>
    ensures { map line_value result.items ≡ wanted_lines is_complete (map line_value untold.items) }
{
    if is_complete { untold } else { Vec::new(alloc) }
}

/// The lines of devices that no node stands for, of what nodes didn't tell, and of requests and answers that don't go
/// together.
fn other_lines(
    alloc: Global,
    plan: &Plan,
    mut wanted: Vec<Line>,
    messages: &[Message],
    words: &[Word],
    exchanges: &[Exchange],
) -> Result<Vec<Line>, AllocError>
    ensures { (complete : Bool) (untold : List LineValue) → map line_value wanted.items ≡ wanted_lines complete untold → IfOk result (λ lines. AreOthers plan.now complete (map message_value messages.now) (heard_of (map word_value words.now) (map exchange_value exchanges.now)) untold (map line_value lines.items)) }
{
    let mut lines = stranger_lines(alloc, plan, exchanges)?;
    let mut owners = owner_lines(alloc, plan, messages)?;
    let mut talk = talk_lines(alloc, plan, words)?;
    owners.append(&mut talk)?;
    wanted.append(&mut owners)?;
    lines.append(&mut wanted)?;
    Ok(lines)
}

/// The lines of all nodes, those of what they didn't tell, and of how many of them some line tells of a comparison.
fn lines_of_nodes(
    alloc: Global,
    plan: &Plan,
    repositories: &[Vec<(u32, Vec<u8>)>],
    words: &[Word],
    exchanges: &[Exchange],
) -> Result<Told, AllocError>
    requires tables { HasTables plan.now }
    requires stored { length repositories.now ≡ length plan.now.nodes.items }
    ensures { IfOk result (λ told. AreLines plan.now (repository_values repositories.now) (heard_of (map word_value words.now) (map exchange_value exchanges.now)) (length plan.now.nodes.items) (map line_value told.lines.items) (map line_value told.untold.items) told.count) }
{
    let mut lines = Vec::new(alloc);
    let mut untold = Vec::new(alloc);
    let mut count = 0;
    for n in 0..plan.nodes.len() {
        let mut more = lines_of_node(alloc, plan, n, repositories, words, exchanges)?;
        count += one_if(has_compared(&more.lines));
        lines.append(&mut more.lines)?;
        untold.append(&mut more.untold)?;
    }
    Ok(Told {
        lines,
        untold,
        count,
    })
}

fn one_if(is: bool) -> usize
    ensures is { result ≡ one_if is }
    ensures within { result ≤ 1 }
{
    if is { 1 } else { 0 }
}

/// The lines of the node at an index, and those of what it didn't tell.
fn lines_of_node(
    alloc: Global,
    plan: &Plan,
    index: usize,
    repositories: &[Vec<(u32, Vec<u8>)>],
    words: &[Word],
    exchanges: &[Exchange],
) -> Result<NodeLines, AllocError>
    requires within { index < length plan.now.nodes.items }
    requires stored { index < length repositories.now }
    requires rows { HasLawfulRows plan.now index }
    ensures { IfOk result (λ lines. AreNodeLines plan.now (repository_values repositories.now) (heard_of (map word_value words.now) (map exchange_value exchanges.now)) index (map line_value lines.lines.items) (map line_value lines.untold.items)) }
{
    let node = &plan.nodes[index];
    let records = &repositories[index];
    let planned = planned_entries(alloc, plan, index)?;
    let parts = record_parts_of(alloc, words, node.eid)?;
    let tids = tids_of(alloc, words, node.eid)?;
    let verdicts = verdicts_of(alloc, records, &parts)?;
    let recorded = record_lines(alloc, node.name.text.as_str(), records, &parts, &verdicts)?;
    let told = told_of_terminus(alloc, node, &tids, recorded)?;
    let unanswered = unanswered(alloc, words, exchanges, &parts, &tids, node.eid)?;
    Ok(NodeLines {
        lines: lines_beside(alloc, node, &planned, exchanges, unanswered, told)?,
        untold: untold_lines(alloc, node, exchanges, records.len(), &verdicts)?,
    })
}

/// What is told of a node's terminus: of its ID, and behind that of its records.
fn told_of_terminus(
    alloc: Global,
    node: &Node,
    tids: &[TidAnswer],
    mut recorded: Vec<Line>,
) -> Result<Vec<Line>, AllocError>
    ensures { IfOk result (λ lines. map line_value lines.items ≡ tid_lines (name_bytes node.now.name) (planned_tid node.now) (tid_values tids.now) ++ map line_value recorded.items) }
{
    let mut lines = tid_lines(alloc, node.name.text.as_str(), planned_tid(node), tids)?;
    lines.append(&mut recorded)?;
    Ok(lines)
}

fn planned_tid(node: &Node) -> Option<u8>
    ensures { result ≡ planned_tid node.now }
{
    match &node.terminus {
        Some(terminus) => Some(terminus.tid),
        None => None,
    }
}

/// The lines of a node with these planned entries, which left so many requests unanswered, and of whose records this was
/// told.
fn lines_beside(
    alloc: Global,
    node: &Node,
    planned: &[RouteEntry],
    exchanges: &[Exchange],
    unanswered: usize,
    told: Vec<Line>,
) -> Result<Vec<Line>, AllocError>
    ensures { IfOk result (λ lines. map line_value lines.items ≡ lines_of_node node.now (map entry_value planned.now) (map exchange_value exchanges.now) unanswered (map line_value told.items)) }
{
    let lines = said_lines(alloc, node, planned, exchanges, told)?;
    if lines.is_empty() {
        return quiet_lines(alloc, node.name.text.as_str(), unanswered);
    }
    Ok(lines)
}

/// What is told of a node that said nothing to lay beside the plan.
fn quiet_lines(alloc: Global, name: &str, unanswered: usize) -> Result<Vec<Line>, AllocError>
    ensures { IfOk result (λ lines. map line_value lines.items ≡ silence (quiet_text name.now unanswered) ∷ []) }
{
    let text = quiet_text(alloc, name, unanswered)?;
    silence(alloc, text)
}

fn quiet_text(alloc: Global, name: &str, unanswered: usize) -> Result<String, AllocError>
    ensures { IfOk result (λ text. string_bytes text ≡ quiet_text name.now unanswered) }
{
    if unanswered == 0 {
        return format!(in alloc; "{name} not captured");
    }
    format!(in alloc; "{name} asked {unanswered}, never answered")
}

/// What a node said, beside these planned entries, and behind it what was told of its records.
fn said_lines(
    alloc: Global,
    node: &Node,
    planned: &[RouteEntry],
    exchanges: &[Exchange],
    mut told: Vec<Line>,
) -> Result<Vec<Line>, AllocError>
    ensures { IfOk result (λ lines. map line_value lines.items ≡ said_lines node.now (map entry_value planned.now) (map exchange_value exchanges.now) (map line_value told.items)) }
{
    let answers = answers_of(alloc, exchanges, node.eid)?;
    let mut lines = answered_lines(alloc, node, planned, exchanges, &answers)?;
    lines.append(&mut told)?;
    Ok(lines)
}

fn answered_lines(
    alloc: Global,
    node: &Node,
    planned: &[RouteEntry],
    exchanges: &[Exchange],
    answers: &[&ControlAnswer],
) -> Result<Vec<Line>, AllocError>
    requires { answer_values answers.now ≡ answers_of node.now.eid.value (map exchange_value exchanges.now) }
    ensures { IfOk result (λ lines. map line_value lines.items ≡ answered_lines node.now (map entry_value planned.now) (map exchange_value exchanges.now)) }
{
    let name = node.name.text.as_str();
    let parts = parts_of(alloc, exchanges, node.eid)?;
    let mut lines = routes_lines(alloc, name, planned, &parts)?;
    let mut identity = eid_lines(alloc, name, node.eid, node.kind, answers)?;
    let mut pool = pool_lines(alloc, name, node.pool, answers)?;
    identity.append(&mut pool)?;
    lines.append(&mut identity)?;
    Ok(lines)
}

/// How many of the lines tell a difference.
pub fn difference_count(lines: &[Line]) -> usize
    ensures { result ≡ difference_count (map line_value lines.now) }
{
    let mut count = 0;
    for line in lines {
        if line.differs() {
            count += 1;
        }
    }
    count
}

/// Whether one of the lines tells of something that was laid beside the plan.
fn has_compared(lines: &[Line]) -> bool
    ensures { result ≡ has_compared (map line_value lines.now) }
{
    for line in lines {
        if line.compares() {
            return true;
        }
    }
    false
}

/// Whether something was laid beside the plan, and none of the lines tells a difference.
pub fn is_match(lines: &[Line]) -> bool
    ensures { result ≡ is_match (map line_value lines.now) }
{
    difference_count(lines) == 0 && has_compared(lines)
}

/// The text of an audit: its lines, where the capture was not read to its end, and last whether all that was captured
/// is planned, or how many lines tell a difference, with the numbers behind it. What was read in part is never told as a
/// match, nor is a capture of which nothing could be laid beside the plan.
pub fn audit_text(alloc: Global, audit: &Audit, end: End) -> Result<String, AllocError>
    ensures { IfOk result (λ text. string_bytes text ≡ audit_text (map line_value audit.now.lines.items) audit.now.sum end) }
{
    let told = text_of_lines(alloc, &audit.lines)?;
    let rest = rest_line(alloc, end)?;
    let last = last_line(alloc, end, &audit.lines, audit.sum)?;
    format!(in alloc; "{told}{rest}{last}")
}

fn text_of_lines(alloc: Global, lines: &[Line]) -> Result<String, AllocError>
    ensures { IfOk result (λ text. string_bytes text ≡ flat_map text_line (map line_value lines.now)) }
{
    let mut text = String::new(alloc);
    for line in lines {
        text.push_str(&line.text)?;
        text.push_str("\n")?;
    }
    Ok(text)
}

fn rest_line(alloc: Global, end: End) -> Result<String, AllocError>
    ensures { IfOk result (λ line. string_bytes line ≡ rest_line end) }
{
    match end {
        End::Whole => Ok(String::new(alloc)),
        End::Full => String::from_str(alloc, "capture not read behind 100000 entries\n"),
        End::Broken { place, .. } => format!(in alloc; "capture not read from {place}\n"),
    }
}

fn last_line(alloc: Global, end: End, lines: &[Line], sum: Sum) -> Result<String, AllocError>
    ensures { IfOk result (λ line. string_bytes line ≡ last_line end (map line_value lines.now) sum) }
{
    match end {
        End::Whole => whole_line(alloc, lines, sum),
        End::Full | End::Broken { .. } => part_line(alloc, difference_count(lines), sum),
    }
}

fn part_line(alloc: Global, count: usize, sum: Sum) -> Result<String, AllocError>
    ensures { IfOk result (λ line. string_bytes line ≡ part_line count sum) }
{
    let numbers = sum_words(alloc, sum)?;
    format!(in alloc; "audit incomplete {count}{numbers}")
}

fn whole_line(alloc: Global, lines: &[Line], sum: Sum) -> Result<String, AllocError>
    ensures { IfOk result (λ line. string_bytes line ≡ whole_line (map line_value lines.now) sum) }
{
    let numbers = sum_words(alloc, sum)?;
    if is_match(lines) {
        return format!(in alloc; "audit match{numbers}");
    }
    let count = difference_count(lines);
    if count == 0 {
        return format!(in alloc; "audit saw nothing of the plan{numbers}");
    }
    format!(in alloc; "audit differs {count}{numbers}")
}
