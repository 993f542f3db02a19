//! What the command `faults` prints.
ghost use Rattle.std.specs.Prelude.{◌≡◌, IfOk, Some, string_bytes};
ghost use Rattle.json.specs.Value.{value_view};
ghost use Rattle.net_pointers.specs.Offsets.{IsTextOf};
ghost use Rattle.fault_texts.specs.FaultListLines.{AreFaultLines, IsFaultLine, IsFaultsText, count_text, eids_text, more_eids_text, more_text, plan_fault_words, run_words, span_text, words_with_more};

use crate::places::{at_in, plan_fault_pointer};
use json::{Scratch, Value};
use net_faults::PlanFault;
use net_plan::json_of;
use net_pointers::TextIndex;
use net_rules::{CertifyError, EidSpan, FaultRun};
use net_tables::lookup::node_name;
use plan_texts::{number_text, obstacle_words};
use plan_values::Plan;
use std::alloc::{AllocError, Global};

/// The faults of the plan in a text, each in a line of its own, and how many lines these are. The text has a name, which
/// stands before each place.
pub fn fault_lines(
    alloc: Global,
    name: &str,
    text: &[u8],
    plan: &Plan,
    faults: &[PlanFault],
) -> Result<String, AllocError>
    ensures { IfOk result (λ lines. IsFaultsText plan.now name.now text.now faults.now (string_bytes lines)) }
{
    let mut lines = listed_lines(alloc, name, text, plan, faults)?;
    lines.push_str(&count_line(alloc, faults.len())?)?;
    Ok(lines)
}

/// Of so many faults, how many more there are than the one that is told, and by which words they are listed.
pub fn more_line(alloc: Global, words: &str, count: usize) -> Result<String, AllocError>
    ensures { IfOk result (λ line. string_bytes line ≡ more_text words.now count) }
{
    let more = count.saturating_sub(1);
    if more == 0 {
        return Ok(String::new(alloc));
    }
    format!(in alloc; "And {more} more: mctpplan faults {words}\n")
}

/// The lines of the faults. The text is read once more, for its tree.
fn listed_lines(
    alloc: Global,
    name: &str,
    text: &[u8],
    plan: &Plan,
    faults: &[PlanFault],
) -> Result<String, AllocError>
    ensures { IfOk result (λ lines. AreFaultLines plan.now name.now text.now faults.now (string_bytes lines)) }
{
    let mut scratch = Scratch::new(alloc);
    match json_of(alloc, text, &mut scratch) {
        Ok(tree) => indexed_lines(alloc, name, text, &tree, plan, faults),
        // no memory: the text was read before, so `json_of` has no other error.
        Err(_) => Err(AllocError),
    }
}

/// The same over an index, so that no place is looked for from the beginning of the text.
fn indexed_lines(
    alloc: Global,
    name: &str,
    text: &[u8],
    tree: &Value<'_>,
    plan: &Plan,
    faults: &[PlanFault],
) -> Result<String, AllocError>
    requires { IsTextOf text.now (value_view tree.now) }
    ensures { IfOk result (λ lines. AreFaultLines plan.now name.now text.now faults.now (string_bytes lines)) }
{
    let mut scratch = Scratch::new(alloc);
    let index = TextIndex::of(alloc, text, &mut scratch)?;
    lines_over(alloc, name, &index, tree, plan, faults)
}

fn lines_over(
    alloc: Global,
    name: &str,
    index: &TextIndex<'_>,
    tree: &Value<'_>,
    plan: &Plan,
    faults: &[PlanFault],
) -> Result<String, AllocError>
    requires { IsTextOf index.now (value_view tree.now) }
    ensures { IfOk result (λ lines. AreFaultLines plan.now name.now index.now faults.now (string_bytes lines)) }
{
    let mut lines = String::new(alloc);
    for fault in faults {
        let line = placed_line(alloc, name, index, tree, plan, fault)?;
        lines.push_str(&line)?;
    }
    Ok(lines)
}

/// The line of a fault, with its place.
fn placed_line(
    alloc: Global,
    name: &str,
    index: &TextIndex<'_>,
    tree: &Value<'_>,
    plan: &Plan,
    fault: &PlanFault,
) -> Result<String, AllocError>
    requires { IsTextOf index.now (value_view tree.now) }
    ensures { IfOk result (λ line. IsFaultLine plan.now name.now index.now fault.now (string_bytes line)) }
{
    let words = plan_fault_words(alloc, plan, fault)?;
    let pointer = plan_fault_pointer(alloc, plan, fault)?;
    let at = at_in(alloc, name, index, tree, &pointer)?;
    format!(in alloc; "{words}{at}\n")
}

/// The words of a fault. Want of memory has none.
fn plan_fault_words(alloc: Global, plan: &Plan, fault: &PlanFault) -> Result<String, AllocError>
    ensures { IfOk result (λ words. plan_fault_words plan.now fault.now ≡ Some (string_bytes words)) }
{
    match fault {
        PlanFault::Broken(run) => run_words(alloc, plan, run),
        PlanFault::Obstacle(obstacle, more) => words_with_more(alloc, plan, obstacle, *more),
    }
}

/// The words of a loop or a chain, and how many more endpoint IDs go round.
pub fn words_with_more(
    alloc: Global,
    plan: &Plan,
    obstacle: &CertifyError,
    more: usize,
) -> Result<String, AllocError>
    ensures { IfOk result (λ words. words_with_more plan.now obstacle.now more ≡ Some (string_bytes words)) }
{
    let words = obstacle_words(alloc, plan, obstacle)?;
    let more = more_eids_text(alloc, more)?;
    format!(in alloc; "{words}{more}")
}

/// How many more endpoint IDs go round a loop.
fn more_eids_text(alloc: Global, count: usize) -> Result<String, AllocError>
    ensures { IfOk result (λ text. string_bytes text ≡ more_eids_text count) }
{
    match count {
        0 => Ok(String::new(alloc)),
        1 => " and 1 more endpoint ID".to_string(alloc),
        _ => format!(in alloc; " and {count} more endpoint IDs"),
    }
}

/// A run of faults: its rule, its node, its entry and its endpoint IDs.
pub fn run_words(alloc: Global, plan: &Plan, run: &FaultRun) -> Result<String, AllocError>
    ensures { IfOk result (λ text. string_bytes text ≡ run_words plan.now run.now) }
{
    let rule = run.rule.code();
    let name = node_name(plan, run.node);
    let entry = number_text(alloc, run.entry)?;
    let eids = eids_text(alloc, run.eids)?;
    format!(in alloc; "fault {rule} node {name} entry {entry} eid {eids}")
}

/// The endpoint IDs of a run, or a dash.
fn eids_text(alloc: Global, eids: Option<EidSpan>) -> Result<String, AllocError>
    ensures { IfOk result (λ text. string_bytes text ≡ eids_text eids) }
{
    match eids {
        Some(eids) => span_text(alloc, eids.first.value, eids.last.value),
        None => "-".to_string(alloc),
    }
}

/// Two endpoint IDs and what lies between them, or the one that both are.
fn span_text(alloc: Global, first: u8, last: u8) -> Result<String, AllocError>
    ensures { IfOk result (λ text. string_bytes text ≡ span_text first last) }
{
    if first == last {
        return format!(in alloc; "{first}");
    }
    format!(in alloc; "{first} to {last}")
}

/// How many lines there are.
fn count_line(alloc: Global, count: usize) -> Result<String, AllocError>
    ensures { IfOk result (λ line. string_bytes line ≡ count_text count) }
{
    format!(in alloc; "faults {count}\n")
}
