//! The lines that tell how nodes get from the rows of one plan to those of another.
ghost use Rattle.std.{specs.Prelude.{◌≡◌, Some, IfOk, string_bytes}, specs.List.{flat_map}};
ghost use Rattle.plan_texts.specs.MoveSteps.{change_text, eids_text, part_text, rollout_text, steps_text, switch_text};

use super::super::names_after_spaces;
use super::move_obstacle_line;
use crate::lookups::name_or_none;
use net_rollout::{Change, Part, Rollout, Step};
use net_tables::lookup::node_name;
use plan_values::Plan;
use std::alloc::{AllocError, Global};

/// What the command `rollout` prints, with the nodes' names in the plan before. Out of memory is an error, and has no
/// such lines.
pub fn rollout_lines(alloc: Global, before: &Plan, rollout: &Rollout) -> Result<String, AllocError>
    ensures { IfOk result (λ lines. rollout_text before.now rollout.now ≡ Some (string_bytes lines)) }
{
    match rollout {
        Rollout::AnyOrder(_) => format!(in alloc; "any order\n"),
        Rollout::Steps(steps, last) => {
            let lines = steps_lines(alloc, before, steps)?;
            let end = switch_line(alloc, before, steps.len() + 1, &last.nodes)?;
            format!(in alloc; "{lines}{end}")
        }
        Rollout::Stuck(steps, obstacle) => {
            let lines = steps_lines(alloc, before, steps)?;
            let line = move_obstacle_line(alloc, before, obstacle)?;
            format!(in alloc; "{lines}stuck\n{line}")
        }
        Rollout::Unfit(obstacle) => move_obstacle_line(alloc, before, obstacle),
    }
}

/// The lines of steps, which are counted from 1.
fn steps_lines(alloc: Global, before: &Plan, steps: &[Step]) -> Result<String, AllocError>
    ensures { IfOk result (λ lines. string_bytes lines ≡ steps_text before.now 1 steps.now) }
{
    let mut lines = String::new(alloc);
    for index in 0..steps.len() {
        lines.push_str(&change_lines(alloc, before, index + 1, &steps[index].change)?)?;
    }
    Ok(lines)
}

/// The lines of one step.
fn change_lines(
    alloc: Global,
    before: &Plan,
    number: usize,
    change: &Change,
) -> Result<String, AllocError>
    ensures { IfOk result (λ lines. string_bytes lines ≡ change_text before.now number change.now) }
{
    match change {
        Change::Nodes(nodes) => switch_line(alloc, before, number, nodes),
        Change::Parts(parts) => parts_lines(alloc, before, number, parts),
    }
}

/// The line of a step in which nodes take their new rows.
fn switch_line(
    alloc: Global,
    before: &Plan,
    number: usize,
    nodes: &[usize],
) -> Result<String, AllocError>
    ensures { IfOk result (λ line. string_bytes line ≡ switch_text before.now number nodes.now) }
{
    let names = names_after_spaces(alloc, before, nodes)?;
    format!(in alloc; "step {number} switch{names}\n")
}

/// The lines of a step in which nodes take parts of their new rows.
fn parts_lines(
    alloc: Global,
    before: &Plan,
    number: usize,
    parts: &[Part],
) -> Result<String, AllocError>
    ensures { IfOk result (λ lines. string_bytes lines ≡ flat_map (part_text before.now number) parts.now) }
{
    let mut lines = String::new(alloc);
    for part in parts {
        lines.push_str(&part_line(alloc, before, number, part)?)?;
    }
    Ok(lines)
}

/// The line of one part: the node, the endpoint IDs and the node to which its new rows send them.
fn part_line(alloc: Global, before: &Plan, number: usize, part: &Part) -> Result<String, AllocError>
    ensures { IfOk result (λ line. string_bytes line ≡ part_text before.now number part.now) }
{
    let node = node_name(before, part.node);
    let eids = eids_text(alloc, part.first.value, part.last.value)?;
    let next = name_or_none(before, part.next);
    format!(in alloc; "step {number} rows of {node}: {eids} by {next}\n")
}

/// The one endpoint ID, or the first and the last.
fn eids_text(alloc: Global, first: u8, last: u8) -> Result<String, AllocError>
    ensures { IfOk result (λ text. string_bytes text ≡ eids_text first last) }
{
    if first == last {
        return format!(in alloc; "{first}");
    }
    format!(in alloc; "{first}-{last}")
}
