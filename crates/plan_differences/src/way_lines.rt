//! The lines that tell what becomes of ways and certificates, and what a roll-out needs.
ghost use Rattle.std.{specs.Prelude.{◌≡◌, Some, IfOk, string_bytes}, specs.List.{flat_map}};
ghost use Rattle.net_tables.specs.Names.{node_name};
ghost use Rattle.plan_differences.specs.WayLines.{hops_line, need_text, way_text};

use crate::ways::OtherWay;
use net_rollout::Rollout;
use net_tables::lookup::node_name;
use plan_texts::move_obstacle_line;
use plan_values::Plan;
use std::alloc::{AllocError, Global};

/// A line for each way, with the nodes' names in the plan before.
pub fn way_lines(alloc: Global, before: &Plan, ways: &[OtherWay]) -> Result<String, AllocError>
    ensures { IfOk result (λ lines. string_bytes lines ≡ flat_map (way_text before.now) ways.now) }
{
    let mut lines = String::new(alloc);
    for way in ways {
        lines.push_str(&way_line(alloc, before, *way)?)?;
    }
    Ok(lines)
}

fn way_line(alloc: Global, plan: &Plan, way: OtherWay) -> Result<String, AllocError>
    ensures { IfOk result (λ line. string_bytes line ≡ way_text plan.now way) }
{
    let from = node_name(plan, way.from);
    let to = node_name(plan, way.to);
    let ends = format!(in alloc; "from {from} to {to}")?;
    hops_line(alloc, &ends, way.before, way.after)
}

/// What becomes of the way of these words, by its hops before and after.
fn hops_line(
    alloc: Global,
    ends: &str,
    before: Option<usize>,
    after: Option<usize>,
) -> Result<String, AllocError>
    ensures { IfOk result (λ line. string_bytes line ≡ hops_line ends.now before after) }
{
    match (before, after) {
        (Some(before), Some(after)) => {
            format!(in alloc; "changed way {ends}: hops {before} -> hops {after}\n")
        }
        (Some(before), None) => format!(in alloc; "removed way {ends}: hops {before}\n"),
        (None, Some(after)) => format!(in alloc; "added way {ends}: hops {after}\n"),
        (None, None) => "".to_string(alloc),
    }
}

/// What the nodes need to get to their new rows. Out of memory is an error, and has no such line.
pub fn need_line(alloc: Global, before: &Plan, rollout: &Rollout) -> Result<String, AllocError>
    ensures { IfOk result (λ line. need_text before.now rollout.now ≡ Some (string_bytes line)) }
{
    match rollout {
        Rollout::AnyOrder(_) => format!(in alloc; "rollout: any order\n"),
        Rollout::Steps(steps, _) => {
            let count = steps.len() + 1;
            format!(in alloc; "rollout: {count} steps\n")
        }
        Rollout::Stuck(_, obstacle) => {
            let line = move_obstacle_line(alloc, before, obstacle)?;
            format!(in alloc; "rollout: stuck: {line}")
        }
        Rollout::Unfit(obstacle) => {
            let line = move_obstacle_line(alloc, before, obstacle)?;
            format!(in alloc; "rollout: {line}")
        }
    }
}
