//! Which ways between nodes a change of plans opens, closes or makes longer or shorter.
ghost use Rattle.std.specs.Prelude.{◌≡◌, ◌≢◌, ◌++◌, IfOk, OnOk, MatchOption, length, option_map};
ghost use Rattle.net_rules.specs.Names.{name_of};
ghost use Rattle.plan_differences.specs.WayDifferences.{AreOtherWays, AreWaysFrom, IsGone, IsNoOther, IsOneNode, IsOtherBetween, found_way};

use command_answers::first_named;
use net_check::Checked;
use net_reached::hops_between;
use plan_values::Plan;
use std::alloc::{AllocError, Global};

/// What becomes of the way from one node to another, both of which stand in both plans.
#[derive(Clone, Copy)]
pub struct OtherWay {
    /// The indices of the nodes in the old plan's list.
    pub from: usize,
    pub to: usize,
    /// How many hops a packet makes by the old plan, where it arrives.
    pub before: Option<usize>,
    /// The same by the new plan: another number.
    pub after: Option<usize>,
}

/// The ways between nodes that stand in both plans and whose hops differ, in the old plan's order.
pub fn other_ways(
    alloc: Global,
    before: &Checked,
    after: &Checked,
) -> Result<Vec<OtherWay>, AllocError>
    ensures { IfOk result (λ ways. AreOtherWays before.now.0 after.now.0 ways.items) }
{
    let mut ways = Vec::new(alloc);
    for from in 0..before.plan().nodes.len() {
        ways.extend_from_slice(&other_ways_from(alloc, before, after, from)?)?;
    }
    Ok(ways)
}

/// Those from one node.
fn other_ways_from(
    alloc: Global,
    before: &Checked,
    after: &Checked,
    from: usize,
) -> Result<Vec<OtherWay>, AllocError>
    ensures { IfOk result (λ ways. AreWaysFrom before.now.0 after.now.0 from (length before.now.0.nodes.items) ways.items) }
{
    let mut ways = Vec::new(alloc);
    for to in 0..before.plan().nodes.len() {
        let found = other_way(alloc, before, after, from, to)?;
        add_way(&mut ways, found)?;
    }
    Ok(ways)
}

fn add_way(ways: &mut Vec<OtherWay>, found: Option<OtherWay>) -> Result<(), AllocError>
    ensures { OnOk result (ways.new.items ≡ ways.old.items ++ found_way found) }
{
    if let Some(way) = found {
        ways.push(way)?;
    }
    Ok(())
}

/// The way from one node to another, where its hops differ.
fn other_way(
    alloc: Global,
    before: &Checked,
    after: &Checked,
    from: usize,
    to: usize,
) -> Result<Option<OtherWay>, AllocError>
    ensures { IfOk result (λ found. MatchOption found (IsNoOther before.now.0 after.now.0 from to) (IsOtherBetween before.now.0 after.now.0 from to)) }
{
    let Some(new_from) = same_node(before, after, from) else {
        return Ok(None);
    };
    let Some(new_to) = same_node(before, after, to) else {
        return Ok(None);
    };
    let old_hops = hops_between(alloc, before, from, to)?;
    let new_hops = hops_between(alloc, after, new_from, new_to)?;
    Ok(way_of(from, to, old_hops, new_hops))
}

/// A way with these hops, where they differ.
fn way_of(from: usize, to: usize, before: Option<usize>, after: Option<usize>) -> Option<OtherWay>
    ensures { MatchOption result (before ≡ after) (λ way. (before ≢ after) × (way ≡ record { from = from; to = to; before = before; after = after })) }
{
    if before == after {
        return None;
    }
    Some(OtherWay {
        from,
        to,
        before,
        after,
    })
}

/// The index in the new plan of the node that has the name of the old plan's node.
fn same_node(before: &Checked, after: &Checked, node: usize) -> Option<usize>
    ensures { MatchOption result (IsGone before.now.0 after.now.0 node) (IsOneNode before.now.0 after.now.0 node) }
{
    match name_of(before.plan(), node) {
        Some(name) => first_named(after.plan(), name),
        None => None,
    }
}

/// The name of the node at an index.
fn name_of(plan: &Plan, node: usize) -> Option<&str>
    ensures { option_map (λ name. name.now) result ≡ name_of plan.now node }
{
    plan.nodes.get(node).map(|node| node.name.text.as_str())
}
