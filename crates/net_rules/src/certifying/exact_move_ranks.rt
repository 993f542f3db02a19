//! The ranks of a move's certificate.
ghost use Rattle.std.specs.Prelude.{◌≡◌, ◌≤◌, length, IfOk, IfErr};
ghost use Rattle.net_tables.{specs.Routing.{MovesTo}, specs.Rows.{RowsAreApart, RowsAreInRange}, specs.Tables.{AreTables}};
ghost use Rattle.net_rules.{specs.Certificates.{AreRanksOf}, specs.LongestWays.{IsLongestOrLoop}, specs.MovingAlike.{MoveAlike}, specs.MoveObstacles.{NamesMixedLoop}, specs.MoveRanks.{IsMoveRank, HoldTheSame}};

use crate::certifying::exact_ranks::keep_ranked;
use crate::certifying::longest_ways::{Longest, longest_or_loop};
use crate::certifying::next_nodes::next_nodes;
use crate::certifying::rank_ranges::{add_ranks, no_ranges};
use crate::certifying::stretches::{Stretch, lesser, stretch_from};
use crate::certifying::tables::certifying_tables;
use crate::mixed_loop::MixedLoop;
use crate::move_obstacle::MoveObstacle;
use mctp_routing::RangeTable;
use mctp_transport::Eid;
use plan_values::{NodeRanks, Plan};
use std::alloc::{AllocError, Global};

/// For the nodes that have some, in their order, the ranks that fall along the rows of both plans and are no greater
/// than that takes: the moves of the longest ways. Or the first loop along rows of either plan.
pub fn exact_move_ranks(
    alloc: Global,
    before: &Plan,
    after: &Plan,
) -> Result<Vec<NodeRanks>, MoveObstacle>
    requires apart { RowsAreApart before.now }
    requires in_range { RowsAreInRange before.now }
    requires apart_after { RowsAreApart after.now }
    requires in_range_after { RowsAreInRange after.now }
    requires many { length after.now.nodes.items ≡ length before.now.nodes.items }
    requires holders { HoldTheSame before.now after.now }
    ensures exact { IfOk result (λ given. AreRanksOf (IsMoveRank before.now after.now) (length before.now.nodes.items) given.items) }
    ensures obstacle { IfErr result (λ obstacle. NamesMixedLoop before.now after.now obstacle) }
{
    let old = certifying_tables(alloc, before)?;
    let new = certifying_tables(alloc, after)?;
    let mut given = no_ranges(alloc, before.nodes.len())?;
    let mut first = 8;
    while first < 255 {
        let stretch = stretch_of_both(before, &old, after, &new, Eid::new(first));
        match longest_for(alloc, before, &old, after, &new, stretch.first)? {
            Longest::Ended(moves) => add_ranks(&mut given, stretch, &moves)?,
            Longest::Circled(nodes, sides) => {
                return Err(MoveObstacle::Loop(MixedLoop {
                    eid: stretch.first,
                    nodes,
                    sides,
                }));
            }
        }
        first = stretch.last.value + 1;
    }
    keep_ranked(&mut given);
    Ok(given)
}

/// The number of moves of the longest way of what is for the endpoint ID, along rows of either plan, or a loop.
fn longest_for(
    alloc: Global,
    before: &Plan,
    old: &[RangeTable],
    after: &Plan,
    new: &[RangeTable],
    eid: Eid,
) -> Result<Longest, AllocError>
    requires apart { RowsAreApart before.now }
    requires apart_after { RowsAreApart after.now }
    requires many { length after.now.nodes.items ≡ length before.now.nodes.items }
    requires tables { AreTables before.now (length before.now.nodes.items) old.now }
    requires tables_after { AreTables after.now (length after.now.nodes.items) new.now }
    ensures { IfOk result (λ longest. IsLongestOrLoop (MovesTo before.now eid.value) (MovesTo after.now eid.value) (length before.now.nodes.items) longest) }
{
    let by_old = next_nodes(alloc, before, old, eid)?;
    let by_new = next_nodes(alloc, after, new, eid)?;
    longest_or_loop(alloc, &by_old, &by_new)
}

/// The stretch from the endpoint ID on that each node sends on alike in both plans.
fn stretch_of_both(
    before: &Plan,
    old: &[RangeTable],
    after: &Plan,
    new: &[RangeTable],
    first: Eid,
) -> Stretch
    requires room { first.value ≤ 254 }
    requires apart { RowsAreApart before.now }
    requires apart_after { RowsAreApart after.now }
    requires tables { AreTables before.now (length before.now.nodes.items) old.now }
    requires tables_after { AreTables after.now (length after.now.nodes.items) new.now }
    ensures starts { result.first.value ≡ first.value }
    ensures alike { MoveAlike before.now result.first.value result.last.value }
    ensures alike_after { MoveAlike after.now result.first.value result.last.value }
{
    let one = stretch_from(before, old, first);
    let other = stretch_from(after, new, first);
    Stretch {
        first: one.first,
        last: lesser(one.last, other.last),
    }
}
