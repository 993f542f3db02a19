//! Ranks as ranges, one stretch of endpoint IDs added after another.
ghost use Rattle.std.specs.Prelude.{◌≡◌, ℕ, ◌+◌, ◌<◌, ◌≤◌, ◌↔◌, length, IfOk, OnOk, IsTrue, slice_get, Some};
ghost use Rattle.net_rules.specs.RankRuns.{Precedes, Continues, AreGrown, GrowsBy, AreNone};

use crate::certifying::stretches::Stretch;
use mctp_transport::Eid;
use net_tables::lookup::range_end;
use plan_values::{NodeRanks, RankRange};
use std::alloc::{AllocError, Global};

/// No ranges for each of `count` nodes.
pub fn no_ranges(alloc: Global, count: usize) -> Result<Vec<NodeRanks>, AllocError>
    ensures { IfOk result (λ given. AreNone count given.items) }
{
    let mut given = Vec::new(alloc);
    for node in 0..count {
        given.push(NodeRanks {
            node,
            ranges: Vec::new(alloc),
        })?;
    }
    Ok(given)
}

/// Adds the stretch's rank at each node to the ranges of the endpoint IDs below it.
pub fn add_ranks(
    given: &mut [NodeRanks],
    stretch: Stretch,
    ranks: &[usize],
) -> Result<(), AllocError>
    requires long { length ranks.now ≡ length given.old }
    requires small { (n rank : ℕ) → slice_get ranks.now n ≡ Some rank → rank < 256 }
    ensures { OnOk result (AreGrown stretch.first.value stretch.last.value ranks.now given.old given.new) }
{
    for node in 0..given.len() {
        add_rank(&mut given[node].ranges, stretch, ranks[node] as u8)?;
    }
    Ok(())
}

/// Adds the stretch's rank to the ranges of the endpoint IDs below it.
fn add_rank(ranges: &mut Vec<RankRange>, stretch: Stretch, rank: u8) -> Result<(), AllocError>
    ensures { OnOk result (GrowsBy stretch.first.value stretch.last.value rank ranges.old.items ranges.new.items) }
{
    if rank == 0 {
        return Ok(());
    }
    if continues(ranges, stretch.first, rank) {
        let last = ranges.len() - 1;
        ranges[last] = longer(ranges[last], stretch.size());
        return Ok(());
    }
    ranges.push(range_of(stretch, rank))?;
    Ok(())
}

/// Whether the last range has the rank and ends just before the endpoint ID.
fn continues(ranges: &[RankRange], eid: Eid, rank: u8) -> bool
    ensures { IsTrue result ↔ Continues ranges.now eid.value rank }
{
    match ranges.last() {
        Some(last) => precedes(last, eid, rank),
        None => false,
    }
}

/// Whether the range has the rank and ends just before the endpoint ID.
#[tactic(auto, unfolding(crate::specs::RankRuns::Precedes))]
fn precedes(range: &RankRange, eid: Eid, rank: u8) -> bool
    ensures { IsTrue result ↔ Precedes range.now eid.value rank }
{
    range.rank == rank && range_end(range) == u16::from(eid.value)
}

/// The range with `more` endpoint IDs added at its end.
fn longer(range: RankRange, more: u8) -> RankRange
    requires { range.first.value + range.size + more ≤ 255 }
    ensures first { result.first.value ≡ range.first.value }
    ensures rank { result.rank ≡ range.rank }
    ensures size { result.size ≡ range.size + more }
{
    RankRange {
        first: range.first,
        rank: range.rank,
        size: range.size + more,
    }
}

/// The range of a stretch.
fn range_of(stretch: Stretch, rank: u8) -> RankRange
    requires { 0 < rank }
    ensures first { result.first.value ≡ stretch.first.value }
    ensures rank { result.rank ≡ rank }
    ensures end { result.first.value + result.size ≡ stretch.last.value + 1 }
{
    RankRange {
        first: stretch.first,
        rank,
        size: stretch.size(),
    }
}
