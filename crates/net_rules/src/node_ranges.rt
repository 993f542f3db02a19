//! The ranges that give a node its ranks, ready for look-ups.
ghost use Rattle.std.specs.Prelude.{◌≡◌, ◌+◌, ◌^◌, ◌<◌, ◌≤◌, ◌↔◌, IsTrue};
ghost use Rattle.net_tables.{specs.Routing.{OfItem}, specs.Ranks.{rank_in}};
ghost use Rattle.net_rules.{specs.Following.{EndedBy}, specs.Stretches.{IsAlong}, specs.RanksByEid.{RangesFollow, range_past}};

use mctp_transport::Eid;
use net_tables::lookup::{range_end, rank_in_ranges};
use plan_values::RankRange;
use std::marker::Model;

/// The ranges that give a node its ranks, in any order.
#[derive(Drop)]
pub struct NodeRanges<'a> {
    ranges: &'a [RankRange],
    /// Whether each range ends before any later one begins.
    ascend: bool,
}

/// The rank of the endpoint IDs of a stretch.
#[derive(Clone, Copy)]
pub struct RankStretch {
    pub rank: u8,
    /// The number after that of the last endpoint ID.
    pub end: u16,
    /// Where the range of the endpoint IDs after these may stand.
    pub guess: usize,
}

impl<'a> Model for NodeRanges<'a> {
    ghost use Rattle.std.specs.Prelude.{List, IsTrue};
    ghost use Rattle.plan_values.specs.declared.certificate.RankRange.{RankRange};
    ghost use Rattle.net_rules.specs.RanksByEid.{RangesFollow};

    ghost Value = { List RankRange };

    ghost view = { λ r. r.ranges.now };

    ghost invariant = { λ r. IsTrue r.ascend → RangesFollow r.ranges.now };
}

impl<'a> NodeRanges<'a> {
    /// These ranges.
    pub fn of(ranges: &'a [RankRange]) -> Self
        ensures { result ≡ ranges.now }
    {
        NodeRanges {
            ranges,
            ascend: do_ascend(ranges),
        }
    }

    /// The rank that they give the endpoint ID, and how far it goes on. The guess, where the range of the endpoint ID
    /// may stand, changes nothing but the time that this takes.
    #[inline(always)]
    pub fn stretch(&self, eid: Eid, guess: usize) -> RankStretch
        ensures { IsAlong (rank_in self.now) eid.value result.end result.rank }
    {
        match self.ranges.get(guess) {
            Some(range) if self.ascend && range.eids().contains(eid) => {
                within_range(range, guess, eid)
            }
            _ => self.searched(eid, guess),
        }
    }

    /// The rank that they give the endpoint ID.
    pub fn rank_of(&self, eid: Eid) -> u8
        ensures { result ≡ rank_in self.now eid.value }
    {
        self.stretch(eid, 0).rank
    }

    /// The same where no range that has the endpoint ID was guessed.
    #[inline(never)]
    fn searched(&self, eid: Eid, guess: usize) -> RankStretch
        ensures { IsAlong (rank_in self.now) eid.value result.end result.rank }
    {
        if !self.ascend {
            return RankStretch {
                rank: rank_in_ranges(self.ranges, eid.value),
                end: u16::from(eid.value) + 1,
                guess,
            };
        }
        let place = place_of(self.ranges, eid, guess);
        match self.ranges.get(place) {
            Some(range) if range.first.value <= eid.value => within_range(range, place, eid),
            Some(range) => RankStretch {
                rank: 0,
                end: u16::from(range.first.value),
                guess: place,
            },
            None => RankStretch {
                rank: 0,
                end: 256,
                guess: place,
            },
        }
    }
}

/// The stretch from an endpoint ID of the range at the place on.
fn within_range(range: &RankRange, place: usize, eid: Eid) -> RankStretch
    requires { place < 2 ^ 63 }
    ensures rank { result.rank ≡ range.now.rank }
    ensures end { result.end ≡ range.now.first.value + range.now.size }
{
    let end = range_end(range);
    // Most ranges are one endpoint ID.
    let guess = if end == u16::from(eid.value) + 1 {
        place + 1
    } else {
        place
    };
    RankStretch {
        rank: range.rank,
        end,
        guess,
    }
}

/// Whether each range ends before any later one begins.
fn do_ascend(ranges: &[RankRange]) -> bool
    ensures { IsTrue result → RangesFollow ranges.now }
{
    let mut end = 0;
    for range in ranges {
        if u16::from(range.first.value) < end {
            return false;
        }
        end = range_end(range);
    }
    true
}

/// How many ranges end before the endpoint ID. Where neither the guess nor the next place is right, it is found by
/// halving.
fn place_of(ranges: &[RankRange], eid: Eid, guess: usize) -> usize
    requires { RangesFollow ranges.now }
    ensures { EndedBy range_past ranges.now eid.value result }
{
    if is_place_of(ranges, eid, guess) {
        return guess;
    }
    if guess < ranges.len() && is_place_of(ranges, eid, guess + 1) {
        return guess + 1;
    }
    ranges.partition_point(|range| range_end(range) <= u16::from(eid.value))
}

/// Whether so many ranges end before the endpoint ID.
fn is_place_of(ranges: &[RankRange], eid: Eid, place: usize) -> bool
    requires { RangesFollow ranges.now }
    ensures { IsTrue result → EndedBy range_past ranges.now eid.value place }
{
    if ranges.len() < place {
        return false;
    }
    if 0 < place && !ends_before(ranges, place - 1, eid) {
        return false;
    }
    ends_after(ranges, place, eid)
}

/// Whether the range at the index, if there is one, ends before the endpoint ID.
fn ends_before(ranges: &[RankRange], index: usize, eid: Eid) -> bool
    ensures { IsTrue result ↔ OfItem ranges.now index (λ range. range_past range ≤ eid.value) }
{
    match ranges.get(index) {
        Some(range) => range_end(range) <= u16::from(eid.value),
        None => true,
    }
}

/// Whether the range at the index, if there is one, ends after the endpoint ID.
fn ends_after(ranges: &[RankRange], index: usize, eid: Eid) -> bool
    ensures { IsTrue result ↔ OfItem ranges.now index (λ range. eid.value < range_past range) }
{
    match ranges.get(index) {
        Some(range) => u16::from(eid.value) < range_end(range),
        None => true,
    }
}
