//! Ranks straight from a text.
ghost use Rattle.std.specs.Prelude.{map, IfSome, ⊤};
ghost use Rattle.json.specs.Json.{Members, no_members, object};
ghost use Rattle.net_plan.{specs.CertificateText.{IsRangeOf}, specs.Gathered.{AreParts, IsThere, IsPlain}, specs.JsonWords.{IsListOf}, specs.NameIndexes.{noted}, specs.RankParts.{range_slots, ranks_slots, AreRanksBy}, specs.Trees.{data_of}};
ghost use Rattle.plan_values.specs.CertificateValues.{range_value, node_ranks_value};

use crate::certificate_text::ascends;
use crate::gather::{Gather, NextItem, next_list, read_object, set_once};
use crate::name_index::NameIndex;
use crate::next_value::{next_byte, next_name, next_number_within};
use mctp_transport::Eid;
use plain_json::PlainReader;
use plan_values::{NodeRanks, RankRange};
use std::alloc::Global;

/// What is known so far of a range.
#[derive(Clone, Copy)]
pub struct RangeParts {
    first: Option<u8>,
    rank: Option<u8>,
    size: Option<u8>,
}

impl RangeParts {
    fn none() -> RangeParts
        ensures { AreParts (range_slots result) no_members }
    {
        RangeParts {
            first: None,
            rank: None,
            size: None,
        }
    }

    fn range(&self) -> Option<RankRange>
        ensures { IfSome result (λ r. (ms : Members) → AreParts (range_slots self.now) ms → IsRangeOf (data_of (object ms)) (range_value r) × IsPlain (object ms)) }
    {
        let first = self.first?;
        let rank = self.rank?;
        let size = self.size?;
        if rank == 0 || size == 0 || u16::from(first) + u16::from(size) > 256 {
            return None;
        }
        Some(RankRange {
            first: Eid::new(first),
            rank,
            size,
        })
    }
}

impl<'t> Gather<'t> for RangeParts {
    ghost Holds = { λ p. AreParts (range_slots p) };

    ghost Given = { ⊤ };

    ghost given = { λ _. tt };

    #[inline(always)]
    fn take(
        &mut self,
        _alloc: Global,
        key: &'t str,
        reader: &mut PlainReader<'t>,
        _depth: usize,
    ) -> Option<()> {
        match key {
            "first" => set_once(&mut self.first, next_byte(reader)?),
            "rank" => set_once(&mut self.rank, next_number_within(reader, 1, 255)? as u8),
            "size" => set_once(&mut self.size, next_number_within(reader, 1, 255)? as u8),
            _ => None,
        }
    }
}

/// Reads ranges of endpoint IDs of one rank.
#[derive(Clone, Copy)]
struct NextRange;

impl<'t> NextItem<'t> for NextRange {
    type Item = RankRange;

    ghost IsOf = { λ _ j r. IsRangeOf (data_of j) (range_value r) × IsPlain j };

    fn next_item(
        &self,
        alloc: Global,
        reader: &mut PlainReader<'t>,
        depth: usize,
    ) -> Option<RankRange> {
        let mut parts = RangeParts::none();
        read_object(alloc, &mut parts, reader, depth)?;
        parts.range()
    }
}

/// The next value, where it is a list of ranges.
#[inline(never)]
fn next_ranges(alloc: Global, reader: &mut PlainReader<'_>, depth: usize) -> Option<Vec<RankRange>>
    ensures { IfSome result (λ v. IsThere depth reader.old reader.new (λ j. IsListOf IsRangeOf (data_of j) (map range_value v.items) × IsPlain j)) }
{
    let ranges = next_list(alloc, &NextRange, reader, depth, usize::MAX)?;
    Some(ranges)
}

/// What is known so far of a node's ranks.
#[derive(Drop)]
pub struct RanksParts<'t> {
    node: Option<&'t str>,
    ranges: Option<Vec<RankRange>>,
}

impl<'t> RanksParts<'t> {
    fn none() -> RanksParts<'t>
        ensures { AreParts (ranks_slots result) no_members }
    {
        RanksParts {
            node: None,
            ranges: None,
        }
    }

    fn ranks(self, nodes: &NameIndex) -> Option<NodeRanks>
        ensures { IfSome result (λ r. (ms : Members) → AreParts (ranks_slots self.entry) ms → AreRanksBy (noted nodes.now) (data_of (object ms)) (node_ranks_value r) × IsPlain (object ms)) }
    {
        let node = self.node?;
        let ranges = self.ranges?;
        let index = nodes.index_of(node)?;
        if !ascends(ranges.as_slice()) {
            return None;
        }
        Some(NodeRanks {
            node: index,
            ranges,
        })
    }
}

impl<'t> Gather<'t> for RanksParts<'t> {
    ghost Holds = { λ p. AreParts (ranks_slots p) };

    ghost Given = { ⊤ };

    ghost given = { λ _. tt };

    fn take(
        &mut self,
        alloc: Global,
        key: &'t str,
        reader: &mut PlainReader<'t>,
        depth: usize,
    ) -> Option<()> {
        match key {
            "node" => set_once(&mut self.node, next_name(reader)?),
            "ranges" => set_once(&mut self.ranges, next_ranges(alloc, reader, depth)?),
            _ => None,
        }
    }
}

/// Reads the ranks of nodes that this index finds.
#[derive(Clone, Copy)]
pub struct NextRanks<'p, 'n> {
    pub nodes: &'p NameIndex<'n>,
}

impl<'p, 'n, 't> NextItem<'t> for NextRanks<'p, 'n> {
    type Item = NodeRanks;

    ghost IsOf = { λ s j r. AreRanksBy (noted s.nodes.now) (data_of j) (node_ranks_value r) × IsPlain j };

    fn next_item(
        &self,
        alloc: Global,
        reader: &mut PlainReader<'t>,
        depth: usize,
    ) -> Option<NodeRanks> {
        let mut parts = RanksParts::none();
        read_object(alloc, &mut parts, reader, depth)?;
        parts.ranks(self.nodes)
    }
}
