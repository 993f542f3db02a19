//! Ranges of a certificate's ranks that don't ascend apart.
ghost use Rattle.std.specs.Prelude.{◌≡◌, codes, not, is_some, Some, IfSome};
ghost use Rattle.net_plan.specs.Trees.{view, items_view};
ghost use Rattle.serde_json.{specs.Data.{array, Items}, specs.Find.{get}};
ghost use Rattle.net_pointers.specs.Ascending.{ranges_ascend, list_ascends, entries_ascend, ranks_ascend, AreFirst, IsFirst, OverlapIn, OverlapOf, OverlapAmong, first_in, end_in, DoOverlap};

use json::Value;
use net_plan::{at, byte_at, range_end};

/// The entry of a certificate's ranks, and the first of two of its ranges, one behind the other. All from 0.
#[derive(Clone, Copy, Debug, PartialEq, Eq)]
pub struct Overlap {
    pub entry: usize,
    pub range: usize,
}

/// The first ranges of a certificate that don't ascend apart.
pub fn first_overlap(certificate: &Value<'_>) -> Option<Overlap>
    ensures told { is_some result ≡ not (ranks_ascend (get (codes "ranks") (view certificate.now))) }
    ensures found { IfSome result (AreFirst (DoOverlap (view certificate.now))) }
{
    match at(certificate, "ranks") {
        Some(list) => overlap_of_ranks(list),
        None => None,
    }
}

/// The same of the list of its ranks.
fn overlap_of_ranks(list: &Value<'_>) -> Option<Overlap>
    ensures told { is_some result ≡ not (ranks_ascend (Some (view list.now))) }
    ensures found { IfSome result (λ overlap. (ds : Items) × (view list.now ≡ array ds) × AreFirst (OverlapAmong ds) overlap) }
{
    match list {
        Value::Array(entries) => overlap_among(entries.as_slice()),
        _ => None,
    }
}

/// The same of its entries.
fn overlap_among(entries: &[Value<'_>]) -> Option<Overlap>
    ensures told { is_some result ≡ not (entries_ascend (items_view entries.now)) }
    ensures found { IfSome result (AreFirst (OverlapAmong (items_view entries.now))) }
{
    for (entry, ranks) in entries.iter().enumerate() {
        if let Some(range) = overlap_of(ranks) {
            return Some(Overlap { entry, range });
        }
    }
    None
}

/// The first range of an entry that ends after the next one begins.
fn overlap_of(ranks: &Value<'_>) -> Option<usize>
    ensures told { is_some result ≡ not (list_ascends (get (codes "ranges") (view ranks.now))) }
    ensures found { IfSome result (IsFirst (OverlapOf (view ranks.now))) }
{
    match at(ranks, "ranges") {
        Some(list) => overlap_in(list),
        None => None,
    }
}

/// The same of a list of ranges.
fn overlap_in(list: &Value<'_>) -> Option<usize>
    ensures told { is_some result ≡ not (list_ascends (Some (view list.now))) }
    ensures found { IfSome result (IsFirst (OverlapIn (view list.now))) }
{
    match list {
        Value::Array(ranges) => overlap_within(ranges.as_slice()),
        _ => None,
    }
}

/// The same of ranges.
fn overlap_within(ranges: &[Value<'_>]) -> Option<usize>
    ensures told { is_some result ≡ not (ranges_ascend 0 (items_view ranges.now)) }
    ensures found { IfSome result (IsFirst (OverlapIn (array (items_view ranges.now)))) }
{
    let mut end = 0;
    for (index, range) in ranges.iter().enumerate() {
        if first_in_range(range) < end {
            return Some(index - 1);
        }
        end = end_of_range(range);
    }
    None
}

/// The first endpoint ID of a range.
pub fn first_in_range(range: &Value<'_>) -> u64
    ensures { result ≡ first_in (view range.now) }
{
    match byte_at(range, "first", 0) {
        Ok(first) => first,
        Err(_) => 0,
    }
}

/// The endpoint ID after the last of a range.
pub fn end_of_range(range: &Value<'_>) -> u64
    ensures { result ≡ end_in (view range.now) }
{
    match range_end(range) {
        Ok(end) => end,
        Err(_) => 0,
    }
}
