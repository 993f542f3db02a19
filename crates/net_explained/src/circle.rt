//! The way round a circle of records.
ghost use Rattle.std.specs.Prelude.{◌≡◌, IfOk, option_map, slice_get};
ghost use Rattle.net_rules.{specs.Circles.{next_in, IsLoopFrom, IsOnCircle}, specs.RecordChains.{IsFollowedBy, HaveNewHandles}};
ghost use Rattle.net_explained.specs.Followers.{followers, record_of_handle};

use plan_values::PlannedRecord;
use std::alloc::{AllocError, Global};

/// The records round which the next handles lead from a record back to itself, by their indexes in the list: that
/// record, each that follows, and the first again at the end.
pub fn circle_from(
    alloc: Global,
    records: &[PlannedRecord],
    first: usize,
) -> Result<Vec<usize>, AllocError>
    requires handles { HaveNewHandles records.now }
    requires circle { IsOnCircle (IsFollowedBy records.now) first }
    ensures { IfOk result (λ circle. IsLoopFrom (IsFollowedBy records.now) first circle.items) }
{
    let mut circle = Vec::new(alloc);
    circle.push(first)?;
    let mut at = first;
    while let Some(next) = follower_of(records, at) {
        circle.push(next)?;
        if next == first {
            return Ok(circle);
        }
        at = next;
    }
    Ok(circle)
}

/// The record that has a record's next handle, if there is one.
fn follower_of(records: &[PlannedRecord], index: usize) -> Option<usize>
    ensures { result ≡ next_in (followers records.now) index }
{
    match next_handle(records, index) {
        Some(next) => record_of_handle(records, next),
        None => None,
    }
}

/// The next handle of a record, if there is such a record.
fn next_handle(records: &[PlannedRecord], index: usize) -> Option<u32>
    ensures { result ≡ option_map (λ r. r.next) (slice_get records.now index) }
{
    Some(records.get(index)?.next)
}

/// The first record of a handle, if there is one.
fn record_of_handle(records: &[PlannedRecord], handle: u32) -> Option<usize>
    ensures { result ≡ record_of_handle records.now handle }
{
    records.iter().position(|listed| listed.handle == handle)
}
