//! Ranges of ranks that no text has: an earlier one begins inside a later one.
ghost use Rattle.std.specs.Prelude.{◌+◌, ◌<◌, ◌≤◌};

use super::faults::{FaultAt, found, is_at};
use mctp_transport::Eid;
use net_check::Rule;
use net_plan::{certificate_of_text, plan_of_text};
use plan_values::{Plan, RankRange};
use std::alloc::Global;
use std::test::Fail;

/// Endpoint a (8), bridge r (16) and endpoint z (18) in a line, where a has one row for 16 to 18.
const LINE: &str =
    r#"{"format":1,"buses":[{"name":"b","binding":1,"media":4},{"name":"c","binding":1,"media":4}],"nodes":[
{"name":"a","kind":"endpoint","eid":8,"owner":null,"pool":null,"ports":[{"bus":"b","address":""}],"rows":[{"first":16,"size":3,"port":0,"next":"r"}],"terminus":null},
{"name":"r","kind":"bridge","eid":16,"owner":null,"pool":null,"ports":[{"bus":"b","address":""},{"bus":"c","address":""}],"rows":[{"first":8,"size":1,"port":0,"next":"a"},{"first":18,"size":1,"port":1,"next":"z"}],"terminus":null},
{"name":"z","kind":"endpoint","eid":18,"owner":null,"pool":null,"ports":[{"bus":"c","address":""}],"rows":[{"first":8,"size":9,"port":0,"next":"r"}],"terminus":null}]}"#;

/// The ranks of the line, by the hops.
const RANKS_OF_THE_LINE: &str =
    r#"{"format":1,"levels":[],"places":[],"ranks":[{"node":"a","ranges":[{"first":16,"rank":1,"size":2},{"first":18,"rank":2,"size":1}]},{"node":"r","ranges":[{"first":8,"rank":1,"size":1},{"first":18,"rank":1,"size":1}]},{"node":"z","ranges":[{"first":8,"rank":2,"size":1},{"first":9,"rank":1,"size":8}]}]}"#;

fn range(first: u8, size: u8, rank: u8) -> RankRange
    requires some { 0 < size }
    requires ranked { 0 < rank }
    requires within { first + size ≤ 256 }
{
    RankRange {
        first: Eid::new(first),
        rank,
        size,
    }
}

/// Whether this fault is found in the line where the ranks of a are these two ranges, in this order.
fn is_found(
    alloc: Global,
    plan: &Plan,
    earlier: RankRange,
    later: RankRange,
    wanted: &Option<FaultAt>,
) -> Result<bool, Fail> {
    let mut certificate = certificate_of_text(alloc, plan, RANKS_OF_THE_LINE.as_bytes())?;
    if let Some(of_a) = certificate.ranks.first_mut() {
        of_a.ranges = vec![in alloc; earlier, later]?;
    }
    Ok(is_at(found(alloc, plan, &certificate)?, wanted))
}

/// What the first range shows of which something else is found before 16 to 18 with rank 2.
fn first_wrong(alloc: Global) -> Result<Option<&'static str>, Fail> {
    let plan = plan_of_text(alloc, LINE.as_bytes())?;
    let later = range(16, 3, 2);
    for (what, earlier, wanted) in [
        (
            "18 has the rank that r has",
            range(18, 1, 1),
            Some((Rule::C10, 0, Some(0), Some(18))),
        ),
        ("18 has a higher one", range(18, 1, 3), None),
        (
            "19 lies beyond the row of a",
            range(18, 2, 3),
            Some((Rule::C16, 0, None, Some(19))),
        ),
    ] {
        if !is_found(alloc, &plan, earlier, later, &wanted)? {
            return Ok(Some(what));
        }
    }
    Ok(None)
}

#[test]
fn an_earlier_range_may_begin_inside_a_later_one(rt: HostRuntime) -> Result<(), Fail> {
    assert_eq!(rt; first_wrong(rt.alloc())?, None);
    Ok(())
}
