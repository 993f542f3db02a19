//! Walks over the records of termini, and over answers made by hand.
ghost use Rattle.std.specs.Prelude.{◌<◌, ◌≤◌, ◌+◌, ◌^◌};

use super::messages::bytes_of;
use super::repositories::{block_over, list_over, record_of, records_of};
use arrayvec::ArrayVec;
use pdr_repository::{Step, Terminus, WalkFault, Walker};
use pldm_message::{InstanceId, InstanceIds};
use std::alloc::{AllocError, Global};
use std::test::Fail;

/// Walks to the end or the first fault, and says how many requests it took.
fn walk(walker: &mut Walker, terminus: &mut Box<dyn Terminus>) -> Result<usize, WalkFault> {
    let mut ids = InstanceIds::new();
    let mut out = ArrayVec::new();
    let mut requests = 0usize;
    for _ in 0..1000u32 {
        let Some(id) = ids.take() else {
            break;
        };
        let Some(request) = walker.next_request(id) else {
            break;
        };
        requests = requests.saturating_add(1);
        let _ = terminus.answer(&request, &mut out);
        walker.take(out.as_slice())?;
        let _ = ids.give_back(id);
    }
    Ok(requests)
}

/// Whether the walker has collected the records of these handles and lengths, and no others.
fn has_collected(alloc: Global, walker: &Walker, rows: &[(u8, u32)]) -> Result<bool, AllocError> {
    for (index, (handle, length)) in rows.iter().enumerate() {
        let wanted = record_of(alloc, *handle, *length)?;
        if walker.records().get(index) != Some(&wanted) {
            return Ok(false);
        }
    }
    Ok(walker.records().len() == rows.len())
}

/// Whether the walker asks for nothing and takes nothing more.
fn is_over(walker: &mut Walker) -> bool {
    walker.next_request(InstanceId::new(9)).is_none()
        && walker.take(&[]) == Err(WalkFault::NotAsked)
}

/// Whether a walk in parts of at most `count` bytes, with room for exactly the records of these handles and lengths,
/// collects them with so many requests.
fn is_walked(
    alloc: Global,
    terminus: &mut Box<dyn Terminus>,
    count: u16,
    rows: &[(u8, u32)],
    requests: usize,
) -> Result<bool, AllocError>
    requires { (8 ≤ count) × (count ≤ 4079) }
{
    let bytes = rows
        .iter()
        .fold(0usize, |sum, row| sum.saturating_add(row.1 as usize));
    let mut walker = Walker::new(alloc, count, rows.len(), bytes.min(100_000))?;
    Ok(
        walk(&mut walker, terminus) == Ok(requests)
            && has_collected(alloc, &walker, rows)?
            && walker.taken() == requests
            && is_over(&mut walker),
    )
}

/// Whether a walk within these limits ends with G09, and keeps the two records before.
fn is_too_much(
    alloc: Global,
    terminus: &mut Box<dyn Terminus>,
    count: u16,
    max_records: usize,
    max_bytes: usize,
) -> Result<bool, AllocError>
    requires count { (8 ≤ count) × (count ≤ 4079) }
    requires max_bytes { max_bytes + 1 < 2 ^ 64 }
{
    let mut walker = Walker::new(alloc, count, max_records, max_bytes)?;
    Ok(walk(&mut walker, terminus) == Err(WalkFault::TooMuch) && walker.records().len() == 2)
}

/// Three records whose handles do not ascend.
const THREE: [(u8, u32); 3] = [(7, 19), (3, 128), (5, 65)];

#[test]
fn walks_collect_the_records_of_a_list(rt: HostRuntime) -> Result<(), Fail> {
    let alloc = rt.alloc();
    let list = list_over(alloc, records_of(alloc, &THREE)?)?.ok_or("lawful")?;
    let mut terminus: Box<dyn Terminus> = Box::new(alloc, list)?;
    assert!(rt;
        is_walked(alloc, &mut terminus, 64, &THREE, 5)?,
        "within both limits"
    );
    assert!(rt;
        is_too_much(alloc, &mut terminus, 64, 2, 212)?,
        "a record too many"
    );
    assert!(rt;
        is_too_much(alloc, &mut terminus, 8, 3, 211)?,
        "a byte too many"
    );
    Ok(())
}

#[test]
fn walks_collect_the_records_of_a_block(rt: HostRuntime) -> Result<(), Fail> {
    let alloc = rt.alloc();
    let block = block_over(alloc, records_of(alloc, &THREE)?)?.ok_or("lawful")?;
    let mut terminus: Box<dyn Terminus> = Box::new(alloc, block)?;
    assert!(rt; is_walked(alloc, &mut terminus, 64, &THREE, 5)?);
    Ok(())
}

/// Answers under instance ID 0, by a name for each.
const ANSWERS: &str = "
# whole records of 10 bytes, by their handle and the next one
one_ends 01000251000000000000000000050a000100000001c800000000
one_to_one 01000251000100000000000000050a000100000001c800000000
one_to_two 01000251000200000000000000050a000100000001c800000000
two_to_one 01000251000100000000000000050a000200000001c800000000
two_ends 01000251000000000000000000050a000200000001c800000000
zero_ends 01000251000000000000000000050a000000000001c800000000
# what is wrong is the instance ID, the transfer flag, or the length
other_id 011f0251000000000000000000050a000100000001c800000000
other_request 019f0251000000000000000000050a000100000001c800000000
middle 01000251000000000000000000010a000100000001c800000000
endless 01000251000000000000000000000a000100000001c800000000
longer 01000251000000000000000000050a000100000001c800000100
# eight bytes of a record, where more are announced, and one byte more of it, and so on
begun 010002510000000000080000000008000100000001010000
one_more 0100025100000000000800000001010007
# the last two bytes of it with the right check byte, with another, and three bytes
ends 01000251000000000000000000040200000023
ends_wrong 01000251000000000000000000040200000022
ends_long 0100025100000000000000000004030000000023
# seven bytes, where a first part has eight, and none
seven 0100025100070000000700000000070001000000010100
empty 01000251000000000000000000050000
";

/// The answer that a word names, or gives in hex.
fn answer_of(alloc: Global, word: &str) -> Result<Vec<u8>, Fail> {
    for row in ANSWERS.lines() {
        match row.split_once(' ') {
            Some((name, answer)) if name == word => return bytes_of(alloc, answer),
            _ => {}
        }
    }
    bytes_of(alloc, word)
}

/// The most records, what the walker says of the last answer, and answers that come each after a request. It refuses none
/// before.
const TOLD: &str = "
9 done one_ends
9 record one_to_two
9 done one_to_two two_ends
9 more begun
9 done begun ends
9 G05 begun ends_wrong
9 G06 begun ends_long
9 G04 begun one_ends
9 G02 010002
9 G02 0180025100
9 G03 other_id
# of two causes the first is told
9 G03 other_request
9 G03 011f0250
9 G10 0100025183
9 G01 0100025182
9 G04 middle
9 G04 endless
9 G06 seven
9 G06 empty
9 G06 longer
0 G07 zero_ends
0 G09 one_ends
9 G08 one_to_two two_to_one one_to_two
1 G08 one_to_one one_to_two
";

/// What a walker says of an answer: what it makes of it, or the code of the refusal.
pub(crate) fn word_of(told: Result<Step, WalkFault>) -> &'static str {
    match told {
        Ok(Step::More) => "more",
        Ok(Step::Record) => "record",
        Ok(Step::Done) => "done",
        Err(why) => why.code().unwrap_or("no memory"),
    }
}

/// What a walker over parts of 64 bytes and over 640 bytes of records says of the last of these answers.
fn told_of(alloc: Global, most: usize, answers: &str) -> Result<&'static str, Fail> {
    let mut walker = Walker::new(alloc, 64, most, 640)?;
    let mut told = Err(WalkFault::NotAsked);
    for (index, word) in answers.split(' ').enumerate() {
        if index > 0 && told.is_err() {
            return Ok("refused before");
        }
        let _ = walker.next_request(InstanceId::new(0));
        told = walker.take(&answer_of(alloc, word)?);
    }
    Ok(word_of(told))
}

fn is_told_so(alloc: Global, row: &str) -> Result<bool, Fail> {
    let Some((most, rest)) = row.split_once(' ') else {
        return Ok(false);
    };
    match (most.parse(), rest.split_once(' ')) {
        (Ok(most), Some((wanted, answers))) => Ok(told_of(alloc, most, answers)? == wanted),
        _ => Ok(false),
    }
}

/// The first row of which a walker says something else.
fn first_other(alloc: Global, rows: &'static str) -> Result<Option<&'static str>, Fail> {
    for row in rows.lines() {
        if !row.is_empty() && !row.starts_with('#') && !is_told_so(alloc, row)? {
            return Ok(Some(row));
        }
    }
    Ok(None)
}

#[test]
fn answers_are_taken_or_refused_by_their_first_cause(rt: HostRuntime) -> Result<(), Fail> {
    assert_eq!(rt; first_other(rt.alloc(), TOLD)?, None);
    Ok(())
}

/// What the walker says where this answer comes so many times, each after a request: the last thing.
fn told_at_last(walker: &mut Walker, answer: &[u8], times: u32) -> &'static str {
    let mut told = "nothing";
    for _ in 0..times {
        let _ = walker.next_request(InstanceId::new(0));
        told = word_of(walker.take(answer));
    }
    told
}

/// 8 bytes and 56 times one are 64.
#[test]
fn a_peer_that_sends_one_byte_for_ever_is_left(rt: HostRuntime) -> Result<(), Fail> {
    let alloc = rt.alloc();
    let mut walker = Walker::new(alloc, 8, 4, 64)?;
    let (begun, one_more) = (answer_of(alloc, "begun")?, answer_of(alloc, "one_more")?);
    let told = (
        told_at_last(&mut walker, &begun, 1),
        told_at_last(&mut walker, &one_more, 56),
        told_at_last(&mut walker, &one_more, 1),
        told_at_last(&mut walker, &one_more, 1),
    );
    assert_eq!(rt; told, ("more", "more", "G09", "G11"));
    assert_eq!(rt; walker.taken(), 58);
    Ok(())
}
