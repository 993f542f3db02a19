//! The longest ways of moves from index to index, each by one of two tables of next places.
ghost use Rattle.std.specs.Prelude.{◌≡◌, ℕ, ◌+◌, ◌≤◌, ◌↔◌, length, IfOk, IsTrue, MatchOption, Some, None, replicate, slice_get};
ghost use Rattle.net_rules.{specs.Circles.{HasCircle, MovesBy}, specs.LongestWays.{AreLongest, AreLongestWithin, MovesByEither, IsLongestOrLoop, one_before}};

use crate::certifying::mixed_loops::first_loop;
use crate::certifying::walks::next_of;
use crate::mixed_loop::Side;
use std::alloc::{AllocError, Global};

/// Where the moves of two tables lead.
#[derive(Debug, Drop)]
pub enum Longest {
    /// To ends: the number of moves of the longest way from each index.
    Ended(Vec<usize>),
    /// Round a circle: its places, from the least one that is on any circle back to itself, and the table of each move.
    Circled(Vec<usize>, Vec<Side>),
}

/// The number of moves of the longest way from each index by the two tables, or a loop.
pub fn longest_or_loop(
    alloc: Global,
    old: &[Option<usize>],
    new: &[Option<usize>],
) -> Result<Longest, AllocError>
    requires { length new.now ≡ length old.now }
    ensures { IfOk result (λ longest. IsLongestOrLoop (MovesBy old.now) (MovesBy new.now) (length old.now) longest) }
{
    if let Some(counts) = longest_ways(alloc, old, new)? {
        return Ok(Longest::Ended(counts));
    }
    match first_loop(alloc, old, new)? {
        Some((nodes, sides)) => Ok(Longest::Circled(nodes, sides)),
        None => unreachable!(),
    }
}

/// The number of moves of the longest way from each index; none where some lead round a circle. In each round the ways
/// may have one move more, until none does.
fn longest_ways(
    alloc: Global,
    old: &[Option<usize>],
    new: &[Option<usize>],
) -> Result<Option<Vec<usize>>, AllocError>
    requires { length new.now ≡ length old.now }
    ensures { IfOk result (λ found. MatchOption found (HasCircle (MovesByEither old.now new.now)) (λ counts. AreLongest (MovesByEither old.now new.now) (length old.now) counts.items)) }
{
    let mut counts = no_moves(alloc, old.len())?;
    for most in 0..old.len() + 1 {
        let more = one_move_more(alloc, old, new, &counts)?;
        if !has_count(&more, most + 1) {
            return Ok(Some(more));
        }
        counts = more;
    }
    Ok(None)
}

/// No moves from each of `count` places.
fn no_moves(alloc: Global, count: usize) -> Result<Vec<usize>, AllocError>
    ensures { IfOk result (λ counts. counts.items ≡ replicate count 0) }
{
    vec![in alloc; 0; count]
}

/// Whether one of the counts is this one.
fn has_count(counts: &[usize], count: usize) -> bool
    ensures { IsTrue result ↔ ((n : ℕ) × (slice_get counts.now n ≡ Some count)) }
{
    for index in 0..counts.len() {
        if counts[index] == count {
            return true;
        }
    }
    false
}

/// From the longest ways of so many moves at most, those of one move more.
fn one_move_more(
    alloc: Global,
    old: &[Option<usize>],
    new: &[Option<usize>],
    counts: &[usize],
) -> Result<Vec<usize>, AllocError>
    requires tables { length new.now ≡ length old.now }
    requires counts { length counts.now ≡ length old.now }
    requires few { (n k : ℕ) → slice_get counts.now n ≡ Some k → k ≤ length counts.now }
    ensures long { IfOk result (λ more. length more.items ≡ length old.now) }
    ensures more { IfOk result (λ more. (most : ℕ) → AreLongestWithin (MovesByEither old.now new.now) most counts.now → AreLongestWithin (MovesByEither old.now new.now) (most + 1) more.items) }
{
    let mut more = Vec::new(alloc);
    for index in 0..old.len() {
        let by_old = one_before(counts, next_of(old, index));
        let by_new = one_before(counts, next_of(new, index));
        more.push(by_old.max(by_new))?;
    }
    Ok(more)
}

/// One move more than the longest way from the next place has, where there is one.
fn one_before(counts: &[usize], next: Option<usize>) -> usize
    requires { (n k : ℕ) → slice_get counts.now n ≡ Some k → k ≤ length counts.now }
    ensures { result ≡ one_before counts.now next }
{
    let Some(next) = next else {
        return 0;
    };
    match counts.get(next) {
        Some(count) => *count + 1,
        None => 1,
    }
}
