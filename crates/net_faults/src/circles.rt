//! Circles of moves, by a table of next indices.
ghost use Rattle.std.specs.Prelude.{◌≡◌, true, false, IfOk, IsTrue, MatchOption};
ghost use Rattle.net_rules.specs.Circles.{next_in, MovesBy, HasNoCircle, IsLeastOnCircle, IsOnCircle};
ghost use Rattle.net_faults.specs.Circles.{FallsFrom, IsCircle, IsNotLeast, height_in};

use std::alloc::{AllocError, Global};

/// The next index, if any.
pub fn next_of(table: &[Option<usize>], index: usize) -> Option<usize>
    ensures { result ≡ next_in table.now index }
{
    *table.get(index)?
}

/// The circle whose least index this is, if there is one: the index, each that follows, and the index again.
pub fn circle_at(
    alloc: Global,
    table: &[Option<usize>],
    first: usize,
) -> Result<Option<Vec<usize>>, AllocError>
    ensures { IfOk result (λ found. MatchOption found (IsNotLeast (MovesBy table.now) first) (λ places. IsCircle (MovesBy table.now) first places.items)) }
{
    let mut places = Vec::new(alloc);
    places.push(first)?;
    let mut at = first;
    for _count in 0..table.len() {
        let Some(next) = next_of(table, at) else {
            return Ok(None);
        };
        if next < first {
            return Ok(None);
        }
        places.push(next)?;
        if next == first {
            return Ok(Some(places));
        }
        at = next;
    }
    Ok(None)
}

/// The first index on a circle.
pub fn first_on_circle(alloc: Global, table: &[Option<usize>]) -> Result<Option<usize>, AllocError>
    ensures { IfOk result (λ found. MatchOption found (HasNoCircle (MovesBy table.now)) (IsLeastOnCircle (MovesBy table.now))) }
{
    for index in 0..table.len() {
        let begins = begins_circle(alloc, table, index)?;
        if begins {
            return Ok(Some(index));
        }
    }
    Ok(None)
}

/// Whether the index is the least of a circle.
fn begins_circle(alloc: Global, table: &[Option<usize>], index: usize) -> Result<bool, AllocError>
    ensures yes { IfOk result (λ begins. begins ≡ true → IsOnCircle (MovesBy table.now) index) }
    ensures no { IfOk result (λ begins. begins ≡ false → IsNotLeast (MovesBy table.now) index) }
{
    match circle_at(alloc, table, index)? {
        Some(_circle) => Ok(true),
        None => Ok(false),
    }
}

/// Whether each move leads to a lesser height, so that none leads round a circle.
pub fn heights_fall(table: &[Option<usize>], heights: &[usize]) -> bool
    ensures { IsTrue result → HasNoCircle (MovesBy table.now) }
{
    for index in 0..table.len() {
        if !falls_from(table, heights, index) {
            return false;
        }
    }
    true
}

/// Whether the move from an index, if there is one, leads to a lesser height.
fn falls_from(table: &[Option<usize>], heights: &[usize], index: usize) -> bool
    ensures { IsTrue result → FallsFrom table.now heights.now index }
{
    match next_of(table, index) {
        Some(next) => height_at(heights, next) < height_at(heights, index),
        None => true,
    }
}

/// The height at an index; 0 beyond the list.
fn height_at(heights: &[usize], index: usize) -> usize
    ensures { result ≡ height_in heights.now index }
{
    heights.get(index).copied().unwrap_or(0)
}
