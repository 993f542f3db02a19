//! Where moves from index to index lead, by a table of next places.
ghost use Rattle.std.specs.Prelude.{◌≡◌, ◌↔◌, length, IsTrue, IfOk, IfSome, MatchOption, Some, None, replicate, slice_get};
ghost use Rattle.net_rules.specs.Circles.{next_in, MovesBy, IsOnCircle, IsLeastOnCircle, HasNoCircle, HasCircle, IsLoopFrom, EndsAfter, AreKnown, AreMovesToEnds, IsWalked};

use std::alloc::{AllocError, Global};

/// Where the moves of a table lead.
#[derive(Debug, Drop)]
pub enum Walked {
    /// To an end from each index, after so many moves.
    Ended(Vec<usize>),
    /// Round a circle: its places, from the least one that is on any circle back to itself.
    Circled(Vec<usize>),
}

/// The next index, if any.
pub fn next_of(table: &[Option<usize>], index: usize) -> Option<usize>
    ensures { result ≡ next_in table.now index }
{
    *table.get(index)?
}

/// Whether some moves lead back to the index.
fn is_on_circle(table: &[Option<usize>], start: usize) -> bool
    ensures { IsTrue result ↔ IsOnCircle (MovesBy table.now) start }
{
    let mut at = start;
    for _count in 0..table.len() {
        let Some(next) = next_of(table, at) else {
            return false;
        };
        if next == start {
            return true;
        }
        at = next;
    }
    false
}

/// The first index on a circle.
fn first_on_circle(table: &[Option<usize>]) -> Option<usize>
    ensures { MatchOption result (HasNoCircle (MovesBy table.now)) (IsLeastOnCircle (MovesBy table.now)) }
{
    for index in 0..table.len() {
        if is_on_circle(table, index) {
            return Some(index);
        }
    }
    None
}

/// The places from an index on a circle up to its first return.
fn loop_from(alloc: Global, table: &[Option<usize>], start: usize) -> Result<Vec<usize>, AllocError>
    requires { IsOnCircle (MovesBy table.now) start }
    ensures { IfOk result (λ places. IsLoopFrom (MovesBy table.now) start places.items) }
{
    let mut places = Vec::new(alloc);
    places.push(start)?;
    let mut at = start;
    while let Some(next) = next_of(table, at) {
        places.push(next)?;
        if next == start {
            return Ok(places);
        }
        at = next;
    }
    Ok(places)
}

/// The number of moves from an index to its end, where it is known.
fn known_at(known: &[Option<usize>], index: usize) -> Option<usize>
    ensures { IfSome result (λ count. slice_get known.now index ≡ Some (Some count)) }
{
    *known.get(index)?
}

/// The number of moves from an index to its end: up to an index whose number is known, if it comes to one. None where
/// the moves are more than the places, so that they go round a circle.
fn moves_to_end(table: &[Option<usize>], known: &[Option<usize>], start: usize) -> Option<usize>
    requires { AreKnown (MovesBy table.now) known.now }
    ensures { MatchOption result (HasCircle (MovesBy table.now)) (EndsAfter (MovesBy table.now) start) }
{
    let mut at = start;
    for count in 0..table.len() + 1 {
        if let Some(rest) = known_at(known, at) {
            return Some(count + rest);
        }
        let Some(next) = next_of(table, at) else {
            return Some(count);
        };
        at = next;
    }
    None
}

/// Notes the number of moves from an index to its end, and those of the places on its way, up to one whose number is
/// known.
#[tactic(auto, using(crate::proofs::KnownEnds::knows_more))]
fn note_moves(table: &[Option<usize>], known: &mut [Option<usize>], start: usize, count: usize)
    requires known { AreKnown (MovesBy table.now) known.old }
    requires ends { EndsAfter (MovesBy table.now) start count }
    ensures long { length known.new ≡ length known.old }
    ensures known { AreKnown (MovesBy table.now) known.new }
{
    let mut at = start;
    let mut left = count;
    while known.get(at) == Some(&None) {
        known[at] = Some(left);
        let Some(next) = next_of(table, at) else {
            return;
        };
        at = next;
        left -= 1;
    }
}

/// `count` places from which no number of moves is known.
fn none_known(alloc: Global, count: usize) -> Result<Vec<Option<usize>>, AllocError>
    ensures { IfOk result (λ known. known.items ≡ replicate count None) }
{
    vec![in alloc; None; count]
}

/// The numbers of moves from each index to its end; none where some lead round a circle. Each move is followed twice at
/// most.
fn moves_to_ends(alloc: Global, table: &[Option<usize>]) -> Result<Option<Vec<usize>>, AllocError>
    ensures { IfOk result (λ found. MatchOption found (HasCircle (MovesBy table.now)) (λ counts. AreMovesToEnds (MovesBy table.now) (length table.now) counts.items)) }
{
    let mut known = none_known(alloc, table.len())?;
    let mut counts = Vec::new(alloc);
    for index in 0..table.len() {
        let Some(count) = moves_to_end(table, &known, index) else {
            return Ok(None);
        };
        note_moves(table, &mut known, index, count);
        counts.push(count)?;
    }
    Ok(Some(counts))
}

/// Where the moves lead: to ends, or round the circle of the least index on one.
pub fn walk(alloc: Global, table: &[Option<usize>]) -> Result<Walked, AllocError>
    ensures { IfOk result (λ walked. IsWalked (MovesBy table.now) (length table.now) walked) }
{
    if let Some(counts) = moves_to_ends(alloc, table)? {
        return Ok(Walked::Ended(counts));
    }
    match first_on_circle(table) {
        Some(start) => Ok(Walked::Circled(loop_from(alloc, table, start)?)),
        None => unreachable!(),
    }
}
