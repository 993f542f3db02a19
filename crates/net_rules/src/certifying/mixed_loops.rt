//! The first loop of moves from index to index, each by one of two tables of next places.
ghost use Rattle.std.specs.Prelude.{◌≡◌, ℕ, ◌+◌, ◌-◌, ◌<◌, ◌≤◌, ◌↔◌, length, IfOk, IsTrue, MatchOption, Some, None, slice_get, true, ◌||◌};
ghost use Rattle.net_rules.{specs.Moves.{Leads}, specs.Circles.{HasNoCircle, IsOnCircle, IsLeastOnCircle, MovesBy}, specs.MixedLoops.{IsMixedLoop, IsFirstReturn, MovesOn, AreMarked, is_marked, leads_to_mark}, specs.LongestWays.{MovesByEither}};

use crate::certifying::walks::next_of;
use crate::mixed_loop::Side;
use std::alloc::{AllocError, Global};

/// The shortest loop from the least index on a circle back to itself, and the table of each of its moves. Where both
/// tables lead back in as few, it goes by the old one.
pub fn first_loop(
    alloc: Global,
    old: &[Option<usize>],
    new: &[Option<usize>],
) -> Result<Option<(Vec<usize>, Vec<Side>)>, AllocError>
    requires { length new.now ≡ length old.now }
    ensures { IfOk result (λ found. MatchOption found (HasNoCircle (MovesByEither old.now new.now)) (λ both. IsMixedLoop (MovesBy old.now) (MovesBy new.now) both.0.items both.1.items)) }
{
    for start in 0..old.len() {
        if let Some(layers) = ways_back(alloc, old, new, start)? {
            return Ok(Some(loop_along(alloc, old, new, &layers, start)?));
        }
    }
    Ok(None)
}

/// For each number of moves the places from which so many lead to `start`, up to the first way from itself.
fn ways_back(
    alloc: Global,
    old: &[Option<usize>],
    new: &[Option<usize>],
    start: usize,
) -> Result<Option<Vec<Vec<bool>>>, AllocError>
    requires tables { length new.now ≡ length old.now }
    requires within { start < length old.now }
    ensures { IfOk result (λ found. MatchOption found (¬ IsOnCircle (MovesByEither old.now new.now) start) (λ layers. IsFirstReturn (MovesByEither old.now new.now) start layers.items)) }
{
    let mut layers = Vec::new(alloc);
    layers.push(one_marked(alloc, old.len(), start)?)?;
    for moves in 0..old.len() {
        let marks = one_move_back(alloc, old, new, &layers[moves])?;
        let is_back = is_marked(&marks, start);
        layers.push(marks)?;
        if is_back {
            return Ok(Some(layers));
        }
    }
    Ok(None)
}

/// Marks for so many places, of which one is set.
fn one_marked(alloc: Global, count: usize, place: usize) -> Result<Vec<bool>, AllocError>
    requires { place < count }
    ensures { IfOk result (λ marks. AreMarked (λ n. n ≡ place) marks.items) }
{
    let mut marks = Vec::new(alloc);
    for index in 0..count {
        marks.push(index == place)?;
    }
    Ok(marks)
}

/// Marks the places from which a move leads to one that is marked.
fn one_move_back(
    alloc: Global,
    old: &[Option<usize>],
    new: &[Option<usize>],
    marks: &[bool],
) -> Result<Vec<bool>, AllocError>
    requires { length new.now ≡ length old.now }
    ensures long { IfOk result (λ back. length back.items ≡ length old.now) }
    ensures marked { IfOk result (λ back. AreMarked (λ n. (m : ℕ) × MovesByEither old.now new.now n m × (is_marked marks.now m ≡ true)) back.items) }
{
    let mut back = Vec::new(alloc);
    for index in 0..old.len() {
        back.push(one_leads_to_mark(marks, next_of(old, index), next_of(new, index)))?;
    }
    Ok(back)
}

/// Whether one of the two next places is marked.
fn one_leads_to_mark(marks: &[bool], old: Option<usize>, new: Option<usize>) -> bool
    ensures { result ≡ (leads_to_mark marks.now old || leads_to_mark marks.now new) }
{
    leads_to_mark(marks, old) || leads_to_mark(marks, new)
}

/// Whether the next place is marked, where there is one.
fn leads_to_mark(marks: &[bool], next: Option<usize>) -> bool
    ensures { result ≡ leads_to_mark marks.now next }
{
    match next {
        Some(next) => is_marked(marks, next),
        None => false,
    }
}

/// The mark of a place; false beyond them.
fn is_marked(marks: &[bool], place: usize) -> bool
    ensures { result ≡ is_marked marks.now place }
{
    match marks.get(place) {
        Some(mark) => *mark,
        None => false,
    }
}

/// The loop along the ways back to `start`.
fn loop_along(
    alloc: Global,
    old: &[Option<usize>],
    new: &[Option<usize>],
    layers: &[Vec<bool>],
    start: usize,
) -> Result<(Vec<usize>, Vec<Side>), AllocError>
    requires tables { length new.now ≡ length old.now }
    requires least { IsLeastOnCircle (MovesByEither old.now new.now) start }
    requires returns { IsFirstReturn (MovesByEither old.now new.now) start layers.now }
    ensures { IfOk result (λ both. IsMixedLoop (MovesBy old.now) (MovesBy new.now) both.0.items both.1.items) }
{
    let mut nodes = Vec::new(alloc);
    let mut sides = Vec::new(alloc);
    nodes.push(start)?;
    let mut at = start;
    let mut left = layers.len() - 1;
    while left > 0 {
        left -= 1;
        let (next, side) = hop(old, new, &layers[left], at);
        nodes.push(next)?;
        sides.push(side)?;
        at = next;
    }
    Ok((nodes, sides))
}

/// The move to a marked place, by the old table if it has one.
fn hop(old: &[Option<usize>], new: &[Option<usize>], marks: &[bool], at: usize) -> (usize, Side)
    requires tables { length new.now ≡ length old.now }
    requires some { (m : ℕ) × MovesByEither old.now new.now at m × (is_marked marks.now m ≡ true) }
    ensures by { MovesOn result.1 (MovesBy old.now) (MovesBy new.now) at result.0 }
    ensures marked { is_marked marks.now result.0 ≡ true }
    ensures old_first { result.1 ≡ Side.New → (m : ℕ) → MovesBy old.now at m → ¬ (is_marked marks.now m ≡ true) }
{
    if let Some(next) = next_of(old, at) {
        if is_marked(marks, next) {
            return (next, Side::Old);
        }
    }
    match next_of(new, at) {
        Some(next) => (next, Side::New),
        None => unreachable!(),
    }
}
