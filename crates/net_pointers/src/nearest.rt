//! The name that is nearest to another.
ghost use Rattle.std.specs.Prelude.{◌≡◌, ◌<◌, ◌≤◌, ℕ, map, length, get_or, All, MatchOption, IfOk};
ghost use Rattle.net_pointers.specs.Nearest.{edits, edits_to, IsNearest};

use std::alloc::{AllocError, Global};
use strsim::levenshtein;

/// The index of the first name that is nearest to this one, where one is close.
pub fn nearest_name(alloc: Global, name: &str, names: &[&str]) -> Result<Option<usize>, AllocError>
    ensures { IfOk result (λ found. IsNearest (map (λ other. other.now) names.now) name.now found) }
{
    let edits = edits_to(alloc, name, names)?;
    Ok(least_within(edits.as_slice(), name.len() / 3))
}

/// How many edits lead from a name to each of these.
fn edits_to(alloc: Global, name: &str, names: &[&str]) -> Result<Vec<usize>, AllocError>
    ensures { IfOk result (λ edits. edits.items ≡ edits_to (map (λ other. other.now) names.now) name.now) }
{
    let mut edits = Vec::new(alloc);
    for other in names {
        edits.push(edits_between(alloc, name, other)?)?;
    }
    Ok(edits)
}

/// How many edits lead from a name to another, whatever their case.
fn edits_between(alloc: Global, name: &str, other: &str) -> Result<usize, AllocError>
    ensures { IfOk result (λ count. count ≡ edits name.now other.now) }
{
    let name = name.to_ascii_lowercase(alloc)?;
    let other = other.to_ascii_lowercase(alloc)?;
    levenshtein(alloc, &name, &other)
}

/// The index of the first least count, where it is at most this.
fn least_within(counts: &[usize], most: usize) -> Option<usize>
    ensures { MatchOption result (All (λ count. most < count) counts.now)
        (λ index. (index < length counts.now) × (get_or counts.now index 0 ≤ most) × All (λ count. get_or counts.now index 0 ≤ count) counts.now
        × ((k : ℕ) → k < index → get_or counts.now index 0 < get_or counts.now k 0)) }
{
    if counts.is_empty() {
        return None;
    }
    let least = least_of(counts);
    if counts[least] <= most {
        return Some(least);
    }
    None
}

/// The index of the first least count.
fn least_of(counts: &[usize]) -> usize
    requires { 0 < length counts.now }
    ensures within { result < length counts.now }
    ensures least { All (λ count. get_or counts.now result 0 ≤ count) counts.now }
    ensures first { (k : ℕ) → k < result → get_or counts.now result 0 < get_or counts.now k 0 }
{
    let mut least = 0;
    for (index, count) in counts.iter().enumerate() {
        if *count < counts[least] {
            least = index;
        }
    }
    least
}
