//! Where numbers stand in a list.
ghost use Rattle.std.specs.Prelude.{◌≡◌, ◌≢◌, ℕ, Some, None, IfOk, OnOk};
ghost use Rattle.net_rules.specs.RecordChains.{IsIndexOf, found_in};

use std::alloc::{AllocError, Global};
use std::collections::BTreeMap;

/// How many small keys have a place for each key of the list.
const PLACES_EACH: usize = 4;

/// An index for each key that has one: of a small key at a place of its own, of any other in a map.
#[derive(Drop)]
pub struct HandleIndex {
    small: Vec<Option<usize>>,
    large: BTreeMap<u32, usize>,
}

impl HandleIndex {
    ghost use Rattle.std.specs.Prelude.{◌≡◌, ◌≢◌, ℕ, Some, None, IfOk, OnOk};
    ghost use Rattle.net_rules.specs.RecordChains.{found_in};

    /// No key has an index yet. So many are to come.
    fn new(alloc: Global, count: usize) -> Result<HandleIndex, AllocError>
        ensures { IfOk result (λ index. (key : ℕ) → found_in index key ≡ None) }
    {
        Ok(HandleIndex {
            small: vec![in alloc; None; count.saturating_mul(PLACES_EACH)]?,
            large: BTreeMap::new(alloc),
        })
    }

    /// Gives a key an index.
    fn insert(&mut self, key: u32, at: usize) -> Result<(), AllocError>
        ensures this { OnOk result (found_in self.new key ≡ Some at) }
        ensures others { OnOk result ((other : ℕ) → key ≢ other → found_in self.new other ≡ found_in self.old other) }
    {
        if (key as usize) < self.small.len() {
            self.small[key as usize] = Some(at);
        } else {
            self.large.insert(key, at)?;
        }
        Ok(())
    }
}

/// The first index of each key in the list.
pub fn index_of(alloc: Global, keys: &[u32]) -> Result<HandleIndex, AllocError>
    ensures { IfOk result (IsIndexOf keys.now) }
{
    let mut index = HandleIndex::new(alloc, keys.len())?;
    for at in 0..keys.len() {
        if first_at(&index, keys[at]).is_none() {
            index.insert(keys[at], at)?;
        }
    }
    Ok(index)
}

/// The key's index, if it has one.
pub fn first_at(index: &HandleIndex, key: u32) -> Option<usize>
    ensures { result ≡ found_in index.now key }
{
    match index.small.get(key as usize) {
        Some(at) => *at,
        None => index.large.get(&key).copied(),
    }
}
