//! Where numbers first stand in a list.
ghost use Rattle.std.specs.Prelude.{◌≡◌, ◌≢◌, ℕ, Some, None, IfOk, OnOk};
ghost use Rattle.net_faults.specs.Chains.{IsIndexOf, found_in};

use std::alloc::{AllocError, Global};
use std::collections::BTreeMap;

/// The index of each key that was noted.
#[derive(Drop)]
pub struct KeyIndex {
    by_key: BTreeMap<u32, usize>,
}

impl KeyIndex {
    ghost use Rattle.std.specs.Prelude.{◌≡◌, ◌≢◌, ℕ, Some, None, OnOk};
    ghost use Rattle.net_faults.specs.Chains.{found_in};

    /// No key has an index yet.
    fn new(alloc: Global) -> KeyIndex
        ensures { (key : ℕ) → found_in result key ≡ None }
    {
        KeyIndex {
            by_key: BTreeMap::new(alloc),
        }
    }

    /// Gives a key an index.
    fn insert(&mut self, key: u32, at: usize) -> Result<(), AllocError>
        ensures this { OnOk result (found_in self.new key ≡ Some at) }
        ensures others { OnOk result ((other : ℕ) → key ≢ other → found_in self.new other ≡ found_in self.old other) }
    {
        self.by_key.insert(key, at)?;
        Ok(())
    }

    /// The key's index, if it has one.
    pub fn get(&self, key: u32) -> Option<usize>
        ensures { result ≡ found_in self.now key }
    {
        self.by_key.get(&key).copied()
    }
}

/// The first index of each key in the list.
pub fn index_of(alloc: Global, keys: &[u32]) -> Result<KeyIndex, AllocError>
    ensures { IfOk result (IsIndexOf keys.now) }
{
    let mut index = KeyIndex::new(alloc);
    for at in 0..keys.len() {
        if index.get(keys[at]).is_none() {
            index.insert(keys[at], at)?;
        }
    }
    Ok(index)
}
