//! NameIndex of names in a list.
ghost use Rattle.std.specs.Prelude.{◌≡◌, ℕ, List, map, IfOk};
ghost use Rattle.net_plan.specs.Names.{index_among, names_differ};

use std::alloc::{AllocError, Global};
use std::collections::BTreeMap;

/// Tells the names of items.
pub trait Naming {
    type Item;

    ghost name_of: { Self → Self.Item → List ℕ };

    fn name<'a>(&self, item: &'a Self::Item) -> &'a str
        ensures { result.now ≡ name_of self.now item.now };
}

/// The indices of the names of a list. Of two items of one name it is the first's. Names are found by comparison, since
/// who writes a text could choose names that collide in a hash.
#[derive(Drop)]
pub struct NameIndex<'a> {
    by_name: BTreeMap<&'a str, usize>,
    /// How long the list is.
    count: usize,
}

impl<'a> NameIndex<'a> {
    ghost use Rattle.std.{specs.Prelude.{◌≡◌, ℕ, List, map, IfOk, OnOk, None, Some, is_some, not, if◌then◌else◌}, specs.Option.{option_or}, specs.Str.{bytes_eq}};
    ghost use Rattle.net_plan.{specs.Names.{index_among, index_of}, specs.NameIndexes.{noted, find_in}};

    pub fn of<N: Naming>(
        alloc: Global,
        naming: &N,
        items: &'a [N::Item],
    ) -> Result<NameIndex<'a>, AllocError>
        ensures found { IfOk result (λ p. (q : List ℕ) → find_in p q ≡ index_among (map (N.name_of naming.now) items.now) q) }
        ensures placed { IfOk result (λ p. (q : List ℕ) → noted p q ≡ index_of (map (N.name_of naming.now) items.now) q) }
    {
        let mut known = NameIndex::none(alloc, items.len());
        for (index, item) in items.iter().enumerate() {
            known.note(naming.name(item), index)?;
        }
        Ok(known)
    }

    /// No indices yet, of a list that is so long.
    fn none(alloc: Global, count: usize) -> NameIndex<'a>
        ensures none { (q : List ℕ) → noted result q ≡ None }
        ensures count { result.count ≡ count }
    {
        NameIndex {
            by_name: BTreeMap::new(alloc),
            count,
        }
    }

    /// Gives a name an index, if it has none, and tells whether it had none. A name that has none is looked up once.
    fn note(&mut self, name: &'a str, index: usize) -> Result<bool, AllocError>
        ensures first { IfOk result (λ first. first ≡ not (is_some (noted self.old name.now))) }
        ensures noted { OnOk result ((q : List ℕ) → noted self.new q ≡ option_or (noted self.old q) (if bytes_eq q name.now then Some index else None)) }
        ensures count { OnOk result (self.new.count ≡ self.old.count) }
    {
        match self.by_name.insert(name, index) {
            Ok(None) => Ok(true),
            Ok(Some(had)) => {
                self.put_back(name, had)?;
                Ok(false)
            }
            // no memory: the map could not grow.
            Err(_) => Err(AllocError),
        }
    }

    /// Gives a name back the index that it had.
    fn put_back(&mut self, name: &'a str, index: usize) -> Result<(), AllocError>
        ensures noted { OnOk result ((q : List ℕ) → noted self.new q ≡ (if bytes_eq name.now q then Some index else noted self.old q)) }
        ensures count { OnOk result (self.new.count ≡ self.old.count) }
    {
        match self.by_name.insert(name, index) {
            Ok(_) => Ok(()),
            // no memory: the map could not grow.
            Err(_) => Err(AllocError),
        }
    }

    /// The index of a name, if it has one.
    pub fn index_of(&self, name: &str) -> Option<usize>
        ensures { result ≡ noted self.now name.now }
    {
        match self.by_name.get(name) {
            Some(index) => Some(*index),
            None => None,
        }
    }

    /// The index of a name; the count of the list for one that has none.
    pub fn find(&self, name: &str) -> usize
        ensures { result ≡ find_in self.now name.now }
    {
        match self.by_name.get(name) {
            Some(index) => *index,
            None => self.count,
        }
    }
}

/// Whether no two items have one name.
pub fn names_differ<N: Naming>(
    alloc: Global,
    naming: &N,
    items: &[N::Item],
) -> Result<bool, AllocError>
    ensures { IfOk result (λ differ. differ ≡ names_differ (map (N.name_of naming.now) items.now)) }
{
    let mut known = NameIndex::none(alloc, items.len());
    for (index, item) in items.iter().enumerate() {
        let is_new = known.note(naming.name(item), index)?;
        if !is_new {
            return Ok(false);
        }
    }
    Ok(true)
}
