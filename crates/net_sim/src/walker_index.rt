//! Where the walkers of a network stand in the order in which they began.
ghost use Rattle.std.specs.Prelude.{◌≡◌};

use mctp_transport::{Eid, Tag};
use std::alloc::{AllocError, Global};
use std::collections::BTreeMap;

/// The index of a walker, by its node, by the endpoint ID that it asks and by its tag.
#[derive(Drop)]
pub struct WalkerIndex {
    by_place: BTreeMap<(usize, u8, u8), usize>,
}

impl WalkerIndex {
    ghost use Rattle.std.specs.Prelude.{◌≡◌, ℕ, None, Some, OnOk, OnErr};
    ghost use Rattle.net_sim.specs.WalkerIndexes.{index_at};

    /// An index of no walkers.
    pub fn new(alloc: Global) -> WalkerIndex
        ensures { (node eid tag : ℕ) → index_at result node eid tag ≡ None }
    {
        WalkerIndex {
            by_place: BTreeMap::new(alloc),
        }
    }

    /// The index that was noted for a walker there, if one was.
    pub fn find(&self, node: usize, eid: Eid, tag: Tag) -> Option<usize>
        ensures { result ≡ index_at self.now node eid.value tag.value }
    {
        self.by_place.get(&(node, eid.value, tag.value)).copied()
    }

    /// Notes the index of a walker there. Where memory runs out, nothing has changed.
    pub fn note(&mut self, node: usize, eid: Eid, tag: Tag, index: usize) -> Result<(), AllocError>
        ensures noted { OnOk result (index_at self.new node eid.value tag.value ≡ Some index) }
        ensures others { OnOk result ((n e t : ℕ) → ¬ ((n ≡ node) × (e ≡ eid.value) × (t ≡ tag.value)) → index_at self.new n e t ≡ index_at self.old n e t) }
        ensures unchanged { OnErr result ((n e t : ℕ) → index_at self.new n e t ≡ index_at self.old n e t) }
    {
        match self.by_place.insert((node, eid.value, tag.value), index) {
            Ok(_) => Ok(()),
            // no memory: the map could not grow.
            Err(_) => Err(AllocError),
        }
    }
}
