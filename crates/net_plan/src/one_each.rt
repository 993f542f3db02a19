//! Entries of a list, each of another node.
ghost use Rattle.std.{specs.Prelude.{◌≡◌, ◌≢◌, ◌==◌, ℕ, IsTrue, AllPairs, nat_lt}, specs.List.{list_all, list_any}};

use plan_values::{NodeLevel, NodePlaces, NodeRanks};

/// An entry of one node.
pub trait Entry {
    ghost node_of: { Self → ℕ };

    /// The index of the node in the plan's list.
    fn node(&self) -> usize
        ensures { result ≡ node_of self.now };
}

impl Entry for NodeLevel {
    ghost node_of = { λ l. l.node };

    fn node(&self) -> usize {
        self.node
    }
}

impl Entry for NodePlaces {
    ghost node_of = { λ p. p.node };

    fn node(&self) -> usize {
        self.node
    }
}

impl Entry for NodeRanks {
    ghost node_of = { λ r. r.node };

    fn node(&self) -> usize {
        self.node
    }
}

/// Whether no two entries are of one node. The time it takes grows with the number of nodes and of entries.
pub fn nodes_differ<E: Entry>(entries: &[E]) -> bool
    ensures { IsTrue result → AllPairs (λ a b. E.node_of a ≢ E.node_of b) entries.now }
{
    for (index, entry) in entries.iter().enumerate() {
        if has_entry(&entries[..index], entry.node()) {
            return false;
        }
    }
    true
}

/// Whether one of the entries is of this node.
fn has_entry<E: Entry>(entries: &[E], node: usize) -> bool
    ensures { result ≡ list_any (λ e. E.node_of e == node) entries.now }
{
    entries.iter().any(|entry| entry.node() == node)
}

/// Whether all entries are of one of so many nodes.
pub fn are_within<E: Entry>(entries: &[E], nodes: usize) -> bool
    ensures { result ≡ list_all (λ e. nat_lt (E.node_of e) nodes) entries.now }
{
    entries.iter().all(|entry| entry.node() < nodes)
}
