//! How many there are of each message key and destination.
ghost use Rattle.std.specs.Prelude.{◌≡◌, map, IfOk};

use mctp_transport::{Eid, Key};
use plan_values::Node;
use std::alloc::{AllocError, Global};

/// The most endpoint IDs that are known: as many as a plan has nodes.
const MOST_EIDS: usize = 64;

/// Endpoint IDs that are known. The index of each is found by one look.
#[derive(Debug, Drop)]
pub struct KnownEids {
    eids: Vec<Eid>,
    /// At each endpoint ID the index where it stands, if it is known. Each look tests it.
    hints: Vec<u8>,
}

/// The endpoint IDs that nodes hold.
fn eids_of(alloc: Global, nodes: &[Node]) -> Result<Vec<Eid>, AllocError>
    ensures { IfOk result (λ eids. eids.items ≡ map (λ node. node.eid) nodes.now) }
{
    nodes.iter().map(|node| node.eid).collect(alloc)
}

impl KnownEids {
    ghost use Rattle.std.specs.Prelude.{◌≡◌, ◌≤◌, ◌<◌, All, IfOk, IfSome, is_some, length, true};
    ghost use Rattle.net_sim.specs.KeyCounts.{known_at};

    /// The endpoint IDs that nodes hold, of 64 nodes at most.
    pub fn of_nodes(alloc: Global, nodes: &[Node]) -> Result<KnownEids, AllocError>
        ensures { IfOk result (λ known. length nodes.now ≤ 64 → All (λ node. is_some (known_at known node.eid.value) ≡ true) nodes.now) }
    {
        KnownEids::of(alloc, eids_of(alloc, nodes)?)
    }

    /// These endpoint IDs, 64 at most.
    pub fn of(alloc: Global, eids: Vec<Eid>) -> Result<KnownEids, AllocError>
        ensures { IfOk result (λ known. length eids.items ≤ 64 → All (λ eid. is_some (known_at known eid.value) ≡ true) eids.items) }
    {
        let mut hints = vec![in alloc; 0; 256]?;
        for index in 0..eids.len().min(MOST_EIDS) {
            hints[usize::from(eids[index].value)] = index as u8;
        }
        Ok(KnownEids { eids, hints })
    }

    /// The index of an endpoint ID, if it is known.
    fn index_of(&self, eid: Eid) -> Option<usize>
        ensures index { result ≡ known_at self.now eid.value }
        ensures few { IfSome result (λ index. index < 64) }
    {
        let index = usize::from(*self.hints.get(usize::from(eid.value))?);
        let known = self.eids.get(index)?;
        if index < MOST_EIDS && *known == eid {
            Some(index)
        } else {
            None
        }
    }
}

/// How many there are of each message key and destination, where their endpoint IDs are known.
#[derive(Debug, Drop)]
pub struct KeyCounts {
    sources: KnownEids,
    destinations: KnownEids,
    /// 16 for each source, one for each tag and owner, and 1,024 for each destination.
    counts: Vec<usize>,
}

impl KeyCounts {
    ghost use Rattle.std.specs.Prelude.{◌≡◌, ◌+◌, ◌-◌, ◌*◌, ◌<◌, ◌≤◌, ◌^◌, ℕ, All, IfOk, IfSome, Some, None, MatchOption, is_some, length, true, option_map, if◌then◌else◌};
    ghost use Rattle.mctp_transport.{specs.PacketValues.{KeyValue}, specs.Packets.{key_value}};
    ghost use Rattle.net_sim.specs.KeyCounts.{known_at, place_of, count_of, are_these};

    /// None of any key yet, from these endpoint IDs to those.
    pub fn none(
        alloc: Global,
        sources: KnownEids,
        destinations: KnownEids,
    ) -> Result<KeyCounts, AllocError>
        ensures none { IfOk result (λ counts. (k : KeyValue) (d n : ℕ) → count_of counts k d ≡ Some n → n ≡ 0) }
        ensures counted { IfOk result (λ counts. (k : KeyValue) (d : ℕ) → k.tag < 8 → is_some (known_at sources k.source) ≡ true
            → is_some (known_at destinations d) ≡ true → is_some (count_of counts k d) ≡ true) }
    {
        let counts = vec![in alloc; 0; 1024 * destinations.eids.len().min(MOST_EIDS)]?;
        Ok(KeyCounts {
            sources,
            destinations,
            counts,
        })
    }

    /// The place of a key's counter, if it had one.
    fn place_of(&self, key: Key, destination: Eid) -> Option<usize>
        ensures { result ≡ place_of self.now.sources self.now.destinations (key_value key) destination.value }
    {
        let destination = self.destinations.index_of(destination)?;
        let source = self.sources.index_of(key.source)?;
        let tag = usize::from(key.tag.value);
        Some(1024 * destination + 16 * source + 2 * tag + usize::from(key.owner))
    }

    /// The place of a key's counter, where it has one.
    fn counter(&self, key: Key, destination: Eid) -> Option<usize>
        ensures { MatchOption result (count_of self.now (key_value key) destination.value ≡ None)
            (λ place. (place < length self.now.counts.items) × (place_of self.now.sources self.now.destinations (key_value key) destination.value ≡ Some place)) }
    {
        let place = self.place_of(key, destination)?;
        if place < self.counts.len() {
            Some(place)
        } else {
            None
        }
    }

    /// What is counted of a key and a destination. None where an endpoint ID is not known.
    pub fn count(&self, key: Key, destination: Eid) -> Option<usize>
        ensures { result ≡ count_of self.now (key_value key) destination.value }
    {
        let place = self.place_of(key, destination)?;
        self.counts.get(place).copied()
    }

    /// Counts one more.
    pub fn enter(&mut self, key: Key, destination: Eid)
        requires { IfSome (count_of self.old (key_value key) destination.value) (λ n. n < 2 ^ 63) }
        ensures { (k : KeyValue) (d : ℕ) → k.tag < 8 → count_of self.new k d ≡
            (if are_these (key_value key) destination.value k d then option_map (λ n. n + 1) (count_of self.old k d) else count_of self.old k d) }
    {
        if let Some(place) = self.counter(key, destination) {
            self.counts[place] += 1;
        }
    }

    /// Counts one less, where there is one.
    pub fn leave(&mut self, key: Key, destination: Eid)
        ensures { (k : KeyValue) (d : ℕ) → k.tag < 8 → count_of self.new k d ≡
            (if are_these (key_value key) destination.value k d then option_map (λ n. n - 1) (count_of self.old k d) else count_of self.old k d) }
    {
        if let Some(place) = self.counter(key, destination) {
            self.counts[place] = self.counts[place].saturating_sub(1);
        }
    }
}
