//! Pools of EIDs that are given out and come back (DSP0236, endpoint ID pools).
ghost use Rattle.std.specs.Prelude.{◌≡◌, ◌<◌, ◌≤◌, ◌+◌, ◌↔◌, ℕ, IfSome, IfNone, IsTrue};

use crate::eid_range::EidRange;
use mctp_transport::Eid;

/// EIDs that are given out and come back. None of its calls takes memory.
#[derive(Clone, Debug, Drop)]
pub struct EidPool {
    range: EidRange,
    /// By EID, whether it is out.
    out: [bool; 256],
}

impl EidPool {
    ghost use Rattle.mctp_control.{specs.Ranges.{IsAssignableRange}, specs.Pools.{pool_value, IsOut, IsFree, IsFreeRun, IsLowestFree, IsLowestRun, GoesOut, ComesBack}};

    /// A pool of `size` EIDs from `first` on, none of which is out. `EidRange::of` says whether they can be a pool.
    pub fn new(first: Eid, size: u8) -> Self
        requires { IsAssignableRange first.value size }
        ensures first { (pool_value result).first ≡ first.value }
        ensures size { (pool_value result).size ≡ size }
        ensures none_out { (eid : ℕ) → ¬ IsOut (pool_value result) eid }
    {
        EidPool {
            range: EidRange { first, size },
            out: [false; 256],
        }
    }

    /// Gives out the lowest EID that is free, if there is one.
    pub fn take(&mut self) -> Option<Eid>
        ensures some { IfSome result (λ eid. IsLowestFree (pool_value self.old) eid.value × GoesOut (pool_value self.old) (pool_value self.new) eid.value 1) }
        ensures none { (result ≡ None) ↔ ((eid : ℕ) → ¬ IsFree (pool_value self.old) eid) }
        ensures unchanged { IfNone result (pool_value self.new ≡ pool_value self.old) }
    {
        self.take_block(1)
    }

    /// Gives out the lowest run of `count` free EIDs, one at least, if there is one, and answers the first of them.
    pub fn take_block(&mut self, count: u8) -> Option<Eid>
        requires { 0 < count }
        ensures some { IfSome result (λ eid. IsLowestRun (pool_value self.old) count eid.value × GoesOut (pool_value self.old) (pool_value self.new) eid.value count) }
        ensures none { (result ≡ None) ↔ ((eid : ℕ) → ¬ IsFreeRun (pool_value self.old) count eid) }
        ensures unchanged { IfNone result (pool_value self.new ≡ pool_value self.old) }
    {
        let first = self.lowest_run(count)?;
        self.mark(first, count);
        Some(first)
    }

    /// Takes an EID back, and says whether it was out.
    pub fn give_back(&mut self, eid: Eid) -> bool
        ensures was_out { IsTrue result ↔ IsOut (pool_value self.old) eid.value }
        ensures back { ComesBack (pool_value self.old) (pool_value self.new) eid.value }
    {
        let index = eid.value as usize;
        let was_out = self.range.contains(eid) && self.out[index];
        self.out[index] = false;
        was_out
    }

    /// The first EID of the lowest run of `count` free ones.
    fn lowest_run(&self, count: u8) -> Option<Eid>
        requires { 0 < count }
        ensures some { IfSome result (λ eid. IsLowestRun (pool_value self.now) count eid.value) }
        ensures none { (result ≡ None) ↔ ((eid : ℕ) → ¬ IsFreeRun (pool_value self.now) count eid) }
    {
        // The free ones from this EID on are counted up to the one that is looked at.
        let mut first = self.range.first.value;
        for eid in self.range.first.value..self.range.end() {
            if self.out[eid as usize] {
                first = eid + 1;
            } else if eid + 1 - first == count {
                return Some(Eid::new(first));
            }
        }
        None
    }

    /// Marks these EIDs of the pool as out.
    fn mark(&mut self, first: Eid, count: u8)
        requires { IsFreeRun (pool_value self.old) count first.value }
        ensures { GoesOut (pool_value self.old) (pool_value self.new) first.value count }
    {
        for eid in first.value..first.value + count {
            self.out[eid as usize] = true;
        }
    }
}
