//! Endpoint IDs in a row.
ghost use Rattle.std.specs.Prelude.{◌≡◌, ◌+◌, ◌↔◌, ℕ, IsTrue};
ghost use Rattle.mctp_transport.specs.EidRuns.{IsInRun};

use crate::address::Eid;

/// Endpoint IDs in a row, from the first on. They may pass 255, where none is left.
#[derive(Clone, Copy)]
pub struct EidRun {
    /// One byte: the first endpoint ID.
    pub first: Eid,
    /// One byte: how many endpoint IDs.
    pub size: u8,
}

impl EidRun {
    /// The number after that of the last one.
    pub fn end(self) -> u16
        ensures { result ≡ self.first.value + self.size }
    {
        u16::from(self.first.value) + u16::from(self.size)
    }

    /// Whether the endpoint ID is one of them.
    pub fn contains(self, eid: Eid) -> bool
        ensures { IsTrue result ↔ IsInRun self eid.value }
    {
        self.first.value <= eid.value && u16::from(eid.value) < self.end()
    }

    /// Whether none is one of the other run too.
    pub fn is_apart_from(self, other: EidRun) -> bool
        ensures { IsTrue result ↔ ((e : ℕ) → IsInRun self e → ¬ IsInRun other e) }
    {
        self.size == 0
            || other.size == 0
            || self.end() <= u16::from(other.first.value)
            || other.end() <= u16::from(self.first.value)
    }
}
