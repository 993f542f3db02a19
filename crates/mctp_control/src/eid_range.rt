//! Ranges of EIDs that can be assigned (DSP0236, section 8.2).
ghost use Rattle.std.specs.Prelude.{◌≡◌, ◌<◌, ◌≤◌, ◌+◌, ◌↔◌, IfSome, IsTrue};

use mctp_transport::Eid;

/// EIDs in a row, at least one, all in 8 to 254.
#[derive(Clone, Copy, Debug, PartialEq, Eq)]
pub struct EidRange {
    /// One byte: the first endpoint ID.
    pub first: Eid,
    /// One byte: how many endpoint IDs.
    pub size: u8,
    pub ghost some: { 0 < size },
    pub ghost low: { 8 ≤ first.value },
    pub ghost high: { first.value + size ≤ 255 },
}

impl EidRange {
    ghost use Rattle.mctp_control.specs.Ranges.{IsAssignableRange, IsWithin};

    /// `size` EIDs from `first` on. None where `size` is 0, or one of them is not in 8 to 254.
    pub fn of(first: Eid, size: u8) -> Option<Self>
        ensures some { IfSome result (λ r. (r.first.value ≡ first.value) × (r.size ≡ size)) }
        ensures none { (result ≡ None) ↔ ¬ IsAssignableRange first.value size }
    {
        if size == 0 || first.value < 8 || 255 - first.value < size {
            return None;
        }
        Some(EidRange { first, size })
    }

    /// Whether the EID is one of them.
    pub fn contains(&self, eid: Eid) -> bool
        ensures { IsTrue result ↔ IsWithin self.now.first.value self.now.size eid.value }
    {
        self.first.value <= eid.value && eid.value < self.end()
    }

    /// The number after the last EID, at most 255.
    pub(crate) fn end(&self) -> u8
        ensures end { result ≡ self.now.first.value + self.now.size }
        ensures within { result ≤ 255 }
    {
        self.first.value + self.size
    }
}
