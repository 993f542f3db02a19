//! Endpoint IDs from one to before another.
ghost use Rattle.std.specs.Prelude.{◌≡◌, ◌⊎◌, ◌↔◌, ◌+◌, ◌<◌, ◌≤◌, ℕ, IsTrue};
ghost use Rattle.net_tables.specs.Routing.{Covers};

use mctp_transport::Eid;
use net_tables::lookup::{range_end, row_end};
use plan_values::{RankRange, Row};

/// Endpoint IDs from the first to before the end.
#[derive(Clone, Copy, Debug)]
pub struct Span {
    pub first: u16,
    pub end: u16,
    pub ghost ordered: { first ≤ end },
}

impl Span {
    ghost use Rattle.std.specs.Prelude.{◌≡◌, ◌⊎◌, ◌↔◌, ◌+◌, ◌<◌, ◌≤◌, ℕ, IsTrue};
    ghost use Rattle.net_tables.specs.Routing.{Covers};

    /// No endpoint ID.
    pub fn none() -> Self
        ensures first { result.first ≡ 0 }
        ensures end { result.end ≡ 0 }
    {
        Span { first: 0, end: 0 }
    }

    /// Those that the row covers.
    pub fn of(row: &Row) -> Self
        ensures first { result.first ≡ row.now.first.value }
        ensures covered { (e : ℕ) → ((result.first ≤ e) × (e < result.end)) ↔ Covers row.now e }
    {
        Span {
            first: u16::from(row.first.value),
            end: row_end(row).min(256),
        }
    }

    /// Those of the range.
    pub fn of_range(range: &RankRange) -> Self
        ensures first { result.first ≡ range.now.first.value }
        ensures end { result.end ≡ range.now.first.value + range.now.size }
    {
        Span {
            first: u16::from(range.first.value),
            end: range_end(range),
        }
    }

    /// Whether the endpoint ID is one of these.
    pub fn has(self, eid: Eid) -> bool
        ensures { IsTrue result ↔ ((self.first ≤ eid.value) × (eid.value < self.end)) }
    {
        let at = u16::from(eid.value);
        self.first <= at && at < self.end
    }

    /// Whether each endpoint ID of the other span is one of these.
    pub fn has_all_of(self, other: Span) -> bool
        ensures { IsTrue result → (self.first ≤ other.first) × (other.end ≤ self.end) }
    {
        self.first <= other.first && other.end <= self.end
    }

    /// These and those of a span that begins neither before them nor past their end.
    pub fn joined(self, other: Span) -> Self
        requires after { self.first ≤ other.first }
        requires touching { other.first ≤ self.end }
        ensures first { result.first ≡ self.first }
        ensures both { (e : ℕ) → ((result.first ≤ e) × (e < result.end))
            ↔ (((self.first ≤ e) × (e < self.end)) ⊎ ((other.first ≤ e) × (e < other.end))) }
    {
        Span {
            first: self.first,
            end: self.end.max(other.end),
        }
    }
}
