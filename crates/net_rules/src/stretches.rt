//! The search for the first endpoint ID at which a demand is broken, a stretch at a time.
ghost use Rattle.std.specs.Prelude.{◌≤◌};
ghost use Rattle.net_tables.specs.Routing.{eid_number};
ghost use Rattle.net_rules.specs.Stretches.{IsLeastFailure};

use mctp_transport::Eid;

/// A demand on endpoint IDs that is met all along a stretch of them, or nowhere on it.
pub trait Stretched {
    ghost use Rattle.std.specs.Prelude.{ℕ, ◌↔◌, IsTrue};
    ghost use Rattle.net_rules.specs.Stretches.{IsStretch};

    ghost Demand: { Self → ℕ → Type 0 };

    /// Whether the demand is met at the endpoint ID.
    fn is_met_at(&self, eid: Eid) -> bool
        ensures { IsTrue result ↔ Demand self.now eid.value };

    /// The end of a stretch from the endpoint ID on.
    fn stretch_end(&self, eid: Eid) -> u16
        ensures { IsStretch (Demand self.now) eid.value result };
}

/// The first endpoint ID of a range at which the demand is broken.
pub fn first_broken<D: Stretched>(demand: &D, first: u16, end: u16) -> Option<Eid>
    requires { end ≤ 256 }
    ensures { IsLeastFailure (D.Demand demand.now) first end (eid_number result) }
{
    let mut start = first;
    while start < end {
        let eid = Eid::new(start as u8);
        if !demand.is_met_at(eid) {
            return Some(eid);
        }
        // Most rows have one endpoint ID, and an end takes longer to find than an endpoint ID to test.
        if start + 1 == end {
            return None;
        }
        start = demand.stretch_end(eid);
    }
    None
}
