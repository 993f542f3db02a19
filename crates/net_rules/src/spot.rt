//! Where at a node a rule is broken.
ghost use Rattle.std.specs.Prelude.{◌≡◌, option_map};

use mctp_transport::Eid;

/// The entry and the endpoint ID of a fault.
#[derive(Clone, Copy)]
pub struct Spot {
    pub entry: Option<usize>,
    pub eid: Option<Eid>,
}

impl Spot {
    /// At the node itself.
    pub fn at_node() -> Self
        ensures { result ≡ record { entry = None; eid = None } }
    {
        Spot {
            entry: None,
            eid: None,
        }
    }

    /// At an endpoint ID of the node.
    pub fn at_eid(eid: Eid) -> Self
        ensures { result ≡ record { entry = None; eid = Some eid } }
    {
        Spot {
            entry: None,
            eid: Some(eid),
        }
    }

    /// At a row or a record.
    pub fn at_entry(entry: usize) -> Self
        ensures { result ≡ record { entry = Some entry; eid = None } }
    {
        Spot {
            entry: Some(entry),
            eid: None,
        }
    }

    /// At an endpoint ID of a row or of a record.
    pub fn at_entry_eid(entry: usize, eid: Eid) -> Self
        ensures { result ≡ record { entry = Some entry; eid = Some eid } }
    {
        Spot {
            entry: Some(entry),
            eid: Some(eid),
        }
    }

    /// At the row or the record that was found, if any.
    pub fn at_found(entry: Option<usize>) -> Option<Self>
        ensures { result ≡ option_map (λ i. record { entry = Some i; eid = None }) entry }
    {
        entry.map(Spot::at_entry)
    }

    /// The same in this row or record.
    pub fn in_entry(self, entry: usize) -> Self
        ensures { result ≡ record { entry = Some entry; eid = self.eid } }
    {
        Spot {
            entry: Some(entry),
            eid: self.eid,
        }
    }
}
