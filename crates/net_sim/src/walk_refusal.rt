//! Why an event of a walk is refused.
ghost use Rattle.std.specs.Prelude.{◌≡◌};

use crate::refusal::Refusal;

/// Why an event of a walk is refused. Where several causes apply, the one of the least number is answered; a refused
/// event changes nothing.
#[derive(Clone, Copy, Debug, PartialEq, Eq)]
pub enum WalkRefusal {
    /// N01 or N06: there is no such node, or too few flight numbers are left.
    Shared(Refusal),
    /// N08: a walker of this node, endpoint ID and tag exists.
    WalkerThere,
    /// N09: no node with a terminus holds the endpoint ID.
    NoTerminusThere,
    /// N10: the count is below 8, or an answer with so many bytes may be of more than five packets.
    WrongCount,
    /// N11: there is no such walker.
    NoWalker,
    /// N12: nothing is outstanding, and a packet or a message under a key of the walker is still there.
    Unsettled,
    /// N13: the walk is done or has failed.
    WalkOver,
}

impl WalkRefusal {
    ghost use Rattle.net_sim.specs.Outcomes.{walk_refusal_code};

    /// The code that users see, as `N08`.
    pub fn code(self) -> &'static str
        ensures { result.now ≡ walk_refusal_code self }
    {
        match self {
            WalkRefusal::Shared(why) => why.code(),
            WalkRefusal::WalkerThere => "N08",
            WalkRefusal::NoTerminusThere => "N09",
            WalkRefusal::WrongCount => "N10",
            WalkRefusal::NoWalker => "N11",
            WalkRefusal::Unsettled => "N12",
            WalkRefusal::WalkOver => "N13",
        }
    }
}
