//! Why an event is refused.
ghost use Rattle.std.specs.Prelude.{◌≡◌};

/// Why an event is refused. Where several causes apply, the first of these is answered; a refused event changes
/// nothing.
#[derive(Clone, Copy, Debug, PartialEq, Eq)]
pub enum Refusal {
    /// N01: there is no such node.
    NoNode,
    /// N02: the bytes are no packet.
    NoPacket,
    /// N03: there is no such flight.
    NoFlight,
    /// N04: the node has no terminus.
    NoTerminus,
    /// N05: no message waits there.
    NothingWaits,
    /// N06: too few flight numbers are left.
    NoNumbers,
    /// N07: there are no new rows to switch to, or the node has switched before.
    NoSwitch,
}

impl Refusal {
    ghost use Rattle.net_sim.specs.Effects.{refusal_code};

    /// The code that users see, as `N01`.
    pub fn code(self) -> &'static str
        ensures { result.now ≡ refusal_code self }
    {
        match self {
            Refusal::NoNode => "N01",
            Refusal::NoPacket => "N02",
            Refusal::NoFlight => "N03",
            Refusal::NoTerminus => "N04",
            Refusal::NothingWaits => "N05",
            Refusal::NoNumbers => "N06",
            Refusal::NoSwitch => "N07",
        }
    }
}
