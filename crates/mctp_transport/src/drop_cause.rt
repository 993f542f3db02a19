//! Why a packet is dropped.
ghost use Rattle.std.specs.Prelude.{◌≡◌};

use std::error::Error;
use std::fmt;

/// Why an assembler dropped a packet (DSP0236, "Dropped packets"). Where several causes apply, the first of these is
/// answered.
#[derive(Clone, Copy, Debug, PartialEq, Eq)]
pub enum DropCause {
    /// A01: the packet doesn't start a message, and no message of its key is open.
    NotOpen,
    /// A02: the packet's number doesn't follow the last one of its message.
    Number,
    /// A03: the payload of a middle packet is not as long as the first packet's, or that of an end packet is longer.
    Length,
    /// A04: with this packet the message would be longer than the limit.
    Limit,
    /// A05: the packet starts a message of several packets, and all slots are taken by other keys.
    Full,
}

impl DropCause {
    ghost use Rattle.mctp_transport.specs.Causes.{cause_code};

    /// The code that users see, as `A01`.
    pub fn code(self) -> &'static str
        ensures { result.now ≡ cause_code self }
    {
        match self {
            DropCause::NotOpen => "A01",
            DropCause::Number => "A02",
            DropCause::Length => "A03",
            DropCause::Limit => "A04",
            DropCause::Full => "A05",
        }
    }
}

impl fmt::Display for DropCause {
    fn fmt<W: fmt::Write>(&self, f: &mut fmt::Formatter<W>) -> fmt::Result {
        f.write_str(match self {
            DropCause::NotOpen => "A01: no message of the packet's key is open",
            DropCause::Number => "A02: the packet's number does not follow the last one",
            DropCause::Length => "A03: the payload's length does not fit the first packet's",
            DropCause::Limit => "A04: the message is longer than the limit",
            DropCause::Full => "A05: all slots are taken",
        })
    }
}

impl Error for DropCause {}
