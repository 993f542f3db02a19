//! Why bytes are no control message and no routing table entry (DSP0236, "MCTP control messages").
ghost use Rattle.std.specs.Prelude.{◌≡◌};

use std::error::Error;
use std::fmt;

/// Why bytes are no control message, or no routing table entry. Where several causes apply, the first in the order
/// K01, K02, K04, K03 is answered.
#[derive(Clone, Copy, Debug, PartialEq, Eq)]
pub enum ControlError {
    /// K01: too short. A request has at least 3 bytes, a response 4, an entry 6.
    Short,
    /// K02: byte 0 is not 0x00, or the Rq bit is that of the other direction.
    OtherMessage,
    /// K03: not the length that the command, or the entry's address size, asks for; a body over 64 bytes; an address
    /// over 52 bytes.
    Length,
    /// K04: a command that is not one of the four.
    UnknownCommand,
}

impl ControlError {
    ghost use Rattle.mctp_control.specs.Codes.{code_of};

    /// The code that users see, as `K01`.
    pub fn code(self) -> &'static str
        ensures { result.now ≡ code_of self }
    {
        match self {
            ControlError::Short => "K01",
            ControlError::OtherMessage => "K02",
            ControlError::Length => "K03",
            ControlError::UnknownCommand => "K04",
        }
    }
}

impl fmt::Display for ControlError {
    fn fmt<W: fmt::Write>(&self, f: &mut fmt::Formatter<W>) -> fmt::Result {
        f.write_str(match self {
            ControlError::Short => "K01: too few bytes",
            ControlError::OtherMessage => "K02: not a control message of this direction",
            ControlError::Length => "K03: wrong length",
            ControlError::UnknownCommand => "K04: unknown command",
        })
    }
}

impl Error for ControlError {}
