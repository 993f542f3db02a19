//! Why bytes are no packet (DSP0236, section 8.1).
ghost use Rattle.std.specs.Prelude.{◌≡◌};

use std::error::Error;
use std::fmt;

/// Why bytes are no packet. Where several causes apply, the first of these is answered.
#[derive(Clone, Copy, Debug, PartialEq, Eq)]
pub enum PacketError {
    /// P01: fewer than four bytes, which is less than a header.
    Short,
    /// P02: a header without payload.
    Empty,
    /// P03: a payload longer than the transmission unit.
    Long,
    /// P04: a header version other than 1.
    Version,
}

impl PacketError {
    ghost use Rattle.mctp_transport.specs.Refusals.{code_of};

    /// The code that users see, as `P01`.
    pub fn code(self) -> &'static str
        ensures { result.now ≡ code_of self }
    {
        match self {
            PacketError::Short => "P01",
            PacketError::Empty => "P02",
            PacketError::Long => "P03",
            PacketError::Version => "P04",
        }
    }
}

impl fmt::Display for PacketError {
    fn fmt<W: fmt::Write>(&self, f: &mut fmt::Formatter<W>) -> fmt::Result {
        f.write_str(match self {
            PacketError::Short => "P01: fewer than 4 bytes",
            PacketError::Empty => "P02: no payload",
            PacketError::Long => "P03: the payload is longer than the transmission unit",
            PacketError::Version => "P04: the header version is not 1",
        })
    }
}

impl Error for PacketError {}
