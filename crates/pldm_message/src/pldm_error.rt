//! Why bytes are not the message that was wanted (DSP0240, PLDM message fields).
ghost use Rattle.std.specs.Prelude.{◌≡◌};

use std::error::Error;
use std::fmt;

/// Why bytes are not the PLDM message that was wanted. Where several causes apply, the first of these is answered.
#[derive(Clone, Copy, Debug, PartialEq, Eq)]
pub enum PldmError {
    /// L01: fewer than four bytes, which is less than a header.
    Short,
    /// L02: the message type, byte 0, is not 1 for PLDM.
    MessageType,
    /// L03: a header version other than 0.
    Version,
    /// L05: Rq 0 with D 1, a pair that is reserved.
    ReservedKind,
    /// L06: another PLDM type or command, a response in place of a request, or a request in place of a response.
    OtherMessage,
    /// L04: more or fewer bytes than the message has.
    Length,
}

impl PldmError {
    ghost use Rattle.pldm_message.specs.Faults.{code_of};

    /// The code that users see, as `L01`.
    pub fn code(self) -> &'static str
        ensures { result.now ≡ code_of self }
    {
        match self {
            PldmError::Short => "L01",
            PldmError::MessageType => "L02",
            PldmError::Version => "L03",
            PldmError::ReservedKind => "L05",
            PldmError::OtherMessage => "L06",
            PldmError::Length => "L04",
        }
    }
}

impl fmt::Display for PldmError {
    fn fmt<W: fmt::Write>(&self, f: &mut fmt::Formatter<W>) -> fmt::Result {
        f.write_str(match self {
            PldmError::Short => "L01: fewer than 4 bytes",
            PldmError::MessageType => "L02: the message type is not 1",
            PldmError::Version => "L03: the header version is not 0",
            PldmError::ReservedKind => "L05: Rq is 0 and D is 1",
            PldmError::OtherMessage => "L06: another PLDM type, command or direction",
            PldmError::Length => "L04: the length is not the message's",
        })
    }
}

impl Error for PldmError {}
