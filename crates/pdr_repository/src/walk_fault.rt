//! What a part that a walker took was, and why an answer was not taken (DSP0248, section 26.2).
ghost use Rattle.std.specs.Prelude.{◌≡◌, option_map};

use std::error::Error;
use std::fmt;

/// What an answer led to.
#[derive(Clone, Copy, Debug, PartialEq, Eq)]
pub enum Step {
    /// The record goes on.
    More,
    /// A record is complete, and another is to be asked for.
    Record,
    /// The last record is complete.
    Done,
}

/// Why an answer was not taken. Where several causes apply, the first of these is answered.
///
/// After G03, G11 and out of memory the walker is as it was. After any other fault it has failed, and it keeps the
/// records that it had collected.
#[derive(Clone, Copy, Debug, PartialEq, Eq)]
pub enum WalkFault {
    /// G11: the walker had failed before.
    FailedBefore,
    /// G03: no request is outstanding, or the answer has another instance ID.
    NotAsked,
    /// G02: the bytes are no answer to a GetPDR request.
    Unreadable,
    /// G10: completion code 0x83, the record has changed.
    RecordChanged,
    /// G01: any other completion code but 0.
    OtherCode,
    /// G04: a transfer flag that does not fit the request, or a start or middle with next transfer handle 0.
    WrongFlag,
    /// G06: a part that is empty, longer than asked for or a start of fewer than 8 bytes, or a record that is not as
    /// long as its header says.
    WrongSize,
    /// G05: the check byte is not the record's.
    WrongCrc,
    /// G07: the record's handle is 0, or not the one that was asked for.
    WrongHandle,
    /// G08: a record of that handle was collected before.
    DoubledHandle,
    /// G09: more records or bytes than the walker may collect.
    TooMuch,
    /// No memory for the answer. It can be handed in again.
    OutOfMemory,
}

impl WalkFault {
    ghost use Rattle.pdr_repository.specs.Faults.{code_of};

    /// The code that users see, as `G01`. Out of memory has none.
    pub fn code(self) -> Option<&'static str>
        ensures { option_map (λ text. text.now) result ≡ code_of self }
    {
        match self {
            WalkFault::FailedBefore => Some("G11"),
            WalkFault::NotAsked => Some("G03"),
            WalkFault::Unreadable => Some("G02"),
            WalkFault::RecordChanged => Some("G10"),
            WalkFault::OtherCode => Some("G01"),
            WalkFault::WrongFlag => Some("G04"),
            WalkFault::WrongSize => Some("G06"),
            WalkFault::WrongCrc => Some("G05"),
            WalkFault::WrongHandle => Some("G07"),
            WalkFault::DoubledHandle => Some("G08"),
            WalkFault::TooMuch => Some("G09"),
            WalkFault::OutOfMemory => None,
        }
    }
}

impl fmt::Display for WalkFault {
    fn fmt<W: fmt::Write>(&self, f: &mut fmt::Formatter<W>) -> fmt::Result {
        f.write_str(match self {
            WalkFault::FailedBefore => "G11: the walk had failed before",
            WalkFault::NotAsked => "G03: not an answer to the request that is outstanding",
            WalkFault::Unreadable => "G02: not an answer to a GetPDR request",
            WalkFault::RecordChanged => "G10: the record has changed",
            WalkFault::OtherCode => "G01: the terminus refused",
            WalkFault::WrongFlag => "G04: the transfer flag does not fit",
            WalkFault::WrongSize => "G06: the length does not fit",
            WalkFault::WrongCrc => "G05: the check byte does not fit",
            WalkFault::WrongHandle => "G07: another record than was asked for",
            WalkFault::DoubledHandle => "G08: a record for the second time",
            WalkFault::TooMuch => "G09: more than may be collected",
            WalkFault::OutOfMemory => "out of memory",
        })
    }
}

impl Error for WalkFault {}
