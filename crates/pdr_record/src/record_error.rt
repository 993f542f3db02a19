//! Why bytes are no record (DSP0248, PDR formats).
ghost use Rattle.std.specs.Prelude.{◌≡◌};

use std::error::Error;
use std::fmt;

/// Why bytes are no record. Where several causes apply, the first of these is answered; of D04 and D06 the first in the
/// order of the fields.
#[derive(Clone, Copy, Debug, PartialEq, Eq)]
pub enum RecordError {
    /// D01: fewer than ten bytes, which is less than the common header.
    Short,
    /// D02: a header version other than 1.
    Version,
    /// D03: the header's data length is not the number of bytes that follow the header.
    Length,
    /// D04: the bytes end before the body's fields do.
    Ends,
    /// D05: bytes follow the body's last field.
    LeftOver,
    /// D06: a sensor data size or a range field format that is not supported.
    Unsupported,
}

impl RecordError {
    ghost use Rattle.pdr_record.specs.Codes.{code_of};

    /// The code that users see, as `D01`.
    pub fn code(self) -> &'static str
        ensures { result.now ≡ code_of self }
    {
        match self {
            RecordError::Short => "D01",
            RecordError::Version => "D02",
            RecordError::Length => "D03",
            RecordError::Ends => "D04",
            RecordError::LeftOver => "D05",
            RecordError::Unsupported => "D06",
        }
    }
}

impl fmt::Display for RecordError {
    fn fmt<W: fmt::Write>(&self, f: &mut fmt::Formatter<W>) -> fmt::Result {
        f.write_str(match self {
            RecordError::Short => "D01: fewer than 10 bytes",
            RecordError::Version => "D02: the header version is not 1",
            RecordError::Length =>
                "D03: the data length is not the number of bytes after the header",
            RecordError::Ends => "D04: the bytes end before the fields do",
            RecordError::LeftOver => "D05: bytes follow the last field",
            RecordError::Unsupported => "D06: unsupported data size or range field format",
        })
    }
}

impl Error for RecordError {}
