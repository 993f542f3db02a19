//! Why an entry reader takes no more of an answer.
ghost use Rattle.std.specs.Prelude.{◌≡◌};

use std::error::Error;
use std::fmt;

/// Why an answer brings an entry reader no further. They are tested in the order E05, E02 (nothing asked), E01, E02
/// (another instance ID), E03, E04.
#[derive(Clone, Copy, Debug, PartialEq, Eq)]
pub enum ReadFault {
    /// E01: the bytes are no success answer of Get Routing Table Entries. The reader has failed.
    NoSuccess,
    /// E02: nothing was asked, or the answer has another instance ID than the request. Nothing has changed.
    NotAsked,
    /// E03: the answer announces more entries and brings none. The reader has failed.
    NoEntry,
    /// E04: with its entries there would be more than 247. The reader has failed.
    TooMany,
    /// E05: the reader had failed before. Nothing has changed.
    FailedBefore,
}

impl ReadFault {
    ghost use Rattle.mctp_bridge.specs.ReadFaults.{read_code};

    /// The code that users see, as `E01`.
    pub fn code(self) -> &'static str
        ensures { result.now ≡ read_code self }
    {
        match self {
            ReadFault::NoSuccess => "E01",
            ReadFault::NotAsked => "E02",
            ReadFault::NoEntry => "E03",
            ReadFault::TooMany => "E04",
            ReadFault::FailedBefore => "E05",
        }
    }
}

impl fmt::Display for ReadFault {
    fn fmt<W: fmt::Write>(&self, f: &mut fmt::Formatter<W>) -> fmt::Result {
        f.write_str(match self {
            ReadFault::NoSuccess => "E01: no success answer of Get Routing Table Entries",
            ReadFault::NotAsked => "E02: no request with this instance ID is waiting",
            ReadFault::NoEntry => "E03: more entries are announced, but none is there",
            ReadFault::TooMany => "E04: more than 247 entries",
            ReadFault::FailedBefore => "E05: the reader has failed before",
        })
    }
}

impl Error for ReadFault {}
