//! What a capture holds.
ghost use Rattle.std.specs.Prelude.{◌≡◌};
ghost use Rattle.bus_captures.specs.Words.{unread_word};

use std::error::Error;
use std::fmt;

/// The most entries that are read of a capture.
pub const MAX_ENTRIES: usize = 100_000;

/// When an entry was captured.
#[derive(Clone, Copy, Debug, PartialEq, Eq)]
pub enum Time<'a> {
    /// The capture doesn't say.
    Unknown,
    /// As a text writes it: digits, a point, digits.
    Written(&'a [u8]),
    /// Seconds, and nanoseconds behind them, from where the file counts.
    At { seconds: u64, nanoseconds: u64 },
}

/// Which way an entry went, as the capturing side saw it.
#[derive(Clone, Copy, Debug, PartialEq, Eq)]
pub enum Direction {
    /// A packet of Linux that is marked as outgoing (4), or a line that says so.
    Sent,
    /// Any other packet of Linux, also one that went between others, or a line that says so.
    Received,
}

/// On which interface an entry was captured, as far as the capture says.
#[derive(Clone, Copy, Debug, PartialEq, Eq)]
pub struct Interface {
    /// Its number in a file that lists its interfaces, from 0 on.
    pub number: Option<u32>,
    /// Linux' number of it (the interface index).
    pub index: Option<u32>,
}

/// What the bytes of an entry are.
#[derive(Clone, Copy, Debug, PartialEq, Eq)]
pub enum Kind {
    /// A packet of MCTP, its header of four bytes first.
    Packet,
    /// A message of MCTP, its message type first. Which packets it came in isn't known.
    Message,
    /// Something of another protocol, by its number (an EtherType).
    Other(u16),
    /// Something that isn't read, and why.
    Unread(Unread),
}

/// Why what was captured isn't read.
#[derive(Clone, Copy, Debug, PartialEq, Eq)]
pub enum Unread {
    /// Only a part of what went over the bus was kept, or more than went over it.
    Cut,
    /// It is shorter than the header of its link type.
    LinkHeader,
    /// Its link type is none of those that are read.
    Link(u32),
    /// The file doesn't describe its interface.
    Interface,
    /// Its block is shorter than what it should hold.
    Block,
    /// It is no frame of MCTP over SMBus.
    NoFrame,
    /// Its frame of SMBus has another check byte (PEC) than the one that is computed.
    Pec { told: u8, computed: u8 },
}

impl Unread {
    /// A word for it: `cut`, `link-header`, `link`, `interface`, `block`, `no-frame`, or `pec`.
    pub fn word(self) -> &'static str
        ensures { result.now ≡ unread_word self }
    {
        match self {
            Unread::Cut => "cut",
            Unread::LinkHeader => "link-header",
            Unread::Link(_) => "link",
            Unread::Interface => "interface",
            Unread::Block => "block",
            Unread::NoFrame => "no-frame",
            Unread::Pec { .. } => "pec",
        }
    }
}

/// One thing that was captured.
#[derive(Debug, Drop)]
pub struct Entry<'a> {
    /// When it was captured.
    pub time: Time<'a>,
    /// Which way it went, where the capture says so.
    pub direction: Option<Direction>,
    /// Where it was captured.
    pub interface: Interface,
    /// What the file calls that interface.
    pub name: Option<&'a [u8]>,
    /// What its bytes are.
    pub kind: Kind,
    /// What was captured of it, behind the header of the link. Of what isn't read all that was kept.
    pub bytes: Vec<u8>,
}

/// Why a capture can't be read on.
#[derive(Clone, Copy, Debug, PartialEq, Eq)]
pub enum CaptureFault {
    /// A file ends within its header of 24 bytes.
    Header,
    /// A file's link type is none of 113 and 276 (Linux cooked captures), 147 and 291 (packets as they are), and 209 (I2C).
    Link(u32),
    /// A file ends within a record, or the record's length is wrong.
    Record,
    /// A file ends within a block, the block's lengths are wrong, or it isn't what may stand there.
    Block,
    /// A line of a text has something else than bytes in hex.
    Line,
}

impl fmt::Display for CaptureFault {
    fn fmt<W: fmt::Write>(&self, f: &mut fmt::Formatter<W>) -> fmt::Result {
        match self {
            CaptureFault::Header => f.write_str("the file ends within its header"),
            CaptureFault::Link(number) => {
                write!(
                    f,
                    "the link type is {number}, not 113, 147, 209, 276 or 291"
                )
            }
            CaptureFault::Record => f.write_str("the file ends within a record"),
            CaptureFault::Block => f.write_str("no whole block stands there"),
            CaptureFault::Line => f.write_str("the line is not hex"),
        }
    }
}

impl Error for CaptureFault {}

/// How reading a capture ended.
#[derive(Clone, Copy, Debug, PartialEq, Eq)]
pub enum End {
    /// All of it was read.
    Whole,
    /// More follows than `MAX_ENTRIES`, and isn't read.
    Full,
    /// At a record or a block of a file, or at a line of a text, counted from 1; at 0 stands a file's header. What stands
    /// before it was read.
    Broken { place: u64, fault: CaptureFault },
}

/// The entries of a capture, in their order, and how reading it ended.
#[derive(Debug, Drop)]
pub struct Capture<'a> {
    /// At most 100,000 (`End::Full`).
    pub entries: Vec<Entry<'a>>,
    /// How reading it ended.
    pub end: End,
}
