//! Refusals are printed as their codes and a sentence.
use mctp_bridge::ReadFault;
use mctp_control::ControlError;
use mctp_routing::TableFault;
use mctp_transport::{DropCause, PacketError};
use pdr_record::RecordError;
use pdr_repository::WalkFault;
use pldm_message::PldmError;
use std::alloc::{AllocError, Global};
use std::fmt;
use std::test::Fail;

/// What is printed of each refusal: its code, a colon and the sentence; where it has no code, the sentence alone.
const WANTED: &str = "\
P01: fewer than 4 bytes
P02: no payload
P03: the payload is longer than the transmission unit
P04: the header version is not 1
A01: no message of the packet's key is open
A02: the packet's number does not follow the last one
A03: the payload's length does not fit the first packet's
A04: the message is longer than the limit
A05: all slots are taken
K01: too few bytes
K02: not a control message of this direction
K03: wrong length
K04: unknown command
B01: row 2 covers no endpoint ID
B02: row 3 reaches outside 8 to 254
B03: row 1 overlaps row 0
no memory
E01: no success answer of Get Routing Table Entries
E02: no request with this instance ID is waiting
E03: more entries are announced, but none is there
E04: more than 247 entries
E05: the reader has failed before
L01: fewer than 4 bytes
L02: the message type is not 1
L03: the header version is not 0
L04: the length is not the message's
L05: Rq is 0 and D is 1
L06: another PLDM type, command or direction
D01: fewer than 10 bytes
D02: the header version is not 1
D03: the data length is not the number of bytes after the header
D04: the bytes end before the fields do
D05: bytes follow the last field
D06: unsupported data size or range field format
G01: the terminus refused
G02: not an answer to a GetPDR request
G03: not an answer to the request that is outstanding
G04: the transfer flag does not fit
G05: the check byte does not fit
G06: the length does not fit
G07: another record than was asked for
G08: a record for the second time
G09: more than may be collected
G10: the record has changed
G11: the walk had failed before
out of memory
";

/// Adds what is printed of a refusal, where it begins with its code.
fn add<T: fmt::Display>(text: &mut String, code: Option<&str>, it: &T) -> Result<(), AllocError> {
    let from = text.len();
    writeln!(text, "{it}")?;
    let line = text.as_str().get(from..).unwrap_or("");
    match (code, line.split_once(": ")) {
        (Some(code), Some((first, _))) if first == code => Ok(()),
        (None, None) => Ok(()),
        _ => text.push_str("another code\n"),
    }
}

fn told(alloc: Global) -> Result<String, AllocError> {
    let mut text = String::new(alloc);
    for it in &[
        PacketError::Short,
        PacketError::Empty,
        PacketError::Long,
        PacketError::Version,
    ] {
        add(&mut text, Some(it.code()), it)?;
    }
    for it in &[
        DropCause::NotOpen,
        DropCause::Number,
        DropCause::Length,
        DropCause::Limit,
        DropCause::Full,
    ] {
        add(&mut text, Some(it.code()), it)?;
    }
    for it in &[
        ControlError::Short,
        ControlError::OtherMessage,
        ControlError::Length,
        ControlError::UnknownCommand,
    ] {
        add(&mut text, Some(it.code()), it)?;
    }
    for it in &[
        TableFault::Empty { row: 2 },
        TableFault::Outside { row: 3 },
        TableFault::Overlap { row: 1, earlier: 0 },
        TableFault::Memory,
    ] {
        add(&mut text, it.code(), it)?;
    }
    for it in &[
        ReadFault::NoSuccess,
        ReadFault::NotAsked,
        ReadFault::NoEntry,
        ReadFault::TooMany,
        ReadFault::FailedBefore,
    ] {
        add(&mut text, Some(it.code()), it)?;
    }
    for it in &[
        PldmError::Short,
        PldmError::MessageType,
        PldmError::Version,
        PldmError::Length,
        PldmError::ReservedKind,
        PldmError::OtherMessage,
    ] {
        add(&mut text, Some(it.code()), it)?;
    }
    for it in &[
        RecordError::Short,
        RecordError::Version,
        RecordError::Length,
        RecordError::Ends,
        RecordError::LeftOver,
        RecordError::Unsupported,
    ] {
        add(&mut text, Some(it.code()), it)?;
    }
    for it in &[
        WalkFault::OtherCode,
        WalkFault::Unreadable,
        WalkFault::NotAsked,
        WalkFault::WrongFlag,
        WalkFault::WrongCrc,
        WalkFault::WrongSize,
        WalkFault::WrongHandle,
        WalkFault::DoubledHandle,
        WalkFault::TooMuch,
        WalkFault::RecordChanged,
        WalkFault::FailedBefore,
        WalkFault::OutOfMemory,
    ] {
        add(&mut text, it.code(), it)?;
    }
    Ok(text)
}

#[test]
fn refusals_are_told_by_code_and_sentence(rt: HostRuntime) -> Result<(), Fail> {
    assert_eq!(rt; told(rt.alloc())?.as_str(), WANTED);
    Ok(())
}
