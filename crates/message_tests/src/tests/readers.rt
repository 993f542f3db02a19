//! Routing tables that are read from a bridge's answers.
use super::tables::{row, told};
use mctp_bridge::{EntryReader, Neighbor, ReadFault};
use mctp_control::{ControlInstanceId, Device, RouteEntry};
use mctp_routing::DeviceKind;
use mctp_transport::Eid;
use std::alloc::{AllocError, Global};
use std::test::Fail;

/// A call of a reader, and what it answers.
#[derive(Clone, Copy)]
enum Turn<'a> {
    /// Asks under this instance ID: these bytes, or none.
    Asks(ControlInstanceId, Option<[u8; 4]>),
    /// Takes these bytes.
    Takes(&'a [u8], Result<bool, ReadFault>),
}

/// Whether the reader answers this turn's call so.
fn answers(reader: &mut EntryReader, turn: &Turn) -> bool {
    match turn {
        Turn::Asks(id, wanted) => reader.next_request(*id) == *wanted,
        Turn::Takes(bytes, wanted) => reader.take(bytes) == *wanted,
    }
}

/// The place of the first turn in which the reader answers otherwise.
fn first_other(reader: &mut EntryReader, turns: &[Turn]) -> Option<usize> {
    for (place, turn) in turns.iter().enumerate() {
        if !answers(reader, turn) {
            return Some(place);
        }
    }
    None
}

/// The entries of a bridge's table of ten rows, each of an endpoint with one byte of address.
fn ten_entries(alloc: Global) -> Option<Vec<RouteEntry>> {
    let nic = Neighbor {
        kind: DeviceKind::Endpoint,
        eid: Eid::new(17),
        binding: 1,
        media: 4,
        address: &[0x30],
    };
    let eids: [u8; 10] = [8, 9, 10, 11, 12, 13, 14, 15, 16, 17];
    told(alloc, &eids.map(|eid| row(eid, 1)), &[nic; 10])
}

/// The first eight entries are asked for under instance ID 1, and the last two under 0.
const BEGIN: [u8; 4] = [0x00, 0x81, 0x0a, 0x00];

const END: [u8; 4] = [0x00, 0x80, 0x0a, 0x08];

/// Whether a bridge answers a request for entries with so many bytes, of which these are the first.
fn replies_so(table: &[RouteEntry], body: &[u8], length: usize, head: &[u8]) -> bool {
    if table.len() != 10 {
        return false;
    }
    match Device::bridge(0).answer(0, table, body) {
        Some(reply) => reply.len() == length && reply.as_slice().starts_with(head),
        None => false,
    }
}

/// Whether a reader takes the table from these two replies.
fn reads_so<'a>(
    alloc: Global,
    table: &[RouteEntry],
    first: &'a [u8],
    last: &'a [u8],
) -> Result<bool, AllocError> {
    let mut reader = EntryReader::new(alloc)?;
    let turns = [
        Turn::Asks(ControlInstanceId::new(1), Some(BEGIN)),
        Turn::Asks(ControlInstanceId::new(2), Some([0x00, 0x82, 0x0a, 0x00])),
        Turn::Takes(first, Err(ReadFault::NotAsked)),
        Turn::Asks(ControlInstanceId::new(1), Some(BEGIN)),
        Turn::Takes(first, Ok(false)),
        Turn::Asks(ControlInstanceId::new(0), Some(END)),
        Turn::Takes(last, Ok(true)),
        Turn::Asks(ControlInstanceId::new(3), None),
        Turn::Takes(last, Err(ReadFault::NotAsked)),
    ];
    let other = first_other(&mut reader, &turns);
    Ok(other.is_none() && reader.entries() == table && reader.taken() == 2)
}

/// Whether a reader takes the table from a bridge's replies.
fn is_read(alloc: Global, table: &[RouteEntry]) -> Result<bool, AllocError> {
    if table.len() != 10 {
        return Ok(false);
    }
    let mut bridge = Device::bridge(0);
    match (
        bridge.answer(0, table, &BEGIN),
        bridge.answer(0, table, &END),
    ) {
        (Some(first), Some(last)) => reads_so(alloc, table, &first, &last),
        _ => Ok(false),
    }
}

#[test]
fn a_reader_asks_a_bridge_twice_for_ten_entries(rt: HostRuntime) -> Result<(), Fail> {
    let table = ten_entries(rt.alloc()).ok_or("no entries")?;
    assert!(rt;
        replies_so(&table, &BEGIN, 62, &[0x00, 0x01, 0x0a, 0x00, 0x08, 0x08]),
        "eight"
    );
    assert!(rt;
        replies_so(&table, &END, 20, &[0x00, 0x00, 0x0a, 0x00, 0xff, 0x02]),
        "two"
    );
    assert!(rt; is_read(rt.alloc(), &table)?, "read");
    Ok(())
}

/// An answer under instance ID 0 with next handle 8, and an entry without address for each EID from 8 to 15.
const PART: [u8; 54] = [
    0, 0, 10, 0, 8, 8, 1, 8, 0, 1, 4, 0, 1, 9, 0, 1, 4, 0, 1, 10, 0, 1, 4, 0, 1, 11, 0, 1, 4, 0, 1,
    12, 0, 1, 4, 0, 1, 13, 0, 1, 4, 0, 1, 14, 0, 1, 4, 0, 1, 15, 0, 1, 4, 0,
];

/// An answer under instance ID 0 with next handle 8 and the first seven of those entries, and such a last one.
const SEVEN: [u8; 48] = [
    0, 0, 10, 0, 8, 7, 1, 8, 0, 1, 4, 0, 1, 9, 0, 1, 4, 0, 1, 10, 0, 1, 4, 0, 1, 11, 0, 1, 4, 0, 1,
    12, 0, 1, 4, 0, 1, 13, 0, 1, 4, 0, 1, 14, 0, 1, 4, 0,
];

const LAST_SEVEN: [u8; 48] = [
    0, 0, 10, 0, 255, 7, 1, 8, 0, 1, 4, 0, 1, 9, 0, 1, 4, 0, 1, 10, 0, 1, 4, 0, 1, 11, 0, 1, 4, 0,
    1, 12, 0, 1, 4, 0, 1, 13, 0, 1, 4, 0, 1, 14, 0, 1, 4, 0,
];

/// An answer under instance ID 0 with one entry, for EID 8, and more announced, and such a last one.
const ONE: [u8; 12] = [0, 0, 10, 0, 8, 1, 1, 8, 0, 1, 4, 0];

const LAST: [u8; 12] = [0, 0, 10, 0, 255, 1, 1, 8, 0, 1, 4, 0];

/// Answers without an entry: the last one, one where more is announced, and one under instance ID 1.
const NO_MORE: [u8; 6] = [0, 0, 10, 0, 255, 0];

const NONE_BUT_MORE: [u8; 6] = [0, 0, 10, 0, 8, 0];

const OF_ANOTHER_ID: [u8; 6] = [0, 1, 10, 0, 255, 0];

/// The request for the entries from a handle on, under instance ID 0.
fn asking(handle: u8) -> [u8; 4] {
    [0x00, 0x80, 0x0a, handle]
}

/// Whether a reader that has eight entries is ended by these bytes with this fault, and keeps the entries.
fn fails_so(alloc: Global, bytes: &[u8], fault: ReadFault) -> Result<bool, AllocError> {
    let id = ControlInstanceId::new(0);
    let mut reader = EntryReader::new(alloc)?;
    let turns = [
        Turn::Asks(id, Some(asking(0))),
        Turn::Takes(&PART, Ok(false)),
        Turn::Asks(id, Some(asking(8))),
        Turn::Takes(bytes, Err(fault)),
        Turn::Takes(&PART, Err(ReadFault::FailedBefore)),
        Turn::Asks(id, None),
    ];
    let others = first_other(&mut reader, &turns);
    Ok(others.is_none() && (reader.entries().len(), reader.taken()) == (8, 2))
}

const FAILURES: [(&[u8], ReadFault); 4] = [
    (&[], ReadFault::NoSuccess),
    (&[0, 0, 10, 2], ReadFault::NoSuccess),
    (&[0, 3, 2, 0, 8, 0, 0], ReadFault::NoSuccess),
    (&[0, 0, 10, 0, 9, 0], ReadFault::NoEntry),
];

/// The first bytes that end a reader otherwise.
fn first_other_failure<'a>(
    alloc: Global,
    rows: &[(&'a [u8], ReadFault)],
) -> Result<Option<&'a [u8]>, AllocError> {
    for (bytes, fault) in rows {
        if !fails_so(alloc, *bytes, *fault)? {
            return Ok(Some(*bytes));
        }
    }
    Ok(None)
}

#[test]
fn a_reader_that_failed_keeps_its_entries(rt: HostRuntime) -> Result<(), Fail> {
    assert_eq!(rt; first_other_failure(rt.alloc(), &FAILURES)?, None);
    Ok(())
}

/// A reader that has taken an answer so many times.
fn reader_of(alloc: Global, answer: &[u8], times: u32) -> Result<EntryReader, AllocError> {
    let mut reader = EntryReader::new(alloc)?;
    for _ in 0..times {
        reader.next_request(ControlInstanceId::new(0));
        let _ = reader.take(answer);
    }
    Ok(reader)
}

/// What comes then, and how many entries and answers the reader has in the end.
type Filled<'a> = (&'a [Turn<'a>], (usize, usize));

/// The place of the first row of which something else comes, where a reader has taken an answer so many times before.
fn first_other_filled(
    alloc: Global,
    answer: &[u8],
    times: u32,
    rows: &[Filled],
) -> Result<Option<usize>, AllocError> {
    for (place, (turns, counts)) in rows.iter().enumerate() {
        let mut reader = reader_of(alloc, answer, times)?;
        let other = first_other(&mut reader, *turns);
        if other.is_some() || (reader.entries().len(), reader.taken()) != *counts {
            return Ok(Some(place));
        }
    }
    Ok(None)
}

/// Eight entries an answer.
#[test]
fn a_reader_takes_247_entries_and_no_more(rt: HostRuntime) -> Result<(), Fail> {
    let asks = Turn::Asks(ControlInstanceId::new(0), Some(asking(8)));
    let too_many = [asks, Turn::Takes(&PART, Err(ReadFault::TooMany))];
    let one_too_many = [
        asks,
        Turn::Takes(&SEVEN, Ok(false)),
        asks,
        Turn::Takes(&LAST, Err(ReadFault::TooMany)),
    ];
    let just_so = [asks, Turn::Takes(&LAST_SEVEN, Ok(true))];
    let rows: [Filled; 3] = [
        (&too_many, (240, 31)),
        (&one_too_many, (247, 32)),
        (&just_so, (247, 31)),
    ];
    assert_eq!(rt; first_other_filled(rt.alloc(), &PART, 30, &rows)?, None);
    Ok(())
}

/// One entry an answer, with more announced.
#[test]
fn a_reader_takes_248_answers_and_no_more(rt: HostRuntime) -> Result<(), Fail> {
    let asks = Turn::Asks(ControlInstanceId::new(0), Some(asking(8)));
    let not_asked = [Turn::Takes(&LAST, Err(ReadFault::NotAsked))];
    let ended = [
        asks,
        Turn::Takes(&NO_MORE, Ok(true)),
        Turn::Takes(&NO_MORE, Err(ReadFault::NotAsked)),
    ];
    let empty = [
        asks,
        Turn::Takes(&NONE_BUT_MORE, Err(ReadFault::NoEntry)),
        Turn::Takes(&NONE_BUT_MORE, Err(ReadFault::FailedBefore)),
    ];
    let too_many = [
        asks,
        Turn::Takes(&OF_ANOTHER_ID, Err(ReadFault::NotAsked)),
        Turn::Takes(&LAST, Err(ReadFault::TooMany)),
        Turn::Takes(&LAST, Err(ReadFault::FailedBefore)),
        Turn::Asks(ControlInstanceId::new(0), None),
    ];
    let rows: [Filled; 4] = [
        (&not_asked, (247, 247)),
        (&ended, (247, 248)),
        (&empty, (247, 248)),
        (&too_many, (247, 248)),
    ];
    assert_eq!(rt; first_other_filled(rt.alloc(), &ONE, 247, &rows)?, None);
    Ok(())
}
