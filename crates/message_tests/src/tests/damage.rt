//! Messages that are cut at each place, and whose byte there is 00 and FF: what is read of them, and what those say who
//! wait for an answer. `tools/try damage` shows what commands tell of such bytes.
use super::messages::{bytes_of, outcome};
use super::walks::word_of;
use mctp_bridge::EntryReader;
use mctp_control::ControlInstanceId;
use pdr_repository::Walker;
use pldm_message::InstanceIds;
use std::alloc::{AllocError, Global};
use std::test::Fail;

/// Who takes a message: a reader, which keeps it or tells the code of the refusal; `entries`, a reader of routing tables,
/// which says `done` or `more`; or `walks`, a walker, behind other answers: `more`, `record` or `done`. Behind a `=` stands
/// what comes of the message at the places below a number, from where the one before ends: cut there, with the byte there
/// 00, and with FF.
const ROWS: &str = "
# requests and answers of the four control commands, and an entry by itself
request 008001000a = 1:K01:kept:K02 2:K01:K02:kept 3:K01:K04:K04 5:K03:kept:kept
request 008002 = 1:K01:kept:K02 2:K01:K02:kept 3:K01:K04:K04
request 008008000711 = 1:K01:kept:K02 2:K01:K02:kept 3:K01:K04:K04 6:K03:kept:kept
request 00800a03 = 1:K01:kept:K02 2:K01:K02:kept 3:K01:K04:K04 4:K03:kept:kept
response 00000100100a00 = 2:K01:kept:K02 3:K01:K04:K04 4:K01:kept:K03 7:K03:kept:kept
response 00000200101000 = 2:K01:kept:K02 3:K01:K04:K04 4:K01:kept:K03 7:K03:kept:kept
response 00000805 = 2:K01:kept:K02 3:K01:K04:K04 4:K01:K03:kept
response 00000a00ff03010880010401100111010104013001120101040132 = 2:K01:kept:K02 3:K01:K04:K04 4:K01:kept:K03 \
    5:K03:kept:kept 6:K03:K03:K03 11:K03:kept:kept 12:K03:K03:K03 18:K03:kept:kept 19:K03:K03:K03 \
    25:K03:kept:kept 26:K03:K03:K03 27:K03:kept:kept
entry 08104001040120 = 5:K01:kept:kept 6:K01:K03:K03 7:K03:kept:kept
# what a reader of a routing table is sent: the table, an empty one, that under another instance ID, and a refusal
entries 00000a00ff03010880010401100111010104013001120101040132 = 2:E01:done:E01 3:E01:E01:E01 4:E01:done:E01 \
    5:E01:more:done 6:E01:E01:E01 11:E01:done:done 12:E01:E01:E01 18:E01:done:done 19:E01:E01:E01 \
    25:E01:done:done 26:E01:E01:E01 27:E01:done:done
entries 00000a00ff00 = 2:E01:done:E01 3:E01:E01:E01 4:E01:done:E01 5:E01:E03:done 6:E01:done:E01
entries 00010a00ff00 = 1:E01:E02:E01 2:E01:done:E01 3:E01:E01:E01 4:E01:E02:E01 5:E01:E02:E02 6:E01:E02:E01
entries 00000a02 = 4:E01:E01:E01
# requests and answers of PLDM
get_tid 01800002 = 1:L01:L02:L02 2:L01:L06:kept 3:L01:kept:L03 4:L01:L06:L06
set_tid 0180000105 = 1:L01:L02:L02 2:L01:L06:kept 3:L01:kept:L03 4:L01:L06:L06 5:L04:kept:kept
get_tid_answer 010000020001 = 1:L01:L02:L02 2:L01:kept:L06 3:L01:kept:L03 4:L01:L06:L06 5:L04:kept:L04 \
    6:L04:kept:kept
get_types_answer 01000004000500000000000000 = 1:L01:L02:L02 2:L01:kept:L06 3:L01:kept:L03 4:L01:L06:L06 \
    5:L04:kept:L04 13:L04:kept:kept
get_pdr 0180025100000000000000000110000000 = 1:L01:L02:L02 2:L01:L06:kept 3:L01:L06:L03 4:L01:L06:L06 \
    17:L04:kept:kept
get_pdr_answer 0100025100000000001000000000100001000000010100000900010001010000 = 1:L01:L02:L02 2:L01:kept:L06 \
    3:L01:L06:L03 4:L01:L06:L06 5:L04:kept:L04 14:L04:kept:kept 15:L04:L04:L04 16:L04:kept:L04 32:L04:kept:kept
get_pdr_answer 0101025100000000000000000004030001010aa6 = 1:L01:L02:L02 2:L01:kept:L06 3:L01:L06:L03 \
    4:L01:L06:L06 5:L04:kept:L04 13:L04:kept:kept 15:L04:L04:L04 16:L04:kept:L04 20:L04:kept:kept
get_pdr_answer 0100025182 = 1:L01:L02:L02 2:L01:kept:L06 3:L01:L06:L03 4:L01:L06:L06 5:L04:L04:kept
# parts of a record of 19 bytes, the last one behind the first, and the whole; a record that came before; a first
# part of seven bytes, where it has eight; and refusals
walks 0100025100000000001000000000100001000000010100000900010001010000 = 1:G02:G02:G02 2:G02:more:G03 \
    4:G02:G02:G02 5:G02:more:G02 9:G02:more:more 10:G02:G04:more 13:G02:more:more 14:G02:more:G04 15:G02:G02:G02 \
    16:G02:more:G02 32:G02:more:more
walks 0100025100000000001000000000100001000000010100000900010001010000 0101025100000000000000000004030001010aa6 = \
    1:G02:G02:G02 2:G02:G03:G03 4:G02:G02:G02 5:G02:done:G02 9:G02:done:record 13:G02:done:done 15:G02:G02:G02 \
    16:G02:done:G02 20:G02:G05:G05
walks 010002510000000000000000000513000100000001010000090001000101000001010a = 1:G02:G02:G02 2:G02:done:G03 \
    4:G02:G02:G02 5:G02:done:G02 9:G02:done:record 13:G02:done:done 14:G02:G04:G04 15:G02:G02:G02 \
    16:G02:done:G02 17:G02:G07:done 24:G02:done:done 25:G02:G06:G06 26:G02:done:G06 35:G02:done:done
walks 01000251000200000000000000050a000100000001c800000000 01010251000100000000000000050a000200000001c800000000 \
    01020251000200000000000000050a000100000001c800000000 = 1:G02:G02:G02 2:G02:G03:G03 4:G02:G02:G02 \
    5:G02:G08:G02 13:G02:G08:G08 14:G02:G04:G04 15:G02:G02:G02 16:G02:G08:G02 17:G02:G07:G07 20:G02:G08:G07 \
    24:G02:G08:G08 26:G02:G08:G06
walks 0100025100070000000700000000070001000000010100 = 1:G02:G02:G02 2:G02:G06:G03 4:G02:G02:G02 5:G02:G06:G02 \
    9:G02:G06:G06 10:G02:G04:G06 13:G02:G06:G06 14:G02:G06:G04 15:G02:G02:G02 16:G02:G06:G02 23:G02:G06:G06
walks 0100025182 = 1:G02:G02:G02 2:G02:G01:G03 4:G02:G02:G02 5:G02:G02:G01
walks 0100025183 = 1:G02:G02:G02 2:G02:G10:G03 4:G02:G02:G02 5:G02:G02:G01
";

/// What a reader of routing tables says of an answer to its first request.
fn said_of_table(alloc: Global, answer: &[u8]) -> Result<&'static str, AllocError> {
    let mut reader = EntryReader::new(alloc)?;
    let _ = reader.next_request(ControlInstanceId::new(0));
    Ok(match reader.take(answer) {
        Ok(true) => "done",
        Ok(false) => "more",
        Err(why) => why.code(),
    })
}

/// What a walker says of an answer to its next request.
fn said_of_part(walker: &mut Walker, ids: &mut InstanceIds, answer: &[u8]) -> &'static str {
    if let Some(id) = ids.take() {
        let _ = walker.next_request(id);
    }
    word_of(walker.take(answer))
}

/// What a walker in parts of at most 32 bytes says of an answer behind these.
fn said_at_last(
    alloc: Global,
    earlier: &[Vec<u8>],
    answer: &[u8],
) -> Result<&'static str, AllocError> {
    let mut walker = Walker::new(alloc, 32, 9, 640)?;
    let mut ids = InstanceIds::new();
    for before in earlier {
        said_of_part(&mut walker, &mut ids, before);
    }
    Ok(said_of_part(&mut walker, &mut ids, answer))
}

/// What comes of a message behind earlier ones.
fn said(
    alloc: Global,
    taker: &str,
    earlier: &[Vec<u8>],
    message: &[u8],
) -> Result<&'static str, AllocError> {
    match taker {
        "entries" => said_of_table(alloc, message),
        "walks" => said_at_last(alloc, earlier, message),
        _ => Ok(outcome(taker, message)),
    }
}

/// What comes of a message with another byte at a place.
fn said_with(
    alloc: Global,
    taker: &str,
    earlier: &[Vec<u8>],
    message: &[u8],
    place: usize,
    byte: u8,
) -> Result<&'static str, AllocError> {
    let mut changed = message.to_vec(alloc)?;
    if let Some(there) = changed.get_mut(place) {
        *there = byte;
    }
    said(alloc, taker, earlier, &changed)
}

/// What is to come of damage at a place.
fn wanted_at<'a>(spans: &'a str, place: usize) -> Option<(&'a str, &'a str, &'a str)> {
    for span in spans.split(' ') {
        let mut words = span.split(':');
        let end: usize = words.next()?.parse().ok()?;
        if place < end {
            return Some((words.next()?, words.next()?, words.next()?));
        }
    }
    None
}

/// Whether this comes of a message that is damaged at a place.
fn is_told_so(
    alloc: Global,
    taker: &str,
    earlier: &[Vec<u8>],
    message: &[u8],
    place: usize,
    spans: &str,
) -> Result<bool, AllocError> {
    let (Some(cut), Some(wanted)) = (message.get(..place), wanted_at(spans, place)) else {
        return Ok(false);
    };
    let (cut_off, zero, ones) = wanted;
    Ok(
        said(alloc, taker, earlier, cut)? == cut_off
            && said_with(alloc, taker, earlier, message, place, 0x00)? == zero
            && said_with(alloc, taker, earlier, message, place, 0xff)? == ones,
    )
}

/// Whether this comes of the last message of a row at each of its places.
fn is_so(alloc: Global, row: &str) -> Result<bool, Fail> {
    let (Some((words, spans)), Some((taker, _))) = (row.split_once(" = "), row.split_once(' '))
    else {
        return Ok(false);
    };
    let mut messages = Vec::new(alloc);
    for word in words.split(' ').skip(1) {
        messages.push(bytes_of(alloc, word)?)?;
    }
    let Some(message) = messages.pop() else {
        return Ok(false);
    };
    for place in 0..message.len() {
        if !is_told_so(alloc, taker, &messages, &message, place, spans)? {
            return Ok(false);
        }
    }
    Ok(!message.is_empty())
}

/// The first row of which something else comes.
fn first_other(alloc: Global, rows: &'static str) -> Result<Option<&'static str>, Fail> {
    for row in rows.lines() {
        if !row.is_empty() && !row.starts_with('#') && !is_so(alloc, row)? {
            return Ok(Some(row));
        }
    }
    Ok(None)
}

#[test]
fn damaged_messages_are_told_by_their_first_cause(rt: HostRuntime) -> Result<(), Fail> {
    assert_eq!(rt; first_other(rt.alloc(), ROWS)?, None);
    Ok(())
}
