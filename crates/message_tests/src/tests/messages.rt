//! Bytes that are read as a message, an entry or a record, each with what comes of it: they are written as they were
//! read, or refused by the first cause that applies.
use mctp_control::{ControlError, Request, Response, RouteEntry};
use mctp_transport::Wire;
use pdr_record::Record;
use pldm_message::{
    ErrorResponse, GetPdrAnswer, GetPdrRequest, GetPldmTypes, GetPldmTypesAnswer, GetTid,
    GetTidAnswer, PldmError, PldmHeader, SetTid, SetTidAnswer,
};
use std::alloc::Global;
use std::test::Fail;

/// The bytes that a word gives in hex; a dash gives none.
pub(crate) fn bytes_of(alloc: Global, word: &str) -> Result<Vec<u8>, Fail> {
    if word == "-" {
        return Ok(Vec::new(alloc));
    }
    match hex::decode(alloc, word.as_bytes()) {
        Ok(bytes) => Ok(bytes),
        Err(_) => Err(Fail::from("no hex")),
    }
}

/// Whether the value is written as these bytes, at most 127, which its `put` counts, with what lies behind them left
/// alone.
pub(crate) fn is_written_as<'a, W: Wire<'a>>(value: &W, wanted: &[u8]) -> bool {
    if value.len() > 127 {
        return false;
    }
    let mut out = [0xee; 128];
    let count = value.put(&mut out);
    value.len() == count && &out[..count] == wanted && out[count] == 0xee
}

/// Whether the bytes are read as a value that is written as the same bytes.
fn is_kept<'a, W: Wire<'a>>(bytes: &'a [u8]) -> bool {
    match W::read(bytes) {
        Ok(value) => is_written_as(&value, bytes),
        Err(_) => false,
    }
}

fn control_code<T: Drop>(read: Result<T, ControlError>) -> &'static str {
    match read {
        Ok(_) => "read",
        Err(error) => error.code(),
    }
}

fn pldm_code<T: Drop>(read: Result<T, PldmError>) -> &'static str {
    match read {
        Ok(_) => "read",
        Err(error) => error.code(),
    }
}

fn record_code(bytes: &[u8]) -> &'static str {
    match Record::read(bytes) {
        Ok(_) => "read",
        Err(error) => error.code(),
    }
}

/// Whether the bytes are kept by the reader that a word names, and the code of the refusal, or `read`.
fn read_by(reader: &str, bytes: &[u8]) -> (bool, &'static str) {
    match reader {
        "entry" => (
            is_kept::<RouteEntry>(bytes),
            control_code(RouteEntry::read(bytes)),
        ),
        "request" => (
            is_kept::<Request>(bytes),
            control_code(Request::read(bytes)),
        ),
        "response" => (
            is_kept::<Response>(bytes),
            control_code(Response::read(bytes)),
        ),
        "record" => (is_kept::<Record>(bytes), record_code(bytes)),
        _ => read_as_pldm(reader, bytes),
    }
}

/// The same of PLDM messages.
fn read_as_pldm(reader: &str, bytes: &[u8]) -> (bool, &'static str) {
    match reader {
        "set_tid" => (is_kept::<SetTid>(bytes), pldm_code(SetTid::read(bytes))),
        "set_tid_answer" => (
            is_kept::<SetTidAnswer>(bytes),
            pldm_code(SetTidAnswer::read(bytes)),
        ),
        "get_tid" => (is_kept::<GetTid>(bytes), pldm_code(GetTid::read(bytes))),
        "get_tid_answer" => (
            is_kept::<GetTidAnswer>(bytes),
            pldm_code(GetTidAnswer::read(bytes)),
        ),
        "get_types" => (
            is_kept::<GetPldmTypes>(bytes),
            pldm_code(GetPldmTypes::read(bytes)),
        ),
        "get_types_answer" => (
            is_kept::<GetPldmTypesAnswer>(bytes),
            pldm_code(GetPldmTypesAnswer::read(bytes)),
        ),
        "get_pdr" => (
            is_kept::<GetPdrRequest>(bytes),
            pldm_code(GetPdrRequest::read(bytes)),
        ),
        "get_pdr_answer" => (
            is_kept::<GetPdrAnswer>(bytes),
            pldm_code(GetPdrAnswer::read(bytes)),
        ),
        "error" => (
            is_kept::<ErrorResponse>(bytes),
            pldm_code(ErrorResponse::read(bytes)),
        ),
        "header" => (
            is_kept::<PldmHeader>(bytes),
            pldm_code(PldmHeader::read(bytes)),
        ),
        _ => (false, "no reader"),
    }
}

/// What comes of bytes: `kept`, or the code of the refusal.
pub(crate) fn outcome(reader: &str, bytes: &[u8]) -> &'static str {
    match read_by(reader, bytes) {
        (true, _) => "kept",
        (false, code) => code,
    }
}

/// An answer with a routing table of three entries.
pub(crate) const TABLE: &str = "00000a00ff03010880010401100111010104013001120101040132";

/// A reader, bytes, and what comes of them.
const ROWS: &str = "
entry 01088001040110 kept
entry 01110101040130 kept
entry 08104001040120 kept
entry 020ec0010400 kept
entry ffffffffff K01
entry 010800010401 K03
entry 01080001040000 K03
entry 3434343434343434343434343434343434343434343434343434343434343434343434343434343434343434343434343434343434\
    3434343434 kept
entry 3535353535353535353535353535353535353535353535353535353535353535353535353535353535353535353535353535353535\
    353535353535 K03
request 008001000a kept
request 008002 kept
request 008008000711 kept
request 00800a08 kept
# the bit D, and reserved bits
request 00e002 kept
request 00ff08ff0711 kept
request - K01
request 0080 K01
request 8000 K01
request 808002 K02
request 000001 K02
request 000002 K02
request 80800300 K02
request 008003 K04
request 00800300 K04
request 00800100 K03
request 008001000a00 K03
request 00800200 K03
request 0080080007 K03
request 00800a K03
request 00800a0800 K03
response 00000100011007 kept
response 00400100dd0a07 kept
response 00050200101000 kept
response 00000800010711 kept
response 00000a00ff00 kept
response 00000a000801010800010400 kept
response 00000a00ff03010880010401100111010104013001120101040132 kept
# a completion code stands alone
response 00000102 kept
response 00000805 kept
response 00000a02 kept
response 00000a02ff00 K03
response 808003 K01
response 80000200 K02
response 00800200 K02
response 0080030000 K02
response 00000305 K04
response 0000030000 K04
response 00000100000a K03
response 0000020000000000 K03
response 0000020500 K03
response 000008000007 K03
response 00000a00ff K03
# an entry that ends too soon, one too few, and one too many
response 00000a00ff01010800010401 K03
response 00000a00ff02010800010400 K03
response 00000a00ff00010800010400 K03
# 65 bytes
response 00000a00ff09010800010400010900010400010a00010400010b00010400010c00010400010d00010400010e00010400010f000\
    104000110000104050000000000 K03
# the reserved bit
header 01ff3f7e kept
header 01000251 kept
header 004042 L01
header 0040425000 L02
header 0140425000 L03
header 0140025000 L05
header 0180025100 L04
error 0102025182 kept
error 011f3fff20 kept
error 010202 L01
error 0202025182 L02
error 0142025182 L05
error 0182025182 L06
error 01020251 L04
error 0102025100 L04
error 010202518200 L04
set_tid 0180000105 kept
set_tid 0180400105 L03
set_tid 0100000105 L06
set_tid 01800002 L06
set_tid 01800001 L04
set_tid_answer 0100000100 kept
set_tid_answer 0100000102 kept
set_tid_answer 0180000105 L06
set_tid_answer 0100000200 L06
set_tid_answer 010000010005 L04
get_tid 01800002 kept
get_tid 018000 L01
get_tid 0100000200 L06
get_tid 0180000200 L04
get_tid_answer 010000020001 kept
get_tid_answer 0100000205 kept
get_tid_answer 0100000200 L04
get_tid_answer 010000020501 L04
get_tid_answer 010002020001 L06
get_types 01800004 kept
get_types 01c00004 kept
get_types 01400004 L05
get_types 0180000500 L06
get_types 0180000400 L04
get_types_answer 01000004000500000000000000 kept
get_types_answer 0100000401 kept
get_types_answer 010000040005 L04
get_types_answer 020000040005 L02
get_pdr 0180025100000000000000000110000000 kept
get_pdr 0181025107010203100405060008090a0b kept
get_pdr 01c0025100000000000000000110000000 kept
get_pdr 018000 L01
get_pdr 00800251 L02
get_pdr 01804251 L03
get_pdr 01400251 L05
get_pdr 01800250 L06
get_pdr 0180025100 L04
# of two causes the first is told
get_pdr 00404250 L02
get_pdr 01404250 L03
get_pdr 0140005000 L05
get_pdr 0180005100 L06
get_pdr 0100025100000000000000000110000000 L06
get_pdr 01800251 L04
get_pdr 01800251000000000000000001100000 L04
get_pdr 018002510000000000000000011000000000 L04
# a first part, a part in the middle, a last one with its check byte, and a whole record
get_pdr_answer 010002510000000000020000000002000100 kept
get_pdr_answer 0100025100000000000300000001010001 kept
get_pdr_answer 0101025100090807060000000004010001a6 kept
get_pdr_answer 010002510000000000000000000502000100 kept
get_pdr_answer 0102025182 kept
get_pdr_answer 01800251000000000000000000050000 L06
get_pdr_answer 01000251 L04
get_pdr_answer 010002518200 L04
# a byte too few, no check byte, and a byte behind it
get_pdr_answer 0100025100000000000200000000020001 L04
get_pdr_answer 0101025100000000000000000004010001 L04
get_pdr_answer 0100025100000000000000000005010001a6 L04
# records of five types; which bytes are none `show.rows` tells
record 0100000001010000090001000101000001010a kept
record 020000000104000011000100050021000100000000000101000106 kept
record 03000000010f000010006400002d0001000000012f0001006400 kept
record 0400000001c801000200aabb kept
record 0500000001c800000000 kept
record 0500000001c8000000 D01
";

/// Whether this comes of a row's bytes.
fn is_so(alloc: Global, row: &str) -> Result<bool, Fail> {
    let mut words = row.split(' ');
    match (words.next(), words.next(), words.next()) {
        (Some(reader), Some(bytes), Some(wanted)) => {
            Ok(outcome(reader, &bytes_of(alloc, bytes)?) == wanted)
        }
        _ => Ok(false),
    }
}

/// The first row of which something else comes.
fn first_other(alloc: Global, rows: &'static str) -> Result<Option<&'static str>, Fail> {
    for row in rows.lines() {
        if !row.is_empty() && !row.starts_with('#') && !is_so(alloc, row)? {
            return Ok(Some(row));
        }
    }
    Ok(None)
}

#[test]
fn bytes_are_kept_or_refused_by_their_first_cause(rt: HostRuntime) -> Result<(), Fail> {
    assert_eq!(rt; first_other(rt.alloc(), ROWS)?, None);
    Ok(())
}
