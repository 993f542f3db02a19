//! Check bytes, lists of records, and termini that answer requests for them.
use super::messages::bytes_of;
use arrayvec::ArrayVec;
use pdr_repository::{BlockTerminus, ListTerminus, Terminus, crc8, is_lawful_list};
use pldm_message::Tid;
use std::alloc::{AllocError, Global};
use std::test::Fail;

pub(crate) const LOCATOR: [u8; 19] = [
    0x01, 0x00, 0x00, 0x00, 0x01, 0x01, 0x00, 0x00, 0x09, 0x00, 0x01, 0x00, 0x01, 0x01, 0x00, 0x00,
    0x01, 0x01, 0x0a,
];

/// A record of this handle and length, from 10 to 65,545, whose type is none of the four.
pub(crate) fn record_of(alloc: Global, handle: u8, length: u32) -> Result<Vec<u8>, AllocError> {
    let [low, high, _, _] = length.saturating_sub(10).to_le_bytes();
    let mut bytes = Vec::new(alloc);
    bytes.extend_from_slice(&[handle, 0, 0, 0, 1, 200, 0, 0, low, high])?;
    for at in 10..length {
        bytes.push((at % 256) as u8 ^ handle)?;
    }
    Ok(bytes)
}

/// A list of TID 1 over these records, where they are a lawful list.
pub(crate) fn list_over(
    alloc: Global,
    records: Vec<(u32, Vec<u8>)>,
) -> Result<Option<ListTerminus>, AllocError> {
    if !is_lawful_list(&records) {
        return Ok(None);
    }
    Ok(Some(ListTerminus::new(alloc, Tid::new(1), records)?))
}

/// A block of TID 1 over these records, where they are a lawful list.
pub(crate) fn block_over(
    alloc: Global,
    records: Vec<(u32, Vec<u8>)>,
) -> Result<Option<BlockTerminus>, AllocError> {
    if !is_lawful_list(&records) {
        return Ok(None);
    }
    Ok(Some(BlockTerminus::new(alloc, Tid::new(1), records)?))
}

/// The one record.
pub(crate) fn one_record(alloc: Global) -> Result<Vec<(u32, Vec<u8>)>, AllocError> {
    let mut records = Vec::new(alloc);
    records.push((1, LOCATOR.to_vec(alloc)?))?;
    Ok(records)
}

/// A list of the records of these handles and lengths.
pub(crate) fn records_of(
    alloc: Global,
    rows: &[(u8, u32)],
) -> Result<Vec<(u32, Vec<u8>)>, AllocError> {
    let mut records = Vec::new(alloc);
    for (handle, length) in rows {
        records.push((u32::from(*handle), record_of(alloc, *handle, *length)?))?;
    }
    Ok(records)
}

/// Requests one after another, and the answers of a terminus over the one record: a dash where it is silent.
const ANSWERS: &str = "
# of the base commands
01800002 010000020001
01800001ff 0100000102
0180000105 0100000100
01800002 010000020005
01800004 01000004000500000000000000
01800401 0100040120
01800250 0100025005
01a3000200 0103000203
01c00002 -
01000002 -
01400002 -
00800002 -
# for parts of the record
0180025100000000000000000110000000 0100025100000000001000000000100001000000010100000900010001010000
0181025100000000100000000010000000 0101025100000000000000000004030001010aa6
0180025100000000000000000113000000 010002510000000000000000000513000100000001010000090001000101000001010a
01800251000000000000000001100000 0100025103
0180025100000000000000000210000000 0100025181
0180025100000000000000000100000000 0100025102
0180025163000000000000000110000000 0100025182
0180025163000000000000000210000000 0100025181
0180025100000000100000000010000100 0100025183
0180025100000000130000000010000000 0100025180
0180025100000000000000000010000000 0100025180
";

/// Whether a terminus answers the request of a row so.
fn is_answered_so(
    alloc: Global,
    terminus: &mut Box<dyn Terminus>,
    row: &str,
) -> Result<bool, Fail> {
    let Some((request, wanted)) = row.split_once(' ') else {
        return Ok(false);
    };
    let mut out = ArrayVec::new();
    let is_answered = terminus.answer(&bytes_of(alloc, request)?, &mut out);
    let wanted = bytes_of(alloc, wanted)?;
    Ok(is_answered != wanted.is_empty() && out.as_slice() == wanted.as_slice())
}

/// The first row that a terminus answers otherwise.
fn first_wrong(
    alloc: Global,
    mut terminus: Box<dyn Terminus>,
    rows: &'static str,
) -> Result<Option<&'static str>, Fail> {
    for row in rows.lines() {
        if !row.is_empty() && !row.starts_with('#') && !is_answered_so(alloc, &mut terminus, row)? {
            return Ok(Some(row));
        }
    }
    Ok(None)
}

/// `answers.rows` tells the same of a block.
#[test]
fn a_list_answers(rt: HostRuntime) -> Result<(), Fail> {
    let alloc = rt.alloc();
    let list = list_over(alloc, one_record(alloc)?)?.ok_or("lawful")?;
    let list = Box::new(alloc, list)?;
    assert_eq!(rt; first_wrong(alloc, list, ANSWERS)?, None);
    Ok(())
}

/// A handle, an offset, a count, and the part of the one record.
type Part = (u32, usize, usize, Option<&'static [u8]>);

const LENT: [Part; 8] = [
    (1, 16, 16, Some(&[0x01, 0x01, 0x0a])),
    (1, 0, 19, Some(&LOCATOR)),
    (1, 18, usize::MAX, Some(&[0x0a])),
    (1, 18, 0, Some(&[])),
    (1, 19, 1, None),
    (1, usize::MAX, 1, None),
    (9, 0, 1, None),
    (0, 0, 1, None),
];

/// The first part that the block lends otherwise.
fn first_other_part(block: &BlockTerminus, rows: &[Part]) -> Option<Part> {
    for row in rows {
        if block.part(row.0, row.1, row.2) != row.3 {
            return Some(*row);
        }
    }
    None
}

#[test]
fn a_block_lends_parts(rt: HostRuntime) -> Result<(), Fail> {
    let alloc = rt.alloc();
    let block = block_over(alloc, one_record(alloc)?)?.ok_or("lawful")?;
    assert_eq!(rt; first_other_part(&block, &LENT), None);
    Ok(())
}

/// Handles in a list and in the records' bytes.
type Handles = &'static [(u32, u8)];

const LISTS: [(Handles, bool); 6] = [
    (&[], false),
    (&[(7, 7)], true),
    (&[(7, 7), (8, 8)], true),
    (&[(7, 7), (8, 9)], false),
    (&[(7, 7), (7, 7)], false),
    (&[(0, 0)], false),
];

/// The handles of the first list that is lawful where it should not be, or the other way round.
fn first_other_list(
    alloc: Global,
    lists: &[(Handles, bool)],
) -> Result<Option<Handles>, AllocError> {
    for (handles, wanted) in lists {
        let mut records = Vec::new(alloc);
        for (handle, spelled) in *handles {
            records.push((*handle, record_of(alloc, *spelled, 19)?))?;
        }
        if is_lawful_list(&records) != *wanted {
            return Ok(Some(*handles));
        }
    }
    Ok(None)
}

#[test]
fn lawful_lists_have_new_handles(rt: HostRuntime) -> Result<(), Fail> {
    assert_eq!(rt; first_other_list(rt.alloc(), &LISTS)?, None);
    Ok(())
}

const CHECKED: [(&[u8], u8); 3] = [(b"123456789", 0xf4), (b"", 0), (&LOCATOR, 0xa6)];

/// The first bytes that have another check byte.
fn first_other_check<'a>(rows: &[(&'a [u8], u8)]) -> Option<&'a [u8]> {
    for (bytes, wanted) in rows {
        if crc8(*bytes) != *wanted {
            return Some(*bytes);
        }
    }
    None
}

#[test]
fn bytes_have_their_check_byte(rt: HostRuntime) {
    assert_eq!(rt; first_other_check(&CHECKED), None);
}
