//! Parts of a record, as a terminus gives them (DSP0248, section 26.2).
ghost use Rattle.std.specs.Prelude.{◌≡◌, ◌+◌, ◌-◌, ◌*◌, ◌<◌, ◌≤◌, ◌^◌, min, length, take, drop, IfOk};
ghost use Rattle.pldm_message.{specs.PdrValues.{part, part_request}, specs.Heads.{outcome_value}};
ghost use Rattle.pdr_repository.{specs.Records.{change_in}, specs.Parts.{AnswersFrom, IsPartOf, IsWithin, offset_of}, specs.Found.{BeginsAt}, specs.FivePackets.{FitFive, PassFive}};

use crate::crc::crc8;
use pldm_message::{CompletionCode, GetPdrRequest, PdrPart, TransferFlag, TransferOperation};

/// The most bytes of a record that an answer has.
pub const MAX_PART: u16 = 4079;

/// How many bytes of an answer are not the record's, its check byte among them.
const AROUND_PART: u16 = 17;

/// The most bytes of a record that a request may ask for, so that its answer is sent in at most five packets of this
/// transmission unit, 64 to 1024 bytes. What stands around them in an answer takes 17 bytes, and no part has more than
/// 4079.
pub fn five_packets(unit: u16) -> u16
    requires least { 64 ≤ unit }
    requires most { unit ≤ 1024 }
    ensures count { result ≡ min (5 * unit - 17) 4079 }
    ensures fit { FitFive unit result }
    ensures pass { result < 4079 → PassFive unit (result + 1) }
{
    (5 * unit - AROUND_PART).min(MAX_PART)
}

/// The bytes from an offset on: `count` of them, or all that are left if they are fewer.
pub(crate) fn cut(bytes: &[u8], offset: usize, count: usize) -> &[u8]
    requires { offset ≤ length bytes.now }
    ensures { result.now ≡ take (min count (length bytes.now - offset)) (drop offset bytes.now) }
{
    let rest = &bytes[offset..];
    let (taken, _) = rest.split_at(count.min(rest.len()));
    taken
}

/// A record that a request means.
#[derive(Clone, Copy, Debug)]
pub(crate) struct Found<'a> {
    /// The handle of the record at the following place, 0 at the last.
    pub(crate) next: u32,
    pub(crate) bytes: &'a [u8],
    pub(crate) ghost short: { length bytes.now < 2 ^ 32 },
}

impl<'a> Found<'a> {
    /// Where the part begins that is asked for, or why it is not given.
    fn offset(self, request: &GetPdrRequest) -> Result<usize, CompletionCode>
        requires { request.now.operation.value ≤ 1 }
        ensures { BeginsAt (part_request request.now) self.entry.bytes.now (outcome_value (λ offset. offset) result) }
    {
        if request.operation == TransferOperation::FIRST_PART {
            return Ok(0);
        }
        if request.record_change_number != change_of(self.bytes) {
            return Err(CompletionCode::INVALID_RECORD_CHANGE_NUMBER);
        }
        let offset = request.data_transfer_handle as usize;
        if offset == 0 || offset >= self.bytes.len() {
            return Err(CompletionCode::INVALID_TRANSFER_HANDLE);
        }
        Ok(offset)
    }

    /// The part that begins at this offset.
    fn part(self, offset: usize, request: &GetPdrRequest) -> PdrPart<'a>
        requires known { request.now.operation.value ≤ 1 }
        requires offset { offset ≡ offset_of (part_request request.now) }
        requires within { IsWithin (part_request request.now) self.bytes.now }
        ensures { IsPartOf self.entry.next self.entry.bytes.now (part_request request.now) (part result) }
    {
        let limit = usize::from(request.request_count.min(MAX_PART));
        let bytes = cut(self.bytes, offset, limit);
        let end = offset + bytes.len();
        let is_first = request.operation == TransferOperation::FIRST_PART;
        let (flag, next_data_transfer_handle, transfer_crc) = match (
            is_first,
            end < self.bytes.len(),
        ) {
            (true, true) => (TransferFlag::START, end as u32, None),
            (false, true) => (TransferFlag::MIDDLE, end as u32, None),
            (false, false) => (TransferFlag::END, 0, Some(crc8(self.bytes))),
            (true, false) => (TransferFlag::START_AND_END, 0, None),
        };
        PdrPart {
            next_record_handle: self.next,
            next_data_transfer_handle,
            flag,
            bytes,
            transfer_crc,
        }
    }

    /// Gives the part that is asked for, as a first or as a next one.
    pub(crate) fn give(self, request: &GetPdrRequest) -> Result<PdrPart<'a>, CompletionCode>
        requires { request.now.operation.value ≤ 1 }
        ensures most { IfOk result (λ p. length p.bytes.now ≤ 4079) }
        ensures answers { AnswersFrom self.entry.next self.entry.bytes.now (part_request request.now) (outcome_value part result) }
    {
        let offset = self.offset(request)?;
        Ok(self.part(offset, request))
    }
}

/// The change number in a record's header, 0 where there is none.
pub(crate) fn change_of(bytes: &[u8]) -> u16
    ensures { result ≡ change_in bytes.now }
{
    match bytes {
        [_, _, _, _, _, _, low, high, ..] => u16::from(*low) + 256 * u16::from(*high),
        [_, _, _, _, _, _, low] => u16::from(*low),
        _ => 0,
    }
}
