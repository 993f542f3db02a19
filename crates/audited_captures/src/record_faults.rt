//! What is wrong with an answer about a planned record (DSP0248, GetPDR).
ghost use Rattle.std.specs.Prelude.{◌≡◌, ◌≢◌, ◌≤◌, ◌↔◌, ℕ, IsTrue, MatchOption, IfSome, Some, length, take, drop};
ghost use Rattle.pldm_message.specs.PdrValues.{part, part_request};
ghost use Rattle.pdr_repository.{specs.Crc.{IsCrc}, specs.Records.{change_in}};
ghost use Rattle.audited_captures.{specs.RecordParts.{record_part_value}, specs.RecordPlans.{flag_for, IsPartFrom, IsPartFault, IsToldFrom, IsFaultFrom, IsUnlikeAt, MayRefuse}};
ghost use Rattle.audited_captures.specs.declared.record_faults.RecordFault.TheVariants as fault;

use crate::record_parts::RecordPart;
use pdr_repository::{crc8, one_check_byte};
use pldm_message::{CompletionCode, GetPdrRequest, PdrPart, TransferOperation};

/// What is wrong with an answer about a record, with what was found and what is planned.
#[derive(Clone, Copy, Debug)]
pub enum RecordFault {
    /// The bytes are no answer to such a request.
    Unreadable,
    /// The completion code.
    Failed(u8),
    /// The part is empty, or longer than asked for.
    Size { found: usize, asked: u16 },
    /// The first byte of the record that differs, from 0; the shorter of two has no byte where it ends.
    Byte(usize),
    /// The handle of the next record.
    Next { found: u32, planned: u32 },
    /// The transfer flag.
    Flag { found: u8, planned: u8 },
    /// The check byte.
    Check { found: u8, planned: u8 },
}

/// What is wrong with an answer, where a record of these bytes is read from the offset on. The handle is that of the
/// record behind it, 0 at the last.
pub fn fault_from(next: u32, bytes: &[u8], offset: usize, part: &RecordPart) -> Option<RecordFault>
    ensures { MatchOption result (IsToldFrom next bytes.now offset (record_part_value part.now)) (λ f. IsFaultFrom next bytes.now offset (record_part_value part.now) f) }
{
    match &part.told {
        None => Some(RecordFault::Unreadable),
        Some(Err(code)) => refusal_fault(bytes, &part.request, *code),
        Some(Ok(given)) => part_fault(next, bytes, &part.request, offset, given),
    }
}

fn refusal_fault(bytes: &[u8], request: &GetPdrRequest, code: CompletionCode) -> Option<RecordFault>
    ensures { MatchOption result (MayRefuse bytes.now (part_request request.now) code.value) (λ f. (f ≡ fault.Failed code.value) × ¬ MayRefuse bytes.now (part_request request.now) code.value) }
{
    if may_refuse(bytes, request, code) {
        None
    } else {
        Some(RecordFault::Failed(code.value))
    }
}

/// Whether a planned terminus refuses the request with this code: no bytes are asked for, or a next part with another
/// change number than the record's.
fn may_refuse(bytes: &[u8], request: &GetPdrRequest, code: CompletionCode) -> bool
    ensures { IsTrue result ↔ MayRefuse bytes.now (part_request request.now) code.value }
{
    if code == CompletionCode::INVALID_DATA {
        return request.request_count == 0;
    }
    code == CompletionCode::INVALID_RECORD_CHANGE_NUMBER
        && request.operation == TransferOperation::NEXT_PART
        && request.record_change_number != change_of(bytes)
}

/// The change number in a record's header, 0 where there is none.
fn change_of(bytes: &[u8]) -> u16
    ensures { result ≡ change_in bytes.now }
{
    match bytes {
        [_, _, _, _, _, _, low, high, ..] => u16::from(*low) + 256 * u16::from(*high),
        [_, _, _, _, _, _, low] => u16::from(*low),
        _ => 0,
    }
}

/// The first thing that is wrong with a part.
fn part_fault(
    next: u32,
    bytes: &[u8],
    request: &GetPdrRequest,
    offset: usize,
    given: &PdrPart,
) -> Option<RecordFault>
    ensures { MatchOption result (IsPartFrom next bytes.now (part_request request.now) offset (part given.now)) (λ f. IsPartFault next bytes.now (part_request request.now) offset (part given.now) f) }
{
    let found = given.bytes.len();
    let asked = request.request_count;
    if found == 0 || found > usize::from(asked) {
        return Some(RecordFault::Size { found, asked });
    }
    let rest = rest_of(bytes, offset);
    if let Some(at) = first_unlike(rest, given.bytes) {
        return Some(RecordFault::Byte(offset + at));
    }
    if given.next_record_handle != next {
        return Some(RecordFault::Next {
            found: given.next_record_handle,
            planned: next,
        });
    }
    let flag = flag_for(request.operation, found == rest.len());
    if given.flag.value != flag {
        return Some(RecordFault::Flag {
            found: given.flag.value,
            planned: flag,
        });
    }
    check_fault(bytes, given)
}

/// The bytes from an offset on.
pub fn rest_of(bytes: &[u8], offset: usize) -> &[u8]
    ensures { result.now ≡ drop offset bytes.now }
{
    bytes.split_at(offset.min(bytes.len())).1
}

/// The first byte in which what was found differs from what is planned, or has more.
fn first_unlike(planned: &[u8], found: &[u8]) -> Option<usize>
    ensures is { MatchOption result (found.now ≡ take (length found.now) planned.now) (λ k. IsUnlikeAt planned.now found.now k) }
    ensures within { IfSome result (λ k. k ≤ length planned.now) }
{
    for i in 0..found.len() {
        if planned.get(i) != found.get(i) {
            return Some(i);
        }
    }
    None
}

/// The transfer flag of a part.
fn flag_for(operation: TransferOperation, is_last: bool) -> u8
    ensures { result ≡ flag_for operation.value is_last }
{
    match (operation == TransferOperation::FIRST_PART, is_last) {
        (true, true) => 5,
        (true, false) => 0,
        (false, true) => 4,
        (false, false) => 1,
    }
}

/// What is wrong with the check byte, where there is one.
fn check_fault(bytes: &[u8], given: &PdrPart) -> Option<RecordFault>
    ensures { MatchOption result ((crc : ℕ) → (part given.now).crc ≡ Some crc → IsCrc bytes.now crc) (λ f. (found planned : ℕ) × (f ≡ fault.Check found planned) × ((part given.now).crc ≡ Some found) × IsCrc bytes.now planned × ¬ IsCrc bytes.now found) }
{
    let found = given.transfer_crc?;
    let planned = crc8(bytes);
    one_check_byte();
    if found == planned {
        None
    } else {
        Some(RecordFault::Check { found, planned })
    }
}
