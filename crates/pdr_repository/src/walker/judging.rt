//! The tests of a part that a walker is given (DSP0248, section 26.2).
ghost use Rattle.std.specs.Prelude.{◌≡◌, ◌≤◌, IsTrue, ◌↔◌, slice_index, map};
ghost use Rattle.pldm_message.specs.PdrValues.{part};
ghost use Rattle.pdr_repository.{specs.Faults.{IsLast, HasWrongFlag, HasWrongSize, HasWrongCrc, HasWrongHandle, HasDoubledHandle, IsTooMuch, Judges}, specs.Dues.{request_of, room}};

use super::collected::Collected;
use super::due::Due;
use super::pieces::{data_length_of, handle_of};
use crate::crc::{crc8, crc8_after};
use crate::walk_fault::WalkFault;
use pdr_record::HEADER_LENGTH;
use pldm_message::{PdrPart, TransferFlag, TransferOperation};

/// Where in a record the change number of its header ends.
const CHANGE_NUMBER_END: usize = 8;

/// How much may be collected, and how much is.
#[derive(Clone, Copy, Debug)]
pub(super) struct Limits {
    pub(super) max_records: usize,
    pub(super) max_bytes: usize,
    pub(super) records: usize,
    pub(super) bytes: usize,
}

/// Whether the part is its record's last.
pub(super) fn is_last(given: &PdrPart) -> bool
    ensures { IsTrue result ↔ IsLast (part given.now) }
{
    given.flag == TransferFlag::END || given.flag == TransferFlag::START_AND_END
}

/// Whether the flag is not one for this request, or more is to come and the next transfer handle is 0.
fn has_wrong_flag(due: &Due, given: &PdrPart) -> bool
    ensures { IsTrue result ↔ HasWrongFlag (request_of 0 due.now) (part given.now) }
{
    let flag = given.flag;
    let fits = if due.operation == TransferOperation::FIRST_PART {
        flag == TransferFlag::START || flag == TransferFlag::START_AND_END
    } else {
        due.operation == TransferOperation::NEXT_PART
            && (flag == TransferFlag::MIDDLE || flag == TransferFlag::END)
    };
    !fits || !is_last(given) && given.next_data_transfer_handle == 0
}

/// Whether the part, or the record that it completes, has a wrong length.
fn has_wrong_size(count: u16, before: &[u8], due: &Due, given: &PdrPart) -> bool
    ensures { IsTrue result ↔ HasWrongSize before.now (request_of count due.now) (part given.now) }
{
    let len = given.bytes.len();
    let is_start = given.flag == TransferFlag::START;
    if len == 0 || len > usize::from(count) || is_start && len < CHANGE_NUMBER_END {
        return true;
    }
    let data_length = usize::from(data_length_of(before, given.bytes));
    is_last(given) && HEADER_LENGTH + data_length != before.len() + len
}

/// Whether the check byte is not the record's.
fn has_wrong_crc(before: &[u8], given: &PdrPart) -> bool
    ensures { IsTrue result ↔ HasWrongCrc before.now (part given.now) }
{
    match given.transfer_crc {
        Some(check) => check != crc8_after(crc8(before), given.bytes),
        None => false,
    }
}

/// Whether the record has not the handle that was asked for.
fn has_wrong_handle(before: &[u8], due: &Due, given: &PdrPart) -> bool
    ensures { IsTrue result ↔ HasWrongHandle before.now (request_of 0 due.now) (part given.now) }
{
    if !is_last(given) {
        return false;
    }
    let handle = handle_of(before, given.bytes);
    handle == 0 || due.record_handle != 0 && handle != due.record_handle
}

/// Whether a record of that handle was collected before.
fn has_doubled_handle(collected: &Collected, before: &[u8], given: &PdrPart) -> bool
    ensures { IsTrue result ↔ HasDoubledHandle (map (λ v. v.items) collected.now.records.items) before.now (part given.now) }
{
    is_last(given) && collected.has_handle(handle_of(before, given.bytes))
}

/// Whether a part passes the limits.
fn is_too_much(limits: &Limits, given: &PdrPart) -> bool
    requires { limits.now.bytes ≤ limits.now.max_bytes }
    ensures { IsTrue result ↔ IsTooMuch (room limits.now) (part given.now) }
{
    is_last(given) && limits.records >= limits.max_records
        || given.bytes.len() > limits.max_bytes - limits.bytes
}

/// The first fault of a part.
pub(super) fn judge(
    limits: &Limits,
    collected: &Collected,
    before: &[u8],
    count: u16,
    due: &Due,
    given: &PdrPart,
) -> Option<WalkFault>
    requires { limits.now.bytes ≤ limits.now.max_bytes }
    ensures { Judges (room limits.now) (map (λ v. v.items) collected.now.records.items) before.now (request_of count due.now) (part given.now) result }
{
    if has_wrong_flag(due, given) {
        return Some(WalkFault::WrongFlag);
    }
    if has_wrong_size(count, before, due, given) {
        return Some(WalkFault::WrongSize);
    }
    if has_wrong_crc(before, given) {
        return Some(WalkFault::WrongCrc);
    }
    if has_wrong_handle(before, due, given) {
        return Some(WalkFault::WrongHandle);
    }
    if has_doubled_handle(collected, before, given) {
        return Some(WalkFault::DoubledHandle);
    }
    if is_too_much(limits, given) {
        return Some(WalkFault::TooMuch);
    }
    None
}
