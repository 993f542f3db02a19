//! What a terminus does with each command (DSP0240, SetTID, GetTID and GetPLDMTypes; DSP0248, section 26.2).
ghost use Rattle.std.specs.Prelude.{◌≡◌, ◌≤◌, ℕ, List, IfOk, length, option_map};
ghost use Rattle.pldm_message.{specs.BaseCommands.{nothing, one_byte, type_bits}, specs.Heads.{outcome_value}, specs.Messages.{outcome_bytes}, specs.Pdrs.{part_bytes}, specs.PdrValues.{part, part_request}};
ghost use Rattle.pdr_repository.{specs.Records.{Entry}, specs.Found.{Finds}, specs.Parts.{AnswersPart}, specs.Replying.{CarriesOut, IsAskedFor}};
ghost use Rattle.pldm_message.specs.declared.command.Command.TheVariants as command;

use crate::parts::Found;
use crate::repository::Repository;
use mctp_transport::Wire;
use pldm_message::{
    CompletionCode, GetPdrRequest, GetPldmTypes, GetTid, PdrPart, PldmTypes, SetTid, Tid,
    TransferOperation,
};

/// A bit for each PLDM type: a terminus has the types 0 and 2.
const KNOWN_TYPES: [u8; 8] = [0b101, 0, 0, 0, 0, 0, 0, 0];

/// Sets the TID that is held.
pub(crate) fn set_tid(held: &mut Tid, request: &[u8]) -> Result<(), CompletionCode>
    requires { IsAskedFor command.SetTid request.now }
    ensures { (records : List Entry) → CarriesOut command.SetTid held.old.value records request.now (outcome_bytes nothing (outcome_value (λ done. done) result)) held.new.value }
{
    let Ok(request) = SetTid::read(request) else {
        return Err(CompletionCode::INVALID_LENGTH);
    };
    if !request.tid.is_assignable() {
        return Err(CompletionCode::INVALID_DATA);
    }
    *held = request.tid;
    Ok(())
}

/// Tells the TID that is held.
pub(crate) fn get_tid(held: Tid, request: &[u8]) -> Result<Tid, CompletionCode>
    requires { IsAskedFor command.GetTid request.now }
    ensures { (records : List Entry) → CarriesOut command.GetTid held.value records request.now (outcome_bytes one_byte (outcome_value (λ tid. tid.value) result)) held.value }
{
    match GetTid::read(request) {
        Ok(_) => Ok(held),
        Err(_) => Err(CompletionCode::INVALID_LENGTH),
    }
}

/// Tells the PLDM types of a terminus.
pub(crate) fn get_pldm_types(request: &[u8]) -> Result<PldmTypes, CompletionCode>
    requires { IsAskedFor command.GetPldmTypes request.now }
    ensures { (tid : ℕ) (records : List Entry) → CarriesOut command.GetPldmTypes tid records request.now (outcome_bytes type_bits (outcome_value (λ types. types.bits) result)) tid }
{
    match GetPldmTypes::read(request) {
        Ok(_) => Ok(PldmTypes::new(KNOWN_TYPES)),
        Err(_) => Err(CompletionCode::INVALID_LENGTH),
    }
}

/// Tells a part of a record.
pub(crate) fn get_pdr<'a, R: Repository>(
    records: &'a R,
    request: &[u8],
) -> Result<PdrPart<'a>, CompletionCode>
    requires { IsAskedFor command.GetPdr request.now }
    ensures most { IfOk result (λ p. length p.bytes.now ≤ 4079) }
    ensures answered { (tid : ℕ) → CarriesOut command.GetPdr tid (R.records records.now) request.now (outcome_bytes part_bytes (outcome_value part result)) tid }
{
    match GetPdrRequest::read(request) {
        Ok(request) => give(records, &request),
        Err(_) => Err(CompletionCode::INVALID_LENGTH),
    }
}

/// Gives the part of a record that is asked for.
fn give<'a, R: Repository>(
    records: &'a R,
    request: &GetPdrRequest,
) -> Result<PdrPart<'a>, CompletionCode>
    ensures most { IfOk result (λ p. length p.bytes.now ≤ 4079) }
    ensures answers { AnswersPart (R.records records.now) (part_request request.now) (outcome_value part result) }
{
    let operation = request.operation;
    if operation != TransferOperation::FIRST_PART && operation != TransferOperation::NEXT_PART {
        return Err(CompletionCode::INVALID_TRANSFER_OPERATION);
    }
    if request.request_count == 0 {
        return Err(CompletionCode::INVALID_DATA);
    }
    let Some(found) = find(records, request.record_handle) else {
        return Err(CompletionCode::INVALID_RECORD_HANDLE);
    };
    found.give(request)
}

/// Finds the record that a handle means.
fn find<R: Repository>(records: &R, handle: u32) -> Option<Found<'_>>
    ensures { Finds (R.records records.now) handle (option_map (λ f. (f.next, f.bytes.now)) result) }
{
    let place = records.place_meant_by(handle)?;
    let next = records.next_handle(place);
    let bytes = records.bytes_at(place);
    Some(Found { next, bytes })
}
