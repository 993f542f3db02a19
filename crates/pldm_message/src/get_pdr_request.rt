//! Requests for parts of platform descriptor records.
ghost use Rattle.std.specs.Prelude.{◌<◌, ◌^◌};

use crate::command::Command;
use crate::fields::{split_u16, split_u32};
use crate::head::RequestHead;
use crate::header::HEADER_LENGTH;
use crate::pldm_error::PldmError;
use crate::transfer::TransferOperation;
use byteorder::{ByteOrder, LittleEndian};
use mctp_transport::Wire;

/// A request for a part of a record: 17 bytes. Behind the header stand the record handle (4 bytes), the data transfer
/// handle (4), the transfer operation flag (1), the most bytes that the part may have (2) and the record change number
/// (2), each with its lowest byte first (DSP0248, GetPDR).
#[derive(Clone, Copy, Debug, PartialEq, Eq)]
pub struct GetPdrRequest {
    /// What the sender chooses of the first four bytes.
    pub head: RequestHead,
    /// Four bytes: the record's handle, 0 for the first record.
    pub record_handle: u32,
    /// Four bytes: where the part begins. Of no meaning for a first part.
    pub data_transfer_handle: u32,
    /// One byte: whether a first or a next part is asked for.
    pub operation: TransferOperation,
    /// Two bytes: how many bytes of the record the answer may have at most.
    pub request_count: u16,
    /// Two bytes: the change number that the record's first part had. Of no meaning for a first part.
    pub record_change_number: u16,
    pub ghost record_in_range: { record_handle < 2 ^ 32 },
    pub ghost transfer_in_range: { data_transfer_handle < 2 ^ 32 },
    pub ghost count_in_range: { request_count < 2 ^ 16 },
    pub ghost change_in_range: { record_change_number < 2 ^ 16 },
}

impl GetPdrRequest {
    /// How many bytes a request has.
    pub const LENGTH: usize = HEADER_LENGTH + 13;
}

impl<'a> Wire<'a> for GetPdrRequest {
    ghost use Rattle.std.{specs.Prelude.{◌≡◌, ◌++◌, ℕ, List, length, drop, IfOk, IsOkAnd}, specs.Result.{result_err}};
    ghost use Rattle.mctp_transport.specs.Wire.{Spells};
    ghost use Rattle.pldm_message.{specs.Messages.{RequestMessage}, specs.Pdrs.{PartRequest, IsGetPdrRequest, get_pdr_request_bytes}, specs.PdrLaws.{one_get_pdr_request}, specs.PdrValues.{get_pdr_request}, specs.Faults.{MessageFault, IsRequestOf}};
    ghost use Rattle.pldm_message.specs.declared.command.Command.TheVariants as command;

    type Error = PldmError;

    ghost Meaning = { RequestMessage PartRequest };

    ghost meaning = { get_pdr_request };

    ghost IsLawful = { IsGetPdrRequest };

    ghost spelling = { get_pdr_request_bytes };

    /// The request that the bytes are, all of them. Else the first cause, where L06 stands for another PLDM type,
    /// command or direction, and L04 for another length than 17 bytes.
    #[tactic(auto, using(crate::specs::PdrLaws::one_get_pdr_request))]
    fn read(bytes: &'a [u8]) -> Result<Self, PldmError>
        ensures ok { IfOk result (λ r. Spells IsGetPdrRequest get_pdr_request_bytes (get_pdr_request r) bytes.now) }
        ensures all { (m : RequestMessage PartRequest) → Spells IsGetPdrRequest get_pdr_request_bytes m bytes.now → IsOkAnd result (λ r. get_pdr_request r ≡ m) }
        ensures fault { MessageFault (IsRequestOf command.GetPdr bytes.now) 17 bytes.now (result_err result) }
    {
        let (head, data) = RequestHead::read(bytes, Command::GetPdr)?;
        let (record_handle, data) = split_u32(data)?;
        let (data_transfer_handle, data) = split_u32(data)?;
        let [operation, data @ ..] = data else {
            return Err(PldmError::Length);
        };
        let (request_count, data) = split_u16(data)?;
        let (record_change_number, data) = split_u16(data)?;
        if !data.is_empty() {
            return Err(PldmError::Length);
        }
        Ok(GetPdrRequest {
            head,
            record_handle,
            data_transfer_handle,
            operation: TransferOperation::new(*operation),
            request_count,
            record_change_number,
        })
    }

    fn len(&self) -> usize {
        GetPdrRequest::LENGTH
    }

    fn put(&self, out: &mut [u8]) -> usize {
        self.head.put(Command::GetPdr, out);
        LittleEndian::write_u32(&mut out[4..], self.record_handle);
        LittleEndian::write_u32(&mut out[8..], self.data_transfer_handle);
        out[12] = self.operation.value;
        LittleEndian::write_u16(&mut out[13..], self.request_count);
        LittleEndian::write_u16(&mut out[15..], self.record_change_number);
        GetPdrRequest::LENGTH
    }

    ghost one_value = { one_get_pdr_request };
}
