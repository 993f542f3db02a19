//! What the headers of requests and answers say besides their command (DSP0240, PLDM message fields), and the fronts
//! of both.
ghost use Rattle.std.specs.Prelude.{◌≡◌, ◌≤◌, ◌++◌, ◌∷◌, [], length, drop};

use crate::command::Command;
use crate::completion_code::CompletionCode;
use crate::header::{HEADER_LENGTH, PldmHeader};
use crate::instance::InstanceId;
use crate::kind::{MessageKind, RequestKind};
use crate::pldm_error::PldmError;
use mctp_transport::Wire;

/// The bytes of an answer up to its completion code, which is the last of them.
pub const OUTCOME_LENGTH: usize = HEADER_LENGTH + 1;

/// What a request's header says besides its command.
#[derive(Clone, Copy, Debug, PartialEq, Eq)]
pub struct RequestHead {
    /// Byte 1, bits 7 and 6: a request, or a request that wants no answer.
    pub kind: RequestKind,
    /// Byte 1, bit 5, as it was read.
    pub reserved: bool,
    /// Byte 1, bits 4 to 0: the instance ID.
    pub instance: InstanceId,
}

impl RequestHead {
    ghost use Rattle.std.{specs.Prelude.{◌≡◌, List, ℕ, IfOk, IsOkAnd, None, false}, specs.Result.{result_err}};
    ghost use Rattle.mctp_transport.specs.Wire.{Spells};
    ghost use Rattle.pldm_message.{specs.Headers.{header_bytes}, specs.HeaderValues.{header_value}, specs.Messages.{RequestMessage, IsRequest, IsAny, request_bytes, request_header, itself}, specs.Heads.{request_head, request_of}, specs.Faults.{IsRequestOf, WantedFault}};

    /// The head of a request that is to be answered, with the reserved bit clear.
    pub fn new(instance: InstanceId) -> Self
        ensures { request_head result ≡ record { kind = RequestKind.Request; reserved = false; instance = instance.value } }
    {
        RequestHead {
            kind: RequestKind::Request,
            reserved: false,
            instance,
        }
    }

    /// The header of a request with this command.
    pub fn header(self, command: Command) -> PldmHeader
        ensures { header_value result ≡ request_header command (request_head self) }
    {
        PldmHeader {
            kind: self.kind.message_kind(),
            reserved: self.reserved,
            instance: self.instance,
            pldm_type: command.pldm_type(),
            command: command.byte(),
        }
    }

    /// The head and the data of a request with this command, whatever its data are.
    pub fn read(message: &[u8], command: Command) -> Result<(RequestHead, &[u8]), PldmError>
        ensures ok { IfOk result (λ r. Spells (IsRequest IsAny) (request_bytes command itself) (request_of r.0 r.1.now) message.now) }
        ensures all { (m : RequestMessage (List ℕ)) → Spells (IsRequest IsAny) (request_bytes command itself) m message.now → IsOkAnd result (λ r. request_of r.0 r.1.now ≡ m) }
        ensures fault { WantedFault (IsRequestOf command message.now) message.now (result_err result) (result_err result ≡ None) }
    {
        let header = PldmHeader::front(message)?;
        let kind = match header.kind {
            MessageKind::Request => RequestKind::Request,
            MessageKind::Datagram => RequestKind::Datagram,
            MessageKind::Response => return Err(PldmError::OtherMessage),
        };
        if !header.is_of(command) {
            return Err(PldmError::OtherMessage);
        }
        let head = RequestHead {
            kind,
            reserved: header.reserved,
            instance: header.instance,
        };
        Ok((head, &message[HEADER_LENGTH..]))
    }

    /// Writes the header of a request with this command at the front of `out`, which has at least 4 bytes.
    pub fn put(self, command: Command, out: &mut [u8])
        requires { 4 ≤ length out.old }
        ensures { out.new ≡ header_bytes (request_header command (request_head self)) ++ drop 4 out.old }
    {
        let _ = self.header(command).put(out);
    }
}

/// What an answer's header says besides its command.
#[derive(Clone, Copy, Debug, PartialEq, Eq)]
pub struct ResponseHead {
    /// Byte 1, bit 5, as it was read.
    pub reserved: bool,
    /// Byte 1, bits 4 to 0: the instance ID.
    pub instance: InstanceId,
}

impl ResponseHead {
    ghost use Rattle.std.{specs.Prelude.{◌≡◌, List, ℕ, IfOk, IsOkAnd, None, false, length, max}, specs.Result.{result_err}};
    ghost use Rattle.mctp_transport.specs.Wire.{Spells};
    ghost use Rattle.pldm_message.{specs.Headers.{header_bytes}, specs.HeaderValues.{header_value}, specs.Messages.{ResponseMessage, IsAnswer, IsAny, answer_bytes, answer_header, itself}, specs.Heads.{answer_head, answer_of}, specs.Faults.{IsAnswerOf, MessageFault, answer_length}};

    /// The head of the answer to a request with this instance ID, with the reserved bit clear.
    pub fn new(instance: InstanceId) -> Self
        ensures { answer_head result ≡ record { reserved = false; instance = instance.value } }
    {
        ResponseHead {
            reserved: false,
            instance,
        }
    }

    /// The header of an answer to a request with this command.
    pub fn header(self, command: Command) -> PldmHeader
        ensures { header_value result ≡ answer_header command (answer_head self) }
    {
        PldmHeader {
            kind: MessageKind::Response,
            reserved: self.reserved,
            instance: self.instance,
            pldm_type: command.pldm_type(),
            command: command.byte(),
        }
    }

    /// The head and the outcome of an answer to a request with this command, whatever the data of a success are. A
    /// message with no completion code, or with more than that where it isn't 0, has the wrong length.
    pub fn read(
        message: &[u8],
        command: Command,
    ) -> Result<(ResponseHead, Result<&[u8], CompletionCode>), PldmError>
        ensures ok { IfOk result (λ r. Spells (IsAnswer IsAny) (answer_bytes command itself) (answer_of (λ b. b.now) r.0 r.1) message.now) }
        ensures all { (m : ResponseMessage (List ℕ)) → Spells (IsAnswer IsAny) (answer_bytes command itself) m message.now → IsOkAnd result (λ r. answer_of (λ b. b.now) r.0 r.1 ≡ m) }
        ensures fault { MessageFault (IsAnswerOf command message.now) (answer_length (max 5 (length message.now)) message.now) message.now (result_err result) }
    {
        let header = PldmHeader::front(message)?;
        if header.kind != MessageKind::Response || !header.is_of(command) {
            return Err(PldmError::OtherMessage);
        }
        let head = ResponseHead {
            reserved: header.reserved,
            instance: header.instance,
        };
        match &message[HEADER_LENGTH..] {
            [0, data @ ..] => Ok((head, Ok(data))),
            [code] => Ok((head, Err(CompletionCode::new(*code)))),
            _ => Err(PldmError::Length),
        }
    }

    /// Writes the header of an answer to a request with this command at the front of `out`, and a completion code.
    /// `out` has at least 5 bytes.
    pub fn put(self, command: Command, code: u8, out: &mut [u8])
        requires { 5 ≤ length out.old }
        ensures { out.new ≡ header_bytes (answer_header command (answer_head self)) ++ code ∷ [] ++ drop 5 out.old }
    {
        let _ = self.header(command).put(out);
        out[HEADER_LENGTH] = code;
    }
}
