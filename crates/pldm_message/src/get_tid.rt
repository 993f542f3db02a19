//! Requests for a terminus ID, and their answers.
ghost use Rattle.std.{specs.Prelude.{◌≡◌, ◌++◌, ℕ, List, length, drop, IfOk, IsOkAnd}, specs.Result.{result_err}};
ghost use Rattle.mctp_transport.specs.Wire.{Spells};
ghost use Rattle.pldm_message.{specs.Messages.{RequestMessage, ResponseMessage}, specs.BaseCommands.{IsGetTid, get_tid_bytes, IsGetTidResponse, get_tid_answer_bytes}, specs.BaseCommandLaws.{one_get_tid, one_get_tid_answer}, specs.BaseCommandValues.{get_tid, get_tid_answer}, specs.Faults.{MessageFault, IsRequestOf, IsAnswerOf, answer_length}};
ghost use Rattle.pldm_message.specs.declared.command.Command.TheVariants as command;

use crate::command::Command;
use crate::completion_code::{CompletionCode, SUCCESS};
use crate::head::{OUTCOME_LENGTH, RequestHead, ResponseHead};
use crate::header::HEADER_LENGTH;
use crate::pldm_error::PldmError;
use crate::tid::Tid;
use mctp_transport::Wire;

/// A request for a terminus's ID: the header alone, 4 bytes (DSP0240, GetTID).
#[derive(Clone, Copy, Debug, PartialEq, Eq)]
pub struct GetTid {
    /// What the sender chooses of the first four bytes.
    pub head: RequestHead,
}

impl<'a> Wire<'a> for GetTid {
    type Error = PldmError;

    ghost Meaning = { RequestMessage (Unit {0}) };

    ghost meaning = { get_tid };

    ghost IsLawful = { IsGetTid };

    ghost spelling = { get_tid_bytes };

    /// The request that the bytes are, all of them. Else the first cause, where L06 stands for another PLDM type,
    /// command or direction, and L04 for another length than 4 bytes.
    fn read(bytes: &'a [u8]) -> Result<Self, PldmError>
        ensures ok { IfOk result (λ r. Spells IsGetTid get_tid_bytes (get_tid r) bytes.now) }
        ensures all { (m : RequestMessage (Unit {0})) → Spells IsGetTid get_tid_bytes m bytes.now → IsOkAnd result (λ r. get_tid r ≡ m) }
        ensures fault { MessageFault (IsRequestOf command.GetTid bytes.now) 4 bytes.now (result_err result) }
    {
        let (head, data) = RequestHead::read(bytes, Command::GetTid)?;
        if !data.is_empty() {
            return Err(PldmError::Length);
        }
        Ok(GetTid { head })
    }

    fn len(&self) -> usize {
        HEADER_LENGTH
    }

    fn put(&self, out: &mut [u8]) -> usize {
        self.head.put(Command::GetTid, out);
        HEADER_LENGTH
    }

    ghost one_value = { one_get_tid };
}

/// The answer to a request for a terminus ID: the header, the completion code 0 and the ID, 6 bytes; or another
/// completion code alone, 5 bytes (DSP0240, GetTID).
#[derive(Clone, Copy, Debug, PartialEq, Eq)]
pub struct GetTidAnswer {
    /// What the sender chooses of the first four bytes.
    pub head: ResponseHead,
    /// Byte 4 and what follows: one byte of a terminus ID, or another completion code.
    pub outcome: Result<Tid, CompletionCode>,
}

impl<'a> Wire<'a> for GetTidAnswer {
    type Error = PldmError;

    ghost Meaning = { ResponseMessage ℕ };

    ghost meaning = { get_tid_answer };

    ghost IsLawful = { IsGetTidResponse };

    ghost spelling = { get_tid_answer_bytes };

    /// The answer that the bytes are, all of them.
    fn read(bytes: &'a [u8]) -> Result<Self, PldmError>
        ensures ok { IfOk result (λ a. Spells IsGetTidResponse get_tid_answer_bytes (get_tid_answer a) bytes.now) }
        ensures all { (m : ResponseMessage ℕ) → Spells IsGetTidResponse get_tid_answer_bytes m bytes.now → IsOkAnd result (λ a. get_tid_answer a ≡ m) }
        ensures fault { MessageFault (IsAnswerOf command.GetTid bytes.now) (answer_length 6 bytes.now) bytes.now (result_err result) }
    {
        let (head, outcome) = ResponseHead::read(bytes, Command::GetTid)?;
        match outcome {
            Err(code) => Ok(GetTidAnswer {
                head,
                outcome: Err(code),
            }),
            Ok([tid]) => Ok(GetTidAnswer {
                head,
                outcome: Ok(Tid::new(*tid)),
            }),
            Ok(_) => Err(PldmError::Length),
        }
    }

    fn len(&self) -> usize {
        match &self.outcome {
            Ok(_) => OUTCOME_LENGTH + 1,
            Err(_) => OUTCOME_LENGTH,
        }
    }

    fn put(&self, out: &mut [u8]) -> usize {
        match &self.outcome {
            Ok(tid) => {
                self.head.put(Command::GetTid, SUCCESS, out);
                out[OUTCOME_LENGTH] = tid.value;
                OUTCOME_LENGTH + 1
            }
            Err(code) => {
                self.head.put(Command::GetTid, code.value, out);
                OUTCOME_LENGTH
            }
        }
    }

    ghost one_value = { one_get_tid_answer };
}
