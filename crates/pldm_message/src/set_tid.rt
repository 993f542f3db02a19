//! Requests to set a terminus ID, and their answers.
ghost use Rattle.std.{specs.Prelude.{◌≡◌, ◌++◌, ℕ, List, length, drop, IfOk, IsOkAnd}, specs.Result.{result_err}};
ghost use Rattle.mctp_transport.specs.Wire.{Spells};
ghost use Rattle.pldm_message.{specs.Messages.{RequestMessage, ResponseMessage}, specs.BaseCommands.{IsSetTid, set_tid_bytes, IsSetTidResponse, set_tid_answer_bytes}, specs.BaseCommandLaws.{one_set_tid, one_set_tid_answer}, specs.BaseCommandValues.{set_tid, set_tid_answer}, specs.Faults.{MessageFault, IsRequestOf, IsAnswerOf, answer_length}};
ghost use Rattle.pldm_message.specs.declared.command.Command.TheVariants as command;

use crate::command::Command;
use crate::completion_code::{CompletionCode, SUCCESS};
use crate::head::{OUTCOME_LENGTH, RequestHead, ResponseHead};
use crate::header::HEADER_LENGTH;
use crate::pldm_error::PldmError;
use crate::tid::Tid;
use mctp_transport::Wire;

/// A request that a terminus takes this ID: the header and the ID, 5 bytes (DSP0240, SetTID).
#[derive(Clone, Copy, Debug, PartialEq, Eq)]
pub struct SetTid {
    /// What the sender chooses of the first four bytes.
    pub head: RequestHead,
    /// Byte 4, any byte: a terminus refuses those that it cannot take.
    pub tid: Tid,
}

impl<'a> Wire<'a> for SetTid {
    type Error = PldmError;

    ghost Meaning = { RequestMessage ℕ };

    ghost meaning = { set_tid };

    ghost IsLawful = { IsSetTid };

    ghost spelling = { set_tid_bytes };

    /// The request that the bytes are, all of them. Else the first cause, where L06 stands for another PLDM type,
    /// command or direction, and L04 for another length than 5 bytes.
    fn read(bytes: &'a [u8]) -> Result<Self, PldmError>
        ensures ok { IfOk result (λ r. Spells IsSetTid set_tid_bytes (set_tid r) bytes.now) }
        ensures all { (m : RequestMessage ℕ) → Spells IsSetTid set_tid_bytes m bytes.now → IsOkAnd result (λ r. set_tid r ≡ m) }
        ensures fault { MessageFault (IsRequestOf command.SetTid bytes.now) 5 bytes.now (result_err result) }
    {
        let (head, data) = RequestHead::read(bytes, Command::SetTid)?;
        let [tid] = data else {
            return Err(PldmError::Length);
        };
        let tid = Tid::new(*tid);
        Ok(SetTid { head, tid })
    }

    fn len(&self) -> usize {
        HEADER_LENGTH + 1
    }

    fn put(&self, out: &mut [u8]) -> usize {
        self.head.put(Command::SetTid, out);
        out[HEADER_LENGTH] = self.tid.value;
        HEADER_LENGTH + 1
    }

    ghost one_value = { one_set_tid };
}

/// The answer to a request to set a terminus ID: the header and a completion code, 5 bytes (DSP0240, SetTID).
#[derive(Clone, Copy, Debug, PartialEq, Eq)]
pub struct SetTidAnswer {
    /// What the sender chooses of the first four bytes.
    pub head: ResponseHead,
    /// Byte 4: success, or another completion code.
    pub outcome: Result<(), CompletionCode>,
}

impl<'a> Wire<'a> for SetTidAnswer {
    type Error = PldmError;

    ghost Meaning = { ResponseMessage (Unit {0}) };

    ghost meaning = { set_tid_answer };

    ghost IsLawful = { IsSetTidResponse };

    ghost spelling = { set_tid_answer_bytes };

    /// The answer that the bytes are, all of them.
    fn read(bytes: &'a [u8]) -> Result<Self, PldmError>
        ensures ok { IfOk result (λ a. Spells IsSetTidResponse set_tid_answer_bytes (set_tid_answer a) bytes.now) }
        ensures all { (m : ResponseMessage (Unit {0})) → Spells IsSetTidResponse set_tid_answer_bytes m bytes.now → IsOkAnd result (λ a. set_tid_answer a ≡ m) }
        ensures fault { MessageFault (IsAnswerOf command.SetTid bytes.now) (answer_length 5 bytes.now) bytes.now (result_err result) }
    {
        let (head, outcome) = ResponseHead::read(bytes, Command::SetTid)?;
        match outcome {
            Err(code) => Ok(SetTidAnswer {
                head,
                outcome: Err(code),
            }),
            Ok([]) => Ok(SetTidAnswer {
                head,
                outcome: Ok(()),
            }),
            Ok(_) => Err(PldmError::Length),
        }
    }

    fn len(&self) -> usize {
        OUTCOME_LENGTH
    }

    fn put(&self, out: &mut [u8]) -> usize {
        match &self.outcome {
            Ok(()) => self.head.put(Command::SetTid, SUCCESS, out),
            Err(code) => self.head.put(Command::SetTid, code.value, out),
        }
        OUTCOME_LENGTH
    }

    ghost one_value = { one_set_tid_answer };
}
