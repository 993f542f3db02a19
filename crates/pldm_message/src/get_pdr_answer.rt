//! Answers to requests for parts of platform descriptor records.

use crate::command::Command;
use crate::completion_code::{CompletionCode, SUCCESS};
use crate::head::{OUTCOME_LENGTH, ResponseHead};
use crate::pdr_part::PdrPart;
use crate::pldm_error::PldmError;
use mctp_transport::Wire;

/// The answer to a request for a part of a record: the header, the completion code 0 and the part, which is 16 bytes,
/// those of the record and perhaps a check byte; or another completion code alone, 5 bytes (DSP0248, GetPDR).
#[derive(Clone, Copy, Debug)]
pub struct GetPdrAnswer<'a> {
    /// What the sender chooses of the first four bytes.
    pub head: ResponseHead,
    /// Byte 4 and what follows: a part of a record, or another completion code.
    pub outcome: Result<PdrPart<'a>, CompletionCode>,
}

impl<'a> Wire<'a> for GetPdrAnswer<'a> {
    ghost use Rattle.std.{specs.Prelude.{◌≡◌, ◌++◌, ℕ, List, length, drop, IfOk, IsOkAnd}, specs.Result.{result_err}};
    ghost use Rattle.mctp_transport.specs.Wire.{Spells};
    ghost use Rattle.pldm_message.{specs.Messages.{ResponseMessage}, specs.Pdrs.{Part, IsGetPdrResponse, get_pdr_answer_bytes, part_answer_length}, specs.PdrLaws.{one_get_pdr_answer}, specs.PdrValues.{get_pdr_answer}, specs.Faults.{MessageFault, IsAnswerOf, answer_length}};
    ghost use Rattle.pldm_message.specs.declared.command.Command.TheVariants as command;

    type Error = PldmError;

    ghost Meaning = { ResponseMessage Part };

    ghost meaning = { get_pdr_answer };

    ghost IsLawful = { IsGetPdrResponse };

    ghost spelling = { get_pdr_answer_bytes };

    /// The answer that the bytes are, all of them. The part's bytes stay where they are. Else the first cause, where
    /// L06 stands for another PLDM type, command or direction, and L04 for a length that is not the one of its
    /// completion code, its flag and its count.
    #[tactic(auto, using(crate::specs::PdrLaws::one_get_pdr_answer))]
    fn read(bytes: &'a [u8]) -> Result<Self, PldmError>
        ensures ok { IfOk result (λ a. Spells IsGetPdrResponse get_pdr_answer_bytes (get_pdr_answer a) bytes.now) }
        ensures all { (m : ResponseMessage Part) → Spells IsGetPdrResponse get_pdr_answer_bytes m bytes.now → IsOkAnd result (λ a. get_pdr_answer a ≡ m) }
        ensures fault { MessageFault (IsAnswerOf command.GetPdr bytes.now) (answer_length (part_answer_length bytes.now) bytes.now) bytes.now (result_err result) }
    {
        let (head, outcome) = ResponseHead::read(bytes, Command::GetPdr)?;
        match outcome {
            Err(code) => Ok(GetPdrAnswer {
                head,
                outcome: Err(code),
            }),
            Ok(data) => {
                let part = PdrPart::read(data)?;
                Ok(GetPdrAnswer {
                    head,
                    outcome: Ok(part),
                })
            }
        }
    }

    fn len(&self) -> usize {
        match &self.outcome {
            Ok(part) => OUTCOME_LENGTH + part.len(),
            Err(_) => OUTCOME_LENGTH,
        }
    }

    fn put(&self, out: &mut [u8]) -> usize {
        match &self.outcome {
            Ok(part) => {
                self.head.put(Command::GetPdr, SUCCESS, out);
                OUTCOME_LENGTH + part.put(&mut out[OUTCOME_LENGTH..])
            }
            Err(code) => {
                self.head.put(Command::GetPdr, code.value, out);
                OUTCOME_LENGTH
            }
        }
    }

    ghost one_value = { one_get_pdr_answer };
}
