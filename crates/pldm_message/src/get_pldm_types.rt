//! Requests for the PLDM types of a terminus, and their answers.
ghost use Rattle.std.{specs.Prelude.{◌≡◌, ◌++◌, ℕ, List, length, drop, IfOk, IsOkAnd}, specs.Result.{result_err}};
ghost use Rattle.mctp_transport.specs.Wire.{Spells};
ghost use Rattle.pldm_message.{specs.Messages.{RequestMessage, ResponseMessage}, specs.BaseCommands.{IsGetPldmTypes, get_pldm_types_bytes, IsGetPldmTypesResponse, get_pldm_types_answer_bytes}, specs.BaseCommandLaws.{one_get_pldm_types, one_get_pldm_types_answer}, specs.BaseCommandValues.{get_pldm_types, get_pldm_types_answer}, specs.Faults.{MessageFault, IsRequestOf, IsAnswerOf, answer_length}};
ghost use Rattle.pldm_message.specs.declared.command.Command.TheVariants as command;

use crate::command::Command;
use crate::completion_code::{CompletionCode, SUCCESS};
use crate::head::{OUTCOME_LENGTH, RequestHead, ResponseHead};
use crate::header::HEADER_LENGTH;
use crate::pldm_error::PldmError;
use crate::pldm_types::{PldmTypes, TYPES_LENGTH};
use mctp_transport::Wire;

/// A request for the PLDM types of a terminus: the header alone, 4 bytes (DSP0240, GetPLDMTypes).
#[derive(Clone, Copy, Debug, PartialEq, Eq)]
pub struct GetPldmTypes {
    /// What the sender chooses of the first four bytes.
    pub head: RequestHead,
}

impl<'a> Wire<'a> for GetPldmTypes {
    type Error = PldmError;

    ghost Meaning = { RequestMessage (Unit {0}) };

    ghost meaning = { get_pldm_types };

    ghost IsLawful = { IsGetPldmTypes };

    ghost spelling = { get_pldm_types_bytes };

    /// The request that the bytes are, all of them. Else the first cause, where L06 stands for another PLDM type,
    /// command or direction, and L04 for another length than 4 bytes.
    fn read(bytes: &'a [u8]) -> Result<Self, PldmError>
        ensures ok { IfOk result (λ r. Spells IsGetPldmTypes get_pldm_types_bytes (get_pldm_types r) bytes.now) }
        ensures all { (m : RequestMessage (Unit {0})) → Spells IsGetPldmTypes get_pldm_types_bytes m bytes.now → IsOkAnd result (λ r. get_pldm_types r ≡ m) }
        ensures fault { MessageFault (IsRequestOf command.GetPldmTypes bytes.now) 4 bytes.now (result_err result) }
    {
        let (head, data) = RequestHead::read(bytes, Command::GetPldmTypes)?;
        if !data.is_empty() {
            return Err(PldmError::Length);
        }
        Ok(GetPldmTypes { head })
    }

    fn len(&self) -> usize {
        HEADER_LENGTH
    }

    fn put(&self, out: &mut [u8]) -> usize {
        self.head.put(Command::GetPldmTypes, out);
        HEADER_LENGTH
    }

    ghost one_value = { one_get_pldm_types };
}

/// The answer to a request for PLDM types: the header, the completion code 0 and eight bytes, of which bit j of byte i
/// says whether the terminus has type 8 i + j, 13 bytes; or another completion code alone, 5 bytes (DSP0240,
/// GetPLDMTypes).
#[derive(Clone, Copy, Debug, PartialEq, Eq)]
pub struct GetPldmTypesAnswer {
    /// What the sender chooses of the first four bytes.
    pub head: ResponseHead,
    /// Byte 4 and what follows: eight bytes of types, or another completion code.
    pub outcome: Result<PldmTypes, CompletionCode>,
}

impl<'a> Wire<'a> for GetPldmTypesAnswer {
    type Error = PldmError;

    ghost Meaning = { ResponseMessage (List ℕ) };

    ghost meaning = { get_pldm_types_answer };

    ghost IsLawful = { IsGetPldmTypesResponse };

    ghost spelling = { get_pldm_types_answer_bytes };

    /// The answer that the bytes are, all of them.
    fn read(bytes: &'a [u8]) -> Result<Self, PldmError>
        ensures ok { IfOk result (λ a. Spells IsGetPldmTypesResponse get_pldm_types_answer_bytes (get_pldm_types_answer a) bytes.now) }
        ensures all { (m : ResponseMessage (List ℕ)) → Spells IsGetPldmTypesResponse get_pldm_types_answer_bytes m bytes.now → IsOkAnd result (λ a. get_pldm_types_answer a ≡ m) }
        ensures fault { MessageFault (IsAnswerOf command.GetPldmTypes bytes.now) (answer_length 13 bytes.now) bytes.now (result_err result) }
    {
        let (head, outcome) = ResponseHead::read(bytes, Command::GetPldmTypes)?;
        match outcome {
            Err(code) => Ok(GetPldmTypesAnswer {
                head,
                outcome: Err(code),
            }),
            Ok(data) => {
                if data.len() != TYPES_LENGTH {
                    return Err(PldmError::Length);
                }
                Ok(GetPldmTypesAnswer {
                    head,
                    outcome: Ok(PldmTypes::of(data)),
                })
            }
        }
    }

    fn len(&self) -> usize {
        match &self.outcome {
            Ok(_) => OUTCOME_LENGTH + TYPES_LENGTH,
            Err(_) => OUTCOME_LENGTH,
        }
    }

    fn put(&self, out: &mut [u8]) -> usize {
        match &self.outcome {
            Ok(types) => {
                self.head.put(Command::GetPldmTypes, SUCCESS, out);
                let len = OUTCOME_LENGTH + TYPES_LENGTH;
                out[OUTCOME_LENGTH..len].copy_from_slice(&types.bits);
                len
            }
            Err(code) => {
                self.head.put(Command::GetPldmTypes, code.value, out);
                OUTCOME_LENGTH
            }
        }
    }

    ghost one_value = { one_get_pldm_types_answer };
}
