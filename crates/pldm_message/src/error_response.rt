//! Answers that have a completion code alone.
ghost use Rattle.std.specs.Prelude.{◌≡◌};
ghost use Rattle.pldm_message.specs.declared.kind.MessageKind.TheVariants as kind;

use crate::completion_code::CompletionCode;
use crate::head::OUTCOME_LENGTH;
use crate::header::{HEADER_LENGTH, PldmHeader};
use crate::kind::MessageKind;
use crate::pldm_error::PldmError;
use mctp_transport::Wire;

/// The answer to a request that is not carried out, whatever its command is: the header and a completion code other
/// than 0, 5 bytes (DSP0240, PLDM message fields). Where a command has an answer of its own here, that one can say the
/// same.
#[derive(Clone, Copy, Debug, PartialEq, Eq)]
pub struct ErrorResponse {
    /// The first four bytes, the header of a response.
    pub header: PldmHeader,
    /// Byte 4: the completion code.
    pub code: CompletionCode,
    pub ghost response: { header.kind ≡ kind.Response },
}

impl<'a> Wire<'a> for ErrorResponse {
    ghost use Rattle.std.{specs.Prelude.{◌≡◌, ◌++◌, ℕ, List, length, drop, IfOk, IsOkAnd}, specs.Result.{result_err}};
    ghost use Rattle.mctp_transport.specs.Wire.{Spells};
    ghost use Rattle.pldm_message.{specs.ErrorResponses.{ErrorMessage, IsErrorResponse, error_response_bytes, ErrorResponseFault}, specs.ErrorResponseLaws.{one_error_response}, specs.ErrorResponseValues.{error_response}};

    type Error = PldmError;

    ghost Meaning = { ErrorMessage };

    ghost meaning = { error_response };

    ghost IsLawful = { IsErrorResponse };

    ghost spelling = { error_response_bytes };

    /// The answer that the bytes are, all of them. A success has the wrong length here: what follows its code depends
    /// on the command.
    #[tactic(auto, using(crate::specs::ErrorResponseLaws::one_error_response))]
    fn read(bytes: &'a [u8]) -> Result<Self, PldmError>
        ensures ok { IfOk result (λ a. Spells IsErrorResponse error_response_bytes (error_response a) bytes.now) }
        ensures all { (m : ErrorMessage) → Spells IsErrorResponse error_response_bytes m bytes.now → IsOkAnd result (λ a. error_response a ≡ m) }
        ensures fault { ErrorResponseFault bytes.now (result_err result) }
    {
        let header = PldmHeader::front(bytes)?;
        if header.kind != MessageKind::Response {
            return Err(PldmError::OtherMessage);
        }
        match &bytes[HEADER_LENGTH..] {
            [code @ 1..] => Ok(ErrorResponse {
                header,
                code: CompletionCode::new(*code),
            }),
            _ => Err(PldmError::Length),
        }
    }

    fn len(&self) -> usize {
        OUTCOME_LENGTH
    }

    fn put(&self, out: &mut [u8]) -> usize {
        let _ = self.header.put(out);
        out[HEADER_LENGTH] = self.code.value;
        OUTCOME_LENGTH
    }

    ghost one_value = { one_error_response };
}
