//! The command `describe`: every field of a record.
ghost use Rattle.std.{specs.Prelude.{◌≡◌, ◌⊎◌, IfOk, IfErr, map, string_bytes}, specs.Cow.{cow_str_bytes}};
ghost use Rattle.command_questions.specs.declared.words.WordQuestion.TheVariants.{Describe};
ghost use Rattle.byte_commands.{specs.Show.{IsDecoded, IsNoHex}, specs.Worded.{AnswersWords, IsUnansweredByWords, IsDescribed}};
ghost use Rattle.command_answers.specs.declared.refused.Refused.TheVariants as refused;

use crate::worded::cleaned::cleaned_text;
use command_answers::{Answer, Refused};
use hex::FromHexError;
use mctp_transport::Wire;
use pdr_record::Record;
use plan_texts::refused_text;
use record_fields::description;
use std::alloc::{AllocError, Global};

/// What each field of the record holds whose bytes the words are in hex, or why they are no record.
pub fn described(alloc: Global, words: &[String]) -> Result<Answer, Refused>
    ensures answers { IfOk result (λ answer. AnswersWords Describe (map string_bytes words.now) answer.status (cow_str_bytes answer.text)) }
    ensures refused { IfErr result (IsUnansweredByWords Describe (map string_bytes words.now)) }
{
    let hex = cleaned_text(alloc, words)?;
    let bytes = decoded(alloc, &hex)?;
    Ok(described_bytes(alloc, &bytes)?)
}

/// The bytes of a hex text.
fn decoded(alloc: Global, digits: &[u8]) -> Result<Vec<u8>, Refused>
    ensures decoded { IfOk result (λ bytes. IsDecoded digits.now bytes.items) }
    ensures refused { IfErr result (λ why. (why ≡ refused.NoMemory) ⊎ ((why ≡ refused.UnreadableHex) × IsNoHex digits.now)) }
{
    match hex::decode(alloc, digits) {
        Ok(bytes) => Ok(bytes),
        Err(FromHexError::OutOfMemory) => Err(Refused::NoMemory),
        Err(_) => Err(Refused::UnreadableHex),
    }
}

/// What each field of the record holds that the bytes are, or why they are none.
fn described_bytes(alloc: Global, bytes: &[u8]) -> Result<Answer, AllocError>
    ensures { IfOk result (λ answer. IsDescribed answer.status bytes.now (cow_str_bytes answer.text)) }
{
    match Record::read(bytes) {
        Ok(record) => Ok(Answer::found(description(alloc, &record)?)),
        Err(error) => Ok(Answer::fault(refused_text(alloc, error.code())?)),
    }
}
