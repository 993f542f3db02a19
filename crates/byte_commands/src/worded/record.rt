//! The command `record`: the bytes of a record whose fields words say.
ghost use Rattle.std.{specs.Prelude.{◌≡◌, IfOk, IfErr, map, string_bytes}, specs.Cow.{cow_str_bytes}};
ghost use Rattle.command_questions.specs.declared.words.WordQuestion.TheVariants.{Record};
ghost use Rattle.byte_commands.specs.Worded.{AnswersWords, IsUnansweredByWords, hex_line};

use command_answers::{Answer, Refused};
use record_fields::{MakeError, made_record};
use std::alloc::{AllocError, Global};

/// The bytes of the record of the type that the first word names, with what the others say, as a line of hex.
pub fn recorded(alloc: Global, words: &[String]) -> Result<Answer, Refused>
    ensures answers { IfOk result (λ answer. AnswersWords Record (map string_bytes words.now) answer.status (cow_str_bytes answer.text)) }
    ensures refused { IfErr result (IsUnansweredByWords Record (map string_bytes words.now)) }
{
    let [kind, said @ ..] = words else {
        return Err(Refused::Usage);
    };
    match made_record(alloc, kind, said) {
        Ok(bytes) => Ok(Answer::found(hex_line(alloc, &bytes)?)),
        Err(MakeError::Wrong) => Err(Refused::Usage),
        Err(MakeError::OutOfMemory) => Err(Refused::NoMemory),
    }
}

/// Bytes in hex.
fn hex_line(alloc: Global, bytes: &[u8]) -> Result<String, AllocError>
    ensures { IfOk result (λ line. string_bytes line ≡ hex_line bytes.now) }
{
    let digits = hex::encode(alloc, bytes)?;
    format!(in alloc; "{digits}\n")
}
