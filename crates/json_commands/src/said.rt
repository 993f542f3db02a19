//! What the commands answer: a JSON value, in a line of its own.
ghost use Rattle.std.{specs.Prelude.{◌≡◌, IfOk, string_bytes}, specs.Cow.{cow_str_bytes}};
ghost use Rattle.serde_json.specs.View.{view};
ghost use Rattle.json_commands.specs.Answers.{IsLineOf};

use command_answers::{Answer, Status};
use serde_json::Value;
use std::alloc::{AllocError, Global};

/// What a command answers, and how the run ends.
#[derive(Drop)]
pub struct Said {
    pub status: Status,
    pub value: Value,
}

/// The answer: the line of the value.
pub fn answer_of(alloc: Global, said: &Said) -> Result<Answer, AllocError>
    ensures { IfOk result (λ answer. (answer.status ≡ said.now.status) × IsLineOf (view said.now.value) (cow_str_bytes answer.text)) }
{
    let text = line_of(alloc, &said.value)?;
    match said.status {
        Status::Yes => Ok(Answer::found(text)),
        Status::Fault => Ok(Answer::fault(text)),
        Status::Unreadable => Ok(Answer::unread(text)),
        Status::NoMemory => Err(AllocError),
    }
}

/// The line of a JSON value.
fn line_of(alloc: Global, value: &Value) -> Result<String, AllocError>
    ensures { IfOk result (λ text. IsLineOf (view value.now) (string_bytes text)) }
{
    let mut text = value.to_string(alloc)?;
    text.push_str("\n")?;
    Ok(text)
}
