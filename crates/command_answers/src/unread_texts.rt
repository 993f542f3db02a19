//! What is explained where a file can't be read.
ghost use Rattle.std.{specs.Prelude.{◌≡◌, ◌++◌, IfOk, IfErr, string_bytes}, specs.Cow.{cow_str_bytes}};
ghost use Rattle.command_answers.{specs.declared.status.Status.TheVariants.{Unreadable}, specs.Statuses.{role_of}, specs.UnreadTexts.{IsWrittenOf}};
ghost use Rattle.reading_texts.specs.ReadingLines.{unread_line};

use crate::answer::Answer;
use crate::inputs::Unread;
use crate::refused::{Input, Refused};
use net_plan::PlanError;
use reading_texts::unread_line;
use std::alloc::{AllocError, Global};

/// What is said of a file that can't be opened or read.
const FAILED: &str = "The file can't be opened or read.\n";

/// What is said of a text that is longer than a text may be.
const LONG: &str = "The text is longer than 16777216 bytes.\n";

/// The answer where a source gave nothing to read for an input.
pub fn unread_answer(alloc: Global, input: Input, unread: &Unread) -> Result<Answer, Refused>
    ensures answers { IfOk result (λ answer. (answer.status ≡ Unreadable) × IsWrittenOf input unread.now (cow_str_bytes answer.text)) }
    ensures refused { IfErr result (λ why. why ≡ Refused.NoMemory) }
{
    Ok(Answer::unread(unread_text(alloc, input, unread)?))
}

/// Says why a source gave nothing to read for an input, and where its text has its first fault.
pub fn unread_text(alloc: Global, input: Input, unread: &Unread) -> Result<String, AllocError>
    ensures { IfOk result (λ text. IsWrittenOf input unread.now (string_bytes text)) }
{
    match unread {
        Unread::NoMemory => Err(AllocError),
        Unread::Failed => unread_lines(alloc, input, PlanError::Device, FAILED),
        Unread::TooLong => unread_lines(alloc, input, PlanError::OverLimit, LONG),
        Unread::Text { fault, .. } => {
            unread_lines(alloc, input, fault.trouble.cause(), &fault.lines)
        }
    }
}

/// The line that tells that an input can't be read, and lines that explain it.
fn unread_lines(
    alloc: Global,
    input: Input,
    cause: PlanError,
    lines: &str,
) -> Result<String, AllocError>
    ensures { IfOk result (λ text. string_bytes text ≡ unread_line (role_of input) cause ++ lines.now) }
{
    let mut text = unread_line(alloc, input.role(), cause)?;
    text.push_str(lines)?;
    Ok(text)
}
