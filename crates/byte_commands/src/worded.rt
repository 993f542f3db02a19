//! Commands that answer on words alone: `describe` and `record`.
ghost use Rattle.std.{specs.Prelude.{◌≡◌, IfOk, IfErr, map, string_bytes}, specs.Cow.{cow_str_bytes}};
ghost use Rattle.net_plan.specs.Stream.{HasRoom};
ghost use Rattle.command_answers.{specs.Answers.{stream}, specs.Told.{Concludes}};
ghost use Rattle.byte_commands.specs.Worded.{AnswersWords, IsUnansweredByWords};

pub mod cleaned;
mod describe;
mod record;

use command_answers::{Answer, Refused, Status, tell};
use command_questions::WordQuestion;
use describe::described;
use net_plan::Sink;
use record::recorded;
use std::alloc::Global;

/// Answers a question on `output`. Where the words can't be read, says so on `errors`.
pub fn run_worded<O: Sink, E: Sink>(
    alloc: Global,
    question: WordQuestion,
    words: &[String],
    output: &mut O,
    errors: &mut E,
) -> Status
    requires output { HasRoom (O.account output.old) }
    requires errors { HasRoom (E.account errors.old) }
    ensures concludes { let said = map string_bytes words.now in
        Concludes (AnswersWords question said) (IsUnansweredByWords question said) result
        (stream O.account output.old output.new) (stream E.account errors.old errors.new)
        (output.new ≡ output.old) (errors.new ≡ errors.old) }
{
    let answered = answer_worded(alloc, question, words);
    tell(alloc, answered, output, errors)
}

fn answer_worded(alloc: Global, question: WordQuestion, words: &[String]) -> Result<Answer, Refused>
    ensures answers { IfOk result (λ answer. AnswersWords question (map string_bytes words.now) answer.status (cow_str_bytes answer.text)) }
    ensures refused { IfErr result (IsUnansweredByWords question (map string_bytes words.now)) }
{
    match question {
        WordQuestion::Describe => described(alloc, words),
        WordQuestion::Record => recorded(alloc, words),
    }
}
