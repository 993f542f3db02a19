//! Requests and answers that don't go together as they should.
ghost use Rattle.std.specs.Prelude.{◌≡◌, IfOk, Some, map, option_map, string_bytes};
ghost use Rattle.heard_captures.specs.Messages.{message_value};
ghost use Rattle.audited_captures.{specs.Lines.{line_value}, specs.Sayings.{saying_value}, specs.Talk.{Unasked, AreLinesBy, AreOwnerLines, AreOwnerLinesOf, AreTalkLines, IsSaidLine, IsSaidText, IsWhyOf, answered_saying, asked_saying, finding_of, kind_words, owner_words, receiver, saying_of, sender, tagged_words}, specs.Words.{is_question, word_value}};

use crate::exchanges::{Likeness, last_concerned, last_like};
use crate::lines::{Finding, Line};
use crate::names::name_of;
use crate::words::{Word, misowned};
use heard_captures::Message;
use mctp_transport::Eid;
use plan_values::Plan;
use std::alloc::{AllocError, Global};

/// What is told of a word.
#[derive(Clone, Copy, Debug)]
pub enum Saying<'w, 'm> {
    /// It asks once more what wasn't answered.
    AskedAgain,
    /// It answers once more.
    AnsweredAgain,
    /// It answers what nobody asked. The last request of its command before it, if there was one.
    Unasked(Option<&'w Word<'m>>),
}

/// The lines of requests that are repeated, and of answers that are, or that nobody asked for. Repetitions are remarks.
pub fn talk_lines(alloc: Global, plan: &Plan, words: &[Word]) -> Result<Vec<Line>, AllocError>
    ensures { IfOk result (λ lines. AreTalkLines plan.now (map word_value words.now) (map line_value lines.items)) }
{
    let mut lines = Vec::new(alloc);
    for i in 0..words.len() {
        let word = &words[i];
        let saying = saying_of(&words[..i], word);
        let mut more = lines_of(alloc, plan, word, saying)?;
        lines.append(&mut more)?;
    }
    Ok(lines)
}

/// What is told of a word, by the words before it.
fn saying_of<'w, 'm>(before: &'w [Word<'m>], word: &Word<'m>) -> Option<Saying<'w, 'm>>
    ensures { option_map saying_value result ≡ saying_of (map word_value before.now) (word_value word.now) }
{
    let earlier = last_concerned(before, word);
    if word.body.is_question() {
        asked_saying(word, earlier)
    } else {
        answered_saying(before, word, earlier)
    }
}

fn asked_saying<'w, 'm>(word: &Word<'m>, earlier: Option<&'w Word<'m>>) -> Option<Saying<'w, 'm>>
    ensures { option_map saying_value result ≡ asked_saying (word_value word.now) (option_map (λ w. word_value w.now) earlier.entry) }
{
    let earlier = earlier?;
    if earlier.body.is_question() && earlier.responder.value == word.responder.value {
        Some(Saying::AskedAgain)
    } else {
        None
    }
}

fn answered_saying<'w, 'm>(
    before: &'w [Word<'m>],
    word: &Word<'m>,
    earlier: Option<&'w Word<'m>>,
) -> Option<Saying<'w, 'm>>
    ensures { option_map saying_value result ≡ answered_saying (map word_value before.now) (word_value word.now) (option_map (λ w. word_value w.now) earlier.entry) }
{
    match earlier {
        None => Some(Saying::Unasked(last_like(before, word, Likeness::Command))),
        Some(earlier) if earlier.body.is_question() => None,
        Some(_) => Some(Saying::AnsweredAgain),
    }
}

fn lines_of(
    alloc: Global,
    plan: &Plan,
    word: &Word,
    saying: Option<Saying>,
) -> Result<Vec<Line>, AllocError>
    ensures { IfOk result (λ lines. AreLinesBy plan.now (word_value word.now) (option_map saying_value saying.entry) (map line_value lines.items)) }
{
    match saying {
        None => Ok(Vec::new(alloc)),
        Some(saying) => told_lines(alloc, plan, word, &saying),
    }
}

fn told_lines(
    alloc: Global,
    plan: &Plan,
    word: &Word,
    saying: &Saying,
) -> Result<Vec<Line>, AllocError>
    ensures { IfOk result (λ lines. AreLinesBy plan.now (word_value word.now) (Some (saying_value saying.now)) (map line_value lines.items)) }
{
    let why = why_words(alloc, plan, saying)?;
    said_lines(alloc, plan, word, &why, finding_of(saying))
}

/// Repetitions are remarks.
fn finding_of(saying: &Saying) -> Finding
    ensures { result ≡ finding_of (saying_value saying.now) }
{
    match saying {
        Saying::AskedAgain => Finding::Silent,
        Saying::AnsweredAgain => Finding::Silent,
        Saying::Unasked(_) => Finding::Differs,
    }
}

fn why_words(alloc: Global, plan: &Plan, saying: &Saying) -> Result<String, AllocError>
    ensures { IfOk result (λ why. IsWhyOf plan.now (saying_value saying.now) (string_bytes why)) }
{
    match saying {
        Saying::AskedAgain => String::from_str(alloc, "asked again"),
        Saying::AnsweredAgain => String::from_str(alloc, "answered again"),
        Saying::Unasked(None) => String::from_str(alloc, "nobody asked"),
        Saying::Unasked(Some(earlier)) => asked_words(alloc, plan, earlier),
    }
}

/// Who was asked instead, and how.
fn asked_words(alloc: Global, plan: &Plan, earlier: &Word) -> Result<String, AllocError>
    ensures { IfOk result (λ why. IsWhyOf plan.now (Unasked (Some (word_value earlier.now))) (string_bytes why)) }
{
    let name = name_of(alloc, plan, earlier.responder)?;
    let tagged = tagged_words(alloc, &name, earlier)?;
    format!(in alloc; "asked {tagged}")
}

/// An endpoint ID by its name, with the tag and the instance ID of a word.
fn tagged_words(alloc: Global, name: &str, word: &Word) -> Result<String, AllocError>
    ensures { IfOk result (λ text. string_bytes text ≡ tagged_words name.now (word_value word.now)) }
{
    let tag = word.tag.value;
    let instance = word.instance;
    format!(in alloc; "{name} tag {tag} instance {instance}")
}

/// The line of a word, with why it is told.
fn said_lines(
    alloc: Global,
    plan: &Plan,
    word: &Word,
    why: &str,
    finding: Finding,
) -> Result<Vec<Line>, AllocError>
    ensures { IfOk result (λ lines. IsSaidLine plan.now (word_value word.now) why.now finding (map line_value lines.items)) }
{
    let text = said_text(alloc, plan, word, why)?;
    let mut lines = Vec::new(alloc);
    lines.push(Line { text, finding })?;
    Ok(lines)
}

fn said_text(alloc: Global, plan: &Plan, word: &Word, why: &str) -> Result<String, AllocError>
    ensures { IfOk result (λ text. IsSaidText plan.now (word_value word.now) why.now (string_bytes text)) }
{
    let kind = kind_words(word);
    let from = name_of(alloc, plan, sender(word))?;
    let to = name_of(alloc, plan, receiver(word))?;
    let tagged = tagged_words(alloc, &to, word)?;
    format!(in alloc; "{kind} from {from} to {tagged}: {why}")
}

fn kind_words(word: &Word) -> &'static str
    ensures { result.now ≡ kind_words (is_question (word_value word.now).body) }
{
    if word.body.is_question() {
        "request"
    } else {
        "answer"
    }
}

/// The endpoint ID that sent a word.
fn sender(word: &Word) -> Eid
    ensures { result.value ≡ sender (word_value word.now) }
{
    if word.body.is_question() {
        word.requester
    } else {
        word.responder
    }
}

/// The endpoint ID to which a word went.
fn receiver(word: &Word) -> Eid
    ensures { result.value ≡ receiver (word_value word.now) }
{
    if word.body.is_question() {
        word.responder
    } else {
        word.requester
    }
}

/// The lines of messages whose senders say the wrong of who owns the tag.
pub fn owner_lines(
    alloc: Global,
    plan: &Plan,
    messages: &[Message],
) -> Result<Vec<Line>, AllocError>
    ensures { IfOk result (λ lines. AreOwnerLines plan.now (map message_value messages.now) (map line_value lines.items)) }
{
    let mut lines = Vec::new(alloc);
    for message in messages {
        let mut more = owner_lines_of(alloc, plan, message)?;
        lines.append(&mut more)?;
    }
    Ok(lines)
}

fn owner_lines_of(alloc: Global, plan: &Plan, message: &Message) -> Result<Vec<Line>, AllocError>
    ensures { IfOk result (λ lines. AreOwnerLinesOf plan.now (message_value message.now) (map line_value lines.items)) }
{
    match misowned(message) {
        None => Ok(Vec::new(alloc)),
        Some(word) => said_lines(alloc, plan, &word, owner_words(&word), Finding::Differs),
    }
}

fn owner_words(word: &Word) -> &'static str
    ensures { result.now ≡ owner_words (word_value word.now) }
{
    if word.body.is_question() {
        "doesn't own its tag"
    } else {
        "owns its tag"
    }
}
