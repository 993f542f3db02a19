//! Requests of control messages with the responses to them.
ghost use Rattle.std.specs.Prelude.{◌≡◌, ◌&&◌, ◌++◌, ◌==◌, ◌||◌, IfOk, OnOk, map, option_map, option_to_list};
ghost use Rattle.audited_captures.{specs.Words.{word_value}, specs.Exchanges.{concerns, is_alike, is_like, last_that, exchange_value, exchange_of, AreExchanges}};

use crate::words::{Body, Word};
use mctp_control::{ControlAnswer, ControlCommand};
use mctp_transport::Eid;
use std::alloc::{AllocError, Global};

/// A request and the response to it.
#[derive(Clone, Copy, Debug)]
pub struct Exchange<'w> {
    /// The endpoint ID that asked.
    pub requester: Eid,
    /// The endpoint ID that answered.
    pub responder: Eid,
    pub command: &'w ControlCommand,
    pub answer: &'w ControlAnswer,
}

/// In what an earlier word is like a word.
#[derive(Clone, Copy, Debug)]
pub enum Likeness {
    /// It concerns the same exchange.
    Exchange,
    /// It asks the same command, and is of the same requester.
    Command,
}

/// The requests that were answered, each with its response, in the order of the responses.
pub fn exchanges_of<'w, 'm>(
    alloc: Global,
    words: &'w [Word<'m>],
) -> Result<Vec<Exchange<'w>>, AllocError>
    ensures { IfOk result (λ exchanges. AreExchanges (map word_value words.now) (map exchange_value exchanges.items)) }
{
    let mut exchanges = Vec::new(alloc);
    for i in 0..words.len() {
        add(&mut exchanges, exchange_of(&words[..i], &words[i]))?;
    }
    Ok(exchanges)
}

fn add<'w>(
    exchanges: &mut Vec<Exchange<'w>>,
    exchange: Option<Exchange<'w>>,
) -> Result<(), AllocError>
    ensures { OnOk result (map exchange_value exchanges.new.items ≡ map exchange_value exchanges.old.items ++ option_to_list (option_map exchange_value exchange.entry)) }
{
    match exchange {
        Some(exchange) => Ok(exchanges.push(exchange)?),
        None => Ok(()),
    }
}

/// The exchange that a word ends, if it is the first response to a request.
fn exchange_of<'w, 'm>(before: &'w [Word<'m>], word: &'w Word<'m>) -> Option<Exchange<'w>>
    ensures { option_map exchange_value result ≡ exchange_of (map word_value before.now) (word_value word.now) }
{
    let Body::Answers(answer) = &word.body else {
        return None;
    };
    let Body::Asks(command) = &last_concerned(before, word)?.body else {
        return None;
    };
    Some(Exchange {
        requester: word.requester,
        responder: word.responder,
        command,
        answer,
    })
}

/// The last word before this one that concerns the same exchange.
pub fn last_concerned<'w, 'm>(before: &'w [Word<'m>], word: &Word<'m>) -> Option<&'w Word<'m>>
    ensures { option_map (λ w. word_value w.now) result ≡ last_that (concerns (word_value word.now)) (map word_value before.now) }
{
    last_like(before, word, Likeness::Exchange)
}

/// The last word before this one that is like it.
pub fn last_like<'w, 'm>(
    before: &'w [Word<'m>],
    word: &Word<'m>,
    likeness: Likeness,
) -> Option<&'w Word<'m>>
    ensures { option_map (λ w. word_value w.now) result ≡ last_that (is_like likeness (word_value word.now)) (map word_value before.now) }
{
    let mut at = before.len();
    while at > 0 {
        at -= 1;
        let earlier = &before[at];
        if is_like(likeness, word, earlier) {
            return Some(earlier);
        }
    }
    None
}

fn is_like(likeness: Likeness, word: &Word, earlier: &Word) -> bool
    ensures { result ≡ is_like likeness (word_value word.now) (word_value earlier.now) }
{
    match likeness {
        Likeness::Exchange => concerns(word, earlier),
        Likeness::Command => is_alike(word, earlier),
    }
}

/// Whether an earlier word is a request of the same command by the same requester.
fn is_alike(word: &Word, earlier: &Word) -> bool
    ensures { result ≡ is_alike (word_value word.now) (word_value earlier.now) }
{
    earlier.body.is_question()
        && earlier.requester.value == word.requester.value
        && earlier.body.command() == word.body.command()
}

/// Whether an earlier word concerns the exchange of a word. A request to the null endpoint ID reaches a device whatever
/// endpoint ID it then answers with.
fn concerns(word: &Word, earlier: &Word) -> bool
    ensures { result ≡ concerns (word_value word.now) (word_value earlier.now) }
{
    earlier.requester.value == word.requester.value
        && (earlier.responder.value == word.responder.value || earlier.responder.value == 0)
        && earlier.tag.value == word.tag.value
        && earlier.instance == word.instance
        && earlier.body.command() == word.body.command()
}
