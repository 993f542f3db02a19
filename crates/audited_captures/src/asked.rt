//! What was asked of a device, and whether it answered.
ghost use Rattle.std.specs.Prelude.{◌≡◌, IfOk, length, map};
ghost use Rattle.audited_captures.{specs.Asked.{is_asked, requests_to, unanswered}, specs.Exchanges.{exchange_value}, specs.RecordParts.{record_part_value}, specs.Tids.{tid_values}, specs.Words.{word_value}};

use crate::exchanges::Exchange;
use crate::identities::{answers_of, is_device};
use crate::record_parts::RecordPart;
use crate::tids::TidAnswer;
use crate::words::{Body, Word};
use mctp_transport::Eid;
use std::alloc::{AllocError, Global};

/// How many requests went to the device of an endpoint ID where it answered none of them.
pub fn unanswered(
    alloc: Global,
    words: &[Word],
    exchanges: &[Exchange],
    parts: &[RecordPart],
    tids: &[TidAnswer],
    eid: Eid,
) -> Result<usize, AllocError>
    ensures { IfOk result (λ count. count ≡ unanswered eid.value (map word_value words.now) (map exchange_value exchanges.now) (map record_part_value parts.now) (tid_values tids.now)) }
{
    let answers = answers_of(alloc, exchanges, eid)?;
    if answers.is_empty() && parts.is_empty() && tids.is_empty() {
        Ok(request_count(words, eid))
    } else {
        Ok(0)
    }
}

/// How many requests went to the device of an endpoint ID.
fn request_count(words: &[Word], eid: Eid) -> usize
    ensures { result ≡ length (requests_to eid.value (map word_value words.now)) }
{
    let mut count = 0;
    for word in words {
        if is_asked(word, eid) {
            count += 1;
        }
    }
    count
}

/// Whether a message asks something of the device of an endpoint ID.
fn is_asked(word: &Word, eid: Eid) -> bool
    ensures { result ≡ is_asked eid.value (word_value word.now) }
{
    match &word.body {
        Body::Asks(command) => is_device(eid, word.responder, command),
        Body::AsksPart(_) => word.responder.value == eid.value,
        Body::Answers(_) => false,
        Body::TellsPart(_) => false,
        Body::AsksTid => word.responder.value == eid.value,
        Body::TellsTid(_) => false,
    }
}
