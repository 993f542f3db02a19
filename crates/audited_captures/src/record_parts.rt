//! Requests for parts of records with the answers to them (DSP0248, GetPDR).
ghost use Rattle.std.specs.Prelude.{◌≡◌, ◌++◌, IfOk, OnOk, map, option_map, option_to_list};
ghost use Rattle.audited_captures.{specs.Words.{word_value}, specs.Exchanges.{concerns, last_that}, specs.RecordParts.{record_part_value, part_ended, record_part_of, AreRecordParts}};

use crate::exchanges::last_concerned;
use crate::words::{Body, PartTold, Word};
use mctp_transport::Eid;
use pldm_message::GetPdrRequest;
use std::alloc::{AllocError, Global};

/// A request for a part of a record, and the answer to it.
#[derive(Clone, Copy, Debug)]
pub struct RecordPart<'m> {
    pub request: GetPdrRequest,
    pub told: PartTold<'m>,
}

/// What the device of an endpoint ID answered when parts of records were asked for, in the order of the answers.
pub fn record_parts_of<'m>(
    alloc: Global,
    words: &[Word<'m>],
    eid: Eid,
) -> Result<Vec<RecordPart<'m>>, AllocError>
    ensures { IfOk result (λ parts. AreRecordParts eid.value (map word_value words.now) (map record_part_value parts.items)) }
{
    let mut parts = Vec::new(alloc);
    for i in 0..words.len() {
        add(&mut parts, record_part_of(&words[..i], &words[i], eid))?;
    }
    Ok(parts)
}

fn add<'m>(parts: &mut Vec<RecordPart<'m>>, part: Option<RecordPart<'m>>) -> Result<(), AllocError>
    ensures { OnOk result (map record_part_value parts.new.items ≡ map record_part_value parts.old.items ++ option_to_list (option_map record_part_value part.entry)) }
{
    match part {
        Some(part) => Ok(parts.push(part)?),
        None => Ok(()),
    }
}

/// What a word of the device answers, if it answers a request for a part of a record, and is the first to do so.
fn record_part_of<'m>(before: &[Word<'m>], word: &Word<'m>, eid: Eid) -> Option<RecordPart<'m>>
    ensures { option_map record_part_value result ≡ record_part_of eid.value (map word_value before.now) (word_value word.now) }
{
    if word.responder.value != eid.value {
        return None;
    }
    part_ended(before, word)
}

fn part_ended<'m>(before: &[Word<'m>], word: &Word<'m>) -> Option<RecordPart<'m>>
    ensures { option_map record_part_value result ≡ part_ended (word_value word.now) (last_that (concerns (word_value word.now)) (map word_value before.now)) }
{
    let Body::TellsPart(told) = word.body else {
        return None;
    };
    let Body::AsksPart(request) = last_concerned(before, word)?.body else {
        return None;
    };
    Some(RecordPart { request, told })
}
