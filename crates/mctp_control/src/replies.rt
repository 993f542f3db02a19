//! The bytes of a device's replies.
ghost use Rattle.std.specs.Prelude.{◌≡◌, ◌<◌, ◌≤◌, ◌==◌, ◌∷◌, if◌then◌else◌, ℕ, List, length};
ghost use Rattle.mctp_control.{specs.EntryLists.{entries_bytes, values_of}, specs.Replies.{EntriesReplies, IsMost, reply_bytes}, specs.Outcomes.{content_of, content_bytes}, specs.Responses.{answer_value}};

use crate::entries::{MAX_ENTRY_BYTES, byte_count, put_table};
use crate::response::{CompletionCode, ControlAnswer};
use crate::route_entry::RouteEntry;
use arrayvec::ArrayVec;
use mctp_transport::Wire;

/// The most bytes of a control message.
pub const MAX_BODY: usize = 64;

/// The most bytes of an answer: a command's number, the completion code, and the data.
const MAX_ANSWER: usize = MAX_BODY - 2;

/// A reply to the body: instance ID and command repeated, then the completion code and what follows it.
pub(crate) fn framed(body: &[u8], content: &[u8]) -> ArrayVec<u8, MAX_BODY>
    requires body { 3 ≤ length body.now }
    requires content { length content.now ≤ 61 }
    ensures { result.items ≡ reply_bytes body.now content.now }
{
    let mut reply = ArrayVec::new();
    reply.push(0);
    reply.push(body[1] % 32);
    reply.push(body[2]);
    let _ = reply.try_extend_from_slice(content);
    reply
}

/// A reply to the body with what is answered, or with another code alone.
pub(crate) fn concluded(
    body: &[u8],
    outcome: &Result<ControlAnswer, CompletionCode>,
) -> ArrayVec<u8, MAX_BODY>
    requires { 3 ≤ length body.now }
    ensures { result.items ≡ reply_bytes body.now (content_of outcome.now) }
{
    match outcome {
        Ok(answer) => answered(body, answer),
        Err(refusal) => framed(body, &[refusal.code]),
    }
}

/// A reply to the body with what is answered.
#[tactic(auto, using(crate::proofs::AnswerLengths::fits, crate::proofs::AnswerLengths::some))]
fn answered(body: &[u8], answer: &ControlAnswer) -> ArrayVec<u8, MAX_BODY>
    requires { 3 ≤ length body.now }
    ensures { result.items ≡ reply_bytes body.now (content_bytes (answer_value answer.now)) }
{
    let length = answer.len();
    let mut bytes = [0; MAX_ANSWER];
    answer.put(&mut bytes);
    framed(body, &bytes[1..length])
}

/// A reply to the body with the entries from the handle on, as many as fit.
pub(crate) fn tell_entries(body: &[u8], table: &[RouteEntry], handle: u8) -> ArrayVec<u8, MAX_BODY>
    requires body { 3 ≤ length body.now }
    requires table { length table.now < 255 }
    ensures { (content : List ℕ) × (result.items ≡ reply_bytes body.now content) × EntriesReplies (values_of table.now) handle content }
{
    let start = handle as usize;
    if handle != 0 && start >= table.len() {
        return framed(body, &[CompletionCode::INVALID_DATA.code]);
    }
    let entries = &table[start..];
    let count = fitting(entries);
    let next = handle_after(table.len(), start + count);
    told(body, next, &entries[..count])
}

/// The entry handle for the entries from the index on: 0xFF where there are no more.
fn handle_after(count: usize, index: usize) -> u8
    requires { index < 255 }
    ensures { result ≡ (if index == count then 255 else index) }
{
    if index == count { 0xff } else { index as u8 }
}

/// A reply to the body with the next entry handle and these entries.
fn told(body: &[u8], next: u8, entries: &[RouteEntry]) -> ArrayVec<u8, MAX_BODY>
    requires body { 3 ≤ length body.now }
    requires few { length entries.now ≤ 9 }
    requires fit { length (entries_bytes (values_of entries.now)) ≤ 58 }
    ensures { result.items ≡ reply_bytes body.now (0 ∷ next ∷ length entries.now ∷ entries_bytes (values_of entries.now)) }
{
    let mut bytes = [0; MAX_ANSWER];
    put_table(next, entries, &mut bytes);
    framed(body, &bytes[1..4 + byte_count(entries)])
}

/// How many of the entries fit one response.
fn fitting(entries: &[RouteEntry]) -> usize
    ensures most { IsMost (values_of entries.now) result }
    ensures few { result ≤ 9 }
{
    let mut bytes = 0;
    for (count, entry) in entries.iter().enumerate() {
        bytes += entry.len();
        if bytes > MAX_ENTRY_BYTES {
            return count;
        }
    }
    entries.len()
}
