//! The command `decode`: what became of each entry of a capture, and what its messages say.
ghost use Rattle.std.{specs.Prelude.{◌≡◌, ◌≢◌, IfOk, IfErr, string_bytes, Option, Some}, specs.Cow.{cow_str_bytes}};
ghost use Rattle.command_answers.specs.declared.status.Status.TheVariants.{Yes, Unreadable};
ghost use Rattle.byte_commands.specs.Decoding.{DecodesBy, IsDecodedSo, not_given};
ghost use Rattle.command_answers.specs.declared.refused.Refused.TheVariants as refused;

use bus_captures::{End, read_capture};
use command_answers::{Answer, Command, Refused};
use decoded_texts::{decoded_lines, named_lines};
use net_plan::TextFault;
use plan_values::Plan;
use std::alloc::Global;

/// Asks a capture what became of each of its entries, and what its messages say. One that can't be read to its end is
/// told as far as it can.
#[derive(Clone, Copy)]
pub struct DecodeCapture;

impl Command for DecodeCapture {
    type Of = Result<Vec<u8>, TextFault>;

    ghost Answers = { λ s read ended text. DecodesBy Option.None read ended text };

    ghost IsUnanswered = { λ s read why. why ≡ refused.NoMemory };

    fn answer(&self, alloc: Global, read: &Result<Vec<u8>, TextFault>) -> Result<Answer, Refused> {
        match read {
            Ok(bytes) => decoded(alloc, bytes),
            Err(fault) => not_given(alloc, *fault),
        }
    }
}

/// Asks the same, and behind each packet the names of the nodes that hold its endpoint IDs by a plan, which nobody
/// checks.
#[derive(Clone, Copy)]
pub struct DecodeNamed;

impl Command for DecodeNamed {
    type Of = (Plan, Result<Vec<u8>, TextFault>);

    ghost Answers = { λ s given ended text. DecodesBy (Some given.0) given.1 ended text };

    ghost IsUnanswered = { λ s given why. why ≡ refused.NoMemory };

    fn answer(
        &self,
        alloc: Global,
        given: &(Plan, Result<Vec<u8>, TextFault>),
    ) -> Result<Answer, Refused> {
        match &given.1 {
            Ok(bytes) => named(alloc, &given.0, bytes),
            Err(fault) => not_given(alloc, *fault),
        }
    }
}

/// The answer on the bytes of a capture.
fn decoded(alloc: Global, bytes: &[u8]) -> Result<Answer, Refused>
    ensures answers { IfOk result (λ answer. IsDecodedSo Option.None bytes.now answer.status (cow_str_bytes answer.text)) }
    ensures refused { IfErr result (λ why. why ≡ refused.NoMemory) }
{
    let capture = read_capture(alloc, bytes)?;
    let text = decoded_lines(alloc, &capture)?;
    Ok(answer_at(capture.end, text))
}

/// The answer on a plan and the bytes of a capture.
fn named(alloc: Global, plan: &Plan, bytes: &[u8]) -> Result<Answer, Refused>
    ensures answers { IfOk result (λ answer. IsDecodedSo (Some plan.now) bytes.now answer.status (cow_str_bytes answer.text)) }
    ensures refused { IfErr result (λ why. why ≡ refused.NoMemory) }
{
    let capture = read_capture(alloc, bytes)?;
    let text = named_lines(alloc, plan, &capture)?;
    Ok(answer_at(capture.end, text))
}

/// The answer where reading a capture ended so. Only a whole one was read as asked.
fn answer_at(end: End, text: String) -> Answer
    ensures whole { end ≡ End.Whole → result.status ≡ Yes }
    ensures broken { end ≢ End.Whole → result.status ≡ Unreadable }
    ensures text { cow_str_bytes result.text ≡ string_bytes text }
{
    match end {
        End::Whole => Answer::found(text),
        End::Full | End::Broken { .. } => Answer::unread(text),
    }
}

/// The answer where a source gave no capture.
pub fn not_given(alloc: Global, fault: TextFault) -> Result<Answer, Refused>
    ensures status { IfOk result (λ answer. answer.status ≡ Unreadable) }
    ensures text { IfOk result (λ answer. not_given fault ≡ Some (cow_str_bytes answer.text)) }
    ensures refused { IfErr result (λ why. (why ≡ refused.NoMemory)) }
{
    let line = match fault {
        TextFault::TooLong => "unreadable capture: J08\n",
        TextFault::Device => "unreadable capture: file\n",
        TextFault::OutOfMemory => return Err(Refused::NoMemory),
    };
    Ok(Answer::unread(String::from_str(alloc, line)?))
}
