//! Answers that are bytes, and how they are told.
ghost use Rattle.std.specs.Prelude.{◌≡◌, ◌≢◌, ◌⊎◌, IfOk, IfErr, OnErr, string_bytes};
ghost use Rattle.command_answers.{specs.Answers.{stream, Refuses}, specs.Told.{IsTold}, specs.declared.status.Status.TheVariants.{Yes, Fault, NoMemory}};
ghost use Rattle.net_plan.specs.Stream.{HasRoom};

use crate::answer::refuse;
use crate::refused::Refused;
use crate::status::Status;
use net_plan::{Sink, write_whole};
use std::alloc::Global;

/// The bytes of an answer, and how a run ends that tells it.
#[derive(Drop)]
pub struct BytesAnswer {
    pub status: Status,
    pub bytes: Vec<u8>,
    ghost memory: { status ≢ NoMemory },
}

impl BytesAnswer {
    /// The bytes that were asked for.
    pub fn whole(bytes: Vec<u8>) -> BytesAnswer
        ensures status { result.status ≡ Yes }
        ensures bytes { result.bytes.items ≡ bytes.items }
    {
        BytesAnswer {
            status: Status::Yes,
            bytes,
        }
    }

    /// The line that says what is wrong.
    pub fn fault(line: String) -> BytesAnswer
        ensures status { result.status ≡ Fault }
        ensures bytes { result.bytes.items ≡ string_bytes line }
    {
        BytesAnswer {
            status: Status::Fault,
            bytes: line.into_bytes(),
        }
    }
}

/// Writes the answer on `output`, or says on `errors` why there is none or why it was not written.
pub fn tell_bytes<O: Sink, E: Sink>(
    alloc: Global,
    answered: Result<BytesAnswer, Refused>,
    output: &mut O,
    errors: &mut E,
) -> Status
    requires output { HasRoom (O.account output.old) }
    requires errors { HasRoom (E.account errors.old) }
    ensures told { let outputs = stream O.account output.old output.new in
        let said = stream E.account errors.old errors.new in
        IfOk answered (λ answer. IsTold answer.status answer.bytes.items result outputs said) }
    ensures refuses { let said = stream E.account errors.old errors.new in
        IfErr answered (λ why. Refuses why result said) }
    ensures untouched { OnErr answered (output.new ≡ output.old) }
    ensures silent { (result ≡ Yes) ⊎ (result ≡ Fault) → errors.new ≡ errors.old }
    ensures no_memory { result ≡ NoMemory → output.new ≡ output.old }
{
    match answered {
        Ok(answer) => match write_whole(output, answer.bytes.as_slice()) {
            Ok(()) => answer.status,
            Err(_) => refuse(alloc, Refused::Unwritten, errors),
        },
        Err(refused) => refuse(alloc, refused, errors),
    }
}
