//! The commands `guide` and `code`, whose texts stand in the program.
ghost use Rattle.std.specs.Prelude.{◌≡◌};
ghost use Rattle.net_plan.specs.Stream.{HasRoom};
ghost use Rattle.command_answers.{specs.declared.status.Status.TheVariants.{Yes}, specs.Answers.{stream}, specs.Told.{IsTold}};

use crate::answer::{Answer, tell};
use crate::status::Status;
use net_plan::Sink;
use std::alloc::Global;
use std::borrow::CowStr;

/// Tells a text of the program itself on `output`.
pub fn run_known<O: Sink, E: Sink>(
    alloc: Global,
    text: &'static str,
    output: &mut O,
    errors: &mut E,
) -> Status
    requires output { HasRoom (O.account output.old) }
    requires errors { HasRoom (E.account errors.old) }
    ensures told { let outputs = stream O.account output.old output.new in
        let said = stream E.account errors.old errors.new in
        IsTold Yes text.now result outputs said }
    ensures silent { result ≡ Yes → errors.new ≡ errors.old }
{
    tell(
        alloc,
        Ok(Answer::said(CowStr::Borrowed(text))),
        output,
        errors,
    )
}
