//! What a command answers, and how it is told.
ghost use Rattle.std.{specs.Prelude.{◌≡◌, ◌≢◌, ◌⊎◌, IfOk, IfErr, OnOk, OnErr, string_bytes}, specs.Cow.{cow_str_bytes}, specs.Io.KnownBytes.{Appends}};
ghost use Rattle.net_plan.specs.Stream.{HasRoom, HasFailed, AppendsBeginning};
ghost use Rattle.command_answers.{specs.declared.refused.Refused.TheVariants.{Unwritten}, specs.declared.status.Status.TheVariants.{Yes, Fault, Unreadable, NoMemory}, specs.Answers.{stream, BreaksOff, Refuses}, specs.Statuses.{clean_line, status_of, refusal_text, IsReportedFor, yes_line}, specs.Told.{IsTold}};

use crate::refused::{NO_MEMORY, Refused, refusal_line};
use crate::status::Status;
use net_plan::{Sink, write_whole};
use std::alloc::{AllocError, Global};
use std::borrow::CowStr;

/// The answer where a certificate fits its plan.
pub const YES: &str = "yes\n";

/// The answer where nothing in a plan looks wrong.
const CLEAN: &str = "clean\n";

/// The text of an answer, and how a run ends that tells it.
#[derive(Drop)]
pub struct Answer {
    pub status: Status,
    pub text: CowStr<'static>,
    ghost memory: { status ≢ NoMemory },
}

impl Answer {
    /// The answer `yes`.
    pub fn yes() -> Answer
        ensures status { result.status ≡ Yes }
        ensures text { cow_str_bytes result.text ≡ yes_line }
    {
        Answer {
            status: Status::Yes,
            text: CowStr::Borrowed(YES),
        }
    }

    /// A text that was asked for, of the program itself or one that was made.
    pub fn said(text: CowStr<'static>) -> Answer
        ensures status { result.status ≡ Yes }
        ensures text { cow_str_bytes result.text ≡ cow_str_bytes text.entry }
    {
        Answer {
            status: Status::Yes,
            text,
        }
    }

    /// The answer `clean`.
    pub fn clean() -> Answer
        ensures status { result.status ≡ Yes }
        ensures text { cow_str_bytes result.text ≡ clean_line }
    {
        Answer {
            status: Status::Yes,
            text: CowStr::Borrowed(CLEAN),
        }
    }

    /// The text that was asked for.
    pub fn found(text: String) -> Answer
        ensures status { result.status ≡ Yes }
        ensures text { cow_str_bytes result.text ≡ string_bytes text }
    {
        Answer {
            status: Status::Yes,
            text: CowStr::Owned(text),
        }
    }

    /// The text that says why an input can't be read, where that is the answer.
    pub fn unread(text: String) -> Answer
        ensures status { result.status ≡ Unreadable }
        ensures text { cow_str_bytes result.text ≡ string_bytes text }
    {
        Answer {
            status: Status::Unreadable,
            text: CowStr::Owned(text),
        }
    }

    /// The text that says what is wrong.
    pub fn fault(text: String) -> Answer
        ensures status { result.status ≡ Fault }
        ensures text { cow_str_bytes result.text ≡ string_bytes text }
    {
        Answer {
            status: Status::Fault,
            text: CowStr::Owned(text),
        }
    }
}

/// Says on `errors` why the program gives no answer, and how the run ends.
pub fn refuse<E: Sink>(alloc: Global, refused: Refused, errors: &mut E) -> Status
    requires { HasRoom (E.account errors.old) }
    ensures status { (result ≡ status_of refused) ⊎ (result ≡ NoMemory) }
    ensures unwritten { refused ≡ Unwritten → result ≡ Unreadable }
    ensures refuses { let said = stream E.account errors.old errors.new in
        Refuses refused result said }
{
    let (reported, line) = report_of(alloc, refused);
    // Where standard error fails as well, only the status is left to tell it.
    let _ = write_whole(errors, line.as_bytes());
    reported.status()
}

/// What is reported for a refusal, and its line. Where there is no memory for the line, this is reported.
fn report_of(alloc: Global, refused: Refused) -> (Refused, CowStr<'static>)
    ensures reported { IsReportedFor refused result.0 }
    ensures line { cow_str_bytes result.1 ≡ refusal_text result.0 }
{
    match refusal_line(alloc, refused) {
        Ok(line) => (refused, line),
        Err(AllocError) => (Refused::NoMemory, CowStr::Borrowed(NO_MEMORY)),
    }
}

/// Writes the line of an answer.
pub fn print<O: Sink>(output: &mut O, line: &str) -> Result<(), Refused>
    requires { HasRoom (O.account output.old) }
    ensures written { OnOk result (Appends (O.account output.old).bytes (O.account output.new).bytes line.now) }
    ensures unwritten { IfErr result (λ refused. refused ≡ Unwritten) }
    ensures beginning { OnErr result (AppendsBeginning (O.account output.old).bytes (O.account output.new).bytes line.now) }
    ensures fails { OnErr result (HasFailed (O.account output.old) (O.account output.new) 1) }
    ensures kept { OnOk result ((O.account output.new).failures ≡ (O.account output.old).failures) }
{
    write_whole(output, line.as_bytes()).map_err(|_| Refused::Unwritten)
}

/// Writes an answer, and tells how a run ends that gives it.
pub fn give<O: Sink>(answer: &Answer, output: &mut O) -> Result<Status, Refused>
    requires { HasRoom (O.account output.old) }
    ensures given { IfOk result (λ status. (status ≡ answer.now.status)
        × Appends (O.account output.old).bytes (O.account output.new).bytes (cow_str_bytes answer.now.text)) }
    ensures broken { IfErr result (λ why. (why ≡ Unwritten)
        × BreaksOff (λ text. text ≡ cow_str_bytes answer.now.text) (stream O.account output.old output.new)) }
{
    print(output, &answer.text)?;
    Ok(answer.status)
}

/// Tells the answer on `output`, or on `errors` why there is none or why it was not told.
pub fn tell<O: Sink, E: Sink>(
    alloc: Global,
    answered: Result<Answer, Refused>,
    output: &mut O,
    errors: &mut E,
) -> Status
    requires output { HasRoom (O.account output.old) }
    requires errors { HasRoom (E.account errors.old) }
    ensures told { let outputs = stream O.account output.old output.new in
        let said = stream E.account errors.old errors.new in
        IfOk answered (λ answer. IsTold answer.status (cow_str_bytes answer.text) result outputs said) }
    ensures refuses { let said = stream E.account errors.old errors.new in
        IfErr answered (λ why. Refuses why result said) }
    ensures untouched { OnErr answered (output.new ≡ output.old) }
    ensures silent { (result ≡ Yes) ⊎ (result ≡ Fault) → errors.new ≡ errors.old }
    ensures quiet { IfOk answered (λ _. (O.account output.new).failures ≡ (O.account output.old).failures → errors.new ≡ errors.old) }
    ensures no_memory { result ≡ NoMemory → output.new ≡ output.old }
{
    match answered {
        Ok(answer) => match print(output, &answer.text) {
            Ok(()) => answer.status,
            Err(refused) => refuse(alloc, refused, errors),
        },
        Err(refused) => refuse(alloc, refused, errors),
    }
}

/// The same for an answer for which only memory can have been wanting.
pub fn tell_made<O: Sink, E: Sink>(
    alloc: Global,
    answered: Result<Answer, AllocError>,
    output: &mut O,
    errors: &mut E,
) -> Status
    requires output { HasRoom (O.account output.old) }
    requires errors { HasRoom (E.account errors.old) }
    ensures told { let outputs = stream O.account output.old output.new in
        let said = stream E.account errors.old errors.new in
        IfOk answered (λ answer. IsTold answer.status (cow_str_bytes answer.text) result outputs said) }
    ensures refuses { let said = stream E.account errors.old errors.new in
        IfErr answered (λ _. Refuses Refused.NoMemory result said) }
    ensures untouched { OnErr answered (output.new ≡ output.old) }
    ensures silent { (result ≡ Yes) ⊎ (result ≡ Fault) → errors.new ≡ errors.old }
    ensures no_memory { result ≡ NoMemory → output.new ≡ output.old }
{
    match answered {
        Ok(answer) => tell(alloc, Ok(answer), output, errors),
        Err(AllocError) => tell(alloc, Err(Refused::NoMemory), output, errors),
    }
}
