//! The command `fix`: a plan's text with edits made, until a certificate fits the plan.
ghost use Rattle.std.{specs.Prelude.{◌≡◌, IfOk, IfErr, IsUtf8, string_bytes}, specs.Cow.{cow_str_bytes}};
ghost use Rattle.net_plan.specs.Stream.{HasRoom};
ghost use Rattle.command_answers.{specs.declared.status.Status.TheVariants.{NoMemory}, specs.Answers.{stream}, specs.UnreadInputs.{IsTextOf}};
ghost use Rattle.explain_commands.specs.Fixing.{AreBothTold, AreLinesTold, EndsFixed, EndsIn, FixesSo, IsMended};
ghost use Rattle.plan_fixes.specs.Fixes.{IsLeftOf};
ghost use Rattle.command_answers.specs.declared.refused.Refused.TheVariants as refused;

use command_answers::{
    Answer, Input, PlanText, Refused, Status, plan_or_text, refuse, tell, unread_answer,
};
use net_plan::{Sink, Source, write_whole};
use net_rules::CertifyError;
use plan_fixes::{Draft, Fixed, fix};
use plan_texts::obstacle_line;
use plan_values::Plan;
use std::alloc::{AllocError, Global};

/// What is answered, and the lines of the edits that were made.
#[derive(Drop)]
struct Mended {
    answer: Answer,
    lines: String,
}

/// Prints the text of a plan on `output`, with edits made until a certificate fits it, or the line of what still rules
/// certificates out where no edit is left. Tells the edits on `errors`. Where the plan can't be read, says so as
/// `explain`.
pub fn run_fix<P: Source, O: Sink, E: Sink>(
    alloc: Global,
    plan: &mut P,
    output: &mut O,
    errors: &mut E,
) -> Status
    requires plan { HasRoom (P.account plan.old) }
    requires output { HasRoom (O.account output.old) }
    requires errors { HasRoom (E.account errors.old) }
    ensures fixes { let plans = stream P.account plan.old plan.new in
        EndsFixed plans result (stream O.account output.old output.new) (stream E.account errors.old errors.new) }
    ensures no_memory { result ≡ NoMemory → output.new ≡ output.old }
{
    match answer_fix(alloc, plan) {
        Ok(mended) => tell_mended(alloc, mended, output, errors),
        Err(refused) => refuse(alloc, refused, errors),
    }
}

#[tactic(auto, using(command_answers::proofs::UnreadTexts::plan_told))]
fn answer_fix<P: Source>(alloc: Global, plan: &mut P) -> Result<Mended, Refused>
    requires { HasRoom (P.account plan.old) }
    ensures answers { let plans = stream P.account plan.old plan.new in
        IfOk result (λ mended. FixesSo plans mended.answer.status (cow_str_bytes mended.answer.text) (string_bytes mended.lines)) }
    ensures refused { IfErr result (λ why. why ≡ refused.NoMemory) }
{
    match plan_or_text(alloc, plan) {
        Ok(given) => Ok(mended_plan(alloc, given)?),
        Err(unread) => Ok(Mended {
            answer: unread_answer(alloc, Input::Plan, &unread)?,
            lines: String::new(alloc),
        }),
    }
}

/// The answer on a plan.
fn mended_plan(alloc: Global, given: PlanText) -> Result<Mended, AllocError>
    requires { IsTextOf given.text.items given.plan }
    ensures { IfOk result (λ mended. IsMended given.text.items given.plan mended.answer.status (cow_str_bytes mended.answer.text) (string_bytes mended.lines)) }
{
    let Fixed { draft, left } = fix(alloc, given.text, given.plan)?;
    let Draft { text, plan, lines } = draft;
    let answer = answer_of(alloc, text, &plan, &left)?;
    Ok(Mended { answer, lines })
}

/// The answer where edits led to this text, which is that of the plan, and this is left.
fn answer_of(
    alloc: Global,
    text: Vec<u8>,
    plan: &Plan,
    left: &Option<CertifyError>,
) -> Result<Answer, AllocError>
    requires text { IsTextOf text.items plan.now }
    requires left { IsLeftOf plan.now left.now }
    ensures { IfOk result (λ answer. EndsIn text.items plan.now answer.status (cow_str_bytes answer.text)) }
{
    match left {
        None => Ok(Answer::found(text_of(text))),
        Some(obstacle) => Ok(Answer::fault(obstacle_line(alloc, plan, obstacle)?)),
    }
}

/// The text of a plan as a string.
fn text_of(text: Vec<u8>) -> String
    requires { IsUtf8 text.items }
    ensures { string_bytes result ≡ text.items }
{
    match String::from_utf8(text) {
        Ok(text) => text,
        Err(_) => unreachable!(),
    }
}

/// Tells the answer, and then the edits on `errors`. Where these are not told, the run ends as one whose output failed.
fn tell_mended<O: Sink, E: Sink>(
    alloc: Global,
    mended: Mended,
    output: &mut O,
    errors: &mut E,
) -> Status
    requires output { HasRoom (O.account output.old) }
    requires errors { HasRoom (E.account errors.old) }
    ensures told { let outputs = stream O.account output.old output.new in
        let said = stream E.account errors.old errors.new in
        AreBothTold mended.answer.status (cow_str_bytes mended.answer.text) (string_bytes mended.lines) result outputs said }
{
    let Mended { answer, lines } = mended;
    let status = tell(alloc, Ok(answer), output, errors);
    match status {
        Status::Yes | Status::Fault => tell_lines(&lines, status, errors),
        Status::Unreadable | Status::NoMemory => status,
    }
}

/// Writes the lines of edits, and tells how a run ends that is to end so.
fn tell_lines<E: Sink>(lines: &str, due: Status, errors: &mut E) -> Status
    requires { HasRoom (E.account errors.old) }
    ensures { AreLinesTold due lines.now result (stream E.account errors.old errors.new) }
{
    match write_whole(errors, lines.as_bytes()) {
        Ok(()) => due,
        Err(_) => Status::Unreadable,
    }
}
