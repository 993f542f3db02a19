//! The command `make` where it keeps the numbers of an old plan, or writes files.
ghost use Rattle.std.{specs.Prelude.{◌≡◌, IfOk, IfErr, OnOk, map, option_map, string_bytes}, specs.Cow.{cow_str_bytes}};
ghost use Rattle.net_plan.specs.Stream.{HasRoom};
ghost use Rattle.step_files.{specs.StepFiles.{file_value}, specs.Writes.{MayFail, WritesAll, writes}};
ghost use Rattle.command_answers.{specs.declared.status.Status.TheVariants.{Yes, Fault, NoMemory}, specs.Answers.{stream}, specs.Told.{Concludes, IsTold}};
ghost use Rattle.board_made.specs.Made.{ReadsBack};
ghost use Rattle.plan_commands.{specs.Keeping.{IsAnsweredSo, IsKeptSo, IsNoteSaid, IsUnkept, KeepsSo, changes_text, kept_text, made_files, notes_of, printed_of}, specs.Making.{IsMadeBy}};
ghost use Rattle.command_answers.specs.declared.refused.Refused.TheVariants as refused;

use crate::make::answered_board;
use board_made::{BoardAnswer, MadePlan, kept_line, renumbered_lines};
use command_answers::{Answer, Refused, Status, refuse, tell};
use command_questions::{MakeFiles, RecordFiles};
use net_plan::{Sink, Source, write_whole};
use plan_values::Plan;
use std::alloc::{AllocError, Global};
use step_files::{TextFile, TextFiles, write_files};

/// Makes a plan of a board that keeps the numbers of an old plan, if there is one, as far as it can. The plan and its
/// certificate are written to the files that are wanted, and a plan for which there is none is printed. `errors` gets a
/// line for each number that differs from the old plan's. The line that counts those that are kept stands behind them,
/// or on `output` where the plan was written. Where no plan is made, no file is written.
pub fn run_make_kept<B: Source, F: RecordFiles, W: TextFiles, O: Sink, E: Sink>(
    alloc: Global,
    wanted: &MakeFiles<'_>,
    old: Option<&Plan>,
    board: &mut B,
    files: &F,
    written: &mut W,
    output: &mut O,
    errors: &mut E,
) -> Status
    requires board { HasRoom (B.account board.old) }
    requires written { MayFail (W.account written.old) }
    requires output { HasRoom (O.account output.old) }
    requires errors { HasRoom (E.account errors.old) }
    ensures concludes { let boards = stream B.account board.old board.new in
        let made = writes W.account written.old written.new in
        Concludes (λ ended text. KeepsSo wanted.now (option_map (λ p. p.now) old.entry) (F.holds files.now) boards made ended text)
        IsUnkept result (stream O.account output.old output.new) (stream E.account errors.old errors.new)
        (output.new ≡ output.old) (result ≡ Fault → errors.new ≡ errors.old) }
    ensures kept { let boards = stream B.account board.old board.new in
        let made = writes W.account written.old written.new in
        result ≡ Yes → IsKeptSo wanted.now (option_map (λ p. p.now) old.entry) (F.holds files.now) boards made
        (stream O.account output.old output.new) (stream E.account errors.old errors.new) }
    ensures untouched { result ≡ Fault → written.new ≡ written.old }
{
    match kept_answer(alloc, wanted, old, board, files, written) {
        Ok(kept) => tell_kept(alloc, kept, output, errors),
        Err(why) => refuse(alloc, why, errors),
    }
}

/// What `make` answers, and what it says of the numbers of an old plan.
#[derive(Drop)]
struct Kept {
    answer: Answer,
    notes: String,
}

fn kept_answer<B: Source, F: RecordFiles, W: TextFiles>(
    alloc: Global,
    wanted: &MakeFiles<'_>,
    old: Option<&Plan>,
    board: &mut B,
    files: &F,
    written: &mut W,
) -> Result<Kept, Refused>
    requires board { HasRoom (B.account board.old) }
    requires written { MayFail (W.account written.old) }
    ensures kept { let boards = stream B.account board.old board.new in
        let made = writes W.account written.old written.new in
        IfOk result (λ kept. IsAnsweredSo wanted.now (option_map (λ p. p.now) old.entry) (F.holds files.now) boards made
        kept.answer.status (cow_str_bytes kept.answer.text) (string_bytes kept.notes)) }
    ensures refused { IfErr result IsUnkept }
    ensures untouched { IfOk result (λ kept. kept.answer.status ≡ Fault → written.new ≡ written.old) }
{
    match answered_board(alloc, board, files, old)? {
        BoardAnswer::Made(made) => kept_made(alloc, wanted, old, &made, written),
        BoardAnswer::NoPlan(reason) => Ok(without_notes(alloc, Answer::fault(reason))),
        BoardAnswer::Unread(line) => Ok(without_notes(alloc, Answer::unread(line))),
    }
}

fn without_notes(alloc: Global, answer: Answer) -> Kept
    ensures { result.answer ≡ answer }
{
    Kept {
        answer,
        notes: String::new(alloc),
    }
}

/// The answer on a plan that was made, once it is written to the files that are wanted.
fn kept_made<W: TextFiles>(
    alloc: Global,
    wanted: &MakeFiles<'_>,
    old: Option<&Plan>,
    made: &MadePlan,
    written: &mut W,
) -> Result<Kept, Refused>
    requires written { MayFail (W.account written.old) }
    ensures status { IfOk result (λ kept. kept.answer.status ≡ Yes) }
    ensures text { IfOk result (λ kept. cow_str_bytes kept.answer.text ≡ printed_of wanted.now.plan (option_map (λ p. p.now) old.entry) made.now.value (string_bytes made.now.plan)) }
    ensures notes { IfOk result (λ kept. string_bytes kept.notes ≡ notes_of wanted.now.plan (option_map (λ p. p.now) old.entry) made.now.value) }
    ensures written { OnOk result (WritesAll (writes W.account written.old written.new) (made_files wanted.now (string_bytes made.now.plan) (string_bytes made.now.certificate))) }
    ensures refused { IfErr result IsUnkept }
{
    let text = printed_text(alloc, wanted, old, made)?;
    let notes = notes_text(alloc, wanted, old, made)?;
    let texts = text_files(alloc, wanted, made)?;
    match write_files(written, &texts) {
        Ok(()) => Ok(Kept {
            answer: Answer::found(text),
            notes,
        }),
        Err(_) => Err(Refused::Unwritten),
    }
}

/// What is printed: the plan, or where it is written how many numbers were kept.
fn printed_text(
    alloc: Global,
    wanted: &MakeFiles<'_>,
    old: Option<&Plan>,
    made: &MadePlan,
) -> Result<String, AllocError>
    ensures { IfOk result (λ text. string_bytes text ≡ printed_of wanted.now.plan (option_map (λ p. p.now) old.entry) made.now.value (string_bytes made.now.plan)) }
{
    match wanted.plan {
        Some(_) => kept_text(alloc, old, &made.value),
        None => made.plan.clone(),
    }
}

/// The lines of the numbers that differ, with the one that counts the others where it isn't printed.
fn notes_text(
    alloc: Global,
    wanted: &MakeFiles<'_>,
    old: Option<&Plan>,
    made: &MadePlan,
) -> Result<String, AllocError>
    ensures { IfOk result (λ text. string_bytes text ≡ notes_of wanted.now.plan (option_map (λ p. p.now) old.entry) made.now.value) }
{
    let mut notes = changes_text(alloc, old, &made.value)?;
    if wanted.plan.is_none() {
        notes.push_str(&kept_text(alloc, old, &made.value)?)?;
    }
    Ok(notes)
}

fn changes_text(alloc: Global, old: Option<&Plan>, new: &Plan) -> Result<String, AllocError>
    ensures { IfOk result (λ text. string_bytes text ≡ changes_text (option_map (λ p. p.now) old.entry) new.now) }
{
    match old {
        Some(old) => renumbered_lines(alloc, old, new),
        None => Ok(String::new(alloc)),
    }
}

fn kept_text(alloc: Global, old: Option<&Plan>, new: &Plan) -> Result<String, AllocError>
    ensures { IfOk result (λ text. string_bytes text ≡ kept_text (option_map (λ p. p.now) old.entry) new.now) }
{
    match old {
        Some(old) => kept_line(alloc, old, new),
        None => Ok(String::new(alloc)),
    }
}

/// The files that are wanted, with their texts.
fn text_files(
    alloc: Global,
    wanted: &MakeFiles<'_>,
    made: &MadePlan,
) -> Result<Vec<TextFile>, AllocError>
    ensures { IfOk result (λ texts. map file_value texts.items ≡ made_files wanted.now (string_bytes made.now.plan) (string_bytes made.now.certificate)) }
{
    let mut texts = Vec::new(alloc);
    if let Some(path) = wanted.plan {
        texts.push(text_file(alloc, path, &made.plan)?)?;
    }
    if let Some(path) = wanted.certificate {
        texts.push(text_file(alloc, path, &made.certificate)?)?;
    }
    Ok(texts)
}

fn text_file(alloc: Global, path: &str, text: &str) -> Result<TextFile, AllocError>
    ensures { IfOk result (λ file. file_value file ≡ record { path = path.now; text = text.now }) }
{
    Ok(TextFile {
        path: path.to_string(alloc)?,
        text: text.to_string(alloc)?,
    })
}

/// Tells the answer, and then says on `errors` what there is to say of numbers.
fn tell_kept<O: Sink, E: Sink>(alloc: Global, kept: Kept, output: &mut O, errors: &mut E) -> Status
    requires output { HasRoom (O.account output.old) }
    requires errors { HasRoom (E.account errors.old) }
    ensures told { let outputs = stream O.account output.old output.new in
        let said = stream E.account errors.old errors.new in
        IsTold kept.answer.status (cow_str_bytes kept.answer.text) result outputs said }
    ensures silent { result ≡ Fault → errors.new ≡ errors.old }
    ensures noted { result ≡ Yes → IsNoteSaid (stream E.account errors.old errors.new) (string_bytes kept.notes) }
    ensures no_memory { result ≡ NoMemory → output.new ≡ output.old }
{
    let status = tell(alloc, Ok(kept.answer), output, errors);
    if status == Status::Yes {
        // Where standard error fails, the answer stands without its notes.
        let _ = write_whole(errors, kept.notes.as_bytes());
    }
    status
}
