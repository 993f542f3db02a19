//! Whether a plan is the one that is made of the board.
ghost use Rattle.std.specs.Prelude.{◌≡◌, ◌≢◌, IfOk, IfErr, OnOk, string_bytes};
ghost use Rattle.verify_commands.{specs.Boards.{AreHeld, IsAnswerWith}, specs.Folders.{IsUnjudged}, specs.Parts.{AddsBoard, IsLikeBoard, IsUnlikeBoard, Says}};
ghost use Rattle.verify_commands.specs.declared.parts.Part.TheVariants as part;

use crate::folder::{FolderFiles, FolderText, held_text};
use crate::parts::{Judged, Part, add};
use crate::unjudged::Unjudged;
use board_made::{BoardAnswer, RecordFile, answer_board, files_of_board, unread_file};
use command_answers::PlanText;
use command_questions::RecordFiles;
use net_plan::TextFault;
use plan_texts::first_difference;
use std::alloc::{AllocError, Global};

/// Adds whether the plan is the one that is made of the board, if the folder has one.
pub fn add_board<F: FolderFiles + RecordFiles>(
    alloc: Global,
    folder: &F,
    given: &PlanText,
    told: &mut Vec<Judged>,
) -> Result<(), Unjudged>
    ensures added { OnOk result (AddsBoard (F.reads folder.now) (F.holds folder.now) given.now.text.items told.old.items told.new.items) }
    ensures unread { IfErr result (IsUnjudged (F.reads folder.now) (F.lists folder.now)) }
{
    match held_text(alloc, folder, FolderText::Board)? {
        Some(board) => {
            let judged = judge_board(alloc, folder, &board, given)?;
            Ok(add(judged, told)?)
        }
        None => Ok(()),
    }
}

/// Whether the plan is the one that is made of a board where its numbers are kept.
fn judge_board<R: RecordFiles>(
    alloc: Global,
    records: &R,
    board: &[u8],
    given: &PlanText,
) -> Result<Judged, Unjudged>
    ensures part { IfOk result (λ judged. judged.part ≡ part.Board) }
    ensures verdict { IfOk result (λ judged. Says judged.verdict (IsLikeBoard (R.holds records.now) board.now given.now.text.items)
        (IsUnlikeBoard (R.holds records.now) board.now given.now.text.items) ⊥) }
{
    match answered_board(alloc, records, board, given)? {
        BoardAnswer::Made(made) => Ok(compare(alloc, &made.plan, &given.text)?),
        BoardAnswer::NoPlan(reason) => Ok(Judged::fails(alloc, Part::Board, &reason)?),
        BoardAnswer::Unread(lines) => Err(Unjudged::Unread(lines)),
    }
}

/// Whether a plan's text is the one that was made, byte for byte.
fn compare(alloc: Global, made: &str, text: &[u8]) -> Result<Judged, AllocError>
    ensures part { IfOk result (λ judged. judged.part ≡ part.Board) }
    ensures verdict { IfOk result (λ judged. Says judged.verdict (made.now ≡ text.now) (made.now ≢ text.now) ⊥) }
{
    if made.as_bytes() == text {
        return Ok(Judged::holds(alloc, Part::Board));
    }
    let lines = difference_text(alloc, made, text)?;
    Judged::fails(alloc, Part::Board, &lines)
}

/// Where a text differs from the one that was made.
fn difference_text(alloc: Global, made: &str, text: &[u8]) -> Result<String, AllocError> {
    if let Ok(text) = str::from_utf8(text) {
        if let Some(difference) = first_difference(alloc, made, text)? {
            return Ok(difference);
        }
    }
    "the ends of lines differ\n".to_string(alloc)
}

/// What `make` answers on a board and the files that its records name, where the numbers of the plan are kept.
fn answered_board<R: RecordFiles>(
    alloc: Global,
    records: &R,
    board: &[u8],
    given: &PlanText,
) -> Result<BoardAnswer, Unjudged>
    ensures { IfOk result (λ answer. IsAnswerWith (R.holds records.now) board.now answer) }
{
    let names = files_of_board(alloc, board)?;
    let files = read_records(alloc, records, &names)?;
    Ok(answer_board(alloc, board, &files, Some(&given.plan))?)
}

fn read_records<R: RecordFiles>(
    alloc: Global,
    records: &R,
    names: &[String],
) -> Result<Vec<RecordFile>, Unjudged>
    ensures { IfOk result (λ list. AreHeld (R.holds records.now) list.items) }
{
    let mut list = Vec::new(alloc);
    for index in 0..names.len() {
        list.push(read_record(alloc, records, &names[index])?)?;
    }
    Ok(list)
}

fn read_record<R: RecordFiles>(
    alloc: Global,
    records: &R,
    name: &str,
) -> Result<RecordFile, Unjudged>
    ensures { IfOk result (λ file. R.holds records.now (string_bytes file.name) file.bytes.items) }
{
    match records.read(alloc, name) {
        Ok(bytes) => Ok(RecordFile {
            name: name.to_string(alloc)?,
            bytes,
        }),
        Err(TextFault::TooLong) => Err(unread_record(alloc, name, "has more bytes than a record")),
        Err(TextFault::Device) => Err(unread_record(alloc, name, "can't be opened or read")),
        Err(TextFault::OutOfMemory) => Err(Unjudged::NoMemory),
    }
}

fn unread_record(alloc: Global, name: &str, why: &str) -> Unjudged {
    match unread_file(alloc, name, why) {
        Ok(lines) => Unjudged::Unread(lines),
        // no memory: there was no room for the line.
        Err(AllocError) => Unjudged::NoMemory,
    }
}
