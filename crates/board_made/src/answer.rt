//! What is answered of the text of a board.
ghost use Rattle.std.specs.Prelude.{IfOk, IfSome, string_bytes};
ghost use Rattle.toml.specs.View.{view};
ghost use Rattle.board_values.specs.Said.{IsTomlOf};
ghost use Rattle.board_made.specs.Made.{IsAnswerTo, IsAnswerFor, IsUnreadLine};

use crate::judged::judged;
use crate::reasons::{no_plan_line, place_line, unread_line};
use board::{Board, BoardError, RecordFile, made_plan, named_files, read_board};
use board_values::board_of_text;
use net_pointers::shown_key;
use plan_values::Plan;
use std::alloc::{AllocError, Global};
use toml::Value;

/// What is answered of a board.
#[derive(Drop)]
pub enum BoardAnswer {
    /// A plan, judged.
    Made(MadePlan),
    /// Why no plan can be made of it.
    NoPlan(String),
    /// Why it can't be read.
    Unread(String),
}

/// The text of a plan that was made, what it reads as, and the text of its certificate.
#[derive(Drop)]
pub struct MadePlan {
    pub plan: String,
    pub value: Plan,
    pub certificate: String,
}

/// The plan that is made of the text of a board, whose records may name these files, or why there is none. What the
/// board leaves open stays as in an earlier plan, where a plan is found so; which numbers stay is not promised.
pub fn answer_board(
    alloc: Global,
    text: &[u8],
    files: &[RecordFile],
    old: Option<&Plan>,
) -> Result<BoardAnswer, AllocError>
    ensures { IfOk result (λ answer. IsAnswerTo files.now text.now answer) }
{
    match std::str::from_utf8(text) {
        Ok(text) => answer_text(alloc, text, files, old),
        Err(_) => Ok(BoardAnswer::Unread(unread_line(alloc, "the text is not UTF-8")?)),
    }
}

fn answer_text(
    alloc: Global,
    text: &str,
    files: &[RecordFile],
    old: Option<&Plan>,
) -> Result<BoardAnswer, AllocError>
    ensures { IfOk result (λ answer. IsAnswerTo files.now text.now answer) }
{
    match board_of_text(alloc, text) {
        Ok(board) => Ok(answer_value(alloc, text, files, &board, old)?),
        Err(error) => Ok(BoardAnswer::Unread(syntax_line(alloc, text, &error)?)),
    }
}

/// Where the text is no TOML, and why. An error of memory has no place.
fn syntax_line(alloc: Global, text: &str, error: &toml::de::Error) -> Result<String, AllocError>
    ensures { IfOk result (λ line. IsUnreadLine (string_bytes line)) }
{
    let Some(span) = error.span() else {
        // no memory: all other errors of `toml` have a span.
        return Err(AllocError);
    };
    let (line, column) = line_and_column(text, span.start);
    place_line(alloc, line, column, error.message())
}

/// The line and the column, both from 1, of a byte of a text.
fn line_and_column(text: &str, at: usize) -> (usize, usize) {
    let mut line = 1usize;
    let mut column = 1usize;
    for byte in text.bytes().take(at) {
        if byte == b'\n' {
            line = line.saturating_add(1);
            column = 1;
        } else {
            column = column.saturating_add(1);
        }
    }
    (line, column)
}

/// The plan that is made of a board's table, or why there is none.
fn answer_value(
    alloc: Global,
    text: &str,
    files: &[RecordFile],
    board: &Value,
    old: Option<&Plan>,
) -> Result<BoardAnswer, AllocError>
    ensures { IfOk result (λ answer. IsAnswerFor files.now (view board.now) answer) }
{
    match read_value(alloc, text, board) {
        Ok(given) => answer_given(alloc, text, files, board, &given, old),
        Err(error) => Ok(BoardAnswer::Unread(error_line(alloc, error)?)),
    }
}

fn read_value(alloc: Global, text: &str, board: &Value) -> Result<Board, BoardError> {
    match board.as_table() {
        Some(table) => read_board(alloc, text, table),
        // no memory: a text that is TOML is a table, so this can't be.
        None => Err(BoardError::OutOfMemory),
    }
}

fn error_line(alloc: Global, error: BoardError) -> Result<String, AllocError>
    ensures { IfOk result (λ line. IsUnreadLine (string_bytes line)) }
{
    match error {
        BoardError::Unread {
            line,
            column,
            reason,
        } => place_line(alloc, line, column, &reason),
        BoardError::OutOfMemory => Err(AllocError),
    }
}

/// The plan in which numbers of an earlier one stay; where none is found so, what is answered without that one.
fn answer_given(
    alloc: Global,
    text: &str,
    files: &[RecordFile],
    board: &Value,
    given: &Board,
    old: Option<&Plan>,
) -> Result<BoardAnswer, AllocError>
    ensures { IfOk result (λ answer. IsAnswerFor files.now (view board.now) answer) }
{
    if let Some(made) = kept_answer(alloc, text, files, board, given, old)? {
        return Ok(made);
    }
    answer_with(alloc, text, files, board, given, None)
}

fn kept_answer(
    alloc: Global,
    text: &str,
    files: &[RecordFile],
    board: &Value,
    given: &Board,
    old: Option<&Plan>,
) -> Result<Option<BoardAnswer>, AllocError>
    ensures { IfOk result (λ found. IfSome found (λ answer. IsAnswerFor files.now (view board.now) answer)) }
{
    if old.is_none() {
        return Ok(None);
    }
    match answer_with(alloc, text, files, board, given, old)? {
        BoardAnswer::NoPlan(_) => Ok(None),
        answer => Ok(Some(answer)),
    }
}

fn answer_with(
    alloc: Global,
    text: &str,
    files: &[RecordFile],
    board: &Value,
    given: &Board,
    old: Option<&Plan>,
) -> Result<BoardAnswer, AllocError>
    ensures { IfOk result (λ answer. IsAnswerFor files.now (view board.now) answer) }
{
    match made_plan(alloc, given, files, old) {
        Ok(made) => judged(alloc, text, files, board, given, made),
        Err(why) => Ok(BoardAnswer::NoPlan(no_plan_line(alloc, text, files, board, given, why)?)),
    }
}

/// The names of the files that the records of a board name, if it can be read. Nothing is promised of them.
pub fn files_of_board(alloc: Global, text: &[u8]) -> Result<Vec<String>, AllocError> {
    let Ok(text) = std::str::from_utf8(text) else {
        return Ok(Vec::new(alloc));
    };
    let Ok(board) = board_of_text(alloc, text) else {
        return Ok(Vec::new(alloc));
    };
    match read_value(alloc, text, &board) {
        Ok(given) => named_files(alloc, &given),
        Err(_) => Ok(Vec::new(alloc)),
    }
}

/// Says that a file that a record of a board names can't be had.
pub fn unread_file(alloc: Global, name: &str, why: &str) -> Result<String, AllocError>
    ensures { IfOk result (λ line. IsUnreadLine (string_bytes line)) }
{
    let name = shown_key(alloc, name)?;
    unread_line(
        alloc,
        &format!(in alloc; "the file \"{name}\" of a record {why}")?,
    )
}
