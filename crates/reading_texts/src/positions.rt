//! Lines and columns, and JSON pointers.
ghost use Rattle.std.{specs.Prelude.{◌≡◌, ◌≤◌, length, map, IfOk, IfSome, string_bytes}, specs.List.{flat_map}};
ghost use Rattle.net_plan.specs.Finding.{step_value};
ghost use Rattle.reading_texts.specs.ReadingLines.{place_text, position_text, step_text, pointer_text};

use net_plan::PointerStep;
use net_pointers::position_of;
use std::alloc::{AllocError, Global};

/// A line and a column, where they are known.
pub fn position_text(
    alloc: Global,
    text: &[u8],
    offset: Option<usize>,
) -> Result<String, AllocError>
    requires { IfSome offset (λ at. at ≤ length text.now) }
    ensures { IfOk result (λ words. string_bytes words ≡ position_text text.now offset) }
{
    match offset {
        Some(offset) => {
            let position = position_of(text, offset);
            let (line, column) = (position.line, position.column);
            format!(in alloc; "line {line}, column {column}: ")
        }
        None => Ok(String::new(alloc)),
    }
}

/// A JSON pointer. The one to the whole text is said in words.
pub fn pointer_text(alloc: Global, pointer: &[PointerStep]) -> Result<String, AllocError>
    ensures { IfOk result (λ words. string_bytes words ≡ pointer_text (map step_value pointer.now)) }
{
    if pointer.is_empty() {
        return "the whole text".to_string(alloc);
    }
    steps_text(alloc, pointer)
}

/// The line and the column of the value to which a pointer leads, and the pointer.
pub fn place_text(
    alloc: Global,
    text: &[u8],
    offset: usize,
    pointer: &[PointerStep],
) -> Result<String, AllocError>
    requires { offset ≤ length text.now }
    ensures { IfOk result (λ words. string_bytes words ≡ place_text text.now offset (map step_value pointer.now)) }
{
    let position = position_text(alloc, text, Some(offset))?;
    let pointer = pointer_text(alloc, pointer)?;
    format!(in alloc; "{position}{pointer}")
}

fn steps_text(alloc: Global, pointer: &[PointerStep]) -> Result<String, AllocError>
    ensures { IfOk result (λ words. string_bytes words ≡ flat_map step_text (map step_value pointer.now)) }
{
    let mut words = String::new(alloc);
    for step in pointer {
        words.push_str(&step_text(alloc, *step)?)?;
    }
    Ok(words)
}

fn step_text(alloc: Global, step: PointerStep) -> Result<String, AllocError>
    ensures { IfOk result (λ words. string_bytes words ≡ step_text (step_value step)) }
{
    match step {
        PointerStep::Key(key) => format!(in alloc; "/{key}"),
        PointerStep::Index(index) => format!(in alloc; "/{index}"),
    }
}
