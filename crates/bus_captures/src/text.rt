//! Text captures: a line an entry.
ghost use Rattle.std.specs.Prelude.{◌≡◌, ◌∷◌, [], List, ℕ, IfOk, IfSome, map, MatchOption, length, ◌<◌};
ghost use Rattle.bus_captures.{specs.Captures.{lines_of, IsText}, specs.Values.{entry_value}, specs.Adding.{IsAdded, IsEntryAdded}};

use crate::capture::{Capture, CaptureFault, End, Entry, MAX_ENTRIES};
use crate::line::{Line, read_line};
use crate::sort::{Sort, skip};
use std::alloc::{AllocError, Global};

/// The entries of a text.
pub fn read_text<'a>(alloc: Global, text: &'a [u8]) -> Result<Capture<'a>, AllocError>
    ensures { IfOk result (λ capture. IsText text.now (map entry_value capture.entries.items) capture.end) }
{
    let mut entries = Vec::new(alloc);
    let end = add_lines(alloc, text, &mut entries)?;
    Ok(Capture { entries, end })
}

/// The first line, and what stands behind its end.
fn split_line(text: &[u8]) -> (&[u8], Option<&[u8]>)
    ensures lines { MatchOption result.1 (lines_of text.now ≡ result.0.now ∷ [])
        (λ rest. lines_of text.now ≡ result.0.now ∷ lines_of rest.now) }
    ensures shorter { IfSome result.1 (λ rest. length rest.now < length text.now) }
{
    let end = Sort::LineEnd.before(text);
    if end < text.len() {
        (&text[..end], Some(skip(text, end + 1)))
    } else {
        (text, None)
    }
}

/// Adds the entries of a text's lines, and says how reading them ended.
fn add_lines<'a>(
    alloc: Global,
    text: &'a [u8],
    entries: &mut Vec<Entry<'a>>,
) -> Result<End, AllocError>
    requires { entries.old.items ≡ [] }
    ensures { IfOk result (λ how. IsText text.now (map entry_value entries.new.items) how) }
{
    let mut left = text;
    let mut place = 0;
    'lines: loop {
        let (line, behind) = split_line(left);
        place += 1;
        match add_line(alloc, line, entries)? {
            Added::Done => {}
            Added::Full => return Ok(End::Full),
            Added::Bad => {
                let fault = CaptureFault::Line;
                return Ok(End::Broken { place, fault });
            }
        }
        match behind {
            Some(rest) => left = rest,
            None => return Ok(End::Whole),
        }
    }
}

/// What became of a line.
#[derive(Clone, Copy, Debug, PartialEq, Eq)]
enum Added {
    Done,
    /// It is an entry more than `MAX_ENTRIES`.
    Full,
    /// It is something, and no entry.
    Bad,
}

/// Adds the entry of a line, where it is one.
fn add_line<'a>(
    alloc: Global,
    line: &'a [u8],
    entries: &mut Vec<Entry<'a>>,
) -> Result<Added, AllocError>
    ensures { IfOk result (λ added. IsAdded line.now entries.old.items entries.new.items added) }
{
    match read_line(alloc, line)? {
        Line::Nothing => Ok(Added::Done),
        Line::Bad => Ok(Added::Bad),
        Line::Entry(entry) => add_entry(entry, entries),
    }
}

fn add_entry<'a>(entry: Entry<'a>, entries: &mut Vec<Entry<'a>>) -> Result<Added, AllocError>
    ensures { IfOk result (λ added. IsEntryAdded (entry_value entry.entry) entries.old.items entries.new.items added) }
{
    if entries.len() == MAX_ENTRIES {
        return Ok(Added::Full);
    }
    entries.push(entry)?;
    Ok(Added::Done)
}
