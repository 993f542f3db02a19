//! A line in two parts, broken between them where it would be too wide.
ghost use Rattle.std.specs.Prelude.{IfOk, string_bytes};
ghost use Rattle.reading_texts.specs.ReadingLines.{Begins};

use std::alloc::{AllocError, Global};

/// How many bytes the place and both parts have at most: with what stands between and behind them 100.
const WIDTH: usize = 96;

/// What is said of a place, in two parts: on one line where they fit, and else on two.
pub fn joined(alloc: Global, place: &str, first: &str, second: &str) -> Result<String, AllocError>
    ensures { IfOk result (λ line. Begins place.now (string_bytes line)) }
{
    let gap = gap_after(place.len().saturating_add(first.len()), second);
    format!(in alloc; "{place} {first};{gap}{second}.\n")
}

/// What stands behind the semicolon.
fn gap_after(width: usize, second: &str) -> &'static str {
    if width.saturating_add(second.len()) <= WIDTH {
        " "
    } else {
        "\n"
    }
}
