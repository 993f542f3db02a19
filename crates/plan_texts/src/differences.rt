//! The first line in which two texts differ.
ghost use Rattle.std.{specs.Prelude.{◌≡◌, ◌+◌, ◌<◌, ◌^◌, IfOk, IfNone, IfSome, map, string_bytes}, specs.Option.{option_copied}, specs.Str.Lines.{lines}};
ghost use Rattle.plan_texts.specs.DifferenceLines.{DifferFirstAt, IsDifferenceText, difference_text, expected_text, came_text};

use std::alloc::{AllocError, Global};

/// What is told of the first line in which a text that came differs from the one that was wanted, with what stands
/// there in both; none where all lines are the same. A line ends at a line feed; the last one may lack it.
pub fn first_difference(
    alloc: Global,
    wanted: &str,
    came: &str,
) -> Result<Option<String>, AllocError>
    ensures same { IfOk result (λ found. IfNone found (lines wanted.now ≡ lines came.now)) }
    ensures differs { IfOk result (λ found. IfSome found (λ text. IsDifferenceText (lines wanted.now) (lines came.now) (string_bytes text))) }
{
    let wanted = lines_of(alloc, wanted)?;
    let came = lines_of(alloc, came)?;
    told_difference(alloc, &wanted, &came)
}

/// The lines of a text.
fn lines_of<'t>(alloc: Global, text: &'t str) -> Result<Vec<&'t str>, AllocError>
    ensures { IfOk result (λ found. map (λ line. line.now) found.items ≡ lines text.now) }
{
    text.lines().collect(alloc)
}

/// What is told of the first line in which lists of lines differ.
fn told_difference(
    alloc: Global,
    wanted: &[&str],
    came: &[&str],
) -> Result<Option<String>, AllocError>
    ensures same { IfOk result (λ found. IfNone found (map (λ line. line.now) wanted.now ≡ map (λ line. line.now) came.now)) }
    ensures differs { IfOk result (λ found. IfSome found (λ text. IsDifferenceText (map (λ line. line.now) wanted.now) (map (λ line. line.now) came.now) (string_bytes text))) }
{
    match differing_index(wanted, came) {
        Some(index) => {
            let told = difference_text(
                alloc,
                index,
                wanted.get(index).copied(),
                came.get(index).copied(),
            )?;
            Ok(Some(told))
        }
        None => Ok(None),
    }
}

/// The index of the first line in which lists of lines differ.
fn differing_index(wanted: &[&str], came: &[&str]) -> Option<usize>
    ensures same { IfNone result (map (λ line. line.now) wanted.now ≡ map (λ line. line.now) came.now) }
    ensures differs { IfSome result (DifferFirstAt (map (λ line. line.now) wanted.now) (map (λ line. line.now) came.now)) }
    ensures small { IfSome result (λ index. index + 1 < 2 ^ 64) }
{
    let common = wanted.len().min(came.len());
    for index in 0..common {
        if wanted[index] != came[index] {
            return Some(index);
        }
    }
    if wanted.len() == came.len() {
        return None;
    }
    Some(common)
}

/// What is told of the line of an index.
fn difference_text(
    alloc: Global,
    index: usize,
    wanted: Option<&str>,
    came: Option<&str>,
) -> Result<String, AllocError>
    requires { index + 1 < 2 ^ 64 }
    ensures { IfOk result (λ text. string_bytes text ≡ difference_text index (option_copied wanted.entry) (option_copied came.entry)) }
{
    let number = index + 1;
    let wanted = expected_text(alloc, wanted)?;
    let came = came_text(alloc, came)?;
    format!(in alloc; "line {number} differs\n{wanted}{came}")
}

fn expected_text(alloc: Global, line: Option<&str>) -> Result<String, AllocError>
    ensures { IfOk result (λ text. string_bytes text ≡ expected_text (option_copied line.entry)) }
{
    match line {
        Some(line) => format!(in alloc; "expected: {line}\n"),
        None => String::from_str(alloc, "expected no more lines\n"),
    }
}

fn came_text(alloc: Global, line: Option<&str>) -> Result<String, AllocError>
    ensures { IfOk result (λ text. string_bytes text ≡ came_text (option_copied line.entry)) }
{
    match line {
        Some(line) => format!(in alloc; "came: {line}\n"),
        None => String::from_str(alloc, "no more lines came\n"),
    }
}
