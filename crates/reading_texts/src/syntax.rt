//! Where a text stops being JSON.
ghost use Rattle.std.specs.Prelude.{IfOk, string_bytes};
ghost use Rattle.net_pointers.specs.TextTroubles.{IsFaultOfJson};
ghost use Rattle.reading_texts.specs.TroubleLines.{AreJsonLines};

use crate::positions::position_text;
use crate::syntax_causes::{cause_line, encoding_line};
use net_pointers::{JsonFault, Wanted};
use std::alloc::{AllocError, Global};

/// The line that tells where a text stops being JSON, and what may stand there; and a line that tells why, where the
/// bytes there do.
pub fn json_lines(alloc: Global, text: &[u8], fault: JsonFault) -> Result<String, AllocError>
    requires { IsFaultOfJson text.now fault }
    ensures { IfOk result (λ lines. AreJsonLines text.now fault (string_bytes lines)) }
{
    match fault {
        JsonFault::NotUtf8(offset) => {
            let position = position_text(alloc, text, Some(offset))?;
            let cause = encoding_line(text, offset);
            format!(in alloc; "{position}invalid UTF-8.\n{cause}")
        }
        JsonFault::Unreadable(offset, wanted) => {
            let position = position_text(alloc, text, Some(offset))?;
            let expected = expected_line(alloc, wanted)?;
            let cause = cause_line(text, offset);
            format!(in alloc; "{position}{expected}{cause}")
        }
    }
}

/// What may stand where a text stops being JSON, or that it nests too deep there.
fn expected_line(alloc: Global, wanted: Wanted) -> Result<String, AllocError> {
    let words = match wanted {
        Wanted::Value => "a value",
        Wanted::ValueOrEnd => "a value or ']'",
        Wanted::Key => "a key in quotes",
        Wanted::KeyOrEnd => "a key in quotes or '}'",
        Wanted::Colon => "':'",
        Wanted::CommaOrEndOfList => "',' or ']'",
        Wanted::CommaOrEndOfObject => "',' or '}'",
        Wanted::End => "the end of the text",
        Wanted::LessDepth => return "nested 128 deep; the limit is 127.\n".to_string(alloc),
    };
    format!(in alloc; "expected {words}.\n")
}
