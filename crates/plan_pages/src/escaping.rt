//! Texts as they stand in HTML.
ghost use Rattle.std.specs.Prelude.{◌≡◌, ◌++◌, IfOk, OnOk, encode_utf8_all, string_bytes};
ghost use Rattle.plan_pages.specs.Pages.{escaped, escaped_char};

use std::alloc::{AllocError, Global};

/// A text as it stands in HTML, also between quotes: `&`, `<`, `>` and `"` are written as references.
pub fn escaped(alloc: Global, text: &str) -> Result<String, AllocError>
    ensures { IfOk result (λ written. string_bytes written ≡ escaped text.now) }
{
    let mut written = String::new(alloc);
    for character in text.chars() {
        push_escaped(&mut written, character)?;
    }
    Ok(written)
}

/// Adds a character, or its reference.
fn push_escaped(written: &mut String, character: char) -> Result<(), AllocError>
    ensures { OnOk result (string_bytes written.new ≡ string_bytes written.old ++ encode_utf8_all (escaped_char character)) }
{
    match character {
        '&' => written.push_str("&amp;"),
        '<' => written.push_str("&lt;"),
        '>' => written.push_str("&gt;"),
        '"' => written.push_str("&quot;"),
        _ => written.push(character),
    }
}
