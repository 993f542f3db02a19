//! Hex that people write: in several words, with spaces, and with 0x before numbers.
ghost use Rattle.std.{specs.Prelude.{◌≡◌, ◌++◌, IfOk, OnOk, map, length, string_bytes}, specs.List.{flat_map}};
ghost use Rattle.byte_commands.specs.Worded.{cleaned};

use std::alloc::{AllocError, Global};

/// The digits of all words, without spaces and without each 0x.
pub fn cleaned_text(alloc: Global, words: &[String]) -> Result<Vec<u8>, AllocError>
    ensures { IfOk result (λ text. text.items ≡ flat_map cleaned (map string_bytes words.now)) }
{
    let mut text = Vec::new(alloc);
    for word in words {
        add_cleaned(word.as_bytes(), &mut text)?;
    }
    Ok(text)
}

/// Adds the digits of a word.
fn add_cleaned(word: &[u8], text: &mut Vec<u8>) -> Result<(), AllocError>
    ensures { OnOk result (text.new.items ≡ text.old.items ++ cleaned word.now) }
{
    let mut rest = word;
    while let [first, after @ ..] = rest {
        rest = match (first, after) {
            (b' ', _) => after,
            (b'0', [b'x', behind @ ..]) => behind,
            _ => {
                text.push(*first)?;
                after
            }
        };
    }
    Ok(())
}
