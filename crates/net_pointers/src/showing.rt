//! Keys and texts as messages show them.
use std::alloc::{AllocError, Global};

/// How many characters are shown: with three dots behind them, 40.
pub const MOST_SHOWN: usize = 37;

/// The first characters of a text, one more than are shown.
pub fn first_characters(alloc: Global, text: &str) -> Result<Vec<char>, AllocError> {
    text.chars().take(MOST_SHOWN + 1).collect(alloc)
}

/// A key as it is shown: its beginning, and three dots where more follows.
pub fn shown_key(alloc: Global, key: &str) -> Result<String, AllocError> {
    let mut characters = first_characters(alloc, key)?;
    let dots = if MOST_SHOWN < characters.len() {
        "..."
    } else {
        ""
    };
    characters.truncate(MOST_SHOWN);
    shown_characters(alloc, &characters, dots)
}

/// Characters as they are shown, and what stands behind them.
pub fn shown_characters(
    alloc: Global,
    characters: &[char],
    dots: &str,
) -> Result<String, AllocError> {
    let shown: String = characters.iter().copied().map(printable).collect(alloc)?;
    format!(in alloc; "{shown}{dots}")
}

/// A question mark for a character that a terminal may take for more than a sign.
fn printable(character: char) -> char {
    if is_unprintable(character) {
        return '?';
    }
    character
}

/// Whether this is a control character, a separator of lines, or a mark that turns the direction of writing.
fn is_unprintable(character: char) -> bool {
    matches!(
        character,
        '\0'..='\u{1f}'
            | '\u{7f}'..='\u{9f}'
            | '\u{61c}'
            | '\u{200e}'..='\u{200f}'
            | '\u{2028}'..='\u{202e}'
            | '\u{2066}'..='\u{2069}'
    )
}
