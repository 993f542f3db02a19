//! What stands at an offset of a text, as far as it is shown.
ghost use Rattle.std.specs.Prelude.{◌≤◌, length};

use net_pointers::{MOST_SHOWN, first_characters, shown_characters};
use std::alloc::{AllocError, Global};

/// The text from an offset on; an empty one where that is no UTF-8.
pub fn rest_at(text: &[u8], offset: usize) -> &str
    requires { offset ≤ length text.now }
{
    match simdutf8::compat::from_utf8(&text[offset..]) {
        Ok(rest) => rest,
        Err(_) => "",
    }
}

/// What a text begins with, as far as it is shown.
pub fn shown_text(alloc: Global, text: &str) -> Result<String, AllocError> {
    let characters = first_characters(alloc, text)?;
    let characters = characters.as_slice();
    let length = shown_length(characters);
    let dots = dots_after(characters, length);
    shown_characters(alloc, &characters[..length], dots)
}

/// How many of these characters are shown.
fn shown_length(characters: &[char]) -> usize
    ensures { result ≤ length characters.now }
{
    for count in 1..characters.len() {
        if count == MOST_SHOWN || ends_at(characters, count) {
            return count;
        }
    }
    characters.len()
}

/// Whether what begins with these characters may end behind so many of them.
fn ends_at(characters: &[char], count: usize) -> bool {
    match characters.first() {
        Some('"') => ends_quoted(characters, count),
        Some('[' | '{') => ends_bracketed(characters, count),
        _ => ends_word(character_at(characters, count)),
    }
}

/// Whether so many characters end with a quote that is not the first of them, and not escaped.
fn ends_quoted(characters: &[char], count: usize) -> bool {
    1 < count && character_at(characters, count - 1) == '"' && !is_escaped(characters, count - 1)
}

/// Whether the character at an index is the second of an escape.
fn is_escaped(characters: &[char], index: usize) -> bool {
    let mut escaped = false;
    for before in 0..index {
        escaped = character_at(characters, before) == '\\' && !escaped;
    }
    escaped
}

/// Whether so many characters end with a closing bracket, or a line ends behind them.
fn ends_bracketed(characters: &[char], count: usize) -> bool {
    let last = character_at(characters, count.saturating_sub(1));
    last == ']' || last == '}' || character_at(characters, count) == '\n'
}

fn character_at(characters: &[char], index: usize) -> char {
    characters.get(index).copied().unwrap_or('\0')
}

/// Whether a number or a word of JSON ends before this character.
fn ends_word(character: char) -> bool {
    matches!(character, ',' | ']' | '}' | ' ' | '\t' | '\n' | '\r')
}

/// Three dots where more follows.
fn dots_after(characters: &[char], count: usize) -> &'static str {
    if count == characters.len() || ends_at(characters, count) {
        return "";
    }
    "..."
}
