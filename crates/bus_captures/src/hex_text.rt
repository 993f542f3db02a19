//! Bytes in hex, as a line has them.
ghost use Rattle.std.specs.Prelude.{◌≡◌, ◌++◌, ◌∷◌, [], ℕ, ◌<◌, List, IfOk, MatchOption, length};
ghost use Rattle.bus_captures.{specs.Fronts.{IsFront}, specs.Hex.{IsDigit, IsByte, IsHex, IsOnlyHex, IsHexOrNot}};

use crate::sort::is_space;
use std::alloc::{AllocError, Global};

/// The value of a digit of either case.
fn digit(byte: u8) -> Option<u8>
    ensures { MatchOption result ((value : ℕ) → ¬ IsDigit byte value) (λ value. (value < 16) × IsDigit byte value) }
{
    match byte {
        b'0'..=b'9' => Some(byte - b'0'),
        b'A'..=b'F' => Some(byte - b'A' + 10),
        b'a'..=b'f' => Some(byte - b'a' + 10),
        _ => None,
    }
}

/// What stands at the front of a text in hex.
#[derive(Clone, Copy, Debug)]
enum Front<'a> {
    /// Nothing.
    End,
    /// A space, or `0x`, and what stands behind it.
    Passed(&'a [u8]),
    /// A byte, and what stands behind it.
    Byte(u8, &'a [u8]),
    /// Something else.
    Other,
}

/// The byte of two digits.
fn byte_of(high: u8, low: u8) -> Option<u8>
    ensures { MatchOption result ((byte : ℕ) → ¬ IsByte high low byte) (λ byte. IsByte high low byte) }
{
    match digit(high) {
        Some(high) => match digit(low) {
            Some(low) => Some(16 * high + low),
            None => None,
        },
        None => None,
    }
}

/// The first byte, and the bytes after it.
fn split_first(text: &[u8]) -> Option<(u8, &[u8])>
    ensures { MatchOption result (text.now ≡ []) (λ r. text.now ≡ r.0 ∷ r.1.now) }
{
    let [first, rest @ ..] = text else {
        return None;
    };
    Some((*first, rest))
}

fn front_of(text: &[u8]) -> Front<'_>
    ensures { IsFront text.now result }
{
    let Some((first, rest)) = split_first(text) else {
        return Front::End;
    };
    if is_space(first) {
        return Front::Passed(rest);
    }
    let Some((second, rest)) = split_first(rest) else {
        return Front::Other;
    };
    if first == b'0' && second == b'x' {
        return Front::Passed(rest);
    }
    match byte_of(first, second) {
        Some(byte) => Front::Byte(byte, rest),
        None => Front::Other,
    }
}

/// The bytes that the text is in hex, or nothing where it is something else.
pub fn bytes_of_hex(alloc: Global, text: &[u8]) -> Result<Option<Vec<u8>>, AllocError>
    ensures { IfOk result (λ found. MatchOption found ((bytes : List ℕ) → ¬ IsHex text.now bytes)
        (λ bytes. IsOnlyHex text.now bytes.items)) }
{
    let mut bytes = Vec::new(alloc);
    if add_bytes(text, &mut bytes)? {
        Ok(Some(bytes))
    } else {
        Ok(None)
    }
}

/// Adds the bytes that the text is in hex. False where it is something else.
fn add_bytes(text: &[u8], bytes: &mut Vec<u8>) -> Result<bool, AllocError>
    requires { bytes.old.items ≡ [] }
    ensures { IfOk result (λ is_hex. IsHexOrNot text.now is_hex bytes.new.items) }
{
    let mut left = text;
    loop {
        match front_of(left) {
            Front::End => return Ok(true),
            Front::Other => return Ok(false),
            Front::Passed(rest) => left = rest,
            Front::Byte(byte, rest) => {
                bytes.push(byte)?;
                left = rest;
            }
        }
    }
}
