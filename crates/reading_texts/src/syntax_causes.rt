//! Why a text stops being JSON, where the bytes there tell it.
ghost use Rattle.std.specs.Prelude.{◌≤◌, ◌<◌, length};

use net_pointers::{closing_quote, is_blank};

/// The line of the cause at an offset, where there is one.
pub fn cause_line(text: &[u8], offset: usize) -> &'static str
    requires { offset ≤ length text.now }
{
    let last = last_filled(&text[..offset]);
    if offset == text.len() {
        return end_line(last);
    }
    if is_mark(text, offset) {
        return "A byte order mark stands there.\n";
    }
    byte_line(
        &text[offset + 1..],
        byte_at(text, offset),
        byte_at(text, offset + 1),
        last,
    )
}

/// The line of a text that is no UTF-8 from an offset on: whether it begins as UTF-16 does.
pub fn encoding_line(text: &[u8], offset: usize) -> &'static str {
    if offset == 0 && are_marks(byte_at(text, 0), byte_at(text, 1)) {
        "The text begins as UTF-16 does.\n"
    } else {
        ""
    }
}

/// Whether two bytes are the byte order mark of UTF-16, in either order.
fn are_marks(first: u8, second: u8) -> bool {
    matches!((first, second), (0xfe, 0xff) | (0xff, 0xfe))
}

/// The line of a text that ends there: whether it has anything else than white space.
fn end_line(last: Option<u8>) -> &'static str {
    match last {
        Some(_) => "The text ends too early.\n",
        None => "The text is empty.\n",
    }
}

/// The line by the byte there, the next one, and the last one before it that is no white space.
fn byte_line(rest: &[u8], byte: u8, next: u8, last: Option<u8>) -> &'static str {
    if byte == 0 {
        "A null character stands there, as in UTF-16.\n"
    } else if byte == b'0' && (next == b'x' || next == b'X') {
        "JSON has no hexadecimal numbers.\n"
    } else if byte == b'0' && is_digit(next) {
        "A number has no leading zeros.\n"
    } else if byte == b'/' || byte == b'#' {
        "JSON has no comments.\n"
    } else if byte == b'\'' {
        "A text stands in double quotes.\n"
    } else if matches!((byte, last), (b']' | b'}', Some(b','))) {
        "A comma stands only between two items.\n"
    } else if byte == b'"' {
        quotes_line(rest)
    } else {
        ""
    }
}

/// The line by the bytes behind a quote.
fn quotes_line(rest: &[u8]) -> &'static str {
    let count = closing_quote(rest);
    quoted_line(&rest[..count], count == rest.len())
}

/// The line by the bytes within quotes, and whether the text ends with them.
fn quoted_line(quoted: &[u8], ends: bool) -> &'static str {
    if has_line_feed(quoted) {
        "The quotes don't end on their line; a line break within them is written \\n.\n"
    } else if has_control(quoted) {
        "A control character in a text is written with a backslash, as \\t.\n"
    } else if ends {
        "The text ends within quotes.\n"
    } else {
        ""
    }
}

/// The byte at an index, 0 where there is none.
fn byte_at(text: &[u8], index: usize) -> u8 {
    text.get(index).copied().unwrap_or(0)
}

/// Whether the three bytes of a byte order mark stand there.
fn is_mark(text: &[u8], index: usize) -> bool
    requires { index < length text.now }
{
    byte_at(text, index) == 0xef
        && byte_at(text, index + 1) == 0xbb
        && byte_at(text, index + 2) == 0xbf
}

fn is_digit(byte: u8) -> bool {
    b'0' <= byte && byte <= b'9'
}

fn has_line_feed(bytes: &[u8]) -> bool {
    bytes.iter().any(|byte| *byte == b'\n')
}

fn has_control(bytes: &[u8]) -> bool {
    bytes.iter().any(|byte| *byte < 32)
}

/// The last byte that is no white space.
fn last_filled(bytes: &[u8]) -> Option<u8> {
    let mut last = None;
    for byte in bytes {
        if !is_blank(*byte) {
            last = Some(*byte);
        }
    }
    last
}
