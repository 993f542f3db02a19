//! Lines and columns.
ghost use Rattle.std.specs.Prelude.{◌≡◌, ◌+◌, ◌≤◌, length, take, count_by};
ghost use Rattle.net_pointers.specs.Positions.{is_line_feed, begins_character, last_line};

/// Where a byte of a text stands.
#[derive(Clone, Copy, Debug, PartialEq, Eq)]
pub struct Position {
    /// From 1.
    pub line: usize,
    /// The character of the line, from 1.
    pub column: usize,
}

/// Where the byte at an offset of a text stands.
pub fn position_of(text: &[u8], offset: usize) -> Position
    requires { offset ≤ length text.now }
    ensures line { result.line ≡ count_by is_line_feed (take offset text.now) + 1 }
    ensures column { result.column ≡ count_by begins_character (last_line (take offset text.now)) + 1 }
{
    let before = &text[..offset];
    Position {
        line: count_line_feeds(before) + 1,
        column: count_characters(last_line(before)) + 1,
    }
}

fn count_line_feeds(bytes: &[u8]) -> usize
    ensures count { result ≡ count_by is_line_feed bytes.now }
    ensures within { result ≤ length bytes.now }
{
    bytes.iter().filter(|byte| **byte == b'\n').count()
}

fn count_characters(bytes: &[u8]) -> usize
    ensures count { result ≡ count_by begins_character bytes.now }
    ensures within { result ≤ length bytes.now }
{
    bytes
        .iter()
        .filter(|byte| **byte < 128 || 192 <= **byte)
        .count()
}

/// The bytes after the last line feed.
fn last_line(bytes: &[u8]) -> &[u8]
    ensures line { result.now ≡ last_line bytes.now }
    ensures within { length result.now ≤ length bytes.now }
{
    let mut start = 0;
    for (index, byte) in bytes.iter().enumerate() {
        if *byte == b'\n' {
            start = index + 1;
        }
    }
    &bytes[start..]
}
