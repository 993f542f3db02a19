//! A line of a text capture.
ghost use Rattle.std.specs.Prelude.{◌≡◌, IfOk};
ghost use Rattle.bus_captures.{specs.Lines.{IsTextRead, uncommented, is_time, word, behind_word, time_of, untimed, direction_in, head_of, packet_head, message_head}, specs.LineValues.{Says, head_value, IsLineOf, IsPacketOrMessage}, specs.Values.{time_value}};

use crate::capture::{Direction, Entry, Interface, Kind, Time};
use crate::hex_text::bytes_of_hex;
use crate::smbus::unframed;
use crate::sort::{Sort, skip};
use std::alloc::{AllocError, Global};

/// What a line says.
#[derive(Debug, Drop)]
pub enum Line<'a> {
    /// Nothing but a comment.
    Nothing,
    Entry(Entry<'a>),
    /// Something that is no entry.
    Bad,
}

/// What a line says, with its bytes still in hex.
#[derive(Clone, Copy, Debug)]
struct Head<'a> {
    time: Time<'a>,
    direction: Option<Direction>,
    kind: Kind,
    hex: &'a [u8],
}

/// A line says nothing of its interface.
const NOWHERE: Interface = Interface {
    number: None,
    index: None,
};

/// What the line says.
pub fn read_line<'a>(alloc: Global, line: &'a [u8]) -> Result<Line<'a>, AllocError>
    ensures { IfOk result (λ said. Says (uncommented line.now) said) }
{
    read_text_of_line(alloc, uncommented(line))
}

/// The line without its comment.
pub fn uncommented(line: &[u8]) -> &[u8]
    ensures { result.now ≡ uncommented line.now }
{
    line.split_at(Sort::Hash.before(line)).0
}

fn read_text_of_line<'a>(alloc: Global, text: &'a [u8]) -> Result<Line<'a>, AllocError>
    ensures { IfOk result (λ said. Says text.now said) }
{
    if Sort::NoSpace.before(text) == text.len() {
        return Ok(Line::Nothing);
    }
    let head = head_of_text(text);
    match bytes_of_hex(alloc, head.hex)? {
        Some(bytes) => line_of(alloc, &head, bytes),
        None => Ok(Line::Bad),
    }
}

/// The line of these bytes. No bytes are no entry.
fn line_of<'a>(alloc: Global, head: &Head<'a>, bytes: Vec<u8>) -> Result<Line<'a>, AllocError>
    requires { IsPacketOrMessage head.now.kind }
    ensures { IfOk result (λ line. IsLineOf (head_value head.now) bytes.items line) }
{
    if bytes.is_empty() {
        return Ok(Line::Bad);
    }
    let (kind, bytes) = read_of(alloc, head.kind, bytes)?;
    Ok(Line::Entry(Entry {
        time: head.time,
        direction: head.direction,
        interface: NOWHERE,
        name: None,
        kind,
        bytes,
    }))
}

/// What is read of the bytes of a packet, or of a message.
fn read_of(alloc: Global, kind: Kind, bytes: Vec<u8>) -> Result<(Kind, Vec<u8>), AllocError>
    requires { IsPacketOrMessage kind }
    ensures { IfOk result (λ r. IsTextRead kind bytes.items r.0 r.1.items) }
{
    if kind != Kind::Packet {
        return Ok((kind, bytes));
    }
    let (kind, read) = unframed(&bytes);
    Ok((kind, Vec::from_slice(alloc, read)?))
}

/// What a line's text says, with its bytes still in hex.
fn head_of_text(text: &[u8]) -> Head<'_>
    ensures head { head_value result ≡ head_of text.now }
    ensures kind { IsPacketOrMessage result.kind }
{
    let behind = Sort::Colon.behind(text);
    if behind < text.len() {
        let start = text.len() - behind;
        message_head(&text[..start - 1], skip(text, start))
    } else {
        packet_head(text)
    }
}

fn message_head<'a>(words: &'a [u8], hex: &'a [u8]) -> Head<'a>
    ensures head { head_value result ≡ message_head words.now hex.now }
    ensures kind { result.kind ≡ Kind.Message }
{
    let (time, _) = split_time(words);
    Head {
        time,
        direction: direction_in(words),
        kind: Kind::Message,
        hex,
    }
}

fn packet_head(text: &[u8]) -> Head<'_>
    ensures head { head_value result ≡ packet_head text.now }
    ensures kind { result.kind ≡ Kind.Packet }
{
    let (time, hex) = split_time(text);
    Head {
        time,
        direction: None,
        kind: Kind::Packet,
        hex,
    }
}

/// The way that the words' last one tells.
fn direction_in(words: &[u8]) -> Option<Direction>
    ensures { result ≡ direction_in words.now }
{
    if words.ends_with(b"Tx") {
        Some(Direction::Sent)
    } else if words.ends_with(b"Rx") {
        Some(Direction::Received)
    } else {
        None
    }
}

/// The time with which the text begins, and the text without it.
fn split_time(text: &[u8]) -> (Time<'_>, &[u8])
    ensures time { time_value result.0 ≡ time_of text.now }
    ensures rest { result.1.now ≡ untimed text.now }
{
    let (word, behind) = split_word(text);
    if is_time(word) {
        (Time::Written(word), behind)
    } else {
        (Time::Unknown, text)
    }
}

/// The first word, and what stands behind it.
pub fn split_word(text: &[u8]) -> (&[u8], &[u8])
    ensures word { result.0.now ≡ word text.now }
    ensures behind { result.1.now ≡ behind_word text.now }
{
    let from_word = skip(text, Sort::NoSpace.before(text));
    from_word.split_at(Sort::Space.before(from_word))
}

/// Whether the word is digits, a point, and digits.
fn is_time(word: &[u8]) -> bool
    ensures { result ≡ is_time word.now }
{
    let digits = Sort::NoDecimal.before(word);
    if digits == 0 || word.len() <= digits + 1 {
        return false;
    }
    let fraction = skip(word, digits + 1);
    word[digits] == b'.' && Sort::NoDecimal.before(fraction) == fraction.len()
}
