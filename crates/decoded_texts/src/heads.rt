//! What stands before what became of an entry: its number, when and where it was captured, and which way it went.

use bus_captures::{Direction, Entry, Interface, Kind, Time};
use std::alloc::{AllocError, Global};

/// How many nanoseconds a second has.
const SECOND: u64 = 1_000_000_000;

/// The number of an entry, its time in seconds, its interface and its way, as far as the capture has them.
pub fn head_text(alloc: Global, number: usize, entry: &Entry) -> Result<String, AllocError> {
    let mut text = format!(in alloc; "{number}")?;
    push_time(alloc, &mut text, entry.time)?;
    push_interface(&mut text, entry.interface, entry.name)?;
    text.push_str(way_words(entry.kind, entry.direction))?;
    Ok(text)
}

fn push_time(alloc: Global, text: &mut String, time: Time) -> Result<(), AllocError> {
    match time {
        Time::Unknown => Ok(()),
        Time::Written(digits) => {
            let digits = String::from_utf8_lossy(alloc, digits)?;
            write!(text, " time {digits}")
        }
        Time::At {
            seconds,
            nanoseconds,
        } => {
            let whole = u128::from(seconds) + u128::from(nanoseconds / SECOND);
            write!(text, " time {whole}.")?;
            push_nine_digits(text, nanoseconds % SECOND)
        }
    }
}

/// Adds a number with zeros before it, in nine digits.
fn push_nine_digits(text: &mut String, number: u64) -> Result<(), AllocError> {
    write!(text, "{number:09}")
}

fn push_interface(
    text: &mut String,
    interface: Interface,
    name: Option<&[u8]>,
) -> Result<(), AllocError> {
    push_number(text, " interface ", interface.number)?;
    push_name(text, name)?;
    push_number(text, " ifindex ", interface.index)
}

/// Adds the name of an interface, if it has one.
fn push_name(text: &mut String, name: Option<&[u8]>) -> Result<(), AllocError> {
    match name {
        None => Ok(()),
        Some(name) => {
            text.push_str(" name ")?;
            push_shown(text, name)
        }
    }
}

/// Adds the bytes of a name as they are shown.
fn push_shown(text: &mut String, name: &[u8]) -> Result<(), AllocError> {
    for byte in name.iter() {
        text.push(char::from(shown_byte(*byte)))?;
    }
    Ok(())
}

/// A question mark for what is no printable character of ASCII, and for a blank.
fn shown_byte(byte: u8) -> u8 {
    if byte.is_ascii_graphic() { byte } else { b'?' }
}

/// Adds a number behind its words, if there is one.
fn push_number(text: &mut String, words: &str, number: Option<u32>) -> Result<(), AllocError> {
    match number {
        None => Ok(()),
        Some(number) => write!(text, "{words}{number}"),
    }
}

/// The way of what isn't a message: a message has it in words of its own.
fn way_words(kind: Kind, way: Option<Direction>) -> &'static str {
    match (kind, way) {
        (Kind::Message, _) | (_, None) => "",
        (_, Some(Direction::Sent)) => " out",
        (_, Some(Direction::Received)) => " in",
    }
}
