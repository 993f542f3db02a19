//! The texts by which a board gives endpoint IDs, ports and rows.
use crate::board::BoardRow;

/// The index of a name.
pub fn index_of(names: &[&str], name: &str) -> Option<usize> {
    for (index, own) in names.iter().enumerate() {
        if *own == name {
            return Some(index);
        }
    }
    None
}

/// The first endpoint ID of a pool, and how many it has: `FIRST-LAST`, or one number.
pub fn read_pool_eids(text: &str) -> Option<(u8, u8)> {
    match text.split_once('-') {
        Some((first, last)) => run_of(decimal(first)?, decimal(last)?),
        None => Some((decimal(text)?, 1)),
    }
}

/// The same of a row, where one endpoint ID is one number.
fn read_row_eids(text: &str) -> Option<(u8, u8)> {
    let (first, size) = read_pool_eids(text)?;
    if size == 1 && text.contains('-') {
        return None;
    }
    Some((first, size))
}

/// Endpoint IDs up to the last, and how many they are.
fn run_of(first: u8, last: u8) -> Option<(u8, u8)> {
    let more = last.checked_sub(first)?;
    Some((first, more.checked_add(1)?))
}

/// A byte in decimal digits, without a sign or zeros before.
pub fn decimal(text: &str) -> Option<u8> {
    let is_plain = match text.as_bytes() {
        [] => false,
        [b'0'] => true,
        [b'0', ..] | [b'+', ..] => false,
        _ => true,
    };
    if !is_plain {
        return None;
    }
    text.parse().ok()
}

/// The index of a port's bus, and its address in hex, which may be empty: `BUS`, or `BUS HEX`.
pub fn read_port<'t>(text: &'t str, buses: &[&str]) -> Option<(usize, &'t str)> {
    match text.split_once(' ') {
        Some((bus, address)) => {
            if address.is_empty() || !is_address(address) {
                return None;
            }
            Some((index_of(buses, bus)?, address))
        }
        None => Some((index_of(buses, text)?, "")),
    }
}

/// Whether a text is hex of at most 8 bytes.
fn is_address(text: &str) -> bool {
    text.len() <= 16 && is_lower_hex(text)
}

/// Whether a text is hex, in lower-case letters.
pub fn is_lower_hex(text: &str) -> bool {
    text.len() % 2 == 0 && text.bytes().all(is_hex_digit)
}

fn is_hex_digit(byte: u8) -> bool {
    matches!(byte, b'0'..=b'9' | b'a'..=b'f')
}

/// A row: `EIDS via NODE port NUMBER`, the number at most 31.
pub fn read_row(text: &str, nodes: &[&str]) -> Option<BoardRow> {
    let (eids, rest) = text.split_once(" via ")?;
    let (next, port) = rest.split_once(" port ")?;
    let (first, size) = read_row_eids(eids)?;
    let next = index_of(nodes, next)?;
    let port = usize::from(decimal(port)?);
    if port > 31 {
        return None;
    }
    Some(BoardRow {
        next,
        first,
        size,
        port,
    })
}
