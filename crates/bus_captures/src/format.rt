//! The byte order and the unit of time of a capture file, and numbers in that order.
ghost use Rattle.std.specs.Prelude.{◌≡◌, ◌≢◌, ◌<◌, ◌≤◌, ◌+◌, ◌^◌, ◌++◌, ℕ, List, length, MatchOption};
ghost use Rattle.bus_captures.{specs.Numbers.{number_bytes, short_bytes, number_at, short_at}, specs.Captures.{BeginsFile}, specs.declared.format.Order.{Order}, specs.declared.format.TimeUnit.{TimeUnit}};

use byteorder::{BigEndian, ByteOrder, LittleEndian};

/// Which byte of a number comes first: the lowest or the highest.
#[derive(Clone, Copy, Debug, PartialEq, Eq)]
pub enum Order {
    Little,
    Big,
}

/// What the fractions of seconds count.
#[derive(Clone, Copy, Debug, PartialEq, Eq)]
pub enum TimeUnit {
    Micro,
    Nano,
}

/// The byte order and the unit of time of a capture file, by its first four bytes, and the bytes behind them.
pub fn file_format(bytes: &[u8]) -> Option<(Order, TimeUnit, &[u8])>
    ensures { MatchOption result ((order : Order) (unit : TimeUnit) (behind : List ℕ) → ¬ BeginsFile order unit bytes.now behind)
        (λ r. BeginsFile r.0 r.1 bytes.now r.2.now) }
{
    match bytes {
        [0xd4, 0xc3, 0xb2, 0xa1, rest @ ..] => Some((Order::Little, TimeUnit::Micro, rest)),
        [0x4d, 0x3c, 0xb2, 0xa1, rest @ ..] => Some((Order::Little, TimeUnit::Nano, rest)),
        [0xa1, 0xb2, 0xc3, 0xd4, rest @ ..] => Some((Order::Big, TimeUnit::Micro, rest)),
        [0xa1, 0xb2, 0x3c, 0x4d, rest @ ..] => Some((Order::Big, TimeUnit::Nano, rest)),
        _ => None,
    }
}

/// The number in the first four bytes, and the bytes after them.
pub fn split_number(order: Order, bytes: &[u8]) -> Option<(u32, &[u8])>
    ensures { MatchOption result (length bytes.now < 4)
        (λ r. (r.0 < 2 ^ 32) × (bytes.now ≡ number_bytes order r.0 ++ r.1.now)) }
{
    let [_, _, _, _, rest @ ..] = bytes else {
        return None;
    };
    let number = match order {
        Order::Little => LittleEndian::read_u32(bytes),
        Order::Big => BigEndian::read_u32(bytes),
    };
    Some((number, rest))
}

/// The number in the first two bytes, and the bytes after them.
pub fn split_short(order: Order, bytes: &[u8]) -> Option<(u16, &[u8])>
    ensures { MatchOption result (length bytes.now < 2)
        (λ r. (r.0 < 2 ^ 16) × (bytes.now ≡ short_bytes order r.0 ++ r.1.now)) }
{
    let [_, _, rest @ ..] = bytes else {
        return None;
    };
    let number = match order {
        Order::Little => LittleEndian::read_u16(bytes),
        Order::Big => BigEndian::read_u16(bytes),
    };
    Some((number, rest))
}

/// The number in the four bytes from a place on.
pub fn number_at(order: Order, place: usize, bytes: &[u8]) -> u32
    requires { place + 4 ≤ length bytes.now }
    ensures { result ≡ number_at order place bytes.now }
{
    match order {
        Order::Little => LittleEndian::read_u32(&bytes[place..]),
        Order::Big => BigEndian::read_u32(&bytes[place..]),
    }
}

/// The number in the two bytes from a place on.
pub fn short_at(order: Order, place: usize, bytes: &[u8]) -> u16
    requires { place + 2 ≤ length bytes.now }
    ensures { result ≡ short_at order place bytes.now }
{
    match order {
        Order::Little => LittleEndian::read_u16(&bytes[place..]),
        Order::Big => BigEndian::read_u16(&bytes[place..]),
    }
}
