//! The keys of the slots as numbers, which are compared many at a time.
ghost use Rattle.std.{specs.Prelude.{◌≡◌, ◌==◌, length}, specs.List.{position_or_len}};
ghost use Rattle.mctp_transport.specs.KeyNumbers.{key_number, slot_number};

use super::MAX_SLOTS;
use super::open_message::OpenMessage;
use crate::address::Key;

/// The number of a slot without a message. No key has it.
pub(super) const FREE: u16 = 4096;

/// A key as the 12 bits that it takes in a packet's header: the source, the owner bit, the tag.
pub(super) fn number_of(key: Key) -> u16
    ensures { result ≡ key_number key }
{
    16 * u16::from(key.source.value) + 8 * u16::from(key.owner) + u16::from(key.tag.value)
}

/// The number of a slot: that of its message's key, or `FREE`.
pub(super) fn number_in(slot: Option<OpenMessage>) -> u16
    ensures { result ≡ slot_number slot }
{
    match slot {
        Some(message) => number_of(message.key),
        None => FREE,
    }
}

/// The first index of a number, or 64 where it has none.
///
/// Most messages come one at a time, in the first slot. Otherwise all numbers are looked at, without a branch on what
/// they are, so that the processor compares several at once. An index is as narrow as a number, so that no more rounds
/// are needed for the least index than for the numbers.
pub(super) fn first_index(numbers: &[u16], wanted: u16) -> usize
    requires { length numbers.now ≡ MAX_SLOTS }
    ensures { result ≡ position_or_len (λ number. number == wanted) numbers.now }
{
    if numbers[0] == wanted {
        return 0;
    }
    let mut first = MAX_SLOTS as u16;
    for index in 0..MAX_SLOTS {
        let found = if numbers[index] == wanted {
            index as u16
        } else {
            MAX_SLOTS as u16
        };
        first = first.min(found);
    }
    first as usize
}
