//! How many slots are taken.
ghost use Rattle.std.specs.Prelude.{◌≡◌, ◌≤◌, is_some, count_by, length};

use super::open_message::OpenMessage;

/// How many slots have a message.
pub(super) fn open_in(slots: &[Option<OpenMessage>]) -> usize
    ensures count { result ≡ count_by is_some slots.now }
    ensures most { result ≤ length slots.now }
{
    slots.iter().filter(|slot| slot.is_some()).count()
}
