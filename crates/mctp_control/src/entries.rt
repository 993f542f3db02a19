//! The entries that one response brings.
ghost use Rattle.std.{specs.Prelude.{◌≡◌, ◌<◌, ◌≤◌, ◌+◌, ◌∷◌, ◌++◌, ℕ, List, length, drop, IfSome, IsSomeAnd}, specs.List.{AllByRecursion}};
ghost use Rattle.mctp_control.{specs.EntryLists.{SpellsEntries, entries_bytes, values_of}, specs.RouteEntries.{EntryValue, IsEntry, entry_bytes, entry_value}};

use crate::route_entry::{FIXED_LENGTH, RouteEntry};
use arrayvec::ArrayVec;
use mctp_transport::Wire;

/// The most bytes of entries in one response.
pub const MAX_ENTRY_BYTES: usize = 58;

/// The most entries in one response: the shortest have 6 bytes.
pub const MAX_ENTRIES: usize = 9;

/// Entries whose bytes fit one response: at most 58 bytes.
#[derive(Debug, PartialEq, Eq, Drop)]
pub struct Entries {
    /// At most nine, each of 6 bytes and its physical address.
    pub items: ArrayVec<RouteEntry, MAX_ENTRIES>,
    pub ghost fit: { length (entries_bytes (values_of items.items)) ≤ 58 },
}

/// The entry that the bytes begin with, and the bytes after it.
fn first_entry(bytes: &[u8]) -> Option<(RouteEntry, &[u8])>
    ensures some { IfSome result (λ p. IsEntry (entry_value p.0) × (bytes.now ≡ entry_bytes (entry_value p.0) ++ p.1.now)) }
    ensures all { (m : EntryValue) (more : List ℕ) → IsEntry m → bytes.now ≡ entry_bytes m ++ more
        → IsSomeAnd result (λ p. (entry_value p.0 ≡ m) × (p.1.now ≡ more)) }
{
    if bytes.len() < FIXED_LENGTH {
        return None;
    }
    let length = FIXED_LENGTH + bytes[5] as usize;
    if bytes.len() < length {
        return None;
    }
    let (front, rest) = bytes.split_at(length);
    let entry = RouteEntry::read(front).ok()?;
    Some((entry, rest))
}

impl Entries {
    ghost use Rattle.mctp_control.specs.EntriesValue.{entries_of};

    /// The `count` entries that the bytes are, all of them.
    pub(crate) fn read(count: u8, bytes: &[u8]) -> Option<Self>
        requires { length bytes.now ≤ 58 }
        ensures some { IfSome result (λ v. SpellsEntries (entries_of v) bytes.now × (length (entries_of v) ≡ count)) }
        ensures all { (es : List EntryValue) → SpellsEntries es bytes.now → length es ≡ count → IsSomeAnd result (λ v. entries_of v ≡ es) }
    {
        let mut items = ArrayVec::new();
        let mut rest = bytes;
        for _entry in 0..count {
            let (entry, after) = first_entry(rest)?;
            items.push(entry);
            rest = after;
        }
        if !rest.is_empty() {
            return None;
        }
        Some(Entries { items })
    }
}

/// How many bytes the entries have.
pub(crate) fn byte_count(entries: &[RouteEntry]) -> usize
    requires { length (entries_bytes (values_of entries.now)) ≤ 58 }
    ensures each { AllByRecursion IsEntry (values_of entries.now) }
    ensures count { result ≡ length (entries_bytes (values_of entries.now)) }
{
    let mut count = 0;
    for entry in entries {
        count += entry.len();
    }
    count
}

/// Writes the number, the code and the data of a part of a table at the front, and leaves the rest: the next entry
/// handle, the number of entries, the entries.
pub(crate) fn put_table(next: u8, entries: &[RouteEntry], out: &mut [u8])
    requires few { length entries.now < 256 }
    requires room { 4 + length (entries_bytes (values_of entries.now)) ≤ length out.old }
    ensures { out.new ≡ 10 ∷ 0 ∷ next ∷ length entries.now ∷ entries_bytes (values_of entries.now)
        ++ drop (4 + length (entries_bytes (values_of entries.now))) out.old }
{
    out[..4].copy_from_slice(&[10, 0, next, entries.len() as u8]);
    put_entries(entries, &mut out[4..]);
}

/// Writes the entries at the front, one after another, and leaves the rest.
fn put_entries(entries: &[RouteEntry], out: &mut [u8])
    requires { length (entries_bytes (values_of entries.now)) ≤ length out.old }
    ensures { out.new ≡ entries_bytes (values_of entries.now) ++ drop (length (entries_bytes (values_of entries.now))) out.old }
{
    let mut at = 0;
    for entry in entries {
        at += entry.put(&mut out[at..]);
    }
}
