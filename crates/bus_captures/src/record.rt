//! Records of a capture file.
ghost use Rattle.std.specs.Prelude.{◌≡◌, ◌++◌, List, IfOk, MatchOption};
ghost use Rattle.bus_captures.{specs.Files.{FileRecord, IsRecord, record_bytes, Begins, IsEntryOf}, specs.Records.{record_value}, specs.Values.{entry_value}};

use crate::capture::{Entry, Time};
use crate::format::{Order, TimeUnit, split_number};
use crate::frame::frame_of;
use crate::link::Link;
use crate::time::nanoseconds;
use std::alloc::{AllocError, Global};

/// One record: when it was captured, how long the packet was on the bus, and what was kept of it.
#[derive(Clone, Copy, Debug)]
pub struct Record<'a> {
    pub seconds: u32,
    pub fraction: u32,
    pub original: u32,
    pub bytes: &'a [u8],
}

/// The record at the front of the bytes, and the bytes after it.
pub fn split_record(order: Order, bytes: &[u8]) -> Option<(Record<'_>, &[u8])>
    ensures { MatchOption result ((r : FileRecord) → ¬ Begins order bytes.now r)
        (λ r. IsRecord (record_value r.0) × (bytes.now ≡ record_bytes order (record_value r.0) ++ r.1.now)) }
{
    let (seconds, left) = split_number(order, bytes)?;
    let (fraction, left) = split_number(order, left)?;
    let (count, left) = split_number(order, left)?;
    let (original, left) = split_number(order, left)?;
    if left.len() < count as usize {
        return None;
    }
    let (kept, rest) = left.split_at(count as usize);
    let record = Record {
        seconds,
        fraction,
        original,
        bytes: kept,
    };
    Some((record, rest))
}

/// What was captured in a record.
pub fn entry_of<'a>(
    alloc: Global,
    unit: TimeUnit,
    link: Link,
    kept: &Record,
) -> Result<Entry<'a>, AllocError>
    ensures { IfOk result (λ entry. IsEntryOf unit link (record_value kept.now) (entry_value entry)) }
{
    let time = Time::At {
        seconds: u64::from(kept.seconds),
        nanoseconds: nanoseconds(unit, kept.fraction),
    };
    frame_of(link, kept.original, kept.bytes).entry(alloc, time, None, None)
}
