//! Capture files: a header and records (libpcap's format, version 2.4).
ghost use Rattle.std.specs.Prelude.{◌≡◌, [], map, IfOk, MatchResult};
ghost use Rattle.bus_captures.{specs.Files.{IsBody, HasNoHeader, HasHeader, IsFile}, specs.Values.{entry_value}};

use crate::capture::{Capture, CaptureFault, End, Entry, MAX_ENTRIES};
use crate::format::{Order, TimeUnit, split_number};
use crate::link::Link;
use crate::record::{entry_of, split_record};
use std::alloc::{AllocError, Global};

/// How many bytes of the header are passed over.
const AHEAD: usize = 16;

/// The entries of the file whose first four bytes say this and are followed by these bytes.
pub fn read_file<'a>(
    alloc: Global,
    order: Order,
    unit: TimeUnit,
    bytes: &'a [u8],
) -> Result<Capture<'a>, AllocError>
    ensures { IfOk result (λ capture. IsFile order unit bytes.now (map entry_value capture.entries.items) capture.end) }
{
    match split_header(order, bytes) {
        Ok((link, body)) => read_body(alloc, order, unit, link, body),
        Err(fault) => Ok(Capture {
            entries: Vec::new(alloc),
            end: End::Broken { place: 0, fault },
        }),
    }
}

/// The link type of a file, and the bytes behind its header.
fn split_header(order: Order, bytes: &[u8]) -> Result<(Link, &[u8]), CaptureFault>
    ensures { MatchResult result (λ r. HasHeader order bytes.now r.0 r.1.now) (λ fault. HasNoHeader order bytes.now fault) }
{
    if bytes.len() < AHEAD + 4 {
        return Err(CaptureFault::Header);
    }
    let (_ahead, behind) = bytes.split_at(AHEAD);
    let Some((number, body)) = split_number(order, behind) else {
        return Err(CaptureFault::Header);
    };
    match Link::of(number) {
        Some(link) => Ok((link, body)),
        None => Err(CaptureFault::Link(number)),
    }
}

/// The entries of a file's records.
fn read_body<'a>(
    alloc: Global,
    order: Order,
    unit: TimeUnit,
    link: Link,
    bytes: &'a [u8],
) -> Result<Capture<'a>, AllocError>
    ensures { IfOk result (λ capture. IsBody order unit link bytes.now (map entry_value capture.entries.items) capture.end) }
{
    let mut entries = Vec::new(alloc);
    let end = add_entries(alloc, order, unit, link, bytes, &mut entries)?;
    Ok(Capture { entries, end })
}

/// Adds the entries of a file's records, and says how reading them ended.
fn add_entries<'a>(
    alloc: Global,
    order: Order,
    unit: TimeUnit,
    link: Link,
    bytes: &[u8],
    entries: &mut Vec<Entry<'a>>,
) -> Result<End, AllocError>
    requires { entries.old.items ≡ [] }
    ensures { IfOk result (λ how. IsBody order unit link bytes.now (map entry_value entries.new.items) how) }
{
    let mut left = bytes;
    while !left.is_empty() {
        if entries.len() == MAX_ENTRIES {
            return Ok(End::Full);
        }
        let Some((record, rest)) = split_record(order, left) else {
            let place = entries.len() as u64 + 1;
            let fault = CaptureFault::Record;
            return Ok(End::Broken { place, fault });
        };
        entries.push(entry_of(alloc, unit, link, &record)?)?;
        left = rest;
    }
    Ok(End::Whole)
}
