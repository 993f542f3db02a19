//! What the command `walk` prints.
ghost use Rattle.std.{specs.Prelude.{◌≡◌, ◌≤◌, ◌++◌, length, map, slice_index, IfOk, string_bytes}, specs.List.{flat_map}};
ghost use Rattle.pdr_repository.specs.Records.{handle_in};
ghost use Rattle.plan_texts.specs.WalkLines.{record_line, count_line};

use std::alloc::{AllocError, Global};

/// The bytes of a record's header.
const HEADER_LENGTH: usize = 10;

/// The line of each record, and the line of their number and of the requests that they took.
pub fn walk_text(alloc: Global, records: &[Vec<u8>], requests: usize) -> Result<String, AllocError>
    ensures { IfOk result (λ text. string_bytes text ≡ flat_map record_line (map (λ v. v.items) records.now) ++ count_line (length records.now) requests) }
{
    let mut text = String::new(alloc);
    for bytes in records {
        text.push_str(&record_text(alloc, bytes)?)?;
    }
    text.push_str(&count_text(alloc, records.len(), requests)?)?;
    Ok(text)
}

fn record_text(alloc: Global, bytes: &[u8]) -> Result<String, AllocError>
    ensures { IfOk result (λ text. string_bytes text ≡ record_line bytes.now) }
{
    let handle = handle_of(bytes);
    let length = bytes.len().saturating_sub(HEADER_LENGTH);
    format!(in alloc; "record {handle} length {length}\n")
}

fn count_text(alloc: Global, records: usize, requests: usize) -> Result<String, AllocError>
    ensures { IfOk result (λ text. string_bytes text ≡ count_line records requests) }
{
    format!(in alloc; "records {records} requests {requests}\n")
}

/// The handle in a record's header.
fn handle_of(bytes: &[u8]) -> u32
    ensures { result ≡ handle_in bytes.now }
{
    byte_at(bytes, 0)
        + 256 * (byte_at(bytes, 1) + 256 * (byte_at(bytes, 2) + 256 * byte_at(bytes, 3)))
}

/// The byte at an index, 0 past the end.
fn byte_at(bytes: &[u8], index: usize) -> u32
    ensures byte { result ≡ slice_index bytes.now index }
    ensures small { result ≤ 255 }
{
    match bytes.get(index) {
        Some(byte) => u32::from(*byte),
        None => 0,
    }
}
