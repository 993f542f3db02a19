//! Capture files of blocks (pcapng).
ghost use Rattle.std.specs.Prelude.{◌≡◌, [], map, IfOk};
ghost use Rattle.bus_captures.{specs.Blocks.{IsBlockFile}, specs.Values.{entry_value}};

use crate::block::next_block;
use crate::capture::{Capture, CaptureFault, End, Entry, MAX_ENTRIES};
use crate::section::Section;
use std::alloc::{AllocError, Global};

/// The entries of a file of blocks.
pub fn read_blocks<'a>(alloc: Global, bytes: &'a [u8]) -> Result<Capture<'a>, AllocError>
    ensures { IfOk result (λ capture. IsBlockFile bytes.now (map entry_value capture.entries.items) capture.end) }
{
    let mut entries = Vec::new(alloc);
    let end = add_packets(alloc, bytes, &mut entries)?;
    Ok(Capture { entries, end })
}

/// Adds the entries of a file's packets, and says how reading them ended.
fn add_packets<'a>(
    alloc: Global,
    bytes: &'a [u8],
    entries: &mut Vec<Entry<'a>>,
) -> Result<End, AllocError>
    requires { entries.old.items ≡ [] }
    ensures { IfOk result (λ how. IsBlockFile bytes.now (map entry_value entries.new.items) how) }
{
    let mut section = Section::new(alloc);
    let mut left = bytes;
    let mut place = 0;
    while !left.is_empty() {
        place += 1;
        let Some((block, rest)) = next_block(section.order, left) else {
            let fault = CaptureFault::Block;
            return Ok(End::Broken { place, fault });
        };
        if !block.is_packet() {
            section.take(&block)?;
        } else if entries.len() == MAX_ENTRIES {
            return Ok(End::Full);
        } else {
            entries.push(section.entry(alloc, &block)?)?;
        }
        left = rest;
    }
    Ok(End::Whole)
}
