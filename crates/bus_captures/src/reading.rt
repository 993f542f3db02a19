//! Captures of each form.
ghost use Rattle.std.specs.Prelude.{IfOk, map};
ghost use Rattle.bus_captures.{specs.Captures.{IsCaptureOf, IsOtherCapture}, specs.Values.{entry_value}};

use crate::block::behind_section_kind;
use crate::blocks::read_blocks;
use crate::capture::Capture;
use crate::file::read_file;
use crate::format::file_format;
use crate::text::read_text;
use std::alloc::{AllocError, Global};

/// The entries of a capture, up to the first thing that can't be read.
///
/// Bytes that begin as a capture file of libpcap does are one, in either byte order: one of records with fractions of a
/// second in micro- or nanoseconds, or one of blocks (pcapng). All others are a text, a line an entry.
pub fn read_capture<'a>(alloc: Global, bytes: &'a [u8]) -> Result<Capture<'a>, AllocError>
    ensures { IfOk result (λ capture. IsCaptureOf bytes.now capture) }
{
    match file_format(bytes) {
        Some((order, unit, behind)) => read_file(alloc, order, unit, behind),
        None => read_blocks_or_text(alloc, bytes),
    }
}

fn read_blocks_or_text<'a>(alloc: Global, bytes: &'a [u8]) -> Result<Capture<'a>, AllocError>
    ensures { IfOk result (λ capture. IsOtherCapture bytes.now (map entry_value capture.entries.items) capture.end) }
{
    match behind_section_kind(bytes) {
        Some(_) => read_blocks(alloc, bytes),
        None => read_text(alloc, bytes),
    }
}
