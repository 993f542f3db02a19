//! Records in one block of bytes, with an index.
ghost use Rattle.std.specs.Prelude.{◌≡◌, ◌≤◌, ◌<◌, ◌+◌, ◌^◌, ◌++◌, All, IfOk, length, option_map, sum_by, vec_capacity, vec_len};
ghost use Rattle.pdr_repository.{specs.Records.{entries, IsLawful}, specs.Indexes.{IsIndexOf}, specs.RecordBlocks.{HaveHandles, IsSpanIn, entries_in}, specs.LentParts.{HoldsRecord}};

use crate::handle_index::HandleIndex;
use crate::lawful_list::MAX_RECORDS;
use crate::repository::Repository;
use std::alloc::{AllocError, Global};

/// Where the bytes of a record stand in the block: from `start` on, below `end`.
#[derive(Clone, Copy, Debug)]
pub(crate) struct Span {
    pub(crate) handle: u32,
    pub(crate) start: usize,
    pub(crate) end: usize,
}

/// The bytes of all records in one block, the span of each by place, and the index of the handles.
#[derive(Debug, Drop)]
pub(crate) struct RecordBlock {
    pub(crate) block: Vec<u8>,
    pub(crate) spans: Vec<Span>,
    index: HandleIndex,
    ghost within: { All (IsSpanIn block.items) spans.items },
    ghost indexed: { IsIndexOf (entries_in block.items spans.items) index.rows.items },
    ghost named: { HaveHandles (entries_in block.items spans.items) },
}

/// How many bytes the records have together.
fn total_length(records: &[(u32, Vec<u8>)]) -> usize
    requires few { length records.now ≤ MAX_RECORDS }
    requires short { All (λ r. length r.1.items < 2 ^ 32) records.now }
    ensures { result ≡ sum_by (λ r. length r.1.items) records.now }
{
    let mut total = 0;
    for record in records {
        total += record.1.len();
    }
    total
}

/// Appends bytes for which there is room.
fn append_reserved(block: &mut Vec<u8>, bytes: &[u8])
    requires { vec_len block.old + length bytes.now ≤ vec_capacity block.old }
    ensures items { block.new.items ≡ block.old.items ++ bytes.now }
    ensures capacity { vec_capacity block.old ≤ vec_capacity block.new }
{
    let _ = block.extend_from_slice(bytes);
}

impl RecordBlock {
    /// Copies these records into a block, by place. All memory is taken before the first byte is copied.
    pub(crate) fn new(alloc: Global, records: &[(u32, Vec<u8>)]) -> Result<Self, AllocError>
        requires few { length records.now ≤ MAX_RECORDS }
        requires lawful { IsLawful (entries records.now) }
        ensures { IfOk result (λ kept. entries_in kept.block.items kept.spans.items ≡ entries records.now) }
    {
        let mut block = Vec::with_capacity(alloc, total_length(records))?;
        let mut spans = Vec::with_capacity(alloc, records.len())?;
        let index = HandleIndex::of(alloc, records)?;
        for record in records {
            let start = block.len();
            append_reserved(&mut block, record.1.as_slice());
            let end = block.len();
            spans.push_reserved(Span {
                handle: record.0,
                start,
                end,
            });
        }
        Ok(RecordBlock {
            block,
            spans,
            index,
        })
    }

    /// The bytes of the record that has a handle.
    pub(crate) fn bytes_of(&self, handle: u32) -> Option<&[u8]>
        ensures { HoldsRecord (entries_in self.now.block.items self.now.spans.items) handle (option_map (λ bytes. bytes.now) result) }
    {
        let place = self.index.place_of(handle)?;
        Some(self.bytes_at(place))
    }
}

impl Repository for RecordBlock {
    ghost records = { λ kept. entries_in kept.block.items kept.spans.items };

    fn place_meant_by(&self, handle: u32) -> Option<usize> {
        self.index.place_meant_by(handle)
    }

    fn next_handle(&self, place: usize) -> u32 {
        match self.spans.get(place + 1) {
            Some(span) => span.handle,
            None => 0,
        }
    }

    fn bytes_at(&self, place: usize) -> &[u8] {
        let span = self.spans[place];
        &self.block.as_slice()[span.start..span.end]
    }
}
