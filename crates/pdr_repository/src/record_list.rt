//! Records in a plain list, with an index.
ghost use Rattle.std.specs.Prelude.{◌≡◌, ◌<◌, ◌^◌, All, IfOk, length};
ghost use Rattle.pdr_repository.{specs.Records.{entries, IsLawful}, specs.Indexes.{IsIndexOf}};

use crate::handle_index::HandleIndex;
use crate::repository::Repository;
use std::alloc::{AllocError, Global};

/// Handles and record bytes by place, with the index of the handles.
#[derive(Debug, Drop)]
pub(crate) struct RecordList {
    pub(crate) by_place: Vec<(u32, Vec<u8>)>,
    index: HandleIndex,
    ghost short: { All (λ r. length r.1.items < 2 ^ 32) by_place.items },
    ghost indexed: { IsIndexOf (entries by_place.items) index.rows.items },
}

impl RecordList {
    /// Keeps these records, by place.
    pub(crate) fn new(alloc: Global, records: Vec<(u32, Vec<u8>)>) -> Result<Self, AllocError>
        requires { IsLawful (entries records.items) }
        ensures { IfOk result (λ list. entries list.by_place.items ≡ entries records.items) }
    {
        let index = HandleIndex::of(alloc, records.as_slice())?;
        Ok(RecordList {
            by_place: records,
            index,
        })
    }
}

impl Repository for RecordList {
    ghost records = { λ list. entries list.by_place.items };

    fn place_meant_by(&self, handle: u32) -> Option<usize> {
        self.index.place_meant_by(handle)
    }

    fn next_handle(&self, place: usize) -> u32 {
        match self.by_place.get(place + 1) {
            Some(record) => record.0,
            None => 0,
        }
    }

    fn bytes_at(&self, place: usize) -> &[u8] {
        self.by_place[place].1.as_slice()
    }
}
