//! An index of records by handle.
ghost use Rattle.std.specs.Prelude.{◌≡◌, List, IfOk};
ghost use Rattle.pdr_repository.{specs.Records.{Entry, Places, entries}, specs.Indexes.{IsIndexOf, Locates, rows_of}};

use std::alloc::{AllocError, Global};

/// A row of an index: the handle of a record, and its place.
#[derive(Clone, Copy, Debug)]
pub(crate) struct IndexRow {
    pub(crate) handle: u32,
    pub(crate) place: usize,
}

/// The handles of records in ascending order, each with the place of its record.
#[derive(Debug, Drop)]
pub(crate) struct HandleIndex {
    pub(crate) rows: Vec<IndexRow>,
}

/// A row for each record, by place.
fn rows_by_place(alloc: Global, records: &[(u32, Vec<u8>)]) -> Result<Vec<IndexRow>, AllocError>
    ensures { IfOk result (λ rows. rows.items ≡ rows_of records.now) }
{
    let mut rows = Vec::with_capacity(alloc, records.len())?;
    for (place, record) in records.iter().enumerate() {
        rows.push_reserved(IndexRow {
            handle: record.0,
            place,
        });
    }
    Ok(rows)
}

impl HandleIndex {
    /// The index of these records.
    pub(crate) fn of(alloc: Global, records: &[(u32, Vec<u8>)]) -> Result<Self, AllocError>
        ensures { IfOk result (λ index. IsIndexOf (entries records.now) index.rows.items) }
    {
        let mut rows = rows_by_place(alloc, records)?;
        rows.sort_unstable_by_key(|row| row.handle);
        Ok(HandleIndex { rows })
    }

    /// The place of the record that has a handle, by halving. It takes no memory.
    pub(crate) fn place_of(&self, handle: u32) -> Option<usize>
        ensures { (records : List Entry) → IsIndexOf records self.now.rows.items → Locates records handle result }
    {
        let rows = self.rows.as_slice();
        match rows.binary_search_by_key(&handle, |row| row.handle) {
            Ok(at) => Some(rows[at].place),
            Err(_) => None,
        }
    }

    /// The place of the record that a handle means: 0 means the first. It takes no memory.
    pub(crate) fn place_meant_by(&self, handle: u32) -> Option<usize>
        ensures { (records : List Entry) → IsIndexOf records self.now.rows.items → Places records handle result }
    {
        if handle != 0 {
            return self.place_of(handle);
        }
        if self.rows.is_empty() { None } else { Some(0) }
    }
}
