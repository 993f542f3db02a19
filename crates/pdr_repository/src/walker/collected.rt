//! The records that a walker has collected, and their handles.
ghost use Rattle.std.{specs.Prelude.{◌≡◌, ◌<◌, ◌≤◌, ℕ, IsTrue, length, map, slice_index, vec_len, vec_capacity}, specs.List.Sorted.{IsNonDecreasing}};
ghost use Rattle.pdr_repository.{specs.Records.{handle_in}, specs.Handles.{AreHandlesOf}};

use super::pieces::handle_of;
use std::alloc::{AllocError, Global};

/// Records by place, and beside them their handles in ascending order, so that a handle is found by halving. The list
/// of handles has at least as much room as that of the records.
#[derive(Debug, Drop)]
pub(crate) struct Collected {
    pub(crate) records: Vec<Vec<u8>>,
    pub(crate) handles: Vec<u32>,
    ghost ascending: { IsNonDecreasing handles.items },
    ghost members: { AreHandlesOf (map (λ v. v.items) records.items) handles.items },
    ghost as_many: { vec_len handles ≡ vec_len records },
    ghost as_much_room: { vec_capacity records ≤ vec_capacity handles },
}

/// The fewest records that room is made for.
const FEWEST: usize = 4;

/// The handle in the header of a record.
fn handle_of_record(bytes: &[u8]) -> u32
    ensures { result ≡ handle_in bytes.now }
{
    handle_of(bytes, &[])
}

/// Whether the handle is greater than the last one, and so than each, as they ascend.
fn comes_last(handles: &[u32], handle: u32) -> bool
    requires { IsNonDecreasing handles.now }
    ensures { IsTrue result → ((i : ℕ) → i < length handles.now → slice_index handles.now i < handle) }
{
    match handles.last() {
        Some(last) => *last < handle,
        None => true,
    }
}

impl Collected {
    ghost use Rattle.std.{specs.Prelude.{◌==◌, [], ◌∷◌, ◌++◌, OnOk, OnErr}, specs.List.{list_any}};
    ghost use Rattle.pdr_repository.specs.Handles.{IsPlaceFor, StandsAt};

    /// No records.
    pub(super) fn new(alloc: Global) -> Self
        ensures { result.records.items ≡ [] }
    {
        Collected {
            records: Vec::new(alloc),
            handles: Vec::new(alloc),
        }
    }

    /// Where a handle stands among the handles, or else where it is to be inserted. Where handles come in ascending
    /// order, that is behind the last one, which is seen at once.
    fn place_of(&self, handle: u32) -> Result<usize, usize>
        ensures { StandsAt self.now.handles.items handle result }
    {
        if comes_last(self.handles.as_slice(), handle) {
            return Err(self.handles.len());
        }
        self.handles.as_slice().binary_search(&handle)
    }

    /// Where a handle is to be inserted, so that the order stays.
    fn place_for(&self, handle: u32) -> usize
        ensures { IsPlaceFor self.now.handles.items handle result }
    {
        match self.place_of(handle) {
            Ok(at) => at,
            Err(at) => at,
        }
    }

    /// Whether a record has this handle.
    pub(super) fn has_handle(&self, handle: u32) -> bool
        ensures { result ≡ list_any (λ bytes. handle_in bytes == handle) (map (λ v. v.items) self.now.records.items) }
    {
        self.place_of(handle).is_ok()
    }

    /// Makes room for a record more. Where memory is refused, the records stay as they are.
    pub(super) fn reserve(&mut self) -> Result<(), AllocError>
        ensures records { self.new.records.items ≡ self.old.records.items }
        ensures room { OnOk result (vec_len self.new.records < vec_capacity self.new.records) }
        ensures full { OnErr result (vec_capacity self.old.records ≤ vec_len self.old.records) }
        ensures lacks { OnErr result (vec_capacity self.new.records ≤ vec_len self.new.records) }
    {
        let len = self.records.len();
        if len < self.records.capacity() {
            return Ok(());
        }
        let more = len.max(FEWEST);
        self.handles.reserve_exact(more)?;
        self.records.reserve_exact(more)
    }

    /// Appends a record, for which there is room.
    pub(super) fn push_reserved(&mut self, bytes: Vec<u8>)
        requires { vec_len self.old.records < vec_capacity self.old.records }
        ensures { self.new.records.items ≡ self.old.records.items ++ bytes ∷ [] }
    {
        let handle = handle_of_record(bytes.as_slice());
        let at = self.place_for(handle);
        let _ = self.handles.insert(at, handle);
        self.records.push_reserved(bytes);
    }
}
