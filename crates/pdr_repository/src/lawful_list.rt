//! Whether a terminus can be made over a list of records.
ghost use Rattle.std.{specs.Prelude.{◌≡◌, ◌≢◌, ◌<◌, ◌≤◌, ◌↔◌, ◌∷◌, ℕ, IsTrue, length, map}, specs.List.{All, AllPairs}, specs.List.Sorted.{IsStrictlyIncreasing}};
ghost use Rattle.pdr_repository.specs.Records.{IsRecordOf, IsLawful, IsLawfulAt, entries};

use arrayvec::ArrayVec;
use mctp_transport::Wire;
use pdr_record::{Record, other_handle};

/// The most records of a terminus.
pub const MAX_RECORDS: usize = 4096;

/// Whether the bytes are those of a record of this handle, all of them.
pub fn is_record(handle: u32, bytes: &[u8]) -> bool
    ensures { IsTrue result ↔ IsRecordOf handle bytes.now }
{
    if let Some(own) = other_handle(bytes) {
        return own == handle;
    }
    is_read_record(handle, bytes)
}

/// The same by a `Record`. Its room is filled with zeros at the beginning, so it is a function of its own.
fn is_read_record(handle: u32, bytes: &[u8]) -> bool
    ensures { IsTrue result ↔ IsRecordOf handle bytes.now }
{
    match Record::read(bytes) {
        Ok(read) => read.handle == handle,
        Err(_) => false,
    }
}

/// Whether the bytes of each record are those of a record of its handle.
fn are_records(records: &[(u32, Vec<u8>)]) -> bool
    ensures { IsTrue result ↔ All (λ r. IsRecordOf r.0 r.1.items) records.now }
{
    for record in records {
        if !is_record(record.0, record.1.as_slice()) {
            return false;
        }
    }
    true
}

/// The handles of the records, by place.
fn handles_of(records: &[(u32, Vec<u8>)]) -> ArrayVec<u32, MAX_RECORDS>
    requires { length records.now ≤ 4096 }
    ensures { result.items ≡ map (λ r. r.0) records.now }
{
    let mut handles = ArrayVec::new();
    for record in records {
        handles.push(record.0);
    }
    handles
}

/// Whether the first number is above 0, and each other one above the one before it.
pub fn ascend(numbers: &[u32]) -> bool
    ensures { IsTrue result ↔ IsStrictlyIncreasing (0 ∷ numbers.now) }
{
    let mut last = 0;
    for number in numbers {
        if *number <= last {
            return false;
        }
        last = *number;
    }
    true
}

/// Whether no handle is 0, and no two are the same: once they are sorted, they ascend from above 0 on.
fn have_distinct_handles(records: &[(u32, Vec<u8>)]) -> bool
    requires { length records.now ≤ 4096 }
    ensures { IsTrue result ↔ AllPairs (λ x y. x ≢ y) (0 ∷ map (λ r. r.0) records.now) }
{
    let mut handles = handles_of(records);
    handles.as_mut_slice().sort_unstable();
    ascend(handles.as_slice())
}

/// Whether the record at each place has a handle that isn't 0 and no earlier record's, and the bytes of such a record.
fn are_lawful(records: &[(u32, Vec<u8>)]) -> bool
    requires { length records.now ≤ 4096 }
    ensures { IsTrue result ↔ ((place : ℕ) → place < length records.now → IsLawfulAt (entries records.now) place) }
{
    are_records(records) && have_distinct_handles(records)
}

/// Whether a terminus can be made over these records, by place: 1 to 4096 of them, their handles distinct and not 0,
/// each record's bytes those of a record of its handle. It takes no memory.
pub fn is_lawful_list(records: &[(u32, Vec<u8>)]) -> bool
    ensures { IsTrue result ↔ ((length records.now ≤ 4096) × IsLawful (entries records.now)) }
{
    if records.is_empty() || records.len() > MAX_RECORDS {
        return false;
    }
    are_lawful(records)
}
