//! Whether a plan keeps what a board says of a terminus.
ghost use Rattle.std.specs.Prelude.{◌≡◌, ◌+◌, ◌<◌, ℕ, List, IfOk, IsTrue, codes, length, option_map, slice_get, string_bytes};
ghost use Rattle.toml.{specs.Data.{get}, specs.View.{view}};
ghost use Rattle.board_values.specs.Said.{SaysNoneOr, SaysOr, SaysText};
ghost use Rattle.board_kept.specs.Kept.{next_handle, HaveFile, IsHexKept, IsFileKept, AreBytesKept, IsRecordKept, IsRecordKeptAt, AreRecordsKept, HasNoTerminus, IsTerminusGiven, IsTerminusKept};

use crate::fields::are_fields_given;
use crate::keys::{Level, has_only_keys};
use board::RecordFile;
use board_values::{is_left_out, is_list_at, item, says_none_or, says_or, says_text};
use plan_values::{Node, Plan, PlannedRecord, PlannedTerminus};
use std::alloc::{AllocError, Global};
use toml::Value;

/// Whether the terminus is what stands there, or nothing does where there is none.
pub fn keeps_terminus(
    alloc: Global,
    files: &[RecordFile],
    plan: &Plan,
    node: &Node,
    said: &Value,
) -> Result<bool, AllocError>
    ensures { IfOk result (λ answer. IsTrue answer → IsTerminusKept files.now plan.now node.now.terminus (view said.now)) }
{
    match &node.terminus {
        Some(terminus) => Ok(
            is_terminus_given(alloc, files, plan, terminus, said)? && has_terminus(said),
        ),
        None => Ok(has_no_terminus(said)),
    }
}

/// Whether a terminus ID or a record stands there.
fn has_terminus(said: &Value) -> bool
    ensures { IsTrue result → ¬ HasNoTerminus (view said.now) }
{
    !is_left_out(said, "tid") || item(said, "record", 0).is_some()
}

/// Whether neither stands there.
fn has_no_terminus(said: &Value) -> bool
    ensures { IsTrue result → HasNoTerminus (view said.now) }
{
    is_left_out(said, "tid") && is_list_at(said, "record") && item(said, "record", 0).is_none()
}

fn is_terminus_given(
    alloc: Global,
    files: &[RecordFile],
    plan: &Plan,
    terminus: &PlannedTerminus,
    said: &Value,
) -> Result<bool, AllocError>
    ensures { IfOk result (λ answer. IsTrue answer → IsTerminusGiven files.now plan.now terminus.now (view said.now)) }
{
    let tid = says_or(said, "tid", u32::from(terminus.tid), 0);
    Ok(keeps_records(alloc, files, plan, &terminus.records, said)? && tid)
}

fn keeps_records(
    alloc: Global,
    files: &[RecordFile],
    plan: &Plan,
    records: &[PlannedRecord],
    said: &Value,
) -> Result<bool, AllocError>
    ensures { IfOk result (λ answer. IsTrue answer → AreRecordsKept files.now plan.now records.now (view said.now)) }
{
    for index in 0..records.len() {
        if !keeps_record_at(alloc, files, plan, records, said, index)? {
            return Ok(false);
        }
    }
    Ok(is_list_at(said, "record") && item(said, "record", records.len()).is_none())
}

fn keeps_record_at(
    alloc: Global,
    files: &[RecordFile],
    plan: &Plan,
    records: &[PlannedRecord],
    said: &Value,
    index: usize,
) -> Result<bool, AllocError>
    ensures { IfOk result (λ answer. IsTrue answer → IsRecordKeptAt files.now plan.now records.now (view said.now) index) }
{
    match records.get(index) {
        Some(record) => match item(said, "record", index) {
            Some(given) => keeps_record(alloc, files, plan, records, index, record, given),
            None => Ok(false),
        },
        None => Ok(true),
    }
}

/// Whether the record at an index of the list is what stands there.
fn keeps_record(
    alloc: Global,
    files: &[RecordFile],
    plan: &Plan,
    records: &[PlannedRecord],
    index: usize,
    own: &PlannedRecord,
    given: &Value,
) -> Result<bool, AllocError>
    requires { index < length records.now }
    ensures { IfOk result (λ answer. IsTrue answer → IsRecordKept files.now plan.now records.now index own.now (view given.now)) }
{
    Ok(
        are_bytes_kept(alloc, files, plan, &own.bytes, given)?
            && says_handles(records, index, own, given),
    )
}

/// Whether the handle stands there, or none does, and the next handle, or none does and it is that of the list.
fn says_handles(records: &[PlannedRecord], index: usize, own: &PlannedRecord, given: &Value) -> bool
    requires { index < length records.now }
    ensures handle { IsTrue result → SaysNoneOr (get (codes "handle") (view given.now)) own.now.handle }
    ensures next { IsTrue result → SaysOr (next_handle records.now index) (get (codes "next") (view given.now)) own.now.next }
{
    says_none_or(given, "handle", own.handle)
        && says_or(given, "next", own.next, next_handle(records, index))
}

/// The handle of the record that follows, 0 behind the last.
fn next_handle(records: &[PlannedRecord], index: usize) -> u32
    requires { index < length records.now }
    ensures { result ≡ next_handle records.now index }
{
    match records.get(index + 1) {
        Some(record) => record.handle,
        None => 0,
    }
}

/// Whether the bytes stand there in hex, by a file, or by the fields of the record that they are.
fn are_bytes_kept(
    alloc: Global,
    files: &[RecordFile],
    plan: &Plan,
    bytes: &[u8],
    given: &Value,
) -> Result<bool, AllocError>
    ensures { IfOk result (λ answer. IsTrue answer → AreBytesKept files.now plan.now bytes.now (view given.now)) }
{
    if !is_left_out(given, "hex") {
        return is_hex_kept(alloc, bytes, given);
    }
    if !is_left_out(given, "file") {
        return Ok(is_file_kept(files, bytes, given));
    }
    are_fields_given(alloc, plan, bytes, given)
}

fn is_hex_kept(alloc: Global, bytes: &[u8], given: &Value) -> Result<bool, AllocError>
    ensures { IfOk result (λ answer. IsTrue answer → IsHexKept bytes.now (view given.now)) }
{
    let text = hex::encode(alloc, bytes)?;
    Ok(has_only_keys(given, Level::OfHex) && says_text(given, "hex", &text))
}

fn is_file_kept(files: &[RecordFile], bytes: &[u8], given: &Value) -> bool
    ensures { IsTrue result → IsFileKept files.now bytes.now (view given.now) }
{
    has_only_keys(given, Level::OfFile) && is_among_files(files, bytes, given)
}

/// Whether the file that stands there is among those, with these bytes.
fn is_among_files(files: &[RecordFile], bytes: &[u8], given: &Value) -> bool
    ensures { IsTrue result → (name : List ℕ) × SaysText (get (codes "file") (view given.now)) name × HaveFile files.now name bytes.now }
{
    for index in 0..files.len() {
        if is_file_at(files, index, bytes, given) {
            return true;
        }
    }
    false
}

fn is_file_at(files: &[RecordFile], index: usize, bytes: &[u8], given: &Value) -> bool
    ensures { IsTrue result → (name : List ℕ) × SaysText (get (codes "file") (view given.now)) name × HaveFile files.now name bytes.now }
{
    match file_at(files, index) {
        Some(file) => is_the_file(file, bytes, given),
        None => false,
    }
}

fn file_at(files: &[RecordFile], index: usize) -> Option<&RecordFile>
    ensures { option_map (λ file. file.now) result ≡ slice_get files.now index }
{
    files.get(index)
}

/// Whether the file stands there, and has these bytes.
fn is_the_file(file: &RecordFile, bytes: &[u8], given: &Value) -> bool
    ensures { IsTrue result → SaysText (get (codes "file") (view given.now)) (string_bytes file.now.name) × (file.now.bytes.items ≡ bytes.now) }
{
    says_text(given, "file", file.name.as_str()) && file.bytes.as_slice() == bytes
}
