//! Making records: their handles, their chain and their bytes.
use super::handles::{counted_handles, kept_handles};
use super::keeping::node_named;
use super::{Chosen, MadeRecord, NoPlan};
use crate::board::{
    Board, BoardNode, BoardRecord, FieldText, FieldWord, RecordContent, RecordFile,
};
use hex::FromHexError;
use plan_values::Plan;
use record_fields::{MakeError, made_record};
use std::alloc::{AllocError, Global};

/// The records of each node. Handles that are left out are those of an earlier plan, or else count from 1, and next
/// handles that are left out follow the list.
pub fn make_records(
    alloc: Global,
    board: &Board,
    files: &[RecordFile],
    chosen: &[Chosen],
    old: Option<&Plan>,
) -> Result<Vec<Vec<MadeRecord>>, NoPlan> {
    let mut all = Vec::new(alloc);
    for (index, node) in board.nodes.iter().enumerate() {
        all.push(records_of(alloc, files, chosen, index, node, old)?)?;
    }
    Ok(all)
}

fn records_of(
    alloc: Global,
    files: &[RecordFile],
    chosen: &[Chosen],
    index: usize,
    node: &BoardNode,
    old: Option<&Plan>,
) -> Result<Vec<MadeRecord>, NoPlan> {
    let mut handles = counted_handles(alloc, &node.records)?;
    if let Some(old) = old {
        let drafts = all_bytes(alloc, files, chosen, index, node, &handles)?;
        let before = node_named(old, node.name.as_str());
        handles = kept_handles(alloc, &node.records, &drafts, before)?;
    }
    let all = all_bytes(alloc, files, chosen, index, node, &handles)?;
    let mut records = Vec::new(alloc);
    for (place, (record, bytes)) in node.records.iter().zip(&all).enumerate() {
        records.push(MadeRecord {
            handle: handle_at(&handles, place),
            next: record
                .next
                .unwrap_or(handle_at(&handles, place.saturating_add(1))),
            hex: hex::encode(alloc, bytes)?,
        })?;
    }
    Ok(records)
}

/// The handle at an index, 0 behind the last.
fn handle_at(handles: &[u32], place: usize) -> u32 {
    handles.get(place).copied().unwrap_or(0)
}

/// The bytes of a node's records that have these handles.
fn all_bytes(
    alloc: Global,
    files: &[RecordFile],
    chosen: &[Chosen],
    index: usize,
    node: &BoardNode,
    handles: &[u32],
) -> Result<Vec<Vec<u8>>, NoPlan> {
    let mut all = Vec::new(alloc);
    for (place, record) in node.records.iter().enumerate() {
        let handle = handle_at(handles, place);
        let wrong = NoPlan::WrongRecord {
            node: index,
            record: place,
        };
        all.push(bytes_of(alloc, files, chosen, record, handle, wrong)?)?;
    }
    Ok(all)
}

/// The bytes of a record, or what is wrong where its fields are not those of its type, or its file was not given.
fn bytes_of(
    alloc: Global,
    files: &[RecordFile],
    chosen: &[Chosen],
    record: &BoardRecord,
    handle: u32,
    wrong: NoPlan,
) -> Result<Vec<u8>, NoPlan> {
    match &record.content {
        RecordContent::Hex(text) => match hex::decode(alloc, text.as_str()) {
            Ok(bytes) => Ok(bytes),
            Err(FromHexError::OutOfMemory) => Err(NoPlan::OutOfMemory),
            Err(_) => Err(wrong),
        },
        RecordContent::File(name) => match file_named(files, name.as_str()) {
            Some(file) => Ok(file.bytes.clone()?),
            None => Err(wrong),
        },
        RecordContent::Fields { kind, words } => {
            let words = words_of(alloc, chosen, words, handle)?;
            match made_record(alloc, kind.as_str(), &words) {
                Ok(bytes) => Ok(bytes),
                Err(MakeError::Wrong) => Err(wrong),
                Err(MakeError::OutOfMemory) => Err(NoPlan::OutOfMemory),
            }
        }
    }
}

fn file_named<'f>(files: &'f [RecordFile], name: &str) -> Option<&'f RecordFile> {
    for file in files {
        if file.name.as_str() == name {
            return Some(file);
        }
    }
    None
}

/// The names of the files that the records of a board name, each once.
pub fn named_files(alloc: Global, board: &Board) -> Result<Vec<String>, AllocError> {
    let mut names = Vec::new(alloc);
    for node in &board.nodes {
        for record in &node.records {
            if let RecordContent::File(name) = &record.content {
                add_name(&mut names, name.as_str(), alloc)?;
            }
        }
    }
    Ok(names)
}

fn add_name(names: &mut Vec<String>, name: &str, alloc: Global) -> Result<(), AllocError> {
    for own in names.iter() {
        if own.as_str() == name {
            return Ok(());
        }
    }
    names.push(name.to_string(alloc)?)?;
    Ok(())
}

/// The words of a record's fields, the handle's first.
fn words_of(
    alloc: Global,
    chosen: &[Chosen],
    fields: &[FieldWord],
    handle: u32,
) -> Result<Vec<String>, AllocError> {
    let mut words = Vec::new(alloc);
    words.push(format!(in alloc; "handle={handle}")?)?;
    for field in fields {
        words.push(word_of(alloc, chosen, field)?)?;
    }
    Ok(words)
}

fn word_of(alloc: Global, chosen: &[Chosen], field: &FieldWord) -> Result<String, AllocError> {
    let name = field.name.as_str();
    match &field.text {
        FieldText::Text(text) => {
            let text = text.as_str();
            format!(in alloc; "{name}={text}")
        }
        FieldText::EidOf(node) => {
            let eid = match chosen.get(*node) {
                Some(own) => own.eid,
                None => 0,
            };
            format!(in alloc; "{name}={eid}")
        }
    }
}
