//! Reading records from a board: bytes in hex, or the fields of a record by their names.
use crate::board::{BoardRecord, FieldText, FieldWord, RecordContent};
use crate::fault::BoardError;
use crate::given::{Given, is_among};
use crate::items::{index_of, is_lower_hex};
use crate::reading::Names;
use std::slice::from_ref;
use toml::Value;

/// The most records of a terminus.
const MOST_RECORDS: usize = 4096;

/// The most values of a field.
const MOST_VALUES: usize = 256;

const RECORDS: &str = "a list of at most 4096 tables, each under [[node.record]],";

const TYPES: &[&str] = &[
    "terminus-locator",
    "numeric-sensor",
    "state-sensor",
    "entity-association",
];

const A_TYPE: &str =
    "\"terminus-locator\", \"numeric-sensor\", \"state-sensor\" or \"entity-association\"";

/// The keys of a record that are none of its fields. The handle is a field too, and is added later.
const OWN_KEYS: &[&str] = &["type", "next", "handle"];

const A_FILE: &str = "the path of a file, seen from the board's folder,";

const A_FIELD: &str = "a number, a text or a list of these";

/// The records of a node.
pub fn read_records(
    given: &Given,
    names: Names,
    records: &mut Vec<BoardRecord>,
) -> Result<(), BoardError> {
    let values = given.list("record", MOST_RECORDS, RECORDS)?;
    for (index, value) in values.iter().enumerate() {
        records.push(read_record_at(given, names, index, value)?)?;
    }
    Ok(())
}

fn read_record_at<'v>(
    given: &Given<'v>,
    names: Names,
    index: usize,
    value: &'v Value,
) -> Result<BoardRecord, BoardError> {
    let Value::Table(table) = value else {
        return Err(given.fault("record", Some(index), "a table"));
    };
    let inner = Given {
        alloc: given.alloc,
        text: given.text,
        table,
        within: given.within,
        record: Some(index),
    };
    read_record(&inner, names)
}

fn read_record(given: &Given, names: Names) -> Result<BoardRecord, BoardError> {
    let handle = given.word("handle", "a number from 0 to 4294967295")?;
    let next = given.word("next", "a number from 0 to 4294967295")?;
    Ok(BoardRecord {
        handle,
        next,
        content: read_content(given, names)?,
    })
}

fn read_content(given: &Given, names: Names) -> Result<RecordContent, BoardError> {
    if let Some(hex) = given.text("hex", "bytes in lower-case hex")? {
        return read_hex(given, hex);
    }
    match given.text("file", A_FILE)? {
        Some(file) => read_file(given, file),
        None => read_fields(given, names),
    }
}

fn read_hex(given: &Given, hex: &str) -> Result<RecordContent, BoardError> {
    given.check_keys(&["handle", "next", "hex"], "beside hex only handle or next")?;
    if !is_lower_hex(hex) {
        return Err(given.fault("hex", None, "bytes in lower-case hex"));
    }
    Ok(RecordContent::Hex(hex.to_string(given.alloc)?))
}

fn read_file(given: &Given, file: &str) -> Result<RecordContent, BoardError> {
    given.check_keys(
        &["handle", "next", "file"],
        "beside file only handle or next",
    )?;
    if file.is_empty() || file.as_bytes().contains(&0) {
        return Err(given.fault("file", None, A_FILE));
    }
    Ok(RecordContent::File(file.to_string(given.alloc)?))
}

fn read_fields(given: &Given, names: Names) -> Result<RecordContent, BoardError> {
    let kind = given.needed_text("type", A_TYPE)?;
    if !is_among(TYPES, kind) {
        return Err(given.fault("type", None, A_TYPE));
    }
    Ok(RecordContent::Fields {
        kind: kind.to_string(given.alloc)?,
        words: read_words(given, names)?,
    })
}

fn read_words(given: &Given, names: Names) -> Result<Vec<FieldWord>, BoardError> {
    let mut words = Vec::new(given.alloc);
    for (name, value) in given.table.iter() {
        if !is_among(OWN_KEYS, name.as_str()) {
            add_words(&mut words, given, names, name.as_str(), value)?;
        }
    }
    Ok(words)
}

fn add_words(
    words: &mut Vec<FieldWord>,
    given: &Given,
    names: Names,
    name: &str,
    value: &Value,
) -> Result<(), BoardError> {
    let values = match value {
        Value::Array(values) => values.as_slice(),
        one => from_ref(one),
    };
    if values.len() > MOST_VALUES {
        return Err(given.fault(name, None, "a list of at most 256 values"));
    }
    for one in values {
        words.push(read_word(given, names, name, one)?)?;
    }
    Ok(())
}

fn read_word(
    given: &Given,
    names: Names,
    name: &str,
    value: &Value,
) -> Result<FieldWord, BoardError> {
    let text = match value {
        Value::String(said) if name == "eid" => read_eid(given, names, said.as_str())?,
        _ => FieldText::Text(read_text(given, name, value)?),
    };
    Ok(FieldWord {
        name: name.to_string(given.alloc)?,
        text,
    })
}

fn read_text(given: &Given, name: &str, value: &Value) -> Result<String, BoardError> {
    match value {
        Value::Integer(number) => {
            let number = *number;
            Ok(format!(in given.alloc; "{number}")?)
        }
        Value::String(said) => Ok(said.as_str().to_string(given.alloc)?),
        _ => Err(given.fault(name, None, A_FIELD)),
    }
}

/// The node whose endpoint ID a field holds.
fn read_eid(given: &Given, names: Names, said: &str) -> Result<FieldText, BoardError> {
    match index_of(names.nodes, said) {
        Some(node) => Ok(FieldText::EidOf(node)),
        None => Err(given.fault_near(
            "eid",
            None,
            "a number or the name of a node",
            said,
            names.nodes,
        )),
    }
}
