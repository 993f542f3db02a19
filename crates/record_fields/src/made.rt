//! Records that are made from words.
ghost use Rattle.std.specs.Prelude.{◌≡◌, IfOk, map, string_bytes};
ghost use Rattle.record_fields.specs.Said.{IsRecordOfWords};

use crate::said::is_record_of;
use crate::words::{Words, bytes_in, number_in};
use hex::FromHexError;
use std::alloc::{AllocError, Global};

/// Why no record is made of words.
#[derive(Clone, Copy, Debug, PartialEq, Eq)]
pub enum MakeError {
    /// A word names no field of such a record, or gives what the field can't hold.
    Wrong,
    /// There is too little memory.
    OutOfMemory,
}

impl From<AllocError> for MakeError {
    fn from(_error: AllocError) -> MakeError {
        MakeError::OutOfMemory
    }
}

impl From<FromHexError> for MakeError {
    fn from(error: FromHexError) -> MakeError {
        match error {
            FromHexError::OutOfMemory => MakeError::OutOfMemory,
            _ => MakeError::Wrong,
        }
    }
}

/// How a sensor's record begins (DSP0248): the names of fields that stand one after the other, each with its width.
const SENSOR: [(&str, u32); 7] = [
    ("terminus-handle", 2),
    ("sensor-id", 2),
    ("entity-type", 2),
    ("entity-instance", 2),
    ("container-id", 2),
    ("sensor-init", 1),
    ("auxiliary-names", 1),
];

/// What a numeric sensor measures in.
const UNITS: [(&str, u32); 10] = [
    ("base-unit", 1),
    ("unit-modifier", 1),
    ("rate-unit", 1),
    ("base-oem-unit", 1),
    ("aux-unit", 1),
    ("aux-unit-modifier", 1),
    ("aux-rate-unit", 1),
    ("rel", 1),
    ("aux-oem-unit", 1),
    ("is-linear", 1),
];

/// How exact a numeric sensor is, behind its resolution and its offset.
const PRECISION: [(&str, u32); 3] = [
    ("accuracy", 2),
    ("plus-tolerance", 1),
    ("minus-tolerance", 1),
];

/// The thresholds of a numeric sensor.
const THRESHOLDS: [(&str, u32); 2] = [("supported-thresholds", 1), ("volatility", 1)];

/// What a numeric sensor's readings are compared with.
const RANGES: [&str; 9] = [
    "nominal-value",
    "normal-max",
    "normal-min",
    "warning-high",
    "warning-low",
    "critical-high",
    "critical-low",
    "fatal-high",
    "fatal-low",
];

/// The range field format of real numbers.
const REAL: u64 = 6;

/// The bits of the real number 1, a resolution that changes nothing.
const ONE: u64 = 0x3f80_0000;

/// The bytes of a record, of the type that the first word names, with what the other words say. A field that no word
/// names is 0 or empty, but for a valid terminus locator, a locator type of an endpoint ID where one is given, and a
/// resolution of 1.
pub fn made_record(alloc: Global, kind: &str, words: &[String]) -> Result<Vec<u8>, MakeError>
    ensures { IfOk result (λ bytes. IsRecordOfWords kind.now (map string_bytes words.now) bytes.items) }
{
    let bytes = bytes_of_words(Words { alloc, list: words }, kind)?;
    if !is_record_of(alloc, kind, words, &bytes)? {
        return Err(MakeError::Wrong);
    }
    Ok(bytes)
}

/// The bytes that words give, which may be no record.
fn bytes_of_words(words: Words, kind: &str) -> Result<Vec<u8>, MakeError> {
    let body = body_of_words(words, kind)?;
    let record_type = match kind {
        "terminus-locator" => 1,
        "numeric-sensor" => 2,
        "state-sensor" => 4,
        "entity-association" => 15,
        _ => words.number("type", 1, 0)?,
    };
    let mut bytes = Vec::new(words.alloc);
    put(words.number("handle", 4, 0)?, 4, &mut bytes)?;
    put(1, 1, &mut bytes)?;
    put(record_type, 1, &mut bytes)?;
    put(words.number("change", 2, 0)?, 2, &mut bytes)?;
    put(body.len() as u64, 2, &mut bytes)?;
    bytes.extend_from_slice(&body)?;
    Ok(bytes)
}

fn body_of_words(words: Words, kind: &str) -> Result<Vec<u8>, MakeError> {
    let mut body = Vec::new(words.alloc);
    match kind {
        "terminus-locator" => put_terminus(words, &mut body)?,
        "numeric-sensor" => put_numeric(words, &mut body)?,
        "state-sensor" => put_state(words, &mut body)?,
        "entity-association" => put_association(words, &mut body)?,
        "other" => body.extend_from_slice(&words.bytes("bytes")?)?,
        _ => return Err(MakeError::Wrong),
    }
    Ok(body)
}

/// The lowest bytes of a number, the lowest first.
fn put(number: u64, width: u32, bytes: &mut Vec<u8>) -> Result<(), AllocError> {
    let mut left = number;
    for _ in 0..width {
        bytes.push((left % 256) as u8)?;
        left /= 256;
    }
    Ok(())
}

fn put_numbers(
    words: Words,
    fields: &[(&'static str, u32)],
    bytes: &mut Vec<u8>,
) -> Result<(), MakeError> {
    for (name, width) in fields {
        put(words.number(name, *width, 0)?, *width, bytes)?;
    }
    Ok(())
}

fn put_terminus(words: Words, bytes: &mut Vec<u8>) -> Result<(), MakeError> {
    put(words.number("terminus-handle", 2, 0)?, 2, bytes)?;
    put(words.number("validity", 1, 1)?, 1, bytes)?;
    put(words.number("tid", 1, 0)?, 1, bytes)?;
    put(words.number("container-id", 2, 0)?, 2, bytes)?;
    match words.value("eid") {
        Some(eid) => {
            put(words.number("locator-type", 1, 1)?, 1, bytes)?;
            put(1, 1, bytes)?;
            Ok(put(number_in(eid, 1).ok_or(MakeError::Wrong)?, 1, bytes)?)
        }
        None => {
            put(words.number("locator-type", 1, 0)?, 1, bytes)?;
            put_counted(&words.bytes("locator-value")?, bytes)
        }
    }
}

/// Bytes behind their number.
fn put_counted(value: &[u8], bytes: &mut Vec<u8>) -> Result<(), MakeError> {
    put(value.len() as u64, 1, bytes)?;
    Ok(bytes.extend_from_slice(value)?)
}

fn put_numeric(words: Words, bytes: &mut Vec<u8>) -> Result<(), MakeError> {
    put_numbers(words, &SENSOR, bytes)?;
    put_numbers(words, &UNITS, bytes)?;
    let data_size = words.number("data-size", 1, 0)?;
    put(data_size, 1, bytes)?;
    put(words.real("resolution", ONE)?, 4, bytes)?;
    put(words.real("offset", 0)?, 4, bytes)?;
    put_numbers(words, &PRECISION, bytes)?;
    put_sized(words, "hysteresis", data_size, bytes)?;
    put_numbers(words, &THRESHOLDS, bytes)?;
    put(words.real("state-transition-interval", 0)?, 4, bytes)?;
    put(words.real("update-interval", 0)?, 4, bytes)?;
    put_sized(words, "max-readable", data_size, bytes)?;
    put_sized(words, "min-readable", data_size, bytes)?;
    let format = words.number("range-format", 1, data_size)?;
    put(format, 1, bytes)?;
    put(words.number("range-support", 1, 0)?, 1, bytes)?;
    for name in RANGES {
        put_sized(words, name, format, bytes)?;
    }
    Ok(())
}

/// A number of a data size or a range field format, by its code.
fn put_sized(words: Words, name: &str, code: u64, bytes: &mut Vec<u8>) -> Result<(), MakeError> {
    let width = match code {
        0 | 1 => 1,
        2 | 3 => 2,
        _ => 4,
    };
    let number = match code {
        REAL => words.real(name, 0)?,
        _ => words.number(name, width, 0)?,
    };
    Ok(put(number, width, bytes)?)
}

fn put_state(words: Words, bytes: &mut Vec<u8>) -> Result<(), MakeError> {
    put_numbers(words, &SENSOR, bytes)?;
    let mut sets = Vec::new(words.alloc);
    let mut count = 0;
    for word in words.list {
        if let Some(value) = word.as_str().strip_prefix("state-set=") {
            put_state_set(words.alloc, value, &mut sets)?;
            count = count_after(count);
        }
    }
    put(count, 1, bytes)?;
    Ok(bytes.extend_from_slice(&sets)?)
}

/// A number more.
fn count_after(count: u64) -> u64 {
    count.saturating_add(1)
}

/// A state set, of its number and its possible states in hex.
fn put_state_set(alloc: Global, value: &str, bytes: &mut Vec<u8>) -> Result<(), MakeError> {
    let Some((id, states)) = value.split_once(':') else {
        return Err(MakeError::Wrong);
    };
    put(number_in(id, 2).ok_or(MakeError::Wrong)?, 2, bytes)?;
    put_counted(&bytes_in(alloc, states)?, bytes)
}

fn put_association(words: Words, bytes: &mut Vec<u8>) -> Result<(), MakeError> {
    put(words.number("container-id", 2, 0)?, 2, bytes)?;
    put(words.number("association-type", 1, 0)?, 1, bytes)?;
    put_entity(words.value("container-entity").unwrap_or("0/0/0"), bytes)?;
    let mut entities = Vec::new(words.alloc);
    let mut count = 0;
    for word in words.list {
        if let Some(value) = word.as_str().strip_prefix("contained-entity=") {
            put_entity(value, &mut entities)?;
            count = count_after(count);
        }
    }
    put(count, 1, bytes)?;
    Ok(bytes.extend_from_slice(&entities)?)
}

/// An entity: its type, its instance number and its container.
fn put_entity(value: &str, bytes: &mut Vec<u8>) -> Result<(), MakeError> {
    let mut parts = value.split('/');
    for _ in 0..3 {
        let part = parts.next().ok_or(MakeError::Wrong)?;
        put(number_in(part, 2).ok_or(MakeError::Wrong)?, 2, bytes)?;
    }
    match parts.next() {
        Some(_) => Err(MakeError::Wrong),
        None => Ok(()),
    }
}
