//! Whether bytes are a record of which words tell.
ghost use Rattle.std.{specs.Prelude.{◌≡◌, IfOk, IsTrue, All, map, string_bytes}, specs.Str.Parse.{digits_value, without_leading_plus}};
ghost use Rattle.pdr_record.{specs.RecordValues.{record_value}, specs.Records.{type_of}};
ghost use Rattle.record_fields.{specs.Meanings.{named_of}, specs.Named.{named_fields, number, real}, specs.Said.{IsRecordOfWords, IsSaidOf, Says, SaysHexadecimal, SaysReal, IsDecimalReal, IsHexadecimalReal, IsReal, IsTypeWord}};

use crate::fields::named_fields;
use crate::held::{Held, NamedField};
use crate::text::{field_text, hexadecimal};
use crate::words::bits_in;
use mctp_transport::Wire;
use pdr_record::Record;
use std::alloc::{AllocError, Global};

/// Whether the bytes are a record of the type that the first word names, and each other word says what one of its
/// fields holds.
pub fn is_record_of(
    alloc: Global,
    kind: &str,
    words: &[String],
    bytes: &[u8],
) -> Result<bool, AllocError>
    ensures { IfOk result (λ answer. IsTrue answer → IsRecordOfWords kind.now (map string_bytes words.now) bytes.now) }
{
    match Record::read(bytes) {
        Ok(record) => Ok(
            is_type(kind, record.body.record_type()) && says_all(alloc, words, &record)?,
        ),
        Err(_) => Ok(false),
    }
}

/// Whether the word names this type.
pub fn is_type(kind: &str, record_type: u8) -> bool
    ensures { IsTrue result → IsTypeWord kind.now record_type }
{
    match kind {
        "terminus-locator" => record_type == 1,
        "numeric-sensor" => record_type == 2,
        "state-sensor" => record_type == 4,
        "entity-association" => record_type == 15,
        "other" => true,
        _ => false,
    }
}

/// Whether each word says what one of the record's fields holds.
fn says_all(alloc: Global, words: &[String], whole: &Record) -> Result<bool, AllocError>
    ensures { IfOk result (λ answer. IsTrue answer → All (IsSaidOf (named_fields (record_value whole.now))) (map string_bytes words.now)) }
{
    let fields = named_fields(alloc, whole)?;
    for word in words {
        if !says_one(alloc, word, &fields)? {
            return Ok(false);
        }
    }
    Ok(true)
}

/// Whether the word says what one of the fields holds.
fn says_one(alloc: Global, word: &str, fields: &[NamedField]) -> Result<bool, AllocError>
    ensures { IfOk result (λ answer. IsTrue answer → IsSaidOf (map named_of fields.now) word.now) }
{
    for field in fields {
        if says(alloc, word, field)? {
            return Ok(true);
        }
    }
    Ok(false)
}

/// Whether the word says what the field holds.
pub fn says(alloc: Global, word: &str, field: &NamedField) -> Result<bool, AllocError>
    ensures { IfOk result (λ answer. IsTrue answer → Says word.now (named_of field.now)) }
{
    if word.eq_ignore_ascii_case(&field_text(alloc, "=", field)?) {
        return Ok(true);
    }
    match field.held {
        Held::Number(number) => says_hexadecimal(alloc, word, field.name, number),
        Held::Sized { code: 6, bits } => says_real(alloc, word, field.name, bits),
        _ => Ok(false),
    }
}

/// Whether the word says that a field of the name holds the number, in hexadecimal digits.
fn says_hexadecimal(
    alloc: Global,
    word: &str,
    name: &'static str,
    value: u64,
) -> Result<bool, AllocError>
    ensures { IfOk result (λ answer. IsTrue answer → SaysHexadecimal word.now (number name.now value)) }
{
    let digits = hexadecimal(alloc, value)?;
    let said = format!(in alloc; "{name}={digits}")?;
    Ok(word.eq_ignore_ascii_case(&said))
}

/// Whether the word says which real number of 32 bits a field of the name holds.
fn says_real(alloc: Global, word: &str, name: &'static str, value: u64) -> Result<bool, AllocError>
    ensures { IfOk result (λ answer. IsTrue answer → SaysReal word.now (real name.now value)) }
{
    let Some((_, text)) = word.split_once('=') else {
        return Ok(false);
    };
    let said = format!(in alloc; "{name}={text}")?;
    let is_real = is_real(alloc, text, value)?;
    Ok(word.eq_ignore_ascii_case(&said) && is_real)
}

/// Whether a text writes the real number of 32 bits that has these bits.
fn is_real(alloc: Global, text: &str, bits: u64) -> Result<bool, AllocError>
    ensures { IfOk result (λ answer. IsTrue answer → IsReal text.now bits) }
{
    if is_decimal(text, bits) {
        return Ok(true);
    }
    is_hexadecimal(alloc, text, bits)
}

fn is_decimal(text: &str, bits: u64) -> bool
    ensures { IsTrue result → IsDecimalReal text.now bits }
{
    match bits_in(text) {
        Some(own) => own == bits,
        None => false,
    }
}

fn is_hexadecimal(alloc: Global, text: &str, bits: u64) -> Result<bool, AllocError>
    ensures { IfOk result (λ answer. IsTrue answer → IsHexadecimalReal text.now bits) }
{
    let Some(digits) = text.strip_prefix("0x") else {
        return Ok(false);
    };
    let said = format!(in alloc; "0x{digits}")?;
    Ok(text == said.as_str() && spells(digits, bits))
}

/// Whether digits are the number in hexadecimal.
fn spells(digits: &str, number: u64) -> bool
    ensures { IsTrue result → number ≡ digits_value 16 (without_leading_plus digits.now) }
{
    match u64::from_str_radix(digits, 16) {
        Ok(own) => own == number,
        Err(_) => false,
    }
}
