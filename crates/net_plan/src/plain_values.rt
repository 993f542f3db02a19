//! What is wrong with a value without parts.
ghost use Rattle.std.{specs.Prelude.{◌≡◌, ◌≢◌, ◌≤◌, Err, IfOk, map, option_map, Some, None}, specs.List.{list_any}, specs.Str.{bytes_eq}};
ghost use Rattle.net_plan.{specs.Json.{at_key, is_among, name_text, hex_text, address_text, whole_number, truth, kind_text}, specs.Trees.{view}, specs.declared.error.ValueFault.TheVariants.{OutOfMemory}, specs.Finding.{fault_of, word_fault, word_among, known_name, names_of, range_end, passes}, specs.Grammar.{known_seen, known_view}};

use crate::error::ValueFault;
use crate::json_value::{at, demand, read_number, read_truth};
use crate::shape::{KnownNames, Named, Rule, Word};
use crate::words::{read_address, read_hex, read_kind};
use json::Value;
use plan_values::is_name;
use std::alloc::Global;

/// That a value is such a word. A name has to be one of those that are known, where some are.
pub fn check_word(
    alloc: Global,
    known: Option<&KnownNames<'_>>,
    word: Word,
    value: &Value<'_>,
) -> Result<(), ValueFault>
    ensures { result ≢ Err OutOfMemory → fault_of result ≡ word_fault (known_seen known.entry) word (view value.now) }
{
    match word {
        Word::Number { least, most } => check_number(value, least, most),
        Word::Name => check_name(value),
        Word::Named(named) => check_named(known, named, value),
        Word::Truth => check_truth(value),
        Word::Kind => check_kind(value),
        Word::Hex => check_hex(alloc, value),
        Word::Address => check_address(alloc, value),
    }
}

/// That a value is a name, and one of those that are known, where some are.
fn check_named(
    known: Option<&KnownNames<'_>>,
    named: Named,
    value: &Value<'_>,
) -> Result<(), ValueFault>
    ensures { fault_of result ≡ fault_of (known_name (option_map (names_of named) (known_seen known.entry)) (view value.now)) }
{
    match known {
        Some(known) => check_known(names_of(known, named), value),
        None => check_name(value),
    }
}

/// Those of the names that are known.
pub fn names_of<'k, 't>(known: &'k KnownNames<'t>, named: Named) -> &'k [&'t str]
    ensures { map (λ name. name.now) result.now ≡ names_of named (known_view known.now) }
{
    match named {
        Named::Buses => known.buses.as_slice(),
        Named::Nodes => known.nodes.as_slice(),
    }
}

/// That a value is one of these names.
fn check_known(names: &[&str], value: &Value<'_>) -> Result<(), ValueFault>
    ensures { result ≡ known_name (Some (map (λ name. name.now) names.now)) (view value.now) }
{
    match value {
        Value::String(text) if !is_name(text) => Err(ValueFault::OutOfRange),
        Value::String(text) if is_among(names, text) => Ok(()),
        Value::String(_) => Err(ValueFault::UnknownName),
        _ => Err(ValueFault::WrongKind),
    }
}

/// That a value is the text of one of these words.
pub fn check_among(words: &[&str], value: &Value<'_>) -> Result<(), ValueFault>
    ensures { result ≡ word_among (map (λ word. word.now) words.now) (view value.now) }
{
    match value {
        Value::String(text) => demand(ValueFault::OutOfRange, is_among(words, text)),
        _ => Err(ValueFault::WrongKind),
    }
}

#[tactic(auto, using(crate::proofs::FieldKeys::among_each))]
fn is_among(names: &[&str], text: &str) -> bool
    ensures { result ≡ is_among (map (λ name. name.now) names.now) text.now }
{
    is_one_of(names, text)
}

fn is_one_of(names: &[&str], text: &str) -> bool
    ensures { result ≡ list_any (λ name. bytes_eq text.now name.now) names.now }
{
    names.iter().any(|name| text == *name)
}

fn check_number(value: &Value, least: u64, most: u64) -> Result<(), ValueFault>
    ensures { fault_of result ≡ fault_of (whole_number least most (view value.now)) }
{
    read_number(value, least, most)?;
    Ok(())
}

fn check_name(value: &Value) -> Result<(), ValueFault>
    ensures name { fault_of result ≡ fault_of (name_text (view value.now)) }
    ensures any { result ≡ known_name None (view value.now) }
{
    match value {
        Value::String(text) if is_name(text) => Ok(()),
        Value::String(_) => Err(ValueFault::OutOfRange),
        _ => Err(ValueFault::WrongKind),
    }
}

fn check_truth(value: &Value) -> Result<(), ValueFault>
    ensures { fault_of result ≡ fault_of (truth (view value.now)) }
{
    read_truth(value)?;
    Ok(())
}

fn check_kind(value: &Value) -> Result<(), ValueFault>
    ensures { fault_of result ≡ fault_of (kind_text (view value.now)) }
{
    read_kind(value)?;
    Ok(())
}

fn check_hex(alloc: Global, value: &Value) -> Result<(), ValueFault>
    ensures { result ≢ Err OutOfMemory → fault_of result ≡ fault_of (hex_text (view value.now)) }
{
    read_hex(alloc, value)?;
    Ok(())
}

fn check_address(alloc: Global, value: &Value) -> Result<(), ValueFault>
    ensures { result ≢ Err OutOfMemory → fault_of result ≡ fault_of (address_text (view value.now)) }
{
    read_address(alloc, value)?;
    Ok(())
}

/// That an object keeps a rule.
pub fn check_rule(rule: Rule, value: &Value<'_>) -> Result<(), ValueFault>
    ensures { result ≡ passes rule (view value.now) }
{
    match rule {
        Rule::None => Ok(()),
        Rule::EndsInTime => match range_end(value) {
            Ok(end) if 256 < end => Err(ValueFault::OutOfRange),
            _ => Ok(()),
        },
    }
}

/// The endpoint ID after the last of a range, from 1 to 510, where its numbers are in their bounds; else the first
/// fault of these numbers.
pub fn range_end(value: &Value<'_>) -> Result<u64, ValueFault>
    ensures { result ≡ range_end (view value.now) }
{
    let first = byte_at(value, "first", 0)?;
    byte_at(value, "rank", 1)?;
    let size = byte_at(value, "size", 1)?;
    Ok(first + size)
}

/// The number at a key: at least so much, and at most 255.
pub fn byte_at(value: &Value<'_>, key: &str, least: u64) -> Result<u64, ValueFault>
    ensures read { result ≡ at_key key.now (whole_number least 255) (view value.now) }
    ensures bound { IfOk result (λ n. n ≤ 255) }
{
    match at(value, key) {
        Some(stands) => read_number(stands, least, 255),
        None => Err(ValueFault::MissingKey),
    }
}
