//! A value that is wrong in itself: where it stands, what is wrong with it, and what may stand there.
ghost use Rattle.std.specs.Prelude.{◌≡◌, map, true, is_some, IfOk, option_map, string_bytes};
ghost use Rattle.serde_json.specs.Find.{at, get_item};
ghost use Rattle.net_plan.{specs.Finding.{located, step_value}, specs.Names.{text_found}, specs.Trees.{view, items_view}};
ghost use Rattle.json.specs.Value.{value_view};
ghost use Rattle.net_pointers.{specs.Offsets.{IsTextOf, LeadsTo}, specs.Pointers.{value_at, value_after}};
ghost use Rattle.reading_texts.specs.TroubleLines.{IsValueTold};

use crate::joined::joined;
use crate::positions::place_text;
use crate::shapes::{number_noun, shape_words};
use crate::shown::{rest_at, shown_text};
use json::Value;
use net_plan::{Field, Found, PointerStep, Shape, ValueFault, Word, at, fields_of, is_key_of};
use net_pointers::{offset_of_pointer, shown_key};
use std::alloc::{AllocError, Global};

/// The line of a value that has a fault in itself: where it stands, what is wrong with it, and what may stand there,
/// with these words at the end.
pub fn value_line(
    alloc: Global,
    text: &[u8],
    value: &Value<'_>,
    found: &Found,
    also: &str,
) -> Result<String, AllocError>
    requires text { IsTextOf text.now (value_view value.now) }
    requires leads { is_some (value_at (located found.now).pointer (view value.now)) ≡ true }
    ensures { IfOk result (λ line. IsValueTold text.now (located found.now).pointer (string_bytes line)) }
{
    let pointer = found.pointer.as_slice();
    let Some(stands) = value_at(value, pointer) else {
        unreachable!();
    };
    let offset = offset_there(alloc, text, value, pointer)?;
    let wrong = wrong_words(alloc, found, stands, rest_at(text, offset))?;
    let may = may_words(alloc, found, stands, also)?;
    let place = place_text(alloc, text, offset, pointer)?;
    joined(alloc, &place, &wrong, &may)
}

/// The offset at which the value begins to which a pointer leads.
pub fn offset_there(
    alloc: Global,
    text: &[u8],
    value: &Value<'_>,
    pointer: &[PointerStep],
) -> Result<usize, AllocError>
    requires text { IsTextOf text.now (value_view value.now) }
    requires leads { is_some (value_at (map step_value pointer.now) (view value.now)) ≡ true }
    ensures { IfOk result (LeadsTo text.now (map step_value pointer.now)) }
{
    match offset_of_pointer(alloc, text, value, pointer)? {
        Some(offset) => Ok(offset),
        None => unreachable!(),
    }
}

/// What may stand there, with these words at the end.
fn may_words(
    alloc: Global,
    found: &Found,
    stands: &Value<'_>,
    also: &str,
) -> Result<String, AllocError> {
    let noun = number_noun(found.pointer.as_slice());
    let shape = shape_words(alloc, noun, found.shape)?;
    let writing = writing_words(found.shape, stands);
    format!(in alloc; "{shape}{also}{writing}")
}

/// How a number is written, where one may stand and one stands that is written otherwise: with a sign, a fraction or an
/// exponent.
fn writing_words(shape: &Shape, stands: &Value<'_>) -> &'static str {
    match (shape, stands) {
        (Shape::Plain(Word::Number { least: _, most: _ }), Value::Number(text))
            if !has_only_digits(text.as_bytes()) => { ", in digits alone" }
        _ => "",
    }
}

fn has_only_digits(bytes: &[u8]) -> bool {
    bytes.iter().all(|byte| byte.is_ascii_digit())
}

/// What is wrong with a value: the key that it lacks or that doesn't belong there, its length, or what stands there.
fn wrong_words(
    alloc: Global,
    found: &Found,
    stands: &Value<'_>,
    rest: &str,
) -> Result<String, AllocError> {
    match (found.fault, stands) {
        (ValueFault::MissingKey, _) => lack_words(alloc, fields_of(found.shape), stands),
        (ValueFault::UnknownKey, Value::Object(members)) => {
            unknown_words(alloc, fields_of(found.shape), members)
        }
        (ValueFault::OverLimit, Value::Array(items)) => {
            let count = items.len();
            format!(in alloc; "is a list of {count} items")
        }
        _ => {
            let shown = shown_text(alloc, rest)?;
            format!(in alloc; "is {shown}")
        }
    }
}

/// The first key of a table that an object lacks.
fn lack_words(alloc: Global, fields: &[Field], stands: &Value<'_>) -> Result<String, AllocError> {
    for field in fields {
        if at(stands, field.key).is_none() {
            let key = field.key;
            return format!(in alloc; "lacks the key {key}");
        }
    }
    "lacks a key that belongs there".to_string(alloc)
}

/// The first key of an object that is none of a table.
fn unknown_words(
    alloc: Global,
    fields: &[Field],
    members: &Vec<(&str, Value<'_>)>,
) -> Result<String, AllocError> {
    for member in members {
        if !is_key_of(fields, member.0) {
            let key = shown_key(alloc, member.0)?;
            return format!(in alloc; "has the unknown key {key}");
        }
    }
    "has a key that doesn't belong there".to_string(alloc)
}

/// The value that a pointer leads to.
pub fn value_at<'v, 't>(value: &'v Value<'t>, pointer: &[PointerStep]) -> Option<&'v Value<'t>>
    ensures { option_map (λ v. view v.now) result ≡ value_at (map step_value pointer.now) (view value.now) }
{
    let mut part = Some(value);
    for step in pointer {
        let Some(whole) = part else {
            return None;
        };
        part = value_after(whole, *step);
    }
    part
}

fn value_after<'v, 't>(value: &'v Value<'t>, step: PointerStep) -> Option<&'v Value<'t>>
    ensures { option_map (λ v. view v.now) result ≡ value_after (step_value step) (view value.now) }
{
    match step {
        PointerStep::Key(key) => at(value, key),
        PointerStep::Index(index) => item_at(value, index),
    }
}

fn item_at<'v, 't>(value: &'v Value<'t>, index: usize) -> Option<&'v Value<'t>>
    ensures { option_map (λ v. view v.now) result ≡ at index (view value.now) }
{
    match value {
        Value::Array(items) => item_of(items.as_slice(), index),
        _ => None,
    }
}

fn item_of<'v, 't>(items: &'v [Value<'t>], index: usize) -> Option<&'v Value<'t>>
    ensures { option_map (λ v. view v.now) result ≡ get_item index (items_view items.now) }
{
    items.get(index)
}

/// The text that a value is; an empty one where it is none.
pub fn text_of<'v>(value: Option<&'v Value<'_>>) -> &'v str
    ensures { result.now ≡ text_found (option_map (λ v. view v.now) value.entry) }
{
    match value {
        Some(Value::String(text)) => text,
        _ => "",
    }
}
