//! The first fault of a value in the order of tests.
ghost use Rattle.std.specs.Prelude.{◌≡◌, ◌≢◌, Err, IfOk, MatchOption, option_map};
ghost use Rattle.net_plan.{specs.Json.{keyed}, specs.Reading.{then_with}, specs.Trees.{view}, specs.declared.error.ValueFault.TheVariants.{OutOfMemory}, specs.Finding.{fault_of, own_fault, has_key, is_within, short_list, unless_null, first_fault, inside, in_fields, in_list, in_choices, located, passes}, specs.Fitting.{Fits}, specs.Grammar.{grammar, fields_view, keys_of, known_seen}};

use crate::error::ValueFault;
use crate::field_keys::check_fields;
use crate::found::{Found, PointerStep};
use crate::json_value::{at, check_object, text_of};
use crate::plain_values::{check_among, check_rule, check_word};
use crate::shape::{Field, KnownNames, Rule, Shape};
use json::Value;
use std::alloc::{AllocError, Global};

/// The first fault of a value in the order of tests, with the pointer to the value that has it. `None` where the value
/// is one of the shape, and only there.
///
/// The order is: a value itself, and then its parts, depth first. Names have to be among those that are known; where
/// none are, any name will do. The error is that there was too little memory.
pub fn find_fault(
    alloc: Global,
    known: Option<&KnownNames<'_>>,
    shape: &'static Shape,
    value: &Value<'_>,
) -> Result<Option<Found>, AllocError>
    ensures first { IfOk result (λ found. option_map located found ≡ first_fault (known_seen known.entry) (grammar shape.now) (view value.now)) }
    ensures fits { let names = known_seen known.entry in
        IfOk result (λ found. MatchOption (option_map located found) (Fits names (grammar shape.now) (view value.now)) (λ _. ¬ Fits names (grammar shape.now) (view value.now))) }
{
    first_fault(alloc, known, shape, value)
}

/// The first fault of a value: that of the value itself, or else the first of its parts.
#[cycle(first)]
fn first_fault(
    alloc: Global,
    known: Option<&KnownNames<'_>>,
    shape: &'static Shape,
    value: &Value<'_>,
) -> Result<Option<Found>, AllocError>
    ensures { IfOk result (λ found. option_map located found ≡ first_fault (known_seen known.entry) (grammar shape.now) (view value.now)) }
{
    if let Some(fault) = own_fault(alloc, known, shape, value)? {
        return Ok(Some(Found {
            pointer: Vec::new(alloc),
            shape,
            fault,
        }));
    }
    fault_inside(alloc, known, shape, value)
}

/// The first fault of the parts of a value.
#[cycle(first)]
#[tactic(auto, using(crate::proofs::FieldKeys::seen_by))]
fn fault_inside(
    alloc: Global,
    known: Option<&KnownNames<'_>>,
    shape: &'static Shape,
    value: &Value<'_>,
) -> Result<Option<Found>, AllocError>
    ensures { IfOk result (λ found. option_map located found ≡ inside (known_seen known.entry) (grammar shape.now) (view value.now)) }
{
    match shape {
        Shape::Plain(_) | Shape::OneOf(_) => Ok(None),
        Shape::List { most: _, item } => fault_in_list(alloc, known, item, value),
        Shape::Optional(other) => fault_inside(alloc, known, other, value),
        Shape::Object { rule: _, fields } => fault_in_fields(alloc, known, fields, value),
        Shape::Choice { at: by, choices } => {
            let Some(stands) = at(value, by.key) else {
                return Ok(None);
            };
            if let Some(found) = first_fault(alloc, known, &by.shape, stands)? {
                return Ok(Some(found.under(PointerStep::Key(by.key))?));
            }
            fault_by_word(alloc, known, choices, text_of(stands), value)
        }
    }
}

/// The first fault of the items of a list.
#[cycle(first)]
fn fault_in_list(
    alloc: Global,
    known: Option<&KnownNames<'_>>,
    item: &'static Shape,
    value: &Value<'_>,
) -> Result<Option<Found>, AllocError>
    ensures { IfOk result (λ found. option_map located found ≡ in_list (first_fault (known_seen known.entry) (grammar item.now)) (view value.now)) }
{
    let Value::Array(items) = value else {
        return Ok(None);
    };
    for (index, value) in items.iter().enumerate() {
        if let Some(found) = first_fault(alloc, known, item, value)? {
            return Ok(Some(found.under(PointerStep::Index(index))?));
        }
    }
    Ok(None)
}

/// The first fault of the values at the keys of an object.
#[cycle(first)]
#[tactic(auto, using(crate::proofs::FieldKeys::fields_cons))]
fn fault_in_fields(
    alloc: Global,
    known: Option<&KnownNames<'_>>,
    fields: &'static [Field],
    value: &Value<'_>,
) -> Result<Option<Found>, AllocError>
    ensures { IfOk result (λ found. option_map located found ≡ in_fields (known_seen known.entry) (fields_view fields.now) (view value.now)) }
{
    for field in fields {
        let Some(stands) = at(value, field.key) else {
            continue;
        };
        if let Some(found) = first_fault(alloc, known, &field.shape, stands)? {
            return Ok(Some(found.under(PointerStep::Key(field.key))?));
        }
    }
    Ok(None)
}

/// The first fault of an object by the first choice that has a word.
#[cycle(first)]
#[tactic(auto, using(crate::proofs::FieldKeys::fields_cons))]
fn fault_by_word(
    alloc: Global,
    known: Option<&KnownNames<'_>>,
    choices: &'static [Field],
    word: &str,
    value: &Value<'_>,
) -> Result<Option<Found>, AllocError>
    ensures { IfOk result (λ found. option_map located found ≡ in_choices (known_seen known.entry) (fields_view choices.now) word.now (view value.now)) }
{
    for choice in choices {
        if word == choice.key {
            return first_fault(alloc, known, &choice.shape, value);
        }
    }
    Ok(None)
}

/// The fault that a value has in itself, whatever the items of a list are, or the values of an object.
pub fn own_fault(
    alloc: Global,
    known: Option<&KnownNames<'_>>,
    shape: &Shape,
    value: &Value<'_>,
) -> Result<Option<ValueFault>, AllocError>
    ensures { IfOk result (λ fault. fault ≡ own_fault (known_seen known.entry) (grammar shape.now) (view value.now)) }
{
    match check(alloc, known, shape, value) {
        Ok(()) => Ok(None),
        Err(ValueFault::OutOfMemory) => Err(AllocError),
        Err(fault) => Ok(Some(fault)),
    }
}

/// That a value has no fault in itself.
fn check(
    alloc: Global,
    known: Option<&KnownNames<'_>>,
    shape: &Shape,
    value: &Value<'_>,
) -> Result<(), ValueFault>
    ensures { result ≢ Err OutOfMemory → fault_of result ≡ own_fault (known_seen known.entry) (grammar shape.now) (view value.now) }
{
    match shape {
        Shape::Plain(word) => check_word(alloc, known, *word, value),
        Shape::OneOf(words) => check_among(words, value),
        Shape::List { most, item: _ } => check_list(value, *most),
        Shape::Optional(other) => unless_null(value, check(alloc, known, other, value)),
        Shape::Object { rule, fields } => check_fields_and_rule(*rule, fields, value),
        Shape::Choice { at, choices: _ } => check_has(value, at.key),
    }
}

/// That a value is an object with exactly these keys, which keeps a rule.
fn check_fields_and_rule(rule: Rule, fields: &[Field], value: &Value<'_>) -> Result<(), ValueFault>
    ensures { result ≡ then_with (keyed (keys_of (fields_view fields.now)) (view value.now)) (λ _. passes rule (view value.now)) }
{
    check_fields(fields, value)?;
    check_rule(rule, value)
}

/// That a value is an object that has a key.
fn check_has(value: &Value<'_>, key: &str) -> Result<(), ValueFault>
    ensures { result ≡ has_key key.now (view value.now) }
{
    check_object(value)?;
    match at(value, key) {
        Some(_) => Ok(()),
        None => Err(ValueFault::MissingKey),
    }
}

/// That a value is a list of at most so many items.
fn check_list(value: &Value, most: Option<usize>) -> Result<(), ValueFault>
    ensures { result ≡ short_list most (view value.now) }
{
    let Value::Array(items) = value else {
        return Err(ValueFault::WrongKind);
    };
    if !is_within(most, items.len()) {
        return Err(ValueFault::OverLimit);
    }
    Ok(())
}

/// Whether a list may have so many items.
fn is_within(most: Option<usize>, count: usize) -> bool
    ensures { result ≡ is_within most count }
{
    match most {
        Some(most) => count <= most,
        None => true,
    }
}

/// What was told of a value, unless it is `null`.
fn unless_null(value: &Value, told: Result<(), ValueFault>) -> Result<(), ValueFault>
    ensures { fault_of result ≡ unless_null (view value.now) (fault_of told) }
{
    match value {
        Value::Null => Ok(()),
        _ => told,
    }
}
