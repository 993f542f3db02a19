//! Places in texts: in the JSON value that the commands share, and in SARIF.
ghost use Rattle.std.specs.Prelude.{◌≡◌, IfOk, map, option_map, string_bytes};
ghost use Rattle.json.specs.Value.{value_view};
ghost use Rattle.net_plan.specs.Finding.{step_value};
ghost use Rattle.net_pointers.specs.Offsets.{IsTextOf};
ghost use Rattle.serde_json.specs.View.{view};
ghost use Rattle.json_commands.{specs.Places.{IsPlaceTold, json_pointer, located_data, location_data, logical_data, physical_data, place_data, position_in, spot_data, string_or_null, uri_bytes}, specs.Values.{number_or_null}};

use crate::lists::{empty_list, list_of_one};
use command_questions::Form;
use json::Value as Tree;
use net_plan::PointerStep;
use net_pointers::{Position, TextIndex, position_of};
use percent_encoding::{AsciiSet, NON_ALPHANUMERIC, ascii_set, utf8_percent_encode};
use reading_texts::pointer_text;
use serde_json::{Value, json};
use std::alloc::{AllocError, Global};

/// A text: the form in which places in it are told, the name of its file, its index, and its tree.
#[derive(Clone, Copy)]
pub struct Placing<'a, 't, 'i> {
    pub form: Form,
    pub name: &'a str,
    pub index: &'a TextIndex<'i>,
    pub tree: &'a Tree<'t>,
}

/// Where in a text a pointer leads.
pub fn place_of(
    alloc: Global,
    placing: &Placing<'_, '_, '_>,
    pointer: &[PointerStep],
) -> Result<Value, AllocError>
    requires { IsTextOf placing.now.index.now (value_view placing.now.tree.now) }
    ensures { IfOk result (λ value. IsPlaceTold placing.now.form placing.now.name.now placing.now.index.now (map step_value pointer.now) (view value)) }
{
    let spot = placing.index.spot_of_pointer(alloc, placing.tree, pointer)?;
    let written = pointer_words(alloc, pointer)?;
    let position = spot.map(|spot| spot.position);
    located(alloc, placing.form, placing.name, position, Some(&written))
}

/// The list of where in a text a pointer leads, if there is one.
pub fn places_of(
    alloc: Global,
    placing: &Placing<'_, '_, '_>,
    pointer: Option<Vec<PointerStep>>,
) -> Result<Value, AllocError>
    requires { IsTextOf placing.now.index.now (value_view placing.now.tree.now) }
{
    match pointer {
        Some(pointer) => list_of_one(alloc, place_of(alloc, placing, &pointer)?),
        None => Ok(empty_list(alloc)),
    }
}

/// A pointer as RFC 6901 writes it. No key of a plan or a certificate has a character that it escapes.
pub fn pointer_words(alloc: Global, pointer: &[PointerStep]) -> Result<String, AllocError>
    ensures { IfOk result (λ words. string_bytes words ≡ json_pointer (map step_value pointer.now)) }
{
    if pointer.is_empty() {
        return Ok(String::new(alloc));
    }
    pointer_text(alloc, pointer)
}

/// The place of an offset in a text, which may not be known, without a pointer.
pub fn spot_of(
    alloc: Global,
    form: Form,
    name: &str,
    text: &[u8],
    offset: Option<usize>,
) -> Result<Value, AllocError>
    ensures { IfOk result (λ value. view value ≡ spot_data form name.now text.now offset) }
{
    located(alloc, form, name, position_in(text, offset), None)
}

/// The place at a line and a column, which may not be known, and the pointer that leads there, which may lack.
fn located(
    alloc: Global,
    form: Form,
    name: &str,
    position: Option<Position>,
    pointer: Option<&str>,
) -> Result<Value, AllocError>
    ensures { IfOk result (λ value. view value ≡ located_data form name.now position (option_map (λ p. p.now) pointer.entry)) }
{
    match form {
        Form::Json => place_value(alloc, name, position, pointer),
        Form::Sarif => location_value(alloc, name, position, pointer),
    }
}

/// The line and the column of an offset, where it is known and in the text.
fn position_in(text: &[u8], offset: Option<usize>) -> Option<Position>
    ensures { result ≡ position_in text.now offset }
{
    match offset {
        Some(offset) if offset <= text.len() => Some(position_of(text, offset)),
        _ => None,
    }
}

fn place_value(
    alloc: Global,
    name: &str,
    position: Option<Position>,
    pointer: Option<&str>,
) -> Result<Value, AllocError>
    ensures { IfOk result (λ value. view value ≡ place_data name.now position (option_map (λ p. p.now) pointer.entry)) }
{
    json!(in alloc; {
        "column": number_or_null(position.map(|position| position.column)), "file": name,
        "line": number_or_null(position.map(|position| position.line)), "pointer": string_or_null(alloc, pointer)?
    })
}

/// A number, or null.
pub fn number_or_null(number: Option<usize>) -> Value
    ensures { view result ≡ number_or_null number }
{
    match number {
        Some(number) => Value::from(number),
        None => Value::Null,
    }
}

/// A text, or null.
fn string_or_null(alloc: Global, text: Option<&str>) -> Result<Value, AllocError>
    ensures { IfOk result (λ value. view value ≡ string_or_null (option_map (λ t. t.now) text.entry)) }
{
    match text {
        Some(text) => Value::try_from_str(alloc, text),
        None => Ok(Value::Null),
    }
}

// ---- SARIF

/// A location (SARIF 2.1.0, section 3.28).
fn location_value(
    alloc: Global,
    name: &str,
    position: Option<Position>,
    pointer: Option<&str>,
) -> Result<Value, AllocError>
    ensures { IfOk result (λ value. view value ≡ location_data name.now position (option_map (λ p. p.now) pointer.entry)) }
{
    json!(in alloc; {
        "logicalLocations": logical_value(alloc, pointer)?, "physicalLocation": physical_value(alloc, name, position)?
    })
}

/// The logical locations: the one whose name is the pointer.
fn logical_value(alloc: Global, pointer: Option<&str>) -> Result<Value, AllocError>
    ensures { IfOk result (λ value. view value ≡ logical_data (option_map (λ p. p.now) pointer.entry)) }
{
    match pointer {
        Some(pointer) => json!(in alloc; [{"fullyQualifiedName": pointer}]),
        None => Ok(empty_list(alloc)),
    }
}

/// The physical location: the file, and where in it, if that is known.
fn physical_value(
    alloc: Global,
    name: &str,
    position: Option<Position>,
) -> Result<Value, AllocError>
    ensures { IfOk result (λ value. view value ≡ physical_data name.now position) }
{
    match position {
        Some(position) => json!(in alloc; {
            "artifactLocation": {"uri": uri_of(alloc, name)?},
            "region": {"startColumn": position.column, "startLine": position.line}
        }),
        None => json!(in alloc; {"artifactLocation": {"uri": uri_of(alloc, name)?}}),
    }
}

/// The characters of a name that are escaped in a URI: all but letters, digits, `-`, `.`, `_`, `~` and `/` (RFC 3986).
const ESCAPED: AsciiSet = ascii_set!(
    NON_ALPHANUMERIC
        .remove(b'-')
        .remove(b'.')
        .remove(b'_')
        .remove(b'~')
        .remove(b'/')
);

/// The name of a file as a relative reference.
fn uri_of(alloc: Global, name: &str) -> Result<String, AllocError>
    ensures { IfOk result (λ uri. string_bytes uri ≡ uri_bytes name.now) }
{
    let mut uri = String::new(alloc);
    utf8_percent_encode(name, ESCAPED).append_to(&mut uri)?;
    Ok(uri)
}
