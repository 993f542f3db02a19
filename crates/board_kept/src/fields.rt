//! Whether a record is given by the names of its fields.
ghost use Rattle.std.specs.Prelude.{◌≡◌, ◌⊎◌, ◌≢◌, ◌∷◌, ◌++◌, [], IfOk, IfSome, IsTrue, OnOk, codes, decimal, map, string_bytes, option_map, option_and_then, slice_get, Some, None};
ghost use Rattle.toml.{specs.Data.{as_str, get}, specs.View.{view, table_view}};
ghost use Rattle.pdr_record.specs.RecordValues.{record_value};
ghost use Rattle.record_fields.{specs.Meanings.{named_of}, specs.Named.{Named, named_fields}, specs.Said.{Says}};
ghost use Rattle.board_kept.{specs.Fields.{word_of, NamesHolder, StandsForText, IsSaidBy, value_at, AreNamed, AddsIfNamed, IsSaidOne, IsSaidAt, AreSaid, IsFieldGiven, IsMemberGiven, AreMembersGiven, IsRecordGiven, AreFieldsGiven}, specs.Kept.{AreFieldsKept}};

use mctp_transport::{Eid, Wire};
use pdr_record::Record;
use plan_values::{Node, Plan};
use record_fields::{NamedField, is_type, named_fields, says};
use std::alloc::{AllocError, Global};
use toml::{Table, Value};

/// Whether the bytes are a record of the type that stands there, and each field that stands there is so of it.
pub fn are_fields_given(
    alloc: Global,
    plan: &Plan,
    bytes: &[u8],
    given: &Value,
) -> Result<bool, AllocError>
    ensures { IfOk result (λ answer. IsTrue answer → AreFieldsKept plan.now bytes.now (view given.now)) }
{
    match type_of(given) {
        Some(kind) => are_fields_of(alloc, plan, kind, bytes, given),
        None => Ok(false),
    }
}

/// The text at the key `type`.
fn type_of(given: &Value) -> Option<&str>
    ensures { option_map (λ text. text.now) result ≡ option_and_then as_str (get (codes "type") (view given.now)) }
{
    match given.get("type") {
        Some(value) => value.as_str(),
        None => None,
    }
}

fn are_fields_of(
    alloc: Global,
    plan: &Plan,
    kind: &str,
    bytes: &[u8],
    given: &Value,
) -> Result<bool, AllocError>
    ensures { IfOk result (λ answer. IsTrue answer → AreFieldsGiven plan.now kind.now bytes.now (view given.now)) }
{
    match given.as_table() {
        Some(table) => is_record_given(alloc, plan, kind, bytes, table),
        None => Ok(false),
    }
}

fn is_record_given(
    alloc: Global,
    plan: &Plan,
    kind: &str,
    bytes: &[u8],
    table: &Table,
) -> Result<bool, AllocError>
    ensures { IfOk result (λ answer. IsTrue answer → IsRecordGiven plan.now kind.now bytes.now (table_view table.now)) }
{
    match Record::read(bytes) {
        Ok(record) => Ok(
            is_type(kind, record.body.record_type()) && are_given(alloc, plan, &record, table)?,
        ),
        Err(_) => Ok(false),
    }
}

/// Whether each member of the table but `type` and `next` is a field of the record.
fn are_given(alloc: Global, plan: &Plan, whole: &Record, table: &Table) -> Result<bool, AllocError>
    ensures { IfOk result (λ answer. IsTrue answer → AreMembersGiven plan.now (named_fields (record_value whole.now)) (table_view table.now)) }
{
    let fields = named_fields(alloc, whole)?;
    are_members_given(alloc, plan, &fields, table)
}

fn are_members_given(
    alloc: Global,
    plan: &Plan,
    fields: &[NamedField],
    table: &Table,
) -> Result<bool, AllocError>
    ensures { IfOk result (λ answer. IsTrue answer → AreMembersGiven plan.now (map named_of fields.now) (table_view table.now)) }
{
    for (name, value) in table.iter() {
        if !is_member_given(alloc, plan, fields, name.as_str(), value)? {
            return Ok(false);
        }
    }
    Ok(true)
}

fn is_member_given(
    alloc: Global,
    plan: &Plan,
    fields: &[NamedField],
    name: &str,
    value: &Value,
) -> Result<bool, AllocError>
    ensures { IfOk result (λ answer. IsTrue answer → IsMemberGiven plan.now (map named_of fields.now) name.now (view value.now)) }
{
    if name == "type" || name == "next" {
        return Ok(true);
    }
    Ok(is_field_given(alloc, plan, fields, name, value)?)
}

/// Whether the fields of the name hold what the value stands for, or the values of a list, one after another.
fn is_field_given(
    alloc: Global,
    plan: &Plan,
    fields: &[NamedField],
    name: &str,
    value: &Value,
) -> Result<bool, AllocError>
    ensures { IfOk result (λ answer. IsTrue answer → IsFieldGiven plan.now (map named_of fields.now) name.now (view value.now)) }
{
    let own = fields_of(alloc, fields, name)?;
    are_said(alloc, plan, name, &own, value)
}

/// The fields that have the name, in their order.
fn fields_of<'a>(
    alloc: Global,
    fields: &[NamedField<'a>],
    name: &str,
) -> Result<Vec<NamedField<'a>>, AllocError>
    ensures { IfOk result (λ own. AreNamed name.now (map named_of fields.now) (map named_of own.items)) }
{
    let mut own = Vec::new(alloc);
    for index in 0..fields.len() {
        add_at(&mut own, fields, index, name)?;
    }
    Ok(own)
}

/// Adds the field at an index, if it has the name.
fn add_at<'a>(
    own: &mut Vec<NamedField<'a>>,
    fields: &[NamedField<'a>],
    index: usize,
    name: &str,
) -> Result<(), AllocError>
    ensures { OnOk result ((field : Named) → slice_get (map named_of fields.now) index ≡ Some field → AddsIfNamed name.now field (map named_of own.old.items) (map named_of own.new.items)) }
{
    match field_at(fields, index) {
        Some(field) => add_if_named(own, &field, name),
        None => Ok(()),
    }
}

fn add_if_named<'a>(
    own: &mut Vec<NamedField<'a>>,
    field: &NamedField<'a>,
    name: &str,
) -> Result<(), AllocError>
    ensures { OnOk result (AddsIfNamed name.now (named_of field.now) (map named_of own.old.items) (map named_of own.new.items)) }
{
    if field.name == name {
        return push_field(own, field);
    }
    Ok(())
}

fn push_field<'a>(own: &mut Vec<NamedField<'a>>, field: &NamedField<'a>) -> Result<(), AllocError>
    ensures { OnOk result (map named_of own.new.items ≡ map named_of own.old.items ++ named_of field.now ∷ []) }
{
    own.push(*field)?;
    Ok(())
}

/// Whether the fields hold, one after another, what the values stand for.
fn are_said(
    alloc: Global,
    plan: &Plan,
    name: &str,
    own: &[NamedField],
    value: &Value,
) -> Result<bool, AllocError>
    ensures { IfOk result (λ answer. IsTrue answer → AreSaid plan.now name.now (map named_of own.now) (view value.now)) }
{
    for index in 0..own.len() {
        if !is_said_at(alloc, plan, name, own, value, index)? {
            return Ok(false);
        }
    }
    Ok(has_no_value(value, own.len()))
}

fn is_said_at(
    alloc: Global,
    plan: &Plan,
    name: &str,
    own: &[NamedField],
    value: &Value,
    index: usize,
) -> Result<bool, AllocError>
    ensures { IfOk result (λ answer. IsTrue answer → IsSaidAt plan.now name.now (map named_of own.now) (view value.now) index) }
{
    match field_at(own, index) {
        Some(field) => Ok(is_said_one(alloc, plan, name, &field, value, index)?),
        None => Ok(true),
    }
}

/// Whether the value at an index stands for what the field holds.
fn is_said_one(
    alloc: Global,
    plan: &Plan,
    name: &str,
    field: &NamedField,
    value: &Value,
    index: usize,
) -> Result<bool, AllocError>
    ensures { IfOk result (λ answer. IsTrue answer → IsSaidOne plan.now name.now (named_of field.now) (view value.now) index) }
{
    match value_at(value, index) {
        Some(one) => Ok(is_said_by(alloc, plan, name, field, one)?),
        None => Ok(false),
    }
}

fn field_at<'a>(own: &[NamedField<'a>], index: usize) -> Option<NamedField<'a>>
    ensures { option_map named_of result ≡ slice_get (map named_of own.now) index }
{
    own.get(index).copied()
}

/// A value of a list; of another value itself, at 0.
fn value_at<'v>(value: &'v Value, index: usize) -> Option<&'v Value>
    ensures { option_map (λ v. view v.now) result ≡ value_at index (view value.now) }
{
    if value.is_array() {
        return value.get(index);
    }
    if index == 0 { Some(value) } else { None }
}

fn has_no_value(value: &Value, index: usize) -> bool
    ensures { IsTrue result → value_at index (view value.now) ≡ None }
{
    value_at(value, index).is_none()
}

/// Whether the value stands for what the field of the name holds.
fn is_said_by(
    alloc: Global,
    plan: &Plan,
    name: &str,
    field: &NamedField,
    value: &Value,
) -> Result<bool, AllocError>
    ensures { IfOk result (λ answer. IsTrue answer → IsSaidBy plan.now name.now (named_of field.now) (view value.now)) }
{
    match text_of(alloc, plan, name, value)? {
        Some(text) => says_word(alloc, name, &text, field),
        None => Ok(false),
    }
}

fn says_word(alloc: Global, name: &str, text: &str, field: &NamedField) -> Result<bool, AllocError>
    ensures { IfOk result (λ answer. IsTrue answer → Says (word_of name.now text.now) (named_of field.now)) }
{
    let word = format!(in alloc; "{name}={text}")?;
    says(alloc, &word, field)
}

/// What a value stands for at a field of the name, where it is a number or a text that does.
pub fn text_of(
    alloc: Global,
    plan: &Plan,
    name: &str,
    value: &Value,
) -> Result<Option<String>, AllocError>
    ensures { IfOk result (λ found. IfSome found (λ text. StandsForText plan.now name.now (view value.now) (string_bytes text))) }
{
    if let Some(number) = value.as_integer() {
        return Ok(Some(format!(in alloc; "{number}")?));
    }
    match value.as_str() {
        Some(said) => text_of_text(alloc, plan, name, value, said),
        None => Ok(None),
    }
}

/// What a text stands for at a field of the name.
fn text_of_text(
    alloc: Global,
    plan: &Plan,
    name: &str,
    value: &Value,
    said: &str,
) -> Result<Option<String>, AllocError>
    requires { as_str (view value.now) ≡ Some said.now }
    ensures { IfOk result (λ found. IfSome found (λ text. StandsForText plan.now name.now (view value.now) (string_bytes text))) }
{
    if name != "eid" {
        return Ok(Some(said.to_string(alloc)?));
    }
    match holder(plan, said) {
        Some(eid) => Ok(Some(eid_text(alloc, eid)?)),
        None => Ok(None),
    }
}

fn eid_text(alloc: Global, eid: Eid) -> Result<String, AllocError>
    ensures { IfOk result (λ text. string_bytes text ≡ decimal eid.value) }
{
    let eid = eid.value;
    format!(in alloc; "{eid}")
}

/// The endpoint ID of the first node of the name.
fn holder(plan: &Plan, name: &str) -> Option<Eid>
    ensures { IfSome result (λ eid. NamesHolder plan.now name.now eid.value) }
{
    for index in 0..plan.nodes.len() {
        if let Some(eid) = eid_of_name(plan, index, name) {
            return Some(eid);
        }
    }
    None
}

/// The endpoint ID of the node at an index, if it has the name.
fn eid_of_name(plan: &Plan, index: usize, name: &str) -> Option<Eid>
    ensures { IfSome result (λ eid. NamesHolder plan.now name.now eid.value) }
{
    match node_in(plan, index) {
        Some(node) => eid_if_named(node, name),
        None => None,
    }
}

fn node_in(plan: &Plan, index: usize) -> Option<&Node>
    ensures { option_map (λ node. node.now) result ≡ slice_get plan.now.nodes.items index }
{
    plan.nodes.get(index)
}

/// The endpoint ID of a node, if it has the name.
fn eid_if_named(node: &Node, name: &str) -> Option<Eid>
    ensures { IfSome result (λ eid. (string_bytes node.now.name.text ≡ name.now) × (eid ≡ node.now.eid)) }
{
    if node.name.text.as_str() == name {
        Some(node.eid)
    } else {
        None
    }
}
