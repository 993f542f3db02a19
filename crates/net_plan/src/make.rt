//! Makes what a value stands for that is known to be one of its shape. Only memory can be wanting.
ghost use Rattle.std.specs.Prelude.{◌≡◌, ◌≤◌, [], codes, map, length, vec_len, option_map, IfOk};
ghost use Rattle.serde_json.specs.Data.{Data};
ghost use Rattle.net_plan.{specs.Finding.{first_fault, refused}, specs.Grammar.{grammar}, specs.Made.{number_in, number_at, truth_in, truth_at, index_in, index_at, name_in, name_at, hex_in, hex_at, each_made, each_at, within_in, within_at, optional_in, optional_at}, specs.NameIndexes.{find_in}, specs.Reading.{IsReadOf}, specs.Trees.{view, items_view}};
ghost use Rattle.plan_values.specs.NodeValues.{name_bytes};

use crate::error::ValueFault;
use crate::find::find_fault;
use crate::json_value::{at, read_number, read_truth, text_of};
use crate::name_index::NameIndex;
use crate::shape::Shape;
use crate::words::{read_hex, read_name};
use json::Value;
use plan_values::Name;
use std::alloc::{AllocError, Global};

/// That a value is one of a shape, whatever its names are the names of.
pub fn check_shape(
    alloc: Global,
    shape: &'static Shape,
    value: &Value<'_>,
) -> Result<(), ValueFault>
    ensures { IsReadOf (λ u. u) (refused (first_fault None (grammar shape.now) (view value.now))) result }
{
    match find_fault(alloc, None, shape, value)? {
        Some(found) => Err(found.fault),
        None => Ok(()),
    }
}

/// Makes something of a value.
pub trait Make {
    type Item;

    ghost Meaning: { Type 0 };

    ghost meaning: { Self.Item → Meaning };

    // What is made of a JSON value.
    ghost made: { Self → Data → Meaning };

    fn make(&self, alloc: Global, value: &Value<'_>) -> Result<Self::Item, AllocError>
        ensures { IfOk result (λ x. meaning x ≡ made self.now (view value.now)) };
}

/// What is made of each of these values.
pub fn make_each<M: Make>(
    alloc: Global,
    maker: &M,
    values: &[Value<'_>],
) -> Result<Vec<M::Item>, AllocError>
where
    M::Item: Drop,
    ensures made { IfOk result (λ v. map M.meaning v.items ≡ each_made (M.made maker.now) (items_view values.now)) }
    ensures count { IfOk result (λ v. vec_len v ≡ length values.now) }
{
    let mut list = Vec::new(alloc);
    for value in values {
        list.push(maker.make(alloc, value)?)?;
    }
    Ok(list)
}

/// What is made of each item of the list at a key.
pub fn make_each_at<M: Make>(
    alloc: Global,
    maker: &M,
    value: &Value<'_>,
    key: &str,
) -> Result<Vec<M::Item>, AllocError>
where
    M::Item: Drop,
    ensures { IfOk result (λ v. map M.meaning v.items ≡ each_at key.now (M.made maker.now) (view value.now)) }
{
    match at(value, key) {
        Some(Value::Array(items)) => make_each(alloc, maker, items.as_slice()),
        _ => Ok(Vec::new(alloc)),
    }
}

/// What is made of each item of a list of at most so many.
fn make_within<M: Make>(
    alloc: Global,
    maker: &M,
    value: &Value<'_>,
    most: usize,
) -> Result<Vec<M::Item>, AllocError>
where
    M::Item: Drop,
    ensures made { IfOk result (λ v. map M.meaning v.items ≡ within_in most (M.made maker.now) (view value.now)) }
    ensures within { IfOk result (λ v. vec_len v ≤ most) }
{
    let Value::Array(items) = value else {
        return Ok(Vec::new(alloc));
    };
    if items.len() > most {
        return Ok(Vec::new(alloc));
    }
    make_each(alloc, maker, items.as_slice())
}

/// The same of the list at a key.
pub fn make_within_at<M: Make>(
    alloc: Global,
    maker: &M,
    value: &Value<'_>,
    key: &str,
    most: usize,
) -> Result<Vec<M::Item>, AllocError>
where
    M::Item: Drop,
    ensures made { IfOk result (λ v. map M.meaning v.items ≡ within_at key.now most (M.made maker.now) (view value.now)) }
    ensures within { IfOk result (λ v. vec_len v ≤ most) }
{
    match at(value, key) {
        Some(stands) => make_within(alloc, maker, stands, most),
        None => Ok(Vec::new(alloc)),
    }
}

/// What is made of a value that is not `null`.
fn make_optional<M: Make>(
    alloc: Global,
    maker: &M,
    value: &Value<'_>,
) -> Result<Option<M::Item>, AllocError>
where
    M::Item: Drop,
    ensures { IfOk result (λ o. option_map M.meaning o ≡ optional_in (M.made maker.now) (view value.now)) }
{
    match value {
        Value::Null => Ok(None),
        _ => Ok(Some(maker.make(alloc, value)?)),
    }
}

/// The same of what stands at a key.
pub fn make_optional_at<M: Make>(
    alloc: Global,
    maker: &M,
    value: &Value<'_>,
    key: &str,
) -> Result<Option<M::Item>, AllocError>
where
    M::Item: Drop,
    ensures { IfOk result (λ o. option_map M.meaning o ≡ optional_at key.now (M.made maker.now) (view value.now)) }
{
    match at(value, key) {
        Some(stands) => make_optional(alloc, maker, stands),
        None => Ok(None),
    }
}

/// A number between two bounds.
pub fn number_in(value: &Value<'_>, least: u64, most: u64) -> u64
    requires { least ≤ most }
    ensures made { result ≡ number_in least most (view value.now) }
    ensures least { least ≤ result }
    ensures most { result ≤ most }
{
    match read_number(value, least, most) {
        Ok(number) => number,
        Err(_) => least,
    }
}

/// The number at a key.
pub fn number_at(value: &Value<'_>, key: &str, least: u64, most: u64) -> u64
    requires { least ≤ most }
    ensures made { result ≡ number_at key.now least most (view value.now) }
    ensures least { least ≤ result }
    ensures most { result ≤ most }
{
    match at(value, key) {
        Some(stands) => number_in(stands, least, most),
        None => least,
    }
}

/// Whether a value is `true`.
fn truth_in(value: &Value<'_>) -> bool
    ensures { result ≡ truth_in (view value.now) }
{
    match read_truth(value) {
        Ok(truth) => truth,
        Err(_) => false,
    }
}

/// Whether `true` stands at a key.
pub fn truth_at(value: &Value<'_>, key: &str) -> bool
    ensures { result ≡ truth_at key.now (view value.now) }
{
    match at(value, key) {
        Some(stands) => truth_in(stands),
        None => false,
    }
}

/// The index of a name.
pub fn index_in(names: &NameIndex, value: &Value<'_>) -> usize
    ensures { result ≡ index_in (find_in names.now) (view value.now) }
{
    names.find(text_of(value))
}

/// The index of the name at a key.
pub fn index_at(names: &NameIndex, value: &Value<'_>, key: &str) -> usize
    ensures { result ≡ index_at key.now (find_in names.now) (view value.now) }
{
    match at(value, key) {
        Some(stands) => index_in(names, stands),
        None => names.find(""),
    }
}

/// A name.
fn name_in(alloc: Global, value: &Value<'_>) -> Result<Name, AllocError>
    ensures { IfOk result (λ n. name_bytes n ≡ name_in (view value.now)) }
{
    match read_name(alloc, value) {
        Ok(name) => Ok(name),
        Err(ValueFault::OutOfMemory) => Err(AllocError),
        Err(_) => no_name(alloc),
    }
}

/// A name for what has none.
fn no_name(alloc: Global) -> Result<Name, AllocError>
    ensures { IfOk result (λ n. name_bytes n ≡ codes "-") }
{
    let text = String::from_str(alloc, "-")?;
    Ok(Name { text })
}

/// The name of an object.
pub fn name_at(alloc: Global, value: &Value<'_>) -> Result<Name, AllocError>
    ensures { IfOk result (λ n. name_bytes n ≡ name_at (view value.now)) }
{
    match at(value, "name") {
        Some(stands) => name_in(alloc, stands),
        None => no_name(alloc),
    }
}

/// The bytes of hex text.
fn hex_in(alloc: Global, value: &Value<'_>) -> Result<Vec<u8>, AllocError>
    ensures { IfOk result (λ v. v.items ≡ hex_in (view value.now)) }
{
    match read_hex(alloc, value) {
        Ok(bytes) => Ok(bytes),
        Err(ValueFault::OutOfMemory) => Err(AllocError),
        Err(_) => Ok(Vec::new(alloc)),
    }
}

/// The bytes of an object.
pub fn hex_at(alloc: Global, value: &Value<'_>) -> Result<Vec<u8>, AllocError>
    ensures { IfOk result (λ v. v.items ≡ hex_at (view value.now)) }
{
    match at(value, "bytes") {
        Some(stands) => hex_in(alloc, stands),
        None => Ok(Vec::new(alloc)),
    }
}
