//! What the values of a board say.
ghost use Rattle.std.specs.Prelude.{◌≡◌, ◌↔◌, IfOk, IsTrue, Some, None, false, option_map};
ghost use Rattle.toml.{specs.Data.{Items, at, get, as_array}, specs.View.{view}};
ghost use Rattle.board_values.specs.Said.{IsTomlOf, SaysText, SaysNumber, SaysOr, SaysNoneOr, IsListAt, item_at};

use std::alloc::Global;
use toml::Value;

/// The table of a TOML document, as a value.
pub fn board_of_text(alloc: Global, text: &str) -> Result<Value, toml::de::Error>
    ensures { IfOk result (λ board. IsTomlOf text.now (view board)) }
{
    match toml::table_from_str(alloc, text) {
        Ok(table) => Ok(Value::Table(table)),
        Err(error) => Err(error),
    }
}

/// Whether nothing stands at the key.
pub fn is_left_out(value: &Value, key: &str) -> bool
    ensures { IsTrue result ↔ (get key.now (view value.now) ≡ None) }
{
    value.get(key).is_none()
}

/// What stands at an index of the list at a key.
pub fn item<'v>(value: &'v Value, key: &str, index: usize) -> Option<&'v Value>
    ensures { option_map (λ v. view v.now) result ≡ item_at key.now index (view value.now) }
{
    match value.get(key) {
        Some(list) => list.get(index),
        None => None,
    }
}

/// Whether nothing stands at the key, or a list.
pub fn is_list_at(value: &Value, key: &str) -> bool
    ensures { IsTrue result → IsListAt key.now (view value.now) }
{
    match value.get(key) {
        Some(list) => is_list(list),
        None => true,
    }
}

fn is_list(value: &Value) -> bool
    ensures { IsTrue result → (items : Items) × (as_array (view value.now) ≡ Some items) }
{
    match value.as_array() {
        Some(_) => true,
        None => false,
    }
}

/// Whether anything stands at an index of the list at a key.
pub fn has_item(value: &Value, key: &str, index: usize) -> bool
    ensures { result ≡ false → item_at key.now index (view value.now) ≡ None }
{
    item(value, key, index).is_some()
}

/// Whether the value is this text.
pub fn is_text(value: &Value, text: &str) -> bool
    ensures { IsTrue result ↔ SaysText (Some (view value.now)) text.now }
{
    match value.as_str() {
        Some(said) => said == text,
        None => false,
    }
}

/// Whether the value is this number.
pub fn is_number(value: &Value, number: u32) -> bool
    ensures { IsTrue result ↔ SaysNumber (Some (view value.now)) number }
{
    match value.as_integer() {
        Some(said) => said == i64::from(number),
        None => false,
    }
}

/// Whether this text stands at the key.
pub fn says_text(value: &Value, key: &str, text: &str) -> bool
    ensures { IsTrue result ↔ SaysText (get key.now (view value.now)) text.now }
{
    match value.get(key) {
        Some(value) => is_text(value, text),
        None => false,
    }
}

/// Whether this number stands at the key.
pub fn says_number(value: &Value, key: &str, number: u32) -> bool
    ensures { IsTrue result ↔ SaysNumber (get key.now (view value.now)) number }
{
    match value.get(key) {
        Some(value) => is_number(value, number),
        None => false,
    }
}

/// Whether this number stands at the key, or nothing does and it is the default.
pub fn says_or(value: &Value, key: &str, number: u32, default: u32) -> bool
    ensures { IsTrue result ↔ SaysOr default (get key.now (view value.now)) number }
{
    says_number(value, key, number) || (is_left_out(value, key) && number == default)
}

/// Whether nothing stands at the key, or this number does.
pub fn says_none_or(value: &Value, key: &str, number: u32) -> bool
    ensures { IsTrue result ↔ SaysNoneOr (get key.now (view value.now)) number }
{
    is_left_out(value, key) || says_number(value, key, number)
}
