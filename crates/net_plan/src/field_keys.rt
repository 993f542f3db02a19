//! The keys of an object, held against the fields of its shape.
ghost use Rattle.std.{specs.Prelude.{◌≡◌, not, is_some}, specs.List.{list_any}, specs.Str.{bytes_eq}};
ghost use Rattle.serde_json.specs.Find.{get};
ghost use Rattle.net_plan.{specs.Json.{keyed, known_keys, given_keys}, specs.Trees.{view}, specs.Grammar.{keys_of, fields_view}, specs.declared.shape.Field.{out-Field}};

use crate::error::ValueFault;
use crate::json_value::at;
use crate::shape::Field;
use json::Value;

/// That a value is an object with exactly the keys of these fields.
pub fn check_fields(fields: &[Field], value: &Value<'_>) -> Result<(), ValueFault>
    ensures { result ≡ keyed (keys_of (fields_view fields.now)) (view value.now) }
{
    check_known(fields, value)?;
    check_given(fields, value)
}

/// That a value is an object with no other keys than these.
fn check_known(fields: &[Field], value: &Value<'_>) -> Result<(), ValueFault>
    ensures { result ≡ known_keys (keys_of (fields_view fields.now)) (view value.now) }
{
    let Value::Object(members) = value else {
        return Err(ValueFault::WrongKind);
    };
    if has_unknown_key(fields, members) {
        return Err(ValueFault::UnknownKey);
    }
    Ok(())
}

/// That a value is an object with all these keys.
fn check_given(fields: &[Field], value: &Value<'_>) -> Result<(), ValueFault>
    ensures { result ≡ given_keys (keys_of (fields_view fields.now)) (view value.now) }
{
    let Value::Object(_) = value else {
        return Err(ValueFault::WrongKind);
    };
    if is_lacking(fields, value) {
        return Err(ValueFault::MissingKey);
    }
    Ok(())
}

/// Whether an object has another key than these.
fn has_unknown_key(fields: &[Field], members: &Vec<(&str, Value<'_>)>) -> bool
    ensures { result ≡ list_any (λ m. not (list_any (λ f. bytes_eq m.0.now (out-Field f).key.now) fields.now)) members.now.items }
{
    for member in members {
        if !is_key_of(fields, member.0) {
            return true;
        }
    }
    false
}

/// Whether a key is one of these.
pub fn is_key_of(fields: &[Field], key: &str) -> bool
    ensures { result ≡ list_any (λ f. bytes_eq key.now (out-Field f).key.now) fields.now }
{
    fields.iter().any(|field| key == field.key)
}

/// Whether a value lacks one of these keys.
fn is_lacking(fields: &[Field], value: &Value<'_>) -> bool
    ensures { result ≡ list_any (λ f. not (is_some (get (out-Field f).key.now (view value.now)))) fields.now }
{
    fields.iter().any(|field| at(value, field.key).is_none())
}
