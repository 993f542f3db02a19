//! Keys that come twice in one object.
ghost use Rattle.std.{specs.Prelude.{◌≡◌, map}, specs.List.{list_any}, specs.Str.{bytes_eq}};
ghost use Rattle.json.{specs.Strict.{keys}, specs.Value.{value_view, items_view, members_view}};
ghost use Rattle.net_plan.{specs.Names.{names_differ}, specs.SingleKeys.{single, items_single, members_single}};

use json::Value;

/// Whether no object of a value has a key twice. It takes quadratic time on an object of many different keys; those
/// that a reader took have eight at most.
#[cycle(single)]
pub fn has_single_keys(value: &Value<'_>) -> bool
    ensures { result ≡ single (value_view value.now) }
{
    match value {
        Value::Array(items) => items_have_single_keys(items),
        Value::Object(members) => keys_differ(members) && members_have_single_keys(members),
        _ => true,
    }
}

#[cycle(single)]
fn items_have_single_keys(items: &Vec<Value<'_>>) -> bool
    ensures { result ≡ items_single (items_view items.now.items) }
{
    for item in items {
        if !has_single_keys(item) {
            return false;
        }
    }
    true
}

#[cycle(single)]
fn members_have_single_keys(members: &Vec<(&str, Value<'_>)>) -> bool
    ensures { result ≡ members_single (members_view members.now.items) }
{
    for member in members {
        if !has_single_keys(&member.1) {
            return false;
        }
    }
    true
}

/// Whether an object has no key twice.
#[tactic(auto, using(crate::proofs::SingleKeys::keys_of))]
fn keys_differ(members: &Vec<(&str, Value<'_>)>) -> bool
    ensures { result ≡ names_differ (keys (members_view members.now.items)) }
{
    are_keys_new(members.as_slice())
}

fn are_keys_new(members: &[(&str, Value<'_>)]) -> bool
    ensures { result ≡ names_differ (map (λ m. m.0.now) members.now) }
{
    for (index, member) in members.iter().enumerate() {
        if is_key_of(&members[..index], member.0) {
            return false;
        }
    }
    true
}

/// Whether one of the members has this key.
fn is_key_of(members: &[(&str, Value<'_>)], key: &str) -> bool
    ensures { result ≡ list_any (λ m. bytes_eq key.now m.0.now) members.now }
{
    members.iter().any(|member| key == member.0)
}
