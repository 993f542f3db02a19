//! Where a JSON pointer leads, as a path of indices.
ghost use Rattle.std.specs.Prelude.{◌≡◌, IfOk, map, option_map};
ghost use Rattle.json.specs.Value.{value_view, items_view, members_view};
ghost use Rattle.net_plan.specs.Finding.{step_value};
ghost use Rattle.net_pointers.{specs.Doubles.{item_at, member_at, part_after}, specs.Paths.{last_index, index_after, path_of}};

use json::Value;
use net_plan::PointerStep;
use std::alloc::{AllocError, Global};

/// The indices of the parts through which a pointer leads. `None` where it leads nowhere.
pub fn path_of(
    alloc: Global,
    root: &Value<'_>,
    pointer: &[PointerStep],
) -> Result<Option<Vec<usize>>, AllocError>
    ensures { IfOk result (λ path. option_map (λ p. p.items) path ≡ path_of (map step_value pointer.now) (value_view root.now)) }
{
    let mut path = Vec::new(alloc);
    let mut part = Some(root);
    for step in pointer {
        let Some(value) = part else {
            return Ok(None);
        };
        let Some(index) = index_after(value, *step) else {
            return Ok(None);
        };
        path.push(index)?;
        part = part_after(value, index);
    }
    Ok(part.map(|_| path))
}

/// The index of the part to which a step leads. Of a key that stands twice it is that of the last member.
fn index_after(value: &Value<'_>, step: PointerStep) -> Option<usize>
    ensures { result ≡ index_after (step_value step) (value_view value.now) }
{
    match (value, step) {
        (Value::Array(_), PointerStep::Index(index)) => Some(index),
        (Value::Object(members), PointerStep::Key(key)) => last_index(members.as_slice(), key),
        _ => None,
    }
}

/// The index of the last member with a key.
fn last_index(members: &[(&str, Value<'_>)], key: &str) -> Option<usize>
    ensures { result ≡ last_index key.now (members_view members.now) }
{
    let mut last = None;
    for (index, member) in members.iter().enumerate() {
        if member.0 == key {
            last = Some(index);
        }
    }
    last
}

/// The item of a list, or what stands at a member of an object, at an index from 0.
pub fn part_after<'v, 't>(value: &'v Value<'t>, index: usize) -> Option<&'v Value<'t>>
    ensures { option_map (λ v. value_view v.now) result ≡ part_after index (value_view value.now) }
{
    match value {
        Value::Array(items) => item_at(items.as_slice(), index),
        Value::Object(members) => member_at(members.as_slice(), index),
        _ => None,
    }
}

fn item_at<'v, 't>(items: &'v [Value<'t>], index: usize) -> Option<&'v Value<'t>>
    ensures { option_map (λ v. value_view v.now) result ≡ item_at index (items_view items.now) }
{
    items.get(index)
}

fn member_at<'v, 't>(members: &'v [(&'t str, Value<'t>)], index: usize) -> Option<&'v Value<'t>>
    ensures { option_map (λ v. value_view v.now) result ≡ member_at index (members_view members.now) }
{
    match members.get(index) {
        Some(member) => Some(&member.1),
        None => None,
    }
}
