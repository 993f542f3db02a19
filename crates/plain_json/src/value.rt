//! Values as trees.
ghost use Rattle.std.specs.Prelude.{◌≡◌, Some, IfSome, length};
ghost use Rattle.json.{specs.Json.{value, items, members}, specs.Value.{value_view, items_view, members_view}};

use crate::reader::PlainReader;
use json::Value;
use std::alloc::Global;

/// The next value, where nothing in it is unusual. Arrays and objects may nest `depth` deep.
#[cycle(read)]
pub fn read_value<'t>(
    alloc: Global,
    reader: &mut PlainReader<'t>,
    depth: usize,
) -> Option<Value<'t>>
    ensures { IfSome result (λ v. value depth reader.old ≡ Some (value_view v, reader.new)) }
{
    match reader.first_byte()? {
        b'{' => {
            reader.begin_object()?;
            if depth == 0 {
                return None;
            }
            Some(Value::Object(read_members(alloc, reader, depth - 1)?))
        }
        b'[' => {
            reader.begin_array()?;
            if depth == 0 {
                return None;
            }
            Some(Value::Array(read_items(alloc, reader, depth - 1)?))
        }
        b'"' => Some(Value::String(reader.next_string()?)),
        b'n' => {
            reader.next_null()?;
            Some(Value::Null)
        }
        _ => Some(Value::Number(reader.next_numeral()?)),
    }
}

/// The items of an array that was begun.
#[cycle(read)]
fn read_items<'t>(
    alloc: Global,
    reader: &mut PlainReader<'t>,
    depth: usize,
) -> Option<Vec<Value<'t>>>
    ensures { IfSome result (λ v. items (value depth) (length reader.old) reader.old ≡ Some (items_view v.items, reader.new)) }
{
    let mut found = Vec::new(alloc);
    'items: while !reader.take_end_array() {
        let item = read_value(alloc, reader, depth)?;
        if found.push(item).is_err() {
            return None;
        }
    }
    Some(found)
}

/// The members of an object that was begun.
#[cycle(read)]
fn read_members<'t>(
    alloc: Global,
    reader: &mut PlainReader<'t>,
    depth: usize,
) -> Option<Vec<(&'t str, Value<'t>)>>
    ensures { IfSome result (λ v. members (value depth) (length reader.old) reader.old ≡ Some (members_view v.items, reader.new)) }
{
    let mut found = Vec::new(alloc);
    'members: while let Some(key) = reader.next_key()? {
        let member = read_value(alloc, reader, depth)?;
        if found.push((key, member)).is_err() {
            return None;
        }
    }
    Some(found)
}
