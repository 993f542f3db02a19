//! What stands twice, and where both stand.
ghost use Rattle.std.specs.Prelude.{◌≡◌, ◌≤◌, ◌<◌, length, map, IfOk, IfSome, Some, option_map, string_bytes};
ghost use Rattle.json.specs.Value.{value_view, members_view};
ghost use Rattle.net_plan.{specs.Finding.{step_value}, specs.Trees.{view}};
ghost use Rattle.net_pointers.{specs.Ascending.{DoOverlap}, specs.Asks.{list_key, name_key}, specs.Doubles.{HasDoubledKey, part_at}, specs.Offsets.{IsTextOf, LeadsToKey}};
ghost use Rattle.reading_texts.{specs.ReadingLines.{Begins, pointer_text}, specs.TroubleLines.{two_lines, entry_pointer, IsDoubledNameTold, IsDoubledKeyTold, key_at, part_step, path_text, object_text, keys_in, IsOverlapTold, range_pointer}};

use crate::positions::{pointer_text, position_text};
use crate::values::{offset_there, text_of, value_at};
use json::Value;
use net_plan::PointerStep;
use net_pointers::{
    DoubledKey, NameList, Overlap, TwoIndices, end_of_range, first_in_range, list_key, name_key,
    offset_of_key, offset_of_pointer, part_after,
};
use std::alloc::{AllocError, Global};

/// The lines of a name that stands at two items of a list.
pub fn doubled_name_lines(
    alloc: Global,
    text: &[u8],
    value: &Value<'_>,
    list: NameList,
    indices: TwoIndices,
) -> Result<String, AllocError>
    requires { IsTextOf text.now (value_view value.now) }
    ensures { IfOk result (λ lines. IsDoubledNameTold text.now (view value.now) (list_key list) (name_key list) indices (string_bytes lines)) }
{
    let one = entry_pointer(list, indices.first);
    let other = entry_pointer(list, indices.second);
    let first = offset_of_pointer(alloc, text, value, &one)?;
    let second = offset_of_pointer(alloc, text, value, &other)?;
    let name = text_of(value_at(value, &one));
    let one = name_line(alloc, &one, name)?;
    let other = again_line(alloc, &other, name, why_once(list))?;
    two_lines(alloc, text, first, second, &one, &other)
}

/// Why a list has a name once.
fn why_once(list: NameList) -> &'static str {
    match list {
        NameList::Buses => "No two buses have one name",
        NameList::Levels | NameList::Places | NameList::Ranks => "A list names a node once",
    }
}

/// The pointer to the name of an item of a list.
fn entry_pointer(list: NameList, index: usize) -> [PointerStep; 3]
    ensures { map step_value result ≡ entry_pointer (list_key list) index (name_key list) }
{
    [
        PointerStep::Key(list_key(list)),
        PointerStep::Index(index),
        PointerStep::Key(name_key(list)),
    ]
}

fn name_line(alloc: Global, pointer: &[PointerStep], name: &str) -> Result<String, AllocError>
    ensures { IfOk result (λ line. Begins (pointer_text (map step_value pointer.now)) (string_bytes line)) }
{
    let pointer = pointer_text(alloc, pointer)?;
    format!(in alloc; "{pointer} is {name}.\n")
}

fn again_line(
    alloc: Global,
    pointer: &[PointerStep],
    name: &str,
    why: &str,
) -> Result<String, AllocError>
    ensures { IfOk result (λ line. Begins (pointer_text (map step_value pointer.now)) (string_bytes line)) }
{
    let pointer = pointer_text(alloc, pointer)?;
    format!(in alloc; "{pointer} is {name} too.\n{why}.\n")
}

/// Two lines, each with its line and column, where they are told.
fn two_lines(
    alloc: Global,
    text: &[u8],
    first: Option<usize>,
    second: Option<usize>,
    one: &str,
    other: &str,
) -> Result<String, AllocError>
    requires first { IfSome first (λ at. at ≤ length text.now) }
    requires second { IfSome second (λ at. at ≤ length text.now) }
    ensures { IfOk result (λ lines. string_bytes lines ≡ two_lines text.now first second one.now other.now) }
{
    let first = position_text(alloc, text, first)?;
    let second = position_text(alloc, text, second)?;
    format!(in alloc; "{first}{one}{second}{other}")
}

/// The lines of a key that an object has twice.
pub fn doubled_key_lines(
    alloc: Global,
    text: &[u8],
    value: &Value<'_>,
    doubled: &DoubledKey,
) -> Result<String, AllocError>
    requires text { IsTextOf text.now (value_view value.now) }
    requires doubled { HasDoubledKey (value_view value.now) doubled.now }
    ensures { IfOk result (λ lines. IsDoubledKeyTold text.now (value_view value.now) doubled.now (string_bytes lines)) }
{
    let path = doubled.path.as_slice();
    let first = key_offset(alloc, text, value, path, doubled.members.first)?;
    let second = key_offset(alloc, text, value, path, doubled.members.second)?;
    let key = key_of(value, path, doubled.members.first);
    let object = object_text(alloc, value, path)?;
    let one = key_line(alloc, &object, key)?;
    let other = key_again_line(alloc, &object, key)?;
    two_lines(alloc, text, Some(first), Some(second), &one, &other)
}

fn key_line(alloc: Global, object: &str, key: &str) -> Result<String, AllocError>
    ensures { IfOk result (λ line. Begins object.now (string_bytes line)) }
{
    format!(in alloc; "{object} has the key {key}.\n")
}

fn key_again_line(alloc: Global, object: &str, key: &str) -> Result<String, AllocError>
    ensures { IfOk result (λ line. Begins object.now (string_bytes line)) }
{
    format!(in alloc; "{object} has the key {key} again.\nAn object has a key once.\n")
}

/// The offset of the key of a member of the object to which a path leads.
fn key_offset(
    alloc: Global,
    text: &[u8],
    value: &Value<'_>,
    path: &[usize],
    member: usize,
) -> Result<usize, AllocError>
    requires text { IsTextOf text.now (value_view value.now) }
    requires there { member < length (keys_in (part_at path.now (value_view value.now))) }
    ensures { IfOk result (LeadsToKey text.now path.now member) }
{
    match offset_of_key(alloc, text, path, member)? {
        Some(offset) => Ok(offset),
        None => unreachable!(),
    }
}

/// The key of a member of the object to which a path leads.
fn key_of<'t>(value: &Value<'t>, path: &[usize], member: usize) -> &'t str {
    let mut part = Some(value);
    for index in path {
        let Some(whole) = part else {
            return "";
        };
        part = part_after(whole, *index);
    }
    match part {
        Some(Value::Object(members)) => key_at(members.as_slice(), member),
        _ => "",
    }
}

/// The key of a member; an empty one past the end.
fn key_at<'t>(members: &[(&'t str, Value<'t>)], index: usize) -> &'t str
    ensures { result.now ≡ key_at index (members_view members.now) }
{
    match members.get(index) {
        Some(member) => member.0,
        None => "",
    }
}

/// The object to which a path leads, as a JSON pointer. The whole text is said in words.
fn object_text(alloc: Global, value: &Value<'_>, path: &[usize]) -> Result<String, AllocError>
    ensures { IfOk result (λ text. string_bytes text ≡ object_text path.now (value_view value.now)) }
{
    if path.is_empty() {
        return "the whole text".to_string(alloc);
    }
    path_text(alloc, value, path)
}

fn path_text(alloc: Global, value: &Value<'_>, path: &[usize]) -> Result<String, AllocError>
    ensures { IfOk result (λ text. string_bytes text ≡ path_text path.now (Some (value_view value.now))) }
{
    let mut text = String::new(alloc);
    let mut part = Some(value);
    for index in path {
        let Some(value) = part else {
            return Ok(text);
        };
        text.push_str(&part_step(alloc, value, *index)?)?;
        part = part_after(value, *index);
    }
    Ok(text)
}

/// The step to a part of a value: the key of a member, or the index of an item.
fn part_step(alloc: Global, value: &Value<'_>, index: usize) -> Result<String, AllocError>
    ensures { IfOk result (λ step. string_bytes step ≡ part_step index (value_view value.now)) }
{
    match value {
        Value::Object(members) => {
            let key = key_at(members.as_slice(), index);
            format!(in alloc; "/{key}")
        }
        _ => format!(in alloc; "/{index}"),
    }
}

/// The lines of two ranges of a node, of which the second begins before the first has ended.
pub fn overlap_lines(
    alloc: Global,
    text: &[u8],
    value: &Value<'_>,
    overlap: Overlap,
) -> Result<String, AllocError>
    requires text { IsTextOf text.now (value_view value.now) }
    requires overlap { DoOverlap (view value.now) overlap }
    ensures { IfOk result (λ lines. IsOverlapTold text.now overlap (string_bytes lines)) }
{
    let Some(next) = overlap.range.checked_add(1) else {
        // no memory: no list is so long.
        return Err(AllocError);
    };
    let one = range_pointer(overlap.entry, overlap.range);
    let other = range_pointer(overlap.entry, next);
    let first = offset_there(alloc, text, value, &one)?;
    let second = offset_there(alloc, text, value, &other)?;
    let why = overlap_line(alloc, value_at(value, &one), value_at(value, &other))?;
    let one = range_line(alloc, &one)?;
    let other = next_range_line(alloc, &other, &why)?;
    two_lines(alloc, text, Some(first), Some(second), &one, &other)
}

/// Which endpoint IDs two ranges have, and whether they have some in common or stand in the wrong order.
fn overlap_line(
    alloc: Global,
    before: Option<&Value<'_>>,
    after: Option<&Value<'_>>,
) -> Result<String, AllocError> {
    let stands_behind = ends_before(before, after);
    let before = range_words(alloc, before)?;
    let after = range_words(alloc, after)?;
    if stands_behind {
        return format!(in alloc; "Range {after} belongs before {before}.\n");
    }
    format!(in alloc; "Ranges {before} and {after} overlap.\n")
}

/// Whether the second range ends before the first one begins.
fn ends_before(before: Option<&Value<'_>>, after: Option<&Value<'_>>) -> bool {
    match (before, after) {
        (Some(before), Some(after)) => end_of_range(after) <= first_in_range(before),
        _ => false,
    }
}

/// The first endpoint ID of a range and its last one.
fn range_words(alloc: Global, range: Option<&Value<'_>>) -> Result<String, AllocError> {
    match range {
        Some(range) => {
            let first = first_in_range(range);
            let last = end_of_range(range).saturating_sub(1);
            format!(in alloc; "{first}-{last}")
        }
        None => "-".to_string(alloc),
    }
}

fn range_pointer(entry: usize, range: usize) -> [PointerStep; 4]
    ensures { map step_value result ≡ range_pointer entry range }
{
    [
        PointerStep::Key("ranks"),
        PointerStep::Index(entry),
        PointerStep::Key("ranges"),
        PointerStep::Index(range),
    ]
}

fn range_line(alloc: Global, pointer: &[PointerStep]) -> Result<String, AllocError>
    ensures { IfOk result (λ line. Begins (pointer_text (map step_value pointer.now)) (string_bytes line)) }
{
    let pointer = pointer_text(alloc, pointer)?;
    format!(in alloc; "{pointer} is one range.\n")
}

fn next_range_line(alloc: Global, pointer: &[PointerStep], why: &str) -> Result<String, AllocError>
    ensures { IfOk result (λ line. Begins (pointer_text (map step_value pointer.now)) (string_bytes line)) }
{
    let pointer = pointer_text(alloc, pointer)?;
    format!(in alloc; "{pointer} is the next one, and begins before that one has ended.\n{why}")
}
