//! A name that is that of nothing: where it stands, and the nearest name that exists.
ghost use Rattle.std.specs.Prelude.{◌≡◌, [], true, is_some, map, get_or, IfOk, string_bytes};
ghost use Rattle.net_plan.{specs.Finding.{located, names_of}, specs.Grammar.{grammar, known_view}, specs.Trees.{view}};
ghost use Rattle.json.specs.Value.{value_view};
ghost use Rattle.net_pointers.{specs.Offsets.{IsTextOf}, specs.Pointers.{value_at}};
ghost use Rattle.reading_texts.{specs.ReadingLines.{Begins}, specs.TroubleLines.{IsUnknownNameTold, named_there, nearest_line}};

use crate::joined::joined;
use crate::positions::place_text;
use crate::values::{offset_there, text_of, value_at};
use json::Value;
use net_plan::{Found, KnownNames, Named, Shape, Word, names_of};
use net_pointers::{first_doubled, nearest_name};
use std::alloc::{AllocError, Global};

/// The lines of a name that is none of those that are known.
pub fn unknown_name_lines(
    alloc: Global,
    text: &[u8],
    value: &Value<'_>,
    known: &KnownNames<'_>,
    found: &Found,
) -> Result<String, AllocError>
    requires text { IsTextOf text.now (value_view value.now) }
    requires leads { is_some (value_at (located found.now).pointer (view value.now)) ≡ true }
    ensures { IfOk result (λ lines. IsUnknownNameTold text.now (view value.now) (known_view known.now) (located found.now) (string_bytes lines)) }
{
    let offset = offset_there(alloc, text, value, found.pointer.as_slice())?;
    let name = text_of(value_at(value, found.pointer.as_slice()));
    let named = named_there(found.shape);
    let names = names_of(known, named);
    let nearest = nearest_name(alloc, name, names)?;
    let nearest = nearest_line(alloc, names, nearest)?;
    let twins = twins_line(alloc, names, named)?;
    let place = place_text(alloc, text, offset, found.pointer.as_slice())?;
    let line = unknown_line(alloc, &place, name, named)?;
    format!(in alloc; "{line}{nearest}{twins}")
}

/// The line that tells that two nodes have one name, so that a name which one of them had is that of none.
fn twins_line(alloc: Global, names: &[&str], named: Named) -> Result<String, AllocError> {
    let twins = match named {
        Named::Buses => None,
        Named::Nodes => first_doubled(alloc, names)?,
    };
    match twins {
        Some(twins) => {
            let (first, second) = (twins.first, twins.second);
            let name = name_at(names, second);
            format!(in alloc;
                "Nodes {first} and {second}, counted from 0, are both named {name}.\n"
            )
        }
        None => Ok(String::new(alloc)),
    }
}

fn unknown_line(alloc: Global, place: &str, name: &str, named: Named) -> Result<String, AllocError>
    ensures { IfOk result (λ line. Begins place.now (string_bytes line)) }
{
    let is = format!(in alloc; "is {name}")?;
    let missing = match named {
        Named::Buses => "no bus has that name",
        Named::Nodes => "no node has that name",
    };
    joined(alloc, place, &is, missing)
}

/// The line of the nearest name.
fn nearest_line(alloc: Global, names: &[&str], nearest: Option<usize>) -> Result<String, AllocError>
    ensures { IfOk result (λ line. string_bytes line ≡ nearest_line (map (λ name. name.now) names.now) nearest) }
{
    match nearest {
        Some(index) => {
            let name = name_at(names, index);
            format!(in alloc; "The nearest name is {name}.\n")
        }
        None => "No name is close to it.\n".to_string(alloc),
    }
}

/// The name at an index of a list; an empty one past its end.
fn name_at<'n>(names: &[&'n str], index: usize) -> &'n str
    ensures { result.now ≡ get_or (map (λ name. name.now) names.now) index [] }
{
    match names.get(index) {
        Some(name) => name,
        None => "",
    }
}

/// Whose name may stand there.
fn named_there(shape: &Shape) -> Named
    ensures { result ≡ named_there (grammar shape.now) }
{
    match shape {
        Shape::Plain(Word::Named(names)) => *names,
        _ => Named::Nodes,
    }
}
