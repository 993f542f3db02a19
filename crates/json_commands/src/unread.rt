//! What is answered where there is no plan or no certificate, or where nothing has a name.
ghost use Rattle.std.specs.Prelude.{◌≡◌, ◌+◌, IfOk, IsUtf8, map};
ghost use Rattle.json.specs.Value.{value_view};
ghost use Rattle.net_plan.specs.Finding.{step_value};
ghost use Rattle.net_pointers.specs.Offsets.{IsTextOf};
ghost use Rattle.serde_json.specs.View.{view};
ghost use Rattle.json_commands.{specs.Places.{IsPlaceTold}, specs.Unread.{IsItemAlone, IsKeyPlace, IsTextPlace, IsTroublePlace, IsUnknownSaid, IsUnreadPlace, IsUnreadSaid, code_of, entry_pointer, nowhere_data, offset_of, range_pointer}};
ghost use Rattle.command_answers.specs.declared.status.Status.TheVariants as status;

use crate::lists::{empty_list, list_of_one};
use crate::notes::{about, note_value};
use crate::places::{Placing, place_of, spot_of};
use crate::reports::report;
use crate::said::Said;
use command_answers::{Input, Status, Unread, unread_text};
use command_questions::Form;
use json::{Scratch, Value as Tree};
use net_plan::{PointerStep, json_of};
use net_pointers::{
    DoubledKey, JsonFault, NameList, Overlap, TextIndex, TextTrouble, Trouble, list_key, name_key,
    offset_of_key,
};
use reading_texts::unread_code;
use serde_json::Value;
use std::alloc::{AllocError, Global};

/// Two places: where a text has its fault, and a list of where the other is that is involved.
#[derive(Drop)]
struct Places {
    place: Value,
    related: Value,
}

/// What a command answers where a source gave nothing to read for an input. The name is that of its file.
pub fn unread_input(
    alloc: Global,
    form: Form,
    command: &str,
    name: &str,
    input: Input,
    unread: &Unread,
) -> Result<Said, AllocError>
    ensures { IfOk result (λ said. (said.status ≡ status.Unreadable) × IsUnreadSaid form name.now unread.now (view said.value)) }
{
    let words = unread_text(alloc, input, unread)?;
    let places = unread_places(alloc, form, name, unread)?;
    Ok(unread_said(alloc, form, command, code_of(unread), places, &words)?)
}

/// What a command answers where the plan has nothing of a name.
pub fn unknown_name(
    alloc: Global,
    form: Form,
    command: &str,
    name: &str,
) -> Result<Said, AllocError>
    ensures { IfOk result (λ said. (said.status ≡ status.Unreadable) × IsUnknownSaid form name.now (view said.value)) }
{
    let places = nowhere(alloc, form, name)?;
    let words = "unreadable node: J06\n";
    Ok(unread_said(alloc, form, command, "J06", places, words)?)
}

fn unread_said(
    alloc: Global,
    form: Form,
    command: &str,
    code: &'static str,
    places: Places,
    words: &str,
) -> Result<Said, AllocError>
    ensures { IfOk result (λ said. (said.status ≡ status.Unreadable) × IsItemAlone form code.now (view places.place) (view said.value)) }
{
    let subject = about("unreadable", code, None, None);
    let nodes = empty_list(alloc);
    let (place, related) = (places.place, places.related);
    let note = note_value(alloc, form, &subject, nodes, place, related, words)?;
    let results = list_of_one(alloc, note)?;
    Ok(report(alloc, form, command, Status::Unreadable, results)?)
}

/// The code of why a source gave nothing; `file` where it failed.
fn code_of(unread: &Unread) -> &'static str
    ensures { result.now ≡ code_of unread.now }
{
    match unread {
        Unread::NoMemory => "no memory",
        Unread::Failed => "file",
        Unread::TooLong => "J08",
        Unread::Text { fault, .. } => unread_code(fault.trouble.cause()),
    }
}

// ---- places

/// A file, and no place in it.
fn nowhere(alloc: Global, form: Form, name: &str) -> Result<Places, AllocError>
    ensures { IfOk result (λ places. view places.place ≡ nowhere_data form name.now) }
{
    let place = spot_of(alloc, form, name, &[], None)?;
    let related = empty_list(alloc);
    Ok(Places { place, related })
}

/// Where the text of a source has its first fault, if it gave one.
fn unread_places(
    alloc: Global,
    form: Form,
    name: &str,
    unread: &Unread,
) -> Result<Places, AllocError>
    ensures { IfOk result (λ places. IsUnreadPlace form name.now unread.now (view places.place)) }
{
    match unread {
        Unread::Text { text, fault } => {
            Ok(text_places(alloc, form, name, text, &fault.trouble)?)
        }
        Unread::Failed | Unread::TooLong => Ok(nowhere(alloc, form, name)?),
        Unread::NoMemory => Err(AllocError),
    }
}

/// Where in a text its trouble is.
fn text_places(
    alloc: Global,
    form: Form,
    name: &str,
    text: &[u8],
    trouble: &TextTrouble,
) -> Result<Places, AllocError>
    ensures { IfOk result (λ places. IsTextPlace form name.now text.now trouble.now (view places.place)) }
{
    match trouble {
        TextTrouble::TooLong(_) => Ok(nowhere(alloc, form, name)?),
        TextTrouble::NotJson(fault) => {
            let place = spot_of(alloc, form, name, text, Some(offset_of(*fault)))?;
            let related = empty_list(alloc);
            Ok(Places { place, related })
        }
        TextTrouble::Wrong(trouble) => Ok(trouble_places(alloc, form, name, text, trouble)?),
    }
}

/// Where a text stops being JSON.
fn offset_of(fault: JsonFault) -> usize
    ensures { result ≡ offset_of fault }
{
    match fault {
        JsonFault::NotUtf8(offset) | JsonFault::Unreadable(offset, _) => offset,
    }
}

/// Where in a text that is JSON its trouble is.
fn trouble_places(
    alloc: Global,
    form: Form,
    name: &str,
    text: &[u8],
    trouble: &Trouble,
) -> Result<Places, AllocError>
    ensures { IfOk result (λ places. IsTroublePlace form name.now text.now trouble.now (view places.place)) }
{
    match trouble {
        Trouble::Value(found) | Trouble::UnknownName(found) => {
            Ok(pointer_places(alloc, form, name, text, &found.pointer, None)?)
        }
        Trouble::DoubledName(list, twins) => {
            let first = entry_pointer(alloc, *list, twins.first)?;
            let second = entry_pointer(alloc, *list, twins.second)?;
            Ok(pointer_places(alloc, form, name, text, &second, Some(&first))?)
        }
        Trouble::Overlap(overlap) => Ok(overlap_places(alloc, form, name, text, *overlap)?),
        Trouble::DoubledKey(doubled) => Ok(key_places(alloc, form, name, text, doubled)?),
    }
}

/// Where a range of ranks stands that begins before the one before it has ended, and where that one does.
fn overlap_places(
    alloc: Global,
    form: Form,
    name: &str,
    text: &[u8],
    overlap: Overlap,
) -> Result<Places, AllocError>
    ensures { IfOk result (λ places. IsPlaceTold form name.now text.now (range_pointer overlap.entry (overlap.range + 1)) (view places.place)) }
{
    if overlap.range == usize::MAX {
        // no memory: no list is so long.
        return Err(AllocError);
    }
    let first = range_pointer(alloc, overlap.entry, overlap.range)?;
    let second = range_pointer(alloc, overlap.entry, overlap.range + 1)?;
    Ok(pointer_places(alloc, form, name, text, &second, Some(&first))?)
}

/// Where pointers lead.
fn pointer_places(
    alloc: Global,
    form: Form,
    name: &str,
    text: &[u8],
    pointer: &[PointerStep],
    other: Option<&[PointerStep]>,
) -> Result<Places, AllocError>
    ensures { IfOk result (λ places. IsPlaceTold form name.now text.now (map step_value pointer.now) (view places.place)) }
{
    let mut scratch = Scratch::new(alloc);
    match json_of(alloc, text, &mut scratch) {
        Ok(tree) => pointers_in(alloc, form, name, text, &tree, pointer, other),
        // no memory: the text was read before, so `json_of` has no other error.
        Err(_) => Err(AllocError),
    }
}

fn pointers_in(
    alloc: Global,
    form: Form,
    name: &str,
    text: &[u8],
    tree: &Tree<'_>,
    pointer: &[PointerStep],
    other: Option<&[PointerStep]>,
) -> Result<Places, AllocError>
    requires { IsTextOf text.now (value_view tree.now) }
    ensures { IfOk result (λ places. IsPlaceTold form name.now text.now (map step_value pointer.now) (view places.place)) }
{
    let mut scratch = Scratch::new(alloc);
    let index = TextIndex::of(alloc, text, &mut scratch)?;
    let placing = Placing {
        form,
        name,
        index: &index,
        tree,
    };
    let place = place_of(alloc, &placing, pointer)?;
    let related = match other {
        Some(other) => list_of_one(alloc, place_of(alloc, &placing, other)?)?,
        None => empty_list(alloc),
    };
    Ok(Places { place, related })
}

/// Where a key stands that an object has twice: again, and first.
fn key_places(
    alloc: Global,
    form: Form,
    name: &str,
    text: &[u8],
    doubled: &DoubledKey,
) -> Result<Places, AllocError>
    ensures { IfOk result (λ places. IsKeyPlace form name.now text.now doubled.now (view places.place)) }
{
    let mut scratch = Scratch::new(alloc);
    match json_of(alloc, text, &mut scratch) {
        Ok(_tree) => keys_in(alloc, form, name, text, doubled),
        // no memory: the text was read before, so `json_of` has no other error.
        Err(_) => Err(AllocError),
    }
}

fn keys_in(
    alloc: Global,
    form: Form,
    name: &str,
    text: &[u8],
    doubled: &DoubledKey,
) -> Result<Places, AllocError>
    requires { IsUtf8 text.now }
    ensures { IfOk result (λ places. IsKeyPlace form name.now text.now doubled.now (view places.place)) }
{
    let first = offset_of_key(alloc, text, &doubled.path, doubled.members.first)?;
    let second = offset_of_key(alloc, text, &doubled.path, doubled.members.second)?;
    match (first, second) {
        (Some(first), Some(second)) => {
            let place = spot_of(alloc, form, name, text, Some(second))?;
            let related = list_of_one(alloc, spot_of(alloc, form, name, text, Some(first))?)?;
            Ok(Places { place, related })
        }
        // no memory: both keys were found before, so this can't be.
        _ => Err(AllocError),
    }
}

/// The pointer to the name of an entry of a list.
fn entry_pointer(
    alloc: Global,
    list: NameList,
    entry: usize,
) -> Result<Vec<PointerStep>, AllocError>
    ensures { IfOk result (λ pointer. map step_value pointer.items ≡ entry_pointer list entry) }
{
    [
        PointerStep::Key(list_key(list)),
        PointerStep::Index(entry),
        PointerStep::Key(name_key(list)),
    ]
    .to_vec(alloc)
}

/// The pointer to a range of ranks.
fn range_pointer(alloc: Global, entry: usize, range: usize) -> Result<Vec<PointerStep>, AllocError>
    ensures { IfOk result (λ pointer. map step_value pointer.items ≡ range_pointer entry range) }
{
    [
        PointerStep::Key("ranks"),
        PointerStep::Index(entry),
        PointerStep::Key("ranges"),
        PointerStep::Index(range),
    ]
    .to_vec(alloc)
}
