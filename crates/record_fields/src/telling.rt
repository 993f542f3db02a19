//! What is told of a record: a line for each field.
ghost use Rattle.std.specs.Prelude.{◌≡◌, IfOk, Some, map, slice_get, string_bytes};
ghost use Rattle.record_fields.{specs.declared.held.NamedField.{NamedField}, specs.Meanings.{named_of}, specs.Named.{named_fields}, specs.Texts.{AreFieldLines, IsFieldLine}};
ghost use Rattle.pdr_record.specs.RecordValues.{record_value};

use crate::fields::named_fields;
use crate::held::NamedField;
use crate::notes::note_of;
use crate::text::field_text;
use pdr_record::Record;
use std::alloc::{AllocError, Global};

/// A line for each field of a record: its name, what it holds, and for some the standard's word for that (DSP0248 and
/// DSP0249).
pub fn description(alloc: Global, whole: &Record) -> Result<String, AllocError>
    ensures { IfOk result (λ text. AreFieldLines (named_fields (record_value whole.now)) (string_bytes text)) }
{
    let fields = named_fields(alloc, whole)?;
    field_lines(alloc, &fields)
}

fn field_lines(alloc: Global, fields: &[NamedField]) -> Result<String, AllocError>
    ensures { IfOk result (λ text. AreFieldLines (map named_of fields.now) (string_bytes text)) }
{
    let mut text = String::new(alloc);
    for index in 0..fields.len() {
        text.push_str(&line_at(alloc, fields, index)?)?;
    }
    Ok(text)
}

/// The line of the field at an index, if there is one.
fn line_at(alloc: Global, fields: &[NamedField], index: usize) -> Result<String, AllocError>
    ensures { IfOk result (λ line. (field : NamedField) → slice_get fields.now index ≡ Some field → IsFieldLine (named_of field) (string_bytes line)) }
{
    match fields.get(index) {
        Some(field) => field_line(alloc, field),
        None => Ok(String::new(alloc)),
    }
}

fn field_line(alloc: Global, field: &NamedField) -> Result<String, AllocError>
    ensures { IfOk result (λ line. IsFieldLine (named_of field.now) (string_bytes line)) }
{
    let told = field_text(alloc, " ", field)?;
    let note = note_of(alloc, field)?;
    if note.is_empty() {
        return format!(in alloc; "{told}\n");
    }
    format!(in alloc; "{told} {note}\n")
}
