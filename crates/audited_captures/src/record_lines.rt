//! What is told of a terminus' records, by the verdicts on its answers.
ghost use Rattle.std.{specs.Prelude.{◌≡◌, ◌==◌, ◌||◌, ◌≤◌, not, IfOk, OnOk, length, map}, specs.List.{list_any}};
ghost use Rattle.pdr_repository.specs.Records.{entries};
ghost use Rattle.audited_captures.{specs.Lines.{line_value}, specs.RecordLines.{is_fault, is_judged, reads_end, differs_at, is_read, is_unread, one_if, fault_count, told_differences, unread_count, missing_count, AddsDifferences, IsRemarked, AreRecordLines}, specs.RecordParts.{record_part_value}, specs.RecordReadings.{begins_walk}};

use crate::lines::{Finding, Line, add_difference, differences_or};
use crate::record_faults::RecordFault;
use crate::record_parts::RecordPart;
use crate::record_readings::Verdict;
use std::alloc::{AllocError, Global};

/// The lines of the records of a node of this name, which are planned by place: a line for each answer that differs,
/// where a walk began one for each record that wasn't read to its end, and where there are none, that they match. Behind
/// them stands a remark where records were read several times.
pub fn record_lines(
    alloc: Global,
    name: &str,
    records: &[(u32, Vec<u8>)],
    parts: &[RecordPart],
    verdicts: &[Verdict],
) -> Result<Vec<Line>, AllocError>
    ensures { IfOk result (λ lines. AreRecordLines (entries records.now) (map record_part_value parts.now) verdicts.now (map line_value lines.items)) }
{
    let mut lines = Vec::new(alloc);
    if !is_some_judged(verdicts) {
        return Ok(lines);
    }
    add_differences(alloc, &mut lines, name, records, parts, verdicts)?;
    let text = match_text(alloc, name, records, verdicts)?;
    let mut all = differences_or(text, lines)?;
    add_remark(alloc, &mut all, name, records, verdicts)?;
    Ok(all)
}

/// Adds the lines of answers that differ, and where a walk began, of records that weren't read to their end.
fn add_differences(
    alloc: Global,
    lines: &mut Vec<Line>,
    name: &str,
    records: &[(u32, Vec<u8>)],
    parts: &[RecordPart],
    verdicts: &[Verdict],
) -> Result<(), AllocError>
    ensures { OnOk result (AddsDifferences (map line_value lines.old.items) (map line_value lines.new.items) (told_differences (entries records.now) (map record_part_value parts.now) verdicts.now)) }
{
    add_faults(alloc, lines, name, records, verdicts)?;
    if !is_walk_begun(parts) {
        return Ok(());
    }
    add_unread(alloc, lines, name, records, verdicts)
}

fn is_some_judged(verdicts: &[Verdict]) -> bool
    ensures { result ≡ list_any is_judged verdicts.now }
{
    for verdict in verdicts {
        if is_judged(verdict) {
            return true;
        }
    }
    false
}

fn is_judged(verdict: &Verdict) -> bool
    ensures { result ≡ is_judged verdict.now }
{
    match verdict {
        Verdict::Unknown => false,
        Verdict::Refused | Verdict::Reads { .. } => true,
        Verdict::Extra { .. } | Verdict::Differs { .. } => true,
    }
}

/// Whether a walk through all records begins: the first part of the first record is asked for.
fn is_walk_begun(parts: &[RecordPart]) -> bool
    ensures { result ≡ list_any begins_walk (map record_part_value parts.now) }
{
    for part in parts {
        if begins_walk(part) {
            return true;
        }
    }
    false
}

fn begins_walk(part: &RecordPart) -> bool
    ensures { result ≡ begins_walk (record_part_value part.now) }
{
    part.request.record_handle == 0 && part.request.operation.value == 1
}

/// Adds a line for each answer that differs.
fn add_faults(
    alloc: Global,
    lines: &mut Vec<Line>,
    name: &str,
    records: &[(u32, Vec<u8>)],
    verdicts: &[Verdict],
) -> Result<(), AllocError>
    ensures { OnOk result (AddsDifferences (map line_value lines.old.items) (map line_value lines.new.items) (fault_count verdicts.now)) }
{
    for verdict in verdicts {
        add_fault(alloc, lines, name, records, verdict)?;
    }
    Ok(())
}

fn add_fault(
    alloc: Global,
    lines: &mut Vec<Line>,
    name: &str,
    records: &[(u32, Vec<u8>)],
    verdict: &Verdict,
) -> Result<(), AllocError>
    ensures { OnOk result (AddsDifferences (map line_value lines.old.items) (map line_value lines.new.items) (one_if (is_fault verdict.now))) }
{
    match verdict {
        Verdict::Unknown | Verdict::Refused | Verdict::Reads { .. } => Ok(()),
        Verdict::Extra { handle } => {
            let text = format!(in alloc; "{name} record {handle} extra")?;
            add_difference(lines, text)
        }
        Verdict::Differs { place, fault } => {
            let words = fault_words(alloc, *fault)?;
            let handle = handle_at(records, *place);
            let text = format!(in alloc; "{name} record {handle} {words}")?;
            add_difference(lines, text)
        }
    }
}

/// The handle of the record at a place, 0 past the end.
fn handle_at(records: &[(u32, Vec<u8>)], place: usize) -> u32 {
    match records.get(place) {
        Some(record) => record.0,
        None => 0,
    }
}

fn fault_words(alloc: Global, fault: RecordFault) -> Result<String, AllocError> {
    match fault {
        RecordFault::Unreadable => String::from_str(alloc, "unreadable"),
        RecordFault::Failed(code) => {
            let code = hex_of(alloc, code)?;
            format!(in alloc; "failed {code}")
        }
        RecordFault::Size { found, asked } => {
            format!(in alloc; "part of {found} bytes, asked for {asked}")
        }
        RecordFault::Byte(byte) => format!(in alloc; "differs byte {byte}"),
        RecordFault::Next { found, planned } => {
            format!(in alloc; "next {found} planned {planned}")
        }
        RecordFault::Flag { found, planned } => {
            format!(in alloc; "flag {found} planned {planned}")
        }
        RecordFault::Check { found, planned } => {
            let found = hex_of(alloc, found)?;
            let planned = hex_of(alloc, planned)?;
            format!(in alloc; "check byte {found} planned {planned}")
        }
    }
}

fn hex_of(alloc: Global, byte: u8) -> Result<String, AllocError> {
    hex::encode(alloc, [byte].as_slice())
}

/// Adds a line for each record that wasn't read to its end, and in which nothing differs.
fn add_unread(
    alloc: Global,
    lines: &mut Vec<Line>,
    name: &str,
    records: &[(u32, Vec<u8>)],
    verdicts: &[Verdict],
) -> Result<(), AllocError>
    ensures { OnOk result (AddsDifferences (map line_value lines.old.items) (map line_value lines.new.items) (unread_count verdicts.now (length (entries records.now)))) }
{
    for place in 0..records.len() {
        add_unread_at(alloc, lines, name, records, verdicts, place)?;
    }
    Ok(())
}

fn add_unread_at(
    alloc: Global,
    lines: &mut Vec<Line>,
    name: &str,
    records: &[(u32, Vec<u8>)],
    verdicts: &[Verdict],
    place: usize,
) -> Result<(), AllocError>
    ensures { OnOk result (AddsDifferences (map line_value lines.old.items) (map line_value lines.new.items) (one_if (is_unread verdicts.now place))) }
{
    if !is_unread(verdicts, place) {
        return Ok(());
    }
    let handle = handle_at(records, place);
    let how = if is_begun(verdicts, place) {
        "open"
    } else {
        "missing"
    };
    let text = format!(in alloc; "{name} record {handle} {how}")?;
    add_difference(lines, text)
}

/// Whether the record at a place wasn't read to its end, and nothing in it differs.
fn is_unread(verdicts: &[Verdict], place: usize) -> bool
    ensures { result ≡ is_unread verdicts.now place }
{
    !(is_read(verdicts, place) || has_fault(verdicts, place))
}

/// Whether the record at a place was read to its end, as planned.
fn is_read(verdicts: &[Verdict], place: usize) -> bool
    ensures { result ≡ is_read verdicts.now place }
{
    for verdict in verdicts {
        if reads_end(verdict, place) {
            return true;
        }
    }
    false
}

fn reads_end(verdict: &Verdict, place: usize) -> bool
    ensures { result ≡ reads_end place verdict.now }
{
    match verdict {
        Verdict::Reads { place: at, is_end } => *is_end && *at == place,
        Verdict::Unknown | Verdict::Refused => false,
        Verdict::Extra { .. } | Verdict::Differs { .. } => false,
    }
}

/// Whether something that was told of the record at a place differs.
fn has_fault(verdicts: &[Verdict], place: usize) -> bool
    ensures { result ≡ list_any (differs_at place) verdicts.now }
{
    for verdict in verdicts {
        if differs_at(verdict, place) {
            return true;
        }
    }
    false
}

fn differs_at(verdict: &Verdict, place: usize) -> bool
    ensures { result ≡ differs_at place verdict.now }
{
    match verdict {
        Verdict::Differs { place: at, .. } => *at == place,
        Verdict::Unknown | Verdict::Refused => false,
        Verdict::Extra { .. } | Verdict::Reads { .. } => false,
    }
}

/// Whether some of the record at a place was read, as planned.
fn is_begun(verdicts: &[Verdict], place: usize) -> bool {
    for verdict in verdicts {
        match verdict {
            Verdict::Reads { place: at, .. } => {
                if *at == place {
                    return true;
                }
            }
            Verdict::Unknown | Verdict::Refused => {}
            Verdict::Extra { .. } | Verdict::Differs { .. } => {}
        }
    }
    false
}

/// How many of the first records weren't read to their end.
pub fn missing_count(verdicts: &[Verdict], count: usize) -> usize
    ensures is { result ≡ missing_count verdicts.now count }
    ensures most { result ≤ count }
{
    let mut missing = 0;
    for place in 0..count {
        if !is_read(verdicts, place) {
            missing += 1;
        }
    }
    missing
}

fn match_text(
    alloc: Global,
    name: &str,
    records: &[(u32, Vec<u8>)],
    verdicts: &[Verdict],
) -> Result<String, AllocError> {
    let planned = records.len();
    let read = planned - missing_count(verdicts, planned);
    if read == planned {
        return format!(in alloc; "{name} records match {planned}");
    }
    format!(in alloc; "{name} records match {read} of {planned}")
}

/// Adds a remark where records were read to their end several times.
fn add_remark(
    alloc: Global,
    lines: &mut Vec<Line>,
    name: &str,
    records: &[(u32, Vec<u8>)],
    verdicts: &[Verdict],
) -> Result<(), AllocError>
    ensures { OnOk result (IsRemarked (map line_value lines.old.items) (map line_value lines.new.items)) }
{
    let read = records.len() - missing_count(verdicts, records.len());
    let again = end_count(verdicts).saturating_sub(read);
    if again > 0 {
        let text = format!(in alloc; "{name} records read again {again}")?;
        lines.push(Line {
            text,
            finding: Finding::Silent,
        })?;
    }
    Ok(())
}

/// How many answers end a record, as planned.
fn end_count(verdicts: &[Verdict]) -> usize {
    let mut count = 0_usize;
    for verdict in verdicts {
        match verdict {
            Verdict::Reads { is_end, .. } => count = count.saturating_add(usize::from(*is_end)),
            Verdict::Unknown | Verdict::Refused => {}
            Verdict::Extra { .. } | Verdict::Differs { .. } => {}
        }
    }
    count
}
