//! Routing table entries that were read, beside those of the plan.
ghost use Rattle.std.{specs.Prelude.{◌≡◌, ◌++◌, ◌∷◌, [], ◌==◌, ◌&&◌, not, false, codes, IfOk, OnOk, map, find, option_map, string_bytes, nat_eq}, specs.Cmp.Lexicographic.{pointwise}};
ghost use Rattle.mctp_control.specs.RouteEntries.{entry_value};
ghost use Rattle.audited_captures.{specs.Failures.{failures_in, failed_lines}, specs.Lines.{line_value}, specs.Readings.{Read, part_value, readings}, specs.Turns.{entry_values}, specs.Routes.{same_range, has_range, range_words, unlike_number, address_words, unlike_address, unlike, line_if_unlike, line_beside, planned_lines, lines_if_extra, extra_lines, unlike_lines, reading_lines, begun_lines, readings_lines, routes_lines, incomplete_line, unlike_line}};

use crate::failures::{failed_lines, failures_in};
use crate::lines::{Line, add_difference, differences_or};
use crate::places::from_place;
use crate::readings::{Part, Reading, read_from_0};
use mctp_control::RouteEntry;
use std::alloc::{AllocError, Global};

/// What is told of a node's routing table, which its parts tell, beside the planned entries.
pub fn routes_lines(
    alloc: Global,
    name: &str,
    planned: &[RouteEntry],
    parts: &[Part],
) -> Result<Vec<Line>, AllocError>
    ensures { IfOk result (λ lines. map line_value lines.items ≡ routes_lines name.now (map entry_value planned.now) (map part_value parts.now)) }
{
    let mut lines = readings_lines(alloc, name, planned, parts)?;
    let mut failed = failed_routes(alloc, name, parts)?;
    lines.append(&mut failed)?;
    Ok(lines)
}

/// What is told of the answers about a node's routing table that fail.
fn failed_routes(alloc: Global, name: &str, parts: &[Part]) -> Result<Vec<Line>, AllocError>
    ensures { IfOk result (λ lines. map line_value lines.items ≡ failed_lines false (name.now ++ codes " routes") (failures_in (map part_value parts.now))) }
{
    let failures = failures_in(alloc, parts)?;
    let words = routes_words(alloc, name)?;
    failed_lines(alloc, false, &words, &failures)
}

fn routes_words(alloc: Global, name: &str) -> Result<String, AllocError>
    ensures { IfOk result (λ words. string_bytes words ≡ name.now ++ codes " routes") }
{
    format!(in alloc; "{name} routes")
}

/// What is told of the readings that a node's parts make, laid beside the planned entries.
fn readings_lines(
    alloc: Global,
    name: &str,
    planned: &[RouteEntry],
    parts: &[Part],
) -> Result<Vec<Line>, AllocError>
    ensures { IfOk result (λ lines. map line_value lines.items ≡ readings_lines name.now (map entry_value planned.now) (readings (map part_value parts.now))) }
{
    let mut lines = Vec::new(alloc);
    for i in 0..parts.len() {
        let mut more = begun_lines(alloc, name, planned, from_place(parts, i))?;
        lines.append(&mut more)?;
    }
    Ok(lines)
}

/// What is told of the reading that the first of these parts begins, if it begins one.
fn begun_lines(
    alloc: Global,
    name: &str,
    planned: &[RouteEntry],
    parts: &[Part],
) -> Result<Vec<Line>, AllocError>
    ensures { IfOk result (λ lines. map line_value lines.items ≡ begun_lines name.now (map entry_value planned.now) (map part_value parts.now)) }
{
    let Some(first) = parts.first() else {
        return Ok(Vec::new(alloc));
    };
    if first.handle != 0 {
        return Ok(Vec::new(alloc));
    }
    match read_from_0(alloc, first.requester, parts)? {
        Reading::Read(found) => reading_lines(alloc, name, planned, &found),
        Reading::Refused => Ok(Vec::new(alloc)),
        Reading::Unended => incomplete_lines(alloc, name),
    }
}

fn incomplete_lines(alloc: Global, name: &str) -> Result<Vec<Line>, AllocError>
    ensures { IfOk result (λ lines. map line_value lines.items ≡ incomplete_line name.now ∷ []) }
{
    let mut lines = Vec::new(alloc);
    let text = format!(in alloc; "{name} routes incomplete")?;
    add_difference(&mut lines, text)?;
    Ok(lines)
}

/// What is told of a reading that came to its end.
fn reading_lines(
    alloc: Global,
    name: &str,
    planned: &[RouteEntry],
    found: &[&RouteEntry],
) -> Result<Vec<Line>, AllocError>
    ensures { IfOk result (λ lines. map line_value lines.items ≡ reading_lines name.now (map entry_value planned.now) (Read (entry_values found.now))) }
{
    let count = found.len();
    let lines = unlike_lines(alloc, name, planned, found)?;
    let text = format!(in alloc; "{name} routes match {count}")?;
    differences_or(text, lines)
}

fn unlike_lines(
    alloc: Global,
    name: &str,
    planned: &[RouteEntry],
    found: &[&RouteEntry],
) -> Result<Vec<Line>, AllocError>
    ensures { IfOk result (λ lines. map line_value lines.items ≡ unlike_lines name.now (map entry_value planned.now) (entry_values found.now)) }
{
    let mut lines = Vec::new(alloc);
    for entry in planned {
        add_planned(alloc, &mut lines, name, entry, found)?;
    }
    let mut extra = extra_lines(alloc, name, planned, found)?;
    lines.append(&mut extra)?;
    Ok(lines)
}

/// Adds what is told of a planned entry.
fn add_planned(
    alloc: Global,
    lines: &mut Vec<Line>,
    name: &str,
    planned: &RouteEntry,
    found: &[&RouteEntry],
) -> Result<(), AllocError>
    ensures { OnOk result (map line_value lines.new.items ≡ map line_value lines.old.items ++ planned_lines name.now (entry_values found.now) (entry_value planned.now)) }
{
    match find_range(found, planned) {
        Some(entry) => add_unlike(alloc, lines, name, planned, entry),
        None => {
            let words = range_words(alloc, planned)?;
            let text = format!(in alloc; "{name} routes missing {words}")?;
            add_difference(lines, text)
        }
    }
}

/// The first entry for the endpoint IDs of a planned one.
fn find_range<'w>(found: &[&'w RouteEntry], planned: &RouteEntry) -> Option<&'w RouteEntry>
    ensures { option_map (λ e. entry_value e.now) result ≡ find (same_range (entry_value planned.now)) (entry_values found.now) }
{
    for entry in found {
        if same_range(planned, entry) {
            return Some(entry);
        }
    }
    None
}

fn same_range(entry: &RouteEntry, other: &RouteEntry) -> bool
    ensures { result ≡ same_range (entry_value entry.now) (entry_value other.now) }
{
    entry.first.value == other.first.value && entry.size == other.size
}

/// Adds a line where an entry that was found is another than the planned one.
fn add_unlike(
    alloc: Global,
    lines: &mut Vec<Line>,
    name: &str,
    planned: &RouteEntry,
    found: &RouteEntry,
) -> Result<(), AllocError>
    ensures { OnOk result (map line_value lines.new.items ≡ map line_value lines.old.items ++ line_if_unlike name.now (entry_value planned.now) (unlike (entry_value planned.now) (entry_value found.now))) }
{
    match unlike(alloc, planned, found)? {
        Some(words) => add_difference(lines, unlike_text(alloc, name, planned, &words)?),
        None => Ok(()),
    }
}

fn unlike_text(
    alloc: Global,
    name: &str,
    planned: &RouteEntry,
    words: &str,
) -> Result<String, AllocError>
    ensures { IfOk result (λ text. string_bytes text ≡ (unlike_line name.now (entry_value planned.now) words.now).text) }
{
    let range = range_words(alloc, planned)?;
    format!(in alloc; "{name} routes differs {range} {words}")
}

/// The entries that are extra: the plan has none for their endpoint IDs, or one more for these follows.
fn extra_lines(
    alloc: Global,
    name: &str,
    planned: &[RouteEntry],
    found: &[&RouteEntry],
) -> Result<Vec<Line>, AllocError>
    ensures { IfOk result (λ lines. map line_value lines.items ≡ extra_lines name.now (map entry_value planned.now) (entry_values found.now)) }
{
    let mut lines = Vec::new(alloc);
    for i in 0..found.len() {
        let later = from_place(found, i + 1);
        add_extra(alloc, &mut lines, name, planned, found[i], later)?;
    }
    Ok(lines)
}

/// Adds a line where an entry is extra.
fn add_extra(
    alloc: Global,
    lines: &mut Vec<Line>,
    name: &str,
    planned: &[RouteEntry],
    entry: &RouteEntry,
    later: &[&RouteEntry],
) -> Result<(), AllocError>
    ensures { OnOk result (map line_value lines.new.items ≡ map line_value lines.old.items ++ lines_if_extra name.now (map entry_value planned.now) (entry_value entry.now) (entry_values later.now)) }
{
    if is_planned(planned, entry) && !is_repeated(later, entry) {
        return Ok(());
    }
    let words = range_words(alloc, entry)?;
    let text = format!(in alloc; "{name} routes extra {words}")?;
    add_difference(lines, text)
}

fn is_planned(planned: &[RouteEntry], entry: &RouteEntry) -> bool
    ensures { result ≡ has_range (map entry_value planned.now) (entry_value entry.now) }
{
    for one in planned {
        if same_range(entry, one) {
            return true;
        }
    }
    false
}

fn is_repeated(later: &[&RouteEntry], entry: &RouteEntry) -> bool
    ensures { result ≡ has_range (entry_values later.now) (entry_value entry.now) }
{
    for one in later {
        if same_range(entry, one) {
            return true;
        }
    }
    false
}

fn range_words(alloc: Global, entry: &RouteEntry) -> Result<String, AllocError>
    ensures { IfOk result (λ words. string_bytes words ≡ range_words (entry_value entry.now)) }
{
    let first = entry.first.value;
    let size = entry.size;
    format!(in alloc; "{first} size {size}")
}

/// The first thing in which an entry that was found is another than the planned one, in words.
fn unlike(
    alloc: Global,
    planned: &RouteEntry,
    found: &RouteEntry,
) -> Result<Option<String>, AllocError>
    ensures { IfOk result (λ words. option_map string_bytes words ≡ unlike (entry_value planned.now) (entry_value found.now)) }
{
    if planned.kind as u8 != found.kind as u8 {
        return unlike_number(alloc, "type", planned.kind as u8, found.kind as u8);
    }
    if planned.port.value != found.port.value {
        return unlike_number(alloc, "port", planned.port.value, found.port.value);
    }
    if planned.binding != found.binding {
        return unlike_number(alloc, "binding", planned.binding, found.binding);
    }
    if planned.media != found.media {
        return unlike_number(alloc, "media", planned.media, found.media);
    }
    unlike_address(alloc, planned.address.as_slice(), found.address.as_slice())
}

fn unlike_number(
    alloc: Global,
    name: &str,
    planned: u8,
    found: u8,
) -> Result<Option<String>, AllocError>
    ensures { IfOk result (λ words. option_map string_bytes words ≡ unlike_number name.now planned found) }
{
    if planned == found {
        return Ok(None);
    }
    let words = format!(in alloc; "{name} {planned} found {name} {found}")?;
    Ok(Some(words))
}

fn unlike_address(alloc: Global, planned: &[u8], found: &[u8]) -> Result<Option<String>, AllocError>
    ensures { IfOk result (λ words. option_map string_bytes words ≡ unlike_address planned.now found.now) }
{
    if same_bytes(planned, found) {
        return Ok(None);
    }
    let planned = address_words(alloc, planned)?;
    let found = address_words(alloc, found)?;
    let words = format!(in alloc; "address {planned} found address {found}")?;
    Ok(Some(words))
}

/// An address in hex, or a dash where it is empty.
fn address_words(alloc: Global, address: &[u8]) -> Result<String, AllocError>
    ensures { IfOk result (λ words. string_bytes words ≡ address_words address.now) }
{
    if address.is_empty() {
        return String::from_str(alloc, "-");
    }
    hex::encode(alloc, address)
}

fn same_bytes(bytes: &[u8], others: &[u8]) -> bool
    ensures { result ≡ pointwise nat_eq bytes.now others.now }
{
    bytes == others
}
