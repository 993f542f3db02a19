//! The C source of a node's tables, for firmware.
ghost use Rattle.std.{specs.Prelude.{◌≡◌, ◌+◌, ◌++◌, IfOk, map, option_map, string_bytes, unwrap_or}, specs.List.{flat_map}};
ghost use Rattle.net_tables.{specs.Routing.{eid_of, rows_of}, specs.Tables.{AreRows}};
ghost use Rattle.pdr_repository.specs.Records.{entries, entry_of};
ghost use Rattle.plan_exports.{specs.CSources.{IsCSource, address_list, byte_text, bytes_from, bytes_text, c_text, eid_text, head_of_types, head_text, named_text, numbers_text, pool_first, pool_size, pool_text, record_line, record_lines, records_of_lines, records_text, repository_text, row_line, row_lines, row_of_words, rows_of_lines, rows_text, terminus_facts, terminus_text, tid_text, types_text, unit_text}, specs.PlannedRows.{row_facts}};

use crate::identifiers::identifier;
use crate::rows::{PlannedRow, planned_rows};
use crate::words::hex_list;
use net_tables::lookup::{eid_at, node_name, pool_at};
use plan_values::{Plan, Pool};
use std::alloc::{AllocError, Global};

/// The terminus of a node.
#[derive(Clone, Copy, Debug)]
pub struct CTerminus<'a> {
    /// The terminus ID (DSP0240).
    pub tid: u8,
    /// The records by place: their handles and their bytes.
    pub records: &'a [(u32, Vec<u8>)],
}

/// A record's handle and its bytes.
type Record = (u32, Vec<u8>);

/// The C99 source of a node whose rows are lawful: its endpoint ID, its pool, its rows, and its terminus, if it has
/// one.
pub fn c_source(
    alloc: Global,
    plan: &Plan,
    node: usize,
    terminus: Option<CTerminus>,
) -> Result<String, AllocError>
    requires { AreRows (rows_of plan.now node) }
    ensures { IfOk result (λ text. IsCSource plan.now node (option_map terminus_facts terminus.entry) (string_bytes text)) }
{
    let rows = planned_rows(alloc, plan, node)?;
    let text = source_text(alloc, plan, node, &rows, terminus)?;
    Ok(text)
}

/// The source of a node, with these rows.
fn source_text(
    alloc: Global,
    plan: &Plan,
    node: usize,
    rows: &[PlannedRow],
    terminus: Option<CTerminus>,
) -> Result<String, AllocError>
    ensures { IfOk result (λ text. string_bytes text ≡ c_text plan.now node (map row_facts rows.now) (option_map terminus_facts terminus.entry)) }
{
    let id = identifier(alloc, node_name(plan, node))?;
    named_source(alloc, plan, node, &id, rows, terminus)
}

/// The source of a node, of which each name begins so.
fn named_source(
    alloc: Global,
    plan: &Plan,
    node: usize,
    id: &str,
    rows: &[PlannedRow],
    terminus: Option<CTerminus>,
) -> Result<String, AllocError>
    ensures { IfOk result (λ text. string_bytes text ≡ named_text plan.now node id.now (map row_facts rows.now) (option_map terminus_facts terminus.entry)) }
{
    let head = head_text(alloc, node_name(plan, node))?;
    let unit = unit_text(alloc, id, plan.unit)?;
    let eid = eid_text(alloc, id, eid_of(plan, node))?;
    let pool = pool_of_node(alloc, id, pool_at(plan, node))?;
    let rows = rows_text(alloc, plan, id, rows)?;
    let terminus = terminus_text(alloc, id, terminus)?;
    six_texts(alloc, &head, &unit, &eid, &pool, &rows, &terminus)
}

/// The endpoint ID of a node, 0 where there is no such node.
fn eid_of(plan: &Plan, node: usize) -> u8
    ensures { result ≡ unwrap_or (eid_of plan.now node) 0 }
{
    eid_at(plan, node).map_or(0, |eid| eid.value)
}

fn six_texts(
    alloc: Global,
    a: &str,
    b: &str,
    c: &str,
    d: &str,
    e: &str,
    f: &str,
) -> Result<String, AllocError>
    ensures { IfOk result (λ text. string_bytes text ≡ a.now ++ (b.now ++ (c.now ++ (d.now ++ (e.now ++ f.now))))) }
{
    format!(in alloc; "{a}{b}{c}{d}{e}{f}")
}

fn head_text(alloc: Global, name: &str) -> Result<String, AllocError>
    ensures { IfOk result (λ text. string_bytes text ≡ head_text name.now) }
{
    head_of_types(alloc, name, types_text())
}

fn head_of_types(alloc: Global, name: &str, types: &str) -> Result<String, AllocError>
    ensures { IfOk result (λ text. string_bytes text ≡ head_of_types name.now types.now) }
{
    format!(in alloc;
        "/* The node {name} of a planned MCTP network.\n   Made by mctpplan export c. */\n{types}"
    )
}

/// The types that the sources of all nodes have in common.
fn types_text() -> &'static str
    ensures { result.now ≡ types_text }
{
    "#ifndef MCTPPLAN_TYPES\n#define MCTPPLAN_TYPES\n#include <stddef.h>\n#include <stdint.h>\n\n/* A row: its first endpoint ID, its size, its port, the next node's endpoint ID and address. */\nstruct mctpplan_row {\n    uint8_t first, size, port, next_eid, address_length, address[8];\n};\n\n/* Where a record stands in the repository. */\nstruct mctpplan_record {\n    uint32_t handle;\n    uint32_t offset;\n    uint32_t length;\n};\n#endif\n"
}

fn unit_text(alloc: Global, id: &str, unit: u16) -> Result<String, AllocError>
    ensures { IfOk result (λ text. string_bytes text ≡ unit_text id.now unit) }
{
    format!(in alloc;
        "\n/* The transmission unit of the plan: the most payload bytes of a packet. */\nconst uint16_t {id}_unit = {unit};\n"
    )
}

fn eid_text(alloc: Global, id: &str, eid: u8) -> Result<String, AllocError>
    ensures { IfOk result (λ text. string_bytes text ≡ eid_text id.now eid) }
{
    format!(in alloc; "\n/* The endpoint ID. */\nconst uint8_t {id}_eid = {eid};\n")
}

fn pool_of_node(alloc: Global, id: &str, pool: Option<Pool>) -> Result<String, AllocError>
    ensures { IfOk result (λ text. string_bytes text ≡ pool_text id.now (pool_first pool) (pool_size pool)) }
{
    match pool {
        Some(pool) => pool_text(alloc, id, pool.first.value, pool.size),
        None => pool_text(alloc, id, 0, 0),
    }
}

fn pool_text(alloc: Global, id: &str, first: u8, size: u8) -> Result<String, AllocError>
    ensures { IfOk result (λ text. string_bytes text ≡ pool_text id.now first size) }
{
    format!(in alloc;
        "\n/* The EID pool: its first endpoint ID and its size, 0 where there is none. */\nconst uint8_t {id}_pool_first = {first};\nconst uint8_t {id}_pool_size = {size};\n"
    )
}

fn rows_text(
    alloc: Global,
    plan: &Plan,
    id: &str,
    rows: &[PlannedRow],
) -> Result<String, AllocError>
    ensures { IfOk result (λ text. string_bytes text ≡ rows_text plan.now id.now (map row_facts rows.now)) }
{
    let lines = row_lines(alloc, plan, rows)?;
    rows_of_lines(alloc, id, rows.len(), &lines)
}

fn rows_of_lines(alloc: Global, id: &str, count: usize, lines: &str) -> Result<String, AllocError>
    ensures { IfOk result (λ text. string_bytes text ≡ rows_of_lines id.now count lines.now) }
{
    format!(in alloc;
        "\n/* The routing table, lower endpoint IDs first. */\nconst size_t {id}_row_count = {count};\nconst struct mctpplan_row {id}_rows[] = {{\n{lines}}};\n"
    )
}

/// The lines of rows. An array of C has an item, so there is a line that counts for nothing where there are none.
fn row_lines(alloc: Global, plan: &Plan, rows: &[PlannedRow]) -> Result<String, AllocError>
    ensures { IfOk result (λ text. string_bytes text ≡ row_lines plan.now (map row_facts rows.now)) }
{
    match rows {
        [] => "    {0, 0, 0, 0, 0, {0}}, /* no row */\n".to_string(alloc),
        [_, ..] => lines_of(alloc, plan, rows),
    }
}

fn lines_of(alloc: Global, plan: &Plan, rows: &[PlannedRow]) -> Result<String, AllocError>
    ensures { IfOk result (λ text. string_bytes text ≡ flat_map (row_line plan.now) (map row_facts rows.now)) }
{
    let mut text = String::new(alloc);
    for row in rows {
        text.push_str(&row_line(alloc, plan, row)?)?;
    }
    Ok(text)
}

fn row_line(alloc: Global, plan: &Plan, row: &PlannedRow) -> Result<String, AllocError>
    ensures { IfOk result (λ text. string_bytes text ≡ row_line plan.now (row_facts row.now)) }
{
    let eid = row.eid.value;
    let count = row.address.len();
    let numbers = numbers_text(alloc, row.first.value, row.size, row.port, eid, count)?;
    let address = address_list(alloc, row.address)?;
    row_of_words(alloc, &numbers, &address, node_name(plan, row.next))
}

/// What stands before an address: a row's first endpoint ID, its size and its port, the next node's endpoint ID, and
/// how many bytes its address has.
fn numbers_text(
    alloc: Global,
    first: u8,
    size: u8,
    port: u8,
    eid: u8,
    count: usize,
) -> Result<String, AllocError>
    ensures { IfOk result (λ text. string_bytes text ≡ numbers_text first size port eid count) }
{
    format!(in alloc; "    {{{first}, {size}, {port}, {eid}, {count}, {{")
}

fn row_of_words(
    alloc: Global,
    numbers: &str,
    address: &str,
    name: &str,
) -> Result<String, AllocError>
    ensures { IfOk result (λ text. string_bytes text ≡ row_of_words numbers.now address.now name.now) }
{
    format!(in alloc; "    /* to {name} */\n{numbers}{address}}}}},\n")
}

/// The bytes of an address, or 0 where there are none.
fn address_list(alloc: Global, address: &[u8]) -> Result<String, AllocError>
    ensures { IfOk result (λ text. string_bytes text ≡ address_list address.now) }
{
    match address {
        [] => "0".to_string(alloc),
        [_, ..] => {
            let bytes = hex_list(alloc, ", 0x", address)?;
            format!(in alloc; "0x{bytes}")
        }
    }
}

/// What a terminus adds to the source.
fn terminus_text(alloc: Global, id: &str, terminus: Option<CTerminus>) -> Result<String, AllocError>
    ensures { IfOk result (λ text. string_bytes text ≡ terminus_text id.now (option_map terminus_facts terminus.entry)) }
{
    match terminus {
        Some(terminus) => repository_parts(alloc, id, terminus.tid, terminus.records),
        None => Ok(String::new(alloc)),
    }
}

fn repository_parts(
    alloc: Global,
    id: &str,
    tid: u8,
    records: &[Record],
) -> Result<String, AllocError>
    ensures { IfOk result (λ text. string_bytes text ≡ tid_text id.now tid ++ (repository_text id.now (entries records.now)
        ++ records_text id.now (entries records.now))) }
{
    let tid = tid_text(alloc, id, tid)?;
    let repository = repository_text(alloc, id, records)?;
    let index = records_text(alloc, id, records)?;
    three_texts(alloc, &tid, &repository, &index)
}

fn three_texts(alloc: Global, a: &str, b: &str, c: &str) -> Result<String, AllocError>
    ensures { IfOk result (λ text. string_bytes text ≡ a.now ++ (b.now ++ c.now)) }
{
    format!(in alloc; "{a}{b}{c}")
}

fn tid_text(alloc: Global, id: &str, tid: u8) -> Result<String, AllocError>
    ensures { IfOk result (λ text. string_bytes text ≡ tid_text id.now tid) }
{
    format!(in alloc;
        "\n/* The terminus ID, 0 where it has none yet. */\nconst uint8_t {id}_tid = {tid};\n"
    )
}

fn repository_text(alloc: Global, id: &str, records: &[Record]) -> Result<String, AllocError>
    ensures { IfOk result (λ text. string_bytes text ≡ repository_text id.now (entries records.now)) }
{
    let lines = bytes_lines(alloc, records)?;
    format!(in alloc;
        "\n/* The records of the repository, one after another. */\nconst uint8_t {id}_repository[] = {{{lines}\n}};\n"
    )
}

/// The bytes of the records, those of each from a new line on.
fn bytes_lines(alloc: Global, records: &[Record]) -> Result<String, AllocError>
    ensures { IfOk result (λ text. string_bytes text ≡ flat_map bytes_text (entries records.now)) }
{
    let mut text = String::new(alloc);
    for record in records {
        text.push_str(&bytes_text(alloc, record)?)?;
    }
    Ok(text)
}

/// The bytes of a record.
fn bytes_text(alloc: Global, entry: &Record) -> Result<String, AllocError>
    ensures { IfOk result (λ text. string_bytes text ≡ bytes_text (entry_of entry.now)) }
{
    bytes_from_first(alloc, &entry.1)
}

fn bytes_from_first(alloc: Global, bytes: &[u8]) -> Result<String, AllocError>
    ensures { IfOk result (λ text. string_bytes text ≡ bytes_from 0 bytes.now) }
{
    let mut text = String::new(alloc);
    for (index, byte) in bytes.iter().enumerate() {
        text.push_str(&byte_text(alloc, index, *byte)?)?;
    }
    Ok(text)
}

/// The byte at an index. Each sixteenth begins a line.
fn byte_text(alloc: Global, index: usize, byte: u8) -> Result<String, AllocError>
    ensures { IfOk result (λ text. string_bytes text ≡ byte_text index byte) }
{
    let front = if index % 16 == 0 { "\n    " } else { " " };
    let digits = hex::encode(alloc, &[byte])?;
    format!(in alloc; "{front}0x{digits},")
}

fn records_text(alloc: Global, id: &str, records: &[Record]) -> Result<String, AllocError>
    ensures { IfOk result (λ text. string_bytes text ≡ records_text id.now (entries records.now)) }
{
    let lines = record_lines(alloc, records)?;
    records_of_lines(alloc, id, records.len(), &lines)
}

fn records_of_lines(
    alloc: Global,
    id: &str,
    count: usize,
    lines: &str,
) -> Result<String, AllocError>
    ensures { IfOk result (λ text. string_bytes text ≡ records_of_lines id.now count lines.now) }
{
    format!(in alloc;
        "\n/* The records, in the order of their next handles. */\nconst size_t {id}_record_count = {count};\nconst struct mctpplan_record {id}_records[] = {{\n{lines}}};\n"
    )
}

/// Where each record stands. A sum that doesn't fit counts as want of memory.
fn record_lines(alloc: Global, records: &[Record]) -> Result<String, AllocError>
    ensures { IfOk result (λ text. string_bytes text ≡ record_lines 0 (entries records.now)) }
{
    let mut text = String::new(alloc);
    let mut offset = 0;
    for record in records {
        let size = record.1.len();
        text.push_str(&record_line(alloc, record.0, offset, size)?)?;
        offset = sum(offset, size)?;
    }
    Ok(text)
}

fn sum(one: usize, other: usize) -> Result<usize, AllocError>
    ensures { IfOk result (λ all. all ≡ one + other) }
{
    match one.checked_add(other) {
        Some(all) => Ok(all),
        // no memory: the records are in memory, so their sizes have no such sum.
        None => Err(AllocError),
    }
}

fn record_line(alloc: Global, handle: u32, offset: usize, size: usize) -> Result<String, AllocError>
    ensures { IfOk result (λ text. string_bytes text ≡ record_line handle offset size) }
{
    format!(in alloc; "    {{{handle}, {offset}, {size}}},\n")
}
