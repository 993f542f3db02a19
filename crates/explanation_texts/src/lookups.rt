//! What a message names of a plan, looked up and written.
ghost use Rattle.std.specs.Prelude.{◌≡◌, ◌++◌, codes, option_and_then, option_map, IfOk, string_bytes};
ghost use Rattle.net_tables.specs.Names.{node_name};
ghost use Rattle.plan_texts.specs.Lines.{number_or_dash};
ghost use Rattle.explanation_texts.specs.Pieces.{row_of, bus_of_row, record_of, handle_of, tid_of, data_length, row_span, pool_span, owner_name, ports_text, address_to};

use crate::pieces::Entry;
use net_tables::lookup::{address_on, bus_at, node_name, record_at, row_at, terminus_at};
use plan_texts::{address_text, number_text, span_text};
use plan_values::{Plan, PlannedRecord, Pool, Row};
use std::alloc::{AllocError, Global};

/// The row, if there is one.
pub fn row_of(plan: &Plan, at: Entry) -> Option<&Row>
    ensures { option_map (λ row. row.now) result ≡ row_of plan.now at }
{
    row_at(plan, at.node, at.index?)
}

/// The bus on which a row sends.
pub fn bus_of_row(plan: &Plan, at: Entry) -> Option<usize>
    ensures { result ≡ bus_of_row plan.now at }
{
    bus_at(plan, at.node, row_of(plan, at)?.port)
}

/// The record, if there is one.
pub fn record_of(plan: &Plan, at: Entry) -> Option<&PlannedRecord>
    ensures { option_map (λ r. r.now) result ≡ record_of plan.now at }
{
    record_at(plan, at.node, at.index?)
}

/// Its handle.
pub fn handle_of(plan: &Plan, at: Entry) -> Option<u32>
    ensures { result ≡ handle_of plan.now at }
{
    Some(record_of(plan, at)?.handle)
}

/// The data length in its header.
pub fn data_length_of(plan: &Plan, at: Entry) -> Option<usize>
    ensures { result ≡ option_and_then (λ r. data_length r.bytes.items) (record_of plan.now at) }
{
    data_length(&record_of(plan, at)?.bytes)
}

fn data_length(bytes: &[u8]) -> Option<usize>
    ensures { result ≡ data_length bytes.now }
{
    Some(usize::from(*bytes.get(8)?) + 256 * usize::from(*bytes.get(9)?))
}

/// The terminus ID of a node.
pub fn tid_of(plan: &Plan, node: usize) -> Option<u8>
    ensures { result ≡ tid_of plan.now node }
{
    Some(terminus_at(plan, node)?.tid)
}

/// A row or a record: its index, and its node's name.
pub fn at_text(alloc: Global, plan: &Plan, at: Entry) -> Result<String, AllocError>
    ensures { IfOk result (λ text. string_bytes text ≡ number_or_dash at.index ++ (codes " of " ++ node_name plan.now at.node)) }
{
    let mut text = number_text(alloc, at.index)?;
    text.push_str(" of ")?;
    text.push_str(node_name(plan, at.node))?;
    Ok(text)
}

/// What a row covers.
pub fn row_span(alloc: Global, row: Option<&Row>) -> Result<String, AllocError>
    ensures { IfOk result (λ text. string_bytes text ≡ row_span (option_map (λ r. r.now) row.entry)) }
{
    match row {
        Some(row) => span_text(alloc, row.first.value, row.size),
        None => "-".to_string(alloc),
    }
}

/// What a pool has.
pub fn pool_span(alloc: Global, pool: Option<Pool>) -> Result<String, AllocError>
    ensures { IfOk result (λ text. string_bytes text ≡ pool_span pool) }
{
    match pool {
        Some(pool) => span_text(alloc, pool.first.value, pool.size),
        None => "null".to_string(alloc),
    }
}

/// The name of an owner, null where there is none.
pub fn owner_name(plan: &Plan, owner: Option<usize>) -> &str
    ensures { result.now ≡ owner_name plan.now owner }
{
    match owner {
        Some(owner) => node_name(plan, owner),
        None => "null",
    }
}

/// How many ports there are, and their numbers.
pub fn ports_text(alloc: Global, count: usize) -> Result<String, AllocError>
    ensures { IfOk result (λ text. string_bytes text ≡ ports_text count) }
{
    if count == 0 {
        "no port".to_string(alloc)
    } else if count == 1 {
        "1 port (port 0)".to_string(alloc)
    } else {
        let last = count - 1;
        format!(in alloc; "{count} ports (0 to {last})")
    }
}

/// The address of a row's next node on the bus, in hex.
pub fn address_to(
    alloc: Global,
    plan: &Plan,
    bus: Option<usize>,
    row: Option<&Row>,
) -> Result<String, AllocError>
    ensures { IfOk result (λ text. string_bytes text ≡ address_to plan.now bus (option_map (λ r. r.now) row.entry)) }
{
    match row {
        Some(row) => address_text(alloc, address_on(plan, row.next, bus)),
        None => "-".to_string(alloc),
    }
}
