//! What several lines have: numbers, nodes, buses, addresses, endpoint IDs.
ghost use Rattle.std.specs.Prelude.{◌≡◌, IfOk, string_bytes};
ghost use Rattle.plan_texts.{specs.LineParts.{address_text, bus_text, from_to, name_or_none, span_text}, specs.Lines.{number_or_dash}};

use net_tables::lookup::{bus_name, node_name};
use plan_values::Plan;
use std::alloc::{AllocError, Global};

/// A number, or a dash where there is none.
pub fn number_text(alloc: Global, number: Option<usize>) -> Result<String, AllocError>
    ensures { IfOk result (λ text. string_bytes text ≡ number_or_dash number) }
{
    match number {
        Some(number) => format!(in alloc; "{number}"),
        None => "-".to_string(alloc),
    }
}

/// The endpoint IDs from the first to the last, or the one.
pub fn from_to(alloc: Global, first: usize, last: usize) -> Result<String, AllocError>
    ensures { IfOk result (λ text. string_bytes text ≡ from_to first last) }
{
    if first == last {
        format!(in alloc; "{first}")
    } else {
        format!(in alloc; "{first} to {last}")
    }
}

/// So many endpoint IDs from the first on.
pub fn span_text(alloc: Global, first: u8, size: u8) -> Result<String, AllocError>
    ensures { IfOk result (λ text. string_bytes text ≡ span_text first size) }
{
    if size == 0 {
        return "none".to_string(alloc);
    }
    let first = usize::from(first);
    from_to(alloc, first, first + usize::from(size) - 1)
}

/// The name of a node, or a dash where there is none.
pub fn name_or_none(plan: &Plan, node: Option<usize>) -> &str
    ensures { result.now ≡ name_or_none plan.now node }
{
    match node {
        Some(node) => node_name(plan, node),
        None => "-",
    }
}

/// The name of a bus, or a dash where there is none.
pub fn bus_text(plan: &Plan, bus: Option<usize>) -> &str
    ensures { result.now ≡ bus_text plan.now bus }
{
    match bus {
        Some(bus) => bus_name(plan, bus),
        None => "-",
    }
}

/// An address in hex, or a dash where it is empty.
pub fn address_text(alloc: Global, address: &[u8]) -> Result<String, AllocError>
    ensures { IfOk result (λ text. string_bytes text ≡ address_text address.now) }
{
    if address.is_empty() {
        return "-".to_string(alloc);
    }
    hex::encode(alloc, address)
}
