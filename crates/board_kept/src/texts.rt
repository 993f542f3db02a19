//! How a board writes what stands in a plan.
ghost use Rattle.std.specs.Prelude.{◌≡◌, IfOk, [], Some, None, option_map, unwrap_or, string_bytes};
ghost use Rattle.net_tables.specs.Names.{name_of_bus, name_of_node};
ghost use Rattle.board_kept.specs.Texts.{binding_word, port_text, row_text};

use board_values::eids_text;
use plan_values::{Plan, Row};
use std::alloc::{AllocError, Global};

/// The word of a physical transport binding identifier (DSP0239), where it has one.
pub fn binding_word(number: u8) -> Option<&'static str>
    ensures { option_map (λ word. word.now) result ≡ binding_word number }
{
    match number {
        1 => Some("smbus"),
        2 => Some("pcie"),
        3 => Some("usb"),
        4 => Some("kcs"),
        5 => Some("serial"),
        6 => Some("i3c"),
        _ => None,
    }
}

/// The name of a node, none beyond the plan.
pub fn node_name(plan: &Plan, node: usize) -> Option<&str>
    ensures { option_map (λ name. name.now) result ≡ name_of_node plan.now node }
{
    match plan.nodes.get(node) {
        Some(node) => Some(node.name.text.as_str()),
        None => None,
    }
}

/// The name of a bus, none beyond the plan.
fn bus_name(plan: &Plan, bus: usize) -> Option<&str>
    ensures { option_map (λ name. name.now) result ≡ name_of_bus plan.now bus }
{
    match plan.buses.get(bus) {
        Some(bus) => Some(bus.name.text.as_str()),
        None => None,
    }
}

/// A port: the bus at an index and, where it has one, its address in hex.
pub fn port_text(
    alloc: Global,
    plan: &Plan,
    bus: usize,
    address: &[u8],
) -> Result<String, AllocError>
    ensures { IfOk result (λ text. string_bytes text ≡ port_text plan.now bus address.now) }
{
    let bus = bus_name(plan, bus).unwrap_or("");
    if address.is_empty() {
        return format!(in alloc; "{bus}");
    }
    let address = hex::encode(alloc, address)?;
    format!(in alloc; "{bus} {address}")
}

/// A row: its endpoint IDs, the next node and the port.
pub fn row_text(alloc: Global, plan: &Plan, row: &Row) -> Result<String, AllocError>
    ensures { IfOk result (λ text. string_bytes text ≡ row_text plan.now row.now) }
{
    let eids = eids_text(alloc, row.first.value, row.size)?;
    let next = node_name(plan, row.next).unwrap_or("");
    let port = row.port;
    format!(in alloc; "{eids} via {next} port {port}")
}
