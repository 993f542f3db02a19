//! The buses of a Linux node for its device tree.
ghost use Rattle.std.specs.Prelude.{◌≡◌, IfOk, map, string_bytes};
ghost use Rattle.plan_exports.specs.DeviceTrees.{IsDeviceTree, addressed_part, bus_part, bus_parts, foreign_part, i2c_part, i3c_part, labelled_part, part_at, part_of, smbus_part, tree_head, tree_text, unaddressed_part};

use crate::devices::devices_of;
use crate::identifiers::identifier;
use crate::links::Link;
use crate::linux::{I3C, SMBUS, buses_at, device_at, link_address};
use crate::planned_tables::bus_numbers;
use crate::words::hex_list;
use net_tables::lookup::{address_on, bus_name, node_name};
use plan_values::Plan;
use std::alloc::{AllocError, Global};

/// The source of a device tree with the buses of a node: over SMBus and I2C the node's own address, and over I3C that
/// MCTP goes there. A controller has the label that the link of its bus gives, or else the bus's name.
pub fn device_tree(
    alloc: Global,
    plan: &Plan,
    node: usize,
    links: &[Link],
) -> Result<String, AllocError>
    ensures { IfOk result (λ text. IsDeviceTree plan.now node links.now (string_bytes text)) }
{
    let labels = devices_of(alloc, plan, links)?;
    let text = tree_text(alloc, plan, node, &labels)?;
    Ok(text)
}

fn tree_text(alloc: Global, plan: &Plan, node: usize, labels: &[&str]) -> Result<String, AllocError>
    ensures { IfOk result (λ text. string_bytes text ≡ tree_text plan.now node (map (λ d. d.now) labels.now)) }
{
    let buses = buses_at(alloc, plan, node)?;
    let head = head_lines(alloc, plan, node)?;
    let parts = bus_parts(alloc, plan, node, labels, &buses)?;
    format!(in alloc; "{head}{parts}")
}

fn head_lines(alloc: Global, plan: &Plan, node: usize) -> Result<String, AllocError>
    ensures { IfOk result (λ text. string_bytes text ≡ tree_head plan.now node) }
{
    let name = node_name(plan, node);
    format!(in alloc;
        "/* The buses of the node {name}. Made by mctpplan export devicetree.\n   These words are those of Linux 6.7. */\n#include <dt-bindings/i2c/i2c.h>\n"
    )
}

fn bus_parts(
    alloc: Global,
    plan: &Plan,
    node: usize,
    labels: &[&str],
    buses: &[usize],
) -> Result<String, AllocError>
    ensures { IfOk result (λ text. string_bytes text ≡ bus_parts plan.now node (map (λ d. d.now) labels.now) buses.now) }
{
    let mut text = String::new(alloc);
    for bus in buses {
        text.push_str(&bus_part(alloc, plan, node, labels, *bus)?)?;
    }
    Ok(text)
}

/// What stands there for a bus.
fn bus_part(
    alloc: Global,
    plan: &Plan,
    node: usize,
    labels: &[&str],
    bus: usize,
) -> Result<String, AllocError>
    ensures { IfOk result (λ text. string_bytes text ≡ bus_part plan.now node (map (λ d. d.now) labels.now) bus) }
{
    part_at(alloc, plan, node, device_at(labels, bus), bus, Some(bus))
}

/// What stands there for a bus whose controller has a name; it is what the node's address is looked up on.
fn part_at(
    alloc: Global,
    plan: &Plan,
    node: usize,
    label: &str,
    bus: usize,
    on: Option<usize>,
) -> Result<String, AllocError>
    ensures { IfOk result (λ text. string_bytes text ≡ part_at plan.now node label.now bus on) }
{
    let (binding, _) = bus_numbers(plan, on);
    let address = address_on(plan, node, on);
    labelled_part(alloc, plan, label, bus, address, binding)
}

/// What stands there for a bus of a binding, whose controller has a name.
fn labelled_part(
    alloc: Global,
    plan: &Plan,
    label: &str,
    bus: usize,
    address: &[u8],
    binding: u8,
) -> Result<String, AllocError>
    ensures { IfOk result (λ text. string_bytes text ≡ labelled_part plan.now label.now bus address.now binding) }
{
    let label = identifier(alloc, label)?;
    part_of(alloc, &label, bus_name(plan, bus), address, binding)
}

/// What stands there for a bus of a binding.
fn part_of(
    alloc: Global,
    label: &str,
    name: &str,
    address: &[u8],
    binding: u8,
) -> Result<String, AllocError>
    ensures { IfOk result (λ text. string_bytes text ≡ part_of label.now name.now address.now binding) }
{
    if binding == SMBUS {
        smbus_part(alloc, label, name, address)
    } else if binding == I3C {
        i3c_part(alloc, label, name)
    } else {
        foreign_part(alloc, name, binding)
    }
}

fn smbus_part(alloc: Global, label: &str, name: &str, address: &[u8]) -> Result<String, AllocError>
    ensures { IfOk result (λ text. string_bytes text ≡ smbus_part label.now name.now address.now) }
{
    if address.is_empty() {
        unaddressed_part(alloc, name)
    } else {
        addressed_part(alloc, label, name, address)
    }
}

fn addressed_part(
    alloc: Global,
    label: &str,
    name: &str,
    address: &[u8],
) -> Result<String, AllocError>
    ensures { IfOk result (λ text. string_bytes text ≡ addressed_part label.now name.now address.now) }
{
    let address = link_address(alloc, SMBUS, address)?;
    let digits = hex_list(alloc, "", &address)?;
    i2c_part(alloc, label, name, &digits)
}

fn i2c_part(alloc: Global, label: &str, name: &str, digits: &str) -> Result<String, AllocError>
    ensures { IfOk result (λ text. string_bytes text ≡ i2c_part label.now name.now digits.now) }
{
    format!(in alloc;
        "\n&{label} {{ /* bus {name} */\n\tmctp-controller;\n\n\tmctp@{digits} {{\n\t\tcompatible = \"mctp-i2c-controller\";\n\t\treg = <(0x{digits} | I2C_OWN_SLAVE_ADDRESS)>;\n\t}};\n}};\n"
    )
}

fn i3c_part(alloc: Global, label: &str, name: &str) -> Result<String, AllocError>
    ensures { IfOk result (λ text. string_bytes text ≡ i3c_part label.now name.now) }
{
    format!(in alloc; "\n&{label} {{ /* bus {name} */\n\tmctp-controller;\n}};\n")
}

fn unaddressed_part(alloc: Global, name: &str) -> Result<String, AllocError>
    ensures { IfOk result (λ text. string_bytes text ≡ unaddressed_part name.now) }
{
    format!(in alloc; "\n/* bus {name}: no address in the plan */\n")
}

fn foreign_part(alloc: Global, name: &str, binding: u8) -> Result<String, AllocError>
    ensures { IfOk result (λ text. string_bytes text ≡ foreign_part name.now binding) }
{
    format!(in alloc; "\n/* bus {name}: its binding {binding} has no words in a device tree */\n")
}
