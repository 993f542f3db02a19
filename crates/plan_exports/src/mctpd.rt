//! What has the daemon `mctpd` of a Linux node give the endpoint IDs that the node's plan gives to others.
ghost use Rattle.std.specs.Prelude.{◌≡◌, IfOk, map, string_bytes};
ghost use Rattle.plan_exports.specs.MctpdScripts.{IsMctpdScript, address_words, asked_line, call_line, child_front, child_line, children_lines, conf_lines, endpoint_conf, line_at, line_behind, line_over, mctpd_head, mctpd_text, owned_line, owner_conf, shared_bus};

use crate::devices::devices_of;
use crate::links::Link;
use crate::linux::{device_on, link_address, neighbor_front};
use crate::planned_tables::bus_numbers;
use crate::words::hex_list;
use net_tables::lookup::{
    address_on, eid_at, is_on_bus, node_name, owner_at, pool_at, pool_end, ports_at,
};
use plan_values::{Plan, Pool};
use std::alloc::{AllocError, Global};

/// The script of a node for `mctpd`: its configuration, and a call for each node that it owns, in the plan's order, with
/// the physical address on the bus that both share and the endpoint ID.
pub fn mctpd_script(
    alloc: Global,
    plan: &Plan,
    node: usize,
    links: &[Link],
) -> Result<String, AllocError>
    ensures { IfOk result (λ text. IsMctpdScript plan.now node links.now (string_bytes text)) }
{
    let devices = devices_of(alloc, plan, links)?;
    let text = script_text(alloc, plan, node, &devices)?;
    Ok(text)
}

fn script_text(
    alloc: Global,
    plan: &Plan,
    node: usize,
    devices: &[&str],
) -> Result<String, AllocError>
    ensures { IfOk result (λ text. string_bytes text ≡ mctpd_text plan.now node (map (λ d. d.now) devices.now)) }
{
    let head = head_lines(alloc, plan, node)?;
    let conf = conf_lines(alloc, plan, node)?;
    let children = children_lines(alloc, plan, node, devices)?;
    format!(in alloc; "{head}{conf}{children}")
}

fn head_lines(alloc: Global, plan: &Plan, node: usize) -> Result<String, AllocError>
    ensures { IfOk result (λ text. string_bytes text ≡ mctpd_head plan.now node) }
{
    let name = node_name(plan, node);
    format!(in alloc;
        "#!/bin/sh\n# The endpoint IDs that the node {name} gives. Made by mctpplan export mctpd.\n# These words are those of mctpd 2.2 (CodeConstruct's mctp); a later release may have others.\nset -e\ncat > \"${{MCTPD_CONF:-/etc/mctpd.conf}}\" << 'END'\n"
    )
}

/// The configuration of a node's daemon: it gives endpoint IDs where the node has a pool.
fn conf_lines(alloc: Global, plan: &Plan, node: usize) -> Result<String, AllocError>
    ensures { IfOk result (λ text. string_bytes text ≡ conf_lines plan.now node) }
{
    match pool_at(plan, node) {
        Some(pool) => owner_conf(alloc, pool),
        None => endpoint_conf(alloc),
    }
}

fn owner_conf(alloc: Global, pool: Pool) -> Result<String, AllocError>
    ensures { IfOk result (λ text. string_bytes text ≡ owner_conf pool) }
{
    let first = pool.first.value;
    let last = pool_end(pool).saturating_sub(1);
    format!(in alloc;
        "mode = \"bus-owner\"\n\n[mctp]\n\n[bus-owner]\n# the node's pool\ndynamic_eid_range = [{first}, {last}]\nEND\n"
    )
}

fn endpoint_conf(alloc: Global) -> Result<String, AllocError>
    ensures { IfOk result (λ text. string_bytes text ≡ endpoint_conf) }
{
    format!(in alloc; "mode = \"endpoint\"\n\n[mctp]\nEND\n")
}

/// The lines of the nodes that a node owns, in the plan's order.
fn children_lines(
    alloc: Global,
    plan: &Plan,
    node: usize,
    devices: &[&str],
) -> Result<String, AllocError>
    ensures { IfOk result (λ text. string_bytes text ≡ children_lines plan.now node (map (λ d. d.now) devices.now)) }
{
    let mut text = String::new(alloc);
    for child in 0..plan.nodes.len() {
        text.push_str(&child_line(alloc, plan, node, devices, child)?)?;
    }
    Ok(text)
}

/// The line of a node, if the other owns it.
fn child_line(
    alloc: Global,
    plan: &Plan,
    node: usize,
    devices: &[&str],
    child: usize,
) -> Result<String, AllocError>
    ensures { IfOk result (λ text. string_bytes text ≡ child_line plan.now node (map (λ d. d.now) devices.now) child) }
{
    match owner_at(plan, child) {
        Some(owner) if owner == node => owned_line(alloc, plan, node, devices, child),
        _ => Ok(String::new(alloc)),
    }
}

/// The line of a node that the other owns.
fn owned_line(
    alloc: Global,
    plan: &Plan,
    node: usize,
    devices: &[&str],
    child: usize,
) -> Result<String, AllocError>
    ensures { IfOk result (λ text. string_bytes text ≡ owned_line plan.now node (map (λ d. d.now) devices.now) child) }
{
    let bus = shared_bus(plan, node, child);
    line_over(alloc, plan, devices, bus, child)
}

/// The line of a node that is asked over a bus.
fn line_over(
    alloc: Global,
    plan: &Plan,
    devices: &[&str],
    bus: Option<usize>,
    child: usize,
) -> Result<String, AllocError>
    ensures { IfOk result (λ text. string_bytes text ≡ line_over plan.now (map (λ d. d.now) devices.now) bus child) }
{
    let (binding, _) = bus_numbers(plan, bus);
    let address = address_on(plan, child, bus);
    let device = device_on(devices, bus);
    line_at(alloc, plan, device, binding, address, child)
}

/// The line of a node at an address of a device, whose bus has this binding.
fn line_at(
    alloc: Global,
    plan: &Plan,
    device: &str,
    binding: u8,
    address: &[u8],
    child: usize,
) -> Result<String, AllocError>
    ensures { IfOk result (λ text. string_bytes text ≡ line_at plan.now device.now binding address.now child) }
{
    let front = child_front(binding, address);
    let address = link_address(alloc, binding, address)?;
    line_behind(alloc, plan, front, device, &address, child)
}

/// The call behind a text.
fn line_behind(
    alloc: Global,
    plan: &Plan,
    front: &str,
    device: &str,
    address: &[u8],
    child: usize,
) -> Result<String, AllocError>
    ensures { IfOk result (λ text. string_bytes text ≡ line_behind plan.now front.now device.now address.now child) }
{
    let command = asked_line(alloc, plan, device, address, child)?;
    format!(in alloc; "{front}{command}")
}

/// The bus of the child's lowest port whose bus the node shares.
fn shared_bus(plan: &Plan, node: usize, child: usize) -> Option<usize>
    ensures { result ≡ shared_bus plan.now node child }
{
    let shared = ports_at(plan, child)
        .iter()
        .find(|port| is_on_bus(plan, node, port.bus))?;
    Some(shared.bus)
}

/// What stands before the line of a node: nothing, or what makes a comment of it where the plan lacks the address.
fn child_front(binding: u8, address: &[u8]) -> &'static str
    ensures { result.now ≡ child_front binding address.now }
{
    if address.is_empty() {
        "# no address in the plan: "
    } else {
        neighbor_front(binding, address)
    }
}

/// The call that gives a node its endpoint ID at an address.
fn asked_line(
    alloc: Global,
    plan: &Plan,
    device: &str,
    address: &[u8],
    child: usize,
) -> Result<String, AllocError>
    ensures { IfOk result (λ text. string_bytes text ≡ asked_line plan.now device.now address.now child) }
{
    let words = address_words(alloc, address)?;
    let eid = eid_at(plan, child).map_or(0, |eid| eid.value);
    call_line(alloc, device, &words, eid, node_name(plan, child))
}

/// An address as `busctl` has a list of bytes: how many they are, and each of them.
fn address_words(alloc: Global, address: &[u8]) -> Result<String, AllocError>
    ensures { IfOk result (λ text. string_bytes text ≡ address_words address.now) }
{
    let digits = hex_list(alloc, " 0x", address)?;
    let many = address.len();
    format!(in alloc; "{many} 0x{digits}")
}

/// The call, with the words of an address.
fn call_line(
    alloc: Global,
    device: &str,
    address: &str,
    eid: u8,
    name: &str,
) -> Result<String, AllocError>
    ensures { IfOk result (λ text. string_bytes text ≡ call_line device.now address.now eid name.now) }
{
    format!(in alloc;
        "busctl call au.com.codeconstruct.MCTP1 /au/com/codeconstruct/mctp1/interfaces/{device} au.com.codeconstruct.MCTP.BusOwner1 AssignEndpointStatic ayy {address} {eid} # {name}\n"
    )
}
