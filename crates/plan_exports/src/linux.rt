//! The shell script that gives a Linux node its planned state, with the tool `mctp`.
ghost use Rattle.std.{specs.Prelude.{◌≡◌, ◌++◌, ◌∷◌, [], if◌then◌else◌, IfOk, OnOk, map, string_bytes}, specs.List.{flat_map, range_with_len}, specs.Fmt.{decimal}};
ghost use Rattle.net_tables.{specs.Routing.{rows_of}, specs.Tables.{AreRows}};
ghost use Rattle.plan_exports.{specs.Devices.{device_at}, specs.LinuxScripts.{IsLinuxScript, buses_at, device_on, eid_line, head_lines, link_address, link_byte, link_lines, linux_text, neighbor_command, neighbor_front, neighbor_line, neighbor_lines, range_text, route_line, span_text}, specs.PlannedRows.{row_facts}};

use crate::devices::devices_of;
use crate::links::Link;
use crate::planned_tables::bus_numbers;
use crate::rows::{PlannedRow, planned_rows};
use crate::words::hex_list;
use mctp_transport::Eid;
use net_tables::lookup::{bus_name, eid_at, is_on_bus, node_name};
use plan_values::Plan;
use std::alloc::{AllocError, Global};

/// The binding of SMBus and I2C (DSP0239).
pub const SMBUS: u8 = 1;
/// The binding of I3C (DSP0239).
pub const I3C: u8 = 6;

/// The script of a node whose rows are lawful: its devices, its endpoint ID, a route for each of its rows, and for each
/// endpoint ID of a row the physical address to which packets go.
pub fn linux_script(
    alloc: Global,
    plan: &Plan,
    node: usize,
    links: &[Link],
) -> Result<String, AllocError>
    requires { AreRows (rows_of plan.now node) }
    ensures { IfOk result (λ text. IsLinuxScript plan.now node links.now (string_bytes text)) }
{
    let devices = devices_of(alloc, plan, links)?;
    let rows = planned_rows(alloc, plan, node)?;
    let text = script_text(alloc, plan, node, &devices, &rows)?;
    Ok(text)
}

/// The script of a node, with the device of each bus, and the node's rows.
fn script_text(
    alloc: Global,
    plan: &Plan,
    node: usize,
    devices: &[&str],
    rows: &[PlannedRow],
) -> Result<String, AllocError>
    ensures { IfOk result (λ text. string_bytes text ≡ linux_text plan.now node (map (λ d. d.now) devices.now) (map row_facts rows.now)) }
{
    let buses = buses_at(alloc, plan, node)?;
    let mut text = head_lines(alloc, plan, node)?;
    push_links(alloc, &mut text, plan, devices, &buses)?;
    push_eids(alloc, &mut text, plan, node, devices, &buses)?;
    push_routes(alloc, &mut text, plan, devices, rows)?;
    push_neighbors(alloc, &mut text, plan, devices, rows)?;
    Ok(text)
}

/// The buses on which a node has a port, in the plan's order.
pub fn buses_at(alloc: Global, plan: &Plan, node: usize) -> Result<Vec<usize>, AllocError>
    ensures { IfOk result (λ buses. buses.items ≡ buses_at plan.now node) }
{
    let mut buses = Vec::new(alloc);
    for bus in 0..plan.buses.len() {
        push_if(&mut buses, bus, is_on_bus(plan, node, bus))?;
    }
    Ok(buses)
}

/// Adds a bus, if it is wanted.
fn push_if(buses: &mut Vec<usize>, bus: usize, wanted: bool) -> Result<(), AllocError>
    ensures { OnOk result (buses.new.items ≡ (if wanted then buses.old.items ++ bus ∷ [] else buses.old.items)) }
{
    if wanted {
        buses.push(bus)?;
    }
    Ok(())
}

fn head_lines(alloc: Global, plan: &Plan, node: usize) -> Result<String, AllocError>
    ensures { IfOk result (λ text. string_bytes text ≡ head_lines plan.now node) }
{
    let name = node_name(plan, node);
    format!(in alloc;
        "#!/bin/sh\n# The planned state of the node {name}. Made by mctpplan export linux.\n# `|| true` stands where a thing may be there already, from an earlier run.\nset -e\n"
    )
}

/// Adds the lines that set up a device on each bus.
fn push_links(
    alloc: Global,
    text: &mut String,
    plan: &Plan,
    devices: &[&str],
    buses: &[usize],
) -> Result<(), AllocError>
    ensures { OnOk result (string_bytes text.new ≡ string_bytes text.old ++ flat_map (link_lines plan.now (map (λ d. d.now) devices.now)) buses.now) }
{
    for bus in buses {
        text.push_str(&link_lines(alloc, plan, devices, *bus)?)?;
    }
    Ok(())
}

fn link_lines(
    alloc: Global,
    plan: &Plan,
    devices: &[&str],
    bus: usize,
) -> Result<String, AllocError>
    ensures { IfOk result (λ text. string_bytes text ≡ link_lines plan.now (map (λ d. d.now) devices.now) bus) }
{
    let device = device_at(devices, bus);
    let name = bus_name(plan, bus);
    let mtu = u32::from(plan.unit) + 4;
    format!(in alloc;
        "mctp link set {device} up # bus {name}\nmctp link set {device} mtu {mtu} # bus {name}\n"
    )
}

/// Adds the line that gives the node its endpoint ID on each bus.
fn push_eids(
    alloc: Global,
    text: &mut String,
    plan: &Plan,
    node: usize,
    devices: &[&str],
    buses: &[usize],
) -> Result<(), AllocError>
    ensures { OnOk result (string_bytes text.new ≡ string_bytes text.old ++ flat_map (eid_line plan.now node (map (λ d. d.now) devices.now)) buses.now) }
{
    for bus in buses {
        text.push_str(&eid_line(alloc, plan, node, devices, *bus)?)?;
    }
    Ok(())
}

fn eid_line(
    alloc: Global,
    plan: &Plan,
    node: usize,
    devices: &[&str],
    bus: usize,
) -> Result<String, AllocError>
    ensures { IfOk result (λ text. string_bytes text ≡ eid_line plan.now node (map (λ d. d.now) devices.now) bus) }
{
    let eid = eid_at(plan, node).map_or(0, |eid| eid.value);
    let device = device_at(devices, bus);
    let name = node_name(plan, node);
    format!(in alloc; "mctp addr add {eid} dev {device} || true # node {name}\n")
}

/// Adds the route of each row.
fn push_routes(
    alloc: Global,
    text: &mut String,
    plan: &Plan,
    devices: &[&str],
    rows: &[PlannedRow],
) -> Result<(), AllocError>
    ensures { OnOk result (string_bytes text.new ≡ string_bytes text.old ++ flat_map (route_line plan.now (map (λ d. d.now) devices.now)) (map row_facts rows.now)) }
{
    for row in rows {
        text.push_str(&route_line(alloc, plan, devices, row)?)?;
    }
    Ok(())
}

fn route_line(
    alloc: Global,
    plan: &Plan,
    devices: &[&str],
    row: &PlannedRow,
) -> Result<String, AllocError>
    ensures { IfOk result (λ text. string_bytes text ≡ route_line plan.now (map (λ d. d.now) devices.now) (row_facts row.now)) }
{
    let range = range_text(alloc, row.first, row.size)?;
    let device = device_on(devices, row.bus);
    let name = node_name(plan, row.next);
    format!(in alloc; "mctp route add {range} via {device} || true # to {name}\n")
}

/// An endpoint ID alone, or the first and the last of several.
fn range_text(alloc: Global, first: Eid, size: u8) -> Result<String, AllocError>
    ensures { IfOk result (λ text. string_bytes text ≡ range_text first.value size) }
{
    if size == 1 {
        number_text(alloc, first.value)
    } else {
        span_text(alloc, first.value, size)
    }
}

fn number_text(alloc: Global, number: u8) -> Result<String, AllocError>
    ensures { IfOk result (λ text. string_bytes text ≡ decimal number) }
{
    format!(in alloc; "{number}")
}

/// The first and the last of several endpoint IDs.
fn span_text(alloc: Global, first: u8, size: u8) -> Result<String, AllocError>
    ensures { IfOk result (λ text. string_bytes text ≡ span_text first size) }
{
    let last = (u16::from(first) + u16::from(size)).saturating_sub(1);
    format!(in alloc; "{first}-{last}")
}

/// Adds the address to which packets go that are for an endpoint ID of a row.
fn push_neighbors(
    alloc: Global,
    text: &mut String,
    plan: &Plan,
    devices: &[&str],
    rows: &[PlannedRow],
) -> Result<(), AllocError>
    ensures { OnOk result (string_bytes text.new ≡ string_bytes text.old ++ flat_map (neighbor_lines plan.now (map (λ d. d.now) devices.now)) (map row_facts rows.now)) }
{
    for row in rows {
        text.push_str(&neighbor_lines(alloc, plan, devices, row)?)?;
    }
    Ok(())
}

fn neighbor_lines(
    alloc: Global,
    plan: &Plan,
    devices: &[&str],
    row: &PlannedRow,
) -> Result<String, AllocError>
    ensures { IfOk result (λ text. string_bytes text ≡ neighbor_lines plan.now (map (λ d. d.now) devices.now) (row_facts row.now)) }
{
    if row.address.is_empty() {
        return Ok(String::new(alloc));
    }
    let (binding, _) = bus_numbers(plan, row.bus);
    let front = neighbor_front(binding, row.address);
    let address = link_address(alloc, binding, row.address)?;
    let device = device_on(devices, row.bus);
    let name = node_name(plan, row.next);
    address_lines(alloc, front, device, &address, name, row.first, row.size)
}

/// What stands before the lines of a neighbour: nothing, or over I3C, where the address is no provisioned ID, what makes
/// comments of them.
pub fn neighbor_front(binding: u8, address: &[u8]) -> &'static str
    ensures { result.now ≡ neighbor_front binding address.now }
{
    if binding == I3C && address.len() != 6 {
        "# no PID in the plan: "
    } else {
        ""
    }
}

/// The bytes of an address on a bus of a binding as Linux has them: over SMBus and I2C without the bit below the seven
/// of the address.
pub fn link_address(alloc: Global, binding: u8, address: &[u8]) -> Result<Vec<u8>, AllocError>
    ensures { IfOk result (λ bytes. bytes.items ≡ link_address binding address.now) }
{
    address
        .iter()
        .map(|byte| link_byte(binding, *byte))
        .collect(alloc)
}

/// A byte of an address on a bus of a binding as Linux has it.
fn link_byte(binding: u8, byte: u8) -> u8
    ensures { result ≡ link_byte binding byte }
{
    if binding == SMBUS { byte / 2 } else { byte }
}

/// The line of each of so many endpoint IDs.
fn address_lines(
    alloc: Global,
    front: &str,
    device: &str,
    address: &[u8],
    name: &str,
    first: Eid,
    size: u8,
) -> Result<String, AllocError>
    ensures { IfOk result (λ text. string_bytes text ≡ flat_map (neighbor_line front.now device.now address.now name.now) (range_with_len first.value size)) }
{
    let mut text = String::new(alloc);
    for place in 0..size {
        let eid = u16::from(first.value) + u16::from(place);
        text.push_str(&neighbor_line(alloc, front, device, address, name, eid)?)?;
    }
    Ok(text)
}

fn neighbor_line(
    alloc: Global,
    front: &str,
    device: &str,
    address: &[u8],
    name: &str,
    eid: u16,
) -> Result<String, AllocError>
    ensures { IfOk result (λ text. string_bytes text ≡ neighbor_line front.now device.now address.now name.now eid) }
{
    let command = neighbor_command(alloc, device, address, name, eid)?;
    format!(in alloc; "{front}{command}")
}

fn neighbor_command(
    alloc: Global,
    device: &str,
    address: &[u8],
    name: &str,
    eid: u16,
) -> Result<String, AllocError>
    ensures { IfOk result (λ text. string_bytes text ≡ neighbor_command device.now address.now name.now eid) }
{
    let digits = hex_list(alloc, ":", address)?;
    format!(in alloc; "mctp neigh add {eid} dev {device} lladdr 0x{digits} || true # of {name}\n")
}

/// The device of a row's bus.
pub fn device_on<'a>(devices: &[&'a str], bus: Option<usize>) -> &'a str
    ensures { result.now ≡ device_on (map (λ d. d.now) devices.now) bus }
{
    match bus {
        Some(bus) => device_at(devices, bus),
        None => "-",
    }
}

/// The device at an index, a dash beyond the list.
pub fn device_at<'a>(devices: &[&'a str], bus: usize) -> &'a str
    ensures { result.now ≡ device_at (map (λ d. d.now) devices.now) bus }
{
    match devices.get(bus) {
        Some(device) => *device,
        None => "-",
    }
}
