//! What the command `lint` prints.
ghost use Rattle.std.specs.Prelude.{◌≡◌, IfOk, string_bytes};
ghost use Rattle.plan_texts.specs.LineParts.{address_text, bus_text};
ghost use Rattle.question_texts.specs.FindingLines.{bus_of_port, address_of_port, node_finding, bus_finding, pair_finding, item_finding, port_finding, port_on_bus, shared_address_line, address_finding, port_of_node, bits_finding, finding_line, findings_text};

use net_questions::Finding;
use net_tables::lookup::{node_name, ports_at};
use plan_texts::{address_text, bus_text};
use plan_values::Plan;
use std::alloc::{AllocError, Global};

/// The findings, each in a line of its own.
pub fn lint_lines(alloc: Global, plan: &Plan, findings: &[Finding]) -> Result<String, AllocError>
    ensures { IfOk result (λ lines. string_bytes lines ≡ findings_text plan.now findings.now) }
{
    let mut lines = String::new(alloc);
    for finding in findings {
        lines.push_str(&finding_line(alloc, plan, finding)?)?;
    }
    Ok(lines)
}

/// The code of a finding, and whom it is about.
fn finding_line(alloc: Global, plan: &Plan, finding: &Finding) -> Result<String, AllocError>
    ensures { IfOk result (λ line. string_bytes line ≡ finding_line plan.now finding.now) }
{
    match *finding {
        Finding::SharedAddress {
            node,
            port,
            other,
            other_port,
        } => address_finding(alloc, plan, node, port, other, other_port),
        Finding::MissingAddress { node, port } => port_finding(alloc, "H02", plan, node, port),
        Finding::SharedTid { node, other } => {
            pair_finding(alloc, "H03", plan, node, "node", other)
        }
        Finding::MissingLocator { node } => node_finding(alloc, "H04", plan, node),
        Finding::SharedSensorId { node, record } => {
            item_finding(alloc, "H05", plan, node, "record", record)
        }
        Finding::OwnerHasNoWay { node, owner } => {
            pair_finding(alloc, "H06", plan, node, "owner", owner)
        }
        Finding::NoWayToOwner { node, owner } => {
            pair_finding(alloc, "H07", plan, node, "owner", owner)
        }
        Finding::IdleRow { node, row } => item_finding(alloc, "H08", plan, node, "row", row),
        Finding::PoolEidNotLedOn { node, eid } => {
            item_finding(alloc, "H09", plan, node, "eid", usize::from(eid.value))
        }
        Finding::LonePort { node, port } => port_finding(alloc, "H10", plan, node, port),
        Finding::EmptyReadableRange { node, record } => {
            item_finding(alloc, "H11", plan, node, "record", record)
        }
        Finding::Isolated { node } => node_finding(alloc, "H12", plan, node),
        Finding::ForeignMedia { bus } => bus_finding(alloc, "H13", plan, bus),
        Finding::ReservedBinding { bus } => bus_finding(alloc, "H14", plan, bus),
        Finding::ReservedAddress { node, port } => port_finding(alloc, "H15", plan, node, port),
        Finding::EmptyBus { bus } => bus_finding(alloc, "H16", plan, bus),
        Finding::CrossedThresholds { node, record } => {
            item_finding(alloc, "H17", plan, node, "record", record)
        }
        Finding::UnknownTerminusHandle { node, record } => {
            item_finding(alloc, "H18", plan, node, "record", record)
        }
        Finding::UncontainedEntity { node, record } => {
            item_finding(alloc, "H19", plan, node, "record", record)
        }
        Finding::OddAddress { node, port } => port_finding(alloc, "H20", plan, node, port),
        Finding::ForeignLength { node, port } => port_finding(alloc, "H21", plan, node, port),
        Finding::UncarriedUnit { bus } => bus_finding(alloc, "H22", plan, bus),
        Finding::SharedSevenBits {
            node,
            port,
            other,
            other_port,
        } => bits_finding(alloc, plan, node, port, other, other_port),
    }
}

fn node_finding(alloc: Global, code: &str, plan: &Plan, node: usize) -> Result<String, AllocError>
    ensures { IfOk result (λ line. string_bytes line ≡ node_finding code.now plan.now node) }
{
    let name = node_name(plan, node);
    format!(in alloc; "{code} node {name}\n")
}

fn bus_finding(alloc: Global, code: &str, plan: &Plan, bus: usize) -> Result<String, AllocError>
    ensures { IfOk result (λ line. string_bytes line ≡ bus_finding code.now plan.now bus) }
{
    let name = bus_text(plan, Some(bus));
    format!(in alloc; "{code} bus {name}\n")
}

/// The line of a node and another node; the word says what that one is.
fn pair_finding(
    alloc: Global,
    code: &str,
    plan: &Plan,
    node: usize,
    word: &str,
    other: usize,
) -> Result<String, AllocError>
    ensures { IfOk result (λ line. string_bytes line ≡ pair_finding code.now plan.now node word.now other) }
{
    let name = node_name(plan, node);
    let other = node_name(plan, other);
    format!(in alloc; "{code} node {name} {word} {other}\n")
}

/// The line of a node and a number; the word says what it counts.
fn item_finding(
    alloc: Global,
    code: &str,
    plan: &Plan,
    node: usize,
    word: &str,
    number: usize,
) -> Result<String, AllocError>
    ensures { IfOk result (λ line. string_bytes line ≡ item_finding code.now plan.now node word.now number) }
{
    let name = node_name(plan, node);
    format!(in alloc; "{code} node {name} {word} {number}\n")
}

/// The line of a port, with its bus.
fn port_finding(
    alloc: Global,
    code: &str,
    plan: &Plan,
    node: usize,
    port: usize,
) -> Result<String, AllocError>
    ensures { IfOk result (λ line. string_bytes line ≡ port_finding code.now plan.now node port) }
{
    let name = node_name(plan, node);
    let bus = bus_name_of_port(plan, node, port);
    format!(in alloc; "{code} node {name} port {port} bus {bus}\n")
}

/// The line of two ports, with the bus and the address that they have in common.
fn address_finding(
    alloc: Global,
    plan: &Plan,
    node: usize,
    port: usize,
    other: usize,
    other_port: usize,
) -> Result<String, AllocError>
    ensures { IfOk result (λ line. string_bytes line ≡ address_finding plan.now node port other other_port) }
{
    let name = node_name(plan, node);
    let bus = bus_name_of_port(plan, node, port);
    let address = address_of_port(alloc, plan, node, port)?;
    let other = node_name(plan, other);
    let port = port_on_bus(alloc, name, port, bus)?;
    shared_address_line(alloc, &port, &address, other, other_port)
}

/// The line of two ports and the bus that they have in common, each with its address.
fn bits_finding(
    alloc: Global,
    plan: &Plan,
    node: usize,
    port: usize,
    other: usize,
    other_port: usize,
) -> Result<String, AllocError>
    ensures { IfOk result (λ line. string_bytes line ≡ bits_finding plan.now node port other other_port) }
{
    let address = address_of_port(alloc, plan, node, port)?;
    let other_address = address_of_port(alloc, plan, other, other_port)?;
    let bus = bus_name_of_port(plan, node, port);
    let port = port_on_bus(alloc, node_name(plan, node), port, bus)?;
    let other = port_of_node(alloc, node_name(plan, other), other_port)?;
    format!(in alloc; "H23 {port} address {address} {other} address {other_address}\n")
}

/// A node's port.
fn port_of_node(alloc: Global, name: &str, port: usize) -> Result<String, AllocError>
    ensures { IfOk result (λ text. string_bytes text ≡ port_of_node name.now port) }
{
    format!(in alloc; "node {name} port {port}")
}

/// A node's port and its bus.
fn port_on_bus(alloc: Global, name: &str, port: usize, bus: &str) -> Result<String, AllocError>
    ensures { IfOk result (λ text. string_bytes text ≡ port_on_bus name.now port bus.now) }
{
    format!(in alloc; "node {name} port {port} bus {bus}")
}

/// A port, the address in hex that it shares with another node's port, and that one.
fn shared_address_line(
    alloc: Global,
    port: &str,
    address: &str,
    other: &str,
    other_port: usize,
) -> Result<String, AllocError>
    ensures { IfOk result (λ line. string_bytes line ≡ shared_address_line port.now address.now other.now other_port) }
{
    format!(in alloc; "H01 {port} address {address} node {other} port {other_port}\n")
}

/// The name of a port's bus, or a dash where there is none.
fn bus_name_of_port(plan: &Plan, node: usize, port: usize) -> &str
    ensures { result.now ≡ bus_text plan.now (bus_of_port plan.now node port) }
{
    bus_text(plan, bus_of_port(plan, node, port))
}

fn bus_of_port(plan: &Plan, node: usize, port: usize) -> Option<usize>
    ensures { result ≡ bus_of_port plan.now node port }
{
    let port = ports_at(plan, node).get(port)?;
    Some(port.bus)
}

/// A port's address in hex, or a dash where it is empty.
fn address_of_port(
    alloc: Global,
    plan: &Plan,
    node: usize,
    port: usize,
) -> Result<String, AllocError>
    ensures { IfOk result (λ text. string_bytes text ≡ address_text (address_of_port plan.now node port)) }
{
    let address = address_at(plan, node, port);
    address_text(alloc, address)
}

/// A port's address; empty where there is no such port.
fn address_at(plan: &Plan, node: usize, port: usize) -> &[u8]
    ensures { result.now ≡ address_of_port plan.now node port }
{
    ports_at(plan, node)
        .get(port)
        .map_or(&[], |port| port.address.as_slice())
}
