//! H01, H02 and H10: the ports on a bus, and their addresses.
ghost use Rattle.std.specs.Prelude.{◌≡◌, ◌↔◌, IsTrue};
ghost use Rattle.net_questions.specs.Lint.{IsEarlier, HaveOneAddress, HasItsAddress, HaveSharedAddress, ShareAddress, IsAddressedOn, HasAddressOn, HasAddresses, IsWithoutAddress, LacksAddress, HasOtherOn, IsOnlyPort, IsAloneOnBus};

use net_tables::lookup::{port_at, ports_at};
use plan_values::{Plan, Port};

/// Whether a port and a later one have one address on one bus.
pub fn share_address(plan: &Plan, node: usize, port: usize, other: usize, other_port: usize) -> bool
    ensures { IsTrue result ↔ ShareAddress plan.now node port other other_port }
{
    is_earlier(node, port, other, other_port)
        && have_shared_address(plan, node, port, other, other_port)
}

/// Whether two ports have one address on one bus.
fn have_shared_address(
    plan: &Plan,
    node: usize,
    port: usize,
    other: usize,
    other_port: usize,
) -> bool
    ensures { IsTrue result ↔ HaveSharedAddress plan.now node port other other_port }
{
    match port_at(plan, node, port) {
        Some(port) => has_its_address(plan, port, other, other_port),
        None => false,
    }
}

/// Whether a node's port comes before another's in the plan.
pub fn is_earlier(node: usize, port: usize, other: usize, other_port: usize) -> bool
    ensures { IsTrue result ↔ IsEarlier node port other other_port }
{
    node < other || (node == other && port < other_port)
}

/// Whether a node's port has the address of this one, on its bus.
fn has_its_address(plan: &Plan, port: &Port, other: usize, other_port: usize) -> bool
    ensures { IsTrue result ↔ HasItsAddress plan.now port.now other other_port }
{
    match port_at(plan, other, other_port) {
        Some(other) => have_one_address(port, other),
        None => false,
    }
}

/// Whether two ports are on one bus and have one address.
fn have_one_address(port: &Port, other: &Port) -> bool
    ensures { IsTrue result ↔ HaveOneAddress port.now other.now }
{
    port.bus == other.bus && have_same_bytes(port, other) && !port.address.is_empty()
}

/// Whether two ports' addresses are the same bytes.
fn have_same_bytes(port: &Port, other: &Port) -> bool
    ensures { IsTrue result ↔ (port.now.address.items ≡ other.now.address.items) }
{
    port.address.as_slice() == other.address.as_slice()
}

/// Whether a port has no address, and another on its bus has one.
pub fn lacks_address(plan: &Plan, node: usize, port: usize) -> bool
    ensures { IsTrue result ↔ LacksAddress plan.now node port }
{
    match port_at(plan, node, port) {
        Some(port) => is_without_address(plan, port),
        None => false,
    }
}

/// Whether the port has no address, and another on its bus has one.
fn is_without_address(plan: &Plan, port: &Port) -> bool
    ensures { IsTrue result ↔ IsWithoutAddress plan.now port.now }
{
    port.address.is_empty() && has_addresses(plan, port.bus)
}

/// Whether a port on the bus has an address.
fn has_addresses(plan: &Plan, bus: usize) -> bool
    ensures { IsTrue result ↔ HasAddresses plan.now bus }
{
    for node in 0..plan.nodes.len() {
        if has_address_on(plan, node, bus) {
            return true;
        }
    }
    false
}

/// Whether one of the node's ports on the bus has an address.
fn has_address_on(plan: &Plan, node: usize, bus: usize) -> bool
    ensures { IsTrue result ↔ HasAddressOn plan.now bus node }
{
    let ports = ports_at(plan, node);
    for port in ports {
        if is_addressed_on(port, bus) {
            return true;
        }
    }
    false
}

/// Whether the port is on the bus and has an address.
fn is_addressed_on(port: &Port, bus: usize) -> bool
    ensures { IsTrue result ↔ IsAddressedOn bus port.now }
{
    port.bus == bus && !port.address.is_empty()
}

/// Whether no other port is on the bus of a port.
pub fn is_alone_on_bus(plan: &Plan, node: usize, port: usize) -> bool
    ensures { IsTrue result ↔ IsAloneOnBus plan.now node port }
{
    match port_at(plan, node, port) {
        Some(found) => is_alone(plan, found.bus, node, port),
        None => false,
    }
}

/// Whether no other port than this one is on the bus.
fn is_alone(plan: &Plan, bus: usize, node: usize, port: usize) -> bool
    ensures { IsTrue result ↔ IsOnlyPort plan.now bus node port }
{
    for other in 0..plan.nodes.len() {
        if has_other_on(plan, other, bus, node, port) {
            return false;
        }
    }
    true
}

/// Whether one of a node's ports is on the bus, and is not this one.
fn has_other_on(plan: &Plan, other: usize, bus: usize, node: usize, port: usize) -> bool
    ensures { IsTrue result ↔ HasOtherOn plan.now bus other node port }
{
    let ports = ports_at(plan, other);
    for (index, found) in ports.iter().enumerate() {
        if is_other_on(found.bus, bus, (other, index), (node, port)) {
            return true;
        }
    }
    false
}

/// Whether a port on the one bus is on the other, and is not this one. Ports are told by their nodes and places.
fn is_other_on(found: usize, bus: usize, candidate: (usize, usize), port: (usize, usize)) -> bool
    ensures { IsTrue result ↔ (found ≡ bus) × ¬ ((candidate.0 ≡ port.0) × (candidate.1 ≡ port.1)) }
{
    found == bus && (candidate.0 != port.0 || candidate.1 != port.1)
}
