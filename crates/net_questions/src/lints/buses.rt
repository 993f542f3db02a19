//! H13 to H16: buses, what DSP0239 says of them, and addresses on them that are reserved.
ghost use Rattle.std.specs.Prelude.{◌≡◌, ◌≢◌, ◌≤◌, ◌↔◌, ℕ, IsTrue, Some, slice_get, option_map, ◌∷◌, []};
ghost use Rattle.net_questions.specs.Buses.{IsMediaOf, IsMediaOfAnother, HasForeignMedia, HasReservedBinding, HasPortOn, HasNoPorts, IsEmptyBus, IsReservedOnI2c, IsReservedOnI3c, IsReservedOn, IsReservedAddress, HasReservedAddress, IsReservedPort};

use net_tables::lookup::{port_at, ports_at};
use plan_values::{Bus, Plan, Port};

/// The physical transport binding identifier of SMBus and I2C (DSP0239).
const I2C: u8 = 1;
/// The physical transport binding identifier of I3C (DSP0239).
const I3C: u8 = 6;

/// Whether a bus has media that another binding has, and not its own.
pub fn has_foreign_media(plan: &Plan, bus: usize) -> bool
    ensures { IsTrue result ↔ HasForeignMedia plan.now bus }
{
    match bus_at(plan, bus) {
        Some(bus) => is_media_of_another(bus.binding, bus.media),
        None => false,
    }
}

/// Whether the media are those of another binding. Of bindings that are not listed nothing is said.
fn is_media_of_another(binding: u8, media: u8) -> bool
    ensures { IsTrue result ↔ IsMediaOfAnother binding media }
{
    match binding_of(media) {
        Some(other) => is_another(other, binding),
        None => false,
    }
}

/// Whether a binding is one that is listed, and the other isn't the same.
fn is_another(other: u8, binding: u8) -> bool
    ensures { IsTrue result ↔ (1 ≤ binding) × (binding ≤ 5) × (other ≢ binding) }
{
    1 <= binding && binding <= 5 && other != binding
}

/// The physical transport binding identifier of a physical media identifier (DSP0239), where it is sure: SMBus and I2C,
/// PCIe, USB, KCS and serial lines.
fn binding_of(media: u8) -> Option<u8>
    ensures { (b : ℕ) → (result ≡ Some b) ↔ IsMediaOf b media }
{
    match media {
        1..=6 => Some(1),
        8..=13 => Some(2),
        16..=18 => Some(3),
        32..=33 => Some(4),
        34..=36 => Some(5),
        _ => None,
    }
}

/// Whether a bus has the reserved binding 0.
pub fn has_reserved_binding(plan: &Plan, bus: usize) -> bool
    ensures { IsTrue result ↔ HasReservedBinding plan.now bus }
{
    match bus_at(plan, bus) {
        Some(bus) => is_reserved_binding(bus.binding),
        None => false,
    }
}

fn is_reserved_binding(binding: u8) -> bool
    ensures { IsTrue result ↔ (binding ≡ 0) }
{
    binding == 0
}

/// Whether no node has a port on a bus.
pub fn is_empty_bus(plan: &Plan, bus: usize) -> bool
    ensures { IsTrue result ↔ IsEmptyBus plan.now bus }
{
    match bus_at(plan, bus) {
        Some(_) => has_no_ports(plan, bus),
        None => false,
    }
}

/// Whether no port is on the bus.
fn has_no_ports(plan: &Plan, bus: usize) -> bool
    ensures { IsTrue result ↔ HasNoPorts plan.now bus }
{
    for node in 0..plan.nodes.len() {
        if has_port_on(plan, node, bus) {
            return false;
        }
    }
    true
}

/// Whether one of a node's ports is on the bus.
fn has_port_on(plan: &Plan, node: usize, bus: usize) -> bool
    ensures { IsTrue result ↔ HasPortOn plan.now bus node }
{
    let ports = ports_at(plan, node);
    for port in ports {
        if is_on(port, bus) {
            return true;
        }
    }
    false
}

fn is_on(port: &Port, bus: usize) -> bool
    ensures { IsTrue result ↔ (port.now.bus ≡ bus) }
{
    port.bus == bus
}

/// Whether the address of a port is reserved on its bus.
pub fn is_reserved_port(plan: &Plan, node: usize, port: usize) -> bool
    ensures { IsTrue result ↔ IsReservedPort plan.now node port }
{
    match port_at(plan, node, port) {
        Some(port) => has_reserved_address(plan, port),
        None => false,
    }
}

fn has_reserved_address(plan: &Plan, port: &Port) -> bool
    ensures { IsTrue result ↔ HasReservedAddress plan.now port.now }
{
    match bus_at(plan, port.bus) {
        Some(bus) => is_reserved_address(bus.binding, &port.address),
        None => false,
    }
}

/// Whether an address is reserved on a bus of the binding.
fn is_reserved_address(binding: u8, address: &[u8]) -> bool
    ensures { IsTrue result ↔ IsReservedAddress binding address.now }
{
    match address {
        [byte] => is_reserved_on(binding, *byte),
        _ => false,
    }
}

/// Whether the seven bits of an address, bits 7 to 1 of the byte, are reserved on a bus of the binding.
fn is_reserved_on(binding: u8, byte: u8) -> bool
    ensures { IsTrue result ↔ IsReservedOn binding byte }
{
    let bits = byte / 2;
    (binding == I2C && is_reserved_on_i2c(bits)) || (binding == I3C && is_reserved_on_i3c(bits))
}

fn is_reserved_on_i2c(bits: u8) -> bool
    ensures { IsTrue result ↔ IsReservedOnI2c bits }
{
    bits < 8 || bits >= 120
}

/// Whether seven bits are restricted on I3C: the broadcast address is 126, and what differs from it in one bit is kept
/// free.
fn is_reserved_on_i3c(bits: u8) -> bool
    ensures { IsTrue result ↔ IsReservedOnI3c bits }
{
    match bits {
        0..=7 | 62 | 94 | 110 | 118 | 122 | 124 | 126 | 127 => true,
        _ => false,
    }
}

/// A bus of the plan.
pub fn bus_at(plan: &Plan, bus: usize) -> Option<&Bus>
    ensures { option_map (λ b. b.now) result ≡ slice_get plan.now.buses.items bus }
{
    plan.buses.get(bus)
}
