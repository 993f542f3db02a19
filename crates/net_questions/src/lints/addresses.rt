//! H20 to H23: addresses, and the transmission unit, by what the binding of a bus carries.
ghost use Rattle.std.specs.Prelude.{◌≡◌, ◌≢◌, ◌⊎◌, ℕ, ◌%◌, ◌/◌, ◌↔◌, IsTrue};
ghost use Rattle.net_questions.specs.Addresses.{HasSevenBits, IsOddAddress, HasOddAddress, IsOddPort, IsForeignLength, IsForeignAddress, HasForeignAddress, IsForeignPort, IsPastByteCount, HasUncarriedUnit, IsByItsBit, DifferInBit0, HaveSevenBits, HaveOneSevenBits, HasItsSevenBits, HaveSharedSevenBits, ShareSevenBits};

use crate::lints::buses::bus_at;
use crate::lints::ports::is_earlier;
use net_tables::lookup::port_at;
use plan_values::{Plan, Port};

/// The physical transport binding identifier of SMBus and I2C (DSP0239).
const SMBUS: u8 = 1;
/// The physical transport binding identifier of PCIe VDM (DSP0239).
const PCIE: u8 = 2;
/// The physical transport binding identifier of I3C (DSP0239).
const I3C: u8 = 6;

/// The most payload bytes of a packet over SMBus and I2C (DSP0237): its byte count, 255 at most, counts the source's
/// address and the MCTP header too.
const MOST_SMBUS_PAYLOAD: u16 = 250;

/// Whether an address of one byte is seven bits on a bus of the binding, in bits 7 to 1.
fn has_seven_bits(binding: u8) -> bool
    ensures { IsTrue result ↔ HasSevenBits binding }
{
    binding == SMBUS || binding == I3C
}

/// Whether the address of a port is odd where bit 0 is no part of it.
pub fn is_odd_port(plan: &Plan, node: usize, port: usize) -> bool
    ensures { IsTrue result ↔ IsOddPort plan.now node port }
{
    match port_at(plan, node, port) {
        Some(port) => has_odd_address(plan, port),
        None => false,
    }
}

fn has_odd_address(plan: &Plan, port: &Port) -> bool
    ensures { IsTrue result ↔ HasOddAddress plan.now port.now }
{
    match bus_at(plan, port.bus) {
        Some(bus) => is_odd_address(bus.binding, &port.address),
        None => false,
    }
}

fn is_odd_address(binding: u8, address: &[u8]) -> bool
    ensures { IsTrue result ↔ IsOddAddress binding address.now }
{
    match address {
        [byte] => is_odd_on(binding, *byte),
        _ => false,
    }
}

fn is_odd_on(binding: u8, byte: u8) -> bool
    ensures { IsTrue result ↔ (HasSevenBits binding × (byte % 2 ≡ 1)) }
{
    has_seven_bits(binding) && byte % 2 == 1
}

/// Whether the address of a port has a length that addresses on its bus don't have.
pub fn is_foreign_port(plan: &Plan, node: usize, port: usize) -> bool
    ensures { IsTrue result ↔ IsForeignPort plan.now node port }
{
    match port_at(plan, node, port) {
        Some(port) => has_foreign_address(plan, port),
        None => false,
    }
}

fn has_foreign_address(plan: &Plan, port: &Port) -> bool
    ensures { IsTrue result ↔ HasForeignAddress plan.now port.now }
{
    match bus_at(plan, port.bus) {
        Some(bus) => is_foreign_address(bus.binding, &port.address),
        None => false,
    }
}

fn is_foreign_address(binding: u8, address: &[u8]) -> bool
    ensures { IsTrue result ↔ IsForeignAddress binding address.now }
{
    !address.is_empty() && is_foreign_length(binding, address.len())
}

fn is_foreign_length(binding: u8, bytes: usize) -> bool
    ensures { IsTrue result ↔ IsForeignLength binding bytes }
{
    match binding {
        SMBUS => bytes != 1,
        PCIE => bytes != 2,
        I3C => bytes != 1 && bytes != 6,
        _ => false,
    }
}

/// Whether a bus can't carry a payload of the plan's transmission unit.
pub fn has_uncarried_unit(plan: &Plan, bus: usize) -> bool
    ensures { IsTrue result ↔ HasUncarriedUnit plan.now bus }
{
    match bus_at(plan, bus) {
        Some(bus) => is_past_byte_count(bus.binding, plan.unit),
        None => false,
    }
}

fn is_past_byte_count(binding: u8, unit: u16) -> bool
    ensures { IsTrue result ↔ IsPastByteCount binding unit }
{
    binding == SMBUS && unit > MOST_SMBUS_PAYLOAD
}

/// Whether a port and a later one on its bus have addresses that differ in bit 0 alone, where it is no part of them.
pub fn share_seven_bits(
    plan: &Plan,
    node: usize,
    port: usize,
    other: usize,
    other_port: usize,
) -> bool
    ensures { IsTrue result ↔ ShareSevenBits plan.now node port other other_port }
{
    is_earlier(node, port, other, other_port)
        && have_shared_seven_bits(plan, node, port, other, other_port)
}

fn have_shared_seven_bits(
    plan: &Plan,
    node: usize,
    port: usize,
    other: usize,
    other_port: usize,
) -> bool
    ensures { IsTrue result ↔ HaveSharedSevenBits plan.now node port other other_port }
{
    match port_at(plan, node, port) {
        Some(port) => has_its_seven_bits(plan, port, other, other_port),
        None => false,
    }
}

fn has_its_seven_bits(plan: &Plan, port: &Port, other: usize, other_port: usize) -> bool
    ensures { IsTrue result ↔ HasItsSevenBits plan.now port.now other other_port }
{
    match port_at(plan, other, other_port) {
        Some(other) => have_one_seven_bits(plan, port, other),
        None => false,
    }
}

fn have_one_seven_bits(plan: &Plan, port: &Port, other: &Port) -> bool
    ensures { IsTrue result ↔ HaveOneSevenBits plan.now port.now other.now }
{
    match bus_at(plan, port.bus) {
        Some(bus) => have_seven_bits(bus.binding, port, other),
        None => false,
    }
}

fn have_seven_bits(binding: u8, port: &Port, other: &Port) -> bool
    ensures { IsTrue result ↔ HaveSevenBits binding port.now other.now }
{
    has_seven_bits(binding) && port.bus == other.bus && differ_in_their_bit(port, other)
}

fn differ_in_their_bit(port: &Port, other: &Port) -> bool
    ensures { IsTrue result ↔ DifferInBit0 port.now.address.items other.now.address.items }
{
    differ_in_bit_0(&port.address, &other.address)
}

fn differ_in_bit_0(address: &[u8], other: &[u8]) -> bool
    ensures { IsTrue result ↔ DifferInBit0 address.now other.now }
{
    match address {
        [byte] => is_by_its_bit(*byte, other),
        _ => false,
    }
}

fn is_by_its_bit(byte: u8, other: &[u8]) -> bool
    ensures { IsTrue result ↔ IsByItsBit byte other.now }
{
    match other {
        [other] => differs_in_bit_0(byte, *other),
        _ => false,
    }
}

fn differs_in_bit_0(byte: u8, other: u8) -> bool
    ensures { IsTrue result ↔ ((byte / 2 ≡ other / 2) × (byte ≢ other)) }
{
    byte / 2 == other / 2 && byte != other
}
