//! Capture files that are written: packets of MCTP of the second cooked link type, with times in nanoseconds.
ghost use Rattle.std.specs.Prelude.{◌≡◌, ◌≤◌, ◌++◌, ◌-◌, [], List, All, length, replicate, IfOk, OnOk};
ghost use Rattle.byteorder.specs.Endian.{big_bytes};
ghost use Rattle.bus_captures.{specs.Numbers.{number_bytes}, specs.Written.{CarriedValue, IsCarried, ReadsBack, carried_value, link_header, written_bytes, written_file}, specs.Values.{most_entries}};
ghost use Rattle.bus_captures.specs.declared.format.Order.TheVariants as order;

use crate::carried::CarriedPacket;
use byteorder::{BigEndian, ByteOrder, LittleEndian};
use std::alloc::{AllocError, Global};

/// The header of a file: its first number (nanoseconds, the lowest byte first), version 2.4, no zone, no accuracy,
/// records of at most 262,144 bytes, and link type 276.
const FILE_HEADER: [u8; 24] = [
    0x4d, 0x3c, 0xb2, 0xa1, 2, 0, 4, 0, 0, 0, 0, 0, 0, 0, 0, 0, 0, 0, 4, 0, 0x14, 1, 0, 0,
];

/// How many bytes Linux puts before a packet (LINKTYPE_LINUX_SLL2).
const LINK_HEADER_LENGTH: u32 = 20;

/// How many bytes of it are for a physical address.
const ADDRESS_LENGTH: usize = 8;

/// The protocol number of MCTP (Linux, ETH_P_MCTP).
const MCTP: u16 = 0x00fa;

/// The hardware type of MCTP (Linux, ARPHRD_MCTP).
const MCTP_HARDWARE: u16 = 290;

/// The packet type of what goes from somebody to somebody else (Linux, PACKET_OTHERHOST).
const OTHER_HOST: u8 = 3;

/// A capture file without any packet.
pub fn begin_file(alloc: Global) -> Result<Vec<u8>, AllocError>
    ensures { IfOk result (λ file. file.items ≡ written_file []) }
{
    Vec::from_slice(alloc, &FILE_HEADER)
}

/// Adds a packet at the end of a capture file.
pub fn add_packet(file: &mut Vec<u8>, packet: &CarriedPacket) -> Result<(), AllocError>
    ensures lawful { IsCarried (carried_value packet.now) }
    ensures bytes { OnOk result (file.new.items ≡ file.old.items ++ written_bytes (carried_value packet.now)) }
{
    let length = LINK_HEADER_LENGTH + packet.bytes.len() as u32;
    add_number(file, packet.seconds)?;
    add_number(file, packet.nanoseconds)?;
    add_number(file, length)?;
    add_number(file, length)?;
    add_link_header(file, packet)?;
    add(file, packet.bytes)?;
    Ok(())
}

/// Adds what Linux puts before a packet.
fn add_link_header(file: &mut Vec<u8>, packet: &CarriedPacket) -> Result<(), AllocError>
    ensures { OnOk result (file.new.items ≡ file.old.items ++ link_header (carried_value packet.now)) }
{
    add_short(file, MCTP)?;
    add_short(file, 0)?;
    add_interface(file, packet.interface)?;
    add_short(file, MCTP_HARDWARE)?;
    add(file, &[OTHER_HOST, packet.address.len() as u8])?;
    add(file, packet.address)?;
    add(file, zeros(ADDRESS_LENGTH - packet.address.len()))?;
    Ok(())
}

/// So many bytes that are 0.
fn zeros(count: usize) -> &'static [u8]
    requires { count ≤ ADDRESS_LENGTH }
    ensures { result.now ≡ replicate count 0 }
{
    &[0; ADDRESS_LENGTH][..count]
}

/// Adds a number of four bytes, its lowest byte first.
fn add_number(file: &mut Vec<u8>, number: u32) -> Result<(), AllocError>
    ensures { OnOk result (file.new.items ≡ file.old.items ++ number_bytes order.Little number) }
{
    let mut bytes = [0; 4];
    LittleEndian::write_u32(&mut bytes, number);
    add(file, &bytes)
}

/// Adds the number of an interface, its highest byte first.
fn add_interface(file: &mut Vec<u8>, interface: u32) -> Result<(), AllocError>
    ensures { OnOk result (file.new.items ≡ file.old.items ++ big_bytes 4 interface) }
{
    let mut bytes = [0; 4];
    BigEndian::write_u32(&mut bytes, interface);
    add(file, &bytes)
}

/// Adds a number of two bytes, its highest byte first.
fn add_short(file: &mut Vec<u8>, number: u16) -> Result<(), AllocError>
    ensures { OnOk result (file.new.items ≡ file.old.items ++ big_bytes 2 number) }
{
    let mut bytes = [0; 2];
    BigEndian::write_u16(&mut bytes, number);
    add(file, &bytes)
}

/// Adds bytes.
fn add(file: &mut Vec<u8>, bytes: &[u8]) -> Result<(), AllocError>
    ensures { OnOk result (file.new.items ≡ file.old.items ++ bytes.now) }
{
    file.extend_from_slice(bytes)
}

/// The packets of a file that is written are those that are read back, up to the most that are read.
pub fn written_reads_back()
    ensures { (ps : List CarriedValue) → All IsCarried ps → length ps ≤ most_entries → ReadsBack ps }
{}
