//! What stands before the packet in a record of a capture file.
ghost use Rattle.std.specs.Prelude.{◌≡◌, ◌≤◌, length};
ghost use Rattle.bus_captures.specs.Links.{link_of, link_length, sent_or_received, kind_of, direction_of, index_of, IsReadOf};

use crate::capture::{Direction, Kind};
use crate::smbus::{framed_only, unframed};
use byteorder::{BigEndian, ByteOrder};

/// The link types that are read (tcpdump.org, "Link-layer header types").
#[derive(Clone, Copy, Debug, PartialEq, Eq)]
pub enum Link {
    /// 147, LINKTYPE_USER0: the packet alone.
    Raw,
    /// 291: the packet alone.
    Mctp,
    /// 209, LINKTYPE_I2C_LINUX: 5 bytes of Linux before a frame of SMBus.
    I2c,
    /// 113, LINKTYPE_LINUX_SLL: 16 bytes of Linux before the packet.
    Cooked,
    /// 276, LINKTYPE_LINUX_SLL2: 20 bytes of Linux before the packet.
    CookedAgain,
}

/// The protocol number of MCTP (Linux, ETH_P_MCTP).
const MCTP: u16 = 0x00fa;

/// A byte of the number of an I2C bus from this on is of an event, and no frame.
const EVENT: u8 = 0x80;

/// The packet type of what the capturing side sent (Linux, PACKET_OUTGOING).
const OUTGOING: u16 = 4;

impl Link {
    /// The link type of this number.
    pub fn of(number: u32) -> Option<Link>
        ensures { result ≡ link_of number }
    {
        match number {
            147 => Some(Link::Raw),
            291 => Some(Link::Mctp),
            209 => Some(Link::I2c),
            113 => Some(Link::Cooked),
            276 => Some(Link::CookedAgain),
            _ => None,
        }
    }

    /// How many bytes stand before the packet.
    pub fn length(self) -> usize
        ensures { result ≡ link_length self }
    {
        match self {
            Link::Raw | Link::Mctp => 0,
            Link::I2c => 5,
            Link::Cooked => 16,
            Link::CookedAgain => 20,
        }
    }

    /// Which way the bytes of a record went.
    pub fn direction(self, bytes: &[u8]) -> Option<Direction>
        requires { link_length self ≤ length bytes.now }
        ensures { result ≡ direction_of self bytes.now }
    {
        match self {
            Link::Raw | Link::Mctp | Link::I2c => None,
            Link::Cooked => Some(sent_or_received(BigEndian::read_u16(bytes))),
            Link::CookedAgain => Some(sent_or_received(u16::from(bytes[10]))),
        }
    }

    /// Linux' number of the interface, or of the I2C bus, over which the bytes of a record went.
    pub fn index(self, bytes: &[u8]) -> Option<u32>
        requires { link_length self ≤ length bytes.now }
        ensures { result ≡ index_of self bytes.now }
    {
        match self {
            Link::Raw | Link::Mctp | Link::Cooked => None,
            Link::I2c => Some(u32::from(bytes[0] % EVENT)),
            Link::CookedAgain => Some(BigEndian::read_u32(&bytes[4..])),
        }
    }

    /// What the bytes of a record are, and what is read of them.
    pub fn split(self, bytes: &[u8]) -> (Kind, &[u8])
        requires { link_length self ≤ length bytes.now }
        ensures { IsReadOf self bytes.now result.0 result.1.now }
    {
        match self {
            Link::Mctp => (Kind::Packet, bytes),
            Link::Raw => unframed(bytes),
            Link::I2c => framed_only(&bytes[5..]),
            Link::Cooked => (kind_of(BigEndian::read_u16(&bytes[14..])), &bytes[16..]),
            Link::CookedAgain => (kind_of(BigEndian::read_u16(bytes)), &bytes[20..]),
        }
    }
}

/// Which way what has this packet type went.
fn sent_or_received(packet_type: u16) -> Direction
    ensures { result ≡ sent_or_received packet_type }
{
    if packet_type == OUTGOING {
        Direction::Sent
    } else {
        Direction::Received
    }
}

/// What is of this protocol.
fn kind_of(protocol: u16) -> Kind
    ensures { result ≡ kind_of protocol }
{
    if protocol == MCTP {
        Kind::Packet
    } else {
        Kind::Other(protocol)
    }
}
