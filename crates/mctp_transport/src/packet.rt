//! A packet: a header of four bytes and a payload (DSP0236, section 8.1).
ghost use Rattle.std.specs.Prelude.{◌≡◌, ◌<◌, ◌≤◌, length};
ghost use Rattle.arrayvec.specs.ArrayVec.{array_vec_len};

use crate::address::{Eid, Key, Reserved, Seq, Tag};
use crate::packet_error::PacketError;
use arrayvec::ArrayVec;

/// The bytes of a header.
pub const HEADER_LENGTH: usize = 4;

/// The baseline transmission unit: the most payload bytes of a packet where no larger unit is agreed on (DSP0236,
/// "Packet payload and transmission unit sizes").
pub const BASELINE_UNIT: usize = 64;

/// The largest transmission unit, in payload bytes.
pub const MAX_UNIT: usize = 1024;

/// A packet's header of four bytes (DSP0236, section 8.1): byte 0 has the reserved bits (7 to 4) and the header
/// version, which is 1 and not kept; byte 1 is the destination, byte 2 the source; byte 3 has SOM (bit 7), EOM (6), the
/// sequence number (5 and 4), the tag owner (3) and the tag (2 to 0).
#[derive(Clone, Copy, Debug, PartialEq, Eq)]
pub struct Header {
    /// Byte 0, bits 7 to 4, as they were read.
    pub reserved: Reserved,
    /// Byte 1: the endpoint ID of the receiver.
    pub destination: Eid,
    /// Byte 2: the endpoint ID of the sender.
    pub source: Eid,
    /// Byte 3, bit 7: start of message.
    pub som: bool,
    /// Byte 3, bit 6: end of message.
    pub eom: bool,
    /// Byte 3, bits 5 and 4: the sequence number, which goes up by one with each packet of a message.
    pub number: Seq,
    /// Byte 3, bit 3: whether the source owns the tag: set in a request, clear in its response.
    pub owner: bool,
    /// Byte 3, bits 2 to 0: the message tag.
    pub tag: Tag,
}

/// A packet whose payload of 1 to 1024 bytes is borrowed from the bytes that it was read from.
///
/// How long a payload may be depends on the transmission unit under which packets are exchanged, from 64 to 1024
/// bytes. A packet doesn't carry it, so only the reading is told it: `read` is for the baseline unit, `read_within` for
/// any. `len` and `put` are those of a packet of any unit.
#[derive(Clone, Copy, Debug)]
pub struct PacketView<'a> {
    /// The first four bytes.
    pub header: Header,
    /// The bytes from byte 4 on: 1 to 1024 of the message.
    pub payload: &'a [u8],
    ghost some: { 0 < length payload.now },
    ghost most: { length payload.now ≤ 1024 },
}

impl<'a> PacketView<'a> {
    ghost use Rattle.std.specs.Prelude.{◌↔◌, ◌++◌, drop, IfOk, IsOkAnd, Err};
    ghost use Rattle.mctp_transport.{specs.PacketValues.{PacketValue, IsPacketValue, IsUnit, Spelled, packet_value_bytes, key_of}, specs.Packets.{packet_value, packet_value_of, key_value}, specs.Refusals.{IsShort, IsEmpty, IsLong, HasOtherVersion}};

    /// The packet of a header and a payload of 1 to 1024 bytes.
    pub fn new(header: Header, payload: &'a [u8]) -> PacketView<'a>
        requires some { 0 < length payload.now }
        requires most { length payload.now ≤ MAX_UNIT }
        ensures { packet_value_of result ≡ packet_value header payload.now }
    {
        PacketView { header, payload }
    }

    /// The packet that the bytes are, all of them, under the baseline transmission unit of 64 bytes.
    pub fn read(bytes: &'a [u8]) -> Result<PacketView<'a>, PacketError>
        ensures ok { IfOk result (λ packet. Spelled 64 (packet_value_of packet) bytes.now) }
        ensures all { (f : PacketValue) → Spelled 64 f bytes.now → IsOkAnd result (λ packet. packet_value_of packet ≡ f) }
        ensures short { (result ≡ Err PacketError.Short) ↔ IsShort bytes.now }
        ensures empty { (result ≡ Err PacketError.Empty) ↔ (¬ IsShort bytes.now × IsEmpty bytes.now) }
        ensures long { (result ≡ Err PacketError.Long) ↔ IsLong 64 bytes.now }
        ensures version { (result ≡ Err PacketError.Version)
            ↔ (¬ IsShort bytes.now × ¬ IsEmpty bytes.now × ¬ IsLong 64 bytes.now × HasOtherVersion bytes.now) }
    {
        PacketView::read_within(bytes, BASELINE_UNIT)
    }

    /// The packet that the bytes are, all of them, under a transmission unit of 64 to 1024 bytes. A payload over the
    /// unit is refused.
    pub fn read_within(bytes: &'a [u8], unit: usize) -> Result<PacketView<'a>, PacketError>
        requires { IsUnit unit }
        ensures ok { IfOk result (λ packet. Spelled unit (packet_value_of packet) bytes.now) }
        ensures all { (f : PacketValue) → Spelled unit f bytes.now → IsOkAnd result (λ packet. packet_value_of packet ≡ f) }
        ensures short { (result ≡ Err PacketError.Short) ↔ IsShort bytes.now }
        ensures empty { (result ≡ Err PacketError.Empty) ↔ (¬ IsShort bytes.now × IsEmpty bytes.now) }
        ensures long { (result ≡ Err PacketError.Long) ↔ IsLong unit bytes.now }
        ensures version { (result ≡ Err PacketError.Version)
            ↔ (¬ IsShort bytes.now × ¬ IsEmpty bytes.now × ¬ IsLong unit bytes.now × HasOtherVersion bytes.now) }
    {
        let [first, destination, source, flags, payload @ ..] = bytes else {
            return Err(PacketError::Short);
        };
        if payload.is_empty() {
            return Err(PacketError::Empty);
        }
        if payload.len() > unit {
            return Err(PacketError::Long);
        }
        if first % 16 != 1 {
            return Err(PacketError::Version);
        }
        let header = Header {
            reserved: Reserved::new(first / 16),
            destination: Eid::new(*destination),
            source: Eid::new(*source),
            som: flags / 128 != 0,
            eom: flags / 64 % 2 != 0,
            number: Seq::new(flags / 16 % 4),
            owner: flags / 8 % 2 != 0,
            tag: Tag::new(flags % 8),
        };
        Ok(PacketView { header, payload })
    }

    /// How many bytes the packet has, its header of 4 among them.
    pub fn len(&self) -> usize
        ensures lawful { IsPacketValue 1024 (packet_value_of self.now) }
        ensures count { result ≡ length (packet_value_bytes (packet_value_of self.now)) }
    {
        HEADER_LENGTH + self.payload.len()
    }

    /// Writes the packet's bytes at the front of `out`, leaves the rest of it as it was, and returns how many bytes it
    /// wrote. `out` has at least `len` bytes.
    pub fn put(&self, out: &mut [u8]) -> usize
        requires { length (packet_value_bytes (packet_value_of self.now)) ≤ length out.old }
        ensures lawful { IsPacketValue 1024 (packet_value_of self.now) }
        ensures count { result ≡ length (packet_value_bytes (packet_value_of self.now)) }
        ensures front { out.new ≡ packet_value_bytes (packet_value_of self.now) ++ drop result out.old }
    {
        let header = &self.header;
        out[0] = 16 * header.reserved.value + 1;
        out[1] = header.destination.value;
        out[2] = header.source.value;
        out[3] = 128 * u8::from(header.som)
            + 64 * u8::from(header.eom)
            + 16 * header.number.value
            + 8 * u8::from(header.owner)
            + header.tag.value;
        let len = self.len();
        out[HEADER_LENGTH..len].copy_from_slice(self.payload);
        len
    }

    /// The key of the packet's message.
    pub fn key(&self) -> Key
        ensures { key_value result ≡ key_of (packet_value_of self.now) }
    {
        Key {
            source: self.header.source,
            tag: self.header.tag,
            owner: self.header.owner,
        }
    }
}

/// A packet that holds its payload of 1 to 1024 bytes.
#[derive(Debug, Drop)]
pub struct Packet {
    /// The first four bytes.
    pub header: Header,
    /// The bytes from byte 4 on: 1 to 1024 of the message.
    pub payload: ArrayVec<u8, MAX_UNIT>,
    pub ghost some: { 0 < array_vec_len payload },
}

impl Packet {
    ghost use Rattle.mctp_transport.specs.Packets.{packet_value_of, owned_packet_value};

    /// The packet that a view shows, with its bytes.
    pub fn of(view: PacketView) -> Packet
        ensures { owned_packet_value result ≡ packet_value_of view.entry }
    {
        let mut payload = ArrayVec::new();
        let _ = payload.try_extend_from_slice(view.payload);
        Packet {
            header: view.header,
            payload,
        }
    }

    /// The packet, with its payload lent.
    pub fn view(&self) -> PacketView<'_>
        ensures { packet_value_of result ≡ owned_packet_value self.now }
    {
        PacketView {
            header: self.header,
            payload: self.payload.as_slice(),
        }
    }
}
