//! Blocks of a capture file.
ghost use Rattle.std.specs.Prelude.{◌≡◌, ◌≢◌, ◌↔◌, ◌++◌, ◌∷◌, ℕ, List, Some, true, IsTrue, MatchOption, option_map};
ghost use Rattle.bus_captures.{specs.Blocks.{Block as FileBlock, IsBlock, IsNext, BeginsSection, BeginsBlocks, BeginsWith, block_bytes, enhanced_packet, is_interface, is_packet, is_section, kept_by, packet_in, simple_packet}, specs.BlockValues.{block_value, packet_value}, specs.InterfaceValues.{interface_value}};

use crate::format::{Order, number_at, split_number, split_short};
use crate::interfaces::Described;
use crate::sort::skip;

/// The kinds of blocks that are read.
const SECTION: u32 = 0x0a0d_0d0a;

const INTERFACE: u32 = 1;

const SIMPLE: u32 = 3;

const ENHANCED: u32 = 6;

/// The number by which a section's header tells its byte order, and the version that is read.
const MAGIC: u32 = 0x1a2b_3c4d;

const VERSION: u16 = 1;

/// How many bytes of a block are not its body: its kind, and twice its length.
const AROUND: usize = 12;

/// How many bytes stand before the packet in an enhanced block, and in a simple one.
const BEFORE_ENHANCED: usize = 20;

const BEFORE_SIMPLE: usize = 4;

/// One block of a file.
#[derive(Clone, Copy, Debug)]
pub struct Block<'b> {
    pub order: Order,
    pub kind: u32,
    pub body: &'b [u8],
}

/// What a block has of a packet.
#[derive(Clone, Copy, Debug)]
pub struct Packet<'b> {
    /// The number of its interface in the section.
    pub interface: u32,
    pub stamp: Option<u64>,
    /// How many bytes the packet had.
    pub original: u32,
    pub kept: &'b [u8],
}

/// The block at the front of the bytes, in a section of a byte order, or before any, and the bytes after it.
pub fn next_block(section: Option<Order>, bytes: &[u8]) -> Option<(Block<'_>, &[u8])>
    ensures { MatchOption result ((b : FileBlock) → ¬ BeginsWith section bytes.now b)
        (λ r. IsBlock (block_value r.0) × IsNext section (block_value r.0) × (bytes.now ≡ block_bytes (block_value r.0) ++ r.1.now)) }
{
    let order = order_at(section, bytes)?;
    let (block, rest) = split_block(order, bytes)?;
    if block.is_next(section) {
        Some((block, rest))
    } else {
        None
    }
}

/// The byte order that a block at the front of the bytes has: that of the section, or its own where it begins one.
fn order_at(section: Option<Order>, bytes: &[u8]) -> Option<Order>
    ensures { (b : FileBlock) → BeginsWith section bytes.now b → result ≡ Some b.order }
{
    let Some(behind) = behind_section_kind(bytes) else {
        return section;
    };
    match behind.get(4).copied() {
        Some(0x4d) => Some(Order::Little),
        Some(0x1a) => Some(Order::Big),
        _ => None,
    }
}

/// What stands behind the kind of a section's header, which is the same in either byte order.
pub fn behind_section_kind(bytes: &[u8]) -> Option<&[u8]>
    ensures { MatchOption result (¬ BeginsBlocks bytes.now) (λ behind. bytes.now ≡ 10 ∷ 13 ∷ 13 ∷ 10 ∷ behind.now) }
{
    match bytes {
        [0x0a, 0x0d, 0x0d, 0x0a, behind @ ..] => Some(behind),
        _ => None,
    }
}

/// The block of a byte order at the front of the bytes, and the bytes after it.
fn split_block(order: Order, bytes: &[u8]) -> Option<(Block<'_>, &[u8])>
    ensures { MatchOption result ((b : FileBlock) (rest : List ℕ) → IsBlock b → b.order ≡ order → bytes.now ≢ block_bytes b ++ rest)
        (λ r. IsBlock (block_value r.0) × (r.0.order ≡ order) × (bytes.now ≡ block_bytes (block_value r.0) ++ r.1.now)) }
{
    let (kind, left) = split_number(order, bytes)?;
    let (length, left) = split_number(order, left)?;
    let count = (length as usize).checked_sub(AROUND)?;
    if count % 4 != 0 || left.len() < count {
        return None;
    }
    let (body, left) = left.split_at(count);
    let (again, rest) = split_number(order, left)?;
    if again != length {
        return None;
    }
    Some((Block { order, kind, body }, rest))
}

impl<'b> Block<'b> {
    /// Whether it is the header of a section.
    pub fn is_section(&self) -> bool
        ensures { result ≡ is_section (block_value self.now) }
    {
        self.kind == SECTION
    }

    /// Whether it describes an interface.
    pub fn is_interface(&self) -> bool
        ensures { result ≡ is_interface (block_value self.now) }
    {
        self.kind == INTERFACE
    }

    /// Whether it has a packet.
    pub fn is_packet(&self) -> bool
        ensures { result ≡ is_packet (block_value self.now) }
    {
        self.kind == ENHANCED || self.kind == SIMPLE
    }

    /// Whether it may follow in a section of a byte order, or begin one.
    fn is_next(&self, section: Option<Order>) -> bool
        ensures { IsTrue result ↔ IsNext section (block_value self.now) }
    {
        if self.is_section() {
            return self.begins_section();
        }
        section == Some(self.order) && (!self.is_interface() || self.body.len() >= 8)
    }

    /// Whether its body is that of a section's header.
    fn begins_section(&self) -> bool
        requires { is_section (block_value self.now) ≡ true }
        ensures { IsTrue result ↔ BeginsSection (block_value self.now) }
    {
        let Some((magic, left)) = split_number(self.order, self.body) else {
            return false;
        };
        let Some((version, left)) = split_short(self.order, left) else {
            return false;
        };
        magic == MAGIC && version == VERSION && left.len() >= 10
    }

    /// What it has of a packet, where this is the first interface of its section.
    pub fn packet(&self, first: Option<&Described>) -> Option<Packet<'b>>
        ensures { option_map packet_value result ≡ packet_in (option_map (λ d. interface_value d.now) first.entry) (block_value self.now) }
    {
        if self.kind == ENHANCED {
            self.enhanced_packet()
        } else {
            self.simple_packet(first)
        }
    }

    fn enhanced_packet(&self) -> Option<Packet<'b>>
        ensures { option_map packet_value result ≡ enhanced_packet (block_value self.now) }
    {
        if self.body.len() < BEFORE_ENHANCED {
            return None;
        }
        let count = number_at(self.order, 12, self.body) as usize;
        let high = u64::from(number_at(self.order, 4, self.body));
        let low = u64::from(number_at(self.order, 8, self.body));
        Some(Packet {
            interface: number_at(self.order, 0, self.body),
            stamp: Some(high << 32 | low),
            original: number_at(self.order, 16, self.body),
            kept: skip(self.body, BEFORE_ENHANCED).get(..count)?,
        })
    }

    fn simple_packet(&self, first: Option<&Described>) -> Option<Packet<'b>>
        ensures { option_map packet_value result ≡ simple_packet (option_map (λ d. interface_value d.now) first.entry) (block_value self.now) }
    {
        if self.body.len() < BEFORE_SIMPLE {
            return None;
        }
        let original = number_at(self.order, 0, self.body);
        let count = kept_by(first, original) as usize;
        Some(Packet {
            interface: 0,
            stamp: None,
            original,
            kept: skip(self.body, BEFORE_SIMPLE).get(..count)?,
        })
    }
}

/// How many bytes an interface keeps of a packet that has so many.
fn kept_by(interface: Option<&Described>, original: u32) -> u32
    ensures { result ≡ kept_by (option_map (λ d. interface_value d.now) interface.entry) original }
{
    match interface {
        Some(described) if described.most != 0 => original.min(described.most),
        _ => original,
    }
}
