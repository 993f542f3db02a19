//! An entry of a routing table, as Get Routing Table Entries gives it (DSP0236, "Get Routing Table Entries").
ghost use Rattle.std.specs.Prelude.{◌≡◌, ◌<◌};

use crate::control_error::ControlError;
use arrayvec::ArrayVec;
use mctp_transport::{Eid, Wire};

/// The most bytes of a physical address.
pub const MAX_ADDRESS: usize = 52;

/// The bytes of an entry before its address.
pub(crate) const FIXED_LENGTH: usize = 6;

/// What an entry is for: bits 7 and 6 of its third byte.
#[derive(Clone, Copy, Debug, PartialEq, Eq)]
pub enum EntryKind {
    /// 0: one endpoint that is no bridge.
    Endpoint = 0,
    /// 1: a range that starts with the bridge's own EID.
    BridgeAndRange = 1,
    /// 2: one endpoint that is a bridge.
    Bridge = 2,
    /// 3: a range without the bridge's own EID.
    Range = 3,
}

impl EntryKind {
    ghost use Rattle.mctp_control.specs.Codes.{kind_number};

    fn from_number(number: u8) -> Self
        requires { number < 4 }
        ensures { kind_number result ≡ number }
    {
        match number {
            0 => EntryKind::Endpoint,
            1 => EntryKind::BridgeAndRange,
            2 => EntryKind::Bridge,
            _ => EntryKind::Range,
        }
    }
}

/// A port's number, 0 to 31.
#[derive(Clone, Copy, Debug, PartialEq, Eq)]
pub struct EntryPort {
    /// Five bits: the number.
    pub value: u8,
    pub ghost in_range: { value < 32 },
}

impl EntryPort {
    /// The port of this number, which is below 32.
    pub fn new(value: u8) -> Self
        requires { value < 32 }
        ensures { result.value ≡ value }
    {
        EntryPort { value }
    }
}

/// An entry of a routing table. Its bytes: the size of the range; its first EID; kind (bits 7 and 6), static (bit 5)
/// and port (bits 4 to 0); transport binding; media type; address size; the address.
#[derive(Debug, PartialEq, Eq, Drop)]
pub struct RouteEntry {
    /// Byte 0: how many endpoint IDs the range has.
    pub size: u8,
    /// Byte 1: the first endpoint ID of the range.
    pub first: Eid,
    /// Byte 2, bits 7 and 6: one endpoint or a range, with or without a bridge's own endpoint ID.
    pub kind: EntryKind,
    /// Byte 2, bit 5: whether the entry was set by hand and not learned.
    pub is_static: bool,
    /// Byte 2, bits 4 to 0: the port through which the range is reached.
    pub port: EntryPort,
    /// Byte 3: the physical transport binding identifier (DSP0239).
    pub binding: u8,
    /// Byte 4: the physical media identifier (DSP0239).
    pub media: u8,
    /// Byte 5 for its length, and then the physical address, at most 52 bytes.
    pub address: ArrayVec<u8, MAX_ADDRESS>,
}

impl<'a> Wire<'a> for RouteEntry {
    ghost use Rattle.std.specs.Prelude.{◌≡◌, ◌↔◌, IfOk, IsOkAnd, Err};
    ghost use Rattle.mctp_control.{specs.RouteEntries.{EntryValue, IsEntry, SpellsEntry, entry_bytes, entry_value}, specs.RouteEntryLaws.{one_entry}, specs.Refusals.{IsShortEntry, HasEntryLength}};

    type Error = ControlError;

    ghost Meaning = { EntryValue };

    ghost meaning = { entry_value };

    ghost IsLawful = { IsEntry };

    ghost spelling = { entry_bytes };

    /// The entry that the bytes are.
    fn read(bytes: &'a [u8]) -> Result<Self, ControlError>
        ensures ok { IfOk result (λ v. SpellsEntry (entry_value v) bytes.now) }
        ensures all { (m : EntryValue) → SpellsEntry m bytes.now → IsOkAnd result (λ v. entry_value v ≡ m) }
        ensures short { (result ≡ Err ControlError.Short) ↔ IsShortEntry bytes.now }
        ensures length { (result ≡ Err ControlError.Length) ↔ (¬ IsShortEntry bytes.now × ¬ HasEntryLength bytes.now) }
        ensures other_message { ¬ (result ≡ Err ControlError.OtherMessage) }
        ensures unknown_command { ¬ (result ≡ Err ControlError.UnknownCommand) }
    {
        let [size, first, flags, binding, media, count, address @ ..] = bytes else {
            return Err(ControlError::Short);
        };
        if address.len() != *count as usize || address.len() > MAX_ADDRESS {
            return Err(ControlError::Length);
        }
        let mut held = ArrayVec::new();
        let _ = held.try_extend_from_slice(address);
        Ok(RouteEntry {
            size: *size,
            first: Eid::new(*first),
            kind: EntryKind::from_number(flags / 64),
            is_static: flags / 32 % 2 != 0,
            port: EntryPort::new(flags % 32),
            binding: *binding,
            media: *media,
            address: held,
        })
    }

    fn len(&self) -> usize {
        FIXED_LENGTH + self.address.len()
    }

    fn put(&self, out: &mut [u8]) -> usize {
        let len = self.len();
        out[0] = self.size;
        out[1] = self.first.value;
        out[2] = 64 * (self.kind as u8) + 32 * u8::from(self.is_static) + self.port.value;
        out[3] = self.binding;
        out[4] = self.media;
        out[5] = self.address.len() as u8;
        out[FIXED_LENGTH..len].copy_from_slice(self.address.as_slice());
        len
    }

    ghost one_value = { one_entry };
}

impl Default for RouteEntry {
    ghost use Rattle.std.specs.Prelude.{false, []};
    ghost use Rattle.mctp_control.specs.RouteEntries.{entry_value};

    ghost is_default = { λ e. entry_value e ≡ record { size = 0; first = 0; kind = 0; fixed = false; port = 0; binding = 0; media = 0; address = [] } };

    /// An entry of no EIDs.
    fn default() -> Self {
        RouteEntry {
            size: 0,
            first: Eid::new(0),
            kind: EntryKind::Endpoint,
            is_static: false,
            port: EntryPort::new(0),
            binding: 0,
            media: 0,
            address: ArrayVec::new(),
        }
    }
}
