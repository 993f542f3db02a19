//! Cutting a message into packets (DSP0236, section 8.3).
ghost use Rattle.std.specs.Prelude.{◌≡◌, ◌<◌, ◌≤◌, ◌+◌, ◌%◌, length, true, false};
ghost use Rattle.mctp_transport.specs.PacketValues.{IsUnit};

mod laws;

use crate::address::{Eid, Key, Reserved, Seq};
use crate::packet::{BASELINE_UNIT, Header, PacketView};
pub use laws::{cut_joins, one_cut};
use std::alloc::AllocError;

/// The longest message that is cut or assembled, in bytes.
pub const MAX_MESSAGE: usize = 4096;

/// The packets of a message that have yet to come: payloads as long as the transmission unit, and a last one of at
/// least one byte and at most the unit.
#[derive(Debug, Drop)]
pub struct Packets<'a> {
    /// The transmission unit, in payload bytes.
    unit: usize,
    /// The next packet's header, but for its EOM.
    header: Header,
    /// The bytes that are left.
    rest: &'a [u8],
    ghost of_unit: { IsUnit unit },
}

impl<'a> Packets<'a> {
    ghost use Rattle.mctp_transport.{specs.Packets.{key_value}, specs.Cutting.{ArePacketsOf}, specs.PacketsLeft.{frames_left}};

    /// The packets of a message of 1 to 4096 bytes under the baseline transmission unit of 64 bytes. They are numbered
    /// from `start` on, modulo 4; SOM is on the first alone and EOM on the last alone, and the reserved bits are 0.
    pub fn of(message: &'a [u8], destination: Eid, key: Key, start: Seq) -> Packets<'a>
        requires some { 0 < length message.now }
        requires most { length message.now ≤ MAX_MESSAGE }
        ensures { ArePacketsOf 64 message.now destination.value (key_value key) start.value (frames_left result) }
    {
        Packets::within(BASELINE_UNIT, message, destination, key, start)
    }

    /// The packets of a message of 1 to 4096 bytes under a transmission unit of 64 to 1024 bytes, otherwise as those
    /// of `of`.
    pub fn within(
        unit: usize,
        message: &'a [u8],
        destination: Eid,
        key: Key,
        start: Seq,
    ) -> Packets<'a>
        requires unit { IsUnit unit }
        requires some { 0 < length message.now }
        requires most { length message.now ≤ MAX_MESSAGE }
        ensures { ArePacketsOf unit message.now destination.value (key_value key) start.value (frames_left result) }
    {
        let header = Header {
            reserved: Reserved::new(0),
            destination,
            source: key.source,
            som: true,
            eom: false,
            number: start,
            owner: key.owner,
            tag: key.tag,
        };
        Packets {
            unit,
            header,
            rest: message,
        }
    }
}

impl<'a> Clone for Packets<'a> {
    ghost use Rattle.std.specs.Prelude.{⊤};
    ghost use Rattle.mctp_transport.specs.PacketsLeft.{frames_left};

    ghost is_clone = { λ packets copy. frames_left copy ≡ frames_left packets };

    ghost is_infallible = { λ _. ⊤ };

    fn clone(&self) -> Result<Packets<'a>, AllocError> {
        Ok(Packets {
            unit: self.unit,
            header: self.header,
            rest: self.rest,
        })
    }
}

impl<'a> Iterator for Packets<'a> {
    ghost use Rattle.std.specs.Iterator.{YieldsFirstBy, item_count};
    ghost use Rattle.mctp_transport.{specs.Packets.{packet_value_of}, specs.PacketsLeft.{frames_left}};

    type Item = PacketView<'a>;

    ghost next_gives = { YieldsFirstBy packet_value_of frames_left };

    ghost remaining = { item_count frames_left };

    fn next(&mut self) -> Option<PacketView<'a>> {
        if self.rest.is_empty() {
            return None;
        }
        let eom = self.rest.len() <= self.unit;
        let (payload, rest) = self.rest.split_at(self.rest.len().min(self.unit));
        let header = Header { eom, ..self.header };
        self.rest = rest;
        self.header.som = false;
        self.header.number = self.header.number.next();
        Some(PacketView { header, payload })
    }
}
