//! Reading a bridge's routing table from its answers.
ghost use Rattle.std.specs.Prelude.{◌≡◌, ◌≤◌, ◌+◌, true, false, is_some, vec_len, vec_capacity};

use crate::read_fault::ReadFault;
use crate::table_part::{TablePart, append};
use mctp_control::{ControlInstanceId, RouteEntry};
use mctp_transport::Wire;
use std::alloc::{AllocError, Global};

/// The most entries that a reader holds: one for each endpoint ID from 8 to 254.
pub const MAX_READ: usize = 247;

/// The most answers that a reader takes: one for each entry, and one that ends the table or the reader.
pub const MAX_TAKEN: usize = 248;

/// The next handle of an answer after which there are no more entries.
pub const NO_MORE: u8 = 0xff;

/// A reader of a bridge's routing table (DSP0236, Get Routing Table Entries): it asks for the entries from a handle on,
/// takes the answer, and goes on with the handle that the answer gives. It takes memory when it is made, and none
/// later.
#[derive(Debug, Drop)]
pub struct EntryReader {
    entries: Vec<RouteEntry>,
    /// The handle to ask for next; none once the table is complete.
    handle: Option<u8>,
    /// The instance ID of the request that has no answer yet.
    waiting: Option<ControlInstanceId>,
    failed: bool,
    /// How many answers were taken.
    taken: usize,
    ghost room: { 247 ≤ vec_capacity entries },
    ghost few: { vec_len entries ≤ 247 },
    // Each answer but one that ends the reading brings an entry, and then none is waited for.
    ghost fruitful: { failed ≡ false → is_some waiting ≡ true → taken ≤ vec_len entries },
    ghost bounded: { taken ≤ vec_len entries + 1 },
    ghost asking: { failed ≡ false → is_some handle ≡ true → taken ≤ vec_len entries },
}

impl EntryReader {
    ghost use Rattle.std.specs.Prelude.{◌≡◌, map, IfOk, false, Some};
    ghost use Rattle.mctp_control.{specs.RouteEntries.{entry_value}, specs.EntriesValue.{entries_of}};
    ghost use Rattle.mctp_bridge.specs.Readers.{reader_state, reader_memory, new_reader, Asks, Takes, TakesAnswer, TakesPart, Fails};

    /// A reader that has asked for nothing yet. It reserves room for 247 entries.
    pub fn new(alloc: Global) -> Result<Self, AllocError>
        ensures state { IfOk result (λ reader. reader_state reader ≡ new_reader) }
        ensures memory { IfOk result (λ reader. reader_memory reader ≡ 247) }
    {
        Ok(EntryReader {
            entries: Vec::with_capacity(alloc, MAX_READ)?,
            handle: Some(0),
            waiting: None,
            failed: false,
            taken: 0,
        })
    }

    /// The request that is due, under this instance ID; none once the table is complete or the reader has failed. Asked
    /// again before an answer, it is the same request under the new instance ID, which the answer must then have. Its
    /// bytes: 0x00, the Rq bit and the instance ID, 0x0A, the entry handle.
    pub fn next_request(&mut self, id: ControlInstanceId) -> Option<[u8; 4]>
        ensures asks { Asks (reader_state self.old) id.value result (reader_state self.new) }
        ensures memory { reader_memory self.new ≡ reader_memory self.old }
    {
        if self.failed {
            return None;
        }
        match self.handle {
            None => None,
            Some(handle) => {
                self.waiting = Some(id);
                Some([0, 128 + id.value, 10, handle])
            }
        }
    }

    /// Takes the bytes of an answer: true where the table is complete with it. However long the peer answers, 248
    /// answers are taken at most.
    pub fn take(&mut self, answer: &[u8]) -> Result<bool, ReadFault>
        ensures takes { Takes (reader_state self.old) answer.now result (reader_state self.new) }
        ensures memory { reader_memory self.new ≡ reader_memory self.old }
    {
        if self.failed {
            return Err(ReadFault::FailedBefore);
        }
        let Some(id) = self.waiting else {
            return Err(ReadFault::NotAsked);
        };
        let Some(part) = TablePart::read(answer) else {
            return self.fail(ReadFault::NoSuccess);
        };
        self.take_answer(id, part)
    }

    /// The entries that were taken, in their order.
    pub fn entries(&self) -> &[RouteEntry]
        ensures { map entry_value result.now ≡ (reader_state self.now).entries }
    {
        &self.entries
    }

    /// How many answers were taken, refused ones among them: all but those that were not asked for (E02) and those that
    /// came after a failure (E05).
    pub fn taken(&self) -> usize
        ensures count { result ≡ (reader_state self.now).taken }
        ensures most { result ≤ MAX_TAKEN }
    {
        self.taken
    }

    /// Takes a success answer, where a request waits under this instance ID.
    fn take_answer(&mut self, id: ControlInstanceId, part: TablePart) -> Result<bool, ReadFault>
        requires goes { self.old.failed ≡ false }
        requires waits { self.old.waiting ≡ Some id }
        ensures takes { TakesAnswer (reader_state self.old) part.header.instance.value part.next (entries_of part.entries) result
            (reader_state self.new) }
        ensures memory { reader_memory self.new ≡ reader_memory self.old }
    {
        if part.header.instance.value != id.value {
            return Err(ReadFault::NotAsked);
        }
        self.take_part(part)
    }

    /// Takes a part of the table that was asked for.
    fn take_part(&mut self, part: TablePart) -> Result<bool, ReadFault>
        requires goes { self.old.failed ≡ false }
        requires few { self.old.taken ≤ vec_len self.old.entries }
        ensures takes { TakesPart (reader_state self.old) part.next (entries_of part.entries) result (reader_state self.new) }
        ensures memory { reader_memory self.new ≡ reader_memory self.old }
    {
        let count = part.entries.items.len();
        if count == 0 && part.next != NO_MORE {
            return self.fail(ReadFault::NoEntry);
        }
        if count > MAX_READ - self.entries.len() {
            return self.fail(ReadFault::TooMany);
        }
        append(&mut self.entries, part.entries);
        self.taken += 1;
        self.waiting = None;
        let complete = part.next == NO_MORE;
        self.handle = if complete { None } else { Some(part.next) };
        Ok(complete)
    }

    /// From now on the reader has failed.
    fn fail(&mut self, fault: ReadFault) -> Result<bool, ReadFault>
        requires few { self.old.taken ≤ vec_len self.old.entries }
        ensures fails { Fails (reader_state self.old) fault result (reader_state self.new) }
        ensures memory { reader_memory self.new ≡ reader_memory self.old }
    {
        self.failed = true;
        self.taken += 1;
        Err(fault)
    }
}
