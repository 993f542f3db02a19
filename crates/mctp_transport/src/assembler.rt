//! Joining packets to messages (DSP0236, "Message assembly").
ghost use Rattle.std.{specs.Prelude.{◌≡◌, ◌<◌, ◌≤◌, ◌+◌, ◌*◌, length, All, IfSome, IfOk, take, map}, proofs.Props.{props}};
ghost use Rattle.mctp_transport.{specs.KeyNumbers.{slot_number, IsGoneOnFrom}, specs.declared.assembler.open_message.OpenMessage.{OpenMessage}};

mod block;
mod key_numbers;
mod open_message;
mod open_slots;

use crate::address::Key;
use crate::cutting::MAX_MESSAGE;
use crate::drop_cause::DropCause;
use crate::packet::PacketView;
use block::write;
use key_numbers::{FREE, first_index, number_in, number_of};
use open_message::{OpenMessage, go_on_as};
use open_slots::open_in;
use std::alloc::{AllocError, Global};

/// The most slots of an assembler.
pub const MAX_SLOTS: usize = 64;

/// What a packet led to.
#[derive(Clone, Copy, Debug, PartialEq, Eq)]
pub enum Fed<'a> {
    /// The packet ended a message, and these are the message's bytes.
    Whole(&'a [u8]),
    /// The packet's message is open: more of its packets have to come.
    Held,
    /// The packet was dropped. No message of its key is open now.
    Dropped(DropCause),
}

/// Joins packets to messages, under several keys at once.
///
/// A message of several packets is open, and takes a slot, from its first packet on until its last one comes, a
/// packet of its key is dropped, another first packet of its key comes, or its time is up.
///
/// The contracts speak of histories, the lists of all packets and all expiries that an assembler may have been
/// given. `HoldsHistory` says which histories fit what it holds, and each answer follows from such a history.
#[derive(Debug, Drop)]
pub struct Assembler {
    slots: Vec<Option<OpenMessage>>,
    /// The slots' numbers, by which they are found.
    numbers: [u16; MAX_SLOTS],
    /// A part of `limit` bytes for each slot.
    block: Vec<u8>,
    limit: usize,
    ghost few: { length slots.items ≤ 64 },
    ghost short: { limit ≤ 4096 },
    ghost sized: { length block.items ≡ length slots.items * limit },
    ghost within: { All (λ slot. IfSome slot (λ begun. begun.len ≤ limit)) slots.items } by { Prim.hlevel props },
    ghost numbered: { take (length slots.items) numbers ≡ map slot_number slots.items } by { Prim.hlevel props },
}

/// What a packet did, and where a whole message lies then.
#[derive(Clone, Copy, Debug)]
enum Step {
    /// The packet is the whole message.
    Alone,
    /// The whole message lies between these places of the block.
    At(usize, usize),
    Held,
    Dropped(DropCause),
}

impl Assembler {
    ghost use Rattle.std.{specs.Prelude.{◌↔◌, IsTrue, position, is_none, is_some, slice_set, slice_get, count_by, Option, Some, None, [], ◌++◌, ◌==◌}, specs.Borrow.{sem}};
    ghost use Rattle.mctp_transport.{specs.PacketValues.{key_of}, specs.Packets.{packet_value_of, key_value}, specs.Histories.{History, TimeUp, after, IsOpen, IsKeyCount}, specs.Tables.{Partial, is_at}, specs.TableChanges.{begun, started, carried, expired, next_partial, next_answer}, specs.Parts.{part}, specs.Assembly.{answer_of, Feeds, HoldsHistory, partial_of, table_of, assembler_slots, assembler_limit, assembler_memory}, specs.Hearing.{HearsOnly}, specs.Lending.{EndsAs}, specs.Steps.{IsWithinBlock, Takes, step_answer}};

    /// An assembler of 1 to 64 slots for messages of at most `limit` bytes, 1 to 4096. All of its memory is taken
    /// here: `slots * limit` bytes and the table of slots.
    pub fn new(alloc: Global, slots: usize, limit: usize) -> Result<Self, AllocError>
        requires slots { (1 ≤ slots) × (slots ≤ MAX_SLOTS) }
        requires limit { (1 ≤ limit) × (limit ≤ MAX_MESSAGE) }
        ensures slots { IfOk result (λ assembler. assembler_slots assembler ≡ slots) }
        ensures limit { IfOk result (λ assembler. assembler_limit assembler ≡ limit) }
        ensures stands { IfOk result (λ assembler. HoldsHistory assembler []) }
    {
        let mut table = Vec::with_capacity(alloc, slots)?;
        for _ in 0..slots {
            table.push(None)?;
        }
        let block = vec![in alloc; 0; slots * limit]?;
        Ok(Assembler {
            slots: table,
            numbers: [FREE; MAX_SLOTS],
            block,
            limit,
        })
    }

    /// Takes a packet in. Its destination isn't looked at, and no memory is taken.
    ///
    /// A whole message is lent until the next call. A packet that is a message by itself needs no slot, and its own
    /// bytes are lent. A packet that starts a message first ends an open one of its key, even where it is dropped
    /// itself.
    pub fn feed<'a>(&'a mut self, packet: PacketView<'a>) -> Fed<'a>
        ensures* ends { sem 𝓛 (EndsAs self.entry (Feeds self.old (packet_value_of packet.entry) (answer_of result))) }
        ensures hears { (h : History) → HoldsHistory self.old h
            → HearsOnly (assembler_slots self.old) (assembler_limit self.old) h (packet_value_of packet.entry) (answer_of result) }
    {
        match self.take(&packet) {
            Step::Alone => Fed::Whole(packet.payload),
            Step::At(start, end) => Fed::Whole(&self.block[start..end]),
            Step::Held => Fed::Held,
            Step::Dropped(why) => Fed::Dropped(why),
        }
    }

    /// Ends the key's open message, since its time is up. True where there was one.
    #[tactic(auto, using(crate::proofs::AssemblyLaws::found_is_open, crate::proofs::AssemblyLaws::expired_is))]
    pub fn expire(&mut self, key: Key) -> bool
        ensures slots { assembler_slots self.new ≡ assembler_slots self.old }
        ensures limit { assembler_limit self.new ≡ assembler_limit self.old }
        ensures memory { assembler_memory self.new ≡ assembler_memory self.old }
        ensures was_open { (h : History) → HoldsHistory self.old h
            → IsTrue result ↔ IsOpen (assembler_slots self.old) (assembler_limit self.old) h (key_value key) }
        ensures stands { (h : History) → HoldsHistory self.old h
            → HoldsHistory self.new (after h (TimeUp (key_value key))) }
    {
        self.end(key)
    }

    /// Whether a message of the key is open.
    #[tactic(auto, using(crate::proofs::AssemblyLaws::found_is_open))]
    pub fn is_open(&self, key: Key) -> bool
        ensures { (h : History) → HoldsHistory self.now h
            → IsTrue result ↔ IsOpen (assembler_slots self.now) (assembler_limit self.now) h (key_value key) }
    {
        self.slot_of_key(key).is_some()
    }

    /// How many messages are open, each of another key.
    pub fn open_slots(&self) -> usize
        ensures most { result ≤ assembler_slots self.now }
        ensures open_keys { (h : History) → HoldsHistory self.now h
            → IsKeyCount (IsOpen (assembler_slots self.now) (assembler_limit self.now) h) result }
    {
        self.open_count()
    }

    /// How many slots are taken.
    fn open_count(&self) -> usize
        ensures count { result ≡ count_by is_some (table_of self.now) }
        ensures most { result ≤ assembler_slots self.now }
    {
        open_in(&self.slots)
    }

    /// The slot of the key's open message.
    fn slot_of_key(&self, key: Key) -> Option<usize>
        ensures index { result ≡ position (is_at (key_value key)) (table_of self.now) }
        ensures within { IfSome result (λ i. i < assembler_slots self.now) }
    {
        self.slot_of(number_of(key))
    }

    /// A free slot.
    fn free_slot(&self) -> Option<usize>
        ensures index { result ≡ position is_none (table_of self.now) }
        ensures within { IfSome result (λ i. i < assembler_slots self.now) }
    {
        self.slot_of(FREE)
    }

    /// The first slot of this number.
    fn slot_of(&self, number: u16) -> Option<usize>
        ensures index { result ≡ position (λ slot. slot_number slot == number) self.now.slots.items }
        ensures within { IfSome result (λ i. i < assembler_slots self.now) }
    {
        let index = first_index(&self.numbers, number);
        if index < self.slots.len() {
            Some(index)
        } else {
            None
        }
    }

    /// Frees a slot.
    fn close(&mut self, index: usize)
        requires { index < assembler_slots self.old }
        ensures table { table_of self.new ≡ slice_set (table_of self.old) index None }
        ensures slots { assembler_slots self.new ≡ assembler_slots self.old }
        ensures limit { assembler_limit self.new ≡ assembler_limit self.old }
        ensures memory { assembler_memory self.new ≡ assembler_memory self.old }
    {
        self.slots[index] = None;
        self.numbers[index] = FREE;
    }

    /// Writes bytes into a slot's part of the block, and says what is open there then.
    fn put(&mut self, index: usize, at: usize, bytes: &[u8], message: Option<OpenMessage>)
        requires index { index < assembler_slots self.old }
        requires fits { at + length bytes.now ≤ assembler_limit self.old }
        requires within { IfSome message (λ begun. begun.len ≤ assembler_limit self.old) }
        ensures table { let bytes = part (assembler_limit self.old) self.new.block.items index in
            table_of self.new ≡ slice_set (table_of self.old) index (partial_of message bytes) }
        ensures part { take (at + length bytes.now) (part (assembler_limit self.old) self.new.block.items index)
            ≡ take at (part (assembler_limit self.old) self.old.block.items index) ++ bytes.now }
        ensures slots { assembler_slots self.new ≡ assembler_slots self.old }
        ensures limit { assembler_limit self.new ≡ assembler_limit self.old }
        ensures memory { assembler_memory self.new ≡ assembler_memory self.old }
    {
        write(&mut self.block, index * self.limit + at, bytes);
        self.slots[index] = message;
        self.numbers[index] = number_in(message);
    }

    /// Writes more bytes of the message that is open in a slot, which goes on as this one. Its key stays, and with it
    /// the slot's number.
    fn extend(&mut self, index: usize, at: usize, bytes: &[u8], message: OpenMessage)
        requires index { index < assembler_slots self.old }
        requires fits { at + length bytes.now ≤ assembler_limit self.old }
        requires within { message.len ≤ assembler_limit self.old }
        requires open { (o : Option OpenMessage) → slice_get self.old.slots.items index ≡ Some o → IsGoneOnFrom message o }
        ensures table { let bytes = part (assembler_limit self.old) self.new.block.items index in
            table_of self.new ≡ slice_set (table_of self.old) index (partial_of (Some message) bytes) }
        ensures part { take (at + length bytes.now) (part (assembler_limit self.old) self.new.block.items index)
            ≡ take at (part (assembler_limit self.old) self.old.block.items index) ++ bytes.now }
        ensures slots { assembler_slots self.new ≡ assembler_slots self.old }
        ensures limit { assembler_limit self.new ≡ assembler_limit self.old }
        ensures memory { assembler_memory self.new ≡ assembler_memory self.old }
    {
        go_on_as(&mut self.slots[index], message);
        write(&mut self.block, index * self.limit + at, bytes);
    }

    /// Opens a message in a slot.
    fn begin(&mut self, index: usize, packet: &PacketView)
        requires index { index < assembler_slots self.old }
        requires fits { length packet.now.payload.now ≤ assembler_limit self.old }
        ensures table { table_of self.new ≡ slice_set (table_of self.old) index (Some (begun (packet_value_of packet.now))) }
        ensures slots { assembler_slots self.new ≡ assembler_slots self.old }
        ensures limit { assembler_limit self.new ≡ assembler_limit self.old }
        ensures memory { assembler_memory self.new ≡ assembler_memory self.old }
    {
        let message = OpenMessage {
            key: packet.key(),
            number: packet.header.number,
            unit: packet.payload.len(),
            len: packet.payload.len(),
        };
        self.put(index, 0, packet.payload, Some(message));
    }

    /// Ends the key's open message. True where there was one.
    fn end(&mut self, key: Key) -> bool
        ensures found { result ≡ is_some (position (is_at (key_value key)) (table_of self.old)) }
        ensures table { table_of self.new ≡ expired (table_of self.old) (key_value key) }
        ensures slots { assembler_slots self.new ≡ assembler_slots self.old }
        ensures limit { assembler_limit self.new ≡ assembler_limit self.old }
        ensures memory { assembler_memory self.new ≡ assembler_memory self.old }
    {
        match self.slot_of_key(key) {
            None => false,
            Some(index) => {
                self.close(index);
                true
            }
        }
    }

    /// Takes a packet in. All changes are made here, since `feed` lends the block.
    fn take(&mut self, packet: &PacketView) -> Step
        ensures index { IsWithinBlock self.new result }
        ensures takes { let frame = packet_value_of packet.now in
            Takes self.old frame (step_answer self.new frame result) self.new }
    {
        if packet.header.som {
            self.end(packet.key());
            self.start(packet)
        } else {
            self.carry(packet)
        }
    }

    /// Takes a first packet, with no message of its key open.
    fn start(&mut self, packet: &PacketView) -> Step
        ensures index { IsWithinBlock self.new result }
        ensures table { let frame = packet_value_of packet.now in
            table_of self.new ≡ (started (assembler_limit self.old) (table_of self.old) frame).0 }
        ensures answer { let frame = packet_value_of packet.now in
            step_answer self.new frame result ≡ (started (assembler_limit self.old) (table_of self.old) frame).1 }
        ensures slots { assembler_slots self.new ≡ assembler_slots self.old }
        ensures limit { assembler_limit self.new ≡ assembler_limit self.old }
        ensures memory { assembler_memory self.new ≡ assembler_memory self.old }
    {
        if packet.payload.len() > self.limit {
            return Step::Dropped(DropCause::Limit);
        }
        if packet.header.eom {
            return Step::Alone;
        }
        let Some(index) = self.free_slot() else {
            return Step::Dropped(DropCause::Full);
        };
        self.begin(index, packet);
        Step::Held
    }

    /// Takes a middle packet or an end packet.
    fn carry(&mut self, packet: &PacketView) -> Step
        ensures index { IsWithinBlock self.new result }
        ensures table { let frame = packet_value_of packet.now in
            let index = position (is_at (key_of frame)) (table_of self.old) in
            table_of self.new ≡ (carried (assembler_limit self.old) (table_of self.old) frame index).0 }
        ensures answer { let frame = packet_value_of packet.now in
            let index = position (is_at (key_of frame)) (table_of self.old) in
            step_answer self.new frame result
            ≡ (carried (assembler_limit self.old) (table_of self.old) frame index).1 }
        ensures slots { assembler_slots self.new ≡ assembler_slots self.old }
        ensures limit { assembler_limit self.new ≡ assembler_limit self.old }
        ensures memory { assembler_memory self.new ≡ assembler_memory self.old }
    {
        match self.slot_of_key(packet.key()) {
            None => Step::Dropped(DropCause::NotOpen),
            Some(index) => self.go_on(index, packet),
        }
    }

    /// Takes a middle packet or an end packet of the message that is open in a slot.
    fn go_on(&mut self, index: usize, packet: &PacketView) -> Step
        requires { index < assembler_slots self.old }
        ensures index { IsWithinBlock self.new result }
        ensures table { (q : Partial) → slice_get (table_of self.old) index ≡ Some (Some q)
            → let next = next_partial (assembler_limit self.old) q (packet_value_of packet.now) in
            table_of self.new ≡ slice_set (table_of self.old) index next }
        ensures answer { (q : Partial) → slice_get (table_of self.old) index ≡ Some (Some q)
            → let frame = packet_value_of packet.now in
            step_answer self.new frame result ≡ next_answer (assembler_limit self.old) q frame }
        ensures slots { assembler_slots self.new ≡ assembler_slots self.old }
        ensures limit { assembler_limit self.new ≡ assembler_limit self.old }
        ensures memory { assembler_memory self.new ≡ assembler_memory self.old }
    {
        let Some(open) = self.slots[index] else {
            return Step::Dropped(DropCause::NotOpen);
        };
        match open.next(self.limit, packet) {
            Err(why) => {
                self.close(index);
                Step::Dropped(why)
            }
            Ok(next) => {
                if packet.header.eom {
                    self.put(index, open.len, packet.payload, None);
                    let start = index * self.limit;
                    Step::At(start, start + next.len)
                } else {
                    self.extend(index, open.len, packet.payload, next);
                    Step::Held
                }
            }
        }
    }
}
