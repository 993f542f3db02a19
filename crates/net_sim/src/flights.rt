//! The packets on their way, by number.
ghost use Rattle.std.{specs.Prelude.{◌≡◌, ◌↔◌, ◌≢◌, ◌+◌, ◌*◌, ◌<◌, ◌≤◌, ◌++◌, ◌∷◌, [], length, None, option_map, slice_set, is_some, is_none, All, AllPairs, IsTrue, ℕ, ◌-◌, ◌^◌, if◌then◌else◌, IfOk, IfSome, IfNone, OnOk, OnErr, true}, specs.List.{HoldsAt, count_by}, proofs.Props.{props}};
ghost use Rattle.mctp_transport.{specs.Packets.{key_value}, specs.PacketValues.{KeyValue, key_of}};
ghost use Rattle.net_runs.specs.States.{destination};
ghost use Rattle.net_sim.{specs.Settling.{IsTo, IsNotTo, goes_to}, specs.FlightValues.{flight_value}, specs.KeyCounts.{count_of}, specs.Tallies.{AreTallied}};

use crate::kept_packet::KeptPacket;
use crate::key_counts::{KeyCounts, KnownEids};
use crate::payload::room_for_payload;
use mctp_transport::{Eid, Key, PacketView};
use plan_values::Node;
use std::alloc::{AllocError, Global};

/// A packet on its way.
#[derive(Debug, Drop)]
pub struct Flight {
    pub packet: KeptPacket,
    /// The node where it was put in.
    pub origin: usize,
    /// The node where it is.
    pub node: usize,
    /// How often it has moved.
    pub hops: u8,
}

impl Flight {
    ghost use Rattle.mctp_transport.{specs.PacketValues.{key_of}, specs.Packets.{packet_value_of}};
    ghost use Rattle.net_runs.specs.States.{destination};
    ghost use Rattle.net_sim.{specs.Flights.{flight_value, gone_on}, specs.Payloads.{IsRoomFor}};

    /// A flight of this packet that begins at a node. A long payload is copied into the room.
    pub fn put_in(node: usize, packet: PacketView, room: Vec<u8>) -> Flight
        requires { IsRoomFor (length packet.payload.now) room }
        ensures { flight_value result ≡ record { packet = packet_value_of packet.entry; origin = node; node = node; hops = 0 } }
    {
        Flight {
            packet: KeptPacket::of(packet, room),
            origin: node,
            node,
            hops: 0,
        }
    }

    /// The same flight, with a packet of its own.
    pub fn copy(&self, alloc: Global) -> Result<Flight, AllocError>
        ensures same { IfOk result (λ copy. flight_value copy ≡ flight_value self.now) }
        ensures full { OnErr result (64 < length (flight_value self.now).packet.payload) }
    {
        let packet = self.packet.view();
        let room = room_for_payload(alloc, packet.payload.len())?;
        Ok(Flight {
            packet: KeptPacket::of(packet, room),
            origin: self.origin,
            node: self.node,
            hops: self.hops,
        })
    }

    /// The key of its packet.
    fn key(&self) -> Key
        ensures { key_value result ≡ key_of (flight_value self.now).packet }
    {
        self.packet.view().key()
    }

    /// The endpoint ID to which it goes.
    fn destination(&self) -> Eid
        ensures { result.value ≡ destination (flight_value self.now) }
    {
        self.packet.header.destination
    }

    /// Whether its packet is of the key and goes to the endpoint ID.
    fn is_to(&self, key: Key, eid: Eid) -> bool
        ensures { IsTrue result ↔ IsTo (key_value key) eid.value (flight_value self.now) }
    {
        self.destination() == eid && is_same_key(self.key(), key)
    }

    /// Moves it one hop further, to this node. Its packet stays where it is.
    pub fn go_on(&mut self, node: usize)
        requires { self.old.hops < 255 }
        ensures { flight_value self.new ≡ gone_on node (flight_value self.old) }
    {
        self.node = node;
        self.hops += 1;
    }
}

/// A number that was given, and the flight under it. It is empty once that flight has ended.
#[derive(Debug, Drop)]
struct Slot {
    number: u32,
    flight: Option<Flight>,
}

impl Slot {
    ghost use Rattle.net_sim.specs.Flights.{flight_value, gone_on};

    /// Moves its flight on to a node, where there is one.
    fn go_on(&mut self, node: usize)
        requires { IfSome self.old.flight (λ f. f.hops < 255) }
        ensures number { self.new.number ≡ self.old.number }
        ensures flight { option_map flight_value self.new.flight ≡ option_map (gone_on node) (option_map flight_value self.old.flight) }
    {
        if let Some(flight) = &mut self.flight {
            flight.go_on(node);
        }
    }

    /// Whether there is no flight of the key to the endpoint ID in it.
    fn is_not_to(&self, key: Key, eid: Eid) -> bool
        ensures { IsTrue result ↔ IsNotTo (key_value key) eid.value (option_map flight_value self.now.flight) }
    {
        match &self.flight {
            Some(flight) => !flight.is_to(key, eid),
            None => true,
        }
    }
}

/// The flights of a network. Each has a number of its own, and number 0 is never given; a flight is found by halving.
/// One that ends leaves an empty slot. The empty slots are swept out when room is made and they are half of all or
/// more, so that the memory follows the flights that have not ended, and a sweep passes two slots at most for each
/// empty one. How many flights there are of each key and destination is counted, so that no search is needed to tell
/// whether there is one.
#[derive(Debug, Drop)]
pub struct Flights {
    /// In the order of their numbers.
    slots: Vec<Slot>,
    /// How many of the slots are empty.
    empty: usize,
    /// The number that is given next.
    next: usize,
    /// How many flights there are of each key and destination.
    counts: KeyCounts,
    ghost begun: { 0 < next },
    ghost ascending: { AllPairs (λ slot later. slot.number < later.number) slots.items } by { Prim.hlevel props },
    ghost given: { All (λ slot. slot.number < next) slots.items } by { Prim.hlevel props },
    ghost counted: { empty ≡ count_by (λ slot. is_none slot.flight) slots.items },
    ghost tallied: { AreTallied counts slots.items },
}

impl Flights {
    ghost use Rattle.net_runs.specs.Events.{most_flights};
    ghost use Rattle.net_sim.specs.Flights.{flight_value, slots_of, flight_at, gone_on, room_of};

    /// No flights, and none made, in a network of these nodes.
    pub fn new(alloc: Global, nodes: &[Node]) -> Result<Self, AllocError>
        ensures { IfOk result (λ flights. slots_of flights ≡ None ∷ []) }
    {
        let sources = KnownEids::of_nodes(alloc, nodes)?;
        let destinations = KnownEids::of_nodes(alloc, nodes)?;
        Ok(Flights {
            slots: Vec::new(alloc),
            empty: 0,
            next: 1,
            counts: KeyCounts::none(alloc, sources, destinations)?,
        })
    }

    /// The number that is given next.
    pub fn next_number(&self) -> usize
        ensures next { result ≡ length (slots_of self.now) }
        ensures some { 0 < result }
    {
        self.next
    }

    /// The index of the slot of this number, by halving.
    fn index_of(&self, number: u32) -> Option<usize>
        ensures found { IfSome result (λ index. (index < length self.now.slots.items) × HoldsAt (λ slot. slot.number ≡ number) self.now.slots.items index) }
        ensures none { IfNone result (All (λ slot. slot.number ≢ number) self.now.slots.items) }
    {
        let slots = self.slots.as_slice();
        match slots.binary_search_by_key(&number, |slot| slot.number) {
            Ok(index) => Some(index),
            Err(_) => None,
        }
    }

    /// The flight of this number.
    pub fn get(&self, number: u32) -> Option<&Flight>
        ensures { option_map (λ f. flight_value f.now) result ≡ flight_at (slots_of self.now) number }
    {
        let index = self.index_of(number)?;
        self.slots[index].flight.as_ref()
    }

    /// Whether there is a flight of this number.
    pub fn has(&self, number: u32) -> bool
        ensures { result ≡ is_some (flight_at (slots_of self.now) number) }
    {
        match self.index_of(number) {
            Some(index) => self.slots[index].flight.is_some(),
            None => false,
        }
    }

    /// Whether no packet of the key is on its way to the endpoint ID. Where no node holds it, or the key's source, the
    /// slots that are kept are searched.
    pub fn none_is_to(&self, key: Key, eid: Eid) -> bool
        ensures { IsTrue result ↔ All (IsNotTo (key_value key) eid.value) (slots_of self.now) }
    {
        match self.counts.count(key, eid) {
            Some(count) => count == 0,
            None => self.slots.iter().all(|slot| slot.is_not_to(key, eid)),
        }
    }

    /// Makes room for so many numbers more.
    pub fn reserve(&mut self, count: usize) -> Result<(), AllocError>
        ensures same { slots_of self.new ≡ slots_of self.old }
        ensures room { OnOk result (count ≤ room_of self.new) }
        ensures full { OnErr result (room_of self.old < count) }
        ensures lacks { OnErr result (room_of self.new < count) }
        // At most half of the slots are empty then.
        ensures half { 2 * self.new.empty ≤ length self.new.slots.items }
    {
        if self.slots.len() - self.empty <= self.empty {
            self.sweep();
        }
        self.slots.reserve(count)
    }

    /// Forgets the empty slots.
    fn sweep(&mut self)
        ensures same { slots_of self.new ≡ slots_of self.old }
        ensures swept { self.new.empty ≡ 0 }
        ensures room { room_of self.old ≤ room_of self.new }
    {
        self.slots.retain(|slot| slot.flight.is_some());
        self.empty = 0;
    }

    /// Gives the next number to this flight, or to none that stays.
    pub fn push(&mut self, flight: Option<Flight>)
        requires room { 0 < room_of self.old }
        requires few { length (slots_of self.old) ≤ most_flights }
        ensures slots { slots_of self.new ≡ slots_of self.old ++ option_map flight_value flight ∷ [] }
        ensures room { room_of self.new + 1 ≡ room_of self.old }
    {
        self.empty += usize::from(flight.is_none());
        enter(&mut self.counts, &flight);
        self.slots.push_reserved(Slot {
            number: self.next as u32,
            flight,
        });
        self.next += 1;
    }

    /// Takes the flight of this number out, which ends it.
    pub fn end(&mut self, number: u32) -> Option<Flight>
        requires { is_some (flight_at (slots_of self.old) number) ≡ true }
        ensures flight { option_map flight_value result ≡ flight_at (slots_of self.old) number }
        ensures slots { slots_of self.new ≡ slice_set (slots_of self.old) number None }
        ensures room { room_of self.new ≡ room_of self.old }
    {
        let index = self.index_of(number)?;
        self.empty += 1;
        let flight = self.slots[index].flight.take();
        leave(&mut self.counts, &flight);
        flight
    }

    /// Moves the flight of this number one hop further, to a node.
    pub fn go_on(&mut self, number: u32, node: usize)
        requires there { is_some (flight_at (slots_of self.old) number) ≡ true }
        requires few { IfSome (flight_at (slots_of self.old) number) (λ f. f.hops < 255) }
        ensures slots { slots_of self.new ≡ slice_set (slots_of self.old) number (option_map (gone_on node) (flight_at (slots_of self.old) number)) }
        ensures room { room_of self.new ≡ room_of self.old }
    {
        if let Some(index) = self.index_of(number) {
            self.slots[index].go_on(node);
        }
    }
}

/// Counts a flight, where there is one.
fn enter(counts: &mut KeyCounts, flight: &Option<Flight>)
    requires { IfSome flight.now (λ f. IfSome (count_of counts.old (key_of (flight_value f).packet) (destination (flight_value f))) (λ n. n < 2 ^ 63)) }
    ensures { (k : KeyValue) (d : ℕ) → k.tag < 8 → count_of counts.new k d ≡
        option_map (λ n. n + (if goes_to k d (option_map flight_value flight.now) then 1 else 0)) (count_of counts.old k d) }
{
    if let Some(flight) = flight {
        counts.enter(flight.key(), flight.destination());
    }
}

/// Counts a flight no more, where there is one.
fn leave(counts: &mut KeyCounts, flight: &Option<Flight>)
    ensures { (k : KeyValue) (d : ℕ) → k.tag < 8 → count_of counts.new k d ≡
        option_map (λ n. n - (if goes_to k d (option_map flight_value flight.now) then 1 else 0)) (count_of counts.old k d) }
{
    if let Some(flight) = flight {
        counts.leave(flight.key(), flight.destination());
    }
}

/// Whether two keys are the same.
fn is_same_key(key: Key, other: Key) -> bool
    ensures { IsTrue result ↔ (key_value key ≡ key_value other) }
{
    key == other
}
