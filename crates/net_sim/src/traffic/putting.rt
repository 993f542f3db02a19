//! Packets that are put in.
ghost use Rattle.std.specs.Prelude.{◌≡◌, ◌+◌, ◌-◌, ◌<◌, ◌≤◌, ◌++◌, OnErr, length, map, Some};
ghost use Rattle.mctp_transport.specs.Packets.{key_value};
ghost use Rattle.net_runs.specs.States.{Flight};
ghost use Rattle.net_sim.{specs.Flights.{slots_of, begun, room_of}, specs.Payloads.{HaveRooms}};

use super::Traffic;
use crate::effect::Effect;
use crate::flights::Flight;
use crate::payload::take_room;
use crate::refusal::Refusal;
use mctp_transport::{Eid, Key, PacketView, Packets, Seq};
use pdr_repository::Terminus;
use std::alloc::AllocError;

impl<'a, T: Terminus> Traffic<'a, T> {
    ghost use Rattle.net_runs.specs.Events.{most_flights, Put};
    ghost use Rattle.mctp_transport.specs.PacketsLeft.{frames_left};
    ghost use Rattle.net_sim.{specs.Traffics.{traffic_value, EndsInEffect}, specs.Sending.{PutsOne}, specs.LackingRooms.{LacksRoom}};

    /// Puts the packet of these bytes in at a node.
    pub fn put(&mut self, node: usize, bytes: &[u8]) -> Result<Effect, AllocError>
        ensures router { self.new.router ≡ self.old.router }
        ensures plays { EndsInEffect T.tid T.records self.old (Put node bytes.now) result self.new }
        ensures full { OnErr result (LacksRoom self.old (Put node bytes.now)) }
        ensures lacks { OnErr result (LacksRoom self.new (Put node bytes.now)) }
    {
        if !self.has_node(node) {
            return Ok(Effect::Refused(Refusal::NoNode));
        }
        let Ok(packet) = PacketView::read_within(bytes, self.unit()) else {
            return Ok(Effect::Refused(Refusal::NoPacket));
        };
        if self.left() < 1 {
            return Ok(Effect::Refused(Refusal::NoNumbers));
        }
        let Ok(room) = self.room_for_flight(packet.payload.len()) else {
            // no memory: the flights could not grow, or there was no room for the payload.
            return Err(AllocError);
        };
        let number = self.add(Some(Flight::put_in(node, packet, room)));
        Ok(Effect::PutIn { number, node })
    }

    /// Puts packets in at a node, one after another. Their long payloads are copied into the rooms.
    pub(super) fn put_all(&mut self, node: usize, packets: Packets, mut rooms: Vec<Vec<u8>>)
        requires node { node < length self.old.router.tables.plan.nodes.items }
        requires few { length (slots_of self.old.flights) + length (frames_left packets) ≤ most_flights + 1 }
        requires room { length (frames_left packets) ≤ room_of self.old.flights }
        requires rooms { HaveRooms (frames_left packets) rooms.items }
        ensures flights { slots_of self.new.flights ≡ slots_of self.old.flights ++ map (begun node) (frames_left packets.entry) }
        ensures router { self.new.router ≡ self.old.router }
        ensures assemblers { self.new.assemblers.items ≡ self.old.assemblers.items }
        ensures queues { self.new.queues.items ≡ self.old.queues.items }
    {
        for packet in packets {
            let room = take_room(self.alloc, &mut rooms);
            self.add(Some(Flight::put_in(node, packet, room)));
        }
    }

    /// Puts a message of at most 64 bytes in at a node, as one packet under the next number. It takes no memory.
    pub fn put_one(&mut self, node: usize, destination: Eid, key: Key, message: &[u8]) -> u32
        requires node { node < length self.old.router.tables.plan.nodes.items }
        requires few { length (slots_of self.old.flights) ≤ most_flights }
        requires room { 0 < room_of self.old.flights }
        requires some { 0 < length message.now }
        requires most { length message.now ≤ 64 }
        ensures router { self.new.router ≡ self.old.router }
        ensures puts { PutsOne self.old.router.tables (traffic_value T.tid T.records self.old)
            node message.now destination.value (key_value key) result
            (traffic_value T.tid T.records self.new) }
    {
        let number = self.flights.next_number() as u32;
        let packets = Packets::within(self.unit(), message, destination, key, Seq::new(0));
        self.put_all(node, packets, Vec::new(self.alloc));
        number
    }
}
