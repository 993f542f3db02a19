//! Packets on their way, and what comes of one that enters a node.
ghost use Rattle.std.specs.Prelude.{◌≡◌, ◌+◌, ◌<◌, ◌≤◌, ◌++◌, ◌∷◌, [], MatchResult, IfSome, IfOk, OnOk, OnErr, ◌⊎◌, length, is_some, Some, false, true};
ghost use Rattle.net_runs.specs.States.{Flight};
ghost use Rattle.net_sim.specs.Flights.{slots_of, flight_at, flight_value, room_of};

use super::Traffic;
use crate::effect::Effect;
use crate::flights::Flight;
use crate::receiving::{Receipt, feed, room_for_message};
use crate::refusal::Refusal;
use crate::terminus_queue::{reserve_at, wait_at};
use mctp_routing::Decision;
use mctp_transport::{Header, Key};
use pdr_repository::Terminus;
use std::alloc::AllocError;

/// A move that isn't refused, and what is decided on it.
#[derive(Clone, Copy, Debug)]
pub struct DecidedMove {
    /// The node where the flight is.
    pub node: usize,
    /// The key of its packet.
    pub key: Key,
    header: Header,
    /// How often the flight has moved before.
    hops: u8,
    /// What that node does with the packet.
    pub decision: Decision,
}

/// Room for a message that is told, and for the same message that waits.
#[derive(Drop)]
struct Room {
    told: Vec<u8>,
    kept: Vec<u8>,
}

impl<'a, T: Terminus> Traffic<'a, T> {
    ghost use Rattle.net_runs.specs.Events.{most_flights, Move};
    ghost use Rattle.net_sim.{specs.Effects.{effect_value}, specs.Standing.{Receives, CarriesOutMove}, specs.Traffics.{traffic_value, HasRoomAt, HasEffect, EndsInEffect}, specs.Moves.{HasNumberFor, IsDecidedMove, IsRoomAt}, specs.LackingRooms.{LacksRoom}};

    /// What a move comes to, of a flight or of a copy of it, or why it is refused.
    pub fn decide(&self, number: u32, keep: bool) -> Result<DecidedMove, Refusal>
        ensures { MatchResult result
            (λ decided. IsDecidedMove self.now.router (slots_of self.now.flights) number decided × HasNumberFor (slots_of self.now.flights) keep)
            (λ why. HasEffect T.tid T.records self.now (Move number keep) (Effect.Refused why) self.now) }
    {
        let Some(flight) = self.flights.get(number) else {
            return Err(Refusal::NoFlight);
        };
        if keep && self.left() < 1 {
            return Err(Refusal::NoNumbers);
        }
        Ok(DecidedMove {
            node: flight.node,
            key: flight.packet.view().key(),
            header: flight.packet.header,
            hops: flight.hops,
            decision: self.router.decide(flight),
        })
    }

    /// Moves the flight, or a copy of it, as was decided.
    pub fn move_flight(
        &mut self,
        number: u32,
        keep: bool,
        decided: &DecidedMove,
    ) -> Result<Effect, AllocError>
        requires decided { IsDecidedMove self.old.router (slots_of self.old.flights) number decided.now }
        requires few { HasNumberFor (slots_of self.old.flights) keep }
        ensures router { self.new.router ≡ self.old.router }
        ensures plays { EndsInEffect T.tid T.records self.old (Move number keep) result self.new }
        ensures full { OnErr result (LacksRoom self.old (Move number keep)) }
        ensures lacks { OnErr result (LacksRoom self.new (Move number keep)) }
    {
        let room = self.room_for(decided)?;
        if keep {
            let copy = self.put_copy(number)?;
            Ok(self.carry_out(copy, decided, room))
        } else {
            Ok(self.carry_out(number, decided, room))
        }
    }

    /// Room for what the move can lead to at its node: a message that is told, and one that waits. None is made where
    /// the packet isn't taken in.
    fn room_for(&mut self, decided: &DecidedMove) -> Result<Room, AllocError>
        requires { decided.now.node < length self.old.router.tables.plan.nodes.items }
        ensures flights { slots_of self.new.flights ≡ slots_of self.old.flights }
        ensures room { room_of self.new.flights ≡ room_of self.old.flights }
        ensures router { self.new.router ≡ self.old.router }
        ensures assemblers { self.new.assemblers.items ≡ self.old.assemblers.items }
        ensures termini { (traffic_value T.tid T.records self.new).termini
            ≡ (traffic_value T.tid T.records self.old).termini }
        ensures enough { IfOk result (λ room. decided.now.decision ≡ Decision.Here → IsRoomAt self.new decided.now.node decided.now.header room) }
        ensures full { OnErr result ((decided.now.decision ≡ Decision.Here)
            × ((decided.now.header.eom ≡ true) ⊎ ¬ HasRoomAt self.old decided.now.node)) }
        ensures lacks { OnErr result ((decided.now.decision ≡ Decision.Here)
            × ((decided.now.header.eom ≡ true) ⊎ ¬ HasRoomAt self.new decided.now.node)) }
    {
        let Decision::Here = decided.decision else {
            return Ok(Room {
                told: Vec::new(self.alloc),
                kept: Vec::new(self.alloc),
            });
        };
        let told = room_for_message(self.alloc, decided.header)?;
        let kept = room_for_message(self.alloc, decided.header)?;
        reserve_at(&mut self.queues[decided.node])?;
        Ok(Room { told, kept })
    }

    /// Puts a copy of a flight in where that is, under the next number.
    fn put_copy(&mut self, number: u32) -> Result<u32, AllocError>
        requires there { is_some (flight_at (slots_of self.old.flights) number) ≡ true }
        requires few { length (slots_of self.old.flights) ≤ most_flights }
        ensures number { IfOk result (λ copy. copy ≡ length (slots_of self.old.flights)) }
        ensures flights { OnOk result (slots_of self.new.flights ≡ slots_of self.old.flights ++ flight_at (slots_of self.old.flights) number ∷ []) }
        ensures none { OnErr result (slots_of self.new.flights ≡ slots_of self.old.flights) }
        ensures router { self.new.router ≡ self.old.router }
        ensures assemblers { self.new.assemblers.items ≡ self.old.assemblers.items }
        ensures queues { self.new.queues.items ≡ self.old.queues.items }
        ensures full { OnErr result ((room_of self.old.flights < 1)
            ⊎ IfSome (flight_at (slots_of self.old.flights) number) (λ f. 64 < length f.packet.payload)) }
        ensures lacks { OnErr result ((room_of self.new.flights < 1)
            ⊎ IfSome (flight_at (slots_of self.old.flights) number) (λ f. 64 < length f.packet.payload)) }
    {
        let Some(flight) = self.flights.get(number) else {
            unreachable!();
        };
        let copy = flight.copy(self.alloc)?;
        self.reserve(1)?;
        Ok(self.add(Some(copy)))
    }

    /// Moves the flight of this number, as was decided.
    fn carry_out(&mut self, number: u32, decided: &DecidedMove, room: Room) -> Effect
        requires decided { IsDecidedMove self.old.router (slots_of self.old.flights) number decided.now }
        requires enough { decided.now.decision ≡ Decision.Here → IsRoomAt self.old decided.now.node decided.now.header room }
        ensures router { self.new.router ≡ self.old.router }
        ensures moves { CarriesOutMove self.old.router.tables (traffic_value T.tid T.records self.old) number
            (effect_value result) (traffic_value T.tid T.records self.new) }
    {
        match decided.decision {
            Decision::Here => {
                let Some(flight) = self.end(number) else {
                    unreachable!();
                };
                self.receive(number, &flight, room)
            }
            Decision::Drop(why) => {
                let _ = self.end(number);
                Effect::Stopped { number, why }
            }
            Decision::Forward(hop) => {
                self.go_on(number, hop.next);
                Effect::Moved {
                    number,
                    node: hop.next,
                    hops: decided.hops + 1,
                }
            }
        }
    }

    /// Takes a flight's packet in at its node.
    fn receive(&mut self, number: u32, flight: &Flight, room: Room) -> Effect
        requires node { flight.now.node < length self.old.router.tables.plan.nodes.items }
        requires enough { IsRoomAt self.old flight.now.node flight.now.packet.header room }
        ensures router { self.new.router ≡ self.old.router }
        ensures receives { Receives (traffic_value T.tid T.records self.old) number
            (flight_value flight.now) (effect_value result)
            (traffic_value T.tid T.records self.new) }
    {
        let node = flight.node;
        let key = flight.packet.view().key();
        let receipt = feed(
            self.alloc,
            &mut self.assemblers[node],
            &flight.packet,
            room.told,
        );
        match receipt {
            Receipt::Whole(bytes) => {
                wait_at(self.alloc, &mut self.queues[node], key, &bytes, room.kept);
                Effect::Whole {
                    number,
                    node,
                    key,
                    bytes,
                }
            }
            Receipt::Held => Effect::Held { number, node, key },
            Receipt::Dropped(why) => Effect::Dropped {
                number,
                node,
                key,
                why,
            },
        }
    }
}
