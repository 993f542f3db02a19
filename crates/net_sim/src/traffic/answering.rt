//! Termini that answer (DSP0248, section 26.2), in packets (DSP0236, section 8.3).
ghost use Rattle.std.specs.Prelude.{◌≡◌, All, ◌+◌, ◌*◌, ◌-◌, ◌<◌, ◌≤◌, OnErr, length, Some, false};
ghost use Rattle.mctp_transport.specs.Packets.{key_value};
ghost use Rattle.net_runs.specs.States.{unit_of};
ghost use Rattle.net_sim.{specs.Flights.{slots_of, room_of}, specs.Payloads.{IsRoomFor}};

use super::Traffic;
use crate::effect::Effect;
use crate::payload::rooms_for_answer;
use crate::refusal::Refusal;
use crate::terminus_queue::{answer_at, idle_at};
use arrayvec::ArrayVec;
use mctp_transport::{Key, Packets, Seq};
use pdr_repository::{MAX_ANSWER, Terminus};
use std::alloc::AllocError;

impl<'a, T: Terminus> Traffic<'a, T> {
    ghost use Rattle.net_runs.specs.Events.{most_flights, AnswerAt};
    ghost use Rattle.net_sim.{specs.Effects.{effect_value}, specs.Traffics.{EndsInEffect}, specs.Sending.{Sends}, specs.LackingRooms.{LacksRoom}};

    /// Lets the terminus of a node answer the oldest message that waits there. Its answer is written into `out`.
    pub fn answer(
        &mut self,
        node: usize,
        out: &mut ArrayVec<u8, MAX_ANSWER>,
    ) -> Result<Effect, AllocError>
        ensures router { self.new.router ≡ self.old.router }
        ensures plays { EndsInEffect T.tid T.records self.old (AnswerAt node) result self.new }
        ensures full { OnErr result (LacksRoom self.old (AnswerAt node)) }
        ensures lacks { OnErr result (LacksRoom self.new (AnswerAt node)) }
    {
        if !self.has_node(node) {
            return Ok(Effect::Refused(Refusal::NoNode));
        }
        if let Some(why) = idle_at(&self.queues[node]) {
            return Ok(Effect::Refused(why));
        }
        if self.left() < 64 {
            return Ok(Effect::Refused(Refusal::NoNumbers));
        }
        let Ok(rooms) = rooms_for_answer(self.alloc, self.unit()) else {
            // no memory: there was no room for the payloads of an answer.
            return Err(AllocError);
        };
        if self.reserve(64).is_err() {
            // no memory: the flights could not grow.
            return Err(AllocError);
        }
        let Some(asked) = answer_at(&mut self.queues[node], out) else {
            return Ok(Effect::Refused(Refusal::NothingWaits));
        };
        if !asked.answered {
            return Ok(Effect::Silent { node });
        }
        Ok(self.send(node, asked.key, out, rooms))
    }

    /// Puts the packets of an answer in at a node, to where a message of this key came from. Their long payloads are
    /// copied into the rooms.
    fn send(&mut self, node: usize, asked: Key, answer: &[u8], rooms: Vec<Vec<u8>>) -> Effect
        requires node { node < length self.old.router.tables.plan.nodes.items }
        requires few { length (slots_of self.old.flights) + 64 ≤ most_flights + 1 }
        requires room { 64 ≤ room_of self.old.flights }
        requires enough { 64 < unit_of self.old.router.tables.plan → 4096 ≤ length rooms.items * unit_of self.old.router.tables.plan }
        requires rooms { All (IsRoomFor (unit_of self.old.router.tables.plan)) rooms.items }
        requires some { 0 < length answer.now }
        requires most { length answer.now ≤ 4096 }
        ensures sends { Sends self.old.router.tables.plan node (key_value asked) answer.now (slots_of self.old.flights) (effect_value result) (slots_of self.new.flights) }
        ensures router { self.new.router ≡ self.old.router }
        ensures assemblers { self.new.assemblers.items ≡ self.old.assemblers.items }
        ensures queues { self.new.queues.items ≡ self.old.queues.items }
    {
        let key = Key {
            source: self.router.plan().nodes[node].eid,
            tag: asked.tag,
            owner: false,
        };
        let first = self.flights.next_number();
        let packets = Packets::within(self.unit(), answer, asked.source, key, Seq::new(0));
        self.put_all(node, packets, rooms);
        let last = self.flights.next_number() - 1;
        Effect::Answered {
            node,
            first: first as u32,
            last: last as u32,
        }
    }
}
