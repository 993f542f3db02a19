//! A flight moves, and a message that comes is handed to the walker that it is for.
ghost use Rattle.std.specs.Prelude.{◌≡◌, ◌<◌, All, length, option_map, IfSome, OnErr, MatchOption};
ghost use Rattle.net_sim.{specs.Effects.{effect_value}, specs.Outcomes.{handed_value}, specs.NetworkWalkers.{walker_value, IsReady, HandsOver}};

use super::happened;
use crate::effect::Effect;
use crate::handed::Handed;
use crate::network::Network;
use crate::network_walker::NetworkWalker;
use crate::outcome::Outcome;
use crate::traffic::DecidedMove;
use mctp_routing::Decision;
use mctp_transport::Key;
use pdr_repository::Terminus;
use std::alloc::AllocError;

impl<'a, T: Terminus> Network<'a, T> {
    ghost use Rattle.mctp_transport.specs.Packets.{key_value};
    ghost use Rattle.net_runs.{specs.Events.{Move}, specs.Walkers.{Happening}};
    ghost use Rattle.net_sim.{specs.Moves.{FindsListener}, specs.NetworkWalkers.{Listens, ListensAt}, specs.Networks.{checked_of, EndsInOutcome}, specs.LackingRooms.{NetworkLacksRoom}};

    /// Moves a flight, or a copy of it. A message that comes with it is handed to the walker that it is for, whose room
    /// is made before.
    pub(super) fn move_flight(&mut self, number: u32, keep: bool) -> Result<Outcome, AllocError>
        ensures checked { checked_of self.new ≡ checked_of self.old }
        ensures plays { EndsInOutcome T.tid T.records self.old (Happening (Move number keep)) result self.new }
        ensures full { OnErr result (NetworkLacksRoom self.old (Happening (Move number keep))) }
        ensures lacks { OnErr result (NetworkLacksRoom self.new (Happening (Move number keep))) }
    {
        let decided = match self.traffic.decide(number, keep) {
            Ok(decided) => decided,
            Err(why) => return Ok(happened(Effect::Refused(why))),
        };
        let Some(index) = self.listener(&decided) else {
            let effect = self.traffic.move_flight(number, keep, &decided)?;
            return Ok(happened(effect));
        };
        self.walkers[index].reserve()?;
        let effect = self.traffic.move_flight(number, keep, &decided)?;
        let handed = hand(&mut self.walkers[index], index + 1, &effect);
        Ok(Outcome::Happened { effect, handed })
    }

    /// The index of the walker for which a message is that comes with the move, if that brings a packet in.
    fn listener(&self, decided: &DecidedMove) -> Option<usize>
        ensures within { IfSome result (λ index. index < length self.now.walkers.items) }
        ensures finds { FindsListener decided.now self.now.walkers.items result }
    {
        let Decision::Here = decided.decision else {
            return None;
        };
        self.listener_at(decided.node, decided.key)
    }

    /// The index of the first walker for which a message is that comes at a node under a key.
    fn listener_at(&self, node: usize, key: Key) -> Option<usize>
        ensures { MatchOption result (All (λ walker. ¬ Listens node (key_value key) (walker_value walker)) self.now.walkers.items)
            (λ index. ListensAt node (key_value key) self.now.walkers.items index) }
    {
        if key.owner {
            return None;
        }
        self.walker_at(node, key.source, key.tag)
    }
}

/// Lets the walker of this number take the message that the effect brings, if it brings one.
fn hand(walker: &mut NetworkWalker, number: usize, effect: &Effect) -> Option<Handed>
    requires { IsReady walker.old }
    ensures { HandsOver (walker_value walker.old) number (effect_value effect.now) (option_map handed_value result) (walker_value walker.new) }
{
    let Effect::Whole { bytes, .. } = effect else {
        return None;
    };
    let result = walker.take(bytes);
    Some(Handed {
        walker: number,
        result,
    })
}
