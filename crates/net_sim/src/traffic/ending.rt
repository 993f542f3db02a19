//! What is lost, and messages whose time is over.
ghost use Rattle.std.specs.Prelude.{◌≡◌, ◌-◌};
ghost use Rattle.mctp_transport.specs.Packets.{key_value};

use super::Traffic;
use crate::effect::Effect;
use crate::refusal::Refusal;
use mctp_transport::Key;
use pdr_repository::Terminus;

impl<'a, T: Terminus> Traffic<'a, T> {
    ghost use Rattle.net_runs.specs.Events.{Lose, Expire};
    ghost use Rattle.net_sim.specs.Traffics.{HasEffect};

    /// Loses a flight.
    pub fn lose(&mut self, number: u32) -> Effect
        ensures router { self.new.router ≡ self.old.router }
        ensures plays { HasEffect T.tid T.records self.old (Lose number) result self.new }
    {
        if !self.flights.has(number) {
            return Effect::Refused(Refusal::NoFlight);
        }
        let _ = self.end(number);
        Effect::Lost { number }
    }

    /// Ends the message of a key at a node.
    pub fn expire(&mut self, node: usize, key: Key) -> Effect
        ensures router { self.new.router ≡ self.old.router }
        ensures plays { HasEffect T.tid T.records self.old (Expire node (key_value key)) result self.new }
    {
        if !self.has_node(node) {
            return Effect::Refused(Refusal::NoNode);
        }
        let was_open = self.assemblers[node].expire(key);
        Effect::Expired { node, was_open }
    }
}
