//! One event of a network with walkers.
ghost use Rattle.std.specs.Prelude.{◌≡◌, OnErr, None};
ghost use Rattle.net_runs.specs.Walkers.{Happened};
ghost use Rattle.net_sim.{specs.Effects.{effect_value}, specs.Outcomes.{outcome_value}};

mod asking;
mod beginning;
mod handing;
mod telling;

use crate::effect::Effect;
use crate::network::Network;
use crate::outcome::Outcome;
use pdr_repository::Terminus;
use plan_values::Event;
use std::alloc::AllocError;

impl<'a, T: Terminus> Network<'a, T> {
    ghost use Rattle.net_sim.{specs.Outcomes.{event_value}, specs.Networks.{checked_of, EndsInOutcome}, specs.LackingRooms.{NetworkLacksRoom}};

    /// Plays an event. Where memory runs out, nothing has changed.
    pub fn play(&mut self, event: &Event) -> Result<Outcome, AllocError>
        ensures checked { checked_of self.new ≡ checked_of self.old }
        ensures plays { EndsInOutcome T.tid T.records self.old (event_value event.now) result self.new }
        ensures full { OnErr result (NetworkLacksRoom self.old (event_value event.now)) }
        ensures lacks { OnErr result (NetworkLacksRoom self.new (event_value event.now)) }
    {
        match event {
            Event::Put { node, bytes } => Ok(happened(self.traffic.put(*node, bytes)?)),
            Event::Move { flight, keep } => self.move_flight(*flight, *keep),
            Event::Lose { flight } => Ok(happened(self.traffic.lose(*flight))),
            Event::Expire { node, key } => Ok(happened(self.traffic.expire(*node, *key))),
            Event::Answer { node } => {
                Ok(happened(self.traffic.answer(*node, &mut self.answer)?))
            }
            Event::Switch { node } => Ok(happened(self.traffic.switch(*node))),
            Event::Walk {
                node,
                eid,
                tag,
                count,
            } => self.begin(*node, *eid, *tag, *count),
            Event::Ask { walker } => self.ask(*walker),
            Event::Collected { walker } => Ok(self.tell(*walker)),
        }
    }
}

/// The outcome of an event with which no walker is handed anything.
fn happened(effect: Effect) -> Outcome
    ensures { outcome_value result ≡ Happened (effect_value effect) None }
{
    Outcome::Happened {
        effect,
        handed: None,
    }
}
