//! A walker's request is put in.
ghost use Rattle.std.specs.Prelude.{◌≡◌, ◌↔◌, ◌<◌, ℕ, length, IsTrue, OnErr, MatchOption};
ghost use Rattle.net_tables.specs.Routing.{Holds};
ghost use Rattle.net_runs.{specs.States.{NetworkState}, specs.Walkers.{IsOver, AreSettled}};
ghost use Rattle.net_sim.{specs.Standing.{HasNetworkState}, specs.Traffics.{traffic_value, traffic_checked, HasNumberAndRoom}, specs.NetworkWalkers.{walker_value}, specs.Requests.{MayAsk, MayNotAsk, PutsRequest}, specs.Outcomes.{walk_refusal_value}};

use crate::network::Network;
use crate::network_walker::NetworkWalker;
use crate::outcome::Outcome;
use crate::refusal::Refusal;
use crate::traffic::Traffic;
use crate::walk_refusal::WalkRefusal;
use pdr_repository::Terminus;
use std::alloc::AllocError;

impl<'a, T: Terminus> Network<'a, T> {
    ghost use Rattle.net_runs.specs.Walkers.{Ask};
    ghost use Rattle.net_sim.{specs.Networks.{checked_of, EndsInOutcome}, specs.LackingRooms.{NetworkLacksRoom}};

    /// Puts the request of the walker of this number in at its node: the next one, or once more the outstanding one.
    pub(super) fn ask(&mut self, number: usize) -> Result<Outcome, AllocError>
        ensures checked { checked_of self.new ≡ checked_of self.old }
        ensures plays { EndsInOutcome T.tid T.records self.old (Ask number) result self.new }
        ensures full { OnErr result (NetworkLacksRoom self.old (Ask number)) }
        ensures lacks { OnErr result (NetworkLacksRoom self.new (Ask number)) }
    {
        if self.traffic.left() < 1 {
            return Ok(Outcome::Refused(WalkRefusal::Shared(Refusal::NoNumbers)));
        }
        let Some(index) = self.index_of(number) else {
            return Ok(Outcome::Refused(WalkRefusal::NoWalker));
        };
        if let Some(why) = why_not_ask(&self.traffic, &self.walkers[index]) {
            return Ok(Outcome::Refused(why));
        }
        self.traffic.reserve(1)?;
        match put_request(&mut self.traffic, &mut self.walkers[index]) {
            Some(number) => Ok(Outcome::Asked {
                walker: index + 1,
                number,
            }),
            None => Ok(Outcome::Refused(WalkRefusal::WalkOver)),
        }
    }
}

/// Why the walker can't ask, if so: its walk is over, or a new request of it has to wait.
fn why_not_ask<T: Terminus>(traffic: &Traffic<T>, walker: &NetworkWalker) -> Option<WalkRefusal>
    requires { (walker_value walker.now).node < length (traffic_checked traffic.now).0.plan.nodes.items }
    ensures { (w : NetworkState) → HasNetworkState (traffic_value T.tid T.records traffic.now) w
        → MatchOption result (MayAsk (traffic_checked traffic.now).0.plan w (walker_value walker.now))
        (λ why. MayNotAsk (traffic_checked traffic.now).0.plan w (walker_value walker.now) (walk_refusal_value why)) }
{
    if walker.is_over() {
        return Some(WalkRefusal::WalkOver);
    }
    if walker.is_idle() && !are_settled(traffic, walker) {
        return Some(WalkRefusal::Unsettled);
    }
    None
}

/// Whether the keys of the walker's requests and of their answers are settled.
fn are_settled<T: Terminus>(traffic: &Traffic<T>, walker: &NetworkWalker) -> bool
    requires { (walker_value walker.now).node < length (traffic_checked traffic.now).0.plan.nodes.items }
    ensures { (w : NetworkState) (own : ℕ) → HasNetworkState (traffic_value T.tid T.records traffic.now) w
        → Holds (traffic_checked traffic.now).0.plan (walker_value walker.now).node own
        → IsTrue result ↔ AreSettled (traffic_checked traffic.now).0.plan w own (walker_value walker.now) }
{
    let own = traffic.eid_at(walker.node());
    traffic.is_settled(walker.asking_key(own), walker.eid())
        && traffic.is_settled(walker.answering_key(), own)
}

/// Puts the walker's request in at its node, under the number that is told. None where its walk is over.
fn put_request<T: Terminus>(traffic: &mut Traffic<T>, walker: &mut NetworkWalker) -> Option<u32>
    requires node { (walker_value walker.old).node < length (traffic_checked traffic.old).0.plan.nodes.items }
    requires room { HasNumberAndRoom traffic.old }
    ensures checked { traffic_checked traffic.new ≡ traffic_checked traffic.old }
    ensures puts { MatchOption result
        (IsOver (walker_value walker.old) × (walker_value walker.new ≡ walker_value walker.old)
        × (traffic_value T.tid T.records traffic.new ≡ traffic_value T.tid T.records traffic.old))
        (λ number. PutsRequest (traffic_checked traffic.old).0 (traffic_value T.tid T.records traffic.old) (walker_value walker.old) number
        (traffic_value T.tid T.records traffic.new) (walker_value walker.new)) }
{
    let own = traffic.eid_at(walker.node());
    let request = walker.next_request()?;
    Some(traffic.put_one(
        walker.node(),
        walker.eid(),
        walker.asking_key(own),
        &request,
    ))
}
