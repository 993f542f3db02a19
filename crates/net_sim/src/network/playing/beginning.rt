//! A walk begins.
ghost use Rattle.std.specs.Prelude.{◌≡◌, ◌↔◌, ◌≤◌, ◌<◌, length, option_map, Any, All, IsTrue, IfNone, MatchOption};

use crate::network::Network;
use crate::network_walker::NetworkWalker;
use crate::outcome::Outcome;
use crate::refusal::Refusal;
use crate::walk_refusal::WalkRefusal;
use mctp_transport::{Eid, Tag};
use pdr_repository::{Terminus, five_packets};
use std::alloc::AllocError;

/// The fewest bytes that a request may ask for.
const LEAST_COUNT: u16 = 8;

impl<'a, T: Terminus> Network<'a, T> {
    ghost use Rattle.net_runs.specs.Walkers.{WalkedState, BeginWalk};
    ghost use Rattle.net_sim.{specs.Requests.{WhyNot}, specs.Outcomes.{walk_refusal_value}, specs.NetworkWalkers.{walker_value, IsAt, StandsAt}, specs.WalkedStanding.{StandsForWalked}, specs.Networks.{network_value, checked_of, EndsInOutcome}};

    /// Begins a walk at a node, which asks the terminus at the endpoint ID under the tag for parts of at most `count`
    /// bytes.
    pub(super) fn begin(
        &mut self,
        node: usize,
        eid: Eid,
        tag: Tag,
        count: u16,
    ) -> Result<Outcome, AllocError>
        ensures checked { checked_of self.new ≡ checked_of self.old }
        ensures plays { EndsInOutcome T.tid T.records self.old (BeginWalk node eid.value tag.value count) result self.new }
    {
        if let Some(why) = self.why_not_begin(node, eid, tag, count) {
            return Ok(Outcome::Refused(why));
        }
        self.walkers.reserve(1)?;
        let walker = NetworkWalker::new(self.alloc, node, eid, tag, count)?;
        self.index.note(node, eid, tag, self.walkers.len())?;
        self.walkers.push_reserved(walker);
        Ok(Outcome::Begun {
            walker: self.walkers.len(),
        })
    }

    /// Why no such walk can begin, if so.
    fn why_not_begin(&self, node: usize, eid: Eid, tag: Tag, count: u16) -> Option<WalkRefusal>
        ensures first { (w : WalkedState) → StandsForWalked (network_value T.tid T.records self.now) w
            → WhyNot (checked_of self.now).0.plan w (BeginWalk node eid.value tag.value count) (option_map walk_refusal_value result) }
        ensures node { IfNone result (node < length (checked_of self.now).0.plan.nodes.items) }
        ensures count { IfNone result ((8 ≤ count) × (count ≤ 4079)) }
        ensures new { IfNone result (¬ Any (λ walker. IsAt node eid.value tag.value (walker_value walker)) self.now.walkers.items) }
    {
        if !self.traffic.has_node(node) {
            return Some(WalkRefusal::Shared(Refusal::NoNode));
        }
        if self.has_walker(node, eid, tag) {
            return Some(WalkRefusal::WalkerThere);
        }
        if self.traffic.no_terminus_holds(eid) {
            return Some(WalkRefusal::NoTerminusThere);
        }
        if count < LEAST_COUNT || five_packets(self.traffic.plan().unit) < count {
            return Some(WalkRefusal::WrongCount);
        }
        None
    }

    /// Whether a walker of this node, endpoint ID and tag exists.
    fn has_walker(&self, node: usize, eid: Eid, tag: Tag) -> bool
        ensures { IsTrue result ↔ Any (λ walker. IsAt node eid.value tag.value (walker_value walker)) self.now.walkers.items }
    {
        self.walker_at(node, eid, tag).is_some()
    }

    /// The index of the walker of this node, endpoint ID and tag, if there is one.
    pub(super) fn walker_at(&self, node: usize, eid: Eid, tag: Tag) -> Option<usize>
        ensures { MatchOption result (All (λ walker. ¬ IsAt node eid.value tag.value (walker_value walker)) self.now.walkers.items)
            (λ index. StandsAt node eid.value tag.value self.now.walkers.items index) }
    {
        let index = self.index.find(node, eid, tag)?;
        if self.walkers.get(index)?.is_at(node, eid, tag) {
            Some(index)
        } else {
            None
        }
    }
}
