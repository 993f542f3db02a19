//! The network of a checked plan, or of a checked move, with its walkers.
ghost use Rattle.std.specs.Prelude.{◌≡◌, ◌⊎◌, ◌∷◌, ◌+◌, ◌<◌, [], All, MatchOption, IfOk, IsSomeAnd, OnErr, take, length, map, slice_get, None, Some, false, true};
ghost use Rattle.net_sim.{specs.NetworkWalkers.{walker_value}, specs.Traffics.{traffic_checked}, specs.WalkerIndexes.{AreNoted}};

mod laws;
mod playing;

use crate::network_walker::NetworkWalker;
use crate::outcome::Outcome;
use crate::traffic::Traffic;
use crate::walker_index::WalkerIndex;
use arrayvec::ArrayVec;
pub use laws::{events_that_take_no_memory, requests_come_as_sent};
use mctp_transport::PacketView;
use net_check::{AcceptedNetwork, Checked, CheckedMove};
use pdr_repository::{MAX_ANSWER, Terminus};
use plan_values::{Event, Plan};
use std::alloc::{AllocError, Global};

/// What came of a list of events.
#[derive(Debug, Drop)]
pub struct Played {
    /// The outcomes of the events that were played, in their order.
    pub outcomes: Vec<Outcome>,
    /// Whether memory ran out at the event after those, which changed nothing.
    pub stopped: bool,
}

/// The network of a checked plan, or of a checked move, at one moment: the packets on their way, the assembler of each
/// node, the terminus of each node that has one, with the messages that wait there, which nodes have switched to the
/// rows of the plan that they move to, and the walkers, in the order in which they began. The termini are of one type,
/// which may be a box of any terminus.
#[derive(Drop)]
pub struct Network<'a, T = Box<dyn Terminus>> {
    alloc: Global,
    traffic: Traffic<'a, T>,
    walkers: Vec<NetworkWalker>,
    /// Where each of them stands among them, so that no search is needed.
    index: WalkerIndex,
    /// Room for an answer of a terminus, which is written over the one before it.
    answer: ArrayVec<u8, MAX_ANSWER>,
    ghost noted: { AreNoted index walkers.items },
    ghost placed: { All (λ walker. (walker_value walker).node < length (traffic_checked traffic).0.plan.nodes.items) walkers.items },
}

impl<'a, T: Terminus> Network<'a, T> {
    ghost use Rattle.net_tables.specs.TwoPlans.{one_plan, moving};
    ghost use Rattle.mctp_transport.specs.Packets.{packet_value_of};
    ghost use Rattle.net_runs.{specs.States.{Flight, unit_of}, specs.Walkers.{WalkerValue, WalkedState}};
    ghost use Rattle.net_sim.{specs.Outcomes.{outcome_value, event_value}, specs.WalkedStanding.{StandsForWalked}, specs.Networks.{network_value, checked_of, StandsAtRest, StandsAtStart, EndsInOutcome, OfPlayed}, specs.LackingRooms.{NetworkLacksRoom}, specs.Dealing.{planned_termini}, specs.Played.{PlaysAll, StopsAfter}, specs.Walks.{PlaysWalks}, specs.AsSent.{PlaysAsSent}, specs.Promised.{IsPromised}, specs.PutInBefore.{PlaysWhatWasPutIn}};

    /// The network of a checked plan, in which nothing has happened yet. The termini are dealt to the nodes that have
    /// one, in the plan's order, one to each, as many as `planned_termini_count` tells; where they are as planned, it
    /// stands for the state at the start of each run.
    pub fn new(
        alloc: Global,
        checked: Checked<'a>,
        termini: Vec<T>,
    ) -> Result<Network<'a, T>, AllocError>
        requires boxes { length termini.items ≡ length (planned_termini checked.0 checked.1) }
        ensures checked { IfOk result (λ network. checked_of network ≡ (one_plan checked.entry.0, checked.entry.1)) }
        ensures at_rest { IfOk result (StandsAtRest T.tid T.records checked.entry.0 termini.items) }
        ensures stands { IfOk result (StandsAtStart T.tid T.records checked.entry.0 checked.entry.1 termini.items) }
    {
        Network::start(alloc, AcceptedNetwork::of_plan(checked), termini)
    }

    /// The network of a checked move, in which nothing has happened yet: each node goes by its rows in the plan before,
    /// until it switches. The termini are those of that plan, as `new` takes them.
    pub fn new_move(
        alloc: Global,
        checked: CheckedMove<'a>,
        termini: Vec<T>,
    ) -> Result<Network<'a, T>, AllocError>
        requires boxes { length termini.items ≡ length (planned_termini checked.0 checked.2) }
        ensures checked { IfOk result (λ network. checked_of network ≡ (moving checked.entry.0 checked.entry.1, checked.entry.2)) }
        ensures at_rest { IfOk result (StandsAtRest T.tid T.records checked.entry.0 termini.items) }
        ensures stands { IfOk result (StandsAtStart T.tid T.records checked.entry.0 checked.entry.2 termini.items) }
    {
        Network::start(alloc, AcceptedNetwork::of_move(checked), termini)
    }

    /// The network of what was checked, in which nothing has happened yet, over termini that are dealt as `new` deals
    /// them.
    pub fn start(
        alloc: Global,
        accepted: AcceptedNetwork<'a>,
        termini: Vec<T>,
    ) -> Result<Network<'a, T>, AllocError>
        ensures checked { IfOk result (λ network. checked_of network ≡ accepted.entry) }
        ensures at_rest { IfOk result (StandsAtRest T.tid T.records accepted.entry.0.plan termini.items) }
        ensures stands { IfOk result (StandsAtStart T.tid T.records accepted.entry.0.plan accepted.entry.1 termini.items) }
    {
        let traffic = Traffic::start(alloc, accepted, termini)?;
        let walkers = Vec::new(alloc);
        let index = WalkerIndex::new(alloc);
        Ok(Network {
            alloc,
            traffic,
            walkers,
            index,
            answer: ArrayVec::new(),
        })
    }

    /// Plays an event. Where memory runs out, nothing has changed.
    pub fn step(&mut self, event: &Event) -> Result<Outcome, AllocError>
        ensures checked { checked_of self.new ≡ checked_of self.old }
        ensures plays { EndsInOutcome T.tid T.records self.old (event_value event.now) result self.new }
        // Memory is wanted only where the event makes some of its own, or where room was lacking, and lacks still.
        ensures full { OnErr result (NetworkLacksRoom self.old (event_value event.now)) }
        ensures lacks { OnErr result (NetworkLacksRoom self.new (event_value event.now)) }
        // Every run with walkers that the network may stand for keeps the headline, and what is promised of deliveries.
        ensures promises { IsPromised (checked_of self.old).0 (checked_of self.old).1 }
        // The exchanges that each walker has taken are a walk over the records of the terminus that it asks.
        ensures walks { IfOk result (λ outcome. PlaysWalks (checked_of self.old).0 (checked_of self.old).1
            (network_value T.tid T.records self.old) (event_value event.now ∷ []) (outcome_value outcome ∷ [])
            (network_value T.tid T.records self.new)) }
    {
        // The walks rest on this: the tables are accepted.
        let _plan = self.traffic.plan();
        self.play(event)
    }

    /// Plays events one after another, until memory runs out at one; room for the list of outcomes is made first, and
    /// where that is refused nothing is played.
    pub fn run(&mut self, events: &[Event]) -> Result<Played, AllocError>
        ensures checked { checked_of self.new ≡ checked_of self.old }
        ensures plays { IfOk result (λ played. OfPlayed PlaysAll T.tid T.records self.old events.now played self.new) }
        // Where one message at a time is sent under a key to a destination, of five packets at most, what is told of it
        // is that message.
        ensures exact { IfOk result (λ played. OfPlayed (PlaysAsSent (unit_of (checked_of self.old).0.plan)) T.tid T.records self.old events.now played self.new) }
        // Every run with walkers that the network may stand for keeps the headline, and what is promised of deliveries.
        ensures promises { IsPromised (checked_of self.old).0 (checked_of self.old).1 }
        // A whole message that is told joins packets that were put in before it, by events that are named by their
        // indices.
        ensures joins { IfOk result (λ played. OfPlayed (λ tables. PlaysWhatWasPutIn tables (checked_of self.old).1) T.tid T.records self.old events.now played self.new) }
        // The exchanges that each walker has taken are a walk over the records of the terminus that it asks.
        ensures walks { IfOk result (λ played. OfPlayed (λ tables. PlaysWalks tables (checked_of self.old).1) T.tid T.records self.old events.now played self.new) }
        ensures whole { IfOk result (λ played. played.stopped ≡ false → length played.outcomes.items ≡ length events.now) }
        ensures stopped { IfOk result (λ played. played.stopped ≡ true → StopsAfter (checked_of self.old).0
            (network_value T.tid T.records self.old)
            (map event_value events.now) (map outcome_value played.outcomes.items)
            (network_value T.tid T.records self.new)) }
        // Memory is wanted there only where the event makes some of its own, or where room lacks.
        ensures lacks { IfOk result (λ played. played.stopped ≡ true
            → IsSomeAnd (slice_get events.now (length played.outcomes.items)) (λ event. NetworkLacksRoom self.new (event_value event))) }
        ensures unplayed { OnErr result (network_value T.tid T.records self.new
            ≡ network_value T.tid T.records self.old) }
    {
        let _plan = self.traffic.plan();
        let mut outcomes = Vec::with_capacity(self.alloc, events.len())?;
        for event in events {
            match self.step(event) {
                Ok(outcome) => outcomes.push_reserved(outcome),
                Err(_) => {
                    return Ok(Played {
                        outcomes,
                        stopped: true,
                    });
                }
            }
        }
        Ok(Played {
            outcomes,
            stopped: false,
        })
    }

    /// The plan that the nodes start on.
    pub fn plan(&self) -> &'a Plan
        ensures { result.now ≡ (checked_of self.now).0.plan }
    {
        self.traffic.plan()
    }

    /// The node where a flight is, and its packet. None where there is no flight of this number.
    pub fn flight(&self, number: u32) -> Option<(usize, PacketView<'_>)>
        ensures { (w : WalkedState) → StandsForWalked (network_value T.tid T.records self.now) w
            → MatchOption result (w.network.flight number ≡ None)
            (λ found. (f : Flight) × (w.network.flight number ≡ Some f) × (found.0 ≡ f.node) × (packet_value_of found.1 ≡ f.packet)) }
    {
        let flight = self.traffic.flight(number)?;
        Some((flight.node, flight.packet.view()))
    }

    /// The index of the walker of this number, if there is one.
    fn index_of(&self, number: usize) -> Option<usize>
        ensures { MatchOption result ((number ≡ 0) ⊎ (length self.now.walkers.items < number))
            (λ index. (index + 1 ≡ number) × (index < length self.now.walkers.items)) }
    {
        let index = number.checked_sub(1)?;
        if index < self.walkers.len() {
            Some(index)
        } else {
            None
        }
    }

    /// The records that the walker of this number has collected, by place. None where there is no such walker.
    pub fn collected(&self, walker: usize) -> Option<&[Vec<u8>]>
        ensures { (w : WalkedState) → StandsForWalked (network_value T.tid T.records self.now) w
            → MatchOption result (w.walker walker ≡ None) (λ found. (x : WalkerValue) × (w.walker walker ≡ Some x) × (map (λ v. v.items) found.now ≡ x.walk.records)) }
    {
        let index = self.index_of(walker)?;
        Some(self.walkers[index].records())
    }
}
