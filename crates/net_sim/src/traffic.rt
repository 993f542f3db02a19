//! The packets of a network, and what they come to.
ghost use Rattle.std.specs.Prelude.{◌≡◌, ℕ, ◌+◌, ◌-◌, ◌<◌, ◌≤◌, ◌↔◌, ◌++◌, ◌∷◌, [], ◌⊎◌, IsTrue, IfSome, None, IfOk, OnOk, OnErr, length, map, option_map, slice_get, slice_set, is_some, Some, true};
ghost use Rattle.mctp_transport.{specs.declared.assembler.Assembler.{Assembler}, specs.Assembly.{assembler_slots, assembler_limit}};
ghost use Rattle.net_runs.specs.States.{Flight, unit_of};
ghost use Rattle.net_sim.{specs.Flights.{slots_of, flight_at, flight_value, gone_on, room_of}, specs.Payloads.{IsRoomFor}, specs.Placing.{IsPlaced}};

mod answering;
mod ending;
mod moving;
mod putting;
mod settling;

use crate::dealing::deal;
use crate::effect::Effect;
use crate::flights::{Flight, Flights};
use crate::payload::room_for_payload;
use crate::refusal::Refusal;
use crate::router::Router;
use crate::terminus_queue::TerminusQueue;
use mctp_transport::{Assembler, Eid, idle_assemblers};
pub use moving::DecidedMove;
use net_check::AcceptedNetwork;
use pdr_repository::Terminus;
use plan_values::Plan;
use std::alloc::{AllocError, Global};

/// What a network of a checked plan, or of a checked move, holds beside its walkers: the packets on their way, the
/// assembler of each node, the terminus of each node that has one, with the messages that wait there, and which nodes
/// have switched to the rows of the plan that they move to.
#[derive(Drop)]
pub struct Traffic<'a, T> {
    alloc: Global,
    router: Router<'a>,
    flights: Flights,
    assemblers: Vec<Assembler>,
    queues: Vec<Option<TerminusQueue<T>>>,
    ghost queued: { length queues.items ≡ length router.tables.plan.nodes.items },
    ghost assembled: { length assemblers.items ≡ length router.tables.plan.nodes.items },
    ghost sized: { (n : ℕ) (a : Assembler) → slice_get assemblers.items n ≡ Some a → (assembler_slots a ≡ 16) × (assembler_limit a ≡ 4096) },
    ghost placed: { (number : ℕ) (f : Flight) → flight_at (slots_of flights) number ≡ Some f → IsPlaced router.tables.plan router.certificate f },
}

impl<'a, T: Terminus> Traffic<'a, T> {
    ghost use Rattle.net_runs.{specs.Events.{most_flights, Switch}, specs.States.{at_start}};
    ghost use Rattle.net_check.specs.Accepted.{IsAccepted};
    ghost use Rattle.net_sim.{specs.Standing.{HasNetworkState}, specs.Traffics.{traffic_value, traffic_checked, HasEffect}, specs.Dealing.{resting, at_rest, planned_termini}};
    ghost use Rattle.mctp_transport.specs.PacketValues.{IsUnit};
    ghost use Rattle.net_tables.specs.Routing.{Holds};

    /// The network of what was checked, in which nothing has happened yet.
    #[tactic(auto, using(crate::proofs::Dealt::stands_at_rest))]
    pub fn start(
        alloc: Global,
        accepted: AcceptedNetwork<'a>,
        termini: Vec<T>,
    ) -> Result<Traffic<'a, T>, AllocError>
        ensures checked { IfOk result (λ network. traffic_checked network ≡ accepted.entry) }
        ensures at_rest { IfOk result (λ network. HasNetworkState (traffic_value T.tid T.records network)
            (at_rest accepted.entry.0.plan (map (resting T.tid T.records) termini.items))) }
        ensures stands { IfOk result (λ network. map (resting T.tid T.records) termini.items ≡ planned_termini accepted.entry.0.plan accepted.entry.1
            → HasNetworkState (traffic_value T.tid T.records network) (at_start accepted.entry.0.plan accepted.entry.1)) }
    {
        let router = Router::new(alloc, accepted)?;
        let flights = Flights::new(alloc, router.plan().nodes.as_slice())?;
        let assemblers = idle_assemblers(alloc, router.plan().nodes.len())?;
        let queues = deal(alloc, router.plan(), termini)?;
        Ok(Traffic {
            alloc,
            router,
            flights,
            assemblers,
            queues,
        })
    }

    /// The flight of this number.
    pub fn flight(&self, number: u32) -> Option<&Flight>
        ensures { option_map (λ f. flight_value f.now) result ≡ flight_at (slots_of self.now.flights) number }
    {
        self.flights.get(number)
    }

    /// How many flight numbers are left.
    pub fn left(&self) -> usize
        ensures { result ≡ most_flights + 1 - length (slots_of self.now.flights) }
    {
        (u32::MAX as usize + 1).saturating_sub(self.flights.next_number())
    }

    /// Makes room for so many flights more.
    pub fn reserve(&mut self, count: usize) -> Result<(), AllocError>
        ensures flights { slots_of self.new.flights ≡ slots_of self.old.flights }
        ensures room { OnOk result (count ≤ room_of self.new.flights) }
        ensures full { OnErr result (room_of self.old.flights < count) }
        ensures lacks { OnErr result (room_of self.new.flights < count) }
        ensures router { self.new.router ≡ self.old.router }
        ensures assemblers { self.new.assemblers.items ≡ self.old.assemblers.items }
        ensures queues { self.new.queues.items ≡ self.old.queues.items }
    {
        self.flights.reserve(count)
    }

    /// Makes room for a flight more, and for a payload of so many bytes, which is handed out.
    fn room_for_flight(&mut self, count: usize) -> Result<Vec<u8>, AllocError>
        ensures flights { slots_of self.new.flights ≡ slots_of self.old.flights }
        ensures room { OnOk result (0 < room_of self.new.flights) }
        ensures router { self.new.router ≡ self.old.router }
        ensures assemblers { self.new.assemblers.items ≡ self.old.assemblers.items }
        ensures queues { self.new.queues.items ≡ self.old.queues.items }
        ensures payload { IfOk result (IsRoomFor count) }
        ensures full { OnErr result ((room_of self.old.flights < 1) ⊎ (64 < count)) }
        ensures lacks { OnErr result ((room_of self.new.flights < 1) ⊎ (64 < count)) }
    {
        self.reserve(1)?;
        room_for_payload(self.alloc, count)
    }

    /// Takes the flight of this number out, which ends it.
    fn end(&mut self, number: u32) -> Option<Flight>
        requires { is_some (flight_at (slots_of self.old.flights) number) ≡ true }
        ensures flight { option_map flight_value result ≡ flight_at (slots_of self.old.flights) number }
        ensures flights { slots_of self.new.flights ≡ slice_set (slots_of self.old.flights) number None }
        ensures router { self.new.router ≡ self.old.router }
        ensures assemblers { self.new.assemblers.items ≡ self.old.assemblers.items }
        ensures queues { self.new.queues.items ≡ self.old.queues.items }
    {
        self.flights.end(number)
    }

    /// Moves the flight of this number one hop further, to a node.
    fn go_on(&mut self, number: u32, node: usize)
        requires there { is_some (flight_at (slots_of self.old.flights) number) ≡ true }
        requires few { IfSome (flight_at (slots_of self.old.flights) number) (λ f. f.hops < 255) }
        requires placed { IfSome (flight_at (slots_of self.old.flights) number) (λ f. IsPlaced self.old.router.tables.plan self.old.router.certificate (gone_on node f)) }
        ensures flights { slots_of self.new.flights ≡ slice_set (slots_of self.old.flights) number (option_map (gone_on node) (flight_at (slots_of self.old.flights) number)) }
        ensures router { self.new.router ≡ self.old.router }
        ensures assemblers { self.new.assemblers.items ≡ self.old.assemblers.items }
        ensures queues { self.new.queues.items ≡ self.old.queues.items }
    {
        self.flights.go_on(number, node);
    }

    /// Gives the next number to this flight, or to none that stays.
    fn add(&mut self, flight: Option<Flight>) -> u32
        requires room { 0 < room_of self.old.flights }
        requires few { length (slots_of self.old.flights) ≤ most_flights }
        requires placed { IfSome flight (λ f. IsPlaced self.old.router.tables.plan self.old.router.certificate (flight_value f)) }
        ensures number { result ≡ length (slots_of self.old.flights) }
        ensures flights { slots_of self.new.flights ≡ slots_of self.old.flights ++ option_map flight_value flight ∷ [] }
        ensures room { room_of self.new.flights + 1 ≡ room_of self.old.flights }
        ensures router { self.new.router ≡ self.old.router }
        ensures assemblers { self.new.assemblers.items ≡ self.old.assemblers.items }
        ensures queues { self.new.queues.items ≡ self.old.queues.items }
    {
        let number = self.flights.next_number() as u32;
        self.flights.push(flight);
        number
    }

    /// The transmission unit, in bytes.
    fn unit(&self) -> usize
        ensures unit { result ≡ unit_of self.now.router.tables.plan }
        ensures bounds { IsUnit result }
    {
        usize::from(self.router.plan().unit)
    }

    /// Whether there is such a node.
    pub fn has_node(&self, node: usize) -> bool
        ensures { IsTrue result ↔ (node < length self.now.router.tables.plan.nodes.items) }
    {
        node < self.router.plan().nodes.len()
    }

    /// The endpoint ID that a node holds.
    pub fn eid_at(&self, node: usize) -> Eid
        requires { node < length self.now.router.tables.plan.nodes.items }
        ensures { Holds self.now.router.tables.plan node result.value }
    {
        self.router.plan().nodes[node].eid
    }

    /// Lets a node go by its new rows from now on.
    pub fn switch(&mut self, node: usize) -> Effect
        ensures checked { traffic_checked self.new ≡ traffic_checked self.old }
        ensures plays { HasEffect T.tid T.records self.old (Switch node) result self.new }
    {
        if !self.has_node(node) {
            Effect::Refused(Refusal::NoNode)
        } else if !self.router.can_switch(node) {
            Effect::Refused(Refusal::NoSwitch)
        } else {
            self.router.switch(node);
            Effect::Switched { node }
        }
    }

    /// The plan that the nodes start on.
    pub fn plan(&self) -> &'a Plan
        ensures plan { result.now ≡ self.now.router.tables.plan }
        ensures accepted { IsAccepted self.now.router.tables self.now.router.certificate }
    {
        self.router.plan()
    }
}
