//! Hops of packets, as a capture file has them.
ghost use Rattle.std.{specs.Prelude.{◌≡◌, ◌++◌, ◌≤◌, IfOk, OnOk, find, length, option_map}, specs.Option.{option_to_list}, specs.List.{flat_map}};
ghost use Rattle.bus_captures.specs.Written.{written_bytes};
ghost use Rattle.net_runs.specs.Walkers.{WalkedState};
ghost use Rattle.net_sim.{specs.Effects.{effect_value}, specs.Networks.{network_value}, specs.Outcomes.{event_value, outcome_value}, specs.WalkedStanding.{StandsForWalked}};
ghost use Rattle.net_tables.specs.Routing.{rows_of};
ghost use Rattle.bus_commands.specs.Hops.{IsDeparture, address_of, arriving, carried, departure_value, hop_between, interface_of, leads, moving, port_towards, reached, stamp};

use crate::departure::Departure;
use bus_captures::{CarriedPacket, add_packet};
use mctp_transport::Eid;
use net_sim::{Effect, Network, Outcome};
use net_tables::lookup::{port_at, rows_at};
use pdr_repository::Terminus;
use plan_values::{Event, Plan, Port, Row};
use std::alloc::{AllocError, Global};

/// The packet that an event is to move, if there is one.
pub fn departing<T: Terminus>(
    alloc: Global,
    network: &Network<T>,
    event: &Event,
) -> Result<Option<Departure>, AllocError>
    ensures { IfOk result (λ departure. (w : WalkedState) → StandsForWalked (network_value T.tid T.records network.now) w
        → IsDeparture w (event_value event.now) departure) }
{
    let Some(flight) = moving(event) else {
        return Ok(None);
    };
    let Some((node, packet)) = network.flight(flight) else {
        return Ok(None);
    };
    let mut bytes = vec![in alloc; 0; packet.len()]?;
    packet.put(bytes.as_mut_slice());
    Ok(Some(Departure {
        node,
        destination: packet.header.destination,
        bytes,
    }))
}

/// The flight that an event is to move, if it is such an event.
fn moving(event: &Event) -> Option<u32>
    ensures { result ≡ moving (event_value event.now) }
{
    match event {
        Event::Move { flight, .. } => Some(*flight),
        Event::Put { .. } => None,
        Event::Lose { .. } => None,
        Event::Expire { .. } => None,
        Event::Answer { .. } => None,
        Event::Switch { .. } => None,
        Event::Walk { .. } => None,
        Event::Ask { .. } => None,
        Event::Collected { .. } => None,
    }
}

/// Adds the hop that an event made, if it made one.
pub fn add_hop(
    plan: &Plan,
    number: usize,
    departure: Option<Departure>,
    outcome: &Outcome,
    file: &mut Vec<u8>,
) -> Result<(), AllocError>
    ensures { OnOk result (file.new.items ≡ file.old.items
        ++ flat_map written_bytes (option_to_list (hop_between plan.now number (option_map departure_value departure) (arriving (outcome_value outcome.now))))) }
{
    match departure {
        Some(departure) => match moved_to(outcome) {
            Some(next) => write_hop(plan, number, &departure, next, file),
            None => Ok(()),
        },
        None => Ok(()),
    }
}

/// The node to which an event moved a packet, if it did.
fn moved_to(outcome: &Outcome) -> Option<usize>
    ensures { result ≡ arriving (outcome_value outcome.now) }
{
    match outcome {
        Outcome::Happened { effect, .. } => reached(effect),
        Outcome::Begun { .. } => None,
        Outcome::Asked { .. } => None,
        Outcome::Collected { .. } => None,
        Outcome::Refused(_) => None,
    }
}

/// The node to which a flight went on, if one did.
fn reached(effect: &Effect) -> Option<usize>
    ensures { result ≡ reached (effect_value effect.now) }
{
    match effect {
        Effect::Moved { node, .. } => Some(*node),
        Effect::PutIn { .. } => None,
        Effect::Held { .. } => None,
        Effect::Whole { .. } => None,
        Effect::Dropped { .. } => None,
        Effect::Stopped { .. } => None,
        Effect::Lost { .. } => None,
        Effect::Expired { .. } => None,
        Effect::Answered { .. } => None,
        Effect::Silent { .. } => None,
        Effect::Switched { .. } => None,
        Effect::Refused(_) => None,
    }
}

/// Adds a packet that went on to a node.
fn write_hop(
    plan: &Plan,
    number: usize,
    departure: &Departure,
    next: usize,
    file: &mut Vec<u8>,
) -> Result<(), AllocError>
    ensures { OnOk result (file.new.items ≡ file.old.items
        ++ written_bytes (carried plan.now number (departure_value departure.now) next)) }
{
    let port = port_towards(plan, departure.node, departure.destination, next);
    let packet = CarriedPacket {
        seconds: stamp(number),
        nanoseconds: 0,
        interface: interface_of(port),
        address: address_of(port),
        bytes: &departure.bytes,
    };
    add_packet(file, &packet)
}

/// The number of a port's bus in the plan's list, counted from 1; 0 without a port.
fn interface_of(port: Option<&Port>) -> u32
    ensures { result ≡ interface_of (option_map (λ p. p.now) port.entry) }
{
    match port {
        Some(port) => stamp(port.bus.saturating_add(1)),
        None => 0,
    }
}

/// The address of a port; empty without one.
fn address_of(port: Option<&Port>) -> &[u8]
    ensures address { result.now ≡ address_of (option_map (λ p. p.now) port.entry) }
    ensures short { length result.now ≤ 8 }
{
    match port {
        Some(port) => port.address.as_slice(),
        None => &[],
    }
}

/// The port through which the first row of a node for an endpoint ID leads to the next node.
fn port_towards(plan: &Plan, node: usize, eid: Eid, next: usize) -> Option<&Port>
    ensures { option_map (λ p. p.now) result ≡ port_towards plan.now node eid.value next }
{
    let row = row_towards(plan, node, eid, next)?;
    port_at(plan, node, usize::from(row.port))
}

/// The first row of a node for an endpoint ID that leads to the next node.
fn row_towards(plan: &Plan, node: usize, eid: Eid, next: usize) -> Option<&Row>
    ensures { option_map (λ r. r.now) result ≡ find (leads eid.value next) (rows_of plan.now node) }
{
    rows_at(plan, node).iter().find(|row| leads(row, eid, next))
}

/// Whether a row covers the endpoint ID and leads to the node.
fn leads(row: &Row, eid: Eid, next: usize) -> bool
    ensures { result ≡ leads eid.value next row.now }
{
    row.first.value <= eid.value
        && u16::from(eid.value) < u16::from(row.first.value) + u16::from(row.size)
        && row.next == next
}

/// A number of four bytes: the largest one for a larger number.
fn stamp(number: usize) -> u32
    ensures { result ≡ stamp number }
{
    match u32::try_from(number) {
        Ok(number) => number,
        Err(_) => u32::MAX,
    }
}
