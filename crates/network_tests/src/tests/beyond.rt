//! Events that no text has: at nodes beyond the plan, and of walks that ask for fewer bytes than 8 or more than 4,079.
use super::networks::{certificate_of, moving_network_of, network_of, plan_of};
use super::refused_runs::by_right;
use super::termini::{planned_record, termini_of};
use mctp_transport::{Eid, Key, Tag};
use net_check::check_move;
use net_sim::{Effect, Network, Outcome, Refusal};
use plan_values::{Certificate, Event, Plan};
use sample_texts::riser::{CERTIFICATE, HOST, PLAN};
use sample_texts::two_ways::{RANKS_OF_TWO_WAYS, TWO_WAYS};
use std::alloc::{AllocError, Global};
use std::test::Fail;

/// The code of the refusal of an event; none where it is not refused.
fn code(outcome: &Outcome) -> Option<&'static str> {
    match outcome {
        Outcome::Happened {
            effect: Effect::Refused(why),
            handed: None,
        } => Some(why.code()),
        Outcome::Refused(why) => Some(why.code()),
        _ => None,
    }
}

/// A walk at a node that asks this endpoint ID for so many bytes at a time.
fn walk_of(node: usize, eid: u8, count: u16) -> Event {
    Event::Walk {
        node,
        eid: Eid::new(eid),
        tag: Tag::new(0),
        count,
    }
}

/// Events that name a node.
fn events_at(alloc: Global, node: usize) -> Result<Vec<Event>, AllocError> {
    let bytes = [1, 10, 8].to_vec(alloc)?;
    let key = Key {
        source: Eid::new(8),
        tag: Tag::new(3),
        owner: true,
    };
    let mut events = Vec::new(alloc);
    events.push(Event::Put { node, bytes })?;
    events.push(Event::Expire { node, key })?;
    events.push(Event::Answer { node })?;
    events.push(Event::Switch { node })?;
    events.push(walk_of(node, 17, 8))?;
    events.push(walk_of(node, 200, 8))?;
    Ok(events)
}

/// Whether each event that names this node is refused for it.
fn refuses(alloc: Global, network: &mut Network, node: usize) -> Result<bool, AllocError> {
    for event in &events_at(alloc, node)? {
        if code(&network.step(event)?) != Some("N01") {
            return Ok(false);
        }
    }
    Ok(true)
}

/// Whether each event is refused that names the node right behind the plan's four, or the last of all.
fn refuses_beyond(alloc: Global, network: &mut Network) -> Result<bool, AllocError> {
    Ok(refuses(alloc, network, 4)? && refuses(alloc, network, usize::MAX)?)
}

/// Whether they are on the network of this plan.
fn is_bounded(alloc: Global, plan: &Plan, certificate: &Certificate) -> Result<bool, Fail> {
    let termini = termini_of(alloc, planned_record(alloc)?)?;
    let mut network = network_of(alloc, plan, certificate, termini)?;
    Ok(refuses_beyond(alloc, &mut network)?)
}

#[test]
fn refuses_nodes_beyond_the_plan(rt: HostRuntime) -> Result<(), Fail> {
    let plan = plan_of(rt.alloc(), PLAN)?;
    let certificate = certificate_of(rt.alloc(), &plan, CERTIFICATE)?;
    assert!(rt; is_bounded(rt.alloc(), &plan, &certificate)?);
    Ok(())
}

/// Whether they are on the network that moves between these plans.
fn is_move_bounded(
    alloc: Global,
    before: &Plan,
    after: &Plan,
    certificate: &Certificate,
) -> Result<bool, Fail> {
    let checked = check_move(alloc, before, after, certificate)?;
    let mut network = moving_network_of(alloc, checked, Vec::new(alloc))?;
    Ok(refuses_beyond(alloc, &mut network)?)
}

#[test]
fn refuses_nodes_beyond_the_plans_of_a_move(rt: HostRuntime) -> Result<(), Fail> {
    let before = plan_of(rt.alloc(), TWO_WAYS)?;
    let after = by_right(rt.alloc())?;
    let certificate = certificate_of(rt.alloc(), &before, RANKS_OF_TWO_WAYS)?;
    assert!(rt; is_move_bounded(rt.alloc(), &before, &after, &certificate)?);
    Ok(())
}

/// Whether walks of these counts are refused for them, and one of 4,079 bytes begins.
fn bounds_counts(network: &mut Network) -> Result<bool, AllocError> {
    for count in [0, 7, 4080, u16::MAX] {
        if code(&network.step(&walk_of(HOST, 17, count))?) != Some("N10") {
            return Ok(false);
        }
    }
    let begun = network.step(&walk_of(HOST, 17, 4079))?;
    Ok(matches!(begun, Outcome::Begun { walker: 1 }))
}

/// Whether they are on the network of this plan.
fn are_counts_bounded(alloc: Global, plan: &Plan, certificate: &Certificate) -> Result<bool, Fail> {
    let termini = termini_of(alloc, planned_record(alloc)?)?;
    let mut network = network_of(alloc, plan, certificate, termini)?;
    Ok(bounds_counts(&mut network)?)
}

#[test]
fn refuses_counts_beyond_those_of_any_unit(rt: HostRuntime) -> Result<(), Fail> {
    let plan = plan_of(rt.alloc(), PLAN)?;
    let plan = Plan::of(1024, plan.buses, plan.nodes).ok_or("no plan")?;
    let certificate = certificate_of(rt.alloc(), &plan, CERTIFICATE)?;
    assert!(rt; are_counts_bounded(rt.alloc(), &plan, &certificate)?);
    Ok(())
}

/// No list of events uses up the numbers of flights.
#[test]
fn want_of_numbers_has_its_code(rt: HostRuntime) {
    assert_eq!(rt; Refusal::NoNumbers.code(), "N06");
}
