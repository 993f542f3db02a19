//! Networks that are played in several ways, and what comes of it as texts.
use super::asking_again;
use super::networks::network_of;
use super::termini::{planned_record, termini_of};
use net_sim::{Network, Outcome};
use plan_values::{Certificate, Event, Plan};
use std::alloc::{AllocError, Global};
use std::test::Fail;

/// How events are played.
#[derive(Clone, Copy)]
pub enum Way {
    /// As one list.
    Run,
    /// One by one, each asked again where memory ran out.
    RefusedSteps,
    /// As one list, of which what is left is asked again where memory ran out.
    RefusedRun,
}

/// The outcomes of events that are played this way.
pub fn outcomes_of(
    alloc: Global,
    network: &mut Network,
    events: &[Event],
    way: Way,
) -> Result<Vec<Outcome>, Fail> {
    match way {
        Way::Run => run(network, events),
        Way::RefusedSteps => Ok(asking_again::steps(alloc, network, events)?),
        Way::RefusedRun => asking_again::run(alloc, network, events),
    }
}

/// The outcomes of a list of events, all of which are played.
fn run(network: &mut Network, events: &[Event]) -> Result<Vec<Outcome>, Fail> {
    let played = network.run(events)?;
    if played.stopped {
        return Err(Fail::new("it stopped"));
    }
    Ok(played.outcomes)
}

/// What outcomes hold, all of it.
pub fn told(alloc: Global, outcomes: &[Outcome]) -> Result<String, AllocError> {
    format!(in alloc; "{outcomes:?}")
}

/// What comes of events on the network of a plan, with the planned record at nic.
pub fn told_on(
    alloc: Global,
    plan: &Plan,
    certificate: &Certificate,
    events: &[Event],
    way: Way,
) -> Result<String, Fail> {
    let termini = termini_of(alloc, planned_record(alloc)?)?;
    let mut network = network_of(alloc, plan, certificate, termini)?;
    let outcomes = outcomes_of(alloc, &mut network, events, way)?;
    Ok(told(alloc, &outcomes)?)
}
