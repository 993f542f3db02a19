//! Events that are asked again where memory ran out. `tools/try growths` refuses the growths one after another.
use net_sim::{Network, Outcome, Played};
use plan_values::Event;
use sample_texts::marks::{Mark, set_mark};
use std::alloc::{AllocError, Global};
use std::test::Fail;

/// The outcome of an event. Where memory ran out, the event is asked again.
pub fn step(alloc: Global, network: &mut Network, event: &Event) -> Result<Outcome, AllocError> {
    set_mark(alloc, Mark::Begins);
    let outcome = network.step(event);
    set_mark(alloc, Mark::Ends);
    if outcome.is_ok() {
        return outcome;
    }
    set_mark(alloc, Mark::Lacked);
    network.step(event)
}

/// The outcomes of events, one by one.
pub fn steps(
    alloc: Global,
    network: &mut Network,
    events: &[Event],
) -> Result<Vec<Outcome>, AllocError> {
    let mut outcomes = Vec::new(alloc);
    for event in events {
        outcomes.push(step(alloc, network, event)?)?;
    }
    Ok(outcomes)
}

/// The outcomes of a list of events. Where memory ran out, what is left is asked again.
pub fn run(alloc: Global, network: &mut Network, events: &[Event]) -> Result<Vec<Outcome>, Fail> {
    set_mark(alloc, Mark::Begins);
    let played = network.run(events);
    set_mark(alloc, Mark::Ends);
    match played {
        Ok(
            Played {
                outcomes,
                stopped: false,
            },
        ) => Ok(outcomes),
        Ok(Played { outcomes, .. }) => run_on(alloc, network, events, outcomes),
        Err(_) => run_on(alloc, network, events, Vec::new(alloc)),
    }
}

/// The outcomes of a list of events of which some have these outcomes. The events that are left are asked again.
fn run_on(
    alloc: Global,
    network: &mut Network,
    events: &[Event],
    earlier: Vec<Outcome>,
) -> Result<Vec<Outcome>, Fail> {
    set_mark(alloc, Mark::Lacked);
    let left = events
        .get(earlier.len()..)
        .ok_or("more outcomes than events")?;
    if left.is_empty() {
        return Err(Fail::new("it stopped at no event"));
    }
    let mut outcomes = earlier;
    for outcome in network.run(left)?.outcomes {
        outcomes.push(outcome)?;
    }
    Ok(outcomes)
}
