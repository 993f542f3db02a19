//! Networks in which any growth of memory may be refused. An event that is asked again then has the outcome that it has
//! with ample memory. `tools/try growths` refuses the growths one after another.
use super::keys::THERE_AND_BACK;
use super::lists::{RUNS, SWITCHED};
use super::networks::{certificate_of, moving_network_of, plan_of};
use super::playing::{Way, outcomes_of, told, told_on};
use super::termini::{termini_of, twenty_records};
use net_check::{Checked, CheckedMove, check, check_move};
use net_plan::events_of_text;
use net_sim::{Network, planned_termini_count};
use pdr_repository::Terminus;
use plan_values::{Certificate, Event, Plan};
use sample_texts::edited;
use sample_texts::marks::{Mark, set_mark};
use sample_texts::riser::{CERTIFICATE, EVENTS, PLAN};
use sample_texts::two_ways::{RANKS_OF_TWO_WAYS, TWO_WAYS};
use std::alloc::Global;
use std::test::Fail;

/// Whether the same comes of the events of a text, played this way, as with ample memory.
fn is_same(
    alloc: Global,
    plan: &Plan,
    certificate: &Certificate,
    text: &str,
    way: Way,
) -> Result<bool, Fail> {
    let events = events_of_text(alloc, plan, text.as_bytes())?;
    let wanted = told_on(alloc, plan, certificate, &events, Way::Run)?;
    Ok(told_on(alloc, plan, certificate, &events, way)? == wanted)
}

/// The first of these lists of events on the riser network of which something else comes, played this way, than with
/// ample memory.
pub fn first_other(
    alloc: Global,
    lists: &[&'static str],
    way: Way,
) -> Result<Option<&'static str>, Fail> {
    let plan = plan_of(alloc, PLAN)?;
    let certificate = certificate_of(alloc, &plan, CERTIFICATE)?;
    for text in lists {
        if !is_same(alloc, &plan, &certificate, *text, way)? {
            return Ok(Some(*text));
        }
    }
    Ok(None)
}

#[test]
fn refused_step(rt: HostRuntime) -> Result<(), Fail> {
    assert_eq!(rt; first_other(rt.alloc(), &RUNS, Way::RefusedSteps)?, None);
    Ok(())
}

#[test]
fn refused_run(rt: HostRuntime) -> Result<(), Fail> {
    assert_eq!(rt; first_other(rt.alloc(), &RUNS, Way::RefusedRun)?, None);
    Ok(())
}

/// The network of a checked plan; none where memory ran out.
fn new<'a>(
    alloc: Global,
    checked: Checked<'a>,
    termini: Vec<Box<dyn Terminus>>,
) -> Result<Option<Network<'a>>, Fail> {
    if termini.len() != planned_termini_count(checked.plan()) {
        return Err(Fail::new("not one terminus for each node that has one"));
    }
    set_mark(alloc, Mark::Begins);
    let made = Network::new(alloc, checked, termini);
    set_mark(alloc, Mark::Ends);
    if made.is_err() {
        set_mark(alloc, Mark::Lacked);
    }
    Ok(made.ok())
}

/// The network of a plan and its certificate over 20 records at nic; none where memory ran out.
fn over_20_records<'a>(
    alloc: Global,
    plan: &'a Plan,
    certificate: &'a Certificate,
) -> Result<Option<Network<'a>>, Fail> {
    let checked = check(alloc, plan, certificate)?;
    new(alloc, checked, termini_of(alloc, twenty_records(alloc)?)?)
}

/// Whether a request and its answer come on the network over 20 records, or memory ran out.
fn goes_and_comes(
    alloc: Global,
    plan: &Plan,
    certificate: &Certificate,
    events: &[Event],
) -> Result<bool, Fail> {
    match over_20_records(alloc, plan, certificate)? {
        Some(mut network) => {
            let outcomes = outcomes_of(alloc, &mut network, events, Way::Run)?;
            Ok(told(alloc, &outcomes)?.as_str() == THERE_AND_BACK)
        }
        None => Ok(true),
    }
}

#[test]
fn refused_network_new(rt: HostRuntime) -> Result<(), Fail> {
    let plan = plan_of(rt.alloc(), PLAN)?;
    let certificate = certificate_of(rt.alloc(), &plan, CERTIFICATE)?;
    let events = events_of_text(rt.alloc(), &plan, EVENTS.as_bytes())?;
    assert!(rt; goes_and_comes(rt.alloc(), &plan, &certificate, &events)?);
    Ok(())
}

/// The plan in which host goes by right.
pub fn by_right(alloc: Global) -> Result<Plan, Fail> {
    let text = edited(alloc, TWO_WAYS, &[(r#""left"}]"#, r#""right"}]"#)])?;
    plan_of(alloc, &text)
}

/// The first request goes by left (1) to x (3), the second, once host (0) has switched, by right (2).
const SWITCHED_BY_RIGHT: &str = "[Happened { effect: PutIn { number: 1, node: 0 }, handed: None }, \
Happened { effect: Moved { number: 1, node: 1, hops: 1 }, handed: None }, \
Happened { effect: Switched { node: 0 }, handed: None }, \
Happened { effect: Moved { number: 1, node: 3, hops: 2 }, handed: None }, \
Happened { effect: Whole { number: 1, node: 3, key: Key { source: Eid { value: 8 }, tag: Tag { value: 3 }, owner: true }, \
bytes: [1, 128, 0, 2] }, handed: None }, \
Happened { effect: PutIn { number: 2, node: 0 }, handed: None }, \
Happened { effect: Moved { number: 2, node: 2, hops: 1 }, handed: None }, \
Happened { effect: Refused(NoSwitch), handed: None }, \
Happened { effect: Moved { number: 2, node: 3, hops: 2 }, handed: None }]";

/// The network of a checked move; none where memory ran out.
fn new_move<'a>(
    alloc: Global,
    checked: CheckedMove<'a>,
    termini: Vec<Box<dyn Terminus>>,
) -> Result<Option<Network<'a>>, Fail> {
    if termini.len() != planned_termini_count(checked.before()) {
        return Err(Fail::new("not one terminus for each node that has one"));
    }
    set_mark(alloc, Mark::Begins);
    let made = Network::new_move(alloc, checked, termini);
    set_mark(alloc, Mark::Ends);
    if made.is_err() {
        set_mark(alloc, Mark::Lacked);
    }
    Ok(made.ok())
}

/// Whether flights move so on the network of a move, or memory ran out.
fn switches(
    alloc: Global,
    before: &Plan,
    after: &Plan,
    certificate: &Certificate,
    events: &[Event],
) -> Result<bool, Fail> {
    let checked = check_move(alloc, before, after, certificate)?;
    match new_move(alloc, checked, Vec::new(alloc))? {
        Some(mut network) => {
            let outcomes = outcomes_of(alloc, &mut network, events, Way::Run)?;
            Ok(told(alloc, &outcomes)?.as_str() == SWITCHED_BY_RIGHT)
        }
        None => Ok(true),
    }
}

#[test]
fn refused_new_move(rt: HostRuntime) -> Result<(), Fail> {
    let before = plan_of(rt.alloc(), TWO_WAYS)?;
    let after = by_right(rt.alloc())?;
    let certificate = certificate_of(rt.alloc(), &before, RANKS_OF_TWO_WAYS)?;
    let events = events_of_text(rt.alloc(), &before, SWITCHED.as_bytes())?;
    assert!(rt; switches(rt.alloc(), &before, &after, &certificate, &events)?);
    Ok(())
}

/// Whether flights move so where each event is asked again.
fn switches_in_steps(
    alloc: Global,
    before: &Plan,
    after: &Plan,
    certificate: &Certificate,
    events: &[Event],
) -> Result<bool, Fail> {
    let checked = check_move(alloc, before, after, certificate)?;
    let mut network = moving_network_of(alloc, checked, Vec::new(alloc))?;
    let outcomes = outcomes_of(alloc, &mut network, events, Way::RefusedSteps)?;
    Ok(told(alloc, &outcomes)?.as_str() == SWITCHED_BY_RIGHT)
}

#[test]
fn refused_step_of_switches(rt: HostRuntime) -> Result<(), Fail> {
    let before = plan_of(rt.alloc(), TWO_WAYS)?;
    let after = by_right(rt.alloc())?;
    let certificate = certificate_of(rt.alloc(), &before, RANKS_OF_TWO_WAYS)?;
    let events = events_of_text(rt.alloc(), &before, SWITCHED.as_bytes())?;
    assert!(rt; switches_in_steps(rt.alloc(), &before, &after, &certificate, &events)?);
    Ok(())
}
