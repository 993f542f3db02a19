//! Walks in which any growth of memory may be refused. An event that is asked again then has the outcome that it has
//! with ample memory. `tools/try growths` refuses the growths one after another.
use super::asking_again::step;
use super::lists::WALKS;
use super::networks::{certificate_of, network_of, plan_of};
use super::playing::Way;
use super::refused_runs::first_other;
use super::termini::{has_collected, termini_of, twenty_records};
use mctp_transport::{Eid, Tag};
use net_sim::Network;
use plan_values::{Certificate, Event, Plan};
use sample_texts::riser::{CERTIFICATE, HOST, NIC, PLAN};
use std::alloc::{AllocError, Global};
use std::test::Fail;

#[test]
fn refused_step_of_walkers(rt: HostRuntime) -> Result<(), Fail> {
    assert_eq!(rt; first_other(rt.alloc(), &WALKS, Way::RefusedSteps)?, None);
    Ok(())
}

#[test]
fn refused_run_of_walkers(rt: HostRuntime) -> Result<(), Fail> {
    assert_eq!(rt; first_other(rt.alloc(), &WALKS, Way::RefusedRun)?, None);
    Ok(())
}

/// Carries a flight over the three steps from host to nic, or back.
fn carry(alloc: Global, network: &mut Network, flight: u32) -> Result<(), AllocError> {
    let keep = false;
    for _ in 0..3 {
        step(alloc, network, &Event::Move { flight, keep })?;
    }
    Ok(())
}

/// Asks for a record and carries the request and its answer, which are flights in turn.
fn exchange(alloc: Global, network: &mut Network, number: u32) -> Result<(), AllocError> {
    let request = number.saturating_mul(2).saturating_add(1);
    step(alloc, network, &Event::Ask { walker: 1 })?;
    carry(alloc, network, request)?;
    step(alloc, network, &Event::Answer { node: NIC })?;
    carry(alloc, network, request.saturating_add(1))
}

/// Walks over 20 records, each of which comes with one exchange.
fn walk(alloc: Global, network: &mut Network) -> Result<(), AllocError> {
    let walk = Event::Walk {
        node: HOST,
        eid: Eid::new(17),
        tag: Tag::new(2),
        count: 32,
    };
    step(alloc, network, &walk)?;
    for number in 0..20u32 {
        exchange(alloc, network, number)?;
    }
    Ok(())
}

/// Whether all 20 records come, to the one walker that there is.
fn collects_20(alloc: Global, plan: &Plan, certificate: &Certificate) -> Result<bool, Fail> {
    let termini = termini_of(alloc, twenty_records(alloc)?)?;
    let mut network = network_of(alloc, plan, certificate, termini)?;
    walk(alloc, &mut network)?;
    let are_others = network.collected(0).is_some() || network.collected(2).is_some();
    Ok(!are_others && has_collected(&network, 1, &twenty_records(alloc)?))
}

#[test]
fn refused_step_over_20_records(rt: HostRuntime) -> Result<(), Fail> {
    let plan = plan_of(rt.alloc(), PLAN)?;
    let certificate = certificate_of(rt.alloc(), &plan, CERTIFICATE)?;
    assert!(rt; collects_20(rt.alloc(), &plan, &certificate)?);
    Ok(())
}
