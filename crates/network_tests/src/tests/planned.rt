//! A network over a boxed terminus that is as planned: what it plays are runs from the plan's start.
ghost use Rattle.std.specs.Prelude.{◌≡◌, ◌≤◌, ◌∷◌, [], IsTrue, IfOk, IfSome, MatchOption, Some, None, length, map, take};
ghost use Rattle.pdr_repository.specs.Records.{entries, IsLawful};
ghost use Rattle.net_tables.specs.Repositories.{entry_of, terminus_of};
ghost use Rattle.net_sim.{specs.Dealing.{resting, planned_termini}, specs.Outcomes.{event_value, outcome_value}};
ghost use Rattle.network_tests.specs.Planned.{IsRunFromStart, IsAlone};

use super::keys::THERE_AND_BACK;
use super::networks::{certificate_of, plan_of};
use super::playing::told;
use net_check::{Checked, check};
use net_plan::events_of_text;
use net_sim::{Network, Played};
use pdr_repository::{BlockTerminus, Terminus};
use plan_values::{Event, Plan, PlannedRecord, PlannedTerminus};
use pldm_message::Tid;
use sample_texts::riser::{CERTIFICATE, EVENTS, NIC, PLAN};
use std::alloc::{AllocError, Global};
use std::test::Fail;

/// Plays events on the network of a checked plan over termini that are as planned: a run from the plan's start.
fn run_planned(
    alloc: Global,
    checked: Checked,
    termini: Vec<Box<dyn Terminus>>,
    events: &[Event],
) -> Result<Played, AllocError>
    requires { map (resting (λ b. tid b) (λ b. records b)) termini.items ≡ planned_termini checked.0 checked.1 }
    ensures { IfOk result (λ played. IsRunFromStart checked.entry.0 checked.entry.1
        (take (length played.outcomes.items) (map event_value events.now)) (map outcome_value played.outcomes.items)) }
{
    let mut network = Network::new(alloc, checked, termini)?;
    network.run(events)
}

/// The same where the plan has one terminus, of this terminus ID and these records. The terminus is made and boxed
/// here.
fn run_alone(
    alloc: Global,
    checked: Checked,
    tid: Tid,
    records: Vec<(u32, Vec<u8>)>,
    events: &[Event],
) -> Result<Played, AllocError>
    requires few { length records.items ≤ 4096 }
    requires lawful { IsLawful (entries records.items) }
    requires planned { planned_termini checked.0 checked.1 ≡ record { tid = tid.value; records = entries records.items; waiting = [] } ∷ [] }
    ensures { IfOk result (λ played. IsRunFromStart checked.entry.0 checked.entry.1
        (take (length played.outcomes.items) (map event_value events.now)) (map outcome_value played.outcomes.items)) }
{
    let terminus = BlockTerminus::new(alloc, tid, records)?;
    let mut termini: Vec<Box<dyn Terminus>> = Vec::new(alloc);
    termini.push(Box::new(alloc, terminus)?)?;
    run_planned(alloc, checked, termini, events)
}

/// Whether no other node has a terminus.
#[tactic(auto, using(crate::proofs::Alone::alone_among, crate::proofs::Alone::none_more))]
fn is_alone(plan: &Plan, index: usize) -> bool
    ensures { IsTrue result → IsAlone plan.now index }
{
    for other in 0..plan.nodes.len() {
        if other != index && terminus_at(plan, other).is_some() {
            return false;
        }
    }
    true
}

/// The terminus of a node, as it is planned.
fn terminus_at(plan: &Plan, index: usize) -> Option<&PlannedTerminus>
    ensures { MatchOption result (terminus_of plan.now index ≡ None) (λ terminus. terminus_of plan.now index ≡ Some terminus.now) }
{
    plan.nodes.get(index)?.terminus.as_ref()
}

/// The terminus of a node and its record, if it has one record.
fn record_alone(plan: &Plan, index: usize) -> Option<(&PlannedTerminus, &PlannedRecord)>
    ensures { IfSome result (λ found. (terminus_of plan.now index ≡ Some found.0.now) × (found.0.now.records.items ≡ found.1.now ∷ [])) }
{
    let terminus = terminus_at(plan, index)?;
    match terminus.records.as_slice() {
        [record] => Some((terminus, record)),
        _ => None,
    }
}

/// A list of a record's handle and a copy of its bytes.
fn listed(alloc: Global, planned: &PlannedRecord) -> Result<Vec<(u32, Vec<u8>)>, AllocError>
    ensures one { IfOk result (λ records. length records.items ≡ 1) }
    ensures listed { IfOk result (λ records. entries records.items ≡ entry_of planned.now ∷ []) }
{
    let mut bytes = Vec::with_capacity(alloc, planned.bytes.len())?;
    bytes.extend_from_slice(&planned.bytes)?;
    let mut records = Vec::new(alloc);
    records.push((planned.handle, bytes))?;
    Ok(records)
}

/// Plays events on the network of a checked plan in which this node alone has a terminus, with one record; none where
/// it is not so. No premise is left.
fn run_of_one_record(
    alloc: Global,
    checked: Checked,
    index: usize,
    events: &[Event],
) -> Result<Option<Played>, AllocError>
    ensures { IfOk result (λ found. IfSome found (λ played. IsRunFromStart checked.entry.0 checked.entry.1
        (take (length played.outcomes.items) (map event_value events.now)) (map outcome_value played.outcomes.items))) }
{
    let plan = checked.plan();
    let Some((terminus, record)) = record_alone(plan, index) else {
        return Ok(None);
    };
    if !is_alone(plan, index) {
        return Ok(None);
    }
    let tid = Tid::new(terminus.tid);
    let records = listed(alloc, record)?;
    Ok(Some(run_alone(alloc, checked, tid, records, events)?))
}

/// What comes of events on the riser network, where nic alone has a terminus, with one record.
fn played_at_nic(alloc: Global, plan: &Plan, events: &[Event]) -> Result<Played, Fail> {
    let certificate = certificate_of(alloc, plan, CERTIFICATE)?;
    let checked = check(alloc, plan, &certificate)?;
    match run_of_one_record(alloc, checked, NIC, events)? {
        Some(played) => Ok(played),
        None => Err(Fail::new("nic has no terminus alone, or not one record")),
    }
}

#[test]
fn plays_from_the_start_over_a_planned_terminus(rt: HostRuntime) -> Result<(), Fail> {
    let plan = plan_of(rt.alloc(), PLAN)?;
    let events = events_of_text(rt.alloc(), &plan, EVENTS.as_bytes())?;
    let played = played_at_nic(rt.alloc(), &plan, &events)?;
    assert!(rt; !played.stopped);
    assert_eq!(rt;
        told(rt.alloc(), &played.outcomes)?.as_str(),
        THERE_AND_BACK
    );
    Ok(())
}
