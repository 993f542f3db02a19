//! Both kinds of terminus in one network: each node answers as its own does, whichever kind that is.
use super::networks::{certificate_of, network_of, plan_of};
use super::playing::{Way, outcomes_of, told};
use net_plan::events_of_text;
use pdr_repository::{BlockTerminus, ListTerminus, Terminus, is_lawful_list};
use plan_values::{Certificate, Event, Plan};
use pldm_message::Tid;
use sample_texts::edited;
use sample_texts::riser::{CERTIFICATE, PLAN};
use std::alloc::Global;
use std::test::Fail;

/// ssd has a terminus too, of terminus ID 2, with its one record.
const WITH_SSD: (&str, &str) = (
    r#""terminus":null}]}"#,
    r#""terminus":{"tid":2,"records":[{"handle":1,"next":0,"bytes":"01000000010100000900010001020000010112"}]}}]}"#,
);

const PLACE_AT_SSD: (&str, &str) = (
    r#"{"node":"nic","places":[0]}"#,
    r#"{"node":"nic","places":[0]},{"node":"ssd","places":[0]}"#,
);

/// Riser asks nic and then ssd for their records, and ssd answers first.
const BOTH_ASKED: &str =
    r#"{"format":1,"events":[{"do":"put","node":"nic","bytes":"011110cb0180025100000000000000000120000000"},{"do":"move","flight":1,"keep":false},{"do":"put","node":"ssd","bytes":"011210cb0180025100000000000000000120000000"},{"do":"move","flight":2,"keep":false},{"do":"answer","node":"ssd"},{"do":"answer","node":"nic"},{"do":"move","flight":3,"keep":false},{"do":"move","flight":3,"keep":false},{"do":"move","flight":4,"keep":false},{"do":"move","flight":4,"keep":false}]}"#;

/// nic (2) and ssd (3) take the requests, and riser (1) each one's record.
const BOTH_ANSWERED: &str = "[Happened { effect: PutIn { number: 1, node: 2 }, handed: None }, \
Happened { effect: Whole { number: 1, node: 2, key: Key { source: Eid { value: 16 }, tag: Tag { value: 3 }, owner: true }, \
bytes: [1, 128, 2, 81, 0, 0, 0, 0, 0, 0, 0, 0, 1, 32, 0, 0, 0] }, handed: None }, \
Happened { effect: PutIn { number: 2, node: 3 }, handed: None }, \
Happened { effect: Whole { number: 2, node: 3, key: Key { source: Eid { value: 16 }, tag: Tag { value: 3 }, owner: true }, \
bytes: [1, 128, 2, 81, 0, 0, 0, 0, 0, 0, 0, 0, 1, 32, 0, 0, 0] }, handed: None }, \
Happened { effect: Answered { node: 3, first: 3, last: 3 }, handed: None }, \
Happened { effect: Answered { node: 2, first: 4, last: 4 }, handed: None }, \
Happened { effect: Moved { number: 3, node: 1, hops: 1 }, handed: None }, \
Happened { effect: Whole { number: 3, node: 1, key: Key { source: Eid { value: 18 }, tag: Tag { value: 3 }, owner: false }, \
bytes: [1, 0, 2, 81, 0, 0, 0, 0, 0, 0, 0, 0, 0, 5, 19, 0, 1, 0, 0, 0, 1, 1, 0, 0, 9, 0, 1, 0, 1, 2, 0, 0, 1, 1, 18] }, handed: None }, \
Happened { effect: Moved { number: 4, node: 1, hops: 1 }, handed: None }, \
Happened { effect: Whole { number: 4, node: 1, key: Key { source: Eid { value: 17 }, tag: Tag { value: 3 }, owner: false }, \
bytes: [1, 0, 2, 81, 0, 0, 0, 0, 0, 0, 0, 0, 0, 5, 19, 0, 1, 0, 0, 0, 1, 1, 0, 0, 9, 0, 1, 0, 1, 1, 0, 0, 1, 1, 17] }, handed: None }]";

/// A kind of terminus.
#[derive(Clone, Copy, Debug, PartialEq, Eq)]
enum Kind {
    List,
    Block,
}

/// A terminus of this kind, of this terminus ID, with one record that locates it at this endpoint ID.
fn terminus_of(alloc: Global, kind: Kind, tid: u8, eid: u8) -> Result<Box<dyn Terminus>, Fail> {
    let bytes = [1, 0, 0, 0, 1, 1, 0, 0, 9, 0, 1, 0, 1, tid, 0, 0, 1, 1, eid];
    let mut records = Vec::new(alloc);
    records.push((1, bytes.to_vec(alloc)?))?;
    if !is_lawful_list(&records) {
        return Err(Fail::new("no lawful list"));
    }
    let tid = Tid::new(tid);
    match kind {
        Kind::List => Ok(Box::new(alloc, ListTerminus::new(alloc, tid, records)?)?),
        Kind::Block => Ok(Box::new(alloc, BlockTerminus::new(alloc, tid, records)?)?),
    }
}

/// What comes of events where the termini of nic and of ssd are of these kinds.
fn told_over(
    alloc: Global,
    plan: &Plan,
    certificate: &Certificate,
    events: &[Event],
    kinds: (Kind, Kind),
) -> Result<String, Fail> {
    let mut termini: Vec<Box<dyn Terminus>> = Vec::new(alloc);
    termini.push(terminus_of(alloc, kinds.0, 1, 17)?)?;
    termini.push(terminus_of(alloc, kinds.1, 2, 18)?)?;
    let mut network = network_of(alloc, plan, certificate, termini)?;
    let outcomes = outcomes_of(alloc, &mut network, events, Way::Run)?;
    Ok(told(alloc, &outcomes)?)
}

/// The first kinds at nic and at ssd over which something else comes.
fn first_other(
    alloc: Global,
    plan: &Plan,
    certificate: &Certificate,
) -> Result<Option<(Kind, Kind)>, Fail> {
    let events = events_of_text(alloc, plan, BOTH_ASKED.as_bytes())?;
    for kinds in [(Kind::List, Kind::Block), (Kind::Block, Kind::List)] {
        if told_over(alloc, plan, certificate, &events, kinds)?.as_str() != BOTH_ANSWERED {
            return Ok(Some(kinds));
        }
    }
    Ok(None)
}

#[test]
fn a_list_and_a_block_answer_in_one_network(rt: HostRuntime) -> Result<(), Fail> {
    let plan = plan_of(rt.alloc(), &edited(rt.alloc(), PLAN, &[WITH_SSD])?)?;
    let certificate = edited(rt.alloc(), CERTIFICATE, &[PLACE_AT_SSD])?;
    let certificate = certificate_of(rt.alloc(), &plan, &certificate)?;
    assert_eq!(rt; first_other(rt.alloc(), &plan, &certificate)?, None);
    Ok(())
}
