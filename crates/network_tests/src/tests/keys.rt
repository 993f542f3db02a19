//! What comes of packets that end at a node, with their nodes and keys, which no command prints.
use super::networks::{certificate_of, plan_of};
use super::playing::{Way, told_on};
use net_plan::events_of_text;
use sample_texts::riser::{CERTIFICATE, PLAN};
use std::test::Fail;

/// What comes of a request of host (0) by way of riser (1) to nic (2), and of its answer.
pub const THERE_AND_BACK: &str =
    "[Happened { effect: PutIn { number: 1, node: 0 }, handed: None }, \
Happened { effect: Moved { number: 1, node: 1, hops: 1 }, handed: None }, \
Happened { effect: Moved { number: 1, node: 2, hops: 2 }, handed: None }, \
Happened { effect: Whole { number: 1, node: 2, key: Key { source: Eid { value: 8 }, tag: Tag { value: 3 }, owner: true }, \
bytes: [1, 128, 0, 2] }, handed: None }, \
Happened { effect: Answered { node: 2, first: 2, last: 2 }, handed: None }, \
Happened { effect: Moved { number: 2, node: 1, hops: 1 }, handed: None }, \
Happened { effect: Moved { number: 2, node: 0, hops: 2 }, handed: None }, \
Happened { effect: Whole { number: 2, node: 0, key: Key { source: Eid { value: 17 }, tag: Tag { value: 3 }, owner: false }, \
bytes: [1, 0, 0, 2, 0, 1] }, handed: None }]";

/// A packet that goes on with no message, and one that begins one.
const ENTERS_SSD: &str =
    r#"{"format":1,"events":[{"do":"put","node":"ssd","bytes":"0112085b00"},{"do":"move","flight":1,"keep":false},{"do":"put","node":"ssd","bytes":"0112088b00"},{"do":"move","flight":2,"keep":false}]}"#;

/// At ssd (3) the first is dropped, and the second held.
const DROPPED_AND_HELD: &str = "[Happened { effect: PutIn { number: 1, node: 3 }, handed: None }, \
Happened { effect: Dropped { number: 1, node: 3, key: Key { source: Eid { value: 8 }, tag: Tag { value: 3 }, owner: true }, \
why: NotOpen }, handed: None }, \
Happened { effect: PutIn { number: 2, node: 3 }, handed: None }, \
Happened { effect: Held { number: 2, node: 3, key: Key { source: Eid { value: 8 }, tag: Tag { value: 3 }, owner: true } }, \
handed: None }]";

#[test]
fn outcomes_have_their_nodes_and_keys(rt: HostRuntime) -> Result<(), Fail> {
    let plan = plan_of(rt.alloc(), PLAN)?;
    let certificate = certificate_of(rt.alloc(), &plan, CERTIFICATE)?;
    let events = events_of_text(rt.alloc(), &plan, ENTERS_SSD.as_bytes())?;
    let told = told_on(rt.alloc(), &plan, &certificate, &events, Way::Run)?;
    assert_eq!(rt; told.as_str(), DROPPED_AND_HELD);
    Ok(())
}
