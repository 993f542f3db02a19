//! The events of a walk, made as the network of a plan plays them.
use crate::script::course::{Course, TAG};
use crate::script::judging::is_stuck;
use command_answers::planned_network;
use command_questions::WalkScript;
use mctp_transport::Tag;
use net_check::{AcceptedNetwork, Checked};
use net_sim::{Outcome, Standing};
use plan_values::Event;
use std::alloc::{AllocError, Global};

/// How many events a list has at most.
pub const MOST_EVENTS: usize = 100_000;

/// The events of a walk for which a node asks, played in the network of a checked plan until it is told that the walk
/// is done, or the walk doesn't go on, or a list has no more events.
pub fn made_events(
    alloc: Global,
    script: &WalkScript,
    checked: Checked,
    node: usize,
) -> Result<Vec<Event>, AllocError> {
    let mut network = planned_network(alloc, AcceptedNetwork::of_plan(checked))?;
    let mut course = Course::new(alloc, script.lost, script.repeated);
    let mut next = Event::Walk {
        node,
        eid: script.eid,
        tag: Tag::new(TAG),
        count: script.part.bytes(),
    };
    let mut events = Vec::new(alloc);
    for _count in 0..MOST_EVENTS {
        let last = network.step(&next)?;
        events.push(next)?;
        if is_end(&last) {
            break;
        }
        next = course.next(&last)?;
    }
    Ok(events)
}

/// Whether no event follows one of which this comes.
fn is_end(outcome: &Outcome) -> bool {
    is_stuck(outcome)
        || matches!(
            outcome,
            Outcome::Collected {
                standing: Standing::Done,
                ..
            }
        )
}
