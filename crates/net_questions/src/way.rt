//! The way of a packet.
ghost use Rattle.std.specs.Prelude.{◌≡◌, ◌≤◌, ℕ, length, IfOk};
ghost use Rattle.net_tables.specs.Ranks.{rank};
ghost use Rattle.net_questions.specs.Ways.{IsWay, DoesAfter};

use crate::lookup::hop_at;
use crate::step::WayStep;
use mctp_routing::{Decision, ForwardFault};
use mctp_transport::Eid;
use net_check::Checked;
use net_tables::lookup::{holds, is_bridge};
use plan_values::Plan;
use std::alloc::{AllocError, Global};

/// How the way of a packet ends.
#[derive(Clone, Copy, Debug, PartialEq, Eq)]
pub enum End {
    /// The last node holds the destination, and takes the packet.
    Arrives,
    /// The last node drops the packet.
    Stops(ForwardFault),
}

/// The way of a packet.
#[derive(Debug, Drop)]
pub struct Way {
    /// Where the nodes send the packet, one after another.
    pub steps: Vec<WayStep>,
    /// The index of the node where the way ends.
    pub last: usize,
    pub end: End,
}

/// The way of a packet for an endpoint ID that is put in at a node. It has no more steps than the certified rank.
pub fn follow(alloc: Global, checked: &Checked, from: usize, eid: Eid) -> Result<Way, AllocError>
    ensures way { IfOk result (λ way. IsWay checked.now.0 eid.value from way.steps.items way.last way.end) }
    ensures within { IfOk result (λ way. length way.steps.items ≤ rank checked.now.1 from eid.value) }
{
    let plan = checked.plan();
    let mut steps = Vec::new(alloc);
    let mut last = from;
    loop {
        match decision_after(plan, last, eid, steps.len()) {
            Decision::Forward(hop) => {
                steps.push(WayStep { node: last, hop })?;
                last = hop.next;
            }
            Decision::Here => {
                return Ok(Way {
                    steps,
                    last,
                    end: End::Arrives,
                });
            }
            Decision::Drop(why) => {
                return Ok(Way {
                    steps,
                    last,
                    end: End::Stops(why),
                });
            }
        }
    }
}

/// What a node does with a packet for the endpoint ID that has come to it with so many moves.
fn decision_after(plan: &Plan, node: usize, eid: Eid, moves: usize) -> Decision
    ensures { DoesAfter plan.now eid.value moves node result }
{
    if holds(plan, node, eid) {
        return Decision::Here;
    }
    if !eid.is_assignable() {
        return Decision::Drop(ForwardFault::Unassignable);
    }
    if !is_bridge(plan, node) && moves > 0 {
        return Decision::Drop(ForwardFault::NoBridge);
    }
    match hop_at(plan, node, eid) {
        Some(hop) => Decision::Forward(hop),
        None => Decision::Drop(ForwardFault::NoRow),
    }
}
