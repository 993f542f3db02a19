//! `reach`, who reaches whom in a checked plan, and `trace`, the way of a packet.
ghost use Rattle.std.specs.Prelude.{◌≡◌, IfOk, codes, map, ⊤};
ghost use Rattle.net_plan.specs.Finding.{step_value};
ghost use Rattle.serde_json.specs.View.{view};
ghost use Rattle.json_commands.{specs.Values.{IsListTold}, specs.Ways.{IsFound, IsReachSaid, IsStepTold, IsTraceSaid, IsWayTold, hop_pointer, pair_data, step_data, stop_data, way_data}};
ghost use Rattle.command_answers.specs.declared.status.Status.TheVariants as status;

use crate::lists::{Listed, empty_list, list_of};
use crate::noted::{Noted, notes_of};
use crate::notes::node_value;
use crate::places::{Placing, number_or_null, place_of};
use crate::said::Said;
use command_answers::{PlanText, Status};
use command_questions::Form;
use explanation_texts::index_for;
use fault_texts::way_pointer;
use mctp_transport::Eid;
use net_check::Checked;
use net_plan::PointerStep;
use net_questions::{End, Pair, Way, WayStep, follow, reach};
use plan_values::Plan;
use serde_json::{Value, json};
use std::alloc::{AllocError, Global};

/// Each two different nodes of a checked plan.
pub fn reached(alloc: Global, checked: &Checked) -> Result<Said, AllocError>
    ensures { IfOk result (λ said. (said.status ≡ status.Yes) × IsReachSaid checked.now.0 checked.now.1 (view said.value)) }
{
    let pairs = reach(alloc, checked)?;
    let writer = PairWriter {
        plan: checked.plan(),
    };
    let told = list_of(alloc, &writer, &pairs)?;
    let value = reached_value(alloc, told)?;
    Ok(Said {
        status: Status::Yes,
        value,
    })
}

fn reached_value(alloc: Global, pairs: Value) -> Result<Value, AllocError>
    ensures { IfOk result (λ value. IsFound (codes "pairs") (view pairs) (view value)) }
{
    json!(in alloc; {"command": "reach", "format": 1u8, "pairs": pairs, "results": empty_list(alloc), "status": 0u8})
}

/// Writes pairs of nodes.
#[derive(Clone, Copy)]
struct PairWriter<'p> {
    plan: &'p Plan,
}

impl<'p> Listed for PairWriter<'p> {
    type Item = Pair;

    ghost ready = { λ _. ⊤ };

    ghost told = { λ s pair d. d ≡ pair_data s.plan.now pair };

    /// Two nodes, and the hops from the one to the other, or null.
    fn value_of(&self, alloc: Global, item: &Pair) -> Result<Value, AllocError> {
        json!(in alloc; {
            "from": node_value(alloc, self.plan, item.from)?, "hops": number_or_null(item.there),
            "to": node_value(alloc, self.plan, item.to)?
        })
    }
}

// ---- the way of a packet

/// The way of a packet for an endpoint ID that is put in at a node of a checked plan, whose text is given.
pub fn traced(
    alloc: Global,
    name: &str,
    given: &PlanText,
    checked: &Checked,
    from: usize,
    eid: Eid,
) -> Result<Said, AllocError>
    ensures { IfOk result (λ said. (said.status ≡ status.Yes) × IsTraceSaid name.now given.now.text.items checked.now.0 checked.now.1 from eid (view said.value)) }
{
    let way = follow(alloc, checked, from, eid)?;
    Ok(way_said(alloc, name, given, checked.plan(), eid, &way)?)
}

/// A way for an endpoint ID.
fn way_said(
    alloc: Global,
    name: &str,
    given: &PlanText,
    plan: &Plan,
    eid: Eid,
    way: &Way,
) -> Result<Said, AllocError>
    ensures { IfOk result (λ said. (said.status ≡ status.Yes) × IsWayTold name.now given.now.text.items plan.now eid way.now.steps.items way.now.last way.now.end (view said.value)) }
{
    let noter = StepNoter { plan, eid };
    let steps = notes_of(alloc, Form::Json, name, given, &noter, way.steps.as_slice())?;
    let told = way_value(alloc, plan, eid, steps, way.last, way.end)?;
    let value = traced_value(alloc, told)?;
    Ok(Said {
        status: Status::Yes,
        value,
    })
}

fn traced_value(alloc: Global, way: Value) -> Result<Value, AllocError>
    ensures { IfOk result (λ value. IsFound (codes "way") (view way) (view value)) }
{
    json!(in alloc; {"command": "trace", "format": 1u8, "results": empty_list(alloc), "status": 0u8, "way": way})
}

/// A way: its endpoint ID, its steps, where it ends, and why it stops there, or null where the packet arrives.
fn way_value(
    alloc: Global,
    plan: &Plan,
    eid: Eid,
    steps: Value,
    last: usize,
    end: End,
) -> Result<Value, AllocError>
    ensures { IfOk result (λ value. view value ≡ way_data plan.now eid.value (view steps) last end) }
{
    json!(in alloc; {
        "eid": eid.value, "last": node_value(alloc, plan, last)?, "steps": steps, "stops": stop_value(alloc, end)?
    })
}

fn stop_value(alloc: Global, end: End) -> Result<Value, AllocError>
    ensures { IfOk result (λ value. view value ≡ stop_data end) }
{
    match end {
        End::Arrives => Ok(Value::Null),
        End::Stops(why) => Value::try_from_str(alloc, why.code()),
    }
}

/// Tells steps of a way.
#[derive(Clone, Copy)]
struct StepNoter<'a> {
    plan: &'a Plan,
    eid: Eid,
}

impl<'a> Noted for StepNoter<'a> {
    type Item = WayStep;

    ghost noted = { λ s form name text step d. IsStepTold form name text s.plan.now s.eid step d };

    fn note(
        &self,
        alloc: Global,
        placing: &Placing<'_, '_, '_>,
        item: &WayStep,
    ) -> Result<Value, AllocError> {
        let pointer = hop_pointer(alloc, self.plan, self.eid, item.node)?;
        let place = place_of(alloc, placing, &pointer)?;
        step_of(alloc, self.plan, item, place)
    }
}

/// A step: the node, the place of its row for the endpoint ID, the port and the next node.
fn step_of(alloc: Global, plan: &Plan, step: &WayStep, place: Value) -> Result<Value, AllocError>
    ensures { IfOk result (λ value. view value ≡ step_data plan.now step.now (view place)) }
{
    json!(in alloc; {
        "next": node_value(alloc, plan, step.hop.next)?, "node": node_value(alloc, plan, step.node)?, "place": place,
        "port": step.hop.port
    })
}

/// The pointer to the first of a node's rows for an endpoint ID, or to the node where it has none.
pub fn hop_pointer(
    alloc: Global,
    plan: &Plan,
    eid: Eid,
    node: usize,
) -> Result<Vec<PointerStep>, AllocError>
    ensures { IfOk result (λ pointer. map step_value pointer.items ≡ hop_pointer plan.now eid node) }
{
    way_pointer(alloc, node, index_for(plan, eid, node))
}
