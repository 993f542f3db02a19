//! Plans and their parts, compared by what they say.
ghost use Rattle.std.specs.Prelude.{◌≡◌, ◌↔◌, IsTrue, map, option_map};
ghost use Rattle.plan_values.{specs.NodeValues.{BusValue, PortValue, RowValue, RecordValue, TerminusValue, NodeValue, bus_value, port_value, row_value, record_value, terminus_value, node_value, but_rows}, specs.PlanValues.{plan_value}};

use crate::nodes::{Bus, Node, Port, Row};
use crate::plan::Plan;
use crate::terminus::{PlannedRecord, PlannedTerminus};

/// A part of a plan that is compared by what it says.
pub trait PlanPart {
    ghost Meaning: { Type 0 };

    ghost meaning: { Self → Meaning };

    /// Whether both say the same.
    fn is_same(&self, other: &Self) -> bool
        ensures { IsTrue result ↔ meaning self.now ≡ meaning other.now };
}

/// Whether two plans are the same.
pub fn are_same_plans(plan: &Plan, other: &Plan) -> bool
    ensures { IsTrue result ↔ plan_value plan.now ≡ plan_value other.now }
{
    plan.unit == other.unit
        && are_same(plan.buses.as_slice(), other.buses.as_slice())
        && are_same(plan.nodes.as_slice(), other.nodes.as_slice())
}

/// Whether two lists of parts are the same, in order.
pub fn are_same<P: PlanPart>(parts: &[P], others: &[P]) -> bool
    ensures { IsTrue result ↔ map P.meaning parts.now ≡ map P.meaning others.now }
{
    if parts.len() != others.len() {
        return false;
    }
    for index in 0..parts.len() {
        if !parts[index].is_same(&others[index]) {
            return false;
        }
    }
    true
}

impl PlanPart for Bus {
    ghost Meaning = { BusValue };

    ghost meaning = { bus_value };

    fn is_same(&self, other: &Bus) -> bool {
        self.name == other.name && self.binding == other.binding && self.media == other.media
    }
}

impl PlanPart for Port {
    ghost Meaning = { PortValue };

    ghost meaning = { port_value };

    fn is_same(&self, other: &Port) -> bool {
        self.bus == other.bus && self.address == other.address
    }
}

impl PlanPart for Row {
    ghost Meaning = { RowValue };

    ghost meaning = { row_value };

    fn is_same(&self, other: &Row) -> bool {
        self == other
    }
}

impl PlanPart for PlannedRecord {
    ghost Meaning = { RecordValue };

    ghost meaning = { record_value };

    fn is_same(&self, other: &PlannedRecord) -> bool {
        self.handle == other.handle && self.next == other.next && self.bytes == other.bytes
    }
}

impl PlanPart for PlannedTerminus {
    ghost Meaning = { TerminusValue };

    ghost meaning = { terminus_value };

    fn is_same(&self, other: &PlannedTerminus) -> bool {
        self.tid == other.tid && are_same(self.records.as_slice(), other.records.as_slice())
    }
}

impl PlanPart for Node {
    ghost Meaning = { NodeValue };

    ghost meaning = { node_value };

    fn is_same(&self, other: &Node) -> bool {
        are_same_but_rows(self, other) && are_same(self.rows.as_slice(), other.rows.as_slice())
    }
}

/// Whether two nodes are the same, but for their rows.
pub fn are_same_but_rows(node: &Node, other: &Node) -> bool
    ensures { IsTrue result ↔ but_rows node.now ≡ but_rows other.now }
{
    node.name == other.name
        && node.kind == other.kind
        && node.eid == other.eid
        && node.owner == other.owner
        && node.pool == other.pool
        && are_same(node.ports.as_slice(), other.ports.as_slice())
        && are_same_termini(&node.terminus, &other.terminus)
}

/// Whether neither node has a terminus, or both have the same.
fn are_same_termini(terminus: &Option<PlannedTerminus>, other: &Option<PlannedTerminus>) -> bool
    ensures { IsTrue result ↔ option_map terminus_value terminus.now ≡ option_map terminus_value other.now }
{
    match (terminus, other) {
        (Some(terminus), Some(other)) => terminus.is_same(other),
        (None, None) => true,
        _ => false,
    }
}
