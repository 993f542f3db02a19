//! Stretches of endpoint IDs that each node sends on alike.
ghost use Rattle.std.specs.Prelude.{◌≡◌, ◌⊎◌, ◌+◌, ◌<◌, ◌≤◌, length, min};
ghost use Rattle.net_tables.{specs.Routing.{rows_of}, specs.Rows.{RowsAreApart}, specs.Tables.{SendsAs, AreTables}};
ghost use Rattle.net_rules.specs.MovingAlike.{MovesAlike, MoveAlike, HoldsAlike, HaveOneHop, HoldsBeside, HaveEdge, IsCutAt, IsCut};

use mctp_routing::RangeTable;
use mctp_transport::Eid;
use plan_values::Plan;

/// The last endpoint ID that a node can hold.
const LAST: u8 = 254;

/// A run of endpoint IDs that each node sends on as it does the first.
#[derive(Clone, Copy, Debug)]
pub struct Stretch {
    /// The first endpoint ID of the run.
    pub first: Eid,
    /// The last endpoint ID of the run, which it includes.
    pub last: Eid,
    pub ghost ordered: { first.value ≤ last.value },
    pub ghost within: { last.value ≤ 254 },
}

impl Stretch {
    /// How many endpoint IDs it has.
    pub fn size(self) -> u8
        ensures { self.first.value + result ≡ self.last.value + 1 }
    {
        self.last.value - self.first.value + 1
    }
}

/// The stretch from the endpoint ID on. It ends with 254, or where some node may send on otherwise.
pub fn stretch_from(plan: &Plan, tables: &[RangeTable], first: Eid) -> Stretch
    requires room { first.value ≤ 254 }
    requires apart { RowsAreApart plan.now }
    requires tables { AreTables plan.now (length plan.now.nodes.items) tables.now }
    ensures starts { result.first.value ≡ first.value }
    ensures alike { MoveAlike plan.now result.first.value result.last.value }
    ensures ends { (result.last.value ≡ 254) ⊎ IsCut plan.now tables.now result.last.value }
{
    let mut last = Eid::new(LAST);
    for node in 0..plan.nodes.len() {
        last = lesser(last, alike_until(plan, &tables[node], node, first));
    }
    Stretch { first, last }
}

/// The last endpoint ID that a node sends on as it does the first, as far as its own endpoint ID and its rows tell.
fn alike_until(plan: &Plan, table: &RangeTable, node: usize, first: Eid) -> Eid
    requires room { first.value ≤ 254 }
    requires within { node < length plan.now.nodes.items }
    requires apart { RowsAreApart plan.now }
    requires table { SendsAs (rows_of plan.now node) table.now }
    ensures ordered { first.value ≤ result.value }
    ensures held { result.value ≤ 254 }
    ensures alike { MovesAlike plan.now first.value result.value node }
    ensures ends { (result.value ≡ 254) ⊎ IsCutAt plan.now node table.now result.value }
{
    lesser(held_until(plan, node, first), routed_until(table, first))
}

/// The last endpoint ID up to which the node holds each or none.
fn held_until(plan: &Plan, node: usize, first: Eid) -> Eid
    requires room { first.value ≤ 254 }
    requires within { node < length plan.now.nodes.items }
    ensures ordered { first.value ≤ result.value }
    ensures held { HoldsAlike plan.now first.value result.value node }
    ensures ends { (result.value ≡ 254) ⊎ HoldsBeside plan.now node result.value }
{
    let own = plan.nodes[node].eid.value;
    if own < first.value {
        return Eid::new(LAST);
    }
    if own == first.value {
        first
    } else {
        Eid::new(own - 1)
    }
}

/// The last endpoint ID up to which one row covers each, or none covers any.
fn routed_until(table: &RangeTable, first: Eid) -> Eid
    requires { first.value ≤ 254 }
    ensures ordered { first.value ≤ result.value }
    ensures within { result.value ≤ 254 }
    ensures routed { HaveOneHop table.now first.value result.value }
    ensures ends { (result.value ≡ 254) ⊎ HaveEdge table.now result.value }
{
    match table.pieces(first, Eid::new(LAST)).next() {
        Some(piece) => piece.last,
        None => unreachable!(),
    }
}

/// The lesser of two endpoint IDs.
pub fn lesser(one: Eid, other: Eid) -> Eid
    ensures { result.value ≡ min one.value other.value }
{
    Eid::new(one.value.min(other.value))
}
