//! What a plan and its certificate say of a node, by the node's index in the plan's list.
ghost use Rattle.std.{specs.Prelude.{◌≡◌, ◌≢◌, ℕ, ◌+◌, ◌<◌, ◌↔◌, ◌==◌, IsTrue, MatchBool, MatchOption, map, option_map, slice_get, string_bytes}, specs.List.{list_any}};
ghost use Rattle.net_tables.{specs.Names.{address_on, bus_name, device_kind, first_address, kind_word, node_name, IsFirstBus, IsNoBus}, specs.Routing.{Holds, IsHeld, Covers, HasRow, IsBridge, eid_of, rows_of, ports_of, eid_number}, specs.Rows.{bus_of}, specs.Ownership.{owner_of, given_level, level, pool_of, IsInPool, IsInPoolOf}, specs.Ranks.{rank_in, ranges_of}, specs.Repositories.{terminus_of, records_of, places_of}};

use mctp_routing::DeviceKind;
use mctp_transport::Eid;
use plan_values::{
    Bus, Certificate, Kind, Plan, PlannedRecord, PlannedTerminus, Pool, Port, RankRange,
    RecordPlace, Row,
};

/// Whether there is such a node, and it is a bridge.
pub fn is_bridge(plan: &Plan, node: usize) -> bool
    ensures { IsTrue result ↔ IsBridge plan.now node }
{
    node < plan.nodes.len() && plan.nodes[node].kind == Kind::Bridge
}

/// The endpoint ID of a node, none where there is no such node.
pub fn eid_at(plan: &Plan, node: usize) -> Option<Eid>
    ensures { eid_number result ≡ eid_of plan.now node }
{
    plan.nodes.get(node).map(|node| node.eid)
}

/// Whether there is such a node, and it holds the endpoint ID.
pub fn holds(plan: &Plan, node: usize, eid: Eid) -> bool
    ensures { IsTrue result ↔ Holds plan.now node eid.value }
{
    node < plan.nodes.len() && plan.nodes[node].eid == eid
}

/// A node that holds the endpoint ID.
pub fn holder(plan: &Plan, eid: Eid) -> Option<usize>
    ensures { MatchOption result (¬ IsHeld plan.now eid.value) (λ n. Holds plan.now n eid.value) }
{
    for node in 0..plan.nodes.len() {
        if holds(plan, node, eid) {
            return Some(node);
        }
    }
    None
}

/// Whether a node holds the endpoint ID.
pub fn is_held(plan: &Plan, eid: Eid) -> bool
    ensures { IsTrue result ↔ IsHeld plan.now eid.value }
{
    holder(plan, eid).is_some()
}

/// The name of a node; a dash where there is no such node.
pub fn node_name(plan: &Plan, node: usize) -> &str
    ensures { result.now ≡ node_name plan.now node }
{
    plan.nodes
        .get(node)
        .map_or("-", |node| node.name.text.as_str())
}

/// The name of a bus; a dash where there is no such bus.
pub fn bus_name(plan: &Plan, bus: usize) -> &str
    ensures { result.now ≡ bus_name plan.now bus }
{
    plan.buses
        .get(bus)
        .map_or("-", |bus| bus.name.text.as_str())
}

/// The index of the first bus of the name.
pub fn bus_named(plan: &Plan, name: &str) -> Option<usize>
    ensures { MatchOption result (IsNoBus plan.now name.now) (IsFirstBus plan.now name.now) }
{
    for (index, bus) in plan.buses.iter().enumerate() {
        if is_named(bus, name) {
            return Some(index);
        }
    }
    None
}

fn is_named(bus: &Bus, name: &str) -> bool
    ensures { MatchBool result (string_bytes bus.now.name.text ≡ name.now) (string_bytes bus.now.name.text ≢ name.now) }
{
    bus.name.text.as_str() == name
}

/// The word of what a node does with the packets of others.
pub fn kind_word(kind: Kind) -> &'static str
    ensures { result.now ≡ kind_word kind }
{
    match kind {
        Kind::Bridge => "bridge",
        Kind::Endpoint => "endpoint",
    }
}

/// The kind of a node as its device has it.
pub fn device_kind(kind: Kind) -> DeviceKind
    ensures { result ≡ device_kind kind }
{
    match kind {
        Kind::Bridge => DeviceKind::Bridge,
        Kind::Endpoint => DeviceKind::Endpoint,
    }
}

/// The owner of a node; none where nobody owns it, and where there is no such node.
pub fn owner_at(plan: &Plan, node: usize) -> Option<usize>
    ensures { result ≡ owner_of plan.now node }
{
    plan.nodes.get(node)?.owner
}

/// The pool of a node; none where it has none, and where there is no such node.
pub fn pool_at(plan: &Plan, node: usize) -> Option<Pool>
    ensures { result ≡ pool_of plan.now node }
{
    plan.nodes.get(node)?.pool
}

/// Whether the node has a pool with the endpoint ID in it.
#[tactic(auto, unfolding(crate::specs::Ownership::IsInPoolOf))]
pub fn is_in_pool_of(plan: &Plan, node: usize, eid: Eid) -> bool
    ensures { IsTrue result ↔ IsInPoolOf plan.now node eid.value }
{
    match pool_at(plan, node) {
        Some(pool) => is_in_pool(pool, eid),
        None => false,
    }
}

/// Whether the endpoint ID is one of the pool's.
pub fn is_in_pool(pool: Pool, eid: Eid) -> bool
    ensures { IsTrue result ↔ IsInPool pool eid.value }
{
    pool.eids().contains(eid)
}

/// The number after that of the pool's last endpoint ID.
pub fn pool_end(pool: Pool) -> u16
    ensures { result ≡ pool.first.value + pool.size }
{
    pool.eids().end()
}

/// The ports of a node, none where there is no such node.
pub fn ports_at(plan: &Plan, node: usize) -> &[Port]
    ensures { result.now ≡ ports_of plan.now node }
{
    match plan.nodes.get(node) {
        Some(node) => &node.ports,
        None => &[],
    }
}

/// A node's port, if it has it.
pub fn port_at(plan: &Plan, node: usize, port: usize) -> Option<&Port>
    ensures { option_map (λ p. p.now) result ≡ slice_get (ports_of plan.now node) port }
{
    ports_at(plan, node).get(port)
}

/// The bus of a node's port, where it has the port.
pub fn bus_at(plan: &Plan, node: usize, port: u8) -> Option<usize>
    ensures { result ≡ bus_of plan.now node port }
{
    ports_at(plan, node)
        .get(usize::from(port))
        .map(|port| port.bus)
}

/// Whether one of the node's ports is on the bus.
pub fn is_on_bus(plan: &Plan, node: usize, bus: usize) -> bool
    ensures { result ≡ list_any (λ port. port.bus == bus) (ports_of plan.now node) }
{
    ports_at(plan, node).iter().any(|port| port.bus == bus)
}

/// The address of a node's first port on a bus; empty where it has none there.
pub fn address_on(plan: &Plan, node: usize, bus: Option<usize>) -> &[u8]
    ensures { result.now ≡ address_on plan.now node bus }
{
    match bus {
        Some(bus) => first_address(ports_at(plan, node), bus),
        None => &[],
    }
}

/// The address of the first of these ports that is on the bus; empty where none is.
fn first_address(ports: &[Port], bus: usize) -> &[u8]
    ensures { result.now ≡ first_address ports.now bus }
{
    ports
        .iter()
        .find(|port| port.bus == bus)
        .map_or(&[], |port| port.address.as_slice())
}

/// The rows of a node, none where there is no such node.
pub fn rows_at(plan: &Plan, node: usize) -> &[Row]
    ensures { result.now ≡ rows_of plan.now node }
{
    match plan.nodes.get(node) {
        Some(node) => &node.rows,
        None => &[],
    }
}

/// A row of a node, if it has it.
pub fn row_at(plan: &Plan, node: usize, row: usize) -> Option<&Row>
    ensures { option_map (λ r. r.now) result ≡ slice_get (rows_of plan.now node) row }
{
    rows_at(plan, node).get(row)
}

/// Whether the node has a row for the endpoint ID.
pub fn has_row(plan: &Plan, node: usize, eid: Eid) -> bool
    ensures { IsTrue result ↔ HasRow plan.now node eid.value }
{
    let rows = rows_at(plan, node);
    for row in rows {
        if covers(row, eid) {
            return true;
        }
    }
    false
}

/// Whether the endpoint ID is one of the row's.
pub fn covers(row: &Row, eid: Eid) -> bool
    ensures { IsTrue result ↔ Covers row.now eid.value }
{
    row.eids().contains(eid)
}

/// The number after that of the row's last endpoint ID.
pub fn row_end(row: &Row) -> u16
    ensures { result ≡ row.now.first.value + row.now.size }
{
    row.eids().end()
}

/// The terminus of a node; none where it has none, and where there is no such node.
pub fn terminus_at(plan: &Plan, node: usize) -> Option<&PlannedTerminus>
    ensures { option_map (λ t. t.now) result ≡ terminus_of plan.now node }
{
    plan.nodes.get(node)?.terminus.as_ref()
}

/// The records of a node's terminus, none where it has no terminus.
pub fn records_at(plan: &Plan, node: usize) -> &[PlannedRecord]
    ensures { result.now ≡ records_of plan.now node }
{
    match terminus_at(plan, node) {
        Some(terminus) => &terminus.records,
        None => &[],
    }
}

/// A record of a node's terminus, if it has it.
pub fn record_at(plan: &Plan, node: usize, index: usize) -> Option<&PlannedRecord>
    ensures { option_map (λ r. r.now) result ≡ slice_get (records_of plan.now node) index }
{
    records_at(plan, node).get(index)
}

/// The level of a node: 0 where it has no owner, whatever the certificate gives.
pub fn level_of(plan: &Plan, certificate: &Certificate, node: usize) -> u8
    ensures { result ≡ level plan.now certificate.now node }
{
    match owner_at(plan, node) {
        Some(_) => given_level_of(certificate, node),
        None => 0,
    }
}

/// The level that the certificate gives a node; 0 where it gives none.
pub fn given_level_of(certificate: &Certificate, node: usize) -> u8
    ensures { result ≡ given_level certificate.now node }
{
    match certificate.levels.iter().find(|given| given.node == node) {
        Some(given) => given.level,
        None => 0,
    }
}

/// The places that the certificate gives a node's records, none where it has none for the node.
pub fn places_at(certificate: &Certificate, node: usize) -> &[RecordPlace]
    ensures { map (λ p. p.value) result.now ≡ places_of certificate.now node }
{
    match certificate.places.iter().find(|given| given.node == node) {
        Some(given) => &given.places,
        None => &[],
    }
}

/// The ranges that give a node its ranks, none where the certificate gives it no rank.
pub fn ranges_at(certificate: &Certificate, node: usize) -> &[RankRange]
    ensures { result.now ≡ ranges_of certificate.now node }
{
    match certificate.ranks.iter().find(|given| given.node == node) {
        Some(given) => &given.ranges,
        None => &[],
    }
}

/// The rank that a node's ranges give an endpoint ID.
pub fn rank_in_ranges(ranges: &[RankRange], eid: u8) -> u8
    ensures { result ≡ rank_in ranges.now eid }
{
    ranges
        .iter()
        .find(|range| range.first.value <= eid
            && u16::from(eid) < u16::from(range.first.value) + u16::from(range.size))
        .map_or(0, |range| range.rank)
}

/// The number after that of the range's last endpoint ID.
pub fn range_end(range: &RankRange) -> u16
    ensures { result ≡ range.now.first.value + range.now.size }
{
    range.eids().end()
}
