//! The plan that a change leads to.
ghost use Rattle.std.specs.Prelude.{◌≡◌, ◌↔◌, ℕ, IfOk, IfSome, IsTrue, length, map, option_map};
ghost use Rattle.plan_values.{specs.declared.plan.Plan.{Plan}, specs.NodeValues.{bus_value, port_value, record_value, row_value, terminus_value, name_bytes, but_rows}};
ghost use Rattle.net_tables.specs.Routing.{rows_of};
ghost use Rattle.net_rollout.specs.Steps.{AreChanged, AreNodesAfter, AreTold, ChangesAs, GoAs, GoesAs, IsPartTold, IsTaken, IsTold, SendAs};

use crate::change::{Change, Part};
use crate::row_pieces::{is_sent_to, rows_with};
use mctp_transport::Eid;
use net_tables::lookup::rows_at;
use plan_values::{Bus, Name, Node, Plan, PlannedRecord, PlannedTerminus, Port, Row};
use std::alloc::{AllocError, Global};

/// The plan that a change towards a new plan leads to. `None` where the change tells something of the new plan's rows
/// that isn't so, or where it leads to no plan.
pub fn plan_after(
    alloc: Global,
    here: &Plan,
    new: &Plan,
    change: &Change,
) -> Result<Option<Plan>, AllocError>
    ensures { IfOk result (λ found. IfSome found (λ after. GoAs here.now new.now change.now after)) }
{
    if new.nodes.len() != here.nodes.len() || !is_told(new, change) {
        return Ok(None);
    }
    let Some(nodes) = nodes_after(alloc, here, new, change)? else {
        return Ok(None);
    };
    let buses = copied_buses(alloc, &here.buses)?;
    Ok(Plan::of(here.unit, buses, nodes))
}

/// The change as it was made: of nodes, just those whose rows have changed.
pub fn as_made(
    alloc: Global,
    here: &Plan,
    after: &Plan,
    change: Change,
) -> Result<Change, AllocError>
    ensures { IfOk result (λ made. (new : Plan) → GoAs here.now new change after.now → ChangesAs here.now new made after.now) }
{
    match change {
        Change::Nodes(_) => Ok(Change::Nodes(changed_nodes(alloc, here, after)?)),
        Change::Parts(parts) => Ok(Change::Parts(parts)),
    }
}

/// The nodes whose rows differ in two plans.
pub fn changed_nodes(alloc: Global, before: &Plan, after: &Plan) -> Result<Vec<usize>, AllocError>
    ensures { IfOk result (λ nodes. AreChanged before.now after.now nodes.items) }
{
    let mut nodes = Vec::new(alloc);
    for node in 0..before.nodes.len().max(after.nodes.len()) {
        if !are_same(rows_at(before, node), rows_at(after, node)) {
            nodes.push(node)?;
        }
    }
    Ok(nodes)
}

fn are_same(rows: &[Row], others: &[Row]) -> bool
    ensures { IsTrue result ↔ (map row_value rows.now ≡ map row_value others.now) }
{
    if rows.len() != others.len() {
        return false;
    }
    for index in 0..rows.len() {
        if !is_same(rows[index], others[index]) {
            return false;
        }
    }
    true
}

fn is_same(row: Row, other: Row) -> bool
    ensures { IsTrue result ↔ (row_value row ≡ row_value other) }
{
    row == other
}

/// Whether the new rows send each part's endpoint IDs to the node that it names.
fn is_told(new: &Plan, change: &Change) -> bool
    ensures { IsTrue result → IsTold new.now change.now }
{
    match change {
        Change::Nodes(_) => true,
        Change::Parts(parts) => are_told(new, parts),
    }
}

fn are_told(new: &Plan, parts: &[Part]) -> bool
    ensures { IsTrue result → AreTold new.now parts.now }
{
    for part in parts {
        if !is_part_told(new, part) {
            return false;
        }
    }
    true
}

fn is_part_told(new: &Plan, part: &Part) -> bool
    ensures { IsTrue result → IsPartTold new.now part.now }
{
    let rows = rows_at(new, part.node);
    let first = u16::from(part.first.value);
    for eid in first..u16::from(part.last.value) + 1 {
        if !is_sent_to(rows, Eid::new(eid as u8), part.next) {
            return false;
        }
    }
    true
}

/// The nodes that a change leads to. `None` where one would have too many rows.
fn nodes_after(
    alloc: Global,
    here: &Plan,
    new: &Plan,
    change: &Change,
) -> Result<Option<Vec<Node>>, AllocError>
    ensures { IfOk result (λ found. IfSome found (λ nodes. AreNodesAfter here.now new.now change.now (length here.now.nodes.items) nodes.items)) }
{
    let mut nodes = Vec::new(alloc);
    for index in 0..here.nodes.len() {
        let rows = rows_after(alloc, here, new, change, index)?;
        let Some(node) = node_with(alloc, &here.nodes[index], rows)? else {
            return Ok(None);
        };
        nodes.push(node)?;
    }
    Ok(Some(nodes))
}

/// The rows of a node after a change.
fn rows_after(
    alloc: Global,
    here: &Plan,
    new: &Plan,
    change: &Change,
    node: usize,
) -> Result<Vec<Row>, AllocError>
    ensures { IfOk result (λ rows. GoesAs here.now new.now change.now node rows.items) }
{
    match change {
        Change::Nodes(nodes) if nodes.contains(&node) => rows_at(new, node).to_vec(alloc),
        Change::Nodes(_) => rows_at(here, node).to_vec(alloc),
        Change::Parts(parts) => rows_by_parts(alloc, here, new, parts, node),
    }
}

/// The rows of a node once it has taken its parts of the new ones.
fn rows_by_parts(
    alloc: Global,
    here: &Plan,
    new: &Plan,
    parts: &[Part],
    node: usize,
) -> Result<Vec<Row>, AllocError>
    ensures { IfOk result (λ rows. SendAs (IsTaken parts.now node) (rows_of here.now node) (rows_of new.now node) rows.items) }
{
    let mut rows = rows_at(here, node).to_vec(alloc)?;
    for part in parts {
        if part.node == node {
            rows = rows_with(alloc, &rows, rows_at(new, node), part.first, part.last)?;
        }
    }
    Ok(rows)
}

/// A node with other rows. `None` where these are more than a node may have.
fn node_with(alloc: Global, node: &Node, rows: Vec<Row>) -> Result<Option<Node>, AllocError>
    ensures { IfOk result (λ found. IfSome found (λ made. (but_rows made ≡ but_rows node.now) × (made.rows ≡ rows))) }
{
    if rows.len() > 256 {
        return Ok(None);
    }
    let name = copied_name(&node.name)?;
    let ports = copied_ports(alloc, &node.ports)?;
    let terminus = copied_terminus(alloc, &node.terminus)?;
    Ok(Some(Node {
        name,
        kind: node.kind,
        eid: node.eid,
        owner: node.owner,
        pool: node.pool,
        ports,
        rows,
        terminus,
    }))
}

fn copied_name(name: &Name) -> Result<Name, AllocError>
    ensures { IfOk result (λ copy. name_bytes copy ≡ name_bytes name.now) }
{
    Ok(Name {
        text: name.text.clone()?,
    })
}

fn copied_buses(alloc: Global, buses: &[Bus]) -> Result<Vec<Bus>, AllocError>
    ensures { IfOk result (λ copies. map bus_value copies.items ≡ map bus_value buses.now) }
{
    let mut copies = Vec::new(alloc);
    for bus in buses {
        let name = copied_name(&bus.name)?;
        copies.push(Bus {
            name,
            binding: bus.binding,
            media: bus.media,
        })?;
    }
    Ok(copies)
}

fn copied_ports(alloc: Global, ports: &[Port]) -> Result<Vec<Port>, AllocError>
    ensures copied { IfOk result (λ copies. map port_value copies.items ≡ map port_value ports.now) }
    ensures long { IfOk result (λ copies. length copies.items ≡ length ports.now) }
{
    let mut copies = Vec::new(alloc);
    for port in ports {
        copies.push(copied_port(alloc, port)?)?;
    }
    Ok(copies)
}

fn copied_port(alloc: Global, port: &Port) -> Result<Port, AllocError>
    ensures { IfOk result (λ copy. port_value copy ≡ port_value port.now) }
{
    let address = port.address.to_vec(alloc)?;
    Ok(Port {
        bus: port.bus,
        address,
    })
}

fn copied_terminus(
    alloc: Global,
    terminus: &Option<PlannedTerminus>,
) -> Result<Option<PlannedTerminus>, AllocError>
    ensures { IfOk result (λ copy. option_map terminus_value copy ≡ option_map terminus_value terminus.now) }
{
    let Some(terminus) = terminus else {
        return Ok(None);
    };
    let records = copied_records(alloc, &terminus.records)?;
    Ok(Some(PlannedTerminus {
        tid: terminus.tid,
        records,
    }))
}

fn copied_records(
    alloc: Global,
    records: &[PlannedRecord],
) -> Result<Vec<PlannedRecord>, AllocError>
    ensures copied { IfOk result (λ copies. map record_value copies.items ≡ map record_value records.now) }
    ensures long { IfOk result (λ copies. length copies.items ≡ length records.now) }
{
    let mut copies = Vec::new(alloc);
    for listed in records {
        copies.push(copied_record(alloc, listed)?)?;
    }
    Ok(copies)
}

fn copied_record(alloc: Global, listed: &PlannedRecord) -> Result<PlannedRecord, AllocError>
    ensures { IfOk result (λ copy. record_value copy ≡ record_value listed.now) }
{
    let bytes = listed.bytes.to_vec(alloc)?;
    Ok(PlannedRecord {
        handle: listed.handle,
        next: listed.next,
        bytes,
    })
}
