//! Edits of a plan.
ghost use Rattle.std.specs.Prelude.{◌≡◌, IfOk, IfSome, IsTrue, option_map, Some};
ghost use Rattle.plan_values.{specs.NodeValues.{node_value, record_value, terminus_value}, specs.PlanValues.{plan_value}};
ghost use Rattle.net_explained.specs.Edits.{IsEdited, changed, changed_record, with_record};

use mctp_transport::Eid;
use plan_values::{Kind, Name, Node, Plan, PlannedRecord, PlannedTerminus, Pool, Row};
use std::alloc::{AllocError, Global};

/// An edit of a plan: what becomes another at one of its nodes.
#[derive(Debug, PartialEq, Eq, Drop)]
pub struct Edit {
    /// The index of the node in the plan's list.
    pub node: usize,
    pub change: Change,
}

/// What becomes another at a node. A row or a record is told by its index in the node's list.
#[derive(Debug, PartialEq, Eq, Drop)]
pub enum Change {
    /// Its name.
    Name(Name),
    /// What it does with the packets of others.
    Kind(Kind),
    /// The endpoint ID that it holds.
    Eid(Eid),
    /// Its owner.
    Owner(Option<usize>),
    /// Its pool.
    Pool(Option<Pool>),
    /// A row.
    Row(usize, Row),
    /// There is one more row, behind the last one.
    MoreRow(Row),
    /// A row is gone.
    LessRow(usize),
    /// There is no terminus.
    NoTerminus,
    /// The handle of a record.
    Handle(usize, u32),
    /// The next handle of a record.
    Next(usize, u32),
    /// The bytes of a record.
    Bytes(usize, Vec<u8>),
}

/// The plan with just this changed. None where the plan has no such node, row or record, or where it would be no plan.
pub fn edited(alloc: Global, plan: Plan, edit: &Edit) -> Result<Option<Plan>, AllocError>
    ensures { IfOk result (λ found. IfSome found (λ after. IsEdited (plan_value plan) edit.now (plan_value after))) }
{
    let Plan {
        unit,
        buses,
        mut nodes,
    } = plan;
    if edit.node >= nodes.len() {
        return Ok(None);
    }
    if !change_node(alloc, &mut nodes[edit.node], &edit.change)? {
        return Ok(None);
    }
    Ok(Plan::of(unit, buses, nodes))
}

/// Changes this of a node, and whether it has the row or the record.
fn change_node(alloc: Global, node: &mut Node, change: &Change) -> Result<bool, AllocError>
    ensures { IfOk result (λ done. IsTrue done → node_value node.new ≡ changed change.now (node_value node.old)) }
{
    match change {
        Change::Name(name) => match Name::of(name.text.clone()?) {
            Some(name) => node.name = name,
            None => return Ok(false),
        },
        Change::Kind(kind) => node.kind = *kind,
        Change::Eid(eid) => node.eid = *eid,
        Change::Owner(owner) => node.owner = *owner,
        Change::Pool(pool) => node.pool = *pool,
        Change::NoTerminus => node.terminus = None,
        Change::Row(at, row) => {
            if *at >= node.rows.len() {
                return Ok(false);
            }
            node.rows[*at] = *row;
        }
        Change::MoreRow(row) => {
            if node.rows.len() >= 256 {
                return Ok(false);
            }
            node.rows.push(*row)?;
        }
        Change::LessRow(at) => {
            if *at >= node.rows.len() {
                return Ok(false);
            }
            node.rows.remove(*at);
        }
        Change::Handle(at, _) | Change::Next(at, _) | Change::Bytes(at, _) => {
            return change_terminus(alloc, &mut node.terminus, *at, change);
        }
    }
    Ok(true)
}

/// Changes this of the record at the index of a terminus, and whether there is one.
fn change_terminus(
    alloc: Global,
    terminus: &mut Option<PlannedTerminus>,
    at: usize,
    change: &Change,
) -> Result<bool, AllocError>
    ensures { IfOk result (λ done. IsTrue done → option_map terminus_value terminus.new ≡ option_map (with_record at (changed_record change.now)) (option_map terminus_value terminus.old)) }
{
    let Some(found) = terminus.take() else {
        return Ok(false);
    };
    let Some(found) = terminus_with(alloc, found, at, change)? else {
        return Ok(false);
    };
    *terminus = Some(found);
    Ok(true)
}

/// A terminus with just this changed of its record at the index, if there is one.
fn terminus_with(
    alloc: Global,
    terminus: PlannedTerminus,
    at: usize,
    change: &Change,
) -> Result<Option<PlannedTerminus>, AllocError>
    ensures { IfOk result (λ found. IfSome found (λ after. terminus_value after ≡ with_record at (changed_record change.now) (terminus_value terminus))) }
{
    let PlannedTerminus { tid, mut records } = terminus;
    if at >= records.len() {
        return Ok(None);
    }
    let record = record_with(alloc, &records[at], change)?;
    records[at] = record;
    Ok(Some(PlannedTerminus { tid, records }))
}

/// A record with just this changed.
fn record_with(
    alloc: Global,
    listed: &PlannedRecord,
    change: &Change,
) -> Result<PlannedRecord, AllocError>
    ensures { IfOk result (λ after. record_value after ≡ changed_record change.now (record_value listed.now)) }
{
    let (handle, next, bytes) = match change {
        Change::Handle(_, handle) => (*handle, listed.next, listed.bytes.as_slice()),
        Change::Next(_, next) => (listed.handle, *next, listed.bytes.as_slice()),
        Change::Bytes(_, bytes) => (listed.handle, listed.next, bytes.as_slice()),
        _ => (listed.handle, listed.next, listed.bytes.as_slice()),
    };
    Ok(PlannedRecord {
        handle,
        next,
        bytes: bytes.to_vec(alloc)?,
    })
}
