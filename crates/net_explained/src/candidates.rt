//! Edits that may take an obstacle away. Each is tried before it is proposed, so nothing is promised of them here.

mod eids;
mod names;
mod pools;
mod records;
mod rows;

use crate::cause::Cause;
use crate::edit::{Change, Edit};
use crate::finding::find_cause;
use net_rules::{CertifyError, Fault};
use net_tables::lookup::pool_at;
use plan_values::{Kind, Plan};
use std::alloc::{AllocError, Global};

/// How many edits are tried at most.
const MOST_CANDIDATES: usize = 60;

/// Edits that may take the obstacle away, those first that are most likely meant.
pub fn candidates(
    alloc: Global,
    plan: &Plan,
    obstacle: &CertifyError,
) -> Result<Vec<Edit>, AllocError> {
    let mut edits = Vec::new(alloc);
    match obstacle {
        CertifyError::Fault(fault) => {
            if let Some(cause) = find_cause(plan, fault) {
                add_for_cause(alloc, plan, fault, cause, &mut edits)?;
            }
        }
        CertifyError::OwnerLoop(nodes) => {
            for &node in nodes {
                pools::add_owners(plan, node, &mut edits)?;
                add(&mut edits, node, Change::Owner(None))?;
            }
        }
        CertifyError::Loop(eid, nodes) => {
            for &node in nodes {
                rows::add_ways_out(plan, node, *eid, &mut edits)?;
            }
        }
        CertifyError::BadChain(node, kind, entry) => {
            records::add_links(plan, *node, *kind, *entry, &mut edits)?;
        }
        CertifyError::OutOfMemory => {}
    }
    Ok(edits)
}

/// Adds an edit, unless there are enough or it is there.
fn add(edits: &mut Vec<Edit>, node: usize, change: Change) -> Result<(), AllocError> {
    let edit = Edit { node, change };
    if edits.len() < MOST_CANDIDATES && !edits.contains(&edit) {
        edits.push(edit)?;
    }
    Ok(())
}

/// Adds edits that may take a fault of this cause away.
fn add_for_cause(
    alloc: Global,
    plan: &Plan,
    fault: &Fault,
    cause: Cause,
    edits: &mut Vec<Edit>,
) -> Result<(), AllocError> {
    let node = fault.node;
    match cause {
        Cause::SharedName { .. } => names::add_names(alloc, plan, node, edits),
        Cause::UnassignableEid => eids::add_eids(plan, node, edits),
        Cause::SharedEid { earlier } => {
            eids::add_eids(plan, node, edits)?;
            eids::add_eids(plan, earlier, edits)
        }
        Cause::OwnerIsEndpoint { owner } => {
            pools::add_owners(plan, node, edits)?;
            add(edits, node, Change::Owner(None))?;
            add(edits, owner, Change::Kind(Kind::Bridge))
        }
        Cause::OwnerSharesNoBus { .. } => {
            pools::add_owners(plan, node, edits)?;
            add(edits, node, Change::Owner(None))
        }
        Cause::OutsideOwnersPool { owner } => {
            eids::add_eids(plan, node, edits)?;
            pools::add_owners(plan, node, edits)?;
            if pool_at(plan, owner).is_none() {
                pools::add_for_owned(plan, owner, edits)?;
            }
            pools::add_larger(plan, owner, fault.eid, edits)?;
            pools::add_for_owned(plan, owner, edits)?;
            add(edits, node, Change::Owner(None))
        }
        Cause::InPeersPool { peer } => {
            pools::add_lost_owners(plan, node, edits)?;
            pools::add_parts(plan, peer, fault.eid, edits)?;
            eids::add_eids(plan, node, edits)?;
            add(edits, peer, Change::Pool(None))
        }
        Cause::PoolOfEndpoint => {
            add(edits, node, Change::Pool(None))?;
            add(edits, node, Change::Kind(Kind::Bridge))
        }
        Cause::PoolOutOfRange => pools::add_clipped(plan, node, edits),
        Cause::PoolBeyondOwners { owner, .. } => pools::add_within(plan, node, owner, edits),
        Cause::PoolsMeet { earlier, .. } => {
            pools::add_lost_owners(plan, node, edits)?;
            pools::add_lost_owners(plan, earlier, edits)?;
            pools::add_apart(plan, node, earlier, edits)?;
            pools::add_apart(plan, earlier, node, edits)
        }
        Cause::NoRecords => add(edits, node, Change::NoTerminus),
        _ => match fault.entry {
            Some(at) => add_for_entry(alloc, plan, fault, at, cause, edits),
            None => Ok(()),
        },
    }
}

/// The same where the cause is in a row or a record.
fn add_for_entry(
    alloc: Global,
    plan: &Plan,
    fault: &Fault,
    at: usize,
    cause: Cause,
    edits: &mut Vec<Edit>,
) -> Result<(), AllocError> {
    let node = fault.node;
    match cause {
        Cause::OverlappedRow { earlier, .. } => {
            rows::add_rest(plan, node, at, edits)?;
            rows::add_rest(plan, node, earlier, edits)?;
            rows::add_what_next_has(plan, node, at, edits)?;
            rows::add_what_next_has(plan, node, earlier, edits)?;
            add(edits, node, Change::LessRow(at))?;
            add(edits, node, Change::LessRow(earlier))
        }
        Cause::RowOutOfRange => {
            rows::add_what_next_has(plan, node, at, edits)?;
            rows::add_clipped(plan, node, at, edits)?;
            add(edits, node, Change::LessRow(at))
        }
        Cause::NextIsItself | Cause::NoSuchPort | Cause::NextNotOnBus { .. } => {
            rows::add_neighbors(plan, node, at, edits)?;
            add(edits, node, Change::LessRow(at))
        }
        Cause::EndpointForSeveral => {
            rows::add_neighbors(plan, node, at, edits)?;
            rows::add_what_next_has(plan, node, at, edits)?;
            rows::add_next_as_bridge(plan, node, at, edits)?;
            add(edits, node, Change::LessRow(at))
        }
        Cause::NextIsEndpoint { holder } | Cause::NextHasNoRow { holder } => {
            rows::add_ways_on(plan, node, at, fault.eid, holder, edits)
        }
        Cause::HandleIsZero | Cause::SharedHandle { .. } => records::add_handles(
            plan, node, at, edits,
        ),
        Cause::UnreadableRecord { .. } => records::add_length(alloc, plan, node, at, edits),
        Cause::OtherHandle { handle } => records::add_header_handle(
            alloc, plan, node, at, handle, edits,
        ),
        Cause::LongLocator { tid }
        | Cause::NobodyHolds { tid }
        | Cause::OtherTerminus { tid, .. } => records::add_locators(
            alloc, plan, node, at, tid, edits,
        ),
        _ => Ok(()),
    }
}
