//! What may change in a step. What is found here is only proposed: each step is judged as a move before it is told.

use crate::change::{Change, Part};
use crate::changed_plan::changed_nodes;
use crate::eid_ways::EidWays;
use mctp_transport::Eid;
use plan_values::Plan;
use std::alloc::{AllocError, Global};

/// The next change on the way from a plan to a new one: of as many nodes as can take their new rows together, in plan
/// order; or, where no node can, of as many parts of rows. `None` where all nodes can, or no part can either.
pub fn proposed(
    alloc: Global,
    here: &Plan,
    new: &Plan,
    ways: &mut [EidWays],
) -> Result<Option<Change>, AllocError> {
    let changed = changed_nodes(alloc, here, new)?;
    let nodes = whole_nodes(alloc, &changed, ways)?;
    if nodes.len() == changed.len() {
        return Ok(None);
    }
    if !nodes.is_empty() {
        return Ok(Some(Change::Nodes(nodes)));
    }
    let parts = parts_of_rows(alloc, &changed, ways)?;
    if parts.is_empty() {
        return Ok(None);
    }
    Ok(Some(Change::Parts(parts)))
}

/// As many of the nodes as can take all their new rows together, the first ones first.
fn whole_nodes(
    alloc: Global,
    changed: &[usize],
    all: &mut [EidWays],
) -> Result<Vec<usize>, AllocError> {
    let mut nodes = Vec::new(alloc);
    for &node in changed {
        if all.iter().all(|ways| ways.may_take(node)) {
            for ways in all.iter_mut() {
                ways.take(node);
            }
            nodes.push(node)?;
        }
    }
    Ok(nodes)
}

/// As many parts of the new rows of nodes as can be taken together, the first ones first.
fn parts_of_rows(
    alloc: Global,
    changed: &[usize],
    all: &mut [EidWays],
) -> Result<Vec<Part>, AllocError> {
    let mut parts = Vec::new(alloc);
    for &node in changed {
        for ways in all.iter_mut() {
            if ways.differs(node) && ways.may_take(node) {
                ways.take(node);
                add_to_parts(&mut parts, node, ways.eid, ways.new_next(node))?;
            }
        }
    }
    Ok(parts)
}

/// Adds an endpoint ID to the last part, where it follows on it and goes by the same node, or as a part of its own.
fn add_to_parts(
    parts: &mut Vec<Part>,
    node: usize,
    eid: Eid,
    next: Option<usize>,
) -> Result<(), AllocError> {
    if let Some(part) = parts.last_mut() {
        let follows = u16::from(part.last.value) + 1 == u16::from(eid.value);
        if follows && part.node == node && part.next == next {
            part.last = eid;
            return Ok(());
        }
    }
    parts.push(Part {
        node,
        first: eid,
        last: eid,
        next,
    })?;
    Ok(())
}
