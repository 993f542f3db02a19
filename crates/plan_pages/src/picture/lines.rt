//! In which order nodes and buses stand in a picture.

use net_tables::lookup::{owner_at, ports_at};
use plan_values::Plan;
use std::alloc::{AllocError, Global};

/// A node in the picture.
#[derive(Clone, Copy)]
pub struct Line {
    pub node: usize,
    /// How many owners stand above it; none where its owners go round.
    pub level: Option<usize>,
    /// Whether it is the first one of its level.
    pub is_first: bool,
    /// How far down it stands, in pixels.
    pub y: usize,
}

/// The nodes by their levels, those of one owner together, from a height on. Those whose owners go round stand last.
pub fn lines_of(alloc: Global, plan: &Plan, top: usize) -> Result<Vec<Line>, AllocError> {
    let mut lines = Vec::new(alloc);
    push_owned(plan, None, Some(0), top, &mut lines)?;
    for index in 0..plan.nodes.len() {
        if let Some(line) = lines.get(index).copied() {
            let level = line.level.map(|level| level.saturating_add(1));
            push_owned(plan, Some(line.node), level, top, &mut lines)?;
        }
    }
    for node in 0..plan.nodes.len() {
        if !has_node(&lines, node) {
            push_line(plan, node, None, top, &mut lines)?;
        }
    }
    Ok(lines)
}

/// Adds the nodes of an owner, or those without one.
fn push_owned(
    plan: &Plan,
    owner: Option<usize>,
    level: Option<usize>,
    top: usize,
    lines: &mut Vec<Line>,
) -> Result<(), AllocError> {
    for node in 0..plan.nodes.len() {
        if owner_at(plan, node) == owner {
            push_line(plan, node, level, top, lines)?;
        }
    }
    Ok(())
}

/// Adds a node below the others.
fn push_line(
    plan: &Plan,
    node: usize,
    level: Option<usize>,
    top: usize,
    lines: &mut Vec<Line>,
) -> Result<(), AllocError> {
    let (is_first, y) = match lines.last() {
        None => (true, top),
        Some(last) if last.level != level => (true, last.y.saturating_add(36)),
        Some(last) if owner_at(plan, last.node) != owner_at(plan, node) => {
            (false, last.y.saturating_add(28))
        }
        Some(last) => (false, last.y.saturating_add(20)),
    };
    lines.push(Line {
        node,
        level,
        is_first,
        y,
    })?;
    Ok(())
}

fn has_node(lines: &[Line], node: usize) -> bool {
    lines.iter().any(|line| line.node == node)
}

/// The buses, each once: in the order in which the nodes name them, and then those that none names.
pub fn lanes_of(alloc: Global, plan: &Plan, lines: &[Line]) -> Result<Vec<usize>, AllocError> {
    let mut lanes = Vec::new(alloc);
    for line in lines {
        for port in ports_at(plan, line.node) {
            push_new(port.bus, &mut lanes)?;
        }
    }
    for bus in 0..plan.buses.len() {
        push_new(bus, &mut lanes)?;
    }
    Ok(lanes)
}

fn push_new(bus: usize, lanes: &mut Vec<usize>) -> Result<(), AllocError> {
    if !lanes.contains(&bus) {
        lanes.push(bus)?;
    }
    Ok(())
}
