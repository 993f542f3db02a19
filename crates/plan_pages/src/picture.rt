//! The network as a picture: a line for each node, by owner level from top to bottom, and a lane for each bus.

mod lines;
mod scale;

use crate::markup::label;
use crate::picture::lines::{Line, lanes_of, lines_of};
use crate::picture::scale::{BADGE, NAMES, Scale, beside};
use net_tables::lookup::{bus_name, is_bridge, is_on_bus, node_name, ports_at};
use plan_values::Plan;
use std::alloc::{AllocError, Global};

/// The picture of a plan. The nodes that are marked stand out.
pub fn picture_of(alloc: Global, plan: &Plan, marked: &[usize]) -> Result<String, AllocError> {
    let scale = Scale::of(plan);
    let lines = lines_of(alloc, plan, scale.top)?;
    let lanes = lanes_of(alloc, plan, &lines)?;
    let width = scale.width;
    let height = lines
        .last()
        .map_or(scale.top, |line| line.y)
        .saturating_add(16);
    let mut drawn = format!(in alloc;
        "<svg width=\"{width}\" height=\"{height}\" viewBox=\"0 0 {width} {height}\" role=\"img\" \
        aria-label=\"The nodes by owner level, and their buses\">\n"
    )?;
    push_levels(alloc, &lines, width, &mut drawn)?;
    for (lane, &bus) in lanes.iter().enumerate() {
        drawn.push_str(&bus_drawn(alloc, plan, &scale, &lines, lane, bus)?)?;
    }
    for line in &lines {
        let class = if marked.contains(&line.node) {
            "bad"
        } else {
            "name"
        };
        drawn.push_str(&node_drawn(alloc, plan, &scale, &lanes, *line, class)?)?;
    }
    drawn.push_str("</svg>\n")?;
    Ok(drawn)
}

/// A border above each level, and its number.
fn push_levels(
    alloc: Global,
    lines: &[Line],
    width: usize,
    drawn: &mut String,
) -> Result<(), AllocError> {
    for line in lines.iter().filter(|line| line.is_first) {
        let border = line.y.saturating_sub(14);
        drawn.push_str(&stroke(alloc, "border", [0, border], [width, border])?)?;
        let level = match line.level {
            Some(level) => format!(in alloc; "level {level}")?,
            None => "in a loop".to_string(alloc)?,
        };
        drawn.push_str(&words(alloc, "soft", "start", [0, line.y], &level)?)?;
    }
    Ok(())
}

/// A bus: its name, and its lane from the first of its nodes to the last.
fn bus_drawn(
    alloc: Global,
    plan: &Plan,
    scale: &Scale,
    lines: &[Line],
    lane: usize,
    bus: usize,
) -> Result<String, AllocError> {
    let x = scale.lane(lane);
    let mut drawn = label(alloc, &scale.over_lane(alloc, x)?, bus_name(plan, bus))?;
    let mut ends = None;
    for line in lines.iter().filter(|line| is_on_bus(plan, line.node, bus)) {
        ends = Some((ends.map_or(line.y, |(first, _)| first), line.y));
    }
    if let Some((first, last)) = ends {
        let top = scale.top.saturating_sub(18);
        drawn.push_str(&stroke(alloc, "lead", [x, top], [x, first])?)?;
        drawn.push_str(&stroke(alloc, "bus", [x, first], [x, last])?)?;
    }
    Ok(drawn)
}

/// A node: its badge, its name, its endpoint ID, and a line to each bus that it is on.
fn node_drawn(
    alloc: Global,
    plan: &Plan,
    scale: &Scale,
    lanes: &[usize],
    line: Line,
    class: &str,
) -> Result<String, AllocError> {
    let mut drawn = badge(alloc, is_bridge(plan, line.node), line.y)?;
    let name = node_name(plan, line.node);
    drawn.push_str(&words(alloc, class, "start", [NAMES, line.y], name)?)?;
    let eid = plan.nodes.get(line.node).map_or(0, |node| node.eid.value);
    let eid = format!(in alloc; "{eid}")?;
    drawn.push_str(&words(alloc, "soft", "end", [scale.eids, line.y], &eid)?)?;
    let mut ends = None;
    for (lane, &bus) in lanes.iter().enumerate() {
        if is_on_bus(plan, line.node, bus) {
            let x = scale.lane(lane);
            ends = Some((ends.map_or(x, |(first, _)| first), x));
        }
    }
    if let Some((first, last)) = ends {
        let start = scale.eids.saturating_add(8);
        drawn.push_str(&stroke(alloc, "lead", [start, line.y], [first, line.y])?)?;
        drawn.push_str(&stroke(alloc, "link", [first, line.y], [last, line.y])?)?;
    }
    for (lane, &bus) in lanes.iter().enumerate() {
        drawn.push_str(&port_drawn(alloc, plan, scale, line, lane, bus)?)?;
    }
    Ok(drawn)
}

/// The node's port on a bus, if it has one, with its address where there is room.
fn port_drawn(
    alloc: Global,
    plan: &Plan,
    scale: &Scale,
    line: Line,
    lane: usize,
    bus: usize,
) -> Result<String, AllocError> {
    let Some(port) = ports_at(plan, line.node)
        .iter()
        .find(|port| port.bus == bus)
    else {
        return Ok(String::new(alloc));
    };
    let x = scale.lane(lane);
    let y = line.y;
    let mut drawn = format!(in alloc; "<circle class=\"port\" cx=\"{x}\" cy=\"{y}\" r=\"4\"/>\n")?;
    if scale.has_room_for(port.address.len()) {
        let address = hex::encode(alloc, port.address.as_slice())?;
        let at = [x.saturating_add(8), y.saturating_sub(7)];
        drawn.push_str(&words(alloc, "soft", "start", at, &address)?)?;
    }
    Ok(drawn)
}

/// A square for a bridge, and a ring for an endpoint.
fn badge(alloc: Global, is_bridge: bool, y: usize) -> Result<String, AllocError> {
    if is_bridge {
        let top = y.saturating_sub(5);
        return format!(in alloc;
            "<rect class=\"bridge\" x=\"{BADGE}\" y=\"{top}\" width=\"10\" height=\"10\"/>\n"
        );
    }
    let center = beside(BADGE, 1, 5);
    format!(in alloc; "<circle class=\"endpoint\" cx=\"{center}\" cy=\"{y}\" r=\"4\"/>\n")
}

/// A straight line from one point to another.
fn stroke(
    alloc: Global,
    class: &str,
    [from_x, from_y]: [usize; 2],
    [to_x, to_y]: [usize; 2],
) -> Result<String, AllocError> {
    format!(in alloc;
        "<line class=\"{class}\" x1=\"{from_x}\" y1=\"{from_y}\" x2=\"{to_x}\" y2=\"{to_y}\"/>\n"
    )
}

/// A text that stands beside a place.
fn words(
    alloc: Global,
    class: &str,
    anchor: &str,
    [x, y]: [usize; 2],
    text: &str,
) -> Result<String, AllocError> {
    let y = y.saturating_add(4);
    let attributes = format!(in alloc;
        "class=\"{class}\" x=\"{x}\" y=\"{y}\" text-anchor=\"{anchor}\""
    )?;
    label(alloc, &attributes, text)
}
