//! What `draw --rows` prints: where the rows of nodes lead.
ghost use Rattle.std.specs.Prelude.{option_map};
ghost use Rattle.plan_texts.specs.Drawings.{IsFirstObstacle};

use super::{FIRST_LINE, LAST_LINE, push_hops, push_nodes};
use crate::lookups::span_text;
use mctp_transport::Eid;
use net_rules::CertifyError;
use net_tables::lookup::{covers, holds, rows_at};
use plan_values::{Certificate, Plan, Row};
use std::alloc::{AllocError, Global};

/// Where the way of an endpoint ID from a node leads.
enum Lead {
    /// To the node that holds it, with so many hops.
    Arrives(usize),
    /// To a node that doesn't hold it and has no row for it.
    Stops,
    /// Back to the node itself.
    Returns,
    /// Round other nodes.
    Circles,
}

/// The drawing of the ways of an endpoint ID: a line for each node, and an arrow for each that sends its packets on.
pub fn way_drawing(
    alloc: Global,
    plan: &Plan,
    eid: Eid,
    certificate: Option<&Certificate>,
) -> Result<String, AllocError> {
    let mut lines = FIRST_LINE.to_string(alloc)?;
    push_nodes(&mut lines, &plan.nodes, None, certificate)?;
    for node in 0..plan.nodes.len() {
        if let Some(next) = next_for(plan, node, eid) {
            let lead = lead_text(alloc, lead_from(plan, node, eid), eid)?;
            write!(lines, "    node_{node} -> node_{next} [{lead}];\n")?;
        }
    }
    lines.push_str(LAST_LINE)?;
    Ok(lines)
}

/// The node to which a node sends packets for an endpoint ID; none where it holds it or has no row for it.
fn next_for(plan: &Plan, node: usize, eid: Eid) -> Option<usize> {
    if holds(plan, node, eid) {
        return None;
    }
    let row = rows_at(plan, node).iter().find(|row| covers(row, eid))?;
    Some(row.next)
}

fn lead_from(plan: &Plan, node: usize, eid: Eid) -> Lead {
    let mut at = node;
    for hops in 0..plan.nodes.len() {
        match next_for(plan, at, eid) {
            Some(next) if next == node => return Lead::Returns,
            Some(next) => at = next,
            None if holds(plan, at, eid) => return Lead::Arrives(hops),
            None => return Lead::Stops,
        }
    }
    Lead::Circles
}

/// How an arrow looks, and what is written on it.
fn lead_text(alloc: Global, lead: Lead, eid: Eid) -> Result<String, AllocError> {
    let eid = eid.value;
    match lead {
        Lead::Arrives(hops) => format!(in alloc; "label=\"{hops}\""),
        Lead::Stops => "style=dotted, label=\"stops\"".to_string(alloc),
        Lead::Returns => format!(in alloc; "color=red, penwidth=3, label=\"eid {eid}\""),
        Lead::Circles => "label=\"goes round\"".to_string(alloc),
    }
}

/// The drawing of all rows: a line for each node, an arrow from each to each node that rows of it name, and the arrows
/// of what goes round. The obstacle is what rules certificates of the plan out first.
pub fn bundle_drawing(
    alloc: Global,
    plan: &Plan,
    obstacle: Option<&CertifyError>,
    certificate: Option<&Certificate>,
) -> Result<String, AllocError>
    requires first { IsFirstObstacle plan.now (option_map (λ it. it.now) obstacle) }
{
    let mut lines = FIRST_LINE.to_string(alloc)?;
    push_nodes(&mut lines, &plan.nodes, obstacle, certificate)?;
    for (from, node) in plan.nodes.iter().enumerate() {
        for to in 0..plan.nodes.len() {
            push_bundle(alloc, &mut lines, from, to, &node.rows)?;
        }
    }
    push_hops(alloc, &mut lines, obstacle)?;
    lines.push_str(LAST_LINE)?;
    Ok(lines)
}

/// Adds the arrow from a node to another, where rows of the first name it.
fn push_bundle(
    alloc: Global,
    lines: &mut String,
    from: usize,
    to: usize,
    rows: &[Row],
) -> Result<(), AllocError> {
    let spans = spans_text(alloc, rows, to)?;
    if spans.is_empty() {
        return Ok(());
    }
    write!(lines, "    node_{from} -> node_{to} [label=\"{spans}\"];\n")
}

/// What the rows that name a node cover, each in a line of its own within a label.
fn spans_text(alloc: Global, rows: &[Row], node: usize) -> Result<String, AllocError> {
    let mut text = String::new(alloc);
    for row in rows {
        if row.next == node {
            let span = span_text(alloc, row.first.value, row.size)?;
            write!(text, "{span}\\l")?;
        }
    }
    Ok(text)
}
