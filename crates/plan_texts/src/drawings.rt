//! What the command `draw` prints: a planned network in Graphviz' DOT language.
ghost use Rattle.std.specs.Prelude.{option_map};
ghost use Rattle.plan_texts.specs.Drawings.{IsFirstObstacle};

mod red;
mod rows;

use crate::lookups::address_text;
use net_rules::CertifyError;
use net_tables::lookup::{given_level_of, is_on_bus, kind_word, ranges_at};
use plan_values::{Bus, Certificate, Kind, Node, Plan, Port};
use red::{node_color, owner_color, red_hops};
pub use rows::{bundle_drawing, way_drawing};
use std::alloc::{AllocError, Global};

/// The first line of a drawing.
const FIRST_LINE: &str =
    "digraph plan { rankdir=LR; nodesep=0.08; node [fontsize=10, height=0.2, margin=0.04]; edge [fontsize=9];\n";

/// The last line of a drawing.
const LAST_LINE: &str = "}\n";

/// The drawing of a plan: a line for each bus, each node, each port and each node that has an owner. The obstacle is
/// what rules certificates of the plan out first; where it is a loop, its nodes and its arrows are red. Where there is a
/// certificate, its levels and ranks are tooltips.
pub fn drawing(
    alloc: Global,
    plan: &Plan,
    obstacle: Option<&CertifyError>,
    certificate: Option<&Certificate>,
) -> Result<String, AllocError>
    requires first { IsFirstObstacle plan.now (option_map (λ it. it.now) obstacle) }
{
    let mut lines = FIRST_LINE.to_string(alloc)?;
    push_buses(&mut lines, &plan.buses)?;
    push_nodes(&mut lines, &plan.nodes, obstacle, certificate)?;
    push_ports(alloc, &mut lines, plan)?;
    push_owners(&mut lines, &plan.nodes, obstacle)?;
    push_hops(alloc, &mut lines, obstacle)?;
    lines.push_str(LAST_LINE)?;
    Ok(lines)
}

/// Adds the line of each bus.
fn push_buses(lines: &mut String, buses: &[Bus]) -> Result<(), AllocError> {
    for (index, bus) in buses.iter().enumerate() {
        let name = bus.name.text.as_str();
        write!(
            lines,
            "    bus_{index} [shape=box, height=0.1, style=filled, label=\"{name}\"];\n"
        )?;
    }
    Ok(())
}

// ---- nodes

/// Adds the line of each node.
fn push_nodes(
    lines: &mut String,
    nodes: &[Node],
    obstacle: Option<&CertifyError>,
    certificate: Option<&Certificate>,
) -> Result<(), AllocError> {
    for (index, node) in nodes.iter().enumerate() {
        let shape = kind_shape(node.kind);
        let outlines = if node.terminus.is_some() { 2 } else { 1 };
        let color = node_color(obstacle, index);
        write!(
            lines,
            "    node_{index} [shape={shape}, peripheries={outlines}, color={color}, label=\""
        )?;
        push_label(lines, node)?;
        lines.push_str("\"")?;
        if let Some(certificate) = certificate {
            push_tooltip(lines, certificate, index)?;
        }
        lines.push_str("];\n")?;
    }
    Ok(())
}

fn kind_shape(kind: Kind) -> &'static str {
    match kind {
        Kind::Bridge => "octagon",
        Kind::Endpoint => "box, style=rounded",
    }
}

/// Adds a node's name, its kind and endpoint ID, its pool, and its terminus.
fn push_label(lines: &mut String, node: &Node) -> Result<(), AllocError> {
    let name = node.name.text.as_str();
    let kind = kind_word(node.kind);
    let eid = node.eid.value;
    write!(lines, "{name}\\n{kind} eid {eid}")?;
    if let Some(pool) = node.pool {
        let first = pool.first.value;
        let size = pool.size;
        write!(lines, "\\npool {first} size {size}")?;
    }
    if let Some(terminus) = &node.terminus {
        let tid = terminus.tid;
        let records = terminus.records.len();
        write!(lines, "\\ntid {tid} records {records}")?;
    }
    Ok(())
}

/// Adds what a certificate gives a node: its level and its ranks.
fn push_tooltip(
    lines: &mut String,
    certificate: &Certificate,
    node: usize,
) -> Result<(), AllocError> {
    let level = given_level_of(certificate, node);
    write!(lines, ", tooltip=\"level {level}")?;
    for range in ranges_at(certificate, node) {
        let first = range.first.value;
        let size = range.size;
        let rank = range.rank;
        write!(lines, "\\neid {first} size {size} rank {rank}")?;
    }
    lines.push_str("\"")
}

// ---- ports

/// Adds the line of each port of each node.
fn push_ports(alloc: Global, lines: &mut String, plan: &Plan) -> Result<(), AllocError> {
    for (index, node) in plan.nodes.iter().enumerate() {
        for (number, port) in node.ports.iter().enumerate() {
            let is_owners = node
                .owner
                .is_some_and(|owner| is_on_bus(plan, owner, port.bus));
            push_port(alloc, lines, index, number, port, is_owners)?;
        }
    }
    Ok(())
}

/// Adds the line of a port. A bus on which the node's owner has a port stands before the node, and any other behind it.
fn push_port(
    alloc: Global,
    lines: &mut String,
    node: usize,
    number: usize,
    port: &Port,
    is_owners: bool,
) -> Result<(), AllocError> {
    let bus = port.bus;
    if is_owners {
        write!(lines, "    bus_{bus} -> node_{node}")?;
    } else {
        write!(lines, "    node_{node} -> bus_{bus}")?;
    }
    let address = address_text(alloc, &port.address)?;
    write!(lines, " [dir=none, label=\"{number}: {address}\"];\n")
}

// ---- arrows

/// Adds the arrow to each node that has an owner.
fn push_owners(
    lines: &mut String,
    nodes: &[Node],
    obstacle: Option<&CertifyError>,
) -> Result<(), AllocError> {
    for (index, node) in nodes.iter().enumerate() {
        if let Some(owner) = node.owner {
            let color = owner_color(obstacle, index);
            write!(
                lines,
                "    node_{owner} -> node_{index} [style=dashed, weight=0, arrowsize=0.6, color={color}];\n"
            )?;
        }
    }
    Ok(())
}

/// Adds the arrow of each hop of a loop of rows.
fn push_hops(
    alloc: Global,
    lines: &mut String,
    obstacle: Option<&CertifyError>,
) -> Result<(), AllocError> {
    for hop in &red_hops(alloc, obstacle)? {
        let from = hop.from;
        let to = hop.to;
        let eid = hop.eid.value;
        write!(
            lines,
            "    node_{from} -> node_{to} [color=red, penwidth=3, label=\"eid {eid}\"];\n"
        )?;
    }
    Ok(())
}
