//! The table of who reaches whom, in how many hops.
ghost use Rattle.std.specs.Prelude.{IfOk};
ghost use Rattle.report_commands.specs.Reporting.{AreHopsFrom};

use net_check::Checked;
use net_reached::hops_between;
use plan_pages::{escaped, node_name, push_listed};
use plan_values::Plan;
use std::alloc::{AllocError, Global};

/// Which nodes don't reach all others, and the table.
pub fn reached_text(alloc: Global, checked: &Checked) -> Result<String, AllocError> {
    let plan = checked.plan();
    let mut short = String::new(alloc);
    let mut rows = String::new(alloc);
    for node in 0..plan.nodes.len() {
        let hops = hops_from(alloc, checked, node)?;
        if hops.iter().any(|found| found.is_none()) {
            push_listed(&mut short, node_name(plan, node))?;
        }
        push_row(alloc, plan, node, &hops, &mut rows)?;
    }
    let words = reached_words(alloc, &short)?;
    let headings = headings_of(alloc, plan)?;
    format!(in alloc;
        "{words}<div class=\"wide tall\">\n<table class=\"matrix\">\n<thead><tr>{headings}</tr></thead>\n<tbody>\n{rows}</tbody>\n</table>\n</div>\n"
    )
}

/// How many hops a packet of a node makes to each node, in the plan's order; none where it doesn't arrive.
fn hops_from(
    alloc: Global,
    checked: &Checked,
    from: usize,
) -> Result<Vec<Option<usize>>, AllocError>
    ensures { IfOk result (λ hops. AreHopsFrom checked.now.0 from hops.items) }
{
    let mut hops = Vec::new(alloc);
    for to in 0..checked.plan().nodes.len() {
        hops.push(hops_between(alloc, checked, from, to)?)?;
    }
    Ok(hops)
}

/// The sentence above the table.
fn reached_words(alloc: Global, short: &str) -> Result<String, AllocError> {
    if short.is_empty() {
        return "<p>Each node reaches each other node.</p>\n".to_string(alloc);
    }
    let names = escaped(alloc, short)?;
    format!(in alloc; "<p>These nodes don't reach all others: {names}.</p>\n")
}

/// The numbers of the nodes, which tell their names to a mouse.
fn headings_of(alloc: Global, plan: &Plan) -> Result<String, AllocError> {
    let mut cells = "<th scope=\"col\">From</th>".to_string(alloc)?;
    for node in 0..plan.nodes.len() {
        let name = escaped(alloc, node_name(plan, node))?;
        let number = node.saturating_add(1);
        write!(cells, "<th scope=\"col\" title=\"{name}\">{number}</th>")?;
    }
    cells.push_str("<th scope=\"col\">Reaches</th>")?;
    Ok(cells)
}

/// Adds the row of a node: a cell for each node, and how many others it reaches.
fn push_row(
    alloc: Global,
    plan: &Plan,
    node: usize,
    hops: &[Option<usize>],
    rows: &mut String,
) -> Result<(), AllocError> {
    let name = escaped(alloc, node_name(plan, node))?;
    let number = node.saturating_add(1);
    write!(rows, "<tr><th scope=\"row\">{number} {name}</th>")?;
    let mut count: usize = 0;
    for (to, found) in hops.iter().enumerate() {
        if to == node {
            rows.push_str("<td class=\"same\">.</td>")?;
        } else if let Some(hops) = found {
            count = count.saturating_add(1);
            write!(rows, "<td>{hops}</td>")?;
        } else {
            rows.push_str("<td class=\"none\">-</td>")?;
        }
    }
    write!(rows, "<td class=\"sum\">{count}</td></tr>\n")
}
