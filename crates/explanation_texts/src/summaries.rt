//! What the command `explain` tells of a plan that a certificate fits.
ghost use Rattle.std.specs.Prelude.{◌≡◌, ◌≤◌, IfOk, length, string_bytes};
ghost use Rattle.explanation_texts.specs.SummaryLines.{record_count, rows_in_all, records_in_all, counts_line, hops_line, summary_text};

use net_explained::MostHops;
use net_tables::lookup::node_name;
use plan_values::{Node, Plan};
use std::alloc::{AllocError, Global};

/// How many nodes, buses, rows and records a plan has, and between which of its nodes its certificate allows most hops.
pub fn summary_lines(
    alloc: Global,
    plan: &Plan,
    most: Option<MostHops>,
) -> Result<String, AllocError>
    ensures { IfOk result (λ lines. string_bytes lines ≡ summary_text plan.now most) }
{
    let mut lines = counts_line(alloc, plan)?;
    lines.push_str(&hops_line(alloc, plan, most)?)?;
    Ok(lines)
}

fn counts_line(alloc: Global, plan: &Plan) -> Result<String, AllocError>
    ensures { IfOk result (λ line. string_bytes line ≡ counts_line plan.now) }
{
    let nodes = plan.nodes.len();
    let buses = plan.buses.len();
    let rows = rows_in_all(&plan.nodes);
    let records = records_in_all(&plan.nodes);
    format!(in alloc; "nodes {nodes} buses {buses} rows {rows} records {records}\n")
}

fn hops_line(alloc: Global, plan: &Plan, most: Option<MostHops>) -> Result<String, AllocError>
    ensures { IfOk result (λ line. string_bytes line ≡ hops_line plan.now most) }
{
    match most {
        Some(most) => {
            let hops = most.hops;
            let from = node_name(plan, most.from);
            let to = node_name(plan, most.to);
            format!(in alloc; "most hops {hops} from {from} to {to}\n")
        }
        None => "most hops 0\n".to_string(alloc),
    }
}

/// How many rows the nodes have together.
fn rows_in_all(nodes: &[Node]) -> usize
    requires { length nodes.now ≤ 64 }
    ensures { result ≡ rows_in_all nodes.now }
{
    let mut count = 0;
    for node in nodes {
        count += row_count(node);
    }
    count
}

fn row_count(node: &Node) -> usize
    ensures count { result ≡ length node.now.rows.items }
    ensures few { result ≤ 256 }
{
    node.rows.len()
}

/// How many records their termini have together.
fn records_in_all(nodes: &[Node]) -> usize
    requires { length nodes.now ≤ 64 }
    ensures { result ≡ records_in_all nodes.now }
{
    let mut count = 0;
    for node in nodes {
        count += record_count(node);
    }
    count
}

/// How many records a node's terminus has, if it has one.
fn record_count(node: &Node) -> usize
    ensures count { result ≡ record_count node.now }
    ensures few { result ≤ 4096 }
{
    match &node.terminus {
        Some(terminus) => terminus.records.len(),
        None => 0,
    }
}
