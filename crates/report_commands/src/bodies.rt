//! The pages of plans, by their verdicts.
ghost use Rattle.std.specs.Prelude.{IfOk, codes, string_bytes};
ghost use Rattle.plan_pages.specs.Pages.{TellsVerdict};

use crate::matrix::reached_text;
use crate::promises::{LINKS, LINKS_OF_REFUSED, NOT_ACCEPTED, PROMISES};
use net_check::Checked;
use net_questions::lint;
use plan_pages::{
    block, bus_table, node_table, page_of, picture_of, pool_table, push_section, row_table,
    terminus_list,
};
use plan_values::{Certificate, Plan};
use question_texts::lint_lines;
use std::alloc::{AllocError, Global};

/// The page of a checked plan.
pub fn accepted_page(
    alloc: Global,
    name: &str,
    verdict: &str,
    checked: &Checked,
) -> Result<String, AllocError>
    ensures { IfOk result (λ page. TellsVerdict (codes "yes") verdict.now (string_bytes page)) }
{
    let plan = checked.plan();
    let mut body = summary(alloc, plan, LINKS)?;
    push_plan(alloc, plan, Some(checked.certificate()), &[], &mut body)?;
    let reached = reached_text(alloc, checked)?;
    push_section(&mut body, "reached", "Who reaches whom", &reached)?;
    push_findings(alloc, plan, &mut body)?;
    body.push_str(PROMISES)?;
    page_of(alloc, name, "yes", verdict, &body)
}

/// The page of a plan that is not accepted, with the levels and places of the certificate that it was judged with, if
/// it was judged with one. The nodes that are marked stand out in the picture.
pub fn refused_page(
    alloc: Global,
    name: &str,
    verdict: &str,
    plan: &Plan,
    certificate: Option<&Certificate>,
    marked: &[usize],
) -> Result<String, AllocError>
    ensures { IfOk result (λ page. TellsVerdict (codes "no") verdict.now (string_bytes page)) }
{
    let mut body = summary(alloc, plan, LINKS_OF_REFUSED)?;
    push_plan(alloc, plan, certificate, marked, &mut body)?;
    push_findings(alloc, plan, &mut body)?;
    body.push_str(NOT_ACCEPTED)?;
    page_of(alloc, name, "no", verdict, &body)
}

/// How many things a plan has, and links.
fn summary(alloc: Global, plan: &Plan, links: &str) -> Result<String, AllocError> {
    let buses = plan.buses.len();
    let nodes = plan.nodes.len();
    let unit = plan.unit;
    format!(in alloc;
        "<p class=\"note\">Buses: {buses}. Nodes: {nodes}. Transmission unit: {unit} bytes.</p>\n{links}"
    )
}

/// Adds the picture of a plan, where the nodes that are marked stand out, and its tables.
fn push_plan(
    alloc: Global,
    plan: &Plan,
    certificate: Option<&Certificate>,
    marked: &[usize],
    body: &mut String,
) -> Result<(), AllocError> {
    let picture = picture_shown(alloc, plan, marked)?;
    push_section(body, "network", "The network", &picture)?;
    push_section(body, "buses", "Buses", &bus_table(alloc, plan)?)?;
    let nodes = node_table(alloc, plan, certificate)?;
    push_section(body, "nodes", "Nodes", &nodes)?;
    let pools = pool_table(alloc, plan)?;
    push_section(body, "pools", "Pools of endpoint IDs", &pools)?;
    let rows = row_table(alloc, plan)?;
    push_section(body, "rows", "Rows of routing tables", &rows)?;
    let termini = terminus_list(alloc, plan, certificate)?;
    push_section(body, "termini", "PLDM termini", &termini)
}

/// The picture, which may be wider than the page, and what its signs mean.
fn picture_shown(alloc: Global, plan: &Plan, marked: &[usize]) -> Result<String, AllocError> {
    let picture = picture_of(alloc, plan, marked)?;
    format!(in alloc;
        "<div class=\"wide\">\n{picture}</div>\n<p class=\"note\">A square is a bridge, a ring an endpoint. \
        Behind the name stands the endpoint ID. A dot is a port on the bus of its line, \
        with the physical address beside it where there is room.</p>\n"
    )
}

/// Adds what is lawful in a plan and still looks wrong: the lines that `lint` prints.
fn push_findings(alloc: Global, plan: &Plan, body: &mut String) -> Result<(), AllocError> {
    let findings = lint(alloc, plan)?;
    let lines = if findings.is_empty() {
        "clean\n".to_string(alloc)?
    } else {
        lint_lines(alloc, plan, &findings)?
    };
    let inside = block(alloc, &lines)?;
    push_section(body, "findings", "What looks wrong", &inside)
}
