//! The rows by which packets go while nodes move from one plan to another: of a loop, and where a way ends.
ghost use Rattle.std.specs.Prelude.{◌≡◌, ◌+◌, IfOk, MatchBool, length, string_bytes};
ghost use Rattle.explanation_texts.specs.Explanations.{row_for};
ghost use Rattle.net_rules.{specs.Certificates.{HasNoCertificate}, specs.Rules.{Accepts}};
ghost use Rattle.plan_values.specs.declared.certificate.Certificate.{Certificate};
ghost use Rattle.explain_commands.specs.MoveRows.{AreHopsTold, IsHopTold, IsMixedLoopTold, IsRowTold, IsWayOnTold, file_of};

use super::place_of;
use command_answers::PlanText;
use explanation_texts::index_for;
use fault_texts::{part_pointer, way_pointer};
use mctp_transport::Eid;
use net_check::{CertifyError, MixedLoop, MoveFault, Side, certify};
use net_tables::lookup::{node_name, row_at};
use plan_texts::number_text;
use plan_values::Plan;
use std::alloc::{AllocError, Global};

// ---- a loop

/// Explains a loop along rows of both plans: each hop by its row, why there are no ranks, and what helps.
pub fn loop_text(
    alloc: Global,
    name: &str,
    new_name: &str,
    before: &PlanText,
    after: &PlanText,
    found: &MixedLoop,
) -> Result<String, AllocError>
    requires { length found.now.nodes.items ≡ length found.now.sides.items + 1 }
    ensures { IfOk result (λ text. IsMixedLoopTold (file_of name.now before.now) (file_of new_name.now after.now) found.now (string_bytes text)) }
{
    let (eid, nodes, sides) = (found.eid, &found.nodes, &found.sides);
    let hops = hops_text(alloc, name, new_name, before, after, eid, nodes, sides)?;
    let why = circling_text(alloc, name, new_name, after, eid)?;
    format!(in alloc; "{hops}{why}")
}

/// The row of each hop.
fn hops_text(
    alloc: Global,
    name: &str,
    new_name: &str,
    before: &PlanText,
    after: &PlanText,
    eid: Eid,
    nodes: &[usize],
    sides: &[Side],
) -> Result<String, AllocError>
    requires { length nodes.now ≡ length sides.now + 1 }
    ensures { IfOk result (λ text. AreHopsTold (file_of name.now before.now) (file_of new_name.now after.now) eid.value nodes.now sides.now (length sides.now) (string_bytes text)) }
{
    let mut text = String::new(alloc);
    for hop in 0..sides.len() {
        let node = nodes[hop];
        let side = sides[hop];
        let line = hop_line(alloc, name, new_name, before, after, eid, node, side)?;
        text.push_str(&line)?;
    }
    Ok(text)
}

/// The first row that a node has for the endpoint ID in the plan of a side.
fn hop_line(
    alloc: Global,
    name: &str,
    new_name: &str,
    before: &PlanText,
    after: &PlanText,
    eid: Eid,
    node: usize,
    side: Side,
) -> Result<String, AllocError>
    ensures { IfOk result (λ line. IsHopTold (file_of name.now before.now) (file_of new_name.now after.now) eid.value node side (string_bytes line)) }
{
    match side {
        Side::Old => first_row(alloc, side, name, before, eid, node),
        Side::New => first_row(alloc, side, new_name, after, eid, node),
    }
}

/// The first row that a node of a plan has for the endpoint ID.
fn first_row(
    alloc: Global,
    side: Side,
    name: &str,
    given: &PlanText,
    eid: Eid,
    node: usize,
) -> Result<String, AllocError>
    ensures { IfOk result (λ line. IsRowTold (file_of name.now given.now) node (row_for given.now.plan eid.value node).index (string_bytes line)) }
{
    row_text(
        alloc,
        side,
        name,
        given,
        node,
        index_for(&given.plan, eid, node),
    )
}

/// Why a loop leaves no ranks, and what helps.
fn circling_text(
    alloc: Global,
    name: &str,
    new_name: &str,
    after: &PlanText,
    eid: Eid,
) -> Result<String, AllocError> {
    let eid = eid.value;
    let remedy = remedy_text(alloc, name, new_name, after)?;
    format!(in alloc;
        "While the nodes of new rows have switched and those of old rows have not, what is for\nendpoint ID {eid} circles. The ranks of a certificate would have to fall all the way round.\n{remedy}"
    )
}

// ---- a row

/// Where a row stands, and what it says.
fn row_text(
    alloc: Global,
    side: Side,
    name: &str,
    given: &PlanText,
    node: usize,
    index: Option<usize>,
) -> Result<String, AllocError>
    ensures { IfOk result (λ text. IsRowTold (file_of name.now given.now) node index (string_bytes text)) }
{
    let pointer = way_pointer(alloc, node, index)?;
    let place = place_of(alloc, name, given, &pointer)?;
    let line = row_line(alloc, side, &given.plan, node, index)?;
    format!(in alloc; "{place}{line}")
}

/// Whose row it is, and what it says.
fn row_line(
    alloc: Global,
    side: Side,
    plan: &Plan,
    node: usize,
    index: Option<usize>,
) -> Result<String, AllocError> {
    let table = table_word(side);
    let number = number_text(alloc, index)?;
    let owner = node_name(plan, node);
    match index.and_then(|index| row_at(plan, node, index)) {
        Some(row) => {
            let (first, size, port) = (row.first.value, row.size, row.port);
            let next = node_name(plan, row.next);
            format!(in alloc;
                "{table} row {number} of {owner}: first {first} size {size} via {next} port {port}\n"
            )
        }
        None => format!(in alloc; "{table} row {number} of {owner}: -\n"),
    }
}

/// The word of a side, at the beginning of a line.
fn table_word(side: Side) -> &'static str {
    match side {
        Side::Old => "Old",
        Side::New => "New",
    }
}

// ---- a way that ends

/// Explains a fault of M02: the row, what its next node lacks, what the rule asks, and what helps.
pub fn way_on_text(
    alloc: Global,
    name: &str,
    new_name: &str,
    before: &PlanText,
    after: &PlanText,
    side: Side,
    fault: &MoveFault,
) -> Result<String, AllocError>
    ensures { IfOk result (λ text. IsWayOnTold (file_of name.now before.now) (file_of new_name.now after.now) side fault.now (string_bytes text)) }
{
    let row = fault_row(alloc, name, new_name, before, after, side, fault)?;
    let why = stopped_text(alloc, name, new_name, before, after, side, fault)?;
    format!(in alloc; "{row}{why}")
}

/// The row of a fault, in the plan of a side.
fn fault_row(
    alloc: Global,
    name: &str,
    new_name: &str,
    before: &PlanText,
    after: &PlanText,
    side: Side,
    fault: &MoveFault,
) -> Result<String, AllocError>
    ensures { IfOk result (λ text. IsWayOnTold (file_of name.now before.now) (file_of new_name.now after.now) side fault.now (string_bytes text)) }
{
    match side {
        Side::Old => row_text(alloc, side, name, before, fault.node, fault.entry),
        Side::New => row_text(alloc, side, new_name, after, fault.node, fault.entry),
    }
}

/// What the next node lacks, what the rule asks of it, and what helps.
fn stopped_text(
    alloc: Global,
    name: &str,
    new_name: &str,
    before: &PlanText,
    after: &PlanText,
    side: Side,
    fault: &MoveFault,
) -> Result<String, AllocError> {
    let lack = match side {
        Side::Old => lack_text(alloc, &before.plan, Side::New, new_name, after, fault)?,
        Side::New => lack_text(alloc, &after.plan, Side::Old, name, before, fault)?,
    };
    let remedy = remedy_text(alloc, name, new_name, after)?;
    format!(in alloc;
        "{lack}The next node has to hold the endpoint ID, or to be a bridge with a row for it in both plans.\nOtherwise a packet stops there while some nodes have switched and others have not.\n{remedy}"
    )
}

/// Where the rows of the next node stand in the other plan, and that none of them is for the endpoint ID, where this is
/// so.
fn lack_text(
    alloc: Global,
    plan: &Plan,
    side: Side,
    name: &str,
    other: &PlanText,
    fault: &MoveFault,
) -> Result<String, AllocError> {
    let row = fault
        .entry
        .and_then(|index| row_at(plan, fault.node, index));
    let (Some(row), Some(eid)) = (row, fault.eid) else {
        return Ok(String::new(alloc));
    };
    if index_for(&other.plan, eid, row.next).is_some() {
        return Ok(String::new(alloc));
    }
    let pointer = part_pointer(alloc, row.next, "rows")?;
    let place = place_of(alloc, name, other, &pointer)?;
    let table = table_word(side);
    let owner = node_name(&other.plan, row.next);
    let eid = eid.value;
    format!(in alloc; "{place}{table} rows of {owner}: none is for endpoint ID {eid}.\n")
}

// ---- what helps

/// Whether the new plan has a certificate by itself, and what helps then.
fn remedy_text(
    alloc: Global,
    name: &str,
    new_name: &str,
    after: &PlanText,
) -> Result<String, AllocError> {
    if has_certificate(alloc, &after.plan)? {
        format!(in alloc;
            "By itself the new plan has a certificate.\nHint: look for several moves that lead there: mctpplan rollout {name} {new_name}\n"
        )
    } else {
        format!(in alloc;
            "By itself the new plan has no certificate.\nHint: mend it first: mctpplan explain {new_name}\n"
        )
    }
}

/// Whether a certificate fits the plan.
fn has_certificate(alloc: Global, plan: &Plan) -> Result<bool, AllocError>
    ensures { IfOk result (λ has. MatchBool has ((certificate : Certificate) × Accepts plan.now certificate) (HasNoCertificate plan.now)) }
{
    match certify(alloc, plan) {
        Ok(_certificate) => Ok(true),
        Err(CertifyError::OutOfMemory) => Err(AllocError),
        Err(_) => Ok(false),
    }
}
