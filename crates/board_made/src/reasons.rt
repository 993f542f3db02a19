//! The lines that say why a board can't be read, or why no plan is made of it.
ghost use Rattle.std.specs.Prelude.{◌≡◌, ◌++◌, IfOk, codes, string_bytes};
ghost use Rattle.toml.specs.View.{view};
ghost use Rattle.net_rules.specs.Certificates.{NamesObstacle};
ghost use Rattle.board_made.{specs.Made.{IsUnreadLine}, specs.Reasons.{IsReason, IsUnfound, IsWayLine, TellsObstacle}};

use board::{Board, NoPlan, RecordFile};
use board_kept::Unfit;
use board_values::{lacking_words, lacks, node_text as told_node};
use explanation_texts::obstacle_lines;
use net_check::CertifyError;
use plan_texts::obstacle_line;
use plan_values::Plan;
use std::alloc::{AllocError, Global};
use toml::Value;

/// Says why a board can't be read, and where.
pub fn place_line(
    alloc: Global,
    line: usize,
    column: usize,
    reason: &str,
) -> Result<String, AllocError>
    ensures { IfOk result (λ line. IsUnreadLine (string_bytes line)) }
{
    unread_line(
        alloc,
        &format!(in alloc; "line {line}, column {column}: {reason}")?,
    )
}

/// Says why a board can't be read.
pub fn unread_line(alloc: Global, reason: &str) -> Result<String, AllocError>
    ensures { IfOk result (λ line. IsUnreadLine (string_bytes line)) }
{
    format!(in alloc; "unreadable board: {reason}\n")
}

/// Says why no plan is made: there is no such thing.
fn named_reason(alloc: Global, lacking: &str) -> Result<String, AllocError>
    ensures { IfOk result (λ reason. string_bytes reason ≡ codes "no plan: no " ++ (lacking.now ++ codes "\n")) }
{
    format!(in alloc; "no plan: no {lacking}\n")
}

/// Says that no plan was found, and what was lacking.
pub fn unfound(alloc: Global, lacking: &str) -> Result<String, AllocError>
    ensures { IfOk result (λ reason. IsUnfound (string_bytes reason)) }
{
    format!(in alloc; "no plan: none was found: no {lacking}\n")
}

/// Says that the plan that was made lacks something.
pub fn lacking(alloc: Global) -> Result<String, AllocError>
    ensures { IfOk result (λ reason. IsUnfound (string_bytes reason)) }
{
    unfound(alloc, "plan that was made has all that is given")
}

/// A node by its name and the line of its table, where there is the text of a board.
fn node_text(
    alloc: Global,
    text: Option<&str>,
    name: &str,
    node: usize,
) -> Result<String, AllocError> {
    match text {
        Some(text) => {
            let line = board::line_of_node(text, node);
            format!(in alloc; "node \"{name}\" (line {line})")
        }
        None => format!(in alloc; "node \"{name}\""),
    }
}

fn node_of_plan(
    alloc: Global,
    text: Option<&str>,
    plan: &Plan,
    node: usize,
) -> Result<String, AllocError> {
    match plan.nodes.get(node) {
        Some(own) => node_text(alloc, text, own.name.text.as_str(), node),
        None => node_text(alloc, text, "", node),
    }
}

/// Why no plan is made of a board. `given` is what was read of it.
pub fn no_plan_line(
    alloc: Global,
    text: &str,
    files: &[RecordFile],
    board: &Value,
    given: &Board,
    why: NoPlan,
) -> Result<String, AllocError>
    ensures { IfOk result (λ reason. IsReason files.now (view board.now) (string_bytes reason)) }
{
    let words = lacking_words(alloc, board, text, why)?;
    if lacks(alloc, board, given, why)? {
        return named_reason(alloc, &words);
    }
    unfound(alloc, &words)
}

/// Why no rows are made.
pub fn no_rows_line(alloc: Global, plan: &Plan, why: NoPlan) -> Result<String, AllocError>
    ensures { IfOk result (λ reason. IsUnfound (string_bytes reason)) }
{
    match why {
        NoPlan::TooManyRows { node } => {
            let node = node_of_plan(alloc, None, plan, node)?;
            unfound(
                alloc,
                &format!(in alloc;
                    "room is left for the rows of {node}: it would have more than 256"
                )?,
            )
        }
        NoPlan::OutOfMemory => Err(AllocError),
        _ => unfound(alloc, "plan with rows was made"),
    }
}

/// Says that no way leads from a node of a board to another. That it is so is not promised here.
pub fn way_line(
    alloc: Global,
    text: &str,
    board: &Value,
    from: usize,
    to: usize,
) -> Result<String, AllocError>
    ensures { IfOk result (λ line. IsWayLine (string_bytes line)) }
{
    let one = told_node(alloc, board, text, from)?;
    let other = told_node(alloc, board, text, to)?;
    way_reason(alloc, &one, &other)
}

/// The same of a plan.
pub fn way_line_of(alloc: Global, plan: &Plan, from: usize, to: usize) -> Result<String, AllocError>
    ensures { IfOk result (λ line. IsWayLine (string_bytes line)) }
{
    let one = node_of_plan(alloc, None, plan, from)?;
    let other = node_of_plan(alloc, None, plan, to)?;
    way_reason(alloc, &one, &other)
}

fn way_reason(alloc: Global, one: &str, other: &str) -> Result<String, AllocError>
    ensures { IfOk result (λ line. IsWayLine (string_bytes line)) }
{
    format!(in alloc;
        "no plan: no way over buses, bridges and given rows leads from {one} to {other}\n"
    )
}

/// What rules certificates of the made plan out, with the node's line of the board, if there is one, and the
/// explanation.
pub fn obstacle_reason(
    alloc: Global,
    text: Option<&str>,
    plan: &Plan,
    obstacle: &CertifyError,
) -> Result<String, AllocError>
    requires { NamesObstacle plan.now obstacle.now }
    ensures { IfOk result (λ reason. TellsObstacle plan.now obstacle.now (string_bytes reason)) }
{
    let line = obstacle_line(alloc, plan, obstacle)?;
    let place = place_text(alloc, text, plan, obstacle)?;
    let told = obstacle_lines(alloc, plan, obstacle)?;
    format!(in alloc; "no plan: {line}{place}{told}")
}

/// The line of the board for the node of which an obstacle tells; nothing where there is no board.
fn place_text(
    alloc: Global,
    text: Option<&str>,
    plan: &Plan,
    obstacle: &CertifyError,
) -> Result<String, AllocError> {
    if text.is_none() {
        return Ok(String::new(alloc));
    }
    let node = match obstacle {
        CertifyError::Fault(fault) => fault.node,
        CertifyError::BadChain(node, ..) => *node,
        CertifyError::OwnerLoop(nodes) => nodes.first().copied().unwrap_or(0),
        CertifyError::Loop(_, nodes) => nodes.first().copied().unwrap_or(0),
        CertifyError::OutOfMemory => return Err(AllocError),
    };
    let node = node_of_plan(alloc, text, plan, node)?;
    format!(in alloc; "{node}\n")
}

/// Why a plan that was made is not fit.
pub fn unfit_line(
    alloc: Global,
    text: Option<&str>,
    plan: &Plan,
    unfit: Unfit,
) -> Result<String, AllocError>
    ensures { IfOk result (λ reason. IsUnfound (string_bytes reason)) }
{
    unfound(alloc, &unfit_text(alloc, text, plan, unfit)?)
}

fn unfit_text(
    alloc: Global,
    text: Option<&str>,
    plan: &Plan,
    unfit: Unfit,
) -> Result<String, AllocError> {
    match unfit {
        Unfit::NotKept => "plan that was made has all that is given".to_string(alloc),
        Unfit::Unreached { from, to } => {
            let from = node_of_plan(alloc, text, plan, from)?;
            let to = node_of_plan(alloc, text, plan, to)?;
            format!(in alloc; "packet of {from} comes to {to} by the rows that were found")
        }
        Unfit::OutOfMemory => Err(AllocError),
    }
}
