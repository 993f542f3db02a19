//! The lines that tell why two plans and a certificate are not accepted as a move, and why a move has no certificate.
ghost use Rattle.std.specs.Prelude.{◌≡◌, Some, IfOk, string_bytes};
ghost use Rattle.plan_texts.specs.MoveLines.{difference_text, move_fault_text, move_error_text, move_obstacle_text, old_obstacle_text, old_loop_text, mixed_loop_text, sides_text, side_word};

pub mod steps;

use super::{OrDash, names_after_spaces, obstacle_line};
use crate::lookups::name_or_none;
use mctp_transport::Eid;
use net_rules::{CertifyError, MoveError, MoveFault, MoveObstacle, Side, fault_of_plan};
use net_tables::lookup::node_name;
use plan_values::Plan;
use std::alloc::{AllocError, Global};

/// The line that says why a move from one plan to another is not accepted, with the nodes' names in the plan before.
/// Out of memory is an error, and has no such line.
pub fn move_error_line(
    alloc: Global,
    before: &Plan,
    error: &MoveError,
) -> Result<String, AllocError>
    ensures { IfOk result (λ line. move_error_text before.now error.now ≡ Some (string_bytes line)) }
{
    match error {
        MoveError::Differ(node) => difference_line(alloc, before, *node),
        MoveError::Old(fault) => move_fault_line(alloc, before, "old ", fault),
        MoveError::New(fault) => move_fault_line(alloc, before, "new ", fault),
        MoveError::Both(fault) => move_fault_line(alloc, before, "", fault),
        MoveError::OutOfMemory => Err(AllocError),
    }
}

/// The line that says why a move from one plan to another has no certificate, with the nodes' names in the plan before.
/// Out of memory is an error, and has no such line.
pub fn move_obstacle_line(
    alloc: Global,
    before: &Plan,
    obstacle: &MoveObstacle,
) -> Result<String, AllocError>
    ensures { IfOk result (λ line. move_obstacle_text before.now obstacle.now ≡ Some (string_bytes line)) }
{
    match obstacle {
        MoveObstacle::Old(error) => old_obstacle_line(alloc, before, error),
        MoveObstacle::Fault(error) => move_error_line(alloc, before, error),
        MoveObstacle::Loop(found) => {
            mixed_loop_line(alloc, before, found.eid, &found.nodes, &found.sides)
        }
        MoveObstacle::OutOfMemory => Err(AllocError),
    }
}

/// The line that says why the plan before has no certificate by itself.
fn old_obstacle_line(
    alloc: Global,
    before: &Plan,
    error: &CertifyError,
) -> Result<String, AllocError>
    ensures { IfOk result (λ line. old_obstacle_text before.now error.now ≡ Some (string_bytes line)) }
{
    match error {
        CertifyError::Fault(fault) => {
            move_fault_line(alloc, before, "old ", &fault_of_plan(*fault))
        }
        CertifyError::Loop(eid, nodes) => old_loop_line(alloc, before, *eid, nodes),
        CertifyError::OwnerLoop(_) | CertifyError::BadChain(..) => {
            obstacle_line(alloc, before, error)
        }
        CertifyError::OutOfMemory => Err(AllocError),
    }
}

/// The line of a loop along rows of the plan before alone.
fn old_loop_line(
    alloc: Global,
    before: &Plan,
    eid: Eid,
    nodes: &[usize],
) -> Result<String, AllocError>
    ensures { IfOk result (λ line. string_bytes line ≡ old_loop_text before.now eid.value nodes.now) }
{
    let sides = vec![in alloc; Side::Old; nodes.len().saturating_sub(1)]?;
    mixed_loop_line(alloc, before, eid, nodes, &sides)
}

/// The line of a loop along rows of both plans: its nodes, and the plan of each row.
fn mixed_loop_line(
    alloc: Global,
    before: &Plan,
    eid: Eid,
    nodes: &[usize],
    sides: &[Side],
) -> Result<String, AllocError>
    ensures { IfOk result (λ line. string_bytes line ≡ mixed_loop_text before.now eid.value nodes.now sides.now) }
{
    let eid = eid.value;
    let names = names_after_spaces(alloc, before, nodes)?;
    let words = sides_after_spaces(alloc, sides)?;
    format!(in alloc; "loop eid {eid} nodes{names} by{words}\n")
}

/// The word of each plan, after a space.
fn sides_after_spaces(alloc: Global, sides: &[Side]) -> Result<String, AllocError>
    ensures { IfOk result (λ words. string_bytes words ≡ sides_text sides.now) }
{
    let mut words = String::new(alloc);
    for &side in sides {
        words.push_str(" ")?;
        words.push_str(side_word(side))?;
    }
    Ok(words)
}

/// The word of a plan.
fn side_word(side: Side) -> &'static str
    ensures { result.now ≡ side_word side }
{
    match side {
        Side::Old => "old",
        Side::New => "new",
    }
}

fn difference_line(alloc: Global, before: &Plan, node: Option<usize>) -> Result<String, AllocError>
    ensures { IfOk result (λ line. string_bytes line ≡ difference_text before.now node) }
{
    let name = name_or_none(before, node);
    format!(in alloc; "fault M01 node {name} entry - eid -\n")
}

/// The line of a fault; `whose` is a word for one of the plans and a space, or empty where the rule is of both.
fn move_fault_line(
    alloc: Global,
    before: &Plan,
    whose: &str,
    fault: &MoveFault,
) -> Result<String, AllocError>
    ensures { IfOk result (λ line. string_bytes line ≡ move_fault_text before.now whose.now fault.now) }
{
    let rule = fault.rule.code();
    let name = node_name(before, fault.node);
    let entry = OrDash(fault.entry);
    let eid = OrDash(fault.eid.map(|eid| eid.value));
    format!(in alloc; "fault {whose}{rule} node {name} entry {entry} eid {eid}\n")
}
