//! Edits that are tried before they are proposed.
ghost use Rattle.std.{specs.Prelude.{◌≡◌, ◌⊎◌, ◌≤◌, IfOk, IfSome, length}, specs.List.{All}};
ghost use Rattle.net_plan.{specs.PlanText.{IsPlanOf}, specs.Texts.{IsJsonTextOf}};
ghost use Rattle.plan_values.specs.PlanValues.{plan_value};
ghost use Rattle.net_explained.specs.Obstacles.{AreAlike, IsTried};

use crate::candidates::candidates;
use crate::edit::{Edit, edited};
use crate::order::is_later;
use net_plan::{PlanError, plan_of_text};
use net_rules::{CertifyError, certify};
use plan_values::Plan;
use std::alloc::{AllocError, Global};

/// How many edits are proposed at most.
const MOST_EDITS: usize = 3;

/// An edit that was tried, and what still rules certificates out once it is made, if anything does.
#[derive(Debug, Drop)]
pub struct Tried {
    pub edit: Edit,
    pub left: Option<CertifyError>,
}

/// At most three edits of the plan of a text that take the obstacle away, each of them tried. Where some leave a plan
/// that has a certificate, only such are told.
pub fn tried_edits(
    alloc: Global,
    text: &[u8],
    plan: &Plan,
    obstacle: &CertifyError,
) -> Result<Vec<Tried>, AllocError>
    requires { IsJsonTextOf IsPlanOf text.now (plan_value plan.now) }
    ensures all { IfOk result (λ tried. All (IsTried (plan_value plan.now) obstacle.now) tried.items) }
    ensures few { IfOk result (λ tried. length tried.items ≤ 3) }
    ensures alike { IfOk result (λ tried. AreAlike tried.items) }
{
    let mut whole = Vec::new(alloc);
    let mut partial = Vec::new(alloc);
    for edit in candidates(alloc, plan, obstacle)? {
        if whole.len() >= MOST_EDITS {
            return Ok(whole);
        }
        if let Some(tried) = try_edit(alloc, text, plan, obstacle, edit)? {
            if tried.left.is_none() {
                whole.push(tried)?;
            } else if partial.len() < MOST_EDITS {
                partial.push(tried)?;
            }
        }
    }
    Ok(best_of(whole, partial))
}

/// The edits that leave a plan with a certificate, where there are some, and otherwise the others.
fn best_of(whole: Vec<Tried>, partial: Vec<Tried>) -> Vec<Tried>
    ensures { (result.items ≡ whole.items) ⊎ ((length whole.items ≡ 0) × (result.items ≡ partial.items)) }
{
    if whole.is_empty() { partial } else { whole }
}

/// Makes an edit in the plan of a text, and sees what rules certificates out then: nothing, or an obstacle that comes
/// later than the one before. None of any other edit.
fn try_edit(
    alloc: Global,
    text: &[u8],
    plan: &Plan,
    obstacle: &CertifyError,
    edit: Edit,
) -> Result<Option<Tried>, AllocError>
    requires { IsJsonTextOf IsPlanOf text.now (plan_value plan.now) }
    ensures { IfOk result (λ tried. IfSome tried (IsTried (plan_value plan.now) obstacle.now)) }
{
    let before = match plan_of_text(alloc, text) {
        Ok(before) => before,
        Err(PlanError::OutOfMemory) => return Err(AllocError),
        Err(_) => return Ok(None),
    };
    let Some(after) = edited(alloc, before, &edit)? else {
        return Ok(None);
    };
    match certify(alloc, &after) {
        Ok(_certificate) => Ok(Some(Tried { edit, left: None })),
        Err(CertifyError::OutOfMemory) => Err(AllocError),
        Err(next) if is_later(obstacle, &next) => Ok(Some(Tried {
            edit,
            left: Some(next),
        })),
        Err(_) => Ok(None),
    }
}
