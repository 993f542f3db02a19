//! Edits of a plan, one after the other.
ghost use Rattle.std.specs.Prelude.{IfOk, IfSome, Some};
ghost use Rattle.plan_fixes.specs.Fixes.{IsAsEdited, IsFixed, IsLeftOf, IsMadeBy, IsTextOf, LeadsOn};

use crate::splicing::spliced;
use explanation_texts::edit_line;
use net_explained::{Edit, edited, tried_edits};
use net_plan::{PlanError, plan_of_text};
use net_rules::{CertifyError, certify};
use plan_values::{Plan, are_same_plans};
use std::alloc::{AllocError, Global};

/// How many edits are made at most.
const MOST_FIXES: usize = 1000;

/// A plan and its text, with the lines of the edits that led there.
#[derive(Drop)]
pub struct Draft {
    pub text: Vec<u8>,
    pub plan: Plan,
    pub lines: String,
}

/// Where edits of a plan led, and what then still rules certificates out, if anything does.
#[derive(Drop)]
pub struct Fixed {
    pub draft: Draft,
    pub left: Option<CertifyError>,
}

/// Makes the first edit that was tried of what comes first of what rules certificates of a plan out, and goes on with
/// what that leaves, until a certificate fits the plan, or no edit is left, or a thousand are made.
pub fn fix(alloc: Global, text: Vec<u8>, plan: Plan) -> Result<Fixed, AllocError>
    requires { IsTextOf text.items plan }
    ensures { IfOk result (IsFixed text.items plan) }
{
    let lines = String::new(alloc);
    let mut draft = Draft { text, plan, lines };
    for _ in 0..MOST_FIXES {
        match next_draft(alloc, &draft)? {
            Some(next) => draft = next,
            None => break,
        }
    }
    let left = left_of(alloc, &draft.plan)?;
    Ok(Fixed { draft, left })
}

/// What rules certificates of a plan out, if anything does.
fn left_of(alloc: Global, plan: &Plan) -> Result<Option<CertifyError>, AllocError>
    ensures { IfOk result (IsLeftOf plan.now) }
{
    match certify(alloc, plan) {
        Ok(_certificate) => Ok(None),
        Err(CertifyError::OutOfMemory) => Err(AllocError),
        Err(obstacle) => Ok(Some(obstacle)),
    }
}

/// The draft with one more edit. None where a certificate fits the plan, or where no edit is left.
fn next_draft(alloc: Global, draft: &Draft) -> Result<Option<Draft>, AllocError>
    requires { IsTextOf draft.now.text.items draft.now.plan }
    ensures { IfOk result (λ next. IfSome next (LeadsOn draft.now)) }
{
    match left_of(alloc, &draft.plan)? {
        Some(obstacle) => draft_without(alloc, draft, &obstacle),
        None => Ok(None),
    }
}

/// The draft with the first edit for what rules certificates out.
fn draft_without(
    alloc: Global,
    draft: &Draft,
    obstacle: &CertifyError,
) -> Result<Option<Draft>, AllocError>
    requires text { IsTextOf draft.now.text.items draft.now.plan }
    requires left { IsLeftOf draft.now.plan (Some obstacle.now) }
    ensures { IfOk result (λ next. IfSome next (LeadsOn draft.now)) }
{
    let edits = tried_edits(alloc, draft.text.as_slice(), &draft.plan, obstacle)?;
    for tried in &edits {
        if let Some(next) = draft_with(alloc, draft, &tried.edit)? {
            return Ok(Some(next));
        }
    }
    Ok(None)
}

/// The draft with an edit. None where its text, as it is changed, isn't that of the plan with just the edit's change.
fn draft_with(alloc: Global, draft: &Draft, edit: &Edit) -> Result<Option<Draft>, AllocError>
    requires { IsTextOf draft.now.text.items draft.now.plan }
    ensures { IfOk result (λ next. IfSome next (IsMadeBy draft.now edit.now)) }
{
    let Some(text) = spliced(alloc, draft.text.as_slice(), &draft.plan, edit)? else {
        return Ok(None);
    };
    let Some(plan) = plan_as_edited(alloc, draft.text.as_slice(), text.as_slice(), edit)? else {
        return Ok(None);
    };
    let mut lines = draft.lines.clone()?;
    lines.push_str(&edit_line(alloc, &draft.plan, edit)?)?;
    Ok(Some(Draft { text, plan, lines }))
}

/// The plan of a text, where that is the plan of the text before with just the edit's change.
fn plan_as_edited(
    alloc: Global,
    before: &[u8],
    after: &[u8],
    edit: &Edit,
) -> Result<Option<Plan>, AllocError>
    ensures { IfOk result (λ plan. IfSome plan (IsAsEdited before.now after.now edit.now)) }
{
    let Some(plan) = plan_in(alloc, after)? else {
        return Ok(None);
    };
    let Some(last) = plan_in(alloc, before)? else {
        return Ok(None);
    };
    match edited(alloc, last, edit)? {
        Some(wanted) if are_same_plans(&wanted, &plan) => Ok(Some(plan)),
        _ => Ok(None),
    }
}

/// The plan of a text, if it is that of one.
fn plan_in(alloc: Global, text: &[u8]) -> Result<Option<Plan>, AllocError>
    ensures { IfOk result (λ plan. IfSome plan (IsTextOf text.now)) }
{
    match plan_of_text(alloc, text) {
        Ok(plan) => Ok(Some(plan)),
        Err(PlanError::OutOfMemory) => Err(AllocError),
        Err(_) => Ok(None),
    }
}
