//! Whether the nodes of a plan reach whom they are to reach.
ghost use Rattle.std.specs.Prelude.{◌≡◌, ◌⊎◌, IfOk, IfErr, OnOk, All};
ghost use Rattle.net_reached.specs.Wishes.{IsMet};
ghost use Rattle.verify_commands.{specs.Folders.{HasNoWishes, IsPlanHeld, IsUnjudged}, specs.Parts.{AddsWanted, AreWished, FitsOrNot, HasUnmet, IsJudgedBy, IsWantedOf, Says}};
ghost use Rattle.verify_commands.specs.declared.parts.Part.TheVariants as part;
ghost use Rattle.verify_commands.specs.declared.unjudged.Unjudged.TheVariants as unjudged;

use crate::fit::{Fit, skipped};
use crate::folder::{FolderFiles, FolderText, held_text};
use crate::parts::{Judged, Part, add};
use crate::unjudged::{Unjudged, unread};
use net_check::Checked;
use net_plan::PlanError;
use net_reached::{BadLine, Wish, WishError, unmet_wishes, wish_lines, wishes_of_text};
use plan_values::Plan;
use std::alloc::{AllocError, Global};

/// Adds whether the nodes reach whom they are to reach, if the folder says whom.
pub fn add_wanted<F: FolderFiles>(
    alloc: Global,
    folder: &F,
    plan: &Plan,
    fit: &Fit,
    told: &mut Vec<Judged>,
) -> Result<(), Unjudged>
    requires plan { IsPlanHeld (F.reads folder.now) plan.now }
    requires fit { FitsOrNot (F.reads folder.now) plan.now fit.now }
    ensures added { OnOk result (AddsWanted (F.reads folder.now) plan.now told.old.items told.new.items) }
    ensures unread { IfErr result (IsUnjudged (F.reads folder.now) (F.lists folder.now)) }
{
    match held_text(alloc, folder, FolderText::Wanted)? {
        Some(wanted) => {
            let judged = judge_wanted(alloc, plan, fit, &wanted)?;
            Ok(add(judged, told)?)
        }
        None => Ok(()),
    }
}

/// Whether the wishes of a text are met.
fn judge_wanted(alloc: Global, plan: &Plan, fit: &Fit, wanted: &[u8]) -> Result<Judged, Unjudged>
    ensures part { IfOk result (λ judged. judged.part ≡ part.Require) }
    ensures verdict { IfOk result (λ judged. IsWantedOf plan.now fit.now wanted.now judged.verdict) }
    ensures unread { IfErr result (λ why. (why ≡ unjudged.NoMemory) ⊎ HasNoWishes plan.now wanted.now) }
{
    let Ok(text) = str::from_utf8(wanted) else {
        return Err(unread(alloc, FolderText::Wanted, PlanError::NotJson));
    };
    match wishes_of_text(alloc, plan, text) {
        Ok(wishes) => Ok(judge_wishes(alloc, fit, &wishes)?),
        Err(WishError::Unread(bad)) => Err(unread_wish(alloc, bad)),
        Err(WishError::OutOfMemory) => Err(Unjudged::NoMemory),
    }
}

/// Whether wishes are met.
fn judge_wishes(alloc: Global, fit: &Fit, wishes: &[Wish]) -> Result<Judged, AllocError>
    ensures part { IfOk result (λ judged. judged.part ≡ part.Require) }
    ensures verdict { IfOk result (λ judged. IsJudgedBy fit.now (AreWished wishes.now) judged.verdict) }
{
    match fit {
        Fit::Fits(checked) => judge_checked(alloc, checked, wishes),
        Fit::Unfit { is_held, .. } => skipped(alloc, Part::Require, *is_held),
    }
}

fn judge_checked(alloc: Global, checked: &Checked, wishes: &[Wish]) -> Result<Judged, AllocError>
    ensures part { IfOk result (λ judged. judged.part ≡ part.Require) }
    ensures verdict { IfOk result (λ judged. Says judged.verdict (All (IsMet checked.now.0) wishes.now) (HasUnmet checked.now.0 wishes.now) ⊥) }
{
    let unmet = unmet_wishes(alloc, checked, wishes)?;
    if unmet.is_empty() {
        return Ok(Judged::holds(alloc, Part::Require));
    }
    let lines = wish_lines(alloc, checked.plan(), &unmet)?;
    Judged::fails(alloc, Part::Require, &lines)
}

/// A line says no wish.
fn unread_wish(alloc: Global, bad: BadLine) -> Unjudged {
    let cause = if bad.is_name {
        PlanError::UnknownName
    } else {
        PlanError::OutOfRange
    };
    match unread(alloc, FolderText::Wanted, cause) {
        Unjudged::Unread(lines) => with_place(alloc, lines, bad),
        Unjudged::NoMemory => Unjudged::NoMemory,
    }
}

/// Lines, and one that tells the place.
fn with_place(alloc: Global, mut lines: String, bad: BadLine) -> Unjudged {
    match push_place(alloc, &mut lines, bad) {
        Ok(()) => Unjudged::Unread(lines),
        // no memory: there was no room for the line.
        Err(AllocError) => Unjudged::NoMemory,
    }
}

fn push_place(alloc: Global, lines: &mut String, bad: BadLine) -> Result<(), AllocError> {
    let (line, column) = (bad.line, bad.column);
    lines.push_str(&format!(in alloc; "line {line}, column {column}\n")?)
}
