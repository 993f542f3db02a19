//! The command `verify`: whether all that a folder has of a network fits together.
ghost use Rattle.std.specs.Prelude.{◌≡◌, ◌⊎◌, IfOk, IfErr};
ghost use Rattle.net_plan.specs.Stream.{HasRoom};
ghost use Rattle.command_answers.{specs.declared.status.Status.TheVariants.{Yes, Fault}, specs.Answers.{stream}};
ghost use Rattle.verify_commands.{specs.Folders.{CantBeRead, IsPlanTextHeld, IsUnjudged}, specs.Verifying.{EndsVerifying, IsReport, Judges}};

use crate::boards::add_board;
use crate::fit::{certificate_beside, fit_of, judge_fit};
use crate::folder::{FolderFiles, FolderText, needed_text};
use crate::parts::{Judged, add};
use crate::plans::{judge_faults, judge_lint};
use crate::report::{failed_count, report_of};
use crate::runs::add_runs;
use crate::unjudged::{Unjudged, unread};
use crate::wanted::add_wanted;
use command_answers::{Answer, PlanText, Refused, Status, refuse, tell_made};
use command_questions::RecordFiles;
use net_plan::{Sink, plan_of_text, write_whole};
use std::alloc::{AllocError, Global};

/// What is asked of a folder.
#[derive(Clone, Copy)]
pub struct Verification<'a> {
    /// The path of the folder, which stands before the place of a fault.
    pub folder: &'a str,
    /// Whether what looks wrong counts.
    pub is_strict: bool,
}

/// Judges each part of a folder, and tells on `output` which hold: the plan is made of the board, a certificate fits it,
/// nothing rules certificates out, nothing looks wrong, the nodes reach whom they are to reach, and what comes of the
/// events of each run are its lines. Where a text can't be read, `errors` says which, and nothing is told.
pub fn run_verify<F: FolderFiles + RecordFiles, O: Sink, E: Sink>(
    alloc: Global,
    asked: &Verification<'_>,
    folder: &F,
    output: &mut O,
    errors: &mut E,
) -> Status
    requires output { HasRoom (O.account output.old) }
    requires errors { HasRoom (E.account errors.old) }
    ensures tells { EndsVerifying (Judges (F.reads folder.now) (F.lists folder.now) (F.holds folder.now) asked.now.is_strict)
        (CantBeRead (F.reads folder.now) (F.lists folder.now)) (output.new ≡ output.old) result (stream O.account output.old output.new) }
    ensures silent { (result ≡ Yes) ⊎ (result ≡ Fault) → errors.new ≡ errors.old }
{
    match judge_folder(alloc, asked, folder) {
        Ok(told) => tell_made(alloc, answer_of(alloc, &told), output, errors),
        Err(Unjudged::Unread(lines)) => {
            // Where standard error fails as well, only the status is left to tell it.
            let _ = write_whole(errors, lines.as_bytes());
            Status::Unreadable
        }
        Err(Unjudged::NoMemory) => refuse(alloc, Refused::NoMemory, errors),
    }
}

/// What is told of parts that were judged.
fn answer_of(alloc: Global, told: &[Judged]) -> Result<Answer, AllocError>
    ensures { IfOk result (IsReport told.now) }
{
    let failed = failed_count(told);
    let text = report_of(alloc, told, failed)?;
    if failed == 0 {
        Ok(Answer::found(text))
    } else {
        Ok(Answer::fault(text))
    }
}

/// Each part of a folder, judged.
fn judge_folder<F: FolderFiles + RecordFiles>(
    alloc: Global,
    asked: &Verification<'_>,
    folder: &F,
) -> Result<Vec<Judged>, Unjudged>
    ensures judges { IfOk result (λ told. Judges (F.reads folder.now) (F.lists folder.now) (F.holds folder.now) asked.now.is_strict told.items) }
    ensures unread { IfErr result (IsUnjudged (F.reads folder.now) (F.lists folder.now)) }
{
    let given = read_plan(alloc, folder)?;
    let beside = certificate_beside(alloc, folder, &given.plan)?;
    let fit = fit_of(alloc, &given.plan, &beside)?;
    let mut told = Vec::new(alloc);
    add_board(alloc, folder, &given, &mut told)?;
    add(judge_fit(alloc, &fit)?, &mut told)?;
    let name = plan_name(alloc, asked.folder)?;
    add(judge_faults(alloc, &name, &given)?, &mut told)?;
    add(judge_lint(alloc, asked.is_strict, &given.plan)?, &mut told)?;
    add_wanted(alloc, folder, &given.plan, &fit, &mut told)?;
    add_runs(alloc, folder, &given.plan, &fit, &mut told)?;
    Ok(told)
}

/// The plan of a folder, with its text.
fn read_plan<F: FolderFiles>(alloc: Global, folder: &F) -> Result<PlanText, Unjudged>
    ensures held { IfOk result (λ given. IsPlanTextHeld (F.reads folder.now) given.text.items given.plan) }
    ensures unread { IfErr result (IsUnjudged (F.reads folder.now) (F.lists folder.now)) }
{
    let text = needed_text(alloc, folder, FolderText::Plan)?;
    match plan_of_text(alloc, &text) {
        Ok(plan) => Ok(PlanText { text, plan }),
        Err(cause) => Err(unread(alloc, FolderText::Plan, cause)),
    }
}

/// What the plan of a folder is called before the place of a fault.
fn plan_name(alloc: Global, folder: &str) -> Result<String, AllocError> {
    let slash = if folder.ends_with('/') { "" } else { "/" };
    format!(in alloc; "{folder}{slash}plan.json")
}
