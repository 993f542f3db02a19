//! The certificate of a folder, and whether it fits the plan.
ghost use Rattle.std.specs.Prelude.{◌≡◌, IfOk, IfErr};
ghost use Rattle.verify_commands.{specs.Folders.{IsPlanHeld, IsUnjudged}, specs.Parts.{IsBeside, IsFitOf, IsJudgedBy, IsMadeBeside, IsSure}};
ghost use Rattle.verify_commands.specs.declared.parts.Part.TheVariants as part;
ghost use Rattle.verify_commands.specs.declared.parts.Verdict.TheVariants as verdict;

use crate::folder::{FolderFiles, FolderText, held_text};
use crate::parts::{Judged, Part};
use crate::unjudged::{Unjudged, unread};
use command_answers::accepted;
use net_check::{CertifyError, CheckError, Checked, certify, check};
use net_plan::certificate_of_text;
use plan_texts::{fault_line, obstacle_line};
use plan_values::{Certificate, Plan};
use std::alloc::{AllocError, Global};

/// The certificate beside a plan.
#[derive(Drop)]
pub enum Beside {
    /// The folder has it.
    Held(Certificate),
    /// The folder has none, and this is the plan's own.
    Made(Certificate),
    /// The folder has none, nor has the plan: this rules certificates out.
    RuledOut(CertifyError),
}

/// The certificate beside the plan of a folder.
pub fn certificate_beside<F: FolderFiles>(
    alloc: Global,
    folder: &F,
    plan: &Plan,
) -> Result<Beside, Unjudged>
    requires { IsPlanHeld (F.reads folder.now) plan.now }
    ensures beside { IfOk result (λ beside. IsBeside (F.reads folder.now) plan.now beside) }
    ensures unread { IfErr result (IsUnjudged (F.reads folder.now) (F.lists folder.now)) }
{
    match held_text(alloc, folder, FolderText::Certificate)? {
        Some(text) => match certificate_of_text(alloc, plan, &text) {
            Ok(certificate) => Ok(Beside::Held(certificate)),
            Err(cause) => Err(unread(alloc, FolderText::Certificate, cause)),
        },
        None => Ok(made_beside(alloc, plan)?),
    }
}

/// The plan's own certificate, or what rules certificates out.
fn made_beside(alloc: Global, plan: &Plan) -> Result<Beside, AllocError>
    ensures { IfOk result (IsMadeBeside plan.now) }
{
    match certify(alloc, plan) {
        Ok(certificate) => Ok(Beside::Made(certificate)),
        Err(CertifyError::OutOfMemory) => Err(AllocError),
        Err(obstacle) => Ok(Beside::RuledOut(obstacle)),
    }
}

/// Whether the certificate beside a plan fits it.
#[derive(Drop)]
pub enum Fit<'a> {
    Fits(Checked<'a>),
    Unfit {
        /// The line of the fault, or of what rules certificates out.
        line: String,
        /// Whether the folder has the certificate.
        is_held: bool,
    },
}

/// Whether the certificate beside a plan fits it.
pub fn fit_of<'a>(alloc: Global, plan: &'a Plan, beside: &'a Beside) -> Result<Fit<'a>, AllocError>
    requires { IsSure plan.now beside.now }
    ensures { IfOk result (λ fit. IsFitOf plan.now beside.now fit) }
{
    match beside {
        Beside::Held(certificate) => match check(alloc, plan, certificate) {
            Ok(checked) => Ok(Fit::Fits(checked)),
            Err(CheckError::Fault(fault)) => Ok(Fit::Unfit {
                line: fault_line(alloc, plan, &fault)?,
                is_held: true,
            }),
            Err(CheckError::OutOfMemory) => Err(AllocError),
        },
        Beside::Made(certificate) => Ok(Fit::Fits(accepted(alloc, plan, certificate)?)),
        Beside::RuledOut(obstacle) => Ok(Fit::Unfit {
            line: obstacle_line(alloc, plan, obstacle)?,
            is_held: false,
        }),
    }
}

/// Whether a certificate fits the plan.
pub fn judge_fit(alloc: Global, fit: &Fit) -> Result<Judged, AllocError>
    ensures part { IfOk result (λ judged. judged.part ≡ part.Check) }
    ensures verdict { IfOk result (λ judged. IsJudgedBy fit.now (λ plan cert judged. judged ≡ verdict.Holds) judged.verdict) }
{
    match fit {
        Fit::Fits(_) => Ok(Judged::holds(alloc, Part::Check)),
        Fit::Unfit { line, .. } => Judged::fails(alloc, Part::Check, line),
    }
}

/// A part that needs a certificate that fits, where none does.
pub fn skipped(alloc: Global, part: Part, is_held: bool) -> Result<Judged, AllocError>
    ensures part { IfOk result (λ judged. judged.part ≡ part) }
    ensures verdict { IfOk result (λ judged. judged.verdict ≡ verdict.Fails) }
{
    let why = if is_held {
        "skipped: the certificate doesn't fit the plan"
    } else {
        "skipped: the plan has no certificate"
    };
    Judged::fails(alloc, part, why)
}
