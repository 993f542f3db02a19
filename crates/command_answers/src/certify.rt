//! The command `certify`: the certificate of a plan, or why there is none, and how many faults are there beside.
ghost use Rattle.std.{specs.Prelude.{◌≡◌, IfOk}, specs.Cow.{cow_str_bytes}};
ghost use Rattle.command_answers.specs.Certifying.{Certifies, others_of};
ghost use Rattle.net_rules.specs.Rules.{Accepts};

use crate::answer::Answer;
use net_check::{CertifyError, CheckError, Checked, certify, check};
use net_plan::text_of_certificate;
use plan_texts::obstacle_line;
use plan_values::{Certificate, Plan};
use std::alloc::{AllocError, Global};

/// The certificate of a plan, or the line of what rules certificates of it out.
pub fn certificate_of_plan(alloc: Global, plan: &Plan) -> Result<Answer, AllocError>
    ensures { IfOk result (λ answer. Certifies plan.now answer.status (cow_str_bytes answer.text)) }
{
    match certify(alloc, plan) {
        Ok(certificate) => Ok(Answer::found(text_of_certificate(alloc, plan, &certificate)?)),
        Err(obstacle) => Ok(Answer::fault(obstacle_line(alloc, plan, &obstacle)?)),
    }
}

/// A plan and a certificate that is accepted: so nothing but memory can be wanting.
pub fn accepted<'a>(
    alloc: Global,
    plan: &'a Plan,
    certificate: &'a Certificate,
) -> Result<Checked<'a>, AllocError>
    requires { Accepts plan.now certificate.now }
    ensures { IfOk result (λ checked. checked ≡ (plan.now, certificate.now)) }
{
    match check(alloc, plan, certificate) {
        Ok(checked) => Ok(checked),
        Err(CheckError::OutOfMemory) => Err(AllocError),
        Err(CheckError::Fault(_)) => unreachable!(),
    }
}

/// How many of so many lines of faults are there beside what is told.
pub fn others_of(obstacle: &CertifyError, count: usize) -> usize
    ensures { result ≡ others_of obstacle.now count }
{
    match obstacle {
        CertifyError::Fault(_) => count.saturating_sub(1),
        CertifyError::OwnerLoop(_)
        | CertifyError::Loop(_, _)
        | CertifyError::BadChain(..)
        | CertifyError::OutOfMemory => count,
    }
}
