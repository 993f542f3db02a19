//! The files of one step.
ghost use Rattle.std.specs.Prelude.{◌≡◌, IfOk, codes, map, string_bytes};
ghost use Rattle.net_rollout.specs.Steps.{IsCertified};
ghost use Rattle.step_files.specs.StepFiles.{AreFilesOfStep, IsCertificateFile, IsMoveFile, IsPlanFile, file_value, step_path};

use crate::paths::step_path;
use board::text_of_plan;
use net_plan::{PlanError, plan_of_text, text_of_certificate};
use net_rules::{CertifyError, certify};
use plan_values::{Certificate, Plan, are_same_plans};
use std::alloc::{AllocError, AllocFailed, Global};

/// A text, and the path of the file that it is for.
#[derive(Debug, Drop)]
pub struct TextFile {
    pub path: String,
    pub text: String,
}

/// Why there are no files.
#[derive(Clone, Copy, Debug, PartialEq, Eq)]
pub enum Unmade {
    /// A text that was made doesn't read as the plan that it was made of.
    OtherPlan,
    /// The plan after a step has no certificate by itself.
    NoCertificate,
    /// There is too little memory.
    OutOfMemory,
}

impl From<AllocError> for Unmade {
    fn from(_error: AllocError) -> Unmade {
        Unmade::OutOfMemory
    }
}

impl<T: Drop> From<AllocFailed<T>> for Unmade {
    fn from(_error: AllocFailed<T>) -> Unmade {
        Unmade::OutOfMemory
    }
}

/// The files of one of so many steps, which are counted from 1: the plan after it, the plan's certificate, and the
/// certificate of the move to it.
pub fn files_of_step(
    alloc: Global,
    folder: &str,
    count: usize,
    number: usize,
    before: &Plan,
    after: &Plan,
    movement: &Certificate,
) -> Result<Vec<TextFile>, Unmade>
    requires { IsCertified before.now after.now movement.now }
    ensures { IfOk result (λ files. AreFilesOfStep folder.now count number before.now after.now movement.now (map file_value files.items)) }
{
    let plan = plan_file(alloc, folder, count, number, after)?;
    let certificate = certificate_file(alloc, folder, count, number, after)?;
    let moving = move_file(alloc, folder, count, number, before, after, movement)?;
    Ok(Vec::from_array(alloc, [plan, certificate, moving])?)
}

fn plan_file(
    alloc: Global,
    folder: &str,
    count: usize,
    number: usize,
    after: &Plan,
) -> Result<TextFile, Unmade>
    ensures path { IfOk result (λ file. string_bytes file.path ≡ step_path folder.now count number (codes ".json")) }
    ensures text { IfOk result (λ file. IsPlanFile after.now (string_bytes file.text)) }
{
    let text = judged_text(alloc, after)?;
    let path = step_path(alloc, folder, count, number, ".json")?;
    Ok(TextFile { path, text })
}

fn certificate_file(
    alloc: Global,
    folder: &str,
    count: usize,
    number: usize,
    after: &Plan,
) -> Result<TextFile, Unmade>
    ensures path { IfOk result (λ file. string_bytes file.path ≡ step_path folder.now count number (codes ".cert.json")) }
    ensures text { IfOk result (λ file. IsCertificateFile after.now (string_bytes file.text)) }
{
    let text = certificate_of(alloc, after)?;
    let path = step_path(alloc, folder, count, number, ".cert.json")?;
    Ok(TextFile { path, text })
}

fn move_file(
    alloc: Global,
    folder: &str,
    count: usize,
    number: usize,
    before: &Plan,
    after: &Plan,
    movement: &Certificate,
) -> Result<TextFile, Unmade>
    requires { IsCertified before.now after.now movement.now }
    ensures path { IfOk result (λ file. string_bytes file.path ≡ step_path folder.now count number (codes ".move.json")) }
    ensures text { IfOk result (λ file. IsMoveFile before.now after.now movement.now (string_bytes file.text)) }
{
    let text = text_of_move(alloc, before, after, movement)?;
    let path = step_path(alloc, folder, count, number, ".move.json")?;
    Ok(TextFile { path, text })
}

/// The text that is made of a plan, where it reads as just this plan.
fn judged_text(alloc: Global, plan: &Plan) -> Result<String, Unmade>
    ensures { IfOk result (λ text. IsPlanFile plan.now (string_bytes text)) }
{
    let text = text_of_plan(alloc, plan)?;
    let read = read_back(alloc, text.as_str().as_bytes())?;
    if are_same_plans(&read, plan) {
        Ok(text)
    } else {
        Err(Unmade::OtherPlan)
    }
}

/// The plan that a text reads as.
fn read_back(alloc: Global, text: &[u8]) -> Result<Plan, Unmade>
    ensures { IfOk result (λ read. IsPlanFile read text.now) }
{
    match plan_of_text(alloc, text) {
        Ok(read) => Ok(read),
        Err(PlanError::OutOfMemory) => Err(Unmade::OutOfMemory),
        Err(_) => Err(Unmade::OtherPlan),
    }
}

/// The text of a plan's certificate.
fn certificate_of(alloc: Global, plan: &Plan) -> Result<String, Unmade>
    ensures { IfOk result (λ text. IsCertificateFile plan.now (string_bytes text)) }
{
    match certify(alloc, plan) {
        Ok(certificate) => Ok(text_of_certificate(alloc, plan, &certificate)?),
        Err(CertifyError::OutOfMemory) => Err(Unmade::OutOfMemory),
        Err(_) => Err(Unmade::NoCertificate),
    }
}

/// The text of the certificate of a move.
fn text_of_move(
    alloc: Global,
    before: &Plan,
    after: &Plan,
    movement: &Certificate,
) -> Result<String, AllocError>
    requires { IsCertified before.now after.now movement.now }
    ensures { IfOk result (λ text. IsMoveFile before.now after.now movement.now (string_bytes text)) }
{
    text_of_certificate(alloc, before, movement)
}
