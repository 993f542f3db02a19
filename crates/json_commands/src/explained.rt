//! `explain`: what `certify` or `check` answers, and why.
ghost use Rattle.std.specs.Prelude.{◌≡◌, IfOk, codes};
ghost use Rattle.net_rules.specs.Certificates.{NamesObstacle, RulesOutCertificates};
ghost use Rattle.serde_json.specs.View.{view};
ghost use Rattle.command_answers.specs.UnreadInputs.{IsTextOf};
ghost use Rattle.command_questions.specs.declared.form.Form.TheVariants.{Json};
ghost use Rattle.json_commands.{specs.Answers.{IsAnswer}, specs.Explained.{AreEditsTold, IsCertificateTold, IsExplained, IsExplainedSaid, IsFaultExplained, IsObstacleExplained, IsSound, IsToldWithEdits}, specs.Values.{Has}};
ghost use Rattle.command_answers.specs.declared.status.Status.TheVariants as status;

use crate::edits::edits_value;
use crate::faults::obstacle_results;
use crate::lists::empty_list;
use crate::notes::lines_value;
use crate::said::Said;
use command_answers::{PlanText, Status};
use command_questions::Form;
use explanation_texts::{
    NO_CERTIFICATE, REMEDY, cause_lines, certificate_fault_lines, obstacle_lines, summary_lines,
};
use net_check::{CertifyError, Fault, certify};
use net_explained::{find_cause, most_hops, tried_edits};
use net_faults::all_faults;
use plan_values::{Certificate, Plan};
use serde_json::{Value, json};
use std::alloc::{AllocError, Global};

/// What `certify` answers of a plan, and why. The name is that of the plan's file.
pub fn explained_plan(alloc: Global, name: &str, given: &PlanText) -> Result<Said, AllocError>
    requires { IsTextOf given.now.text.items given.now.plan }
    ensures { IfOk result (λ said. IsExplainedSaid name.now given.now.text.items given.now.plan said.status (view said.value)) }
{
    match certify(alloc, &given.plan) {
        Ok(certificate) => Ok(sound_said(alloc, &given.plan, &certificate)?),
        Err(obstacle) => Ok(obstacle_told(alloc, name, given, obstacle)?),
    }
}

/// That a certificate fits a plan, with what sums the plan up.
pub fn sound_said(alloc: Global, plan: &Plan, certificate: &Certificate) -> Result<Said, AllocError>
    ensures { IfOk result (λ said. (said.status ≡ status.Yes) × IsSound (view said.value)) }
{
    let lines = summary_lines(alloc, plan, most_hops(plan, certificate))?;
    let (results, edits, plan) = (empty_list(alloc), empty_list(alloc), Value::Null);
    Ok(said_of(alloc, Status::Yes, results, &lines, edits, 0, plan)?)
}

/// What is told, by its parts. Where the certificate alone is at fault, the last one is what explains the plan; else
/// null.
fn said_of(
    alloc: Global,
    status: Status,
    results: Value,
    lines: &str,
    edits: Value,
    more: usize,
    plan: Value,
) -> Result<Said, AllocError>
    ensures { IfOk result (λ said. (said.status ≡ status) × IsExplained status (view results) (view edits) (view said.value) × Has (codes "plan") (view plan) (view said.value)) }
{
    let sentences = lines_value(alloc, lines)?;
    let value = explained_value(alloc, status, results, sentences, edits, more, plan)?;
    Ok(Said { status, value })
}

fn explained_value(
    alloc: Global,
    status: Status,
    results: Value,
    sentences: Value,
    edits: Value,
    more: usize,
    plan: Value,
) -> Result<Value, AllocError>
    ensures answer { IfOk result (λ value. IsAnswer Json status (view results) (view value)) }
    ensures edits { IfOk result (λ value. Has (codes "edits") (view edits) (view value)) }
    ensures plan { IfOk result (λ value. Has (codes "plan") (view plan) (view value)) }
{
    json!(in alloc; {
        "command": "explain", "edits": edits, "format": 1u8, "more": more, "plan": plan, "results": results,
        "sentences": sentences, "status": status.number()
    })
}

/// What explains an obstacle of a plan.
fn obstacle_told(
    alloc: Global,
    name: &str,
    given: &PlanText,
    obstacle: CertifyError,
) -> Result<Said, AllocError>
    requires names { NamesObstacle given.now.plan obstacle }
    requires none { RulesOutCertificates given.now.plan obstacle }
    requires text { IsTextOf given.now.text.items given.now.plan }
    ensures { IfOk result (λ said. (said.status ≡ status.Fault) × IsObstacleExplained name.now given.now.text.items given.now.plan (view said.value)) }
{
    let lines = obstacle_lines(alloc, &given.plan, &obstacle)?;
    Ok(told_with_edits(alloc, name, given, None, obstacle, &lines)?)
}

/// What explains an obstacle, by the lines that do, with edits that were tried.
fn told_with_edits(
    alloc: Global,
    name: &str,
    given: &PlanText,
    certificate: Option<&Certificate>,
    obstacle: CertifyError,
    lines: &str,
) -> Result<Said, AllocError>
    requires { IsTextOf given.now.text.items given.now.plan }
    ensures { IfOk result (λ said. (said.status ≡ status.Fault) × IsToldWithEdits name.now given.now.text.items given.now.plan obstacle (view said.value)) }
{
    let edits = edits_of(alloc, given, &obstacle)?;
    let results = obstacle_results(alloc, Form::Json, name, given, obstacle)?;
    let more = more_than(alloc, &given.plan, certificate)?;
    let plan = Value::Null;
    Ok(said_of(alloc, Status::Fault, results, lines, edits, more, plan)?)
}

/// At most three edits of a plan that take an obstacle away.
fn edits_of(alloc: Global, given: &PlanText, obstacle: &CertifyError) -> Result<Value, AllocError>
    requires { IsTextOf given.now.text.items given.now.plan }
    ensures { IfOk result (λ value. AreEditsTold given.now.plan obstacle.now (view value)) }
{
    let edits = tried_edits(alloc, given.text.as_slice(), &given.plan, obstacle)?;
    Ok(edits_value(alloc, &given.plan, edits.as_slice())?)
}

/// How many more faults `faults` lists of a plan, or of a plan and a certificate, than the one that is told.
fn more_than(
    alloc: Global,
    plan: &Plan,
    certificate: Option<&Certificate>,
) -> Result<usize, AllocError> {
    let faults = all_faults(alloc, plan, certificate)?;
    Ok(faults.len().saturating_sub(1))
}

/// Explains the first fault of a plan and a certificate: of the plan by its cause, or of the certificate where it has
/// none in the plan.
pub fn explained_fault(
    alloc: Global,
    name: &str,
    given: &PlanText,
    certificate: &Certificate,
    fault: &Fault,
) -> Result<Said, AllocError>
    requires { IsTextOf given.now.text.items given.now.plan }
    ensures { IfOk result (λ said. (said.status ≡ status.Fault) × IsFaultExplained name.now given.now.text.items given.now.plan fault.now (view said.value)) }
{
    let obstacle = CertifyError::Fault(*fault);
    match find_cause(&given.plan, fault) {
        Some(cause) => {
            let lines = cause_lines(alloc, &given.plan, fault, cause)?;
            Ok(told_with_edits(alloc, name, given, Some(certificate), obstacle, &lines)?)
        }
        None => {
            let lines = certificate_fault_lines(alloc, &given.plan, certificate, fault)?;
            Ok(certificate_told(alloc, name, given, certificate, obstacle, &lines)?)
        }
    }
}

/// A fault of the certificate, by the lines that tell it, and what explains the plan by itself.
fn certificate_told(
    alloc: Global,
    name: &str,
    given: &PlanText,
    certificate: &Certificate,
    obstacle: CertifyError,
    told: &str,
) -> Result<Said, AllocError>
    requires { IsTextOf given.now.text.items given.now.plan }
    ensures { IfOk result (λ said. (said.status ≡ status.Fault) × IsCertificateTold name.now given.now.text.items given.now.plan obstacle (view said.value)) }
{
    let alone = explained_plan(alloc, name, given)?;
    let remedy = remedy_of(alone.status);
    let lines = format!(in alloc; "{told}{remedy}")?;
    let results = obstacle_results(alloc, Form::Json, name, given, obstacle)?;
    let more = more_than(alloc, &given.plan, Some(certificate))?;
    let (edits, plan) = (empty_list(alloc), alone.value);
    Ok(said_of(alloc, Status::Fault, results, &lines, edits, more, plan)?)
}

/// What is said where a certificate is at fault, and the run on its plan alone ends so.
fn remedy_of(alone: Status) -> &'static str {
    match alone {
        Status::Yes => REMEDY,
        Status::Fault | Status::Unreadable | Status::NoMemory => NO_CERTIFICATE,
    }
}
