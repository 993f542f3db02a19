//! Commands that read a plan and its certificate, and answer in JSON.
ghost use Rattle.std.{specs.Prelude.{◌≡◌, ◌≢◌, true, false, IfOk, IfErr}, specs.Cow.{cow_str_bytes}};
ghost use Rattle.serde_json.specs.View.{view};
ghost use Rattle.net_check.specs.Errors.{NamesFirstFault};
ghost use Rattle.net_plan.specs.Stream.{HasRoom};
ghost use Rattle.command_answers.{specs.Answers.{stream, IsWithoutPlan}, specs.Told.{ConcludesOnOutput}, specs.UnreadInputs.{IsTextOf}, specs.Naming.{NameTheEnds}};
ghost use Rattle.json_commands.specs.Certified.{AnswersInJson, AreBothSaid, AreCheckedSaid, AreSourcesSaid, IsFaultAlone, IsFaultSaid, IsFirstFaultSaid, IsNamedIn, IsWaySaid, form_of};
ghost use Rattle.command_answers.specs.declared.refused.Refused.TheVariants as refused;
ghost use Rattle.command_answers.specs.declared.status.Status.TheVariants as status;

use crate::explained::{explained_fault, sound_said};
use crate::faults::{faults_of_both, obstacle_results};
use crate::lists::empty_list;
use crate::reports::report;
use crate::said::{Said, answer_of};
use crate::unread::{unknown_name, unread_input};
use crate::ways::{reached, traced};
use command_answers::{
    Answer, Input, PlanText, Refused, Status, certificate_or_text, named_ends, plan_or_text, tell,
};
use command_questions::{CertifiedJson, Form};
use net_check::{CertifyError, CheckError, Checked, Fault, check};
use net_plan::{Sink, Source};
use plan_values::{Certificate, Plan};
use std::alloc::{AllocError, Global};

/// Answers in JSON what is asked of a plan and its certificate, on `output`: one value, in one line. Where a file can't
/// be read, or then where the plan has nothing that is named, the value tells so. Of two files that can't be read, the
/// plan is told and the certificate is not read. The names are those of the files. The run ends as that of the command
/// without JSON.
pub fn run_certified_json<P: Source, C: Source, O: Sink, E: Sink>(
    alloc: Global,
    asked: &CertifiedJson,
    name: &str,
    certified_by: &str,
    plan: &mut P,
    certificate: &mut C,
    output: &mut O,
    errors: &mut E,
) -> Status
    requires plan { HasRoom (P.account plan.old) }
    requires certificate { HasRoom (C.account certificate.old) }
    requires output { HasRoom (O.account output.old) }
    requires errors { HasRoom (E.account errors.old) }
    ensures concludes { let plans = stream P.account plan.old plan.new in
        let certificates = stream C.account certificate.old certificate.new in
        ConcludesOnOutput (AnswersInJson asked.now name.now certified_by.now plans certificates) result
        (stream O.account output.old output.new) (stream E.account errors.old errors.new)
        (output.new ≡ output.old) (errors.new ≡ errors.old) }
    ensures quiet { result ≢ status.NoMemory → (O.account output.new).failures ≡ (O.account output.old).failures → errors.new ≡ errors.old }
    ensures in_order { IsWithoutPlan (stream P.account plan.old plan.new) → certificate.new ≡ certificate.old }
{
    let answered = answer_certified(alloc, asked, name, certified_by, plan, certificate);
    tell(alloc, answered, output, errors)
}

fn answer_certified<P: Source, C: Source>(
    alloc: Global,
    asked: &CertifiedJson,
    name: &str,
    certified_by: &str,
    plan: &mut P,
    certificate: &mut C,
) -> Result<Answer, Refused>
    requires plan { HasRoom (P.account plan.old) }
    requires certificate { HasRoom (C.account certificate.old) }
    ensures answers { let plans = stream P.account plan.old plan.new in
        let certificates = stream C.account certificate.old certificate.new in
        IfOk result (λ answer. AnswersInJson asked.now name.now certified_by.now plans certificates answer.status (cow_str_bytes answer.text)) }
    ensures refused { IfErr result (λ why. why ≡ refused.NoMemory) }
    ensures in_order { IsWithoutPlan (stream P.account plan.old plan.new) → certificate.new ≡ certificate.old }
{
    let said = said_of_sources(alloc, asked, name, certified_by, plan, certificate)?;
    Ok(answer_of(alloc, &said)?)
}

/// What is said of the plan and the certificate that sources give, or where one gives nothing.
fn said_of_sources<P: Source, C: Source>(
    alloc: Global,
    asked: &CertifiedJson,
    name: &str,
    certified_by: &str,
    plan: &mut P,
    certificate: &mut C,
) -> Result<Said, AllocError>
    requires plan { HasRoom (P.account plan.old) }
    requires certificate { HasRoom (C.account certificate.old) }
    ensures says { let plans = stream P.account plan.old plan.new in
        let certificates = stream C.account certificate.old certificate.new in
        IfOk result (λ said. AreSourcesSaid asked.now name.now certified_by.now plans certificates said.status (view said.value)) }
    ensures in_order { IsWithoutPlan (stream P.account plan.old plan.new) → certificate.new ≡ certificate.old }
{
    let (form, command) = form_and_command(asked);
    match plan_or_text(alloc, plan) {
        Ok(given) => match certificate_or_text(alloc, &given.plan, certificate) {
            Ok(certificate) => Ok(said_of_both(alloc, asked, name, &given, &certificate)?),
            Err(unread) => {
                let input = Input::Certificate;
                Ok(unread_input(alloc, form, command, certified_by, input, &unread)?)
            }
        },
        Err(unread) => Ok(unread_input(alloc, form, command, name, Input::Plan, &unread)?),
    }
}

/// What is said of a plan and a certificate.
fn said_of_both(
    alloc: Global,
    asked: &CertifiedJson,
    name: &str,
    given: &PlanText,
    certificate: &Certificate,
) -> Result<Said, AllocError>
    requires { IsTextOf given.now.text.items given.now.plan }
    ensures { IfOk result (λ said. AreBothSaid asked.now name.now given.now.text.items given.now.plan certificate.now said.status (view said.value)) }
{
    if !is_named_in(asked, &given.plan) {
        let (form, command) = form_and_command(asked);
        return Ok(unknown_name(alloc, form, command, name)?);
    }
    match check(alloc, &given.plan, certificate) {
        Ok(checked) => Ok(said_of_checked(alloc, asked, name, given, &checked)?),
        Err(error) => Ok(said_of_error(alloc, asked, name, given, certificate, &error)?),
    }
}

/// What is said of a plan and a certificate that are not accepted.
fn said_of_error(
    alloc: Global,
    asked: &CertifiedJson,
    name: &str,
    given: &PlanText,
    certificate: &Certificate,
    error: &CheckError,
) -> Result<Said, AllocError>
    requires first { NamesFirstFault given.now.plan certificate.now error.now }
    requires text { IsTextOf given.now.text.items given.now.plan }
    ensures { IfOk result (λ said. (said.status ≡ status.Fault)
        × IsFirstFaultSaid asked.now name.now given.now.text.items given.now.plan certificate.now (view said.value)) }
{
    match error {
        CheckError::Fault(fault) => {
            Ok(said_of_fault(alloc, asked, name, given, certificate, fault)?)
        }
        CheckError::OutOfMemory => Err(AllocError),
    }
}

/// Whether a plan has what is named.
fn is_named_in(asked: &CertifiedJson, plan: &Plan) -> bool
    ensures yes { result ≡ true → IsNamedIn asked.now plan.now }
    ensures no { result ≡ false → ¬ IsNamedIn asked.now plan.now }
{
    match *asked {
        CertifiedJson::Explain | CertifiedJson::Faults(_) | CertifiedJson::Reach => true,
        CertifiedJson::Trace { from, to } => match named_ends(plan, from, to) {
            Some(_ends) => true,
            None => false,
        },
    }
}

/// What is said of a checked plan.
fn said_of_checked(
    alloc: Global,
    asked: &CertifiedJson,
    name: &str,
    given: &PlanText,
    checked: &Checked,
) -> Result<Said, AllocError>
    requires { IsNamedIn asked.now checked.now.0 }
    ensures { IfOk result (λ said. (said.status ≡ status.Yes) × AreCheckedSaid asked.now name.now given.now.text.items checked.now.0 checked.now.1 (view said.value)) }
{
    match *asked {
        CertifiedJson::Explain => { Ok(sound_said(alloc, checked.plan(), checked.certificate())?) }
        CertifiedJson::Faults(form) => {
            Ok(report(alloc, form, "faults", Status::Yes, empty_list(alloc))?)
        }
        CertifiedJson::Reach => Ok(reached(alloc, checked)?),
        CertifiedJson::Trace { from, to } => {
            Ok(way_between(alloc, name, given, checked, from, to)?)
        }
    }
}

/// The way from the node of a name to a destination: the name of a node, or else an endpoint ID, 8 to 254.
fn way_between(
    alloc: Global,
    name: &str,
    given: &PlanText,
    checked: &Checked,
    from: &str,
    to: &str,
) -> Result<Said, AllocError>
    requires { NameTheEnds from.now to.now checked.now.0 }
    ensures { IfOk result (λ said. (said.status ≡ status.Yes) × IsWaySaid name.now given.now.text.items from.now to.now checked.now.0 checked.now.1 (view said.value)) }
{
    match named_ends(checked.plan(), from, to) {
        Some((sender, destination)) => {
            Ok(traced(alloc, name, given, checked, sender, destination)?)
        }
        // no memory: both names were found before, so this can't be.
        None => Err(AllocError),
    }
}

/// What is said of the first fault of a plan and a certificate that are not accepted, or of all.
fn said_of_fault(
    alloc: Global,
    asked: &CertifiedJson,
    name: &str,
    given: &PlanText,
    certificate: &Certificate,
    fault: &Fault,
) -> Result<Said, AllocError>
    requires { IsTextOf given.now.text.items given.now.plan }
    ensures { IfOk result (λ said. (said.status ≡ status.Fault) × IsFaultSaid asked.now name.now given.now.text.items given.now.plan certificate.now fault.now (view said.value)) }
{
    match *asked {
        CertifiedJson::Explain => { Ok(explained_fault(alloc, name, given, certificate, fault)?) }
        CertifiedJson::Faults(form) => {
            Ok(faults_of_both(alloc, form, name, given, certificate)?)
        }
        CertifiedJson::Reach => Ok(first_fault(alloc, "reach", name, given, fault)?),
        CertifiedJson::Trace { .. } => Ok(first_fault(alloc, "trace", name, given, fault)?),
    }
}

/// The first fault alone.
fn first_fault(
    alloc: Global,
    command: &str,
    name: &str,
    given: &PlanText,
    fault: &Fault,
) -> Result<Said, AllocError>
    ensures { IfOk result (λ said. (said.status ≡ status.Fault) × IsFaultAlone name.now given.now.text.items given.now.plan fault.now (view said.value)) }
{
    let obstacle = CertifyError::Fault(*fault);
    let results = obstacle_results(alloc, Form::Json, name, given, obstacle)?;
    Ok(report(alloc, Form::Json, command, Status::Fault, results)?)
}

/// The form of the answer, and the command that asks.
fn form_and_command(asked: &CertifiedJson) -> (Form, &'static str)
    ensures { result.0 ≡ form_of asked.now }
{
    match *asked {
        CertifiedJson::Explain => (Form::Json, "explain"),
        CertifiedJson::Faults(form) => (form, "faults"),
        CertifiedJson::Reach => (Form::Json, "reach"),
        CertifiedJson::Trace { .. } => (Form::Json, "trace"),
    }
}
