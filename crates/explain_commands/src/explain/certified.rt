//! The command `explain` of a plan with its certificate: what `check` answers, and why.
ghost use Rattle.std.{specs.Prelude.{◌≡◌, ◌≢◌, IfOk, IfErr, string_bytes}, specs.Cow.{cow_str_bytes}};
ghost use Rattle.net_check.specs.Errors.{NamesFirstFault};
ghost use Rattle.net_rules.specs.Faults.{IsFirstFault, site_of};
ghost use Rattle.net_plan.specs.Stream.{HasRoom};
ghost use Rattle.command_answers.{specs.Answers.{stream, IsWithoutPlan}, specs.Told.{ConcludesOnOutput}, specs.UnreadInputs.{IsTextOf}};
ghost use Rattle.explain_commands.specs.Explaining.{IsCauseTold, IsFaultExplained, IsFaultTold, IsRemedyTold, IsCertificateTold, IsBothExplained, IsExplainedWith, ExplainsWithSo};
ghost use Rattle.command_answers.specs.declared.refused.Refused.TheVariants as refused;
ghost use Rattle.command_answers.specs.declared.status.Status.TheVariants as status;

use super::{edits_text, more_faults, obstacle_text, sound_text};
use command_answers::{
    Answer, Input, PlanText, Refused, Status, certificate_or_text, plan_or_text, tell,
    unread_answer,
};
use explanation_texts::{NO_CERTIFICATE, REMEDY, cause_lines, certificate_fault_lines};
use fault_texts::obstacle_place;
use net_check::{CertifyError, CheckError, Fault, certify, check};
use net_explained::{Cause, find_cause};
use net_plan::{Sink, Source};
use plan_texts::fault_line;
use plan_values::Certificate;
use std::alloc::{AllocError, Global};

/// Says on `output` what `check` says of a plan and its certificate, and explains it. Where a file can't be read, it
/// says so there too; of two such files, the plan is told and the certificate is not read. The names are those of the
/// files.
pub fn run_explain_certified<P: Source, C: Source, O: Sink, E: Sink>(
    alloc: Global,
    name: &str,
    certified_by: &str,
    plan: &mut P,
    certificate: &mut C,
    output: &mut O,
    errors: &mut E,
) -> Status
    requires plan { HasRoom (P.account plan.old) }
    requires certificate { HasRoom (C.account certificate.old) }
    requires output { HasRoom (O.account output.old) }
    requires errors { HasRoom (E.account errors.old) }
    ensures concludes { let plans = stream P.account plan.old plan.new in
        let certificates = stream C.account certificate.old certificate.new in
        ConcludesOnOutput (ExplainsWithSo name.now certified_by.now plans certificates) result
        (stream O.account output.old output.new) (stream E.account errors.old errors.new)
        (output.new ≡ output.old) (errors.new ≡ errors.old) }
    ensures quiet { result ≢ status.NoMemory → (O.account output.new).failures ≡ (O.account output.old).failures → errors.new ≡ errors.old }
    ensures in_order { let plans = stream P.account plan.old plan.new in
        IsWithoutPlan plans → certificate.new ≡ certificate.old }
{
    let answered = answer_explain_certified(alloc, name, certified_by, plan, certificate);
    tell(alloc, answered, output, errors)
}

fn answer_explain_certified<P: Source, C: Source>(
    alloc: Global,
    name: &str,
    certified_by: &str,
    plan: &mut P,
    certificate: &mut C,
) -> Result<Answer, Refused>
    requires plan { HasRoom (P.account plan.old) }
    requires certificate { HasRoom (C.account certificate.old) }
    ensures answers { let plans = stream P.account plan.old plan.new in
        let certificates = stream C.account certificate.old certificate.new in
        IfOk result (λ answer. ExplainsWithSo name.now certified_by.now plans certificates answer.status (cow_str_bytes answer.text)) }
    ensures refused { IfErr result (λ why. why ≡ refused.NoMemory) }
    ensures in_order { let plans = stream P.account plan.old plan.new in
        IsWithoutPlan plans → certificate.new ≡ certificate.old }
{
    match plan_or_text(alloc, plan) {
        Ok(given) => answer_of_certificate(alloc, name, certified_by, &given, certificate),
        Err(unread) => unread_answer(alloc, Input::Plan, &unread),
    }
}

/// The answer on a plan and the certificate that a source gives.
fn answer_of_certificate<C: Source>(
    alloc: Global,
    name: &str,
    certified_by: &str,
    given: &PlanText,
    certificate: &mut C,
) -> Result<Answer, Refused>
    requires certificate { HasRoom (C.account certificate.old) }
    requires text { IsTextOf given.now.text.items given.now.plan }
    ensures answers { let certificates = stream C.account certificate.old certificate.new in
        IfOk result (λ answer. IsExplainedWith name.now certified_by.now given.now.text.items given.now.plan certificates answer.status (cow_str_bytes answer.text)) }
    ensures refused { IfErr result (λ why. why ≡ refused.NoMemory) }
{
    match certificate_or_text(alloc, &given.plan, certificate) {
        Ok(certificate) => answer_of_both(alloc, name, certified_by, given, &certificate),
        Err(unread) => unread_answer(alloc, Input::Certificate, &unread),
    }
}

/// The answer on a plan and a certificate.
fn answer_of_both(
    alloc: Global,
    name: &str,
    certified_by: &str,
    given: &PlanText,
    certificate: &Certificate,
) -> Result<Answer, Refused>
    requires { IsTextOf given.now.text.items given.now.plan }
    ensures answers { IfOk result (λ answer. IsBothExplained name.now certified_by.now given.now.text.items given.now.plan certificate.now answer.status (cow_str_bytes answer.text)) }
    ensures refused { IfErr result (λ why. why ≡ refused.NoMemory) }
{
    match check(alloc, &given.plan, certificate) {
        Ok(_checked) => Ok(Answer::found(sound_text(alloc, &given.plan, certificate)?)),
        Err(error) => explained(alloc, name, certified_by, given, certificate, &error),
    }
}

/// The answer where a plan and its certificate are not accepted.
pub fn explained(
    alloc: Global,
    name: &str,
    certified_by: &str,
    given: &PlanText,
    certificate: &Certificate,
    error: &CheckError,
) -> Result<Answer, Refused>
    requires first { NamesFirstFault given.now.plan certificate.now error.now }
    requires text { IsTextOf given.now.text.items given.now.plan }
    ensures answers { IfOk result (λ answer. (answer.status ≡ status.Fault) × IsFaultExplained name.now certified_by.now given.now.text.items given.now.plan certificate.now (cow_str_bytes answer.text)) }
    ensures refused { IfErr result (λ why. why ≡ refused.NoMemory) }
{
    match error {
        CheckError::Fault(fault) => {
            let text = fault_text(alloc, name, certified_by, given, certificate, fault)?;
            Ok(Answer::fault(text))
        }
        CheckError::OutOfMemory => Err(Refused::NoMemory),
    }
}

/// The line of the first fault, and what explains it.
fn fault_text(
    alloc: Global,
    name: &str,
    certified_by: &str,
    given: &PlanText,
    certificate: &Certificate,
    fault: &Fault,
) -> Result<String, AllocError>
    requires first { IsFirstFault given.now.plan certificate.now (site_of fault.now) }
    requires text { IsTextOf given.now.text.items given.now.plan }
    ensures { IfOk result (λ text. IsFaultExplained name.now certified_by.now given.now.text.items given.now.plan certificate.now (string_bytes text)) }
{
    let obstacle = CertifyError::Fault(*fault);
    let line = fault_line(alloc, &given.plan, fault)?;
    let place = obstacle_place(alloc, name, given.text.as_slice(), &given.plan, &obstacle)?;
    let cause = find_cause(&given.plan, fault);
    let told = lines_of(alloc, name, given, certificate, fault, cause)?;
    let words = format!(in alloc; "{name} {certified_by}")?;
    let more = more_faults(alloc, &words, &given.plan, Some(certificate))?;
    format!(in alloc; "{line}{place}{told}{more}")
}

/// Explains a fault of a plan, by its cause, or of its certificate, where it has none in the plan.
fn lines_of(
    alloc: Global,
    name: &str,
    given: &PlanText,
    certificate: &Certificate,
    fault: &Fault,
    cause: Option<Cause>,
) -> Result<String, AllocError>
    requires { IsTextOf given.now.text.items given.now.plan }
    ensures { IfOk result (λ text. IsFaultTold name.now given.now.text.items given.now.plan certificate.now fault.now cause (string_bytes text)) }
{
    match cause {
        Some(cause) => cause_text(alloc, given, fault, cause),
        None => certificate_lines(alloc, name, given, certificate, fault),
    }
}

/// Explains a fault of a plan by its cause, and proposes edits.
pub fn cause_text(
    alloc: Global,
    given: &PlanText,
    fault: &Fault,
    cause: Cause,
) -> Result<String, AllocError>
    requires { IsTextOf given.now.text.items given.now.plan }
    ensures { IfOk result (λ text. IsCauseTold given.now.plan fault.now cause (string_bytes text)) }
{
    let mut text = cause_lines(alloc, &given.plan, fault, cause)?;
    text.push_str(&edits_text(alloc, given, &CertifyError::Fault(*fault))?)?;
    Ok(text)
}

/// What the certificate gives by which it breaks a rule, and what helps.
fn certificate_lines(
    alloc: Global,
    name: &str,
    given: &PlanText,
    certificate: &Certificate,
    fault: &Fault,
) -> Result<String, AllocError>
    requires { IsTextOf given.now.text.items given.now.plan }
    ensures { IfOk result (λ text. IsCertificateTold name.now given.now.text.items given.now.plan certificate.now fault.now (string_bytes text)) }
{
    let mut text = certificate_fault_lines(alloc, &given.plan, certificate, fault)?;
    text.push_str(&remedy_lines(alloc, name, given)?)?;
    Ok(text)
}

/// Says that another certificate fits the plan, or what rules all of them out.
fn remedy_lines(alloc: Global, name: &str, given: &PlanText) -> Result<String, AllocError>
    requires { IsTextOf given.now.text.items given.now.plan }
    ensures { IfOk result (λ text. IsRemedyTold name.now given.now.text.items given.now.plan (string_bytes text)) }
{
    match certify(alloc, &given.plan) {
        Ok(_certificate) => REMEDY.to_string(alloc),
        Err(obstacle) => {
            let mut text = NO_CERTIFICATE.to_string(alloc)?;
            text.push_str(&obstacle_text(alloc, name, given, &obstacle)?)?;
            Ok(text)
        }
    }
}
