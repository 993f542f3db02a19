//! The files that commands read.
ghost use Rattle.std.specs.Prelude.{◌≡◌, IfOk, IfErr, string_bytes};
ghost use Rattle.net_plan.{specs.Stream.{HasRoom}, specs.CertificateText.{IsCertificateOf}, specs.PlanText.{IsPlanOf}, specs.Texts.{IsJsonTextOf}};
ghost use Rattle.command_answers.{specs.Answers.{stream, IsWithoutPlan, GavePlan, GavePlanText, GaveCertificate, IsPlanUnread, IsCertificateUnread, AreGiven, AreTextsGiven, AreUnread}, specs.UnreadInputs.{IsNoPlanIn, IsNoPlanBy, IsNoCertificateIn, IsNoCertificateBy, IsTextOf, unread_of}, specs.Moves.{IsMoveGiven, IsMoveUnread, ArePlansUnread}, specs.Inputs.{GaveBytes, AreLinesUnread, GaveEvents, AreEventsUnread}};
ghost use Rattle.plan_values.{specs.CertificateValues.{certificate_value}, specs.PlanValues.{plan_value}};

use crate::refused::{Input, Refused};
use net_plan::{
    PlanError, Source, TEXT_LIMIT, TextFault as NoText, plan_of_text, read_certificate,
    read_events, read_plan, read_within,
};
use plan_values::{Certificate, Event, Plan};
use reading_texts::{TextError, TextFault, certificate_or_fault, plan_or_fault};
use std::alloc::Global;

/// The plan that a source gives.
pub fn given_plan<P: Source>(alloc: Global, plan: &mut P) -> Result<Plan, Refused>
    requires { HasRoom (P.account plan.old) }
    ensures given { let plans = stream P.account plan.old plan.new in
        IfOk result (λ read. GavePlan plans read) }
    ensures unread { let plans = stream P.account plan.old plan.new in
        IfErr result (λ refused. IsPlanUnread refused plans) }
{
    match read_plan(alloc, plan) {
        Ok(plan) => Ok(plan),
        Err(error) => Err(Refused::at_input(Input::Plan, error)),
    }
}

/// Why a source gave no plan, or no certificate.
#[derive(Drop)]
pub enum Unread {
    /// There was too little memory.
    NoMemory,
    /// It failed.
    Failed,
    /// It gave too many bytes.
    TooLong,
    /// It gave this text to its end, in which this is wrong.
    Text { text: Vec<u8>, fault: TextFault },
}

/// A plan, and the text that it was read from.
#[derive(Drop)]
pub struct PlanText {
    pub text: Vec<u8>,
    pub plan: Plan,
}

/// The plan that a source gives, with its text, or why it gives none, with the text that it gave.
pub fn plan_or_text<P: Source>(alloc: Global, plan: &mut P) -> Result<PlanText, Unread>
    requires { HasRoom (P.account plan.old) }
    ensures given { let plans = stream P.account plan.old plan.new in
        IfOk result (λ read. GavePlanText plans read.text.items read.plan) }
    ensures same { IfOk result (λ read. IsTextOf read.text.items read.plan) }
    ensures unread { let plans = stream P.account plan.old plan.new in
        IfErr result (IsNoPlanBy plans) }
{
    match read_within(alloc, plan, TEXT_LIMIT) {
        Ok(text) => plan_in(alloc, text),
        Err(fault) => Err(without_text(fault)),
    }
}

/// The plan that a source gives, with its text.
pub fn given_plan_text<P: Source>(alloc: Global, plan: &mut P) -> Result<PlanText, Refused>
    requires { HasRoom (P.account plan.old) }
    ensures given { let plans = stream P.account plan.old plan.new in
        IfOk result (λ read. GavePlanText plans read.text.items read.plan) }
    ensures same { IfOk result (λ read. IsTextOf read.text.items read.plan) }
    ensures unread { let plans = stream P.account plan.old plan.new in
        IfErr result (λ refused. IsPlanUnread refused plans) }
{
    match read_within(alloc, plan, TEXT_LIMIT) {
        Ok(text) => match plan_of_text(alloc, &text) {
            Ok(plan) => Ok(PlanText { text, plan }),
            Err(cause) => Err(Refused::at_input(Input::Plan, cause)),
        },
        Err(fault) => Err(Refused::at_input(Input::Plan, PlanError::from(fault))),
    }
}

/// The plan that a text is, or why it is none.
fn plan_in(alloc: Global, text: Vec<u8>) -> Result<PlanText, Unread>
    ensures given { IfOk result (λ read. IsTextOf text.items read.plan) }
    ensures same { IfOk result (λ read. read.text.items ≡ text.items) }
    ensures unread { IfErr result (IsNoPlanIn text.items) }
{
    match plan_or_fault(alloc, &text) {
        Ok(plan) => Ok(PlanText { text, plan }),
        Err(TextError::OutOfMemory) => Err(Unread::NoMemory),
        Err(TextError::Faulty(fault)) => Err(Unread::Text { text, fault }),
    }
}

/// The certificate that a source gives for a plan, or why it gives none, with the text that it gave.
pub fn certificate_or_text<C: Source>(
    alloc: Global,
    plan: &Plan,
    certificate: &mut C,
) -> Result<Certificate, Unread>
    requires { HasRoom (C.account certificate.old) }
    ensures given { let certificates = stream C.account certificate.old certificate.new in
        IfOk result (λ read. GaveCertificate plan.now certificates read) }
    ensures unread { let certificates = stream C.account certificate.old certificate.new in
        IfErr result (IsNoCertificateBy plan.now certificates) }
{
    match read_within(alloc, certificate, TEXT_LIMIT) {
        Ok(text) => certificate_in(alloc, plan, text),
        Err(fault) => Err(without_text(fault)),
    }
}

/// The certificate of a plan that a text is, or why it is none.
fn certificate_in(alloc: Global, plan: &Plan, text: Vec<u8>) -> Result<Certificate, Unread>
    ensures given { IfOk result (λ c. IsJsonTextOf (IsCertificateOf (plan_value plan.now)) text.items (certificate_value c)) }
    ensures unread { IfErr result (IsNoCertificateIn plan.now text.items) }
{
    match certificate_or_fault(alloc, plan, &text) {
        Ok(certificate) => Ok(certificate),
        Err(TextError::OutOfMemory) => Err(Unread::NoMemory),
        Err(TextError::Faulty(fault)) => Err(Unread::Text { text, fault }),
    }
}

/// Why there is nothing where there is no text.
pub fn without_text(fault: NoText) -> Unread
    ensures { result ≡ unread_of fault }
{
    match fault {
        NoText::TooLong => Unread::TooLong,
        NoText::Device => Unread::Failed,
        NoText::OutOfMemory => Unread::NoMemory,
    }
}

/// The certificate that a source gives for a plan.
pub fn given_certificate<C: Source>(
    alloc: Global,
    plan: &Plan,
    certificate: &mut C,
) -> Result<Certificate, Refused>
    requires { HasRoom (C.account certificate.old) }
    ensures given { let certificates = stream C.account certificate.old certificate.new in
        IfOk result (λ read. GaveCertificate plan.now certificates read) }
    ensures unread { let certificates = stream C.account certificate.old certificate.new in
        IfErr result (λ refused. IsCertificateUnread refused plan.now certificates) }
{
    match read_certificate(alloc, plan, certificate) {
        Ok(certificate) => Ok(certificate),
        Err(error) => Err(Refused::at_input(Input::Certificate, error)),
    }
}

/// The events that a source gives at the nodes of a plan.
pub fn given_events<V: Source>(
    alloc: Global,
    plan: &Plan,
    events: &mut V,
) -> Result<Vec<Event>, Refused>
    requires { HasRoom (V.account events.old) }
    ensures given { let happenings = stream V.account events.old events.new in
        IfOk result (λ read. GaveEvents plan.now happenings read.items) }
    ensures unread { let happenings = stream V.account events.old events.new in
        IfErr result (λ refused. AreEventsUnread refused plan.now happenings) }
{
    match read_events(alloc, plan, events) {
        Ok(events) => Ok(events),
        Err(error) => Err(Refused::at_input(Input::Events, error)),
    }
}

/// The text of lines that a source gives.
pub fn given_lines<L: Source>(alloc: Global, lines: &mut L) -> Result<String, Refused>
    requires { HasRoom (L.account lines.old) }
    ensures given { let expectations = stream L.account lines.old lines.new in
        IfOk result (λ text. GaveBytes expectations (string_bytes text)) }
    ensures unread { let expectations = stream L.account lines.old lines.new in
        IfErr result (λ refused. AreLinesUnread refused expectations) }
{
    match read_within(alloc, lines, TEXT_LIMIT) {
        Ok(bytes) => match String::from_utf8(bytes) {
            Ok(text) => Ok(text),
            Err(_) => Err(Refused::at_input(Input::Lines, PlanError::NotJson)),
        },
        Err(fault) => Err(Refused::at_input(Input::Lines, PlanError::from(fault))),
    }
}

/// The plan and its certificate. The certificate is read only where the plan could be read.
pub fn read_inputs<P: Source, C: Source>(
    alloc: Global,
    plan: &mut P,
    certificate: &mut C,
) -> Result<(Plan, Certificate), Refused>
    requires plan { HasRoom (P.account plan.old) }
    requires certificate { HasRoom (C.account certificate.old) }
    ensures given { let plans = stream P.account plan.old plan.new in
        let certificates = stream C.account certificate.old certificate.new in
        IfOk result (λ read. AreGiven plans certificates read.0 read.1) }
    ensures unread { let plans = stream P.account plan.old plan.new in
        let certificates = stream C.account certificate.old certificate.new in
        IfErr result (λ refused. AreUnread refused plans certificates) }
    ensures in_order { let plans = stream P.account plan.old plan.new in
        IsWithoutPlan plans → certificate.new ≡ certificate.old }
{
    let plan = given_plan(alloc, plan)?;
    let certificate = given_certificate(alloc, &plan, certificate)?;
    Ok((plan, certificate))
}

/// The same, with the text of the plan.
pub fn read_texts<P: Source, C: Source>(
    alloc: Global,
    plan: &mut P,
    certificate: &mut C,
) -> Result<(PlanText, Certificate), Refused>
    requires plan { HasRoom (P.account plan.old) }
    requires certificate { HasRoom (C.account certificate.old) }
    ensures given { let plans = stream P.account plan.old plan.new in
        let certificates = stream C.account certificate.old certificate.new in
        IfOk result (λ read. AreTextsGiven plans certificates read.0.text.items read.0.plan read.1) }
    ensures same { IfOk result (λ read. IsTextOf read.0.text.items read.0.plan) }
    ensures unread { let plans = stream P.account plan.old plan.new in
        let certificates = stream C.account certificate.old certificate.new in
        IfErr result (λ refused. AreUnread refused plans certificates) }
    ensures in_order { let plans = stream P.account plan.old plan.new in
        IsWithoutPlan plans → certificate.new ≡ certificate.old }
{
    let given = given_plan_text(alloc, plan)?;
    let certificate = given_certificate(alloc, &given.plan, certificate)?;
    Ok((given, certificate))
}

/// Two plans. The second is read only where the first could be read.
pub fn read_plans<P: Source, Q: Source>(
    alloc: Global,
    before: &mut P,
    after: &mut Q,
) -> Result<(Plan, Plan), Refused>
    requires before { HasRoom (P.account before.old) }
    requires after { HasRoom (Q.account after.old) }
    ensures given { let befores = stream P.account before.old before.new in
        let afters = stream Q.account after.old after.new in
        IfOk result (λ read. GavePlan befores read.0 × GavePlan afters read.1) }
    ensures unread { let befores = stream P.account before.old before.new in
        let afters = stream Q.account after.old after.new in
        IfErr result (λ refused. ArePlansUnread refused befores afters) }
    ensures in_order { let befores = stream P.account before.old before.new in
        IsWithoutPlan befores → after.new ≡ after.old }
{
    let first = given_plan(alloc, before)?;
    let second = given_plan(alloc, after)?;
    Ok((first, second))
}

/// The plans of a move and their certificate. Each is read only where those before it could be read; the certificate is
/// read for the plan before.
pub fn read_move<P: Source, Q: Source, C: Source>(
    alloc: Global,
    before: &mut P,
    after: &mut Q,
    certificate: &mut C,
) -> Result<(Plan, Plan, Certificate), Refused>
    requires before { HasRoom (P.account before.old) }
    requires after { HasRoom (Q.account after.old) }
    requires certificate { HasRoom (C.account certificate.old) }
    ensures given { let befores = stream P.account before.old before.new in
        let afters = stream Q.account after.old after.new in
        let certificates = stream C.account certificate.old certificate.new in
        IfOk result (λ read. IsMoveGiven befores afters certificates read.0 read.1 read.2) }
    ensures unread { let befores = stream P.account before.old before.new in
        let afters = stream Q.account after.old after.new in
        let certificates = stream C.account certificate.old certificate.new in
        IfErr result (λ refused. IsMoveUnread refused befores afters certificates) }
    ensures in_order { let befores = stream P.account before.old before.new in
        IsWithoutPlan befores → (after.new ≡ after.old) × (certificate.new ≡ certificate.old) }
    ensures after_in_order { let afters = stream Q.account after.old after.new in
        IsWithoutPlan afters → certificate.new ≡ certificate.old }
{
    let before = given_plan(alloc, before)?;
    let after = given_plan(alloc, after)?;
    let certificate = given_certificate(alloc, &before, certificate)?;
    Ok((before, after, certificate))
}
