//! The command `report`: the page of a plan, alone or with its certificate.
ghost use Rattle.std.{specs.Prelude.{◌≡◌, IfOk, IfErr}, specs.Cow.{cow_str_bytes}};
ghost use Rattle.net_check.specs.Errors.{NamesFirstFault};
ghost use Rattle.net_rules.{specs.Certificates.{NamesObstacle, RulesOutCertificates}, specs.Rules.{Accepts}};
ghost use Rattle.report_commands.specs.Reporting.{Reports, ReportsWith};
ghost use Rattle.command_answers.specs.declared.refused.Refused.TheVariants as refused;

use crate::bodies::{accepted_page, refused_page};
use command_answers::{Answer, Command, Refused, accepted, fault_text};
use net_check::{CertifyError, CheckError, Checked, certify, check};
use plan_texts::obstacle_line;
use plan_values::{Certificate, Plan};
use std::alloc::{AllocError, Global};

/// Asks a plan for its page: HTML with the title `name`.
#[derive(Clone, Copy)]
pub struct ReportPlan<'a> {
    pub name: &'a str,
}

impl Command for ReportPlan<'_> {
    type Of = Plan;

    ghost Answers = { λ s plan ended page. Reports plan ended page };

    ghost IsUnanswered = { λ s plan why. why ≡ refused.NoMemory };

    /// The page. It begins with the verdict of `certify`, that a certificate fits or why none does, and the run ends as
    /// that of `certify` does.
    fn answer(&self, alloc: Global, plan: &Plan) -> Result<Answer, Refused> {
        Ok(report_of(alloc, self.name, plan)?)
    }
}

/// The page of a plan alone.
fn report_of(alloc: Global, name: &str, plan: &Plan) -> Result<Answer, AllocError>
    ensures { IfOk result (λ answer. Reports plan.now answer.status (cow_str_bytes answer.text)) }
{
    match certify(alloc, plan) {
        Ok(certificate) => report_of_made(alloc, name, plan, &certificate),
        Err(obstacle) => report_of_obstacle(alloc, name, plan, &obstacle),
    }
}

/// The page of a plan with the certificate that was made of it.
fn report_of_made(
    alloc: Global,
    name: &str,
    plan: &Plan,
    certificate: &Certificate,
) -> Result<Answer, AllocError>
    requires { Accepts plan.now certificate.now }
    ensures { IfOk result (λ answer. Reports plan.now answer.status (cow_str_bytes answer.text)) }
{
    let checked = accepted(alloc, plan, certificate)?;
    let page = accepted_page(alloc, name, "yes: a certificate fits the plan", &checked)?;
    Ok(Answer::found(page))
}

/// The page of a plan that has no certificate.
fn report_of_obstacle(
    alloc: Global,
    name: &str,
    plan: &Plan,
    obstacle: &CertifyError,
) -> Result<Answer, AllocError>
    requires named { NamesObstacle plan.now obstacle.now }
    requires none { RulesOutCertificates plan.now obstacle.now }
    ensures { IfOk result (λ answer. Reports plan.now answer.status (cow_str_bytes answer.text)) }
{
    let line = obstacle_line(alloc, plan, obstacle)?;
    let marked = nodes_of(alloc, obstacle)?;
    let page = refused_page(alloc, name, &line, plan, None, &marked)?;
    Ok(Answer::fault(page))
}

/// The nodes that stand in what rules certificates out.
fn nodes_of(alloc: Global, obstacle: &CertifyError) -> Result<Vec<usize>, AllocError> {
    match obstacle {
        CertifyError::Fault(fault) => Ok(vec![in alloc; fault.node]?),
        CertifyError::BadChain(node, ..) => Ok(vec![in alloc; *node]?),
        CertifyError::OwnerLoop(nodes) | CertifyError::Loop(_, nodes) => nodes.clone(),
        CertifyError::OutOfMemory => Ok(Vec::new(alloc)),
    }
}

/// Asks a plan with its certificate for its page: HTML with the title `name`.
#[derive(Clone, Copy)]
pub struct ReportCertified<'a> {
    pub name: &'a str,
}

impl Command for ReportCertified<'_> {
    type Of = (Plan, Certificate);

    ghost Answers = { λ s both ended page. ReportsWith both.0 both.1 ended page };

    ghost IsUnanswered = { λ s both why. why ≡ refused.NoMemory };

    /// The page. It begins with the verdict of `check`, that the certificate fits or the first fault, and the run ends as
    /// that of `check` does.
    fn answer(&self, alloc: Global, both: &(Plan, Certificate)) -> Result<Answer, Refused> {
        report_with(alloc, self.name, &both.0, &both.1)
    }
}

/// The page of a plan with its certificate.
fn report_with(
    alloc: Global,
    name: &str,
    plan: &Plan,
    certificate: &Certificate,
) -> Result<Answer, Refused>
    ensures answers { IfOk result (λ answer. ReportsWith plan.now certificate.now answer.status (cow_str_bytes answer.text)) }
    ensures refused { IfErr result (λ why. why ≡ refused.NoMemory) }
{
    match check(alloc, plan, certificate) {
        Ok(checked) => report_of_given(alloc, name, &checked),
        Err(error) => report_of_fault(alloc, name, plan, certificate, &error),
    }
}

/// The page of a checked plan whose certificate was given.
fn report_of_given(alloc: Global, name: &str, checked: &Checked) -> Result<Answer, Refused>
    ensures answers { IfOk result (λ answer. ReportsWith checked.now.0 checked.now.1 answer.status (cow_str_bytes answer.text)) }
    ensures refused { IfErr result (λ why. why ≡ refused.NoMemory) }
{
    // (that the plan is accepted is known of it once it is taken out)
    let _known = checked.plan();
    let page = accepted_page(alloc, name, "yes: the certificate fits the plan", checked)?;
    Ok(Answer::found(page))
}

/// The page of a plan and a certificate that are not accepted.
fn report_of_fault(
    alloc: Global,
    name: &str,
    plan: &Plan,
    certificate: &Certificate,
    error: &CheckError,
) -> Result<Answer, Refused>
    requires { NamesFirstFault plan.now certificate.now error.now }
    ensures answers { IfOk result (λ answer. ReportsWith plan.now certificate.now answer.status (cow_str_bytes answer.text)) }
    ensures refused { IfErr result (λ why. why ≡ refused.NoMemory) }
{
    let line = fault_text(alloc, plan, error)?;
    let marked = node_of(error);
    let page = refused_page(
        alloc,
        name,
        &line,
        plan,
        Some(certificate),
        marked.as_slice(),
    )?;
    Ok(Answer::fault(page))
}

/// The node of a fault.
fn node_of(error: &CheckError) -> Option<usize> {
    match error {
        CheckError::Fault(fault) => Some(fault.node),
        CheckError::OutOfMemory => None,
    }
}
