//! The command `faults`: every fault of a plan, or of a plan and its certificate.
ghost use Rattle.std.{specs.Prelude.{◌≡◌, IfOk, IfErr}, specs.Cow.{cow_str_bytes}};
ghost use Rattle.net_check.specs.Errors.{NamesFirstFault};
ghost use Rattle.command_answers.specs.declared.status.Status.TheVariants.{Fault};
ghost use Rattle.plan_commands.specs.FaultListing.{IsFaultListOf, IsListed};

use command_answers::{Answer, PlanText, Refused};
use fault_texts::fault_lines;
use net_check::CheckError;
use net_faults::{all_faults, plan_faults};
use plan_values::Certificate;
use std::alloc::{AllocError, Global};

/// All that rules certificates of a plan out, or that nothing does. The name is that of the plan's file.
pub fn faults_of_plan(alloc: Global, name: &str, given: &PlanText) -> Result<Answer, AllocError>
    ensures { IfOk result (λ answer. IsListed name.now given.now.text.items given.now.plan answer.status (cow_str_bytes answer.text)) }
{
    let faults = plan_faults(alloc, &given.plan)?;
    if faults.is_empty() {
        return Ok(Answer::yes());
    }
    let lines = fault_lines(alloc, name, given.text.as_slice(), &given.plan, &faults)?;
    Ok(Answer::fault(lines))
}

/// Every fault of a plan and a certificate that are not accepted.
pub fn faults_of_both(
    alloc: Global,
    name: &str,
    given: &PlanText,
    certificate: &Certificate,
    error: &CheckError,
) -> Result<Answer, Refused>
    requires { NamesFirstFault given.now.plan certificate.now error.now }
    ensures answers { IfOk result (λ answer. (answer.status ≡ Fault) × IsFaultListOf name.now given.now.text.items given.now.plan certificate.now (cow_str_bytes answer.text)) }
    ensures refused { IfErr result (λ why. why ≡ Refused.NoMemory) }
{
    match error {
        CheckError::Fault(_) => {
            let faults = all_faults(alloc, &given.plan, Some(certificate))?;
            let lines = fault_lines(alloc, name, given.text.as_slice(), &given.plan, &faults)?;
            Ok(Answer::fault(lines))
        }
        CheckError::OutOfMemory => Err(Refused::NoMemory),
    }
}
