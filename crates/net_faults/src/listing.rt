//! All that rules certificates of a plan out, in the order of the rules.
ghost use Rattle.std.specs.Prelude.{◌≡◌, ◌↔◌, ◌++◌, ◌∷◌, [], IfOk, OnOk, map, option_map};
ghost use Rattle.net_faults.{specs.declared.plan_fault.PlanFault.TheVariants.{Broken}, specs.PlanFaults.{AreAllFaults, ArePlanFaults, HasCertificate, broken_in, turn_of}};

use crate::chain_faults::bad_chains;
use crate::owner_loops::owner_loops;
use crate::plan_fault::PlanFault;
use crate::routing_loops::routing_loops;
use net_rules::{CertifyError, FaultRun, Rule, certify, faults};
use plan_values::{Certificate, Plan};
use std::alloc::{AllocError, Global};

/// All that rules certificates of the plan out: the places where it breaks a rule, as `faults` lists them, each loop of
/// owners (behind those of C07), each loop of rows (in the place of C10), and what is wrong with the records of each
/// node whose next handles don't lead through them once each (in that of C14). The list is empty exactly where `certify`
/// has a certificate, and then that was made.
pub fn plan_faults(alloc: Global, plan: &Plan) -> Result<Vec<PlanFault>, AllocError>
    ensures listed { IfOk result (λ found. ArePlanFaults plan.now found.items) }
    ensures exact { IfOk result (λ found. (found.items ≡ []) ↔ HasCertificate plan.now) }
{
    let found = listed_faults(alloc, plan)?;
    see_where_empty(alloc, plan, &found)?;
    Ok(found)
}

/// All that is wrong: with a plan alone as `plan_faults` lists it; with a plan and a certificate the places where they
/// break a rule, as `faults` lists them.
pub fn all_faults(
    alloc: Global,
    plan: &Plan,
    certificate: Option<&Certificate>,
) -> Result<Vec<PlanFault>, AllocError>
    ensures { IfOk result (λ found. AreAllFaults plan.now (option_map (λ c. c.now) certificate.entry) found.items) }
{
    match certificate {
        None => plan_faults(alloc, plan),
        Some(certificate) => broken_places(alloc, &faults(alloc, plan, Some(certificate))?),
    }
}

/// Broken places as faults of this kind.
fn broken_places(alloc: Global, runs: &[FaultRun]) -> Result<Vec<PlanFault>, AllocError>
    ensures { IfOk result (λ found. found.items ≡ map Broken runs.now) }
{
    let mut found = Vec::new(alloc);
    for run in runs {
        found.push(PlanFault::Broken(*run))?;
    }
    Ok(found)
}

/// All that rules certificates of the plan out.
fn listed_faults(alloc: Global, plan: &Plan) -> Result<Vec<PlanFault>, AllocError>
    ensures { IfOk result (λ found. ArePlanFaults plan.now found.items) }
{
    let runs = faults(alloc, plan, None)?;
    let mut found = Vec::new(alloc);
    add_broken(&runs, 0, &mut found)?;
    add_all(owner_loops(alloc, plan)?, &mut found)?;
    add_broken(&runs, 1, &mut found)?;
    add_all(routing_loops(alloc, plan)?, &mut found)?;
    add_broken(&runs, 2, &mut found)?;
    add_all(bad_chains(alloc, plan)?, &mut found)?;
    add_broken(&runs, 3, &mut found)?;
    Ok(found)
}

/// Adds all of these.
fn add_all(more: Vec<PlanFault>, found: &mut Vec<PlanFault>) -> Result<(), AllocError>
    ensures { OnOk result (found.new.items ≡ found.old.items ++ more.items) }
{
    let mut more = more;
    found.append(&mut more)?;
    Ok(())
}

/// Adds the broken places of the rules of one turn.
fn add_broken(runs: &[FaultRun], turn: u8, found: &mut Vec<PlanFault>) -> Result<(), AllocError>
    ensures { OnOk result (found.new.items ≡ found.old.items ++ broken_in turn runs.now) }
{
    for run in runs {
        add_in_turn(run, turn, found)?;
    }
    Ok(())
}

/// Adds a broken place of a rule of the turn.
fn add_in_turn(run: &FaultRun, turn: u8, found: &mut Vec<PlanFault>) -> Result<(), AllocError>
    ensures { OnOk result (found.new.items ≡ found.old.items ++ broken_in turn (run.now ∷ [])) }
{
    if turn_of(run.rule) != turn {
        return Ok(());
    }
    found.push(PlanFault::Broken(*run))?;
    Ok(())
}

/// How many of the loops of owners, the loops of rows and the chains come before a rule's broken places.
fn turn_of(rule: Rule) -> u8
    ensures { result ≡ turn_of rule }
{
    match rule {
        Rule::C01 | Rule::C02 | Rule::C03 | Rule::C04 | Rule::C05 | Rule::C06 | Rule::C07 => 0,
        Rule::C08 | Rule::C09 | Rule::C10 => 1,
        Rule::C11 | Rule::C12 | Rule::C13 | Rule::C14 => 2,
        Rule::C15 | Rule::C16 => 3,
    }
}

/// Makes a certificate of a plan of which nothing is found.
fn see_where_empty(alloc: Global, plan: &Plan, found: &[PlanFault]) -> Result<(), AllocError>
    requires { ArePlanFaults plan.now found.now }
    ensures { OnOk result (found.now ≡ [] → HasCertificate plan.now) }
{
    if !found.is_empty() {
        return Ok(());
    }
    see_certificate(alloc, plan)?;
    Ok(())
}

/// Makes a certificate of a plan that nothing rules out.
fn see_certificate(alloc: Global, plan: &Plan) -> Result<(), AllocError>
    requires { ArePlanFaults plan.now [] }
    ensures { OnOk result (HasCertificate plan.now) }
{
    match certify(alloc, plan) {
        Ok(_certificate) => Ok(()),
        Err(CertifyError::OutOfMemory) => Err(AllocError),
        Err(_) => unreachable!(),
    }
}
