//! Whether a plan needs no rows.
ghost use Rattle.std.specs.Prelude.{◌≡◌, ◌↔◌, IfOk, IsTrue};
ghost use Rattle.net_rules.specs.Rules.{Accepts};
ghost use Rattle.board_kept.specs.Rowed.{AllReachAll, IsWhole};

use net_check::{CertifyError, CheckError, Checked, certify, check};
use net_reached::reaches_all;
use plan_values::{Certificate, Plan};
use std::alloc::{AllocError, Global};

/// Whether every rule holds of a plan, by some certificate, and all its nodes reach each other.
pub fn is_whole(alloc: Global, plan: &Plan) -> Result<bool, AllocError>
    ensures { IfOk result (λ answer. IsTrue answer ↔ IsWhole plan.now) }
{
    match certify(alloc, plan) {
        Ok(certificate) => do_all_reach(alloc, plan, &certificate),
        Err(CertifyError::OutOfMemory) => Err(AllocError),
        Err(
            CertifyError::Fault(_)
            | CertifyError::OwnerLoop(_)
            | CertifyError::Loop(_, _)
            | CertifyError::BadChain(..),
        ) => Ok(false),
    }
}

/// Whether all nodes of a plan reach each other, whose certificate is accepted.
fn do_all_reach(alloc: Global, plan: &Plan, certificate: &Certificate) -> Result<bool, AllocError>
    requires { Accepts plan.now certificate.now }
    ensures { IfOk result (λ answer. IsTrue answer ↔ AllReachAll plan.now) }
{
    match check(alloc, plan, certificate) {
        Ok(checked) => all_reach(alloc, &checked),
        Err(CheckError::OutOfMemory) => Err(AllocError),
        Err(CheckError::Fault(_)) => unreachable!(),
    }
}

fn all_reach(alloc: Global, checked: &Checked) -> Result<bool, AllocError>
    ensures { IfOk result (λ answer. IsTrue answer ↔ AllReachAll checked.now.0) }
{
    for from in 0..checked.plan().nodes.len() {
        if !reaches_all(alloc, checked, from)? {
            return Ok(false);
        }
    }
    Ok(true)
}
