//! The levels of a plan's certificate.
ghost use Rattle.std.specs.Prelude.{◌≡◌, ◌≤◌, ◌+◌, ℕ, List, IfOk, OnOk, IfErr, Some, length, slice_get};
ghost use Rattle.net_rules.specs.Certificates.{AreExactLevels, AreLevelsBefore, NamesOwnerLoop};

use crate::certify_error::CertifyError;
use crate::certifying::levels::levels_of;
use plan_values::{NodeLevel, Plan};
use std::alloc::{AllocError, Global};

/// The levels of the nodes that have an owner, in plan order, or the first owner loop.
#[tactic(auto, using(crate::proofs::Listed::levels_all))]
pub fn exact_levels(alloc: Global, plan: &Plan) -> Result<Vec<NodeLevel>, CertifyError>
    ensures exact { IfOk result (λ given. AreExactLevels plan.now given.items) }
    ensures obstacle { IfErr result (λ error. NamesOwnerLoop plan.now error) }
{
    let levels = levels_of(alloc, plan)?;
    Ok(given_levels(alloc, &levels)?)
}

/// The levels above 0.
#[tactic(auto, using(crate::proofs::Listed::no_levels))]
fn given_levels(alloc: Global, levels: &[u8]) -> Result<Vec<NodeLevel>, AllocError>
    requires { (n k : ℕ) → slice_get levels.now n ≡ Some k → k ≤ 63 }
    ensures { IfOk result (λ given. AreLevelsBefore levels.now (length levels.now) given.items) }
{
    let mut given = Vec::new(alloc);
    for (node, &level) in levels.iter().enumerate() {
        add_level(&mut given, node, level)?;
    }
    Ok(given)
}

/// Adds the level of the next node, if it is above 0.
#[tactic(auto, using(crate::proofs::Listed::level_pushed, crate::proofs::Listed::level_skipped))]
fn add_level(given: &mut Vec<NodeLevel>, node: usize, level: u8) -> Result<(), AllocError>
    requires { level ≤ 63 }
    ensures { OnOk result ((levels : List ℕ) → slice_get levels node ≡ Some level
        → AreLevelsBefore levels node given.old.items → AreLevelsBefore levels (node + 1) given.new.items) }
{
    if level == 0 {
        return Ok(());
    }
    given.push(NodeLevel { level, node })?;
    Ok(())
}
