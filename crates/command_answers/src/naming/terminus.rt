//! The terminus that a node's name stands for.
ghost use Rattle.std.specs.Prelude.{◌≡◌, Some, MatchOption};
ghost use Rattle.net_tables.specs.Repositories.{terminus_of};
ghost use Rattle.command_answers.specs.Naming.{IsTerminusNamed, HasTerminusNamed};

use crate::naming::first_named;
use net_tables::lookup::terminus_at;
use plan_values::{Plan, PlannedTerminus};

/// The terminus of the first node of the name, if it has one, and the index of that node.
#[tactic(auto, using(crate::proofs::Names::no_terminus))]
pub fn named_terminus<'a>(plan: &'a Plan, name: &str) -> Option<(usize, &'a PlannedTerminus)>
    ensures { MatchOption result (¬ HasTerminusNamed plan.now name.now)
        (λ found. IsTerminusNamed plan.now name.now found.0 × (terminus_of plan.now found.0 ≡ Some found.1.now)) }
{
    let index = first_named(plan, name)?;
    let terminus = terminus_at(plan, index)?;
    Some((index, terminus))
}
