//! Whether packets of a node reach another.
ghost use Rattle.std.specs.Prelude.{◌↔◌, ℕ, IfOk, IsTrue, MatchOption, length};
ghost use Rattle.net_questions.specs.Ways.{ArrivesAfter};
ghost use Rattle.net_reached.specs.Wishes.{ComesTo, ReachesNode, ReachesFirst};

use mctp_transport::Eid;
use net_check::Checked;
use net_questions::{End, follow};
use net_tables::lookup::eid_at;
use std::alloc::{AllocError, Global};

/// How many hops a packet makes that is put in at a node for the endpoint ID of another, if it arrives there.
#[tactic(auto, using(crate::proofs::Arriving::comes, crate::proofs::Arriving::comes_not, crate::proofs::Arriving::nobody_comes))]
pub fn hops_between(
    alloc: Global,
    checked: &Checked,
    from: usize,
    to: usize,
) -> Result<Option<usize>, AllocError>
    ensures { IfOk result (λ found. MatchOption found (¬ ReachesNode checked.now.0 from to) (ComesTo checked.now.0 from to)) }
{
    match eid_at(checked.plan(), to) {
        Some(eid) => hops_to(alloc, checked, from, eid),
        None => Ok(None),
    }
}

/// How many hops a packet for the endpoint ID makes that is put in at a node, if it arrives.
#[tactic(auto, using(crate::proofs::Arriving::arrives))]
fn hops_to(
    alloc: Global,
    checked: &Checked,
    from: usize,
    eid: Eid,
) -> Result<Option<usize>, AllocError>
    ensures { IfOk result (λ found. MatchOption found ((moves : ℕ) → ¬ ArrivesAfter checked.now.0 eid.value from moves)
        (ArrivesAfter checked.now.0 eid.value from)) }
{
    // (that the plan is accepted is known of it once it is taken out)
    let _plan = checked.plan();
    let way = follow(alloc, checked, from, eid)?;
    match way.end {
        End::Arrives => Ok(Some(way.steps.len())),
        End::Stops(_) => Ok(None),
    }
}

/// Whether packets of a node reach another.
pub fn reaches(alloc: Global, checked: &Checked, from: usize, to: usize) -> Result<bool, AllocError>
    ensures { IfOk result (λ answer. IsTrue answer ↔ ReachesNode checked.now.0 from to) }
{
    Ok(hops_between(alloc, checked, from, to)?.is_some())
}

/// Whether packets of a node don't reach another.
pub fn avoids(alloc: Global, checked: &Checked, from: usize, to: usize) -> Result<bool, AllocError>
    ensures { IfOk result (λ answer. IsTrue answer ↔ (¬ ReachesNode checked.now.0 from to)) }
{
    match hops_between(alloc, checked, from, to)? {
        Some(_) => Ok(false),
        None => Ok(true),
    }
}

/// Whether packets of a node reach each node.
pub fn reaches_all(alloc: Global, checked: &Checked, from: usize) -> Result<bool, AllocError>
    ensures { IfOk result (λ answer. IsTrue answer ↔ ReachesFirst checked.now.0 from (length checked.now.0.nodes.items)) }
{
    for to in 0..checked.plan().nodes.len() {
        if !reaches(alloc, checked, from, to)? {
            return Ok(false);
        }
    }
    Ok(true)
}
