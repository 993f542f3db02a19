//! How many owners stand above each node, or a loop of owners.
ghost use Rattle.std.specs.Prelude.{◌≡◌, ◌<◌, All, IfOk, IfErr, length, map};
ghost use Rattle.net_tables.specs.Ownership.{IsOwnedBy};
ghost use Rattle.net_rules.{specs.Circles.{IsWalked}, specs.OwnerLoops.{AreLevels}, specs.Certificates.{NamesOwnerLoop}};

use crate::certify_error::CertifyError;
use crate::certifying::walks::{Walked, walk};
use plan_values::Plan;
use std::alloc::{AllocError, Global};

/// For each node, in the plan's order, the number of owners above it, at most 63; or the loop of the first node that
/// stands above itself.
pub fn levels_of(alloc: Global, plan: &Plan) -> Result<Vec<u8>, CertifyError>
    ensures levels { IfOk result (λ levels. AreLevels plan.now levels.items) }
    ensures obstacle { IfErr result (λ error. NamesOwnerLoop plan.now error) }
{
    match walk_owners(alloc, plan)? {
        Walked::Ended(counts) => Ok(levels_from(alloc, &counts)?),
        Walked::Circled(nodes) => Err(CertifyError::OwnerLoop(nodes)),
    }
}

/// Where the owners lead: from each node to one without an owner, or round a loop.
fn walk_owners(alloc: Global, plan: &Plan) -> Result<Walked, AllocError>
    ensures { IfOk result (IsWalked (IsOwnedBy plan.now) (length plan.now.nodes.items)) }
{
    let owners = owners_of(alloc, plan)?;
    walk(alloc, &owners)
}

/// Each node's owner, if any.
fn owners_of(alloc: Global, plan: &Plan) -> Result<Vec<Option<usize>>, AllocError>
    ensures { IfOk result (λ owners. owners.items ≡ map (λ node. node.owner) plan.now.nodes.items) }
{
    plan.nodes.iter().map(|node| node.owner).collect(alloc)
}

/// The same numbers, each in a byte.
fn levels_from(alloc: Global, counts: &[usize]) -> Result<Vec<u8>, AllocError>
    requires { All (λ count. count < 64) counts.now }
    ensures { IfOk result (λ levels. levels.items ≡ counts.now) }
{
    let mut levels = Vec::new(alloc);
    for count in counts {
        levels.push(*count as u8)?;
    }
    Ok(levels)
}
