//! C08 and C09: the endpoint IDs of owned nodes come from their owners' pools, and pools lie within their owners' and
//! apart.
ghost use Rattle.std.specs.Prelude.{ℕ, ◌<◌, ◌↔◌, IsTrue, length};
ghost use Rattle.net_tables.specs.Ownership.{IsInPool, IsInPoolOf};
ghost use Rattle.net_rules.{specs.Pools.{IsInOwnersPool, IsInNoPeersPool, IsInItsPool, IsPoolInRange, LiesInOwnersPool, LiesApartFromEarlierPools, IsLawfulPool, HasLawfulPool}, specs.Rules.{PlanDemands}, specs.Search.{IsFirstSpot}};

use crate::rule::Rule;
use crate::spot::Spot;
use mctp_transport::Eid;
use net_tables::lookup::{is_bridge, is_in_pool_of, owner_at, pool_at, pool_end};
use plan_values::{Plan, Pool};

/// Where the node's endpoint ID lies outside the pool of its owner, or in a pool of a bridge with the same owner.
pub fn eid_out_of_its_pool(plan: &Plan, node: usize) -> Option<Spot>
    requires { node < length plan.now.nodes.items }
    ensures { IsFirstSpot (PlanDemands plan.now Rule.C08 node) result }
{
    let eid = plan.nodes[node].eid;
    if is_in_its_pool(plan, node, eid) {
        return None;
    }
    Some(Spot::at_eid(eid))
}

/// Where the node may not have its pool.
pub fn unlawful_pool(plan: &Plan, node: usize) -> Option<Spot>
    requires { node < length plan.now.nodes.items }
    ensures { IsFirstSpot (PlanDemands plan.now Rule.C09 node) result }
{
    if has_lawful_pool(plan, node) {
        return None;
    }
    Some(Spot::at_node())
}

/// Whether the endpoint ID lies in the pool of the node's owner, and in no pool of a bridge with that owner.
#[tactic(auto, unfolding(crate::specs::Pools::IsInItsPool))]
pub(crate) fn is_in_its_pool(plan: &Plan, node: usize, eid: Eid) -> bool
    ensures { IsTrue result ↔ IsInItsPool plan.now node eid.value }
{
    is_in_owners_pool(plan, node, eid) && is_in_no_peers_pool(plan, node, eid)
}

/// Whether the endpoint ID lies in the pool of the node's owner, if it has an owner.
#[tactic(auto, unfolding(crate::specs::Pools::IsInOwnersPool))]
fn is_in_owners_pool(plan: &Plan, node: usize, eid: Eid) -> bool
    ensures { IsTrue result ↔ IsInOwnersPool plan.now node eid.value }
{
    match owner_at(plan, node) {
        Some(owner) => is_in_pool_of(plan, owner, eid),
        None => true,
    }
}

/// Whether no bridge with the node's owner, the node itself among them, has the endpoint ID in its pool.
#[tactic(auto, unfolding(crate::specs::Pools::IsInNoPeersPool))]
fn is_in_no_peers_pool(plan: &Plan, node: usize, eid: Eid) -> bool
    ensures { IsTrue result ↔ IsInNoPeersPool plan.now node eid.value }
{
    let owner = owner_at(plan, node);
    for peer in 0..plan.nodes.len() {
        if is_bridge(plan, peer)
            && owner_at(plan, peer) == owner
            && is_in_pool_of(plan, peer, eid)
        {
            return false;
        }
    }
    true
}

/// Whether the node's pool, if it has one, is lawful.
#[tactic(auto, unfolding(crate::specs::Pools::HasLawfulPool))]
pub(crate) fn has_lawful_pool(plan: &Plan, node: usize) -> bool
    ensures { IsTrue result ↔ HasLawfulPool plan.now node }
{
    match pool_at(plan, node) {
        Some(pool) => is_lawful_pool(plan, node, pool),
        None => true,
    }
}

/// Whether the node may have the pool.
#[tactic(auto, unfolding(crate::specs::Pools::IsLawfulPool))]
fn is_lawful_pool(plan: &Plan, node: usize, pool: Pool) -> bool
    ensures { IsTrue result ↔ IsLawfulPool plan.now node pool }
{
    is_bridge(plan, node)
        && is_pool_in_range(pool)
        && lies_in_owners_pool(plan, node, pool)
        && lies_apart_from_earlier_pools(plan, node, pool)
}

/// Whether the pool has an endpoint ID, and only such as can be held.
#[tactic(auto, unfolding(crate::specs::Pools::IsPoolInRange))]
pub fn is_pool_in_range(pool: Pool) -> bool
    ensures { IsTrue result ↔ IsPoolInRange pool }
{
    1 <= pool.size && 8 <= pool.first.value && pool_end(pool) <= 255
}

/// Whether the pool lies in that of the node's owner, if it has an owner.
#[tactic(auto, unfolding(crate::specs::Pools::LiesInOwnersPool))]
fn lies_in_owners_pool(plan: &Plan, node: usize, pool: Pool) -> bool
    ensures { IsTrue result ↔ LiesInOwnersPool plan.now node pool }
{
    match owner_at(plan, node) {
        Some(owner) => lies_in_pool_of(plan, owner, pool),
        None => true,
    }
}

/// Whether the node has a pool with each endpoint ID of the given one in it.
fn lies_in_pool_of(plan: &Plan, node: usize, pool: Pool) -> bool
    ensures { IsTrue result ↔ ((e : ℕ) → IsInPool pool e → IsInPoolOf plan.now node e) }
{
    match pool_at(plan, node) {
        Some(around) => lies_within(pool, around),
        None => pool.size == 0,
    }
}

/// Whether each endpoint ID of the one pool lies in the other.
fn lies_within(pool: Pool, around: Pool) -> bool
    ensures { IsTrue result ↔ ((e : ℕ) → IsInPool pool e → IsInPool around e) }
{
    pool.size == 0 || (around.first.value <= pool.first.value && pool_end(pool) <= pool_end(around))
}

/// Whether no earlier node with the node's owner has an endpoint ID of the pool in its own.
#[tactic(auto, unfolding(crate::specs::Pools::LiesApartFromEarlierPools))]
fn lies_apart_from_earlier_pools(plan: &Plan, node: usize, pool: Pool) -> bool
    ensures { IsTrue result ↔ LiesApartFromEarlierPools plan.now node pool }
{
    let owner = owner_at(plan, node);
    for earlier in 0..node {
        if owner_at(plan, earlier) == owner && !lies_apart_from_pool_of(plan, earlier, pool) {
            return false;
        }
    }
    true
}

/// Whether the node has no pool with an endpoint ID of the given one in it.
fn lies_apart_from_pool_of(plan: &Plan, node: usize, pool: Pool) -> bool
    ensures { IsTrue result ↔ ((e : ℕ) → IsInPool pool e → ¬ IsInPoolOf plan.now node e) }
{
    match pool_at(plan, node) {
        Some(other) => are_apart(pool, other),
        None => true,
    }
}

/// Whether no endpoint ID lies in both pools.
fn are_apart(pool: Pool, other: Pool) -> bool
    ensures { IsTrue result ↔ ((e : ℕ) → IsInPool pool e → ¬ IsInPool other e) }
{
    pool.eids().is_apart_from(other.eids())
}
