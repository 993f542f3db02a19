//! C08 and C09: whose pool an endpoint ID should lie in and doesn't, or shouldn't and does, and what is wrong with a
//! node's own pool.
ghost use Rattle.std.specs.Prelude.{◌≡◌, ℕ, ◌+◌, ◌≤◌, ◌↔◌, IsTrue, Some, None, MatchOption};
ghost use Rattle.net_tables.{specs.Routing.{IsBridge}, specs.Ownership.{owner_of, IsOwnedBy, pool_of, IsInPool, IsInPoolOf}};
ghost use Rattle.net_rules.{specs.Pools.{IsInOwnersPool, IsPoolInRange, LiesInOwnersPool}, specs.declared.rule.Rule.TheVariants.{C08, C09}};
ghost use Rattle.net_explained.{specs.declared.cause.Cause.TheVariants.{PoolOutOfRange, PoolBeyondOwners, PoolsMeet, InPeersPool}, specs.Searches.{IsFirst, IsLeastEid, IsFirstWithEid}, specs.Causes.{IsCauseAt}};

use crate::cause::Cause;
use mctp_transport::Eid;
use net_rules::is_pool_in_range;
use net_tables::lookup::{
    holds, is_bridge, is_in_pool, is_in_pool_of, owner_at, pool_at, pool_end,
};
use plan_values::{Plan, Pool};

/// Whose pool the node's endpoint ID lies outside of, or whose it lies in.
#[tactic(auto, unfolding(net_rules::specs::Pools::IsInItsPool, net_rules::specs::Pools::IsInNoPeersPool))]
pub fn eid_out_of_its_pool(plan: &Plan, node: usize, eid: Eid) -> Option<Cause>
    ensures cause { IsCauseAt plan.now (record { rule = C08; node = node; entry = None; eid = Some eid.value }) result }
    ensures peer { (peer : ℕ) → result ≡ Some (InPeersPool peer) → IsInOwnersPool plan.now node eid.value }
{
    if !holds(plan, node, eid) {
        return None;
    }
    match owner_without(plan, node, eid) {
        Some(owner) => Some(Cause::OutsideOwnersPool { owner }),
        None => match peer_with(plan, node, eid) {
            Some(peer) => Some(Cause::InPeersPool { peer }),
            None => None,
        },
    }
}

/// The node's owner, if it hasn't the endpoint ID in its pool.
#[tactic(auto, unfolding(net_rules::specs::Pools::IsInOwnersPool))]
fn owner_without(plan: &Plan, node: usize, eid: Eid) -> Option<usize>
    ensures { MatchOption result (IsInOwnersPool plan.now node eid.value) (λ owner. IsOwnedBy plan.now node owner × ¬ IsInPoolOf plan.now owner eid.value) }
{
    match owner_at(plan, node) {
        Some(owner) if !is_in_pool_of(plan, owner, eid) => Some(owner),
        _ => None,
    }
}

/// The first bridge with the node's owner, which may be the node itself, that has the endpoint ID in its pool.
fn peer_with(plan: &Plan, node: usize, eid: Eid) -> Option<usize>
    ensures { IsFirst (λ m. IsBridge plan.now m × (owner_of plan.now m ≡ owner_of plan.now node) × IsInPoolOf plan.now m eid.value) result }
{
    let owner = owner_at(plan, node);
    for peer in 0..plan.nodes.len() {
        if is_bridge(plan, peer)
            && owner_at(plan, peer) == owner
            && is_in_pool_of(plan, peer, eid)
        {
            return Some(peer);
        }
    }
    None
}

/// Why the node may not have its pool.
#[tactic(auto, unfolding(net_rules::specs::Pools::HasLawfulPool))]
pub fn unlawful(plan: &Plan, node: usize) -> Option<Cause>
    ensures { IsCauseAt plan.now (record { rule = C09; node = node; entry = None; eid = None }) result }
{
    match pool_at(plan, node) {
        Some(pool) => unlawful_pool(plan, node, pool),
        None => None,
    }
}

/// Why the node may not have this pool, which it has: by itself, by its owner's, by earlier ones.
fn unlawful_pool(plan: &Plan, node: usize, pool: Pool) -> Option<Cause>
    requires { pool_of plan.now node ≡ Some pool }
    ensures cause { IsCauseAt plan.now (record { rule = C09; node = node; entry = None; eid = None }) result }
    ensures range { result ≡ Some PoolOutOfRange → IsBridge plan.now node }
    ensures beyond { (owner : ℕ) (eid : Eid) → result ≡ Some (PoolBeyondOwners owner eid) → IsBridge plan.now node × IsPoolInRange pool }
    ensures meet { (m : ℕ) (eid : Eid) → result ≡ Some (PoolsMeet m eid) → IsBridge plan.now node × IsPoolInRange pool × LiesInOwnersPool plan.now node pool }
{
    if !is_bridge(plan, node) {
        return Some(Cause::PoolOfEndpoint);
    }
    if !is_pool_in_range(pool) {
        return Some(Cause::PoolOutOfRange);
    }
    match beyond_owners(plan, node, pool) {
        Some((owner, eid)) => Some(Cause::PoolBeyondOwners { owner, eid }),
        None => match earlier_meeting(plan, node, pool) {
            Some((earlier, eid)) => Some(Cause::PoolsMeet { earlier, eid }),
            None => None,
        },
    }
}

/// The node's owner and the pool's least endpoint ID that the owner hasn't in its own.
#[tactic(auto, unfolding(net_rules::specs::Pools::LiesInOwnersPool))]
fn beyond_owners(plan: &Plan, node: usize, pool: Pool) -> Option<(usize, Eid)>
    requires { pool.first.value + pool.size ≤ 256 }
    ensures { MatchOption result (LiesInOwnersPool plan.now node pool) (λ found. IsOwnedBy plan.now node found.0 × IsInPool pool found.1.value × ¬ IsInPoolOf plan.now found.0 found.1.value) }
{
    match owner_at(plan, node) {
        Some(owner) => match least_outside_pool_of(plan, owner, pool) {
            Some(eid) => Some((owner, eid)),
            None => None,
        },
        None => None,
    }
}

/// The pool's least endpoint ID that the node hasn't in its own.
fn least_outside_pool_of(plan: &Plan, node: usize, pool: Pool) -> Option<Eid>
    requires { pool.first.value + pool.size ≤ 256 }
    ensures { IsLeastEid (λ e. IsInPool pool e × ¬ IsInPoolOf plan.now node e) result }
{
    match pool_at(plan, node) {
        Some(around) => least_outside(pool, around),
        None => least_in(pool),
    }
}

/// The first pool's least endpoint ID that isn't the other's: its first one, or else the one behind the other pool.
fn least_outside(pool: Pool, around: Pool) -> Option<Eid>
    requires { pool.first.value + pool.size ≤ 256 }
    ensures { IsLeastEid (λ e. IsInPool pool e × ¬ IsInPool around e) result }
{
    if !is_in_pool(around, pool.first) {
        least_in(pool)
    } else if pool_end(around) < pool_end(pool) {
        Some(Eid::new(pool_end(around) as u8))
    } else {
        None
    }
}

/// The pool's least endpoint ID.
fn least_in(pool: Pool) -> Option<Eid>
    ensures { IsLeastEid (IsInPool pool) result }
{
    if pool.size == 0 {
        None
    } else {
        Some(pool.first)
    }
}

/// The first earlier node with the node's owner that has an endpoint ID of the pool in its own, and the least such one.
fn earlier_meeting(plan: &Plan, node: usize, pool: Pool) -> Option<(usize, Eid)>
    ensures { IsFirstWithEid node (λ m e. (owner_of plan.now m ≡ owner_of plan.now node) × IsInPool pool e × IsInPoolOf plan.now m e) result }
{
    for earlier in 0..node {
        if let Some(eid) = common_with(plan, node, earlier, pool) {
            return Some((earlier, eid));
        }
    }
    None
}

/// The pool's least endpoint ID that the other node, if it has the node's owner, has in its own.
fn common_with(plan: &Plan, node: usize, other: usize, pool: Pool) -> Option<Eid>
    ensures { IsLeastEid (λ e. (owner_of plan.now other ≡ owner_of plan.now node) × IsInPool pool e × IsInPoolOf plan.now other e) result }
{
    if owner_at(plan, other) == owner_at(plan, node) {
        least_in_pool_of(plan, other, pool)
    } else {
        None
    }
}

/// The pool's least endpoint ID that the node has in its own.
fn least_in_pool_of(plan: &Plan, node: usize, pool: Pool) -> Option<Eid>
    ensures { IsLeastEid (λ e. IsInPool pool e × IsInPoolOf plan.now node e) result }
{
    match pool_at(plan, node) {
        Some(other) => least_in_both(pool, other),
        None => None,
    }
}

/// The least endpoint ID of both pools: if there is one, the first of the pool that begins later.
fn least_in_both(pool: Pool, other: Pool) -> Option<Eid>
    ensures { IsLeastEid (λ e. IsInPool pool e × IsInPool other e) result }
{
    let eid = if pool.first.value < other.first.value {
        other.first
    } else {
        pool.first
    };
    if is_in_pool(pool, eid) && is_in_pool(other, eid) {
        Some(eid)
    } else {
        None
    }
}
