//! Who reaches whom.
ghost use Rattle.std.specs.Prelude.{◌≡◌, ◌++◌, length, IfOk, OnOk};
ghost use Rattle.net_questions.specs.Reaching.{ArePairs, hops_in, pair_between, pairs_from};

use crate::hops::{HopsTo, hops_between, hops_to_each};
use crate::pair::Pair;
use net_check::Checked;
use std::alloc::{AllocError, Global};

/// Each two different nodes, in plan order, with the number of moves along rows that lead from the one to the endpoint
/// ID of the other, and back.
pub fn reach(alloc: Global, checked: &Checked) -> Result<Vec<Pair>, AllocError>
    ensures { IfOk result (λ pairs. ArePairs checked.now.0 checked.now.1 pairs.items) }
{
    let hops = hops_to_each(alloc, checked.plan())?;
    let mut pairs = Vec::new(alloc);
    for from in 0..hops.len() {
        add_pairs(&mut pairs, &hops, from)?;
    }
    Ok(pairs)
}

/// Adds a node with each other one.
fn add_pairs(pairs: &mut Vec<Pair>, hops: &[HopsTo], from: usize) -> Result<(), AllocError>
    ensures { OnOk result (pairs.new.items ≡ pairs.old.items ++ pairs_from (length hops.now) (hops_in hops.now) from) }
{
    for to in 0..hops.len() {
        add_pair(pairs, hops, from, to)?;
    }
    Ok(())
}

/// Adds two nodes, if they are different.
#[tactic(auto, using(crate::proofs::Listing::no_pair, crate::proofs::Listing::one_pair))]
fn add_pair(
    pairs: &mut Vec<Pair>,
    hops: &[HopsTo],
    from: usize,
    to: usize,
) -> Result<(), AllocError>
    ensures { OnOk result (pairs.new.items ≡ pairs.old.items ++ pair_between (hops_in hops.now) from to) }
{
    if from == to {
        return Ok(());
    }
    pairs.push(pair_of(hops, from, to))?;
    Ok(())
}

/// Two nodes with the numbers of moves there and back.
fn pair_of(hops: &[HopsTo], from: usize, to: usize) -> Pair
    ensures { result ≡ record { from = from; to = to; there = hops_in hops.now from to; back = hops_in hops.now to from } }
{
    Pair {
        from,
        to,
        there: hops_between(hops, from, to),
        back: hops_between(hops, to, from),
    }
}
