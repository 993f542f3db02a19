//! The places of a plan's certificate.
ghost use Rattle.std.specs.Prelude.{◌≡◌, ◌<◌, ◌+◌, ℕ, [], ◌∷◌, ◌++◌, IfOk, OnOk, IfErr, length};
ghost use Rattle.net_rules.{specs.RecordChains.{HaveNewHandles}, specs.Certificates.{AreExactPlaces, ArePlacesBefore, NamesBadChain}};
ghost use Rattle.net_tables.specs.Repositories.{records_of, HasRecords};

use crate::certify_error::CertifyError;
use crate::certifying::chains::{Chained, chain_of};
use net_tables::lookup::records_at;
use plan_values::{NodePlaces, Plan};
use std::alloc::{AllocError, Global};

/// The places of each terminus's records, in plan order, or the first bad chain.
#[tactic(auto, using(crate::proofs::Listed::no_places, crate::proofs::Listed::places_all))]
pub fn exact_places(alloc: Global, plan: &Plan) -> Result<Vec<NodePlaces>, CertifyError>
    requires handles { (n : ℕ) → HaveNewHandles (records_of plan.now n) }
    requires some { (n : ℕ) → HasRecords plan.now n }
    ensures exact { IfOk result (λ given. AreExactPlaces plan.now given.items) }
    ensures obstacle { IfErr result (λ error. NamesBadChain plan.now error) }
{
    let mut given = Vec::new(alloc);
    for node in 0..plan.nodes.len() {
        add_places(alloc, plan, node, &mut given)?;
    }
    Ok(given)
}

/// Adds the places of the next node's records, if it has a terminus.
#[tactic(auto, using(crate::proofs::Listed::places_pushed, crate::proofs::Listed::empty_skipped, crate::proofs::Listed::bad_chain_first))]
fn add_places(
    alloc: Global,
    plan: &Plan,
    node: usize,
    given: &mut Vec<NodePlaces>,
) -> Result<(), CertifyError>
    requires within { node < length plan.now.nodes.items }
    requires handles { HaveNewHandles (records_of plan.now node) }
    requires some { HasRecords plan.now node }
    requires before { ArePlacesBefore plan.now node given.old.items }
    ensures more { OnOk result (ArePlacesBefore plan.now (node + 1) given.new.items) }
    ensures obstacle { IfErr result (λ error. NamesBadChain plan.now error) }
{
    let records = records_at(plan, node);
    if records.is_empty() {
        return Ok(());
    }
    match chain_of(alloc, records)? {
        Chained::Places(places) => Ok(push_places(given, NodePlaces { node, places })?),
        Chained::Bad(kind, entry) => Err(CertifyError::BadChain(node, kind, entry)),
    }
}

/// Adds the places of a node's records.
fn push_places(given: &mut Vec<NodePlaces>, one: NodePlaces) -> Result<(), AllocError>
    ensures { OnOk result (given.new.items ≡ given.old.items ++ one ∷ []) }
{
    given.push(one)?;
    Ok(())
}
