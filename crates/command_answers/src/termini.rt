//! The termini of a plan, as they are planned, and the network of them.
ghost use Rattle.std.{specs.Prelude.{◌≡◌, ◌++◌, IfOk, OnOk, map, option_map}, specs.Option.{option_to_list}};
ghost use Rattle.pdr_repository.specs.BlockTermini.{block_tid, block_records};
ghost use Rattle.net_tables.specs.Repositories.{terminus_of, RecordsHaveOrder};
ghost use Rattle.net_runs.{specs.Termini.{terminus_at_start}, specs.Walkers.{walked_at_start}};
ghost use Rattle.net_check.specs.Accepted.{IsAccepted};
ghost use Rattle.net_sim.{specs.Dealing.{resting, planned_termini}, specs.Networks.{network_value, checked_of}, specs.WalkedStanding.{StandsForWalked}};

use crate::repositories::records_by_place;
use net_check::AcceptedNetwork;
use net_sim::Network;
use net_tables::lookup::terminus_at;
use pdr_repository::BlockTerminus;
use plan_values::{Certificate, Plan};
use pldm_message::Tid;
use std::alloc::{AllocError, Global};

/// The network of what was checked, with the termini that are planned, in which nothing has happened yet.
pub fn planned_network<'a>(
    alloc: Global,
    accepted: AcceptedNetwork<'a>,
) -> Result<Network<'a, BlockTerminus>, AllocError>
    ensures accepted { IsAccepted accepted.entry.0 accepted.entry.1 }
    ensures checked { IfOk result (λ network. checked_of network ≡ accepted.entry) }
    ensures stands { IfOk result (λ network. StandsForWalked (network_value block_tid block_records network)
        (walked_at_start accepted.entry.0.plan accepted.entry.1)) }
{
    let termini = planned_termini(alloc, accepted.plan(), accepted.certificate())?;
    Network::start(alloc, accepted, termini)
}

/// The termini of a plan, in the order of its nodes.
fn planned_termini(
    alloc: Global,
    plan: &Plan,
    certificate: &Certificate,
) -> Result<Vec<BlockTerminus>, AllocError>
    requires { RecordsHaveOrder plan.now certificate.now }
    ensures { IfOk result (λ termini. map (resting block_tid block_records) termini.items ≡ planned_termini plan.now certificate.now) }
{
    let mut termini = Vec::new(alloc);
    for node in 0..plan.nodes.len() {
        push_terminus(
            planned_terminus(alloc, plan, certificate, node)?,
            &mut termini,
        )?;
    }
    Ok(termini)
}

/// Adds the terminus, if there is one.
fn push_terminus(
    found: Option<BlockTerminus>,
    termini: &mut Vec<BlockTerminus>,
) -> Result<(), AllocError>
    ensures { OnOk result (termini.new.items ≡ termini.old.items ++ option_to_list found) }
{
    if let Some(terminus) = found {
        termini.push(terminus)?;
    }
    Ok(())
}

/// The terminus of a node as it is planned, if the node has one.
pub fn planned_terminus(
    alloc: Global,
    plan: &Plan,
    certificate: &Certificate,
    node: usize,
) -> Result<Option<BlockTerminus>, AllocError>
    requires { RecordsHaveOrder plan.now certificate.now }
    ensures { IfOk result (λ terminus. option_map (resting block_tid block_records) terminus ≡ terminus_at_start plan.now certificate.now node) }
{
    let Some(tid) = tid_at(plan, node) else {
        return Ok(None);
    };
    let records = records_by_place(alloc, plan, certificate, node)?;
    Ok(Some(BlockTerminus::new(alloc, tid, records)?))
}

/// The TID of a node's terminus, if it has one.
fn tid_at(plan: &Plan, node: usize) -> Option<Tid>
    ensures { option_map (λ tid. tid.value) result ≡ option_map (λ t. t.tid) (terminus_of plan.now node) }
{
    Some(Tid::new(terminus_at(plan, node)?.tid))
}
