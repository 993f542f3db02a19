//! The first holder of each endpoint ID, ready for look-ups.
ghost use Rattle.std.specs.Prelude.{◌≡◌, ◌+◌, ◌<◌, ◌↔◌, ℕ, Some, IfOk, OnOk, IsTrue, length, option_map, slice_get};
ghost use Rattle.net_tables.specs.Routing.{Holds};
ghost use Rattle.net_rules.{specs.Stretches.{IsStretch}, specs.Following.{EndedBy}, specs.Holders.{IsFirstHolder, HoldersAscend, AreFirstHolders}};

use mctp_transport::Eid;
use plan_values::Plan;
use std::alloc::{AllocError, Global};
use std::marker::Model;

/// An endpoint ID that is held, and the index of the first node that holds it.
#[derive(Clone, Copy, Debug)]
pub struct Holder {
    pub eid: Eid,
    pub node: usize,
}

/// The first holders of the endpoint IDs of a plan, in ascending order of these, so that one is found by halving.
#[derive(Drop)]
pub struct Holders<'a> {
    plan: &'a Plan,
    by_eid: Vec<Holder>,
}

impl<'a> Model for Holders<'a> {
    ghost use Rattle.std.specs.Prelude.{length};
    ghost use Rattle.plan_values.specs.declared.plan.Plan.{Plan};
    ghost use Rattle.net_rules.specs.Holders.{AreFirstHolders};

    ghost Value = { Plan };

    ghost view = { λ h. h.plan.now };

    ghost invariant = { λ h. AreFirstHolders h.plan.now (length h.plan.now.nodes.items) h.by_eid.items };
}

impl<'a> Holders<'a> {
    /// Those of the plan. It takes memory for a list of as many entries as the plan has nodes.
    pub fn of(alloc: Global, plan: &'a Plan) -> Result<Self, AllocError>
        ensures { IfOk result (λ holders. holders ≡ plan.now) }
    {
        Ok(Holders {
            plan,
            by_eid: first_holders(alloc, plan)?,
        })
    }

    /// The first node that holds the endpoint ID, if any does.
    pub fn first(&self, eid: Eid) -> Option<usize>
        ensures { IsFirstHolder self.now eid.value result }
    {
        let holders = self.by_eid.as_slice();
        let index = index_from(holders, eid);
        if stands_at(holders, index, eid) {
            Some(holders[index].node)
        } else {
            None
        }
    }

    /// The end of a stretch from the endpoint ID on that one node holds, or none.
    pub fn border(&self, eid: Eid) -> u16
        ensures { (holder : ℕ) → IsStretch (Holds self.now holder) eid.value result }
    {
        let next = index_from(self.by_eid.as_slice(), eid);
        match self.by_eid.get(next) {
            Some(holder) if holder.eid == eid => u16::from(eid.value) + 1,
            Some(holder) => u16::from(holder.eid.value),
            None => 256,
        }
    }
}

/// The index of the holder of the endpoint ID, or else of the first higher one. It is found by halving.
fn index_from(holders: &[Holder], eid: Eid) -> usize
    requires { HoldersAscend holders.now }
    ensures { EndedBy (λ holder. holder.eid.value + 1) holders.now eid.value result }
{
    holders.partition_point(|holder| holder.eid.value < eid.value)
}

/// Whether the holder at the index holds the endpoint ID.
fn stands_at(holders: &[Holder], index: usize, eid: Eid) -> bool
    ensures { IsTrue result ↔ (option_map (λ holder. holder.eid.value) (slice_get holders.now index) ≡ Some eid.value) }
{
    index < holders.len() && holders[index].eid == eid
}

/// The first holder of each endpoint ID that is held, in ascending order of these.
fn first_holders(alloc: Global, plan: &Plan) -> Result<Vec<Holder>, AllocError>
    ensures { IfOk result (λ holders. AreFirstHolders plan.now (length plan.now.nodes.items) holders.items) }
{
    let mut holders = Vec::with_capacity(alloc, plan.nodes.len())?;
    for node in 0..plan.nodes.len() {
        add_holder(plan, node, &mut holders)?;
    }
    Ok(holders)
}

/// Adds the node to the first holders among those before it, unless one of these holds its endpoint ID.
fn add_holder(plan: &Plan, node: usize, holders: &mut Vec<Holder>) -> Result<(), AllocError>
    requires within { node < length plan.now.nodes.items }
    requires before { AreFirstHolders plan.now node holders.old.items }
    ensures { OnOk result (AreFirstHolders plan.now (node + 1) holders.new.items) }
{
    let eid = plan.nodes[node].eid;
    let index = index_from(holders.as_slice(), eid);
    if stands_at(holders.as_slice(), index, eid) {
        return Ok(());
    }
    holders.insert(index, Holder { eid, node })?;
    Ok(())
}
