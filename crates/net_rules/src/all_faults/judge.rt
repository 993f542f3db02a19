//! By what faults are found: a plan and its certificate, with what is looked up often.
ghost use Rattle.std.specs.Prelude.{◌≡◌, IfOk, option_map};

use crate::all_faults::{by_certificate, by_plan};
use crate::certified_ranks::CertifiedRanks;
use crate::first_fault::first_at;
use crate::plan_fault::first_of_plan_at;
use crate::plan_index::PlanIndex;
use crate::rule::Rule;
use crate::spot::Spot;
use mctp_transport::Eid;
use plan_values::{Certificate, Plan};
use std::alloc::{AllocError, Global};

/// A plan, its index, and, where there is a certificate, its ranks.
#[derive(Drop)]
pub struct Judge<'a> {
    pub plan: &'a Plan,
    pub index: PlanIndex<'a>,
    pub ranks: Option<CertifiedRanks<'a>>,
    pub ghost same: { index ≡ plan.now },
}

impl<'a> Judge<'a> {
    ghost use Rattle.std.specs.Prelude.{◌≡◌, ◌↔◌, ◌<◌, ℕ, Option, IsTrue, IfOk, IfSome, length, option_map};
    ghost use Rattle.net_tables.specs.Routing.{eid_number};
    ghost use Rattle.net_rules.{specs.FaultLists.{DemandsOf}, specs.Rules.{PlanDemands, CertificateDemands}, specs.Search.{IsFirstSpot}};

    /// Of the plan, and of the certificate if there is one.
    pub fn of(
        alloc: Global,
        plan: &'a Plan,
        certificate: Option<&'a Certificate>,
    ) -> Result<Self, AllocError>
        ensures { IfOk result (λ judge. (judge.plan.now ≡ plan.now) × (judge.ranks ≡ option_map (λ c. c.now) certificate.entry)) }
    {
        let index = PlanIndex::of(alloc, plan)?;
        let ranks = ranks_of(alloc, plan, certificate)?;
        Ok(Judge { plan, index, ranks })
    }

    /// Whether the rule is met everywhere at the node, by the search for the first place where it isn't.
    pub fn is_met_at_node(&self, alloc: Global, rule: Rule, node: usize) -> Result<bool, AllocError>
        requires { node < length self.now.plan.now.nodes.items }
        ensures { IfOk result (λ met. IsTrue met → (entry eid : Option ℕ) → DemandsOf self.now.plan.now self.now.ranks rule node entry eid) }
    {
        let spot = self.first_spot(alloc, rule, node)?;
        Ok(spot.is_none())
    }

    /// The first place at the node where the rule isn't met.
    fn first_spot(&self, alloc: Global, rule: Rule, node: usize) -> Result<Option<Spot>, AllocError>
        requires { node < length self.now.plan.now.nodes.items }
        ensures { IfOk result (IsFirstSpot (DemandsOf self.now.plan.now self.now.ranks rule node)) }
    {
        let (plan, index) = (self.plan, &self.index);
        match &self.ranks {
            Some(ranks) => first_at(alloc, plan, index, ranks.certificate(), ranks, rule, node),
            None => first_of_plan_at(alloc, plan, index, rule, node),
        }
    }

    /// Whether the rule is met at a row or a record of the node, or at the node itself, and an endpoint ID or none.
    pub fn is_met(&self, rule: Rule, node: usize, entry: Option<usize>, eid: Option<Eid>) -> bool
        requires { node < length self.now.plan.now.nodes.items }
        ensures { IsTrue result ↔ DemandsOf self.now.plan.now self.now.ranks rule node entry (eid_number eid) }
    {
        self.is_met_by_plan(rule, node, entry, eid)
            && self.is_met_by_certificate(rule, node, entry, eid)
    }

    /// The same of the plan alone.
    fn is_met_by_plan(
        &self,
        rule: Rule,
        node: usize,
        entry: Option<usize>,
        eid: Option<Eid>,
    ) -> bool
        requires { node < length self.now.plan.now.nodes.items }
        ensures { IsTrue result ↔ PlanDemands self.now.plan.now rule node entry (eid_number eid) }
    {
        let plan = self.plan;
        match entry {
            None => match eid {
                None => by_plan::is_met_at_node(plan, rule, node),
                Some(eid) => by_plan::is_met_at_eid(plan, &self.index, rule, node, eid),
            },
            Some(entry) => match eid {
                None => by_plan::is_met_at_entry(plan, rule, node, entry),
                Some(eid) => {
                    by_plan::is_met_at_entry_eid(plan, &self.index, rule, node, entry, eid)
                }
            },
        }
    }

    /// The same of the certificate alone; always where there is none.
    fn is_met_by_certificate(
        &self,
        rule: Rule,
        node: usize,
        entry: Option<usize>,
        eid: Option<Eid>,
    ) -> bool
        requires { node < length self.now.plan.now.nodes.items }
        ensures { IsTrue result ↔ IfSome self.now.ranks (λ cert. CertificateDemands self.now.plan.now cert rule node entry (eid_number eid)) }
    {
        match &self.ranks {
            Some(ranks) => by_certificate::is_met(self.plan, ranks, rule, node, entry, eid),
            None => true,
        }
    }
}

/// The ranks of the certificate, if there is one, with the ranges of each node at hand.
fn ranks_of<'a>(
    alloc: Global,
    plan: &Plan,
    certificate: Option<&'a Certificate>,
) -> Result<Option<CertifiedRanks<'a>>, AllocError>
    ensures { IfOk result (λ ranks. ranks ≡ option_map (λ c. c.now) certificate.entry) }
{
    match certificate {
        Some(certificate) => {
            let ranks = CertifiedRanks::of(alloc, certificate, plan.nodes.len())?;
            Ok(Some(ranks))
        }
        None => Ok(None),
    }
}
