//! The search for the first fault of a plan and a certificate.
ghost use Rattle.std.specs.Prelude.{◌≡◌, ◌<◌, length, IfOk};
ghost use Rattle.net_rules.{specs.Rules.{Demands}, specs.Asked.{DemandsAsked}, specs.Search.{IsFirstSpot, IsFirstOfAll}, specs.MoveSearch.{IsFirstByRule, IsFirstByRules}};

use crate::asked::Asked;
use crate::certified_ranks::CertifiedRanks;
use crate::fault::Fault;
use crate::plan_fault::first_of_plan_at;
use crate::plan_index::PlanIndex;
use crate::plans::Plans;
use crate::rule::{RULES, Rule};
use crate::rules::{chains, owners, ranks, superfluous};
use crate::spot::Spot;
use plan_values::{Certificate, Plan};
use std::alloc::{AllocError, Global};

/// The first fault, by the order of the rules.
pub fn first_of_all(
    alloc: Global,
    plan: &Plan,
    certificate: &Certificate,
) -> Result<Option<Fault>, AllocError>
    ensures { IfOk result (IsFirstOfAll plan.now certificate.now) }
{
    let index = PlanIndex::of(alloc, plan)?;
    first_of_asked(alloc, plan, &index, certificate, Asked::Alone)
}

/// The first fault of the rules that are asked, by their order.
pub fn first_of_asked(
    alloc: Global,
    plan: &Plan,
    index: &PlanIndex<'_>,
    certificate: &Certificate,
    asked: Asked,
) -> Result<Option<Fault>, AllocError>
    requires { index.now ≡ plan.now }
    ensures { IfOk result (IsFirstByRules (DemandsAsked asked plan.now certificate.now)) }
{
    for rule in RULES {
        if let Some(fault) = first_where_asked(alloc, plan, index, certificate, asked, rule)? {
            return Ok(Some(fault));
        }
    }
    Ok(None)
}

/// The rule's first fault, none where it isn't asked.
fn first_where_asked(
    alloc: Global,
    plan: &Plan,
    index: &PlanIndex<'_>,
    certificate: &Certificate,
    asked: Asked,
    rule: Rule,
) -> Result<Option<Fault>, AllocError>
    requires { index.now ≡ plan.now }
    ensures { IfOk result (IsFirstByRule (DemandsAsked asked plan.now certificate.now) rule) }
{
    if asked.asks(rule) {
        first_of_rule(alloc, plan, index, certificate, rule)
    } else {
        Ok(None)
    }
}

/// The rule's first fault.
fn first_of_rule(
    alloc: Global,
    plan: &Plan,
    index: &PlanIndex<'_>,
    certificate: &Certificate,
    rule: Rule,
) -> Result<Option<Fault>, AllocError>
    requires { index.now ≡ plan.now }
    ensures { IfOk result (IsFirstByRule (Demands plan.now certificate.now) rule) }
{
    let ranks = ranks_for(alloc, plan, certificate, rule)?;
    for node in 0..plan.nodes.len() {
        if let Some(spot) = first_at(alloc, plan, index, certificate, &ranks, rule, node)? {
            return Ok(Some(Fault {
                rule,
                node,
                entry: spot.entry,
                eid: spot.eid,
            }));
        }
    }
    Ok(None)
}

/// The certified ranks, with the ranges of each node at hand where the rule looks them up.
fn ranks_for<'a>(
    alloc: Global,
    plan: &Plan,
    certificate: &'a Certificate,
    rule: Rule,
) -> Result<CertifiedRanks<'a>, AllocError>
    ensures { IfOk result (λ ranks. ranks ≡ certificate.now) }
{
    match rule {
        Rule::C10 => CertifiedRanks::of(alloc, certificate, plan.nodes.len()),
        _ => CertifiedRanks::of(alloc, certificate, 0),
    }
}

/// The first spot at the node where the rule is broken.
pub(crate) fn first_at(
    alloc: Global,
    plan: &Plan,
    index: &PlanIndex<'_>,
    certificate: &Certificate,
    ranks: &CertifiedRanks<'_>,
    rule: Rule,
    node: usize,
) -> Result<Option<Spot>, AllocError>
    requires within { node < length plan.now.nodes.items }
    requires index { index.now ≡ plan.now }
    requires ranks { ranks.now ≡ certificate.now }
    ensures { IfOk result (IsFirstSpot (Demands plan.now certificate.now rule node)) }
{
    match rule {
        Rule::C07 => Ok(owners::unlawful_owner(plan, certificate, node)),
        Rule::C10 => Ok(ranks::row_without_fall(plan, index, ranks, node)),
        Rule::C14 => chains::unchained_record(alloc, plan, certificate, node),
        Rule::C16 => Ok(superfluous::superfluous_entry(
            &Plans {
                plan: index,
                after: None,
            },
            certificate,
            node,
        )),
        rule => first_of_plan_at(alloc, plan, index, rule, node),
    }
}
