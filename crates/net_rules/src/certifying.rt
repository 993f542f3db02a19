//! `certify`: the certificate of a plan, or why there is none.
ghost use Rattle.std.specs.Prelude.{◌≡◌, ◌+◌, IfOk, IfErr, OnOk};
ghost use Rattle.plan_values.{specs.CertificateValues.{certificate_value}, specs.PlanValues.{plan_value}, specs.ShortText.{HasFewPlaces}, specs.WellFormed.{IsWellFormed}};
ghost use Rattle.net_rules.{specs.Rules.{Accepts}, specs.Faults.{order_of}, specs.declared.rule.Rule.TheVariants.{C07, C10, C14}, specs.PlanFaults.{PlanMeets}, specs.Certificates.{IsExact, IsOnlyExact, IsMadeBefore, NamesObstacle, RulesOutCertificates}};

pub mod chains;
mod exact_levels;
pub mod exact_move_ranks;
mod exact_places;
mod exact_ranks;
mod handle_index;
mod levels;
mod longest_ways;
mod mixed_loops;
mod next_nodes;
mod rank_ranges;
mod stretches;
mod tables;
mod walks;

use crate::certify_error::CertifyError;
use crate::certifying::exact_levels::exact_levels;
use crate::certifying::exact_places::exact_places;
use crate::certifying::exact_ranks::exact_ranks;
use crate::plan_fault::first_of_plan_rule;
use crate::plan_index::PlanIndex;
use crate::rule::{RULES, Rule};
use plan_values::{Certificate, Plan};
use std::alloc::Global;

/// The certificate of a plan: each node's level is the number of owners above it, each record's place is where the next
/// handles lead to it, and the rank of each node and endpoint ID is the number of moves along rows from the node to the
/// endpoint ID's holder, or to a node without a row for it. It is answered exactly where a certificate exists.
/// Otherwise the error says why there is none: the first cause in the order of the rules, unless memory ran out.
#[tactic(auto, using(crate::proofs::ExactCertificates::made_exact, crate::proofs::ExactCertificates::made_meets, crate::proofs::ExactCertificates::exact_few, crate::proofs::Obstacles::none_made, crate::proofs::ExactCertificates::exact_accepted, crate::proofs::ExactCertificates::exact_only))]
pub fn certify(alloc: Global, plan: &Plan) -> Result<Certificate, CertifyError>
    ensures accepted { IfOk result (λ certificate. Accepts plan.now certificate) }
    ensures exact { IfOk result (λ certificate. IsExact plan.now certificate) }
    ensures only { IfOk result (λ certificate. IsOnlyExact plan.now certificate) }
    ensures well_formed { IfOk result (λ certificate. IsWellFormed (plan_value plan.now) (certificate_value certificate)) }
    ensures few { IfOk result (λ certificate. HasFewPlaces (certificate_value certificate)) }
    ensures obstacle { IfErr result (λ error. NamesObstacle plan.now error) }
    ensures none { IfErr result (λ error. RulesOutCertificates plan.now error) }
{
    let mut made = Certificate {
        levels: Vec::new(alloc),
        places: Vec::new(alloc),
        ranks: Vec::new(alloc),
    };
    let index = PlanIndex::of(alloc, plan)?;
    for rule in RULES {
        meet_rule(alloc, plan, &index, rule, &mut made)?;
    }
    Ok(made)
}

/// Sees whether the plan meets the next rule, and adds to the certificate what the rule demands of it.
fn meet_rule(
    alloc: Global,
    plan: &Plan,
    index: &PlanIndex<'_>,
    rule: Rule,
    made: &mut Certificate,
) -> Result<(), CertifyError>
    requires index { index.now ≡ plan.now }
    requires made { IsMadeBefore plan.now (order_of rule) made.old }
    ensures more { OnOk result (IsMadeBefore plan.now (order_of rule + 1) made.new) }
    ensures obstacle { IfErr result (λ error. NamesObstacle plan.now error) }
{
    if let Some(fault) = first_of_plan_rule(alloc, plan, index, rule)? {
        return Err(CertifyError::Fault(fault));
    }
    add_part(alloc, plan, rule, made)
}

/// Adds to the certificate what a rule demands of it.
#[tactic(auto, using(crate::proofs::Obstacles::more_alone))]
fn add_part(
    alloc: Global,
    plan: &Plan,
    rule: Rule,
    made: &mut Certificate,
) -> Result<(), CertifyError>
    requires before { IsMadeBefore plan.now (order_of rule) made.old }
    requires met { PlanMeets plan.now rule }
    ensures more { OnOk result (IsMadeBefore plan.now (order_of rule + 1) made.new) }
    ensures obstacle { IfErr result (λ error. NamesObstacle plan.now error) }
{
    match rule {
        Rule::C07 => add_levels(alloc, plan, made),
        Rule::C10 => add_ranks(alloc, plan, made),
        Rule::C14 => add_places(alloc, plan, made),
        _ => Ok(()),
    }
}

/// Adds the levels.
#[tactic(auto, using(crate::proofs::Obstacles::more_levels, crate::proofs::Obstacles::owner_loop_named))]
fn add_levels(alloc: Global, plan: &Plan, made: &mut Certificate) -> Result<(), CertifyError>
    requires before { IsMadeBefore plan.now (order_of C07) made.old }
    requires met { PlanMeets plan.now C07 }
    ensures more { OnOk result (IsMadeBefore plan.now (order_of C07 + 1) made.new) }
    ensures obstacle { IfErr result (λ error. NamesObstacle plan.now error) }
{
    made.levels = exact_levels(alloc, plan)?;
    Ok(())
}

/// Adds the ranks.
#[tactic(auto, using(crate::proofs::Obstacles::more_ranks, crate::proofs::Obstacles::routing_loop_named, crate::proofs::Obstacles::made_apart, crate::proofs::Obstacles::made_in_range))]
fn add_ranks(alloc: Global, plan: &Plan, made: &mut Certificate) -> Result<(), CertifyError>
    requires before { IsMadeBefore plan.now (order_of C10) made.old }
    requires met { PlanMeets plan.now C10 }
    ensures more { OnOk result (IsMadeBefore plan.now (order_of C10 + 1) made.new) }
    ensures obstacle { IfErr result (λ error. NamesObstacle plan.now error) }
{
    made.ranks = exact_ranks(alloc, plan)?;
    Ok(())
}

/// Adds the places.
#[tactic(auto, using(crate::proofs::Obstacles::more_places, crate::proofs::Obstacles::bad_chain_named, crate::proofs::Obstacles::made_handles, crate::proofs::Obstacles::made_records))]
fn add_places(alloc: Global, plan: &Plan, made: &mut Certificate) -> Result<(), CertifyError>
    requires before { IsMadeBefore plan.now (order_of C14) made.old }
    requires met { PlanMeets plan.now C14 }
    ensures more { OnOk result (IsMadeBefore plan.now (order_of C14 + 1) made.new) }
    ensures obstacle { IfErr result (λ error. NamesObstacle plan.now error) }
{
    made.places = exact_places(alloc, plan)?;
    Ok(())
}
