//! `certify_move`: the certificate of a move, or why there is none.
ghost use Rattle.std.specs.Prelude.{◌≡◌, ◌<◌, ◌↔◌, IsTrue, IfOk, IfErr, OnOk};
ghost use Rattle.plan_values.{specs.CertificateValues.{certificate_value}, specs.PlanValues.{plan_value}, specs.ShortText.{HasFewPlaces}, specs.WellFormed.{IsWellFormed}};
ghost use Rattle.net_rules.{specs.declared.rule.Rule.TheVariants.{C10}, specs.Faults.{order_of}, specs.Rules.{Accepts}, specs.MoveRules.{AcceptsMove}, specs.Certificates.{IsExact}, specs.MoveObstacles.{DifferInRowsAlone, RowsMeetBefore, IsExactForMove, IsOnlyExactForMove, NamesMoveObstacle, RulesOutMoveCertificates, obstacle_of_old}};

use crate::asked::Asked;
use crate::certify_error::CertifyError;
use crate::certifying::certify;
use crate::certifying::exact_move_ranks::exact_move_ranks;
use crate::first_fault::first_of_asked;
use crate::first_move_fault::{fault_of_plan, meet_frames, meet_rules_of_move};
use crate::move_error::MoveError;
use crate::move_obstacle::MoveObstacle;
use crate::plan_index::PlanIndex;
use crate::rule::Rule;
use plan_values::{Certificate, Plan};
use std::alloc::Global;

/// The certificate of a move. Levels and places are those of the old plan's certificate. The rank of each node and
/// endpoint ID is the number of moves of the longest way, each along a row of either plan, from the node to the
/// endpoint ID's holder, or to a node without a row for it in both. It is answered exactly where `check_move` accepts
/// some certificate. Otherwise the obstacle says why it accepts none: the first cause in the order in which it asks,
/// unless memory ran out.
pub fn certify_move(alloc: Global, before: &Plan, after: &Plan) -> Result<Certificate, MoveObstacle>
    ensures accepted { IfOk result (λ certificate. AcceptsMove before.now after.now certificate) }
    ensures exact { IfOk result (λ certificate. IsExactForMove before.now after.now certificate) }
    ensures only { IfOk result (λ certificate. IsOnlyExactForMove before.now after.now certificate) }
    ensures well_formed { IfOk result (λ certificate. IsWellFormed (plan_value before.now) (certificate_value certificate)) }
    ensures few { IfOk result (λ certificate. HasFewPlaces (certificate_value certificate)) }
    ensures obstacle { IfErr result (λ obstacle. NamesMoveObstacle before.now after.now obstacle) }
    ensures none { IfErr result (λ obstacle. RulesOutMoveCertificates before.now after.now obstacle) }
{
    meet_frames(before, after)?;
    let mut made = certify_old(alloc, before, after)?;
    meet_new_rows(alloc, before, after, &made)?;
    made.ranks = exact_move_ranks(alloc, before, after)?;
    meet_rules_of_move(alloc, before, after, &made)?;
    Ok(made)
}

/// The certificate of the old plan by itself.
fn certify_old(alloc: Global, before: &Plan, after: &Plan) -> Result<Certificate, MoveObstacle>
    requires { DifferInRowsAlone before.now after.now }
    ensures accepted { IfOk result (λ certificate. Accepts before.now certificate) }
    ensures exact { IfOk result (λ certificate. IsExact before.now certificate) }
    ensures obstacle { IfErr result (λ obstacle. NamesMoveObstacle before.now after.now obstacle) }
{
    match certify(alloc, before) {
        Ok(certificate) => Ok(certificate),
        Err(error) => Err(old_obstacle(error)),
    }
}

/// What rules certificates of the old plan out, as an obstacle of the move.
#[tactic(auto, using(crate::proofs::MoveCertificates::old_is))]
fn old_obstacle(error: CertifyError) -> MoveObstacle
    ensures { result ≡ obstacle_of_old error }
{
    match error {
        CertifyError::OutOfMemory => MoveObstacle::OutOfMemory,
        error => MoveObstacle::Old(error),
    }
}

/// Sees whether the new plan's rows meet the rules that come before ranks; the others are asked once the ranks are
/// made. The old plan's certificate meets what is asked before these.
fn meet_new_rows(
    alloc: Global,
    before: &Plan,
    after: &Plan,
    made: &Certificate,
) -> Result<(), MoveObstacle>
    requires frames { DifferInRowsAlone before.now after.now }
    requires accepted { Accepts before.now made.now }
    ensures met { OnOk result (RowsMeetBefore after.now made.now (order_of C10)) }
    ensures obstacle { IfErr result (λ obstacle. NamesMoveObstacle before.now after.now obstacle) }
{
    let index = PlanIndex::of(alloc, after)?;
    let Some(fault) = first_of_asked(alloc, after, &index, made, Asked::After)? else {
        return Ok(());
    };
    if comes_before_ranks(fault.rule) {
        return Err(MoveObstacle::Fault(MoveError::New(fault_of_plan(fault))));
    }
    Ok(())
}

/// Whether the rule is asked before C10.
fn comes_before_ranks(rule: Rule) -> bool
    ensures { IsTrue result ↔ (order_of rule < order_of C10) }
{
    !matches!(
        rule,
        Rule::C10 | Rule::C11 | Rule::C12 | Rule::C13 | Rule::C14 | Rule::C15 | Rule::C16
    )
}
