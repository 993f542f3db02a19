//! The search for the first fault of a move.
ghost use Rattle.std.specs.Prelude.{◌≡◌, OnOk, IfErr};
ghost use Rattle.net_tables.specs.TwoPlans.{moving};
ghost use Rattle.net_rules.{specs.Rules.{AtRowEid, AtNodeOrEid}, specs.HeldEids.{IsLedOn}, specs.Superfluous.{NeedsWhatItIsGiven, NeedsItsRank}, specs.MoveRules.{AcceptsMove}, specs.MoveFaults.{NamesFirstMoveFault}, specs.MoveSearch.{IsFirstByNode}, specs.MoveObstacles.{DifferInRowsAlone, NamesDifference}};

use crate::asked::Asked;
use crate::fault::Fault;
use crate::first_fault::first_of_asked;
use crate::move_error::MoveError;
use crate::move_fault::{MoveFault, MoveRule};
use crate::plan_index::PlanIndex;
use crate::plans::Plans;
use crate::rules::frames::{first_unlike_node, have_same_frame};
use crate::rules::held_eids::row_without_way_on;
use crate::rules::superfluous::superfluous_entry;
use plan_values::{Certificate, Plan};
use std::alloc::{AllocError, Global};

/// Whether each rule of a move holds. Otherwise the error is the first fault, or out of memory.
pub fn meet_rules_of_move(
    alloc: Global,
    before: &Plan,
    after: &Plan,
    certificate: &Certificate,
) -> Result<(), MoveError>
    ensures accepted { OnOk result (AcceptsMove before.now after.now certificate.now) }
    ensures first_fault { IfErr result (λ error. NamesFirstMoveFault before.now after.now certificate.now error) }
{
    meet_frames(before, after)?;
    let index = PlanIndex::of(alloc, before)?;
    let new_index = PlanIndex::of(alloc, after)?;
    if let Some(fault) = first_of_asked(alloc, before, &index, certificate, Asked::Before)? {
        return Err(MoveError::Old(fault_of_plan(fault)));
    }
    if let Some(fault) = first_of_asked(alloc, after, &new_index, certificate, Asked::After)? {
        return Err(MoveError::New(fault_of_plan(fault)));
    }
    if let Some(fault) = first_without_way_on(&index, &new_index, before) {
        return Err(MoveError::Old(fault));
    }
    if let Some(fault) = first_without_way_on(&index, &new_index, after) {
        return Err(MoveError::New(fault));
    }
    if let Some(fault) = first_superfluous(&index, &new_index, certificate) {
        return Err(MoveError::Both(fault));
    }
    Ok(())
}

/// Whether the plans differ in rows alone (M01).
pub fn meet_frames(before: &Plan, after: &Plan) -> Result<(), MoveError>
    ensures met { OnOk result (DifferInRowsAlone before.now after.now) }
    ensures difference { IfErr result (NamesDifference before.now after.now) }
{
    if !have_same_frame(before, after) {
        return Err(MoveError::Differ(None));
    }
    match first_unlike_node(before, after) {
        Some(node) => Err(MoveError::Differ(Some(node))),
        None => Ok(()),
    }
}

/// The fault of a rule of one plan, as a fault of the move.
pub fn fault_of_plan(fault: Fault) -> MoveFault
    ensures { result ≡ record { rule = MoveRule.OfPlan fault.rule; node = fault.node; entry = fault.entry; eid = fault.eid } }
{
    MoveFault {
        rule: MoveRule::OfPlan(fault.rule),
        node: fault.node,
        entry: fault.entry,
        eid: fault.eid,
    }
}

/// The first fault of M02 along the rows of one of the plans.
fn first_without_way_on(
    index: &PlanIndex<'_>,
    new_index: &PlanIndex<'_>,
    whose: &Plan,
) -> Option<MoveFault>
    ensures { IsFirstByNode MoveRule.M02 (λ n. AtRowEid whose.now n (λ row e. IsLedOn (moving index.now new_index.now) n e row.next)) result }
{
    let plans = Plans {
        plan: index,
        after: Some(new_index),
    };
    for node in 0..whose.nodes.len() {
        if let Some(spot) = row_without_way_on(&plans, whose, node) {
            return Some(MoveFault {
                rule: MoveRule::M02,
                node,
                entry: spot.entry,
                eid: spot.eid,
            });
        }
    }
    None
}

/// The first fault of M03.
fn first_superfluous(
    index: &PlanIndex<'_>,
    new_index: &PlanIndex<'_>,
    certificate: &Certificate,
) -> Option<MoveFault>
    ensures { IsFirstByNode MoveRule.M03 (λ n. AtNodeOrEid (NeedsWhatItIsGiven index.now certificate.now n) (NeedsItsRank (moving index.now new_index.now) certificate.now n)) result }
{
    let plans = Plans {
        plan: index,
        after: Some(new_index),
    };
    let plan = index.plan();
    for node in 0..plan.nodes.len() {
        if let Some(spot) = superfluous_entry(&plans, certificate, node) {
            return Some(MoveFault {
                rule: MoveRule::M03,
                node,
                entry: spot.entry,
                eid: spot.eid,
            });
        }
    }
    None
}
