//! `rollout`: the steps from the rows of one plan to those of another.
ghost use Rattle.std.specs.Prelude.{◌≡◌, ◌≢◌, ◌↔◌, ◌⊎◌, IfOk, IfSome, IsTrue};
ghost use Rattle.net_rules.{specs.declared.move_obstacle.MoveObstacle.TheVariants.{OutOfMemory}, specs.MoveObstacles.{DifferInRowsAlone, HasNoMoveCertificate, NamesMoveObstacle, RulesOutMoveCertificates}};
ghost use Rattle.net_rollout.specs.Steps.{HasCertificate, AreFit, IsUnfit, AreSteps, IsStep, IsRollout, last_plan};

use crate::change::{Change, LastStep, Rollout, Step};
use crate::changed_plan::{as_made, changed_nodes, plan_after};
use crate::eid_ways::{EidWays, all_ways, settle};
use crate::proposals::proposed;
use net_rules::{
    CertifyError, MoveObstacle, certify, certify_move, first_unlike_node, have_same_frame,
};
use plan_values::Plan;
use std::alloc::{AllocError, Global};

/// The most steps that are made. Each of them changes for good how a node sends on some endpoint ID, or how its rows
/// are cut: so no search comes to its end here.
const MOST_STEPS: usize = 64 * 257;

/// How the nodes get from the rows of one plan to those of another: in any order by one certificate, where there is
/// one. Otherwise by steps, each of which has a certificate by which it may be carried out in any order, as few as the
/// search finds.
pub fn rollout(alloc: Global, before: &Plan, after: &Plan) -> Result<Rollout, AllocError>
    ensures { IfOk result (IsRollout before.now after.now) }
{
    match certify_move(alloc, before, after) {
        Ok(certificate) => Ok(Rollout::AnyOrder(certificate)),
        Err(MoveObstacle::OutOfMemory) => Err(AllocError),
        Err(obstacle) => by_steps(alloc, before, after, obstacle),
    }
}

/// The same where no certificate serves for the whole move.
#[tactic(auto, using(crate::proofs::Chains::steps_more))]
fn by_steps(
    alloc: Global,
    before: &Plan,
    after: &Plan,
    obstacle: MoveObstacle,
) -> Result<Rollout, AllocError>
    requires named { NamesMoveObstacle before.now after.now obstacle }
    requires none { HasNoMoveCertificate before.now after.now }
    ensures { IfOk result (IsRollout before.now after.now) }
{
    if !are_fit(alloc, before, after)? {
        return Ok(Rollout::Unfit(obstacle));
    }
    let mut ways = all_ways(alloc, before, after)?;
    let mut steps = Vec::new(alloc);
    for _ in 0..MOST_STEPS {
        let Some(step) = next_step(alloc, plan_so_far(before, &steps), after, &mut ways)? else {
            return to_the_end(alloc, before, after, steps);
        };
        steps.push(step)?;
    }
    to_the_end(alloc, before, after, steps)
}

/// Whether the plans differ in rows alone, and each has a certificate by itself.
fn are_fit(alloc: Global, before: &Plan, after: &Plan) -> Result<bool, AllocError>
    ensures fit { IfOk result (λ fit. IsTrue fit → AreFit before.now after.now) }
    ensures unfit { IfOk result (λ fit. ¬ IsTrue fit → IsUnfit before.now after.now) }
{
    if !differ_in_rows_alone(before, after) {
        return Ok(false);
    }
    if !has_certificate(alloc, before)? {
        return Ok(false);
    }
    Ok(has_certificate(alloc, after)?)
}

/// Whether the plans differ in rows alone.
#[tactic(auto, unfolding(net_rules::specs::MoveRules::HaveSameFrame))]
fn differ_in_rows_alone(before: &Plan, after: &Plan) -> bool
    ensures { IsTrue result ↔ DifferInRowsAlone before.now after.now }
{
    have_same_frame(before, after) && first_unlike_node(before, after).is_none()
}

/// Whether a plan has a certificate by itself.
fn has_certificate(alloc: Global, plan: &Plan) -> Result<bool, AllocError>
    ensures { IfOk result (λ has. IsTrue has ↔ HasCertificate plan.now) }
{
    match certify(alloc, plan) {
        Ok(_certificate) => Ok(true),
        Err(CertifyError::OutOfMemory) => Err(AllocError),
        Err(_) => Ok(false),
    }
}

/// The plan that the steps have led to.
fn plan_so_far<'a>(before: &'a Plan, steps: &'a [Step]) -> &'a Plan
    ensures { result.now ≡ last_plan before.now steps.now }
{
    match steps.last() {
        Some(step) => &step.after,
        None => before,
    }
}

/// The next step from a plan to the new one, where one is found that is not the last.
fn next_step(
    alloc: Global,
    here: &Plan,
    after: &Plan,
    ways: &mut [EidWays],
) -> Result<Option<Step>, AllocError>
    ensures { IfOk result (λ found. IfSome found (IsStep here.now after.now)) }
{
    let Some(change) = proposed(alloc, here, after, ways)? else {
        return Ok(None);
    };
    let step = step_of(alloc, here, after, change)?;
    settle(ways);
    Ok(step)
}

/// The step that makes a change, where it is a lawful move.
fn step_of(
    alloc: Global,
    here: &Plan,
    after: &Plan,
    change: Change,
) -> Result<Option<Step>, AllocError>
    ensures { IfOk result (λ found. IfSome found (IsStep here.now after.now)) }
{
    let Some(between) = plan_after(alloc, here, after, &change)? else {
        return Ok(None);
    };
    let change = as_made(alloc, here, &between, change)?;
    match certify_move(alloc, here, &between) {
        Ok(certificate) => Ok(Some(Step {
            change,
            after: between,
            certificate,
        })),
        Err(MoveObstacle::OutOfMemory) => Err(AllocError),
        Err(_) => Ok(None),
    }
}

/// The last step behind others, or what stands in its way.
fn to_the_end(
    alloc: Global,
    before: &Plan,
    after: &Plan,
    steps: Vec<Step>,
) -> Result<Rollout, AllocError>
    requires none { HasNoMoveCertificate before.now after.now }
    requires fit { AreFit before.now after.now }
    requires steps { AreSteps before.now after.now steps.items }
    ensures { IfOk result (IsRollout before.now after.now) }
{
    let here = plan_so_far(before, &steps);
    match certify_move(alloc, here, after) {
        Ok(certificate) => {
            let nodes = changed_nodes(alloc, here, after)?;
            Ok(Rollout::Steps(steps, LastStep { nodes, certificate }))
        }
        Err(MoveObstacle::OutOfMemory) => Err(AllocError),
        Err(obstacle) => Ok(Rollout::Stuck(steps, obstacle)),
    }
}
