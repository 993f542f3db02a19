//! The files of all steps.
ghost use Rattle.std.specs.Prelude.{◌≡◌, ◌+◌, ◌≤◌, ◌<◌, IfOk, length, map, take};
ghost use Rattle.net_rollout.specs.Steps.{AreSteps, IsRollout, last_plan};
ghost use Rattle.step_files.specs.StepFiles.{AreFilesAlong, AreFilesAt, AreFilesOf, file_value};

use crate::texts::{TextFile, Unmade, files_of_step};
use net_rollout::{Rollout, Step};
use plan_values::Plan;
use std::alloc::Global;

/// The files that a roll-out has in a folder: those of each step by which the nodes get from the rows of one plan to
/// those of another. There are none where they don't.
pub fn step_files(
    alloc: Global,
    folder: &str,
    before: &Plan,
    after: &Plan,
    found: &Rollout,
) -> Result<Vec<TextFile>, Unmade>
    requires { IsRollout before.now after.now found.now }
    ensures { IfOk result (λ files. AreFilesOf folder.now before.now after.now found.now (map file_value files.items)) }
{
    match found {
        Rollout::AnyOrder(movement) => files_of_step(alloc, folder, 1, 1, before, after, movement),
        Rollout::Steps(steps, last) => {
            let count = steps.len() + 1;
            let mut files = files_along(alloc, folder, count, before, after, steps)?;
            let here = plan_before(before, steps, steps.len());
            let mut own = files_of_step(
                alloc,
                folder,
                count,
                count,
                here,
                after,
                &last.certificate,
            )?;
            files.append(&mut own)?;
            Ok(files)
        }
        Rollout::Stuck(..) | Rollout::Unfit(_) => Ok(Vec::new(alloc)),
    }
}

/// The files of steps, which are the first of so many.
fn files_along(
    alloc: Global,
    folder: &str,
    count: usize,
    before: &Plan,
    after: &Plan,
    steps: &[Step],
) -> Result<Vec<TextFile>, Unmade>
    requires { AreSteps before.now after.now steps.now }
    ensures { IfOk result (λ files. AreFilesAlong folder.now count 1 before.now steps.now (map file_value files.items)) }
{
    let mut files = Vec::new(alloc);
    for index in 0..steps.len() {
        let mut next = files_at(alloc, folder, count, before, after, steps, index)?;
        files.append(&mut next)?;
    }
    Ok(files)
}

/// The files of the step of this index.
fn files_at(
    alloc: Global,
    folder: &str,
    count: usize,
    before: &Plan,
    after: &Plan,
    steps: &[Step],
    index: usize,
) -> Result<Vec<TextFile>, Unmade>
    requires steps { AreSteps before.now after.now steps.now }
    requires within { index < length steps.now }
    ensures { IfOk result (λ files. AreFilesAt folder.now count before.now steps.now index (map file_value files.items)) }
{
    let here = plan_before(before, steps, index);
    let step = &steps[index];
    files_of_step(
        alloc,
        folder,
        count,
        index + 1,
        here,
        &step.after,
        &step.certificate,
    )
}

/// The plan before the step of this index.
fn plan_before<'a>(before: &'a Plan, steps: &'a [Step], index: usize) -> &'a Plan
    requires { index ≤ length steps.now }
    ensures { result.now ≡ last_plan before.now (take index steps.now) }
{
    if index == 0 {
        return before;
    }
    &steps[index - 1].after
}
