//! The command `draw`: a planned network in Graphviz' DOT language.
ghost use Rattle.std.specs.Prelude.{◌≡◌, IfOk};
ghost use Rattle.command_answers.specs.declared.status.Status.TheVariants.{Yes};
ghost use Rattle.plan_texts.specs.Drawings.{IsFirstObstacle};

use command_answers::Answer;
use command_questions::DrawnRows;
use net_check::{CertifyError, Checked, certify};
use plan_texts::{bundle_drawing, drawing, way_drawing};
use plan_values::Plan;
use std::alloc::{AllocError, Global};

/// The drawing of a checked plan with its certificate.
pub fn certified_drawing(
    alloc: Global,
    checked: &Checked,
    rows: DrawnRows,
) -> Result<String, AllocError> {
    let plan = checked.plan();
    let certificate = Some(checked.certificate());
    match rows {
        DrawnRows::Hidden => drawing(alloc, plan, None, certificate),
        DrawnRows::All => bundle_drawing(alloc, plan, None, certificate),
        DrawnRows::For(eid) => way_drawing(alloc, plan, eid, certificate),
    }
}

/// The drawing of a plan as it stands.
pub fn drawing_of_plan(alloc: Global, plan: &Plan, rows: DrawnRows) -> Result<Answer, AllocError>
    ensures { IfOk result (λ answer. answer.status ≡ Yes) }
{
    Ok(Answer::found(plan_drawing(alloc, plan, rows)?))
}

fn plan_drawing(alloc: Global, plan: &Plan, rows: DrawnRows) -> Result<String, AllocError> {
    match rows {
        DrawnRows::Hidden => {
            let obstacle = first_obstacle(alloc, plan)?;
            drawing(alloc, plan, obstacle.as_ref(), None)
        }
        DrawnRows::All => {
            let obstacle = first_obstacle(alloc, plan)?;
            bundle_drawing(alloc, plan, obstacle.as_ref(), None)
        }
        DrawnRows::For(eid) => way_drawing(alloc, plan, eid, None),
    }
}

/// What rules certificates of a plan out first; none where it has one.
fn first_obstacle(alloc: Global, plan: &Plan) -> Result<Option<CertifyError>, AllocError>
    ensures { IfOk result (IsFirstObstacle plan.now) }
{
    match certify(alloc, plan) {
        Ok(_certificate) => Ok(None),
        Err(CertifyError::OutOfMemory) => Err(AllocError),
        Err(obstacle) => Ok(Some(obstacle)),
    }
}
