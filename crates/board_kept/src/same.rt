//! Two plans that are the same but for their rows.
ghost use Rattle.std.specs.Prelude.{IsTrue};
ghost use Rattle.board_kept.specs.Rowed.{IsSameButRows};

use net_rules::{first_unlike_node, have_same_frame};
use plan_values::Plan;

/// Whether two plans are the same but for their rows.
pub fn is_same_but_rows(before: &Plan, after: &Plan) -> bool
    ensures { IsTrue result → IsSameButRows before.now after.now }
{
    have_same_frame(before, after) && first_unlike_node(before, after).is_none()
}
