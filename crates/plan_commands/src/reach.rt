//! The command `reach`: who reaches whom in a checked plan, and by how many hops.
ghost use Rattle.std.specs.Prelude.{IfOk, string_bytes};
ghost use Rattle.plan_commands.specs.Reaching.{IsReachText};

use net_check::Checked;
use net_questions::reach;
use question_texts::reach_lines;
use std::alloc::{AllocError, Global};

/// The lines of each two different nodes of a checked plan.
pub fn pairs_text(alloc: Global, checked: &Checked) -> Result<String, AllocError>
    ensures { IfOk result (λ text. IsReachText checked.now.0 checked.now.1 (string_bytes text)) }
{
    let pairs = reach(alloc, checked)?;
    reach_lines(alloc, checked.plan(), &pairs)
}
