//! The command `assign`: the requests that give the nodes of a checked plan their endpoint IDs and pools.
ghost use Rattle.std.specs.Prelude.{IfOk, string_bytes};
ghost use Rattle.plan_commands.specs.Assigning.{IsAssignmentText};

use net_check::Checked;
use net_sim::assign;
use run_texts::assignment_lines;
use std::alloc::{AllocError, Global};

/// The requests that assign what a checked plan gives its nodes.
pub fn requests_text(alloc: Global, checked: &Checked) -> Result<String, AllocError>
    ensures { IfOk result (λ text. IsAssignmentText checked.now.0 checked.now.1 (string_bytes text)) }
{
    let list = assign(alloc, checked)?;
    assignment_lines(alloc, checked.plan(), &list)
}
