//! The records of a checked plan's nodes.
ghost use Rattle.std.specs.Prelude.{IfOk, length};
ghost use Rattle.audited_captures.{specs.Audits.{AreRepositories}, specs.Repositories.{repository_values}};

use command_answers::records_by_place;
use net_check::Checked;
use std::alloc::{AllocError, Global};

/// The records of each node by place, as handles and bytes; none where a node has no terminus.
pub fn repositories_of(
    alloc: Global,
    checked: &Checked,
) -> Result<Vec<Vec<(u32, Vec<u8>)>>, AllocError>
    ensures { IfOk result (λ repositories. AreRepositories checked.now.0 checked.now.1 (length checked.now.0.nodes.items) (repository_values repositories.items)) }
{
    let plan = checked.plan();
    let mut repositories = Vec::new(alloc);
    for node in 0..plan.nodes.len() {
        repositories.push(records_by_place(alloc, plan, checked.certificate(), node)?)?;
    }
    Ok(repositories)
}
