//! The command `walk`: the records that a walk over a node's terminus collects.
ghost use Rattle.std.specs.Prelude.{◌≡◌, ◌⊎◌, Some, IfOk, IfErr, string_bytes};
ghost use Rattle.net_tables.specs.Repositories.{terminus_of, records_by_place};
ghost use Rattle.net_rules.specs.Rules.{Accepts};
ghost use Rattle.command_answers.{specs.declared.refused.Refused.TheVariants.{NoMemory, TooMuch}, specs.Naming.{HasTerminusNamed}};
ghost use Rattle.plan_commands.{specs.Collecting.{EndsEarlyFor}, specs.Walking.{HasTooManyBytes, IsWalkText, walk_text}};

mod collecting;
mod ordering;

use collecting::collect;
use command_answers::{Refused, named_terminus};
use command_questions::PartSize;
use net_check::Checked;
use ordering::terminus_by_place;
use plan_texts::walk_text;
use plan_values::{Certificate, Plan, PlannedTerminus};
use std::alloc::Global;

/// What is told of a walk over the terminus of the node of this name, by parts of so many bytes.
pub fn records_text(
    alloc: Global,
    checked: &Checked,
    name: &str,
    part: PartSize,
) -> Result<String, Refused>
    requires { HasTerminusNamed checked.now.0 name.now }
    ensures text { IfOk result (λ text. IsWalkText name.now part.bytes checked.now.0 checked.now.1 (string_bytes text)) }
    ensures early { IfErr result (λ why. (why ≡ NoMemory) ⊎ ((why ≡ TooMuch) × HasTooManyBytes name.now checked.now.0 checked.now.1)) }
{
    let plan = checked.plan();
    match named_terminus(plan, name) {
        Some((index, terminus)) => {
            walked_text(alloc, plan, checked.certificate(), index, terminus, part)
        }
        None => Err(Refused::UnknownNode),
    }
}

/// What is told of a walk over the terminus of a node of an accepted plan.
fn walked_text(
    alloc: Global,
    plan: &Plan,
    certificate: &Certificate,
    node: usize,
    terminus: &PlannedTerminus,
    part: PartSize,
) -> Result<String, Refused>
    requires accepted { Accepts plan.now certificate.now }
    requires there { terminus_of plan.now node ≡ Some terminus.now }
    ensures text { IfOk result (λ text. string_bytes text ≡ walk_text part.bytes (records_by_place plan.now certificate.now node)) }
    ensures early { IfErr result (EndsEarlyFor (records_by_place plan.now certificate.now node)) }
{
    let mut list = terminus_by_place(alloc, plan, certificate, node, terminus)?;
    let walker = collect(alloc, &mut list, part)?;
    Ok(walk_text(alloc, walker.records(), walker.taken())?)
}
