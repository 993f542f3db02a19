//! The command `trace`: the way of a packet in the network of a checked plan.
ghost use Rattle.std.specs.Prelude.{◌≡◌, IfOk, IfErr, string_bytes};
ghost use Rattle.command_answers.{specs.declared.refused.Refused.TheVariants.{NoMemory}, specs.Naming.{NameTheEnds}};
ghost use Rattle.plan_commands.specs.Tracing.{IsWayText, IsTraceText};

use command_answers::{Refused, named_ends};
use mctp_transport::Eid;
use net_check::Checked;
use net_questions::follow;
use question_texts::trace_lines;
use std::alloc::{AllocError, Global};

/// The way of a packet that the node of the name `from` sends to `to`: the name of a node, or else an endpoint ID, 8 to
/// 254.
pub fn way_between(
    alloc: Global,
    checked: &Checked,
    from: &str,
    to: &str,
) -> Result<String, Refused>
    requires { NameTheEnds from.now to.now checked.now.0 }
    ensures text { IfOk result (λ text. IsTraceText from.now to.now checked.now.0 checked.now.1 (string_bytes text)) }
    ensures memory { IfErr result (λ why. why ≡ NoMemory) }
{
    match named_ends(checked.plan(), from, to) {
        Some((sender, destination)) => Ok(way_text(alloc, checked, sender, destination)?),
        None => Err(Refused::UnknownNode),
    }
}

/// The lines of the way of a packet that is put in at a node of a checked plan.
fn way_text(alloc: Global, checked: &Checked, from: usize, eid: Eid) -> Result<String, AllocError>
    ensures { IfOk result (λ text. IsWayText checked.now.0 checked.now.1 from eid.value (string_bytes text)) }
{
    let way = follow(alloc, checked, from, eid)?;
    trace_lines(alloc, checked.plan(), &way)
}
