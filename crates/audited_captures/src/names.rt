//! What endpoint IDs are called in lines.
ghost use Rattle.std.{specs.Prelude.{◌≡◌, IfOk, string_bytes}, specs.Fmt.{decimal}};
ghost use Rattle.audited_captures.specs.Names.{IsNameOf};

use mctp_transport::Eid;
use net_tables::lookup::{holder, node_name};
use plan_values::Plan;
use std::alloc::{AllocError, Global};

/// An endpoint ID by the node that holds it, or by its number.
pub fn name_of(alloc: Global, plan: &Plan, eid: Eid) -> Result<String, AllocError>
    ensures { IfOk result (λ text. IsNameOf plan.now eid.value (string_bytes text)) }
{
    match holder(plan, eid) {
        Some(node) => String::from_str(alloc, node_name(plan, node)),
        None => number_text(alloc, eid.value),
    }
}

fn number_text(alloc: Global, number: u8) -> Result<String, AllocError>
    ensures { IfOk result (λ text. string_bytes text ≡ decimal number) }
{
    format!(in alloc; "{number}")
}
