//! The lines of wishes.
ghost use Rattle.std.specs.Prelude.{◌≡◌, ◌++◌, IfOk, codes, string_bytes};
ghost use Rattle.net_reached.specs.Lines.{wish_line, wish_lines};

use crate::wish::Wish;
use net_tables::lookup::node_name;
use plan_values::Plan;
use std::alloc::{AllocError, Global};

/// A line for each wish.
pub fn wish_lines(alloc: Global, plan: &Plan, wishes: &[Wish]) -> Result<String, AllocError>
    ensures { IfOk result (λ lines. string_bytes lines ≡ wish_lines plan.now wishes.now) }
{
    let mut lines = String::new(alloc);
    for wish in wishes {
        lines.push_str(&wish_line(alloc, plan, wish)?)?;
    }
    Ok(lines)
}

/// The line of a wish.
pub fn wish_line(alloc: Global, plan: &Plan, wish: &Wish) -> Result<String, AllocError>
    ensures { IfOk result (λ line. string_bytes line ≡ wish_line plan.now wish.now) }
{
    match *wish {
        Wish::Nothing { line } => format!(in alloc; "{line}\n"),
        Wish::Reaches { from, to } => between(
            alloc,
            node_name(plan, from),
            " ",
            node_name(plan, to),
        ),
        Wish::ReachesAll { from } => {
            let from = node_name(plan, from);
            format!(in alloc; "{from} -> *\n")
        }
        Wish::Avoids { from, to } => {
            between(alloc, node_name(plan, from), " -/> ", node_name(plan, to))
        }
    }
}

/// Two names and what stands between them.
fn between(alloc: Global, from: &str, between: &str, to: &str) -> Result<String, AllocError>
    ensures { IfOk result (λ line. string_bytes line ≡ from.now ++ (between.now ++ (to.now ++ codes "\n"))) }
{
    format!(in alloc; "{from}{between}{to}\n")
}
