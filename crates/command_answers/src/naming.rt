//! The node that a name stands for.
ghost use Rattle.std.specs.Prelude.{◌≡◌, ◌≢◌, ℕ, Some, MatchOption, MatchBool, string_bytes};
ghost use Rattle.net_rules.specs.Names.{name_of};
ghost use Rattle.command_answers.specs.Naming.{IsFirstNamed};

pub mod ends;
pub mod terminus;

use plan_values::{Node, Plan};

/// The index of the first node of the name.
pub fn first_named(plan: &Plan, name: &str) -> Option<usize>
    ensures { MatchOption result ((n : ℕ) → name_of plan.now n ≢ Some name.now) (λ index. IsFirstNamed plan.now name.now index) }
{
    for (index, node) in plan.nodes.iter().enumerate() {
        if is_named(node, name) {
            return Some(index);
        }
    }
    None
}

fn is_named(node: &Node, name: &str) -> bool
    ensures { MatchBool result (string_bytes node.now.name.text ≡ name.now) (string_bytes node.now.name.text ≢ name.now) }
{
    node.name.text.as_str() == name
}
