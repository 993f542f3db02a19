//! The names of nodes.
ghost use Rattle.std.specs.Prelude.{◌≡◌, ◌<◌, ℕ, IfSome, IfNone, length};
ghost use Rattle.net_reached.specs.Reading.{IsNamed};

use plan_values::Plan;

/// The name of a node of the plan.
pub fn name_of(plan: &Plan, node: usize) -> &str
    requires { node < length plan.now.nodes.items }
    ensures { IsNamed plan.now node result.now }
{
    plan.nodes[node].name.text.as_str()
}

/// The index of the first node of the name.
pub fn first_named(plan: &Plan, name: &str) -> Option<usize>
    ensures found { IfSome result (λ n. IsNamed plan.now n name.now) }
    ensures none { IfNone result ((n : ℕ) → ¬ IsNamed plan.now n name.now) }
{
    for index in 0..plan.nodes.len() {
        if name_of(plan, index) == name {
            return Some(index);
        }
    }
    None
}
