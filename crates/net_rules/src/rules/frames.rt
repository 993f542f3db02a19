//! M01: two plans that differ in rows alone.
ghost use Rattle.std.specs.Prelude.{◌≡◌, ◌<◌, ◌↔◌, IsTrue, length};
ghost use Rattle.net_rules.{specs.MoveRules.{HaveSameFrame, IsSameNode}, specs.MoveSearch.{IsFirstUnlike}};

use plan_values::{Plan, are_same, are_same_but_rows};

/// Whether the plans have the same transmission unit, the same buses, in one order, and as many nodes.
#[tactic(auto, unfolding(crate::specs::MoveRules::HaveSameFrame))]
pub fn have_same_frame(before: &Plan, after: &Plan) -> bool
    ensures { IsTrue result ↔ HaveSameFrame before.now after.now }
{
    before.unit == after.unit
        && are_same(before.buses.as_slice(), after.buses.as_slice())
        && before.nodes.len() == after.nodes.len()
}

/// The first node that is not the same in both plans, but for its rows.
pub fn first_unlike_node(before: &Plan, after: &Plan) -> Option<usize>
    requires { length before.now.nodes.items ≡ length after.now.nodes.items }
    ensures { IsFirstUnlike before.now after.now result }
{
    for node in 0..before.nodes.len() {
        if !is_same_node(before, after, node) {
            return Some(node);
        }
    }
    None
}

/// Whether the node is the same in both plans, but for its rows.
fn is_same_node(before: &Plan, after: &Plan, node: usize) -> bool
    requires before { node < length before.now.nodes.items }
    requires after { node < length after.now.nodes.items }
    ensures { IsTrue result ↔ IsSameNode before.now after.now node }
{
    are_same_but_rows(&before.nodes[node], &after.nodes[node])
}
