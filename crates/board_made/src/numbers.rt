//! The numbers that a plan gives its nodes.
ghost use Rattle.std.{specs.Prelude.{◌≡◌, IfOk, map, option_map, option_and_then}, specs.List.{flat_map}};
ghost use Rattle.net_tables.specs.Names.{node_name};
ghost use Rattle.board_made.specs.Numbers.{number_value, numbers_of_node, held_number, plan_numbers, pool_begin, pool_number};

use net_tables::lookup::{node_name, pool_at};
use plan_values::{Node, Plan, Pool};
use std::alloc::{AllocError, Global};

/// Endpoint IDs of a node, from the first on: that which it holds, or those of its pool.
#[derive(Clone, Copy)]
pub struct Number<'p> {
    /// The node's name.
    pub node: &'p str,
    pub is_pool: bool,
    pub first: u8,
    pub size: u8,
    /// The name of the node's owner.
    pub owner: Option<&'p str>,
    /// Where the owner's pool begins.
    pub within: Option<u8>,
}

/// The numbers of each node of a plan, in its order.
pub fn numbers_of<'p>(alloc: Global, plan: &'p Plan) -> Result<Vec<Number<'p>>, AllocError>
    ensures { IfOk result (λ numbers. map number_value numbers.items ≡ plan_numbers plan.now) }
{
    let mut numbers = Vec::new(alloc);
    for node in &plan.nodes {
        numbers.extend_from_slice(&numbers_of_node(alloc, plan, node)?)?;
    }
    Ok(numbers)
}

fn numbers_of_node<'p>(
    alloc: Global,
    plan: &'p Plan,
    node: &'p Node,
) -> Result<Vec<Number<'p>>, AllocError>
    ensures { IfOk result (λ numbers. map number_value numbers.items ≡ numbers_of_node plan.now node.now) }
{
    let mut numbers = Vec::new(alloc);
    numbers.push(held_number(plan, node))?;
    if let Some(pool) = node.pool {
        numbers.push(pool_number(plan, node, pool))?;
    }
    Ok(numbers)
}

fn held_number<'p>(plan: &'p Plan, node: &'p Node) -> Number<'p>
    ensures { number_value result ≡ held_number plan.now node.now }
{
    Number {
        node: node.name.text.as_str(),
        is_pool: false,
        first: node.eid.value,
        size: 1,
        owner: owner_name(plan, node.owner),
        within: owner_begin(plan, node.owner),
    }
}

fn pool_number<'p>(plan: &'p Plan, node: &'p Node, pool: Pool) -> Number<'p>
    ensures { number_value result ≡ pool_number plan.now node.now pool }
{
    Number {
        node: node.name.text.as_str(),
        is_pool: true,
        first: pool.first.value,
        size: pool.size,
        owner: owner_name(plan, node.owner),
        within: owner_begin(plan, node.owner),
    }
}

fn owner_name<'p>(plan: &'p Plan, owner: Option<usize>) -> Option<&'p str>
    ensures { option_map (λ o. o.now) result ≡ option_map (node_name plan.now) owner }
{
    match owner {
        Some(owner) => Some(node_name(plan, owner)),
        None => None,
    }
}

/// Where the owner's pool begins.
fn owner_begin(plan: &Plan, owner: Option<usize>) -> Option<u8>
    ensures { result ≡ option_and_then (pool_begin plan.now) owner }
{
    let pool = pool_at(plan, owner?)?;
    Some(pool.first.value)
}
