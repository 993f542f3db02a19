//! The names that are known where a text is searched.
ghost use Rattle.std.specs.Prelude.{◌≡◌, map, IfOk};
ghost use Rattle.serde_json.specs.Find.{get};
ghost use Rattle.net_plan.{specs.Names.{names_at, text_at, texts_at}, specs.Trees.{view}, specs.Grammar.{known_view}};
ghost use Rattle.plan_values.specs.PlanValues.{name_bytes, node_value, node_names};
ghost use Rattle.net_pointers.specs.Asks.{known_in, known_nodes, texts_in};

use json::Value;
use net_plan::{KnownNames, at, text_at};
use plan_values::Node;
use std::alloc::{AllocError, Global};

/// The names that a plan gives its buses and nodes.
pub fn known_names<'v>(alloc: Global, plan: &'v Value<'_>) -> Result<KnownNames<'v>, AllocError>
    ensures { IfOk result (λ known. known_view known ≡ known_in (view plan.now)) }
{
    Ok(KnownNames {
        buses: names_at(alloc, plan, "buses")?,
        nodes: names_at(alloc, plan, "nodes")?,
    })
}

/// The names in the list at a key.
#[tactic(auto, using(crate::proofs::NamesTold::texts_are_names))]
fn names_at<'v>(alloc: Global, value: &'v Value<'_>, key: &str) -> Result<Vec<&'v str>, AllocError>
    ensures { IfOk result (λ names. map (λ name. name.now) names.items ≡ names_at key.now (view value.now)) }
{
    texts_at(alloc, value, key, "name")
}

/// The texts at a key of each entry of the list at another.
pub fn texts_at<'v>(
    alloc: Global,
    value: &'v Value<'_>,
    list: &str,
    key: &str,
) -> Result<Vec<&'v str>, AllocError>
    ensures { IfOk result (λ texts. map (λ text. text.now) texts.items ≡ texts_in key.now (get list.now (view value.now))) }
{
    match at(value, list) {
        Some(list) => texts_in(alloc, list, key),
        None => Ok(Vec::new(alloc)),
    }
}

/// The texts at the keys of a list's objects.
fn texts_in<'v>(alloc: Global, list: &'v Value<'_>, key: &str) -> Result<Vec<&'v str>, AllocError>
    ensures { IfOk result (λ texts. map (λ text. text.now) texts.items ≡ texts_at key.now (view list.now)) }
{
    match list {
        Value::Array(items) => texts_of(alloc, items.as_slice(), key),
        _ => Ok(Vec::new(alloc)),
    }
}

/// The texts at the keys of objects.
fn texts_of<'v>(
    alloc: Global,
    items: &'v [Value<'_>],
    key: &str,
) -> Result<Vec<&'v str>, AllocError>
    ensures { IfOk result (λ texts. map (λ text. text.now) texts.items ≡ map (λ v. text_at key.now (view v)) items.now) }
{
    let mut texts = Vec::new(alloc);
    for item in items {
        texts.push(text_at(item, key))?;
    }
    Ok(texts)
}

/// The names of a plan's nodes.
pub fn names_of_nodes<'p>(alloc: Global, nodes: &'p [Node]) -> Result<KnownNames<'p>, AllocError>
    ensures { IfOk result (λ known. known_view known ≡ known_nodes (node_names (map node_value nodes.now))) }
{
    Ok(KnownNames {
        buses: Vec::new(alloc),
        nodes: node_names(alloc, nodes)?,
    })
}

#[tactic(auto, using(crate::proofs::NamesTold::nodes_named))]
fn node_names<'p>(alloc: Global, nodes: &'p [Node]) -> Result<Vec<&'p str>, AllocError>
    ensures { IfOk result (λ names. map (λ name. name.now) names.items ≡ node_names (map node_value nodes.now)) }
{
    texts_of_nodes(alloc, nodes)
}

fn texts_of_nodes<'p>(alloc: Global, nodes: &'p [Node]) -> Result<Vec<&'p str>, AllocError>
    ensures { IfOk result (λ names. map (λ name. name.now) names.items ≡ map (λ n. name_bytes n.name) nodes.now) }
{
    let mut names = Vec::new(alloc);
    for node in nodes {
        names.push(node.name.text.as_str())?;
    }
    Ok(names)
}
