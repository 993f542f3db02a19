//! What two plans of a move differ in beside rows.

use super::place_of;
use command_answers::PlanText;
use fault_texts::part_pointer;
use net_plan::PointerStep;
use net_tables::lookup::node_name;
use plan_values::{Bus, Node, Plan, PlanPart, are_same};
use std::alloc::{AllocError, Global};

/// What is not the same in two plans.
#[derive(Clone, Copy)]
enum Unlike {
    /// The transmission unit.
    Unit,
    /// How many buses there are.
    Buses,
    /// The bus at an index.
    Bus(usize),
    /// How many nodes there are.
    Nodes,
    /// What stands under a key of the node at an index.
    Part(usize, &'static str),
}

/// Tells something in which the plans of a move differ beside rows, at a node where one is given, and where it stands
/// in the text of each.
pub fn difference_text(
    alloc: Global,
    name: &str,
    new_name: &str,
    before: &PlanText,
    after: &PlanText,
    node: Option<usize>,
) -> Result<String, AllocError> {
    let unlike = first_unlike(&before.plan, &after.plan, node);
    let pointer = unlike_pointer(alloc, unlike)?;
    let there = place_of(alloc, name, before, &pointer)?;
    let here = place_of(alloc, new_name, after, &pointer)?;
    let words = unlike_words(alloc, &before.plan, unlike)?;
    format!(in alloc;
        "{there}{here}Not the same in both plans: {words}.\nHint: let the plans of a move differ in rows alone.\n"
    )
}

// ---- what differs

fn first_unlike(before: &Plan, after: &Plan, node: Option<usize>) -> Unlike {
    let Some(index) = node else {
        return unlike_frame(before, after);
    };
    match (before.nodes.get(index), after.nodes.get(index)) {
        (Some(one), Some(other)) => Unlike::Part(index, unlike_key(one, other)),
        _ => Unlike::Nodes,
    }
}

/// What is not the same in two plans of other frames.
fn unlike_frame(before: &Plan, after: &Plan) -> Unlike {
    if before.unit != after.unit {
        Unlike::Unit
    } else if before.nodes.len() != after.nodes.len() {
        Unlike::Nodes
    } else if before.buses.len() != after.buses.len() {
        Unlike::Buses
    } else {
        Unlike::Bus(unlike_bus(&before.buses, &after.buses))
    }
}

/// The first bus that is not the same in two lists of as many.
fn unlike_bus(buses: &[Bus], others: &[Bus]) -> usize {
    for (index, bus) in buses.iter().enumerate() {
        if !others.get(index).is_some_and(|other| bus.is_same(other)) {
            return index;
        }
    }
    0
}

/// The key under which two nodes, which differ in more than rows, are not the same.
fn unlike_key(one: &Node, other: &Node) -> &'static str {
    if one.name != other.name {
        "name"
    } else if one.kind != other.kind {
        "kind"
    } else if one.eid != other.eid {
        "eid"
    } else if one.owner != other.owner {
        "owner"
    } else if one.pool != other.pool {
        "pool"
    } else if !are_same(one.ports.as_slice(), other.ports.as_slice()) {
        "ports"
    } else {
        "terminus"
    }
}

// ---- words

/// The pointer to what is not the same.
fn unlike_pointer(alloc: Global, unlike: Unlike) -> Result<Vec<PointerStep>, AllocError> {
    match unlike {
        Unlike::Unit => [PointerStep::Key("unit")].to_vec(alloc),
        Unlike::Buses => [PointerStep::Key("buses")].to_vec(alloc),
        Unlike::Bus(bus) => [PointerStep::Key("buses"), PointerStep::Index(bus)].to_vec(alloc),
        Unlike::Nodes => [PointerStep::Key("nodes")].to_vec(alloc),
        Unlike::Part(node, key) => part_pointer(alloc, node, key),
    }
}

/// What is not the same, with the node's name in the plan.
fn unlike_words(alloc: Global, plan: &Plan, unlike: Unlike) -> Result<String, AllocError> {
    match unlike {
        Unlike::Unit => "unit".to_string(alloc),
        Unlike::Buses => "number of buses".to_string(alloc),
        Unlike::Bus(bus) => format!(in alloc; "bus {bus}"),
        Unlike::Nodes => "number of nodes".to_string(alloc),
        Unlike::Part(node, key) => {
            let name = node_name(plan, node);
            format!(in alloc; "{key} of {name}")
        }
    }
}
