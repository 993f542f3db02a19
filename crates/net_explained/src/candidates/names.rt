//! Names that a node may have in place of its own.

use crate::candidates::add;
use crate::edit::{Change, Edit};
use plan_values::{Name, Plan};
use std::alloc::{AllocError, Global};

/// Adds the first two names that no node has: the node's own with a number behind it.
pub fn add_names(
    alloc: Global,
    plan: &Plan,
    node: usize,
    edits: &mut Vec<Edit>,
) -> Result<(), AllocError> {
    let Some(found) = plan.nodes.get(node) else {
        return Ok(());
    };
    let own = found.name.text.as_str();
    let mut count = 0;
    for number in 2..64u8 {
        let text = format!(in alloc; "{own}-{number}")?;
        if count < 2 && !has_name(plan, &text) {
            if let Some(name) = Name::of(text) {
                count += 1;
                add(edits, node, Change::Name(name))?;
            }
        }
    }
    Ok(())
}

/// Whether a node has the name.
fn has_name(plan: &Plan, text: &str) -> bool {
    plan.nodes
        .iter()
        .any(|node| node.name.text.as_str() == text)
}
