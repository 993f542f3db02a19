//! Where the columns of a picture stand, in pixels.

use plan_values::Plan;
use std::alloc::{AllocError, Global};

/// Where the badges of the nodes begin, and where their names do.
pub const BADGE: usize = 72;

pub const NAMES: usize = 88;

/// The width of a character, about.
const CHARACTER: usize = 8;

/// The columns of a picture.
#[derive(Clone, Copy)]
pub struct Scale {
    /// Where the endpoint IDs end.
    pub eids: usize,
    /// The middle of the first node.
    pub top: usize,
    pub width: usize,
    /// The middle of the first bus, and how far the next one is.
    first: usize,
    step: usize,
    /// Whether the names of buses lie beside each other.
    is_flat: bool,
}

impl Scale {
    /// The scale at which names and addresses of the plan don't meet.
    pub fn of(plan: &Plan) -> Scale {
        let name = longest_node(plan);
        let bus = longest_bus(plan);
        let address = longest_address(plan);
        let roomy = beside(24, bus.max(address), CHARACTER).max(56);
        let step = (960 / plan.buses.len().max(1)).max(28).min(roomy);
        let is_flat = beside(8, bus, CHARACTER) <= step;
        let (before, height, behind) = if is_flat {
            (step / 2, 0, step / 2)
        } else {
            // (the names lean to the right)
            (0, 7, beside(24, bus, CHARACTER / 2))
        };
        let eids = beside(132, name, CHARACTER);
        let first = beside(28, 1, eids).saturating_add(before);
        let last = beside(first, plan.buses.len().saturating_sub(1), step);
        Scale {
            eids,
            top: beside(44, bus, height),
            width: last.saturating_add(behind.max(beside(16, address, CHARACTER))),
            first,
            step,
            is_flat,
        }
    }

    /// The middle of a bus.
    pub fn lane(&self, lane: usize) -> usize {
        beside(self.first, lane, self.step)
    }

    /// Whether an address of so many bytes fits beside a port.
    pub fn has_room_for(&self, length: usize) -> bool {
        0 < length && beside(16, length, 2 * CHARACTER) <= self.step
    }

    /// The attributes of a text above the lane of a bus.
    pub fn over_lane(&self, alloc: Global, x: usize) -> Result<String, AllocError> {
        let y = self.top.saturating_sub(26);
        if self.is_flat {
            return format!(in alloc; "class=\"name\" x=\"{x}\" y=\"{y}\" text-anchor=\"middle\"");
        }
        format!(in alloc; "class=\"name\" x=\"{x}\" y=\"{y}\" transform=\"rotate(-60 {x} {y})\"")
    }
}

/// So many steps beside a place.
pub fn beside(start: usize, count: usize, step: usize) -> usize {
    start.saturating_add(count.saturating_mul(step))
}

fn longest_node(plan: &Plan) -> usize {
    let mut longest = 0;
    for node in &plan.nodes {
        longest = node.name.text.len().max(longest);
    }
    longest
}

fn longest_bus(plan: &Plan) -> usize {
    let mut longest = 0;
    for bus in &plan.buses {
        longest = bus.name.text.len().max(longest);
    }
    longest
}

/// How many hex digits the longest address has.
fn longest_address(plan: &Plan) -> usize {
    let mut longest = 0;
    for node in &plan.nodes {
        for port in &node.ports {
            longest = port.address.len().saturating_mul(2).max(longest);
        }
    }
    longest
}
