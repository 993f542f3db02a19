//! A plan: its transmission unit, its buses and its nodes.
ghost use Rattle.std.specs.Prelude.{◌≤◌, vec_len, map, IsTrue};
ghost use Rattle.plan_values.{specs.NodeValues.{node_value}, specs.Placed.{are_placed}};

use crate::nodes::{Bus, Node};
use crate::references::are_placed;

/// The transmission unit of a plan that says none, in bytes, which all nodes support.
pub const BASELINE_UNIT: u16 = mctp_transport::BASELINE_UNIT as u16;

/// The largest transmission unit of a plan, in bytes.
pub const LARGEST_UNIT: u16 = mctp_transport::MAX_UNIT as u16;

/// A planned network. Its ports name its own buses; its rows and owners name its own nodes.
#[derive(Debug, Drop)]
pub struct Plan {
    /// The transmission unit: the most payload bytes of a packet, 64 to 1024.
    pub unit: u16,
    /// At most 64. No two of them have one name where the plan was read from a text.
    pub buses: Vec<Bus>,
    /// At most 64.
    pub nodes: Vec<Node>,
    pub ghost least_unit: { 64 ≤ unit },
    pub ghost most_unit: { unit ≤ 1024 },
    pub ghost few_buses: { vec_len buses ≤ 64 },
    pub ghost few_nodes: { vec_len nodes ≤ 64 },
    pub ghost placed: { IsTrue (are_placed (vec_len buses) (map node_value nodes.items)) },
}

impl Plan {
    ghost use Rattle.std.specs.Prelude.{◌≡◌, ◌↔◌, ◌≤◌, vec_len, map, IsTrue, IsSome, IfSome};
    ghost use Rattle.plan_values.{specs.NodeValues.{node_value}, specs.Placed.{are_placed}};

    /// The plan of this transmission unit, these buses and these nodes. `None` where the unit is not 64 to 1024, where
    /// there are more than 64 buses or nodes, or where they name others than each other.
    pub fn of(unit: u16, buses: Vec<Bus>, nodes: Vec<Node>) -> Option<Plan>
        ensures lawful { IsSome result ↔ (64 ≤ unit) × (unit ≤ 1024) × (vec_len buses ≤ 64) × (vec_len nodes ≤ 64) × IsTrue (are_placed (vec_len buses) (map node_value nodes.items)) }
        ensures whole { IfSome result (λ plan. (plan.unit ≡ unit) × (plan.buses ≡ buses) × (plan.nodes ≡ nodes)) }
    {
        if !(BASELINE_UNIT..=LARGEST_UNIT).contains(&unit) {
            return None;
        }
        if buses.len() > 64 || nodes.len() > 64 || !are_placed(buses.len(), nodes.as_slice()) {
            return None;
        }
        Some(Plan { unit, buses, nodes })
    }
}
