//! Whether what a plan's nodes name stands in the plan's lists.
ghost use Rattle.std.{specs.Prelude.{◌≡◌, ◌&&◌, length, map, nat_lt}, specs.List.{list_all}};
ghost use Rattle.plan_values.{specs.NodeValues.{node_value}, specs.Placed.{is_owner_placed, is_placed, are_placed}};

use crate::nodes::{Node, Port, Row};

/// Whether the ports, rows and owners of nodes name only so many buses, and these nodes.
pub fn are_placed(buses: usize, nodes: &[Node]) -> bool
    ensures { result ≡ are_placed buses (map node_value nodes.now) }
{
    are_among(buses, nodes.len(), nodes)
}

/// The same, said of the nodes themselves, where `are_placed` says it of their values.
fn are_among(buses: usize, count: usize, nodes: &[Node]) -> bool
    ensures { result ≡ list_all (is_placed buses count) nodes.now }
{
    nodes.iter().all(|node| is_placed(buses, count, node))
}

fn is_placed(buses: usize, nodes: usize, node: &Node) -> bool
    ensures { result ≡ is_placed buses nodes node.now }
{
    is_owner_placed(nodes, node.owner)
        && are_ways_placed(buses, nodes, node.ports.as_slice(), node.rows.as_slice())
}

fn is_owner_placed(nodes: usize, owner: Option<usize>) -> bool
    ensures { result ≡ is_owner_placed nodes owner }
{
    match owner {
        Some(owner) => owner < nodes,
        None => true,
    }
}

fn are_ways_placed(buses: usize, nodes: usize, ports: &[Port], rows: &[Row]) -> bool
    ensures { result ≡ (list_all (λ p. nat_lt p.bus buses) ports.now && list_all (λ r. nat_lt r.next nodes) rows.now) }
{
    are_ports_placed(buses, ports) && are_rows_placed(nodes, rows)
}

fn are_ports_placed(buses: usize, ports: &[Port]) -> bool
    ensures { result ≡ list_all (λ p. nat_lt p.bus buses) ports.now }
{
    ports.iter().all(|port| port.bus < buses)
}

fn are_rows_placed(nodes: usize, rows: &[Row]) -> bool
    ensures { result ≡ list_all (λ r. nat_lt r.next nodes) rows.now }
{
    rows.iter().all(|row| row.next < nodes)
}
