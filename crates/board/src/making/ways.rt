//! Ways of the fewest hops over buses and bridges.
use super::{given_row, kind_of};
use crate::board::{Board, BoardNode, BoardRow};
use plan_values::Kind;
use std::alloc::{AllocError, Global};

/// Where a node sends on: through a port, to a next node.
#[derive(Clone, Copy)]
pub struct Link {
    pub next: usize,
    pub port: usize,
}

/// What ways go over, whatever endpoint IDs are chosen.
#[derive(Drop)]
pub struct Net {
    /// For each node, to whom it can send: in the order of the nodes, then of its ports.
    links: Vec<Vec<Link>>,
    /// For each node, whether it is a bridge.
    bridges: Vec<bool>,
}

/// What the ways of a board go over.
pub fn net_of(alloc: Global, board: &Board) -> Result<Net, AllocError> {
    let mut links = Vec::new(alloc);
    let mut bridges = Vec::new(alloc);
    for (index, node) in board.nodes.iter().enumerate() {
        links.push(links_of(alloc, board, index, node)?)?;
        bridges.push(kind_of(board, index, node) == Kind::Bridge)?;
    }
    Ok(Net { links, bridges })
}

fn links_of(
    alloc: Global,
    board: &Board,
    index: usize,
    node: &BoardNode,
) -> Result<Vec<Link>, AllocError> {
    let mut links = Vec::new(alloc);
    for (next, other) in board.nodes.iter().enumerate() {
        if next != index {
            add_links(&mut links, node, next, other)?;
        }
    }
    Ok(links)
}

fn add_links(
    links: &mut Vec<Link>,
    node: &BoardNode,
    next: usize,
    other: &BoardNode,
) -> Result<(), AllocError> {
    for (port, own) in node.ports.iter().enumerate() {
        if is_on(other, own.bus) {
            links.push(Link { next, port })?;
        }
    }
    Ok(())
}

fn is_on(node: &BoardNode, bus: usize) -> bool {
    for port in &node.ports {
        if port.bus == bus {
            return true;
        }
    }
    false
}

/// How many hops a node is from a destination, and where it sends what is for it.
#[derive(Clone, Copy)]
pub struct Step {
    pub hops: usize,
    pub link: Link,
}

/// For each node, the way to a destination for an endpoint ID, of the fewest hops, ties by the order of the nodes and
/// of the ports. A row that the board gives there is followed. None where no way leads there.
pub fn steps_to(
    alloc: Global,
    board: &Board,
    net: &Net,
    destination: usize,
    eid: u8,
) -> Result<Vec<Option<Step>>, AllocError> {
    let given = given_links(alloc, board, eid)?;
    let mut steps = first_steps(alloc, board.nodes.len(), destination)?;
    let mut last = [destination].to_vec(alloc)?;
    for hops in 0..board.nodes.len() {
        last = next_nodes(alloc, net, &given, &last, hops, &mut steps)?;
        if last.is_empty() {
            return Ok(steps);
        }
    }
    Ok(steps)
}

/// The links of the rows that the board gives for an endpoint ID.
#[derive(Drop)]
struct GivenLinks {
    /// For each node, its row's.
    links: Vec<Option<Link>>,
    /// The nodes that have such a row.
    nodes: Vec<usize>,
}

fn given_links(alloc: Global, board: &Board, eid: u8) -> Result<GivenLinks, AllocError> {
    let mut links = Vec::new(alloc);
    let mut nodes = Vec::new(alloc);
    for (index, node) in board.nodes.iter().enumerate() {
        let row = given_row(node, eid);
        if row.is_some() {
            nodes.push(index)?;
        }
        links.push(row.map(link_of))?;
    }
    Ok(GivenLinks { links, nodes })
}

fn link_of(row: BoardRow) -> Link {
    Link {
        next: row.next,
        port: row.port,
    }
}

fn first_steps(
    alloc: Global,
    nodes: usize,
    destination: usize,
) -> Result<Vec<Option<Step>>, AllocError> {
    let mut steps = Vec::new(alloc);
    for node in 0..nodes {
        steps.push(first_step(node, destination))?;
    }
    Ok(steps)
}

fn first_step(node: usize, destination: usize) -> Option<Step> {
    if node != destination {
        return None;
    }
    Some(Step {
        hops: 0,
        link: Link {
            next: destination,
            port: 0,
        },
    })
}

/// The nodes that are one hop further than the last ones. Each is on a bus of one of these, or has a given row.
fn next_nodes(
    alloc: Global,
    net: &Net,
    given: &GivenLinks,
    last: &[usize],
    hops: usize,
    steps: &mut Vec<Option<Step>>,
) -> Result<Vec<usize>, AllocError> {
    let mut found = Vec::new(alloc);
    for node in last {
        if let Some(links) = net.links.get(*node) {
            for link in links {
                add_node(net, given, link.next, hops, steps, &mut found)?;
            }
        }
    }
    for node in &given.nodes {
        add_node(net, given, *node, hops, steps, &mut found)?;
    }
    Ok(found)
}

/// Adds a node, if it is one hop further and wasn't found before.
fn add_node(
    net: &Net,
    given: &GivenLinks,
    node: usize,
    hops: usize,
    steps: &mut Vec<Option<Step>>,
    found: &mut Vec<usize>,
) -> Result<(), AllocError> {
    if is_open(steps, node) {
        if let Some(link) = link_on(net, given, node, hops, steps) {
            set_step(steps, node, hops, link);
            found.push(node)?;
        }
    }
    Ok(())
}

fn is_open(steps: &[Option<Step>], node: usize) -> bool {
    match steps.get(node) {
        Some(step) => step.is_none(),
        None => false,
    }
}

fn set_step(steps: &mut Vec<Option<Step>>, node: usize, hops: usize, link: Link) {
    if node < steps.len() {
        steps[node] = Some(Step {
            hops: hops.saturating_add(1),
            link,
        });
    }
}

/// By which link a node comes to one that is so many hops away and sends on.
fn link_on(
    net: &Net,
    given: &GivenLinks,
    node: usize,
    hops: usize,
    steps: &[Option<Step>],
) -> Option<Link> {
    if let Some(Some(link)) = given.links.get(node) {
        return if leads(net, *link, hops, steps) {
            Some(*link)
        } else {
            None
        };
    }
    for link in net.links.get(node)? {
        if leads(net, *link, hops, steps) {
            return Some(*link);
        }
    }
    None
}

/// Whether the link leads to a node that is so many hops away, and sends on. (The destination alone is none away.)
fn leads(net: &Net, link: Link, hops: usize, steps: &[Option<Step>]) -> bool {
    match steps.get(link.next) {
        Some(Some(step)) => step.hops == hops && (hops == 0 || is_bridge(net, link.next)),
        _ => false,
    }
}

/// Whether a node is a bridge.
pub fn is_bridge(net: &Net, node: usize) -> bool {
    net.bridges.get(node).copied() == Some(true)
}

/// Whether all nodes that are to reach another have a way there, along the rows that the board gives for an endpoint
/// ID of it.
pub fn is_reached(
    alloc: Global,
    board: &Board,
    net: &Net,
    destination: usize,
    eid: u8,
) -> Result<bool, AllocError> {
    let steps = steps_to(alloc, board, net, destination, eid)?;
    for (index, node) in board.nodes.iter().enumerate() {
        if is_open(&steps, index) && is_to_reach(node, destination, eid) {
            return Ok(false);
        }
    }
    Ok(true)
}

/// Whether a node is to reach another of this endpoint ID: the board asks for it, or gives a row for it there.
pub fn is_to_reach(node: &BoardNode, other: usize, eid: u8) -> bool {
    match &node.reaches {
        None => true,
        Some(nodes) => nodes.contains(&other) || given_row(node, eid).is_some(),
    }
}
