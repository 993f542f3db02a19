//! The ways of what is for one endpoint ID, while nodes go over to new ones. What is found here is only proposed: each
//! step is judged as a move before it is told.

use mctp_transport::Eid;
use net_tables::lookup::covers;
use plan_values::{Node, Plan};
use std::alloc::{AllocError, Global};

/// The most nodes of a plan.
const MOST_NODES: usize = 64;

/// Where a node sends what is for an endpoint ID.
#[derive(Clone, Copy, Debug, PartialEq, Eq)]
struct Way {
    port: u8,
    next: usize,
}

/// The ways of what is for one endpoint ID from each node. No node of a way leads back to itself, whichever of the
/// nodes that take their new ways in a step have done so.
#[derive(Debug, Drop)]
pub struct EidWays {
    pub eid: Eid,
    holder: Option<usize>,
    /// The ways of the nodes before the step.
    now: Vec<Option<Way>>,
    /// Their new ways.
    new: Vec<Option<Way>>,
    /// Which nodes take their new ways in the step.
    taken: Vec<bool>,
}

/// The ways for each endpoint ID that some node sends on otherwise by its new rows.
pub fn all_ways(alloc: Global, before: &Plan, after: &Plan) -> Result<Vec<EidWays>, AllocError> {
    let mut all = Vec::new(alloc);
    for eid in 8..=254 {
        let ways = EidWays::of(alloc, before, after, Eid::new(eid))?;
        if (0..before.nodes.len()).any(|node| ways.differs(node)) {
            all.push(ways)?;
        }
    }
    Ok(all)
}

/// Ends a step: what nodes took in it, they have from now on.
pub fn settle(all: &mut [EidWays]) {
    for ways in all.iter_mut() {
        ways.settle();
    }
}

impl EidWays {
    fn of(alloc: Global, before: &Plan, after: &Plan, eid: Eid) -> Result<EidWays, AllocError> {
        Ok(EidWays {
            eid,
            holder: before.nodes.iter().position(|node| node.eid == eid),
            now: ways_of(alloc, before, eid)?,
            new: ways_of(alloc, after, eid)?,
            taken: vec![in alloc; false; before.nodes.len()]?,
        })
    }

    /// Whether a node's new way is another than the one before.
    pub fn differs(&self, node: usize) -> bool {
        way_at(&self.now, node) != way_at(&self.new, node)
    }

    /// To which node a node sends by its new way.
    pub fn new_next(&self, node: usize) -> Option<usize> {
        next_at(&self.new, node)
    }

    /// A node takes its new way in this step.
    pub fn take(&mut self, node: usize) {
        if self.differs(node) {
            if let Some(taken) = self.taken.get_mut(node) {
                *taken = true;
            }
        }
    }

    /// Whether a node may take its new way beside those that do already: it leads on, and not back to the node; and
    /// where it is no way, nobody sends to the node.
    pub fn may_take(&self, node: usize) -> bool {
        if !self.differs(node) {
            return true;
        }
        match self.new_next(node) {
            Some(next) => self.leads_on(next) && !self.leads(next, node),
            None => self.holder.is_none() || !self.is_sent_to(node),
        }
    }

    fn settle(&mut self) {
        for node in 0..self.taken.len() {
            if self.is_taken(node) {
                let new = way_at(&self.new, node);
                if let Some(now) = self.now.get_mut(node) {
                    *now = new;
                }
            }
        }
        for taken in self.taken.iter_mut() {
            *taken = false;
        }
    }

    fn is_taken(&self, node: usize) -> bool {
        self.taken.get(node).is_some_and(|taken| *taken)
    }

    /// Where a node may send in this step: by its way before, and by its new one where it takes it.
    fn nexts(&self, node: usize) -> [Option<usize>; 2] {
        let new = if self.is_taken(node) {
            self.new_next(node)
        } else {
            None
        };
        [next_at(&self.now, node), new]
    }

    /// Whether what is sent to a node comes on from there, or has come.
    fn leads_on(&self, node: usize) -> bool {
        let Some(holder) = self.holder else {
            return true;
        };
        holder == node
            || next_at(&self.now, node).is_some()
                && (!self.is_taken(node) || self.new_next(node).is_some())
    }

    /// Whether some node may send to this one.
    fn is_sent_to(&self, node: usize) -> bool {
        (0..self.now.len()).any(|from| self.sends(from, node))
    }

    fn sends(&self, from: usize, to: usize) -> bool {
        let [now, new] = self.nexts(from);
        now == Some(to) || new == Some(to)
    }

    /// Whether what stands at one node may come to another.
    fn leads(&self, from: usize, to: usize) -> bool {
        let mut reached = [false; MOST_NODES];
        reach(&mut reached, Some(from));
        for _ in 0..MOST_NODES {
            if !self.spread(&mut reached) {
                break;
            }
        }
        is_reached(&reached, to)
    }

    /// Reaches the next nodes of those that are reached, and whether there was one more.
    fn spread(&self, reached: &mut [bool; MOST_NODES]) -> bool {
        let mut has_more = false;
        for node in 0..self.now.len() {
            if is_reached(reached, node) {
                let [now, new] = self.nexts(node);
                has_more |= reach(reached, now);
                has_more |= reach(reached, new);
            }
        }
        has_more
    }
}

fn is_reached(reached: &[bool; MOST_NODES], node: usize) -> bool {
    reached.get(node).is_some_and(|reached| *reached)
}

/// Reaches a node, and whether it was not reached before.
fn reach(reached: &mut [bool; MOST_NODES], node: Option<usize>) -> bool {
    let Some(node) = node else {
        return false;
    };
    if let Some(reached) = reached.get_mut(node) {
        let is_new = !*reached;
        *reached = true;
        return is_new;
    }
    false
}

/// Where the nodes of a plan send what is for an endpoint ID. Its holder sends it nowhere.
fn ways_of(alloc: Global, plan: &Plan, eid: Eid) -> Result<Vec<Option<Way>>, AllocError> {
    let mut ways = Vec::new(alloc);
    for node in &plan.nodes {
        ways.push(way_from(node, eid))?;
    }
    Ok(ways)
}

fn way_from(node: &Node, eid: Eid) -> Option<Way> {
    if node.eid == eid {
        return None;
    }
    for row in &node.rows {
        if covers(row, eid) {
            return Some(Way {
                port: row.port,
                next: row.next,
            });
        }
    }
    None
}

fn way_at(ways: &[Option<Way>], node: usize) -> Option<Way> {
    match ways.get(node) {
        Some(way) => *way,
        None => None,
    }
}

fn next_at(ways: &[Option<Way>], node: usize) -> Option<usize> {
    match way_at(ways, node) {
        Some(way) => Some(way.next),
        None => None,
    }
}
