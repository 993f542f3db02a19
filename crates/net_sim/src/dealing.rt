//! Termini dealt to the nodes of a plan.
ghost use Rattle.std.{specs.Prelude.{◌≡◌, ◌∷◌, List, IfOk, count_by, is_some, length, map, option_map}, specs.Vec.Iter.{into_iter_items}};
ghost use Rattle.plan_values.{specs.declared.nodes.Node.{Node}, specs.declared.certificate.Certificate.{Certificate}};
ghost use Rattle.net_sim.{specs.TerminusQueues.{queue_state}, specs.Dealing.{resting, dealt, planned_termini}};

use crate::terminus_queue::TerminusQueue;
use pdr_repository::Terminus;
use plan_values::{Node, Plan};
use std::alloc::{AllocError, Global};
use std::vec::IntoIter;

/// How many nodes of a plan have a terminus: its network takes as many termini.
pub fn planned_termini_count(plan: &Plan) -> usize
    ensures { (cert : Certificate) → result ≡ length (planned_termini plan.now cert) }
{
    with_terminus(&plan.nodes)
}

/// How many nodes have a terminus.
fn with_terminus(nodes: &[Node]) -> usize
    ensures { result ≡ count_by (λ node. is_some node.terminus) nodes.now }
{
    nodes.iter().filter(|node| node.terminus.is_some()).count()
}

/// A queue for each node that has a terminus, with the next of the termini.
pub fn deal<T: Terminus>(
    alloc: Global,
    plan: &Plan,
    termini: Vec<T>,
) -> Result<Vec<Option<TerminusQueue<T>>>, AllocError>
    ensures { IfOk result (λ queues. map (option_map (queue_state T.tid T.records)) queues.items
        ≡ dealt plan.now.nodes.items (map (resting T.tid T.records) termini.items)) }
{
    let mut queues = Vec::new(alloc);
    let mut left = termini.into_iter();
    for node in &plan.nodes {
        queues.push(deal_to(alloc, &plan.nodes, node, &mut left)?)?;
    }
    Ok(queues)
}

/// The queue of a node among these nodes, if it has a terminus and one is left.
fn deal_to<T: Terminus>(
    alloc: Global,
    among: &[Node],
    node: &Node,
    left: &mut IntoIter<T>,
) -> Result<Option<TerminusQueue<T>>, AllocError>
    ensures { IfOk result (λ queue. (nodes : List Node) → dealt (node.now ∷ nodes) (map (resting T.tid T.records) (into_iter_items left.old))
        ≡ option_map (queue_state T.tid T.records) queue
        ∷ dealt nodes (map (resting T.tid T.records) (into_iter_items left.new))) }
{
    if node.terminus.is_none() {
        return Ok(None);
    }
    match left.next() {
        Some(terminus) => Ok(Some(TerminusQueue::new(alloc, among, terminus)?)),
        None => Ok(None),
    }
}
