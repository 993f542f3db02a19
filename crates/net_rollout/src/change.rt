//! The steps from the rows of one plan to those of another.

use mctp_transport::Eid;
use net_rules::MoveObstacle;
use plan_values::{Certificate, Plan};

/// Endpoint IDs, one after another, that a node sends on by its new rows from a step on.
#[derive(Clone, Copy, Debug, PartialEq, Eq)]
pub struct Part {
    /// The index of the node in the plan's list.
    pub node: usize,
    /// The first of the endpoint IDs.
    pub first: Eid,
    /// The last of them.
    pub last: Eid,
    /// The index of the node to which the new rows send all of them. `None` where no new row covers any.
    pub next: Option<usize>,
}

/// What changes in a step.
#[derive(Debug, Drop)]
pub enum Change {
    /// The rows of these nodes, which become the new ones. They ascend by their indices in the plan's list.
    Nodes(Vec<usize>),
    /// Parts of the rows of nodes.
    Parts(Vec<Part>),
}

/// A step: a lawful move to a plan in between.
#[derive(Debug, Drop)]
pub struct Step {
    /// What changes.
    pub change: Change,
    /// The plan that the step leads to.
    pub after: Plan,
    /// The certificate of the move.
    pub certificate: Certificate,
}

/// The last step: a lawful move to the new plan itself.
#[derive(Debug, Drop)]
pub struct LastStep {
    /// The nodes whose rows change.
    pub nodes: Vec<usize>,
    /// The certificate of the move.
    pub certificate: Certificate,
}

/// How nodes get from the rows of one plan to those of another.
#[derive(Debug, Drop)]
pub enum Rollout {
    /// In any order, by this certificate.
    AnyOrder(Certificate),
    /// By these steps, one after the other, each in any order.
    Steps(Vec<Step>, LastStep),
    /// By these steps as far as they go. No further one was found, and this rules out the move from there to the new
    /// plan.
    Stuck(Vec<Step>, MoveObstacle),
    /// Not at all: a plan has no certificate by itself, or they differ in more than rows. This rules the move out.
    Unfit(MoveObstacle),
}
