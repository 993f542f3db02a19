//! Where a rule is broken.

use crate::rule::Rule;
use mctp_transport::Eid;

/// A broken rule, and where. Of several faults the first is answered: by rule, then node, then entry, then endpoint
/// ID, where none comes before each number.
#[derive(Clone, Copy, Debug, PartialEq, Eq)]
pub struct Fault {
    pub rule: Rule,
    /// The index of the node in the plan's list.
    pub node: usize,
    /// The index of the row in the node's list, or of the record in its terminus's, where the rule speaks of one.
    pub entry: Option<usize>,
    /// The endpoint ID, where the rule speaks of one.
    pub eid: Option<Eid>,
}
