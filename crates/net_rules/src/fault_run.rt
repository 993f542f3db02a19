//! Faults at neighbouring endpoint IDs.
ghost use Rattle.std.specs.Prelude.{◌≤◌};

use crate::rule::Rule;
use mctp_transport::Eid;

/// Endpoint IDs in a row, from the first to the last. It has one at least.
#[derive(Clone, Copy, Debug, PartialEq, Eq)]
pub struct EidSpan {
    pub first: Eid,
    pub last: Eid,
    pub ghost ordered: { first.value ≤ last.value },
}

/// A broken rule, and where: at a node or at one of its rows or records, or at neighbouring endpoint IDs of one of
/// these.
#[derive(Clone, Copy, Debug, PartialEq, Eq)]
pub struct FaultRun {
    pub rule: Rule,
    /// The index of the node in the plan's list.
    pub node: usize,
    /// The index of the row in the node's list, or of the record in its terminus's, where the rule speaks of one.
    pub entry: Option<usize>,
    /// The endpoint IDs, where the rule speaks of them.
    pub eids: Option<EidSpan>,
}
