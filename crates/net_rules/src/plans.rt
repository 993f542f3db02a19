//! The rows that nodes go by: those of one plan, or of two while they move from one to the other.
ghost use Rattle.std.specs.Prelude.{◌↔◌, ℕ, IsTrue};
ghost use Rattle.net_rules.{specs.PlanTables.{plans_value}, specs.Stretches.{IsStretch}, specs.Spans.{IsInSpan}};
ghost use Rattle.net_tables.specs.TwoPlans.{HasRowAlways, HasRowEver};

use crate::plan_index::PlanIndex;
use crate::span::Span;
use mctp_transport::Eid;

/// A plan, and where nodes move from its rows to those of another, that one too.
#[derive(Clone, Copy)]
pub struct Plans<'a> {
    /// The plan; of a move, the one before it.
    pub plan: &'a PlanIndex<'a>,
    /// Of a move, the plan after it, of which rows alone are taken.
    pub after: Option<&'a PlanIndex<'a>>,
}

impl<'a> Plans<'a> {
    /// Whether the node has a row for the endpoint ID in each of the plans.
    pub fn has_row_in_each(&self, node: usize, eid: Eid) -> bool
        ensures { IsTrue result ↔ HasRowAlways (plans_value self.now) node eid.value }
    {
        match self.after {
            Some(after) => self.plan.has_row(node, eid) && after.has_row(node, eid),
            None => self.plan.has_row(node, eid),
        }
    }

    /// Whether the node has a row for the endpoint ID in one of the plans.
    pub fn has_row_in_one(&self, node: usize, eid: Eid) -> bool
        ensures { IsTrue result ↔ HasRowEver (plans_value self.now) node eid.value }
    {
        match self.after {
            Some(after) => self.plan.has_row(node, eid) || after.has_row(node, eid),
            None => self.plan.has_row(node, eid),
        }
    }

    /// The end of a stretch from the endpoint ID on for which the node has rows or has none, in each plan for itself.
    pub fn row_border(&self, node: usize, eid: Eid) -> u16
        ensures always { IsStretch (HasRowAlways (plans_value self.now) node) eid.value result }
        ensures ever { IsStretch (HasRowEver (plans_value self.now) node) eid.value result }
    {
        let end = self.plan.row_border(node, eid);
        match self.after {
            Some(after) => end.min(after.row_border(node, eid)),
            None => end,
        }
    }

    /// Endpoint IDs that the node's rows in one of the plans cover: where there are such, all that are asked for.
    pub fn span_round(&self, node: usize, eids: Span) -> Span
        ensures { (e : ℕ) → IsInSpan result e → HasRowEver (plans_value self.now) node e }
    {
        let span = self.plan.span_from(node, eids.first);
        match self.after {
            Some(after) if !span.has_all_of(eids) => after.span_from(node, eids.first),
            _ => span,
        }
    }
}
