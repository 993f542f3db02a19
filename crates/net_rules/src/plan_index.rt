//! A plan with what is looked up often.
ghost use Rattle.std.{specs.Prelude.{◌≡◌, ◌↔◌, ℕ, IfOk, IsTrue}, specs.List.Sorted.{IsPermutation}};
ghost use Rattle.net_tables.specs.Routing.{HasRow, rows_of};
ghost use Rattle.net_rules.{specs.RowsByNode.{AreRowsByNode}, specs.Stretches.{IsStretch}, specs.Spans.{IsInSpan, PairsApart}};

use crate::holders::Holders;
use crate::node_rows::NodeRows;
use crate::span::Span;
use mctp_transport::Eid;
use net_tables::lookup::{has_row, rows_at};
use plan_values::{Plan, Row};
use std::alloc::{AllocError, Global};
use std::marker::Model;

/// A plan, the first holders of its endpoint IDs, and what the rows of each node cover.
#[derive(Drop)]
pub struct PlanIndex<'a> {
    plan: &'a Plan,
    holders: Holders<'a>,
    /// By the index of the node.
    rows: Vec<NodeRows<'a>>,
}

impl<'a> Model for PlanIndex<'a> {
    ghost use Rattle.std.specs.Prelude.{◌≡◌};
    ghost use Rattle.plan_values.specs.declared.plan.Plan.{Plan};
    ghost use Rattle.net_rules.specs.RowsByNode.{AreRowsByNode};

    ghost Value = { Plan };

    ghost view = { λ i. i.plan.now };

    ghost invariant = { λ i. (i.holders ≡ i.plan.now) × AreRowsByNode i.plan.now i.rows.items };
}

impl<'a> PlanIndex<'a> {
    /// Of the plan. It takes memory.
    pub fn of(alloc: Global, plan: &'a Plan) -> Result<Self, AllocError>
        ensures { IfOk result (λ index. index ≡ plan.now) }
    {
        Ok(PlanIndex {
            plan,
            holders: Holders::of(alloc, plan)?,
            rows: rows_by_node(alloc, plan)?,
        })
    }

    /// The plan.
    pub fn plan(&self) -> &'a Plan
        ensures { result.now ≡ self.now }
    {
        self.plan
    }

    /// The first holders of its endpoint IDs.
    pub fn holders(&self) -> &Holders<'a>
        ensures { result.now ≡ self.now }
    {
        &self.holders
    }

    /// The rows of the node in the order of their first endpoint IDs.
    pub fn rows_in_order(&self, node: usize) -> &[Row]
        ensures { IsPermutation (rows_of self.now node) result.now }
    {
        match self.rows.get(node) {
            Some(rows) => rows.in_order(),
            None => rows_at(self.plan, node),
        }
    }

    /// Whether it was seen that no two rows of the node share an endpoint ID.
    pub fn are_rows_apart(&self, node: usize) -> bool
        ensures { IsTrue result → PairsApart (rows_of self.now node) }
    {
        match self.rows.get(node) {
            Some(rows) => rows.are_apart(),
            None => false,
        }
    }

    /// Whether the node has a row for the endpoint ID.
    pub fn has_row(&self, node: usize, eid: Eid) -> bool
        ensures { IsTrue result ↔ HasRow self.now node eid.value }
    {
        match self.rows.get(node) {
            Some(rows) => rows.cover(eid),
            None => has_row(self.plan, node, eid),
        }
    }

    /// The end of a stretch from the endpoint ID on for which the node has rows, or has none.
    pub fn row_border(&self, node: usize, eid: Eid) -> u16
        ensures { IsStretch (HasRow self.now node) eid.value result }
    {
        match self.rows.get(node) {
            Some(rows) => rows.border(eid),
            None => u16::from(eid.value) + 1,
        }
    }

    /// Endpoint IDs that rows of the node cover: those round the one of this number, where a row covers it.
    pub fn span_from(&self, node: usize, at: u16) -> Span
        ensures { (e : ℕ) → IsInSpan result e → HasRow self.now node e }
    {
        match self.rows.get(node) {
            Some(rows) => rows.span_from(at),
            None => Span::none(),
        }
    }
}

/// The rows of each node.
fn rows_by_node(alloc: Global, plan: &Plan) -> Result<Vec<NodeRows<'_>>, AllocError>
    ensures { IfOk result (λ by_node. AreRowsByNode plan.now by_node.items) }
{
    let mut by_node = Vec::with_capacity(alloc, plan.nodes.len())?;
    for node in 0..plan.nodes.len() {
        by_node.push(NodeRows::of(alloc, rows_at(plan, node))?)?;
    }
    Ok(by_node)
}
