//! The rows of a node, ready for look-ups.
ghost use Rattle.std.{specs.Prelude.{◌≡◌, ◌↔◌, ℕ, IfOk, IsTrue}, specs.List.Sorted.{IsPermutation, IsNonDecreasingBy}};
ghost use Rattle.net_rules.{specs.Stretches.{IsStretch}, specs.Spans.{IsCovered, IsInSpan, IsJoined, PairsApart}};

use crate::span::Span;
use crate::spans::{Joined, is_in_spans, join, span_border, span_from};
use mctp_transport::Eid;
use plan_values::Row;
use std::alloc::{AllocError, Global};
use std::marker::Model;

/// Rows in any order, and what they cover.
#[derive(Drop)]
pub struct NodeRows<'a> {
    rows: &'a [Row],
    /// The same in the order of their first endpoint IDs, where they don't stand in it.
    ordered: Option<Vec<Row>>,
    joined: Joined,
}

impl<'a> Model for NodeRows<'a> {
    ghost use Rattle.std.{specs.Prelude.{List, IfSome}, specs.List.Sorted.{IsPermutation}};
    ghost use Rattle.plan_values.specs.declared.nodes.Row.{Row};
    ghost use Rattle.net_rules.specs.Spans.{IsJoined};

    ghost Value = { List Row };

    ghost view = { λ r. r.rows.now };

    ghost invariant = { λ r. IfSome r.ordered (λ ordered. IsPermutation r.rows.now ordered.items) × IsJoined r.rows.now r.joined };
}

impl<'a> NodeRows<'a> {
    /// These rows. It takes memory for what they cover, and for the rows in order where they don't stand in it.
    pub fn of(alloc: Global, rows: &'a [Row]) -> Result<Self, AllocError>
        ensures { IfOk result (λ node_rows. node_rows ≡ rows.now) }
    {
        if let Some(joined) = join(alloc, rows)? {
            return Ok(NodeRows {
                rows,
                ordered: None,
                joined,
            });
        }
        let ordered = in_order(alloc, rows)?;
        let joined = join_ordered(alloc, &ordered)?;
        Ok(NodeRows {
            rows,
            ordered: Some(ordered),
            joined,
        })
    }

    /// The rows in the order of their first endpoint IDs.
    pub fn in_order(&self) -> &[Row]
        ensures { IsPermutation self.now result.now }
    {
        match &self.ordered {
            Some(ordered) => ordered,
            None => self.rows,
        }
    }

    /// Whether it was seen that no two rows share an endpoint ID.
    pub fn are_apart(&self) -> bool
        ensures { IsTrue result → PairsApart self.now }
    {
        self.joined.apart
    }

    /// Whether a row covers the endpoint ID.
    pub fn cover(&self, eid: Eid) -> bool
        ensures { IsTrue result ↔ IsCovered self.now eid.value }
    {
        is_in_spans(&self.joined.spans, eid)
    }

    /// The end of a stretch from the endpoint ID on that rows cover, or none does.
    pub fn border(&self, eid: Eid) -> u16
        ensures { IsStretch (IsCovered self.now) eid.value result }
    {
        span_border(&self.joined.spans, eid)
    }

    /// Endpoint IDs that rows cover: those round the one of this number, where a row covers it.
    pub fn span_from(&self, at: u16) -> Span
        ensures { (e : ℕ) → IsInSpan result e → IsCovered self.now e }
    {
        span_from(&self.joined.spans, at)
    }
}

/// The rows in the order of their first endpoint IDs.
fn in_order(alloc: Global, rows: &[Row]) -> Result<Vec<Row>, AllocError>
    ensures same { IfOk result (λ ordered. IsPermutation rows.now ordered.items) }
    ensures ascend { IfOk result (λ ordered. IsNonDecreasingBy (λ row. row.first.value) ordered.items) }
{
    let mut ordered = Vec::new(alloc);
    ordered.extend_from_slice(rows)?;
    ordered.sort_unstable_by_key(|row| row.first.value);
    Ok(ordered)
}

/// What rows in the order of their first endpoint IDs cover.
fn join_ordered(alloc: Global, rows: &[Row]) -> Result<Joined, AllocError>
    requires { IsNonDecreasingBy (λ row. row.first.value) rows.now }
    ensures { IfOk result (λ joined. IsJoined rows.now joined) }
{
    match join(alloc, rows)? {
        Some(joined) => Ok(joined),
        None => unreachable!(),
    }
}
