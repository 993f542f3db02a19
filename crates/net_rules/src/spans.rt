//! What rows cover, as spans of endpoint IDs that ascend.
ghost use Rattle.std.specs.Prelude.{◌↔◌, ◌≤◌, ℕ, IfOk, OnOk, IsTrue};
ghost use Rattle.net_tables.specs.Routing.{OfItem};
ghost use Rattle.net_rules.{specs.Following.{EndedBy}, specs.Stretches.{IsStretch}, specs.Spans.{IsInSpan, IsInSpans, SpansFollow, IsKept, IsAdded, AreJoined}};

use crate::span::Span;
use mctp_transport::Eid;
use plan_values::Row;
use std::alloc::{AllocError, Global};

/// What rows cover.
#[derive(Drop)]
pub struct Joined {
    /// Each ends before any later one begins.
    pub spans: Vec<Span>,
    /// Whether it was seen that no two rows share an endpoint ID.
    pub apart: bool,
}

/// What rows cover that stand in the order of their first endpoint IDs. None where they don't.
pub fn join(alloc: Global, rows: &[Row]) -> Result<Option<Joined>, AllocError>
    ensures { IfOk result (λ joined. AreJoined rows.now joined) }
{
    let mut spans = Vec::new(alloc);
    // The next row may lengthen the last span.
    let mut last = Span::none();
    let mut apart = true;
    for row in rows {
        let next = Span::of(row);
        if next.first < last.first {
            return Ok(None);
        }
        apart = stay_apart(apart, last, next);
        last = add(&mut spans, last, next)?;
    }
    keep(&mut spans, last)?;
    Ok(Some(Joined { spans, apart }))
}

/// Whether rows lie apart that did before one more, by the last span and that row.
fn stay_apart(apart: bool, last: Span, next: Span) -> bool
    ensures { IsTrue result → IsTrue apart × (last.end ≤ next.first) }
{
    apart && last.end <= next.first
}

/// Adds one more to the spans before the last one and to the last one, which is answered anew.
fn add(spans: &mut Vec<Span>, last: Span, next: Span) -> Result<Span, AllocError>
    requires follow { SpansFollow spans.old.items }
    requires below { (k : ℕ) → OfItem spans.old.items k (λ span. span.end ≤ last.first) }
    requires after { last.first ≤ next.first }
    ensures { IfOk result (λ new. IsAdded spans.old.items last next spans.new.items new) }
{
    if last.end < next.first {
        keep(spans, last)?;
        Ok(next)
    } else {
        Ok(last.joined(next))
    }
}

/// Adds a span that begins where the others have ended, unless it is empty.
fn keep(spans: &mut Vec<Span>, last: Span) -> Result<(), AllocError>
    requires follow { SpansFollow spans.old.items }
    requires below { (k : ℕ) → OfItem spans.old.items k (λ span. span.end ≤ last.first) }
    ensures { OnOk result (IsKept spans.old.items last spans.new.items) }
{
    if last.first < last.end {
        spans.push(last)?;
    }
    Ok(())
}

/// Whether the endpoint ID lies in one of the spans.
pub fn is_in_spans(spans: &[Span], eid: Eid) -> bool
    requires { SpansFollow spans.now }
    ensures { IsTrue result ↔ IsInSpans spans.now eid.value }
{
    let at = u16::from(eid.value);
    match spans.get(ended_by(spans, at)) {
        Some(span) => span.first <= at,
        None => false,
    }
}

/// The end of a stretch from the endpoint ID on that lies in one span, or in none.
pub fn span_border(spans: &[Span], eid: Eid) -> u16
    requires { SpansFollow spans.now }
    ensures { IsStretch (IsInSpans spans.now) eid.value result }
{
    let at = u16::from(eid.value);
    match spans.get(ended_by(spans, at)) {
        Some(span) if span.first <= at => span.end,
        Some(span) => span.first,
        None => 256,
    }
}

/// The first span that doesn't end by this number, if there is one.
pub fn span_from(spans: &[Span], at: u16) -> Span
    requires { SpansFollow spans.now }
    ensures { (e : ℕ) → IsInSpan result e → IsInSpans spans.now e }
{
    match spans.get(ended_by(spans, at)) {
        Some(span) => *span,
        None => Span::none(),
    }
}

/// How many spans end by this number. It is found by halving.
fn ended_by(spans: &[Span], at: u16) -> usize
    requires { SpansFollow spans.now }
    ensures { EndedBy (λ span. span.end) spans.now at result }
{
    spans.partition_point(|span| span.end <= at)
}
