//! C10: along a row the rank falls, for each endpoint ID that the node does not hold.
ghost use Rattle.std.specs.Prelude.{◌≡◌, ℕ, ◌<◌, ◌↔◌, IsTrue, All};
ghost use Rattle.net_tables.{specs.Routing.{Covers, Holds, eid_number}, specs.Ranks.{rank, Falls}};
ghost use Rattle.net_rules.{specs.Rules.{CertificateDemands}, specs.Search.{IsFirstSpot, IsFirstEid}};

use crate::certified_ranks::CertifiedRanks;
use crate::plan_index::PlanIndex;
use crate::rule::Rule;
use crate::spot::Spot;
use mctp_transport::Eid;
use net_tables::lookup::{holds, row_end, rows_at};
use plan_values::{Plan, Row};

/// Where a row leads to a node of the same rank or a higher one.
pub fn row_without_fall(
    plan: &Plan,
    index: &PlanIndex<'_>,
    ranks: &CertifiedRanks<'_>,
    node: usize,
) -> Option<Spot>
    requires { index.now ≡ plan.now }
    ensures { IsFirstSpot (CertificateDemands plan.now ranks.now Rule.C10 node) result }
{
    // Most ranks fall, and the rows are gone along fastest in order.
    if do_all_fall(plan, ranks, node, index.rows_in_order(node)) {
        return None;
    }
    first_row_without_fall(plan, ranks, node)
}

/// The same by a search along the rows as they stand.
fn first_row_without_fall(plan: &Plan, ranks: &CertifiedRanks<'_>, node: usize) -> Option<Spot>
    ensures { IsFirstSpot (CertificateDemands plan.now ranks.now Rule.C10 node) result }
{
    let rows = rows_at(plan, node);
    for (r, row) in rows.iter().enumerate() {
        if let Some(eid) = first_of_row(plan, ranks, node, row) {
            return Some(Spot::at_entry_eid(r, eid));
        }
    }
    None
}

/// The first of the row's endpoint IDs along which the rank does not fall, without any guess.
fn first_of_row(plan: &Plan, ranks: &CertifiedRanks<'_>, node: usize, row: &Row) -> Option<Eid>
    ensures { IsFirstEid row.now (Falls plan.now ranks.now node row.now) (eid_number result) }
{
    first_without_fall(plan, ranks, node, row, &mut Guesses::first())
}

/// Whether along each row the rank falls.
fn do_all_fall(plan: &Plan, ranks: &CertifiedRanks<'_>, node: usize, rows: &[Row]) -> bool
    ensures { IsTrue result → All (λ row. (e : ℕ) → Covers row e → Falls plan.now ranks.now node row e) rows.now }
{
    let mut guesses = Guesses::first();
    for row in rows {
        if first_without_fall(plan, ranks, node, row, &mut guesses).is_some() {
            return false;
        }
    }
    true
}

/// Where the next ranges of a node and of those that its rows lead to may stand. Rows that ascend come to the ranges of
/// each node one after the other.
#[derive(Drop)]
struct Guesses {
    own: usize,
    /// By the index of a node.
    next: [usize; 64],
}

impl Guesses {
    /// Each at its first range.
    fn first() -> Self {
        Guesses {
            own: 0,
            next: [0; 64],
        }
    }

    /// That of a node to which a row leads.
    fn of_next(&self, node: usize) -> usize {
        match self.next.get(node) {
            Some(guess) => *guess,
            None => 0,
        }
    }

    /// Keeps that of a node to which a row leads.
    fn keep_next(&mut self, node: usize, guess: usize) {
        if let Some(kept) = self.next.get_mut(node) {
            *kept = guess;
        }
    }
}

/// The first of the row's endpoint IDs along which the rank does not fall. It goes from piece to piece: neither of the
/// two ranks changes within one.
fn first_without_fall(
    plan: &Plan,
    ranks: &CertifiedRanks<'_>,
    node: usize,
    row: &Row,
    guesses: &mut Guesses,
) -> Option<Eid>
    ensures { IsFirstEid row.now (Falls plan.now ranks.now node row.now) (eid_number result) }
{
    let end = row_end(row).min(256);
    let mut start = u16::from(row.first.value);
    let mut own_guess = guesses.own;
    let mut next_guess = guesses.of_next(row.next);
    while start < end {
        let eid = Eid::new(start as u8);
        let own = ranks.stretch(node, eid, own_guess);
        let next = ranks.stretch(row.next, eid, next_guess);
        own_guess = own.guess;
        next_guess = next.guess;
        if next.rank < own.rank {
            start = own.end.min(next.end);
        } else if holds(plan, node, eid) {
            start += 1;
        } else {
            return Some(eid);
        }
    }
    guesses.own = own_guess;
    guesses.keep_next(row.next, next_guess);
    None
}

/// Whether the node holds the endpoint ID, or the rank is less at the next node.
pub(crate) fn falls(
    plan: &Plan,
    ranks: &CertifiedRanks<'_>,
    node: usize,
    next: usize,
    eid: Eid,
) -> bool
    ensures { IsTrue result ↔ (¬ Holds plan.now node eid.value → rank ranks.now next eid.value < rank ranks.now node eid.value) }
{
    holds(plan, node, eid) || ranks.rank_of(next, eid) < ranks.rank_of(node, eid)
}
