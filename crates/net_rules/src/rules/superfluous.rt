//! C16 and M03: the certificate gives nothing that the plan has no use for, or of a move neither plan.
ghost use Rattle.std.specs.Prelude.{◌≡◌, ℕ, ◌<◌, ◌↔◌, IsTrue, MatchOption, Some, length};
ghost use Rattle.net_tables.{specs.Routing.{Holds, eid_number}, specs.Repositories.{places_of}, specs.TwoPlans.{HasRowEver}};
ghost use Rattle.net_rules.{specs.Superfluous.{NeedsItsLevel, NeedsItsPlaces, NeedsWhatItIsGiven, NeedsItsRank, NeedsRankBy}, specs.PlanTables.{plans_value}, specs.Spans.{IsInSpan}, specs.Rules.{AtNodeOrEid}, specs.Search.{IsFirstSpot}};

use crate::node_ranges::NodeRanges;
use crate::plans::Plans;
use crate::span::Span;
use crate::spot::Spot;
use crate::stretches::{Stretched, first_broken};
use mctp_transport::Eid;
use net_tables::lookup::{
    eid_at, given_level_of, holds, owner_at, places_at, ranges_at, records_at,
};
use plan_values::{Certificate, Plan, RankRange};

/// Where the certificate gives the node a level or places that the plan has no use for, or a rank that none of the
/// plans has a use for.
pub fn superfluous_entry(plans: &Plans<'_>, certificate: &Certificate, node: usize) -> Option<Spot>
    requires { node < length plans.now.plan.now.nodes.items }
    ensures { IsFirstSpot (AtNodeOrEid (NeedsWhatItIsGiven plans.now.plan.now certificate.now node) (NeedsItsRank (plans_value plans.now) certificate.now node)) result }
{
    if !needs_what_it_is_given(plans.plan.plan(), certificate, node) {
        return Some(Spot::at_node());
    }
    match superfluous_rank(plans, certificate, node) {
        Some(eid) => Some(Spot::at_eid(eid)),
        None => None,
    }
}

/// The first endpoint ID for which the node is given a rank and needs none by any of the plans.
fn superfluous_rank(plans: &Plans<'_>, certificate: &Certificate, node: usize) -> Option<Eid>
    requires { node < length plans.now.plan.now.nodes.items }
    ensures { MatchOption result ((e : ℕ) → NeedsItsRank (plans_value plans.now) certificate.now node e)
        (λ eid. ¬ NeedsItsRank (plans_value plans.now) certificate.now node eid.value
        × ((d : ℕ) → d < eid.value → NeedsItsRank (plans_value plans.now) certificate.now node d)) }
{
    let ranges = ranges_at(certificate, node);
    if needs_all(plans, node, ranges) {
        return None;
    }
    let ranks = NodeRanges::of(ranges);
    let given = GivenRanks { plans, node, ranks };
    first_broken(&given, 0, 256)
}

/// Whether each range lies in one span of what the node's rows cover, and doesn't have the endpoint ID that the node
/// holds.
fn needs_all(plans: &Plans<'_>, node: usize, ranges: &[RankRange]) -> bool
    ensures { IsTrue result → (e : ℕ) → NeedsRankBy (plans_value plans.now) node ranges.now e }
{
    let held = eid_at(plans.plan.plan(), node);
    let mut span = Span::none();
    for range in ranges {
        let eids = Span::of_range(range);
        if !span.has_all_of(eids) {
            span = plans.span_round(node, eids);
        }
        if !span.has_all_of(eids) || has(eids, held) {
            return false;
        }
    }
    true
}

/// Whether the endpoint ID, if there is one, lies in the span.
fn has(eids: Span, eid: Option<Eid>) -> bool
    ensures { IsTrue result ↔ ((e : ℕ) × (eid_number eid ≡ Some e) × IsInSpan eids e) }
{
    match eid {
        Some(eid) => eids.has(eid),
        None => false,
    }
}

/// The ranks that ranges give a node.
#[derive(Drop)]
struct GivenRanks<'a> {
    plans: &'a Plans<'a>,
    node: usize,
    ranks: NodeRanges<'a>,
}

impl<'a> Stretched for GivenRanks<'a> {
    ghost use Rattle.std.specs.Prelude.{ℕ, ◌↔◌, IsTrue};
    ghost use Rattle.net_rules.{specs.PlanTables.{plans_value}, specs.Superfluous.{NeedsRankBy}};

    ghost Demand = { λ given e. NeedsRankBy (plans_value given.plans.now) given.node given.ranks e };

    fn is_met_at(&self, eid: Eid) -> bool {
        self.ranks.rank_of(eid) == 0 || may_be_ranked(self.plans, self.node, eid)
    }

    fn stretch_end(&self, eid: Eid) -> u16 {
        let given = self.ranks.stretch(eid, 0).end;
        let covered = self.plans.row_border(self.node, eid);
        let held = self.plans.plan.holders().border(eid);
        given.min(covered).min(held)
    }
}

/// Whether the node does not hold the endpoint ID and has a row for it in one of the plans.
fn may_be_ranked(plans: &Plans<'_>, node: usize, eid: Eid) -> bool
    ensures { IsTrue result ↔ (¬ Holds plans.now.plan.now node eid.value × HasRowEver (plans_value plans.now) node eid.value) }
{
    !holds(plans.plan.plan(), node, eid) && plans.has_row_in_one(node, eid)
}

/// Whether the node is given no level and no places beyond its need.
#[tactic(auto, unfolding(crate::specs::Superfluous::NeedsWhatItIsGiven))]
pub(crate) fn needs_what_it_is_given(plan: &Plan, certificate: &Certificate, node: usize) -> bool
    requires { node < length plan.now.nodes.items }
    ensures { IsTrue result ↔ NeedsWhatItIsGiven plan.now certificate.now node }
{
    needs_its_level(plan, certificate, node) && needs_its_places(plan, certificate, node)
}

/// Whether the node has an owner, or is given no level.
#[tactic(auto, unfolding(crate::specs::Superfluous::NeedsItsLevel))]
fn needs_its_level(plan: &Plan, certificate: &Certificate, node: usize) -> bool
    ensures { IsTrue result ↔ NeedsItsLevel plan.now certificate.now node }
{
    owner_at(plan, node).is_some() || given_level_of(certificate, node) == 0
}

/// Whether the node is given no more places than its terminus has records.
#[tactic(auto, unfolding(crate::specs::Superfluous::NeedsItsPlaces))]
fn needs_its_places(plan: &Plan, certificate: &Certificate, node: usize) -> bool
    ensures { IsTrue result ↔ NeedsItsPlaces plan.now certificate.now node }
{
    given_places(certificate, node) <= records_at(plan, node).len()
}

/// How many places the certificate gives a node's records.
fn given_places(certificate: &Certificate, node: usize) -> usize
    ensures { result ≡ length (places_of certificate.now node) }
{
    places_at(certificate, node).len()
}
