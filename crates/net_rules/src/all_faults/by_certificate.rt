//! Whether the certificate meets a rule at one place.
ghost use Rattle.std.specs.Prelude.{◌≡◌, ◌↔◌, ◌<◌, IsTrue, Some, None, length};
ghost use Rattle.net_tables.{specs.Routing.{eid_number}, specs.TwoPlans.{one_plan}};
ghost use Rattle.net_rules.{specs.Rules.{CertificateDemands}, specs.Superfluous.{NeedsItsRank}};

use crate::all_faults::{records, rows};
use crate::certified_ranks::CertifiedRanks;
use crate::rule::Rule;
use crate::rules::owners::is_below_its_owner;
use crate::rules::superfluous::needs_what_it_is_given;
use mctp_transport::Eid;
use net_tables::lookup::{has_row, holds};
use plan_values::Plan;

/// Whether it does at a row or a record of the node, or at the node itself, and an endpoint ID or none.
pub fn is_met(
    plan: &Plan,
    ranks: &CertifiedRanks<'_>,
    rule: Rule,
    node: usize,
    entry: Option<usize>,
    eid: Option<Eid>,
) -> bool
    requires { node < length plan.now.nodes.items }
    ensures { IsTrue result ↔ CertificateDemands plan.now ranks.now rule node entry (eid_number eid) }
{
    match entry {
        None => match eid {
            None => is_met_at_node(plan, ranks, rule, node),
            Some(eid) => is_met_at_eid(plan, ranks, rule, node, eid),
        },
        Some(entry) => match eid {
            None => is_met_at_entry(plan, ranks, rule, node, entry),
            Some(eid) => is_met_at_entry_eid(plan, ranks, rule, node, entry, eid),
        },
    }
}

fn is_met_at_node(plan: &Plan, ranks: &CertifiedRanks<'_>, rule: Rule, node: usize) -> bool
    requires { node < length plan.now.nodes.items }
    ensures { IsTrue result ↔ CertificateDemands plan.now ranks.now rule node None None }
{
    match rule {
        Rule::C07 => is_below_its_owner(plan, ranks.certificate(), node),
        Rule::C16 => needs_what_it_is_given(plan, ranks.certificate(), node),
        _ => true,
    }
}

fn is_met_at_eid(plan: &Plan, ranks: &CertifiedRanks<'_>, rule: Rule, node: usize, eid: Eid) -> bool
    requires { node < length plan.now.nodes.items }
    ensures { IsTrue result ↔ CertificateDemands plan.now ranks.now rule node None (Some eid.value) }
{
    match rule {
        Rule::C16 => needs_its_rank(plan, ranks, node, eid),
        _ => true,
    }
}

fn is_met_at_entry(
    plan: &Plan,
    ranks: &CertifiedRanks<'_>,
    rule: Rule,
    node: usize,
    entry: usize,
) -> bool
    ensures { IsTrue result ↔ CertificateDemands plan.now ranks.now rule node (Some entry) None }
{
    match rule {
        Rule::C14 => records::is_record_chained(plan, ranks.certificate(), node, entry),
        _ => true,
    }
}

fn is_met_at_entry_eid(
    plan: &Plan,
    ranks: &CertifiedRanks<'_>,
    rule: Rule,
    node: usize,
    entry: usize,
    eid: Eid,
) -> bool
    ensures { IsTrue result ↔ CertificateDemands plan.now ranks.now rule node (Some entry) (Some eid.value) }
{
    match rule {
        Rule::C10 => rows::does_row_fall(plan, ranks, node, entry, eid),
        _ => true,
    }
}

/// Whether the node is given no rank for the endpoint ID, or does not hold it and has a row for it.
#[tactic(auto, unfolding(crate::specs::Superfluous::NeedsItsRank))]
fn needs_its_rank(plan: &Plan, ranks: &CertifiedRanks<'_>, node: usize, eid: Eid) -> bool
    requires { node < length plan.now.nodes.items }
    ensures { IsTrue result ↔ NeedsItsRank (one_plan plan.now) ranks.now node eid.value }
{
    ranks.rank_of(node, eid) == 0 || !holds(plan, node, eid) && has_row(plan, node, eid)
}
