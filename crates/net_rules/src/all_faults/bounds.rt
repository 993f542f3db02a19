//! Between which endpoint IDs, and at which entries, a rule can be broken at a node.
ghost use Rattle.std.specs.Prelude.{ℕ, ◌<◌, ◌≤◌, length, Some};
ghost use Rattle.plan_values.specs.declared.certificate.Certificate.{Certificate};
ghost use Rattle.net_tables.{specs.Routing.{rows_of, Covers, Holds, OfItem}, specs.Repositories.{records_of}};
ghost use Rattle.net_rules.{specs.Locators.{LocatesTerminus}, specs.Rules.{PlanDemands, CertificateDemands}, specs.FaultLists.{IsOutside}};

use crate::all_faults::locators::located_eid;
use crate::rule::Rule;
use mctp_transport::Eid;
use net_tables::lookup::{eid_at, record_at, records_at, row_at, row_end, rows_at};
use plan_values::Plan;

/// Endpoint IDs from the first to before the end.
#[derive(Clone, Copy)]
pub struct Bounds {
    pub first: u16,
    pub end: u16,
    pub ghost within: { end ≤ 256 },
}

impl Bounds {
    ghost use Rattle.std.specs.Prelude.{◌≡◌, ◌+◌};

    /// No endpoint ID.
    fn none() -> Self
        ensures first { result.first ≡ 0 }
        ensures end { result.end ≡ 0 }
    {
        Bounds { first: 0, end: 0 }
    }

    /// Each endpoint ID.
    fn all() -> Self
        ensures first { result.first ≡ 0 }
        ensures end { result.end ≡ 256 }
    {
        Bounds { first: 0, end: 256 }
    }

    /// One endpoint ID.
    fn one(eid: Eid) -> Self
        ensures first { result.first ≡ eid.value }
        ensures end { result.end ≡ eid.value + 1 }
    {
        let first = u16::from(eid.value);
        Bounds {
            first,
            end: first + 1,
        }
    }
}

/// How many entries of a node a rule speaks of: its rows, the records of its terminus, or none.
pub fn entries_of(plan: &Plan, rule: Rule, node: usize) -> usize
    ensures plan { (entry e : ℕ) → result ≤ entry → PlanDemands plan.now rule node (Some entry) None × PlanDemands plan.now rule node (Some entry) (Some e) }
    ensures certificate { (cert : Certificate) (entry e : ℕ) → result ≤ entry
        → CertificateDemands plan.now cert rule node (Some entry) None × CertificateDemands plan.now cert rule node (Some entry) (Some e) }
{
    match rule {
        Rule::C04 | Rule::C05 | Rule::C06 | Rule::C10 | Rule::C11 => rows_at(plan, node).len(),
        Rule::C12 | Rule::C13 | Rule::C14 | Rule::C15 => records_at(plan, node).len(),
        _ => 0,
    }
}

/// Between which endpoint IDs the rule can be broken at an entry of the node, or at the node itself.
pub fn eids_of(plan: &Plan, rule: Rule, node: usize, entry: Option<usize>) -> Bounds
    ensures plan { (e : ℕ) → IsOutside result.first result.end e → PlanDemands plan.now rule node entry (Some e) }
    ensures certificate { (cert : Certificate) (e : ℕ) → IsOutside result.first result.end e → CertificateDemands plan.now cert rule node entry (Some e) }
{
    match entry {
        None => eids_of_node(plan, rule, node),
        Some(entry) => eids_of_entry(plan, rule, node, entry),
    }
}

fn eids_of_node(plan: &Plan, rule: Rule, node: usize) -> Bounds
    ensures plan { (e : ℕ) → IsOutside result.first result.end e → PlanDemands plan.now rule node None (Some e) }
    ensures certificate { (cert : Certificate) (e : ℕ) → IsOutside result.first result.end e → CertificateDemands plan.now cert rule node None (Some e) }
{
    match rule {
        Rule::C02 | Rule::C03 | Rule::C08 => held_by(plan, node),
        Rule::C16 => Bounds::all(),
        _ => Bounds::none(),
    }
}

fn eids_of_entry(plan: &Plan, rule: Rule, node: usize, entry: usize) -> Bounds
    ensures plan { (e : ℕ) → IsOutside result.first result.end e → PlanDemands plan.now rule node (Some entry) (Some e) }
    ensures certificate { (cert : Certificate) (e : ℕ) → IsOutside result.first result.end e → CertificateDemands plan.now cert rule node (Some entry) (Some e) }
{
    match rule {
        Rule::C10 | Rule::C11 => covered_by(plan, node, entry),
        Rule::C15 => located_by(plan, node, entry),
        _ => Bounds::none(),
    }
}

/// The node's own endpoint ID.
fn held_by(plan: &Plan, node: usize) -> Bounds
    ensures { (e : ℕ) → IsOutside result.first result.end e → ¬ Holds plan.now node e }
{
    match eid_at(plan, node) {
        Some(eid) => Bounds::one(eid),
        None => Bounds::none(),
    }
}

/// Those of a row.
fn covered_by(plan: &Plan, node: usize, row: usize) -> Bounds
    ensures { (e : ℕ) → IsOutside result.first result.end e → OfItem (rows_of plan.now node) row (λ r. ¬ Covers r e) }
{
    match row_at(plan, node, row) {
        Some(row) => Bounds {
            first: u16::from(row.first.value),
            end: row_end(row).min(256),
        },
        None => Bounds::none(),
    }
}

/// That of a record, where it is a terminus locator.
fn located_by(plan: &Plan, node: usize, index: usize) -> Bounds
    ensures { (e : ℕ) → IsOutside result.first result.end e → OfItem (records_of plan.now node) index (λ r. LocatesTerminus plan.now r e) }
{
    match record_at(plan, node, index) {
        Some(listed) => match located_eid(listed) {
            Some(eid) => Bounds::one(eid),
            None => Bounds::none(),
        },
        None => Bounds::none(),
    }
}
