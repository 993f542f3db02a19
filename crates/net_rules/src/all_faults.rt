//! `faults`: every fault of a plan, or of a plan and its certificate.
ghost use Rattle.std.specs.Prelude.{◌≡◌, ◌+◌, ◌<◌, ◌≤◌, ◌∷◌, [], ℕ, Some, IfOk, OnOk, length, option_map};
ghost use Rattle.net_rules.{specs.Faults.{order_of, order_of_number}, specs.FaultLists.{DemandsOf, AreFaults, AreFaultsBefore}};

mod bounds;
mod by_certificate;
mod by_plan;
mod judge;
mod locators;
mod records;
mod rows;
mod site;

use crate::all_faults::bounds::{eids_of, entries_of};
use crate::all_faults::judge::Judge;
use crate::all_faults::site::Site;
use crate::fault_run::{EidSpan, FaultRun};
use crate::rule::{RULES, Rule};
use crate::stretches::first_broken;
use plan_values::{Certificate, Plan};
use std::alloc::{AllocError, Global};

/// Every fault of the plan and the certificate, or without one of the plan alone, in the order of the rules. Faults at
/// neighbouring endpoint IDs of one row, of one record or of one node are one run.
pub fn faults(
    alloc: Global,
    plan: &Plan,
    certificate: Option<&Certificate>,
) -> Result<Vec<FaultRun>, AllocError>
    ensures { IfOk result (λ runs. AreFaults plan.now (option_map (λ c. c.now) certificate.entry) runs.items) }
{
    let judge = Judge::of(alloc, plan, certificate)?;
    let mut runs = Vec::new(alloc);
    for rule in RULES {
        add_of_rule(alloc, &judge, rule, &mut runs)?;
    }
    Ok(runs)
}

/// Adds the faults of a rule to those of the rules before it.
fn add_of_rule(
    alloc: Global,
    judge: &Judge<'_>,
    rule: Rule,
    runs: &mut Vec<FaultRun>,
) -> Result<(), AllocError>
    requires { AreFaultsBefore judge.now.plan.now judge.now.ranks (order_of rule ∷ []) runs.old.items }
    ensures { OnOk result (AreFaultsBefore judge.now.plan.now judge.now.ranks ((order_of rule + 1) ∷ []) runs.new.items) }
{
    for node in 0..judge.plan.nodes.len() {
        add_at_node(alloc, judge, rule, node, runs)?;
    }
    Ok(())
}

/// Adds the faults at a node. Most nodes have none, which the search for a first one finds in less time.
fn add_at_node(
    alloc: Global,
    judge: &Judge<'_>,
    rule: Rule,
    node: usize,
    runs: &mut Vec<FaultRun>,
) -> Result<(), AllocError>
    requires within { node < length judge.now.plan.now.nodes.items }
    requires before { AreFaultsBefore judge.now.plan.now judge.now.ranks (order_of rule ∷ node ∷ []) runs.old.items }
    ensures { OnOk result (AreFaultsBefore judge.now.plan.now judge.now.ranks (order_of rule ∷ (node + 1) ∷ []) runs.new.items) }
{
    let is_met = judge.is_met_at_node(alloc, rule, node)?;
    if is_met {
        return Ok(());
    }
    add_at_entries(judge, rule, node, runs)
}

/// Adds the faults at the node itself, and then those at each of its rows or records.
fn add_at_entries(
    judge: &Judge<'_>,
    rule: Rule,
    node: usize,
    runs: &mut Vec<FaultRun>,
) -> Result<(), AllocError>
    requires within { node < length judge.now.plan.now.nodes.items }
    requires before { AreFaultsBefore judge.now.plan.now judge.now.ranks (order_of rule ∷ node ∷ []) runs.old.items }
    ensures { OnOk result (AreFaultsBefore judge.now.plan.now judge.now.ranks (order_of rule ∷ (node + 1) ∷ []) runs.new.items) }
{
    add_at_entry(judge, rule, node, None, runs)?;
    for entry in 0..entries_of(judge.plan, rule, node) {
        add_at_entry(judge, rule, node, Some(entry), runs)?;
    }
    Ok(())
}

/// Adds the faults at a row or a record, or at the node itself: the one that no endpoint ID has, and then the others.
fn add_at_entry(
    judge: &Judge<'_>,
    rule: Rule,
    node: usize,
    entry: Option<usize>,
    runs: &mut Vec<FaultRun>,
) -> Result<(), AllocError>
    requires within { node < length judge.now.plan.now.nodes.items }
    requires before { AreFaultsBefore judge.now.plan.now judge.now.ranks (order_of rule ∷ node ∷ order_of_number entry ∷ []) runs.old.items }
    ensures { OnOk result (AreFaultsBefore judge.now.plan.now judge.now.ranks (order_of rule ∷ node ∷ (order_of_number entry + 1) ∷ []) runs.new.items) }
{
    let site = Site {
        judge,
        rule,
        node,
        entry,
    };
    add_alone(&site, runs)?;
    add_at_eids(&site, runs)
}

/// Adds the fault that no endpoint ID has.
fn add_alone(site: &Site<'_>, runs: &mut Vec<FaultRun>) -> Result<(), AllocError>
    requires { AreFaultsBefore site.now.judge.now.plan.now site.now.judge.now.ranks
        (order_of site.now.rule ∷ site.now.node ∷ order_of_number site.now.entry ∷ []) runs.old.items }
    ensures { OnOk result (AreFaultsBefore site.now.judge.now.plan.now site.now.judge.now.ranks
        (order_of site.now.rule ∷ site.now.node ∷ order_of_number site.now.entry ∷ 1 ∷ []) runs.new.items) }
{
    if site.is_met_alone() {
        return Ok(());
    }
    runs.push(site.run(None))?;
    Ok(())
}

/// Adds the faults at endpoint IDs, each run of neighbouring ones as one.
fn add_at_eids(site: &Site<'_>, runs: &mut Vec<FaultRun>) -> Result<(), AllocError>
    requires { AreFaultsBefore site.now.judge.now.plan.now site.now.judge.now.ranks
        (order_of site.now.rule ∷ site.now.node ∷ order_of_number site.now.entry ∷ 1 ∷ []) runs.old.items }
    ensures { OnOk result (AreFaultsBefore site.now.judge.now.plan.now site.now.judge.now.ranks
        (order_of site.now.rule ∷ site.now.node ∷ (order_of_number site.now.entry + 1) ∷ []) runs.new.items) }
{
    let bounds = eids_of(site.judge.plan, site.rule, site.node, site.entry);
    let mut start = bounds.first;
    while let Some(first) = first_broken(site, start, bounds.end) {
        let last = site.last_broken(first, bounds);
        runs.push(site.run(Some(EidSpan { first, last })))?;
        start = u16::from(last.value) + 1;
    }
    Ok(())
}
