//! Which packets a plan has on a bus.
ghost use Rattle.std.specs.Prelude.{◌≡◌, ◌≢◌, ◌↔◌, IfOk, IsTrue, MatchOption, option_map, true, false};
ghost use Rattle.net_tables.specs.Routing.{Holds};
ghost use Rattle.audited_captures.{specs.Judging.{unplanned_value, why_by}, specs.Traffic.{LacksSender, LacksReceiver, is_over, is_one_over, IsPlanned, IsJudged}};

use mctp_transport::Eid;
use net_check::Checked;
use net_questions::{End, Way, WayStep, follow};
use net_tables::lookup::{bus_at, holder, holds, is_held};
use plan_values::Plan;
use std::alloc::{AllocError, Global};

/// Why packets from an endpoint ID to another aren't planned.
#[derive(Debug, Drop)]
pub enum Unplanned {
    /// No node holds the source.
    NoSender,
    /// No node holds the destination.
    NoReceiver,
    /// No node holds the source, and none the destination.
    Nobody,
    /// There is no way from the one node to the other.
    NoWay,
    /// The way doesn't go over the bus, but along these steps.
    Elsewhere(Vec<WayStep>),
}

/// Why packets from an endpoint ID to another aren't planned on a bus, or on any bus where none is given. `None` where
/// they are.
pub fn judged(
    alloc: Global,
    checked: &Checked,
    bus: Option<usize>,
    source: Eid,
    destination: Eid,
) -> Result<Option<Unplanned>, AllocError>
    ensures { IfOk result (λ why. IsJudged checked.now.0 bus source.value destination.value (option_map unplanned_value why)) }
{
    let plan = checked.plan();
    match (
        lacks_sender(plan, source),
        lacks_receiver(plan, destination),
    ) {
        (true, true) => Ok(Some(Unplanned::Nobody)),
        (true, false) => Ok(Some(Unplanned::NoSender)),
        (false, true) => Ok(Some(Unplanned::NoReceiver)),
        (false, false) => judged_by_way(alloc, checked, bus, source, destination),
    }
}

/// Whether no node holds the source, and it isn't the null endpoint ID.
fn lacks_sender(plan: &Plan, source: Eid) -> bool
    ensures { IsTrue result ↔ LacksSender plan.now source.value }
{
    source.value != 0 && !is_held(plan, source)
}

/// Whether no node holds the destination, and it is neither the null endpoint ID nor the one for all.
fn lacks_receiver(plan: &Plan, destination: Eid) -> bool
    ensures { IsTrue result ↔ LacksReceiver plan.now destination.value }
{
    destination.value != 0 && destination.value != 255 && !is_held(plan, destination)
}

/// The same where nobody lacks.
fn judged_by_way(
    alloc: Global,
    checked: &Checked,
    bus: Option<usize>,
    source: Eid,
    destination: Eid,
) -> Result<Option<Unplanned>, AllocError>
    requires sent { ¬ LacksSender checked.now.0 source.value }
    requires taken { ¬ LacksReceiver checked.now.0 destination.value }
    ensures { IfOk result (λ why. IsJudged checked.now.0 bus source.value destination.value (option_map unplanned_value why)) }
{
    let plan = checked.plan();
    let Some(from) = holder(plan, source) else {
        return Ok(None);
    };
    let Some(to) = holder(plan, destination) else {
        return Ok(None);
    };
    judged_between(alloc, checked, bus, source, destination, from, to)
}

/// The same between two nodes.
fn judged_between(
    alloc: Global,
    checked: &Checked,
    bus: Option<usize>,
    source: Eid,
    destination: Eid,
    from: usize,
    to: usize,
) -> Result<Option<Unplanned>, AllocError>
    requires sent { ¬ LacksSender checked.now.0 source.value }
    requires taken { ¬ LacksReceiver checked.now.0 destination.value }
    requires sender { Holds checked.now.0 from source.value }
    requires receiver { Holds checked.now.0 to destination.value }
    ensures { IfOk result (λ why. IsJudged checked.now.0 bus source.value destination.value (option_map unplanned_value why)) }
{
    let way = follow(alloc, checked, from, destination)?;
    let Way { steps, end, .. } = way;
    Ok(why_of(checked.plan(), bus, steps, end))
}

/// Why a way of these steps that ends so isn't planned.
fn why_of(plan: &Plan, bus: Option<usize>, steps: Vec<WayStep>, end: End) -> Option<Unplanned>
    ensures { option_map unplanned_value result ≡ why_by plan.now bus steps.items end }
{
    match end {
        End::Stops(_) => Some(Unplanned::NoWay),
        End::Arrives => {
            if is_one_over(plan, bus, &steps) {
                None
            } else {
                Some(Unplanned::Elsewhere(steps))
            }
        }
    }
}

/// Whether one of the steps goes over the bus.
fn is_one_over(plan: &Plan, bus: Option<usize>, steps: &[WayStep]) -> bool
    ensures { result ≡ is_one_over plan.now bus steps.now }
{
    for step in steps {
        if is_over(plan, bus, step) {
            return true;
        }
    }
    false
}

fn is_over(plan: &Plan, bus: Option<usize>, step: &WayStep) -> bool
    ensures { result ≡ is_over plan.now bus step.now }
{
    let Some(bus) = bus else {
        return true;
    };
    match bus_at(plan, step.node, step.hop.port) {
        Some(other) => other == bus,
        None => false,
    }
}
