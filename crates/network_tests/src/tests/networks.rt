//! Networks of plans over termini, one for each node that has one.
use net_check::{CheckedMove, check};
use net_plan::{certificate_of_text, plan_of_text};
use net_sim::{Network, planned_termini_count};
use pdr_repository::Terminus;
use plan_values::{Certificate, Plan};
use std::alloc::Global;
use std::test::Fail;

/// The plan of a text.
pub fn plan_of(alloc: Global, text: &str) -> Result<Plan, Fail> {
    Ok(plan_of_text(alloc, text.as_bytes())?)
}

/// The certificate of a text, of this plan.
pub fn certificate_of(alloc: Global, plan: &Plan, text: &str) -> Result<Certificate, Fail> {
    Ok(certificate_of_text(alloc, plan, text.as_bytes())?)
}

/// The network of a plan and its certificate, in which nothing has happened yet.
pub fn network_of<'a>(
    alloc: Global,
    plan: &'a Plan,
    certificate: &'a Certificate,
    termini: Vec<Box<dyn Terminus>>,
) -> Result<Network<'a>, Fail> {
    let checked = check(alloc, plan, certificate)?;
    if termini.len() != planned_termini_count(checked.plan()) {
        return Err(Fail::new("not one terminus for each node that has one"));
    }
    Ok(Network::new(alloc, checked, termini)?)
}

/// The network of a checked move, in which no node has switched yet.
pub fn moving_network_of<'a>(
    alloc: Global,
    checked: CheckedMove<'a>,
    termini: Vec<Box<dyn Terminus>>,
) -> Result<Network<'a>, Fail> {
    if termini.len() != planned_termini_count(checked.before()) {
        return Err(Fail::new("not one terminus for each node that has one"));
    }
    Ok(Network::new_move(alloc, checked, termini)?)
}
