//! The assignment of the riser network.
use super::networks::{certificate_of, plan_of};
use mctp_transport::Wire;
use net_check::check;
use net_sim::{Assignment, assign};
use plan_values::{Certificate, Plan};
use sample_texts::marks::{Mark, lacked, set_mark};
use sample_texts::riser::{CERTIFICATE, PLAN};
use std::alloc::Global;
use std::test::Fail;

/// A request by the names of its bus and its node, and its bytes.
type Asked = (&'static str, &'static str, &'static [u8]);

/// The requests in their order: the riser's endpoint ID 16 and its pool of 7 from 17 on, then 17 and 18.
const WANTED: [Asked; 4] = [
    ("b0", "riser", &[0, 0x80, 0x01, 0, 0x10]),
    ("b0", "riser", &[0, 0x80, 0x08, 0, 0x07, 0x11]),
    ("b1", "nic", &[0, 0x80, 0x01, 0, 0x11]),
    ("b1", "ssd", &[0, 0x80, 0x01, 0, 0x12]),
];

/// Whether a request is this one.
fn asks(plan: &Plan, assignment: &Assignment, wanted: &Asked) -> bool {
    let mut out = [0; 6];
    if assignment.body.len() > out.len() {
        return false;
    }
    let count = assignment.body.put(&mut out);
    let (Some(bus), Some(node)) = (
        plan.buses.get(assignment.bus),
        plan.nodes.get(assignment.node),
    ) else {
        return false;
    };
    bus.name.text.as_str() == wanted.0
        && node.name.text.as_str() == wanted.1
        && &out[..count] == wanted.2
}

/// Whether a list has just these requests.
fn asks_all(plan: &Plan, list: &[Assignment], wanted: &[Asked]) -> bool {
    for (assignment, wanted) in list.iter().zip(wanted) {
        if !asks(plan, assignment, wanted) {
            return false;
        }
    }
    list.len() == wanted.len()
}

/// Whether just these requests assign the riser network, or memory ran out between the marks.
fn is_assigned_or_lacked(
    alloc: Global,
    plan: &Plan,
    certificate: &Certificate,
) -> Result<bool, Fail> {
    let checked = check(alloc, plan, certificate)?;
    set_mark(alloc, Mark::Begins);
    let list = assign(alloc, &checked);
    set_mark(alloc, Mark::Ends);
    match list {
        Ok(list) => Ok(asks_all(plan, &list, &WANTED)),
        Err(_) => Ok(lacked(alloc)),
    }
}

/// `tools/try growths` refuses its growths one after another.
#[test]
fn refused_assign(rt: HostRuntime) -> Result<(), Fail> {
    let plan = plan_of(rt.alloc(), PLAN)?;
    let certificate = certificate_of(rt.alloc(), &plan, CERTIFICATE)?;
    assert!(rt; is_assigned_or_lacked(rt.alloc(), &plan, &certificate)?);
    Ok(())
}
