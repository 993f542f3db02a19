//! Calls of which any growth of memory may be refused: each answers as it does with ample memory, or that it ran out.
//! `tools/try growths` refuses the growths one after another.
use super::faults::{FaultAt, found, is_at};
use mctp_transport::Eid;
use net_check::{CertifyError, MoveError, MoveFault, MoveRule, Rule, certify, check_move};
use net_plan::{certificate_of_text, plan_of_text};
use plan_values::{Certificate, Plan};
use sample_texts::certificates::is_the_riser_certificate;
use sample_texts::marks::{Mark, lacked, set_mark};
use sample_texts::riser::{CERTIFICATE, PLAN};
use sample_texts::two_ways::{RANKS_OF_TWO_WAYS, TWO_WAYS};
use sample_texts::{Changes, edited};
use std::alloc::Global;
use std::test::Fail;

/// Whether the check finds this fault, or none, with these changes of the certificate.
fn is_found(
    alloc: Global,
    plan: &Plan,
    changes: Changes,
    wanted: &Option<FaultAt>,
) -> Result<bool, Fail> {
    let text = edited(alloc, CERTIFICATE, changes)?;
    let certificate = certificate_of_text(alloc, plan, text.as_str().as_bytes())?;
    set_mark(alloc, Mark::Begins);
    let found = found(alloc, plan, &certificate);
    set_mark(alloc, Mark::Ends);
    match found {
        Ok(found) => Ok(is_at(found, wanted)),
        Err(_) => Ok(lacked(alloc)),
    }
}

/// The rank of nic for host's endpoint ID is no higher than riser's.
const TOO_LOW_A_RANK: (&str, &str) = (r#"[{"first":8,"rank":2"#, r#"[{"first":8,"rank":1"#);

#[test]
fn refused_check(rt: HostRuntime) -> Result<(), Fail> {
    let alloc = rt.alloc();
    let plan = plan_of_text(alloc, PLAN.as_bytes())?;
    assert!(rt; is_found(alloc, &plan, &[], &None)?);
    let found = Some((Rule::C10, 2, Some(0), Some(8)));
    assert!(rt; is_found(alloc, &plan, &[TOO_LOW_A_RANK], &found)?);
    Ok(())
}

/// What `certify` answers, between marks.
fn certified(alloc: Global, plan: &Plan) -> Result<Certificate, CertifyError> {
    set_mark(alloc, Mark::Begins);
    let made = certify(alloc, plan);
    set_mark(alloc, Mark::Ends);
    made
}

/// Whether the certificate of the riser network is made, which its text gives as well.
fn is_certified(alloc: Global, plan: &Plan) -> bool {
    match certified(alloc, plan) {
        Ok(certificate) => is_the_riser_certificate(&certificate),
        Err(error) => matches!(error, CertifyError::OutOfMemory) && lacked(alloc),
    }
}

#[test]
fn refused_certify(rt: HostRuntime) -> Result<(), Fail> {
    let plan = plan_of_text(rt.alloc(), PLAN.as_bytes())?;
    assert!(rt; is_certified(rt.alloc(), &plan));
    Ok(())
}

/// Whether `certify` finds that host and riser own one another.
fn is_owner_loop(alloc: Global, plan: &Plan) -> bool {
    match certified(alloc, plan) {
        Err(CertifyError::OwnerLoop(nodes)) => nodes.as_slice() == [0, 1, 0].as_slice(),
        Err(CertifyError::OutOfMemory) => lacked(alloc),
        _ => false,
    }
}

/// The riser network's plan with this change.
fn changed(alloc: Global, change: (&str, &str)) -> Result<Plan, Fail> {
    let text = edited(alloc, PLAN, &[change])?;
    Ok(plan_of_text(alloc, text.as_str().as_bytes())?)
}

#[test]
fn refused_certify_of_a_loop(rt: HostRuntime) -> Result<(), Fail> {
    let owned = (r#""eid":8,"owner":null"#, r#""eid":8,"owner":"riser""#);
    let plan = changed(rt.alloc(), owned)?;
    assert!(rt; is_owner_loop(rt.alloc(), &plan));
    Ok(())
}

/// Whether the check of a move finds this, or nothing, or memory ran out.
fn is_move(
    alloc: Global,
    before: &Plan,
    changes: Changes,
    wanted: Option<MoveError>,
) -> Result<bool, Fail> {
    let after = plan_of_text(alloc, edited(alloc, TWO_WAYS, changes)?.as_bytes())?;
    let certificate = certificate_of_text(alloc, before, RANKS_OF_TWO_WAYS.as_bytes())?;
    set_mark(alloc, Mark::Begins);
    let found = check_move(alloc, before, &after, &certificate).err();
    set_mark(alloc, Mark::Ends);
    match found {
        Some(MoveError::OutOfMemory) => Ok(lacked(alloc)),
        found => Ok(found == wanted),
    }
}

/// Host goes by right in place of left.
const BY_RIGHT: (&str, &str) = (r#""left"}]"#, r#""right"}]"#);

/// Left has no row any more.
const LEFT_IS_OUT: (&str, &str) = (r#"{"first":17,"size":1,"port":1,"next":"x"}"#, "");

#[test]
fn refused_check_move(rt: HostRuntime) -> Result<(), Fail> {
    let alloc = rt.alloc();
    let before = plan_of_text(alloc, TWO_WAYS.as_bytes())?;
    assert!(rt; is_move(alloc, &before, &[BY_RIGHT], None)?);
    let left_behind = MoveFault {
        rule: MoveRule::M02,
        node: 0,
        entry: Some(0),
        eid: Some(Eid::new(17)),
    };
    let wanted = Some(MoveError::Old(left_behind));
    assert!(rt; is_move(alloc, &before, &[BY_RIGHT, LEFT_IS_OUT], wanted)?);
    Ok(())
}
