//! Calls of which any growth of memory may be refused: each answers as it does with ample memory, or that it ran out.
//! `tools/try growths` refuses the growths one after another.
use super::events::are_the_riser_events;
use super::plans::is_the_riser_network;
use net_plan::{
    Counted, PlanError, certificate_of_text, plan_of_text, read_certificate, read_events,
    read_plan, write_certificate,
};
use plan_values::{Certificate, Plan};
use sample_texts::certificates::is_the_riser_certificate;
use sample_texts::edited;
use sample_texts::marks::{Mark, lacked, set_mark};
use sample_texts::riser::{CERTIFICATE, EVENTS, PLAN};
use std::alloc::Global;
use std::test::Fail;

/// Whether a text was refused as it is to be, or for want of memory.
fn is_error(alloc: Global, error: PlanError, wanted: Option<PlanError>) -> bool {
    wanted == Some(error) || error == PlanError::OutOfMemory && lacked(alloc)
}

/// Whether the text is read as the riser network's plan, or refused so.
fn is_plan(alloc: Global, text: &str, wanted: Option<PlanError>) -> bool {
    set_mark(alloc, Mark::Begins);
    let read = read_plan(alloc, &mut Counted::new(text.as_bytes()));
    set_mark(alloc, Mark::Ends);
    match read {
        Ok(plan) => wanted.is_none() && is_the_riser_network(&plan),
        Err(error) => is_error(alloc, error, wanted),
    }
}

/// A text with its format twice, which is told once all of it is read.
fn doubled(alloc: Global, text: &str) -> Result<String, Fail> {
    edited(
        alloc,
        text,
        &[(r#"{"format":1,"#, r#"{"format":1,"format":1,"#)],
    )
}

#[test]
fn refused_read_plan(rt: HostRuntime) -> Result<(), Fail> {
    let alloc = rt.alloc();
    assert!(rt; is_plan(alloc, PLAN, None));
    let text = doubled(alloc, PLAN)?;
    assert!(rt; is_plan(alloc, &text, Some(PlanError::Doubled)));
    Ok(())
}

/// Whether the text is read as the riser network's certificate, or refused so.
fn is_certificate(alloc: Global, plan: &Plan, text: &str, wanted: Option<PlanError>) -> bool {
    set_mark(alloc, Mark::Begins);
    let read = read_certificate(alloc, plan, &mut Counted::new(text.as_bytes()));
    set_mark(alloc, Mark::Ends);
    match read {
        Ok(certificate) => wanted.is_none() && is_the_riser_certificate(&certificate),
        Err(error) => is_error(alloc, error, wanted),
    }
}

#[test]
fn refused_read_certificate(rt: HostRuntime) -> Result<(), Fail> {
    let alloc = rt.alloc();
    let plan = plan_of_text(alloc, PLAN.as_bytes())?;
    assert!(rt; is_certificate(alloc, &plan, CERTIFICATE, None));
    let text = doubled(alloc, CERTIFICATE)?;
    assert!(rt; is_certificate(alloc, &plan, &text, Some(PlanError::Doubled)));
    Ok(())
}

/// Whether the text is read as the riser network's events, or refused so.
fn are_events(alloc: Global, plan: &Plan, text: &str, wanted: Option<PlanError>) -> bool {
    set_mark(alloc, Mark::Begins);
    let read = read_events(alloc, plan, &mut Counted::new(text.as_bytes()));
    set_mark(alloc, Mark::Ends);
    match read {
        Ok(events) => wanted.is_none() && are_the_riser_events(&events),
        Err(error) => is_error(alloc, error, wanted),
    }
}

#[test]
fn refused_read_events(rt: HostRuntime) -> Result<(), Fail> {
    let alloc = rt.alloc();
    let plan = plan_of_text(alloc, PLAN.as_bytes())?;
    assert!(rt; are_events(alloc, &plan, EVENTS, None));
    let text = doubled(alloc, EVENTS)?;
    assert!(rt; are_events(alloc, &plan, &text, Some(PlanError::Doubled)));
    Ok(())
}

/// Whether the certificate is written, or for want of memory nothing. The sink has its room from the start.
fn is_written(alloc: Global, plan: &Plan, certificate: &Certificate) -> Result<bool, Fail> {
    let mut sink = Counted::new(Vec::with_capacity(alloc, CERTIFICATE.len())?);
    set_mark(alloc, Mark::Begins);
    let written = write_certificate(alloc, plan, certificate, &mut sink);
    set_mark(alloc, Mark::Ends);
    let text = sink.inner().as_slice();
    Ok(match written {
        Ok(()) => text == CERTIFICATE.as_bytes(),
        Err(error) => text.is_empty() && is_error(alloc, error, None),
    })
}

#[test]
fn refused_write_certificate(rt: HostRuntime) -> Result<(), Fail> {
    let plan = plan_of_text(rt.alloc(), PLAN.as_bytes())?;
    let certificate = certificate_of_text(rt.alloc(), &plan, CERTIFICATE.as_bytes())?;
    assert!(rt; is_written(rt.alloc(), &plan, &certificate)?);
    Ok(())
}
