//! Reading and writing piece by piece, and failures in mid-stream.
use super::events::are_the_riser_events;
use super::plans::is_the_riser_network;
use net_plan::{
    Counted, PlanError, certificate_of_text, plan_of_text, read_certificate, read_events,
    read_plan, write_certificate,
};
use plan_values::{Certificate, Plan};
use sample_texts::certificates::is_the_riser_certificate;
use sample_texts::riser;
use std::alloc::Global;
use std::io::{self, ErrorKind, Read, Write};
use std::test::Fail;

/// A reader over bytes that gives one byte a call, and fails at one call.
#[derive(Drop)]
struct Slow<'a> {
    rest: &'a [u8],
    calls: usize,
    fails_at: usize,
}

impl Read for Slow<'_> {
    fn read(&mut self, buf: &mut [u8]) -> io::Result<usize> {
        self.calls = self.calls.saturating_add(1);
        if self.calls == self.fails_at {
            return Err(io::Error::from(ErrorKind::Interrupted));
        }
        let few = buf.len().min(1);
        self.rest.read(&mut buf[..few])
    }
}

fn one_byte_a_call(text: &str, fails_at: usize) -> Slow {
    Slow {
        rest: text.as_bytes(),
        calls: 0,
        fails_at,
    }
}

/// A writer that keeps one byte a call, and fails at one call.
#[derive(Drop)]
struct Narrow {
    kept: Vec<u8>,
    calls: usize,
    fails_at: usize,
}

impl Write for Narrow {
    fn write(&mut self, buf: &[u8]) -> io::Result<usize> {
        self.calls = self.calls.saturating_add(1);
        if self.calls == self.fails_at {
            return Err(io::Error::from(ErrorKind::BrokenPipe));
        }
        let few = buf.len().min(1);
        self.kept.extend_from_slice(&buf[..few])?;
        Ok(few)
    }

    fn flush(&mut self) -> io::Result<()> {
        Ok(())
    }
}

/// What a read that fails at a call makes of the riser network's plan.
fn plan_error(alloc: Global, fails_at: usize) -> Option<PlanError> {
    read_plan(
        alloc,
        &mut Counted::new(one_byte_a_call(riser::PLAN, fails_at)),
    )
    .err()
}

/// What it makes of the certificate.
fn certificate_error(alloc: Global, plan: &Plan, fails_at: usize) -> Option<PlanError> {
    let mut source = Counted::new(one_byte_a_call(riser::CERTIFICATE, fails_at));
    read_certificate(alloc, plan, &mut source).err()
}

/// What it makes of the events.
fn events_error(alloc: Global, plan: &Plan, fails_at: usize) -> Option<PlanError> {
    let mut source = Counted::new(one_byte_a_call(riser::EVENTS, fails_at));
    read_events(alloc, plan, &mut source).err()
}

/// Whether the certificate is read one byte a call.
fn is_certificate_read(alloc: Global, plan: &Plan) -> Result<bool, PlanError> {
    let mut source = Counted::new(one_byte_a_call(riser::CERTIFICATE, 0));
    let certificate = read_certificate(alloc, plan, &mut source)?;
    Ok(is_the_riser_certificate(&certificate))
}

/// Whether the events are read one byte a call.
fn are_events_read(alloc: Global, plan: &Plan) -> Result<bool, PlanError> {
    let mut source = Counted::new(one_byte_a_call(riser::EVENTS, 0));
    let events = read_events(alloc, plan, &mut source)?;
    Ok(are_the_riser_events(&events))
}

#[test]
fn reads_one_byte_a_call(rt: HostRuntime) -> Result<(), Fail> {
    let alloc = rt.alloc();
    let plan = read_plan(alloc, &mut Counted::new(one_byte_a_call(riser::PLAN, 0)))?;
    assert!(rt; is_the_riser_network(&plan));
    assert!(rt; is_certificate_read(alloc, &plan)? && are_events_read(alloc, &plan)?);
    Ok(())
}

/// The first call up to that which would tell the end at which a failure is told otherwise, for a plan.
fn first_other_in_a_plan(alloc: Global) -> Option<usize> {
    for fails_at in 1..=riser::PLAN.len() + 1 {
        if plan_error(alloc, fails_at) != Some(PlanError::Device) {
            return Some(fails_at);
        }
    }
    None
}

/// The same of a certificate.
fn first_other_in_a_certificate(alloc: Global, plan: &Plan) -> Option<usize> {
    for fails_at in 1..=riser::CERTIFICATE.len() + 1 {
        if certificate_error(alloc, plan, fails_at) != Some(PlanError::Device) {
            return Some(fails_at);
        }
    }
    None
}

/// The same of events.
fn first_other_in_events(alloc: Global, plan: &Plan) -> Option<usize> {
    for fails_at in 1..=riser::EVENTS.len() + 1 {
        if events_error(alloc, plan, fails_at) != Some(PlanError::Device) {
            return Some(fails_at);
        }
    }
    None
}

/// The failure is one that std's own loops try again.
#[test]
fn tells_a_failure_at_each_call(rt: HostRuntime) -> Result<(), Fail> {
    let plan = plan_of_text(rt.alloc(), riser::PLAN.as_bytes())?;
    let others = (
        first_other_in_a_plan(rt.alloc()),
        first_other_in_a_certificate(rt.alloc(), &plan),
        first_other_in_events(rt.alloc(), &plan),
    );
    assert_eq!(rt; others, (None, None, None));
    Ok(())
}

/// A writer that fails at this call; none is the 0th.
fn failing_at(alloc: Global, fails_at: usize) -> Narrow {
    Narrow {
        kept: Vec::new(alloc),
        calls: 0,
        fails_at,
    }
}

/// Whether a beginning of a text was kept, as many bytes as there were calls before the one that fails.
fn is_begun(kept: &[u8], text: &[u8], fails_at: usize) -> bool {
    text.starts_with(kept) && kept.len() == fails_at.saturating_sub(1)
}

/// Whether a certificate's text is written as it is, or where a call fails, as a beginning of it.
fn is_written(alloc: Global, plan: &Plan, certificate: &Certificate, fails_at: usize) -> bool {
    let mut sink = Counted::new(failing_at(alloc, fails_at));
    let written = write_certificate(alloc, plan, certificate, &mut sink);
    let kept = sink.inner().kept.as_slice();
    if fails_at == 0 {
        written == Ok(()) && kept == riser::CERTIFICATE.as_bytes()
    } else {
        written == Err(PlanError::Device) && is_begun(kept, riser::CERTIFICATE.as_bytes(), fails_at)
    }
}

/// The first call at which a failure leaves something else; 0 where something else is written without one.
fn first_otherwise_written(alloc: Global, plan: &Plan, certificate: &Certificate) -> Option<usize> {
    for fails_at in 0..=riser::CERTIFICATE.len() {
        if !is_written(alloc, plan, certificate, fails_at) {
            return Some(fails_at);
        }
    }
    None
}

#[test]
fn writes_a_certificate_or_its_beginning(rt: HostRuntime) -> Result<(), Fail> {
    let plan = plan_of_text(rt.alloc(), riser::PLAN.as_bytes())?;
    let certificate = certificate_of_text(rt.alloc(), &plan, riser::CERTIFICATE.as_bytes())?;
    assert_eq!(rt;
        first_otherwise_written(rt.alloc(), &plan, &certificate),
        None
    );
    Ok(())
}

/// A writer that takes nothing, and counts how often it is asked to.
#[derive(Drop)]
struct Full {
    calls: usize,
}

impl Write for Full {
    fn write(&mut self, _buf: &[u8]) -> io::Result<usize> {
        self.calls = self.calls.saturating_add(1);
        Ok(0)
    }

    fn flush(&mut self) -> io::Result<()> {
        Ok(())
    }
}

#[test]
fn a_writer_that_takes_nothing_has_failed(rt: HostRuntime) -> Result<(), Fail> {
    let plan = plan_of_text(rt.alloc(), riser::PLAN.as_bytes())?;
    let certificate = certificate_of_text(rt.alloc(), &plan, riser::CERTIFICATE.as_bytes())?;
    let mut sink = Counted::new(Full { calls: 0 });
    let written = write_certificate(rt.alloc(), &plan, &certificate, &mut sink);
    assert_eq!(rt; (written, sink.inner().calls), (Err(PlanError::Device), 1));
    Ok(())
}
