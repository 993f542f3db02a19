//! Files that fail in mid-stream, outputs that fail, and events over a terminus that is given.
ghost use Rattle.std.specs.Prelude.{◌≡◌};

use super::narrow_outputs::narrow_output;
use command_answers::Status;
use net_check::check;
use net_plan::{Counted, certificate_of_text, events_of_text, plan_of_text};
use net_sim::planned_termini_count;
use pdr_repository::{ListTerminus, Terminus, is_lawful_list};
use plan_commands::{Question, run_certified};
use plan_values::{Certificate, Event, Plan};
use play_commands::run_sim;
use pldm_message::Tid;
use sample_texts::riser::{CERTIFICATE, PLAN};
use std::alloc::Global;
use std::io::{self, ErrorKind, Read};
use std::test::Fail;

/// A reader that gives seven bytes a call at most, and at its end fails where it is to.
#[derive(Clone, Copy)]
struct Broken<'a> {
    rest: &'a [u8],
    fails: bool,
}

impl Read for Broken<'_> {
    fn read(&mut self, buf: &mut [u8]) -> io::Result<usize> {
        let few = buf.len().min(7);
        match self.rest.read(&mut buf[..few])? {
            0 if self.fails => Err(io::Error::from(ErrorKind::BrokenPipe)),
            count => Ok(count),
        }
    }
}

fn source(text: &str, fails: bool) -> Counted<Broken<'_>>
    ensures { result.failures ≡ 0 }
{
    Counted::new(Broken {
        rest: text.as_bytes(),
        fails,
    })
}

/// What a row shows, whether the plan and the certificate fail, and how many bytes the output takes.
type Given = (&'static str, bool, bool, usize);

/// A status, and what stands on standard output and on standard error.
type Ended = (Status, &'static str, &'static str);

/// Whether `check` on the riser network ends so.
fn ends_so(alloc: Global, given: &Given, wanted: &Ended) -> bool {
    let mut output = narrow_output(alloc, given.3);
    let mut errors = Counted::new(Vec::new(alloc));
    let status = run_certified(
        alloc,
        &Question::Check,
        &mut source(PLAN, given.1),
        &mut source(CERTIFICATE, given.2),
        &mut output,
        &mut errors,
    );
    status == wanted.0
        && output.inner().kept.as_slice() == wanted.1.as_bytes()
        && errors.inner().as_slice() == wanted.2.as_bytes()
}

const ROWS: [(Given, Ended); 5] = [
    (
        ("the plan is told first", true, true, 4),
        (Status::Unreadable, "", "unreadable plan: file\n"),
    ),
    (
        ("the certificate fails", false, true, 4),
        (Status::Unreadable, "", "unreadable certificate: file\n"),
    ),
    (
        ("nothing is written", false, false, 0),
        (Status::Unreadable, "", "unreadable output: file\n"),
    ),
    (
        ("the line end is not written", false, false, 3),
        (Status::Unreadable, "yes", "unreadable output: file\n"),
    ),
    (
        ("all is written", false, false, 4),
        (Status::Yes, "yes\n", ""),
    ),
];

/// What the first row shows that ends otherwise.
fn first_other(alloc: Global, rows: &[(Given, Ended)]) -> Option<&'static str> {
    for (given, wanted) in rows {
        if !ends_so(alloc, given, wanted) {
            return Some(given.0);
        }
    }
    None
}

#[test]
fn files_and_outputs_that_fail_are_told(rt: HostRuntime) {
    assert_eq!(rt; first_other(rt.alloc(), &ROWS), None);
}

/// A terminus over a list of one record, and no other.
fn one_terminus(alloc: Global) -> Result<Vec<Box<dyn Terminus>>, Fail> {
    let bytes = [1, 0, 0, 0, 1, 1, 0, 0, 9, 0, 1, 0, 1, 1, 0, 0, 1, 1, 17];
    let mut records = Vec::new(alloc);
    records.push((1, bytes.to_vec(alloc)?))?;
    if !is_lawful_list(&records) {
        return Err(Fail::new("no lawful list"));
    }
    let terminus = ListTerminus::new(alloc, Tid::new(1), records)?;
    let mut termini: Vec<Box<dyn Terminus>> = Vec::new(alloc);
    termini.push(Box::new(alloc, terminus)?)?;
    Ok(termini)
}

/// A request goes from host to nic, which answers it.
const REQUEST: &str =
    r#"{"format":1,"events":[{"do":"put","node":"nic","bytes":"011108cb01800002"},{"do":"move","flight":1,"keep":false},{"do":"answer","node":"nic"}]}"#;

const OUTCOMES: &str =
    "1 put 1 at nic\n2 whole 1 at nic bytes 01800002\n3 answered nic flights 2 to 2\n";

/// Whether these lines come of the events over a list of nic's record.
fn plays_so(
    alloc: Global,
    plan: &Plan,
    certificate: &Certificate,
    events: &[Event],
) -> Result<bool, Fail> {
    let termini = one_terminus(alloc)?;
    let checked = check(alloc, plan, certificate)?;
    if termini.len() != planned_termini_count(checked.plan()) {
        return Err(Fail::new("not one terminus for each node that has one"));
    }
    let mut output = narrow_output(alloc, OUTCOMES.len());
    let mut errors = Counted::new(Vec::new(alloc));
    let status = run_sim(alloc, checked, termini, events, &mut output, &mut errors);
    let written = output.inner().kept.as_slice() == OUTCOMES.as_bytes();
    Ok(status == Status::Yes && written && errors.inner().is_empty())
}

#[test]
fn events_are_played_over_a_terminus_that_is_given(rt: HostRuntime) -> Result<(), Fail> {
    let plan = plan_of_text(rt.alloc(), PLAN.as_bytes())?;
    let certificate = certificate_of_text(rt.alloc(), &plan, CERTIFICATE.as_bytes())?;
    let events = events_of_text(rt.alloc(), &plan, REQUEST.as_bytes())?;
    assert!(rt; plays_so(rt.alloc(), &plan, &certificate, &events)?);
    Ok(())
}
