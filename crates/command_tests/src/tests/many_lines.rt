//! Long lists of events, of which `sim` writes many lines at once, on outputs of which some fail.
use super::narrow_outputs::narrow_output;
use command_answers::Status;
use net_plan::Counted;
use play_commands::simulate;
use sample_texts::riser::{CERTIFICATE, PLAN};
use std::alloc::{AllocError, Global};
use std::test::Fail;

/// A thousand moves of a flight that does not exist, and the lines of what comes of them.
fn moves_of_nothing(alloc: Global) -> Result<(String, String), AllocError> {
    let mut events = String::from_str(alloc, r#"{"format":1,"events":["#)?;
    let mut lines = String::new(alloc);
    for number in 1..=1000u32 {
        if number > 1 {
            events.push_str(",")?;
        }
        events.push_str(r#"{"do":"move","flight":1,"keep":false}"#)?;
        lines.push_str(&format!(in alloc; "{number} refused N03\n")?)?;
    }
    events.push_str("]}")?;
    Ok((events, lines))
}

/// What comes of the events on an output with so much room: a status, whether what was written begins the lines, how
/// much it is, whether it took few writes, and whether standard error says that the output failed.
fn written(
    alloc: Global,
    events: &str,
    lines: &str,
    room: usize,
) -> (Status, bool, usize, bool, bool) {
    let mut output = narrow_output(alloc, room);
    let mut errors = Counted::new(Vec::new(alloc));
    let status = simulate(
        alloc,
        &mut Counted::new(PLAN.as_bytes()),
        &mut Counted::new(CERTIFICATE.as_bytes()),
        &mut Counted::new(events.as_bytes()),
        &mut output,
        &mut errors,
    );
    let told = output.inner();
    (
        status,
        lines.as_bytes().starts_with(&told.kept),
        told.kept.len(),
        told.writes <= 5,
        errors.inner().as_slice() == b"unreadable output: file\n".as_slice(),
    )
}

/// The first room in which something else is written.
fn first_other(alloc: Global, rooms: &[usize]) -> Result<Option<usize>, AllocError> {
    let (events, lines) = moves_of_nothing(alloc)?;
    for room in rooms {
        let wanted = if *room < lines.len() {
            (Status::Unreadable, true, *room, true, true)
        } else {
            (Status::Yes, true, lines.len(), true, false)
        };
        if written(alloc, &events, &lines, *room) != wanted {
            return Ok(Some(*room));
        }
    }
    Ok(None)
}

#[test]
fn many_lines_are_written_at_once(rt: HostRuntime) -> Result<(), Fail> {
    let rooms = [8000, 8192, 9000, 15000, 100_000];
    assert_eq!(rt; first_other(rt.alloc(), &rooms)?, None);
    Ok(())
}
