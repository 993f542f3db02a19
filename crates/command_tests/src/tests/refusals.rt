//! What is told of refusals, some of which no row can bring about.
use command_answers::{Input, Refused, refuse};
use net_plan::{Counted, PlanError};
use std::alloc::Global;

/// A refusal, its exit status and its line.
type Row = (Refused, u8, &'static str);

/// The line of the first row that is told otherwise.
fn first_other(alloc: Global, rows: &[Row]) -> Option<&'static str> {
    for (refused, number, line) in rows {
        let mut errors = Counted::new(Vec::new(alloc));
        let status = refuse(alloc, *refused, &mut errors);
        if status.number() != *number || errors.inner().as_slice() != line.as_bytes() {
            return Some(*line);
        }
    }
    None
}

#[test]
fn refusals_have_a_status_and_a_line(rt: HostRuntime) {
    let rows = [
        (Refused::Usage, 2, "usage\n"),
        (Refused::UnreadableHex, 2, "unreadable hex: J07\n"),
        (Refused::TooMuch, 2, "unreadable walk: G09\n"),
        (Refused::Unwritten, 2, "unreadable output: file\n"),
        (Refused::NoMemory, 3, "no memory\n"),
        (
            Refused::at_input(Input::Plan, PlanError::OverLimit),
            2,
            "unreadable plan: J08\n",
        ),
        (
            Refused::at_input(Input::Plan, PlanError::OutOfMemory),
            3,
            "no memory\n",
        ),
    ];
    assert_eq!(rt; first_other(rt.alloc(), &rows), None);
}
