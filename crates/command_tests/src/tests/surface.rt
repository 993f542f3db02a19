//! Each command's public function, used by its path, with a source for each file, its other arguments, a sink for
//! standard output and one for standard error, and the status that it answers. Where one of them goes or changes, this
//! file doesn't compile. What the commands answer the rows in `tests/` tell.
ghost use Rattle.std.specs.Prelude.{◌≡◌, ◌≤◌, length};
ghost use Rattle.net_plan.specs.Stream.{HasRoom};
ghost use Rattle.net_sim.specs.Dealing.{planned_termini};

use byte_commands::{ShownKind, run_show};
use command_answers::Status;
use command_line::{Subcommand, words};
use command_questions::PartSize;
use net_check::{Checked, CheckedMove};
use net_plan::{Event, Sink, Source};
use pdr_repository::Terminus;
use plan_commands::{run_assign, run_certify, run_check, run_move, run_walk};
use play_commands::{run_sim, run_simmove};
use std::alloc::Global;

fn words_read<'a>(alloc: Global, list: &'a [String]) -> Result<Subcommand<'a>, Status> {
    words(alloc, list)
}

fn status_number(status: Status) -> u8 {
    match status {
        Status::Yes => 0,
        Status::Fault => 1,
        Status::Unreadable => 2,
        Status::NoMemory => 3,
    }
}

fn check_run<P: Source, C: Source, O: Sink, E: Sink>(
    alloc: Global,
    plan: &mut P,
    certificate: &mut C,
    output: &mut O,
    errors: &mut E,
) -> Status
    requires plan { HasRoom (P.account plan.old) }
    requires certificate { HasRoom (C.account certificate.old) }
    requires output { HasRoom (O.account output.old) }
    requires errors { HasRoom (E.account errors.old) }
{
    run_check(alloc, plan, certificate, output, errors)
}

fn certify_run<P: Source, O: Sink, E: Sink>(
    alloc: Global,
    plan: &mut P,
    output: &mut O,
    errors: &mut E,
) -> Status
    requires plan { HasRoom (P.account plan.old) }
    requires output { HasRoom (O.account output.old) }
    requires errors { HasRoom (E.account errors.old) }
{
    run_certify(alloc, plan, output, errors)
}

fn assign_run<P: Source, C: Source, O: Sink, E: Sink>(
    alloc: Global,
    plan: &mut P,
    certificate: &mut C,
    output: &mut O,
    errors: &mut E,
) -> Status
    requires plan { HasRoom (P.account plan.old) }
    requires certificate { HasRoom (C.account certificate.old) }
    requires output { HasRoom (O.account output.old) }
    requires errors { HasRoom (E.account errors.old) }
{
    run_assign(alloc, plan, certificate, output, errors)
}

fn part_size_of(bytes: u16) -> PartSize
    requires least { 8 ≤ bytes }
    requires most { bytes ≤ 4079 }
{
    PartSize { bytes }
}

fn walk_run<P: Source, C: Source, O: Sink, E: Sink>(
    alloc: Global,
    plan: &mut P,
    certificate: &mut C,
    node: &str,
    count: PartSize,
    output: &mut O,
    errors: &mut E,
) -> Status
    requires plan { HasRoom (P.account plan.old) }
    requires certificate { HasRoom (C.account certificate.old) }
    requires output { HasRoom (O.account output.old) }
    requires errors { HasRoom (E.account errors.old) }
{
    run_walk(alloc, plan, certificate, node, count, output, errors)
}

fn shown_word(kind: ShownKind) -> &'static str {
    match kind {
        ShownKind::Packet => "packet",
        ShownKind::Record => "record",
    }
}

fn show_run<O: Sink, E: Sink>(
    alloc: Global,
    kind: ShownKind,
    hex: &str,
    output: &mut O,
    errors: &mut E,
) -> Status
    requires output { HasRoom (O.account output.old) }
    requires errors { HasRoom (E.account errors.old) }
{
    run_show(alloc, kind, hex, output, errors)
}

fn move_run<P: Source, Q: Source, C: Source, O: Sink, E: Sink>(
    alloc: Global,
    before: &mut P,
    after: &mut Q,
    certificate: &mut C,
    output: &mut O,
    errors: &mut E,
) -> Status
    requires before { HasRoom (P.account before.old) }
    requires after { HasRoom (Q.account after.old) }
    requires certificate { HasRoom (C.account certificate.old) }
    requires output { HasRoom (O.account output.old) }
    requires errors { HasRoom (E.account errors.old) }
{
    run_move(alloc, before, after, certificate, output, errors)
}

fn sim_run<T: Terminus, O: Sink, E: Sink>(
    alloc: Global,
    checked: Checked,
    termini: Vec<T>,
    events: &[Event],
    output: &mut O,
    errors: &mut E,
) -> Status
    requires output { HasRoom (O.account output.old) }
    requires errors { HasRoom (E.account errors.old) }
    requires termini { length termini.items ≡ length (planned_termini checked.0 checked.1) }
{
    run_sim(alloc, checked, termini, events, output, errors)
}

fn simmove_run<T: Terminus, O: Sink, E: Sink>(
    alloc: Global,
    checked: CheckedMove,
    termini: Vec<T>,
    events: &[Event],
    output: &mut O,
    errors: &mut E,
) -> Status
    requires output { HasRoom (O.account output.old) }
    requires errors { HasRoom (E.account errors.old) }
    requires termini { length termini.items ≡ length (planned_termini checked.0 checked.2) }
{
    run_simmove(alloc, checked, termini, events, output, errors)
}
