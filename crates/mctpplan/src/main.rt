//! The program `mctpplan`: it checks a planned MCTP network against its certificate, makes certificates, and plays the
//! network.
#![tactic(auto)]

mod kit;

ghost use Rattle.std.specs.Prelude.{◌≡◌};

use audit_commands::run_audit;
use bus_commands::{Emulation, run_capture, run_emulate};
use byte_commands::{DecodeCapture, DecodeNamed, ShownKind, WordQuestion, run_show, run_worded};
use command_answers::{
    ByteFile, Command, EventFile, LineFile, PlanFile, Reads, Refused, Status, Then, given_plan,
    plan_and_certificate, refuse, run_command, run_known, two_plans,
};
use command_line::{
    FileAtPath, FileToWrite, FilesAtPaths, FilesBeside, Subcommand, VERSION, hint_node, hint_nodes,
    hint_record, hint_words, links_of_words, parse_command,
};
use explain_commands::{
    run_explain, run_explain_certified, run_explain_events, run_explain_move, run_fix,
};
use export_commands::{Export, run_export};
use json_commands::{CertifiedJson, PlanJson, run_certified_json, run_planned_json};
use kit::PROVED;
use net_plan::Counted;
use plan_commands::{
    CertifyMove, MakeFiles, PlanQuestion, Question, RequireWays, run_certified, run_make,
    run_make_certified, run_make_kept, run_move, run_planned,
};
use plan_differences::Diff;
use plan_values::{Certificate, Plan};
use play_commands::{ExpectLines, WalkScript, WriteScript, simulate, simulate_move};
use report_commands::{ReportCertified, ReportPlan};
use rollout_commands::{TellSteps, run_rollout_written};
use std::io::{BufReader, IsTerminal};
use std::process::ExitCode;
use std::{env, fs};
use verify_commands::{FilesInFolder, Verification, run_verify};

/// Runs a command over the files at these paths and the standard streams. Behind its name stands what else it is asked.
macro_rules! over {
    ($rt:expr, $run:ident($($asked:expr),*), $($path:expr),*) => {
        $run(
            $rt.alloc(),
            $($asked,)*
            $(&mut file($rt, $path),)*
            &mut Counted::new($rt.stdout()),
            &mut Counted::new($rt.stderr()),
        )
    };
}

/// The same, and standard error tells the path of each file that can't be opened or read, and the system's reason.
macro_rules! over_told {
    ($rt:expr, $run:ident($($asked:expr),*), $($file:ident = $path:expr),*) => {{
        $(let mut $file = file($rt, $path);)*
        let status = $run(
            $rt.alloc(),
            $($asked,)*
            $(&mut $file,)*
            &mut Counted::new($rt.stdout()),
            &mut Counted::new($rt.stderr()),
        );
        $($file.inner().tell_failure($rt.alloc(), &mut Counted::new($rt.stderr()));)*
        status
    }};
}

fn main(rt: HostRuntime) -> ExitCode {
    ExitCode::from(run(&rt).number())
}

/// Runs the command that the process was started with, over files and the standard streams.
fn run(rt: &HostRuntime) -> Status {
    let alloc = rt.alloc();
    let mut errors = Counted::new(rt.stderr());
    let list = match given_words(rt) {
        Ok(list) => list,
        Err(refused) => return refuse(alloc, refused, &mut errors),
    };
    match parse_command(alloc, list.as_slice()) {
        Ok(command) => {
            let status = run_subcommand(rt, command);
            if status == Status::Unreadable && rt.stderr().is_terminal() {
                tell_record(rt, command, list.as_slice());
            }
            status
        }
        Err(refused) => {
            let status = refuse(alloc, refused, &mut errors);
            if rt.stderr().is_terminal() {
                hint_words(alloc, list.as_slice(), &mut Counted::new(rt.stderr()));
            }
            status
        }
    }
}

/// Runs a command over files and the standard streams.
fn run_subcommand<'a>(rt: &'a HostRuntime, command: Subcommand<'a>) -> Status {
    match command {
        Subcommand::Certified {
            question,
            plan,
            certificate,
        } => certified(rt, &question, plan, certificate),
        Subcommand::Planned { question, plan } => planned(rt, &question, plan),
        Subcommand::Explain { plan, certificate } => explain(rt, plan, certificate),
        Subcommand::ExplainEvents {
            plan,
            certificate,
            events,
        } => explain_events(rt, plan, certificate, events),
        Subcommand::ExplainMove { old, new } => explain_move(rt, old, new),
        Subcommand::Fix { plan } => fix(rt, plan),
        Subcommand::Require {
            plan,
            certificate,
            wanted,
        } => require(rt, plan, certificate, wanted),
        Subcommand::Verify { folder, is_strict } => verify(rt, folder, is_strict),
        Subcommand::Make {
            board,
            keep,
            anew,
            files,
        } => make(rt, board, keep, anew, &files),
        Subcommand::Sim {
            plan,
            certificate,
            events,
        } => play(rt, plan, certificate, events),
        Subcommand::Expect {
            plan,
            certificate,
            events,
            lines,
        } => expect(rt, [plan, certificate, events, lines]),
        Subcommand::Script {
            script,
            plan,
            certificate,
        } => write_script(rt, &script, plan, certificate),
        Subcommand::Move {
            old,
            new,
            certificate,
        } => check_move(rt, old, new, certificate),
        Subcommand::CertifyMove { old, new } => over_plans(rt, &CertifyMove, old, new),
        Subcommand::Diff { old, new } => over_plans(rt, &Diff, old, new),
        Subcommand::Rollout { old, new, folder } => roll_out(rt, old, new, folder),
        Subcommand::SimMove {
            old,
            new,
            certificate,
            events,
        } => play_move(rt, [old, new, certificate, events]),
        Subcommand::Export {
            export,
            plan,
            certificate,
            words,
        } => export_node(rt, &export, plan, certificate, words),
        Subcommand::Known { text } => tell(rt, text),
        Subcommand::Version => tell_version(rt),
        Subcommand::Worded { question, words } => say(rt, question, words),
        Subcommand::Show { kind, hex } => show(rt, kind, hex),
        Subcommand::Decode { capture, plan } => decode(rt, capture, plan),
        Subcommand::Audit {
            bus,
            is_complete,
            plan,
            certificate,
            capture,
        } => audit(rt, bus, is_complete, [plan, certificate, capture]),
        Subcommand::Emulate {
            emulation,
            plan,
            certificate,
        } => emulate(rt, &emulation, plan, certificate),
        Subcommand::Capture {
            plan,
            certificate,
            events,
        } => capture_run(rt, plan, certificate, events),
        Subcommand::Report { plan, certificate } => report(rt, plan, certificate),
        Subcommand::PlannedJson { asked, plan } => planned_in_json(rt, asked, plan),
        Subcommand::CertifiedJson {
            asked,
            plan,
            certificate,
        } => certified_in_json(rt, &asked, plan, certificate),
    }
}

/// Says at a terminal what is wrong with the words of a record.
fn tell_record(rt: &HostRuntime, command: Subcommand, list: &[String]) {
    if let Subcommand::Worded {
        question: WordQuestion::Record,
        ..
    } = command
    {
        hint_record(rt.alloc(), list, &mut Counted::new(rt.stderr()));
    }
}

/// Runs a command over its inputs and the standard streams.
fn run_over<I: Reads<()>, C: Command<Of = I::Given>>(
    rt: &HostRuntime,
    command: &C,
    inputs: &mut I,
) -> Status
    requires { I.IsReady inputs.old }
{
    let mut output = Counted::new(rt.stdout());
    let mut errors = Counted::new(rt.stderr());
    run_command(rt.alloc(), command, inputs, &mut output, &mut errors)
}

/// Runs a command over a plan and its certificate.
fn over_certified<'a, C: Command<Of = (Plan, Certificate)>>(
    rt: &'a HostRuntime,
    command: &C,
    plan: &'a str,
    certificate: &'a str,
) -> Status {
    let mut plan = file(rt, plan);
    let mut certificate = file(rt, certificate);
    let mut inputs = plan_and_certificate(&mut plan, &mut certificate);
    run_over(rt, command, &mut inputs)
}

/// Runs a command over two plans.
fn over_plans<'a, C: Command<Of = (Plan, Plan)>>(
    rt: &'a HostRuntime,
    command: &C,
    before: &'a str,
    after: &'a str,
) -> Status {
    let mut before = file(rt, before);
    let mut after = file(rt, after);
    let mut inputs = two_plans(&mut before, &mut after);
    run_over(rt, command, &mut inputs)
}

/// Answers a question about a plan with its certificate.
fn certified<'a>(
    rt: &'a HostRuntime,
    question: &Question<'a>,
    plan: &'a str,
    certificate: &'a str,
) -> Status {
    let status = over!(rt, run_certified(question), plan, certificate);
    if status == Status::Unreadable && rt.stderr().is_terminal() {
        tell_nodes(rt, question, plan);
    }
    status
}

/// Says at a terminal which name of a question is none of the plan's. Standard input can't be read once more.
fn tell_nodes<'a>(rt: &'a HostRuntime, question: &Question<'a>, plan: &'a str) {
    if plan != "-" {
        let mut plan = file(rt, plan);
        let mut errors = Counted::new(rt.stderr());
        hint_nodes(rt.alloc(), question, &mut plan, &mut errors);
    }
}

/// Answers a question about a plan.
fn planned<'a>(rt: &'a HostRuntime, question: &PlanQuestion<'a>, plan: &'a str) -> Status {
    over!(rt, run_planned(question), plan)
}

/// Tells which wishes for ways a plan doesn't meet.
fn require<'a>(
    rt: &'a HostRuntime,
    plan: &'a str,
    certificate: &'a str,
    wanted: &'a str,
) -> Status {
    let (mut plan, mut certificate) = (file(rt, plan), file(rt, certificate));
    let mut wanted = file(rt, wanted);
    let mut inputs = Then {
        first: plan_and_certificate(&mut plan, &mut certificate),
        second: ByteFile {
            source: &mut wanted,
        },
    };
    run_over(rt, &RequireWays, &mut inputs)
}

/// Tells of each part of a folder whether it holds.
fn verify<'a>(rt: &'a HostRuntime, folder: &'a str, is_strict: bool) -> Status {
    let mut output = Counted::new(rt.stdout());
    let mut errors = Counted::new(rt.stderr());
    run_verify(
        rt.alloc(),
        &Verification { folder, is_strict },
        &FilesInFolder::new(rt, folder),
        &mut output,
        &mut errors,
    )
}

/// Makes a plan of a board, and its certificate where a file for it is given. The numbers of an old plan are kept, or
/// those of the plan that stands where the new one is written.
fn make<'a>(
    rt: &'a HostRuntime,
    board: &'a str,
    keep: Option<&'a str>,
    anew: bool,
    files: &MakeFiles<'a>,
) -> Status {
    match (keep, files.plan) {
        (None, None) => make_plain(rt, board, files.certificate),
        (None, Some(plan)) if anew || !may_exist(rt, plan) => make_kept(rt, board, None, files),
        (None, plan) => make_kept(rt, board, plan, files),
        (keep, _) => make_kept(rt, board, keep, files),
    }
}

/// Whether there is a file at a path, as far as the system tells.
fn may_exist(rt: &HostRuntime, path: &str) -> bool {
    fs::exists(rt, path).unwrap_or(true)
}

/// Makes a plan of a board that keeps the numbers of the plan at a path. Where a file can't be read or written, standard
/// error tells its path and the system's reason.
fn make_kept<'a>(
    rt: &'a HostRuntime,
    board: &'a str,
    old: Option<&'a str>,
    files: &MakeFiles<'a>,
) -> Status {
    let Some(path) = old else {
        return make_into(rt, board, None, files);
    };
    let mut source = file(rt, path);
    let mut errors = Counted::new(rt.stderr());
    match given_plan(rt.alloc(), &mut source) {
        Ok(plan) => make_into(rt, board, Some(&plan), files),
        Err(refused) => {
            let status = refuse(rt.alloc(), refused, &mut errors);
            source
                .inner()
                .tell_failure(rt.alloc(), &mut Counted::new(rt.stderr()));
            status
        }
    }
}

fn make_into<'a>(
    rt: &'a HostRuntime,
    board: &'a str,
    old: Option<&Plan>,
    files: &MakeFiles<'a>,
) -> Status {
    let alloc = rt.alloc();
    let records = FilesBeside::new(rt, board);
    let mut board = file(rt, board);
    let mut written = FilesAtPaths::new(rt, alloc);
    let mut output = Counted::new(rt.stdout());
    let mut errors = Counted::new(rt.stderr());
    let status = run_make_kept(
        alloc,
        files,
        old,
        &mut board,
        &records,
        &mut written,
        &mut output,
        &mut errors,
    );
    written.tell_failure(&mut Counted::new(rt.stderr()));
    status
}

/// Makes a plan of a board and prints it. Its certificate is written where a file for it is given.
fn make_plain<'a>(rt: &'a HostRuntime, board: &'a str, certificate: Option<&'a str>) -> Status {
    if let Some(path) = certificate {
        return make_certified(rt, board, path);
    }
    let files = FilesBeside::new(rt, board);
    let mut board = file(rt, board);
    let mut output = Counted::new(rt.stdout());
    let mut errors = Counted::new(rt.stderr());
    run_make(rt.alloc(), &mut board, &files, &mut output, &mut errors)
}

/// Makes a plan of a board, and writes its certificate to a file. Where that fails, standard error tells the path and
/// the system's reason.
fn make_certified<'a>(rt: &'a HostRuntime, board: &'a str, path: &'a str) -> Status {
    let alloc = rt.alloc();
    let files = FilesBeside::new(rt, board);
    let mut board = file(rt, board);
    let mut certificate = Counted::new(FileToWrite::new(rt, path));
    let mut output = Counted::new(rt.stdout());
    let mut errors = Counted::new(rt.stderr());
    let status = run_make_certified(
        alloc,
        &mut board,
        &files,
        &mut certificate,
        &mut output,
        &mut errors,
    );
    certificate
        .inner()
        .tell_failure(alloc, &mut Counted::new(rt.stderr()));
    status
}

/// Plays events in the network of a plan.
fn play<'a>(rt: &'a HostRuntime, plan: &'a str, certificate: &'a str, events: &'a str) -> Status {
    over!(rt, simulate(), plan, certificate, events)
}

/// Compares what `sim` prints with lines. The files are the plan, the certificate, the events and the lines.
fn expect<'a>(rt: &'a HostRuntime, [plan, certificate, events, lines]: [&'a str; 4]) -> Status {
    let mut plan = file(rt, plan);
    let mut certificate = file(rt, certificate);
    let mut events = file(rt, events);
    let mut lines = file(rt, lines);
    let mut inputs = Then {
        first: Then {
            first: plan_and_certificate(&mut plan, &mut certificate),
            second: EventFile {
                source: &mut events,
            },
        },
        second: LineFile { source: &mut lines },
    };
    run_over(rt, &ExpectLines, &mut inputs)
}

/// Makes the events of a walk over the network of a plan.
fn write_script<'a>(
    rt: &'a HostRuntime,
    script: &WalkScript<'a>,
    plan: &'a str,
    certificate: &'a str,
) -> Status {
    let status = over_certified(rt, &WriteScript { script }, plan, certificate);
    with_hint(rt, status, script.node, plan)
}

/// Writes what a node of a plan is in some form. The words have the links of the buses.
fn export_node<'a>(
    rt: &'a HostRuntime,
    export: &Export<'a>,
    plan: &'a str,
    certificate: &'a str,
    words: &'a [String],
) -> Status {
    let alloc = rt.alloc();
    let mut errors = Counted::new(rt.stderr());
    let links = match links_of_words(alloc, words) {
        Ok(links) => links,
        Err(refused) => return refuse(alloc, refused, &mut errors),
    };
    let status = over!(rt, run_export(export, &links), plan, certificate);
    with_hint(rt, status, export.node, plan)
}

/// Says at a terminal whether the plan has a node of the name, where a command ended in an input that can't be read.
/// Standard input can't be read once more.
fn with_hint<'a>(rt: &'a HostRuntime, status: Status, node: &str, plan: &'a str) -> Status {
    if status == Status::Unreadable && plan != "-" && rt.stderr().is_terminal() {
        let mut errors = Counted::new(rt.stderr());
        hint_node(rt.alloc(), node, &mut file(rt, plan), &mut errors);
    }
    status
}

/// Checks a move from one plan to another.
fn check_move<'a>(
    rt: &'a HostRuntime,
    before: &'a str,
    after: &'a str,
    certificate: &'a str,
) -> Status {
    over!(rt, run_move(), before, after, certificate)
}

/// Tells the steps from the rows of one plan to those of another, and writes their files where a folder is given.
fn roll_out<'a>(
    rt: &'a HostRuntime,
    before: &'a str,
    after: &'a str,
    folder: Option<&'a str>,
) -> Status {
    match folder {
        None => over_plans(rt, &TellSteps, before, after),
        Some(folder) => roll_out_into(rt, before, after, folder),
    }
}

/// The same, and writes the files of the steps into a folder. Where that fails, standard error tells the path and the
/// system's reason.
fn roll_out_into<'a>(
    rt: &'a HostRuntime,
    before: &'a str,
    after: &'a str,
    folder: &'a str,
) -> Status {
    let alloc = rt.alloc();
    let mut before = file(rt, before);
    let mut after = file(rt, after);
    let mut files = FilesAtPaths::new(rt, alloc);
    let mut output = Counted::new(rt.stdout());
    let mut errors = Counted::new(rt.stderr());
    let status = run_rollout_written(
        alloc,
        folder,
        &mut before,
        &mut after,
        &mut files,
        &mut output,
        &mut errors,
    );
    files.tell_failure(&mut Counted::new(rt.stderr()));
    status
}

/// Plays events in a network that moves. The files are the old plan, the new one, the certificate and the events.
fn play_move<'a>(
    rt: &'a HostRuntime,
    [before, after, certificate, events]: [&'a str; 4],
) -> Status {
    over!(rt, simulate_move(), before, after, certificate, events)
}

/// Prints a text of the program itself.
fn tell(rt: &HostRuntime, text: &'static str) -> Status {
    let mut output = Counted::new(rt.stdout());
    let mut errors = Counted::new(rt.stderr());
    run_known(rt.alloc(), text, &mut output, &mut errors)
}

/// Prints the version, and which kit proved this program.
fn tell_version(rt: &HostRuntime) -> Status {
    match tell(rt, VERSION) {
        Status::Yes => tell(rt, PROVED),
        status => status,
    }
}

/// Answers a question about words: the fields of a record, or the bytes of fields.
fn say(rt: &HostRuntime, question: WordQuestion, words: &[String]) -> Status {
    let mut output = Counted::new(rt.stdout());
    let mut errors = Counted::new(rt.stderr());
    run_worded(rt.alloc(), question, words, &mut output, &mut errors)
}

/// Shows what bytes are.
fn show(rt: &HostRuntime, kind: ShownKind, hex: &str) -> Status {
    let mut output = Counted::new(rt.stdout());
    let mut errors = Counted::new(rt.stderr());
    run_show(rt.alloc(), kind, hex, &mut output, &mut errors)
}

/// Tells what became of each entry of a capture, with the names of a plan where there is one.
fn decode<'a>(rt: &'a HostRuntime, capture: &'a str, plan: Option<&'a str>) -> Status {
    match plan {
        None => {
            let mut capture = file(rt, capture);
            let mut input = ByteFile {
                source: &mut capture,
            };
            run_over(rt, &DecodeCapture, &mut input)
        }
        Some(plan) => decode_named(rt, plan, capture),
    }
}

/// The same with the names of a plan.
fn decode_named<'a>(rt: &'a HostRuntime, plan: &'a str, capture: &'a str) -> Status {
    let mut plan = file(rt, plan);
    let mut capture = file(rt, capture);
    let mut inputs = Then {
        first: PlanFile { source: &mut plan },
        second: ByteFile {
            source: &mut capture,
        },
    };
    run_over(rt, &DecodeNamed, &mut inputs)
}

/// Tells what the devices of a capture said, beside a plan. The files are the plan, the certificate and the capture.
fn audit<'a>(
    rt: &'a HostRuntime,
    bus: Option<&'a str>,
    is_complete: bool,
    [plan, certificate, capture]: [&'a str; 3],
) -> Status {
    over!(rt, run_audit(bus, is_complete), plan, certificate, capture)
}

/// Answers the packets on standard input as a node of a plan does.
fn emulate<'a>(
    rt: &'a HostRuntime,
    emulation: &Emulation<'a>,
    plan: &'a str,
    certificate: &'a str,
) -> Status {
    // Lines are taken a byte at a time, and a buffer gives what has come of the next ones at once.
    let lines = match BufReader::new(rt.alloc(), rt.stdin()) {
        Ok(lines) => lines,
        Err(error) => {
            let mut errors = Counted::new(rt.stderr());
            return refuse(rt.alloc(), Refused::from(error), &mut errors);
        }
    };
    let status = run_emulate(
        rt.alloc(),
        emulation,
        &mut file(rt, plan),
        &mut file(rt, certificate),
        &mut Counted::new(lines),
        &mut Counted::new(rt.stdout()),
        &mut Counted::new(rt.stderr()),
    );
    with_hint(rt, status, emulation.node, plan)
}

/// Plays events in the network of a plan, and writes a capture file of its packets.
fn capture_run<'a>(
    rt: &'a HostRuntime,
    plan: &'a str,
    certificate: &'a str,
    events: &'a str,
) -> Status {
    over!(rt, run_capture(), plan, certificate, events)
}

/// Writes the page about a plan, with its certificate where there is one.
fn report<'a>(rt: &'a HostRuntime, name: &'a str, certificate: Option<&'a str>) -> Status {
    match certificate {
        None => {
            let mut plan = file(rt, name);
            run_over(
                rt,
                &ReportPlan { name },
                &mut PlanFile { source: &mut plan },
            )
        }
        Some(certificate) => over_certified(rt, &ReportCertified { name }, name, certificate),
    }
}

/// Answers a question about a plan in JSON. Where its file can't be opened or read, standard error tells the path and
/// the system's reason.
fn planned_in_json<'a>(rt: &'a HostRuntime, asked: PlanJson, name: &'a str) -> Status {
    over_told!(rt, run_planned_json(asked, name), plan = name)
}

/// The same of a plan with its certificate.
fn certified_in_json<'a>(
    rt: &'a HostRuntime,
    asked: &CertifiedJson<'a>,
    name: &'a str,
    certified_by: &'a str,
) -> Status {
    over_told!(
        rt,
        run_certified_json(asked, name, certified_by),
        plan = name,
        certificate = certified_by
    )
}

/// Explains a plan, with its certificate where there is one. Where a file can't be opened or read, standard error tells
/// the path and the system's reason.
fn explain<'a>(rt: &'a HostRuntime, name: &'a str, certificate: Option<&'a str>) -> Status {
    match certificate {
        None => over_told!(rt, run_explain(name), plan = name),
        Some(certified_by) => over_told!(
            rt,
            run_explain_certified(name, certified_by),
            plan = name,
            certificate = certified_by
        ),
    }
}

/// Prints a plan with edits made, until a certificate fits it. Of a file that can't be opened or read it says the same.
fn fix<'a>(rt: &'a HostRuntime, name: &'a str) -> Status {
    over_told!(rt, run_fix(), plan = name)
}

/// Explains a plan with its certificate and events. Of a file that can't be opened or read it says the same.
fn explain_events<'a>(
    rt: &'a HostRuntime,
    name: &'a str,
    certified_by: &'a str,
    events: &'a str,
) -> Status {
    over_told!(
        rt,
        run_explain_events(name, certified_by),
        plan = name,
        certificate = certified_by,
        events = events
    )
}

/// The same of a move from one plan to another.
fn explain_move<'a>(rt: &'a HostRuntime, name: &'a str, new_name: &'a str) -> Status {
    over_told!(
        rt,
        run_explain_move(name, new_name),
        before = name,
        after = new_name
    )
}

/// The file at a path, which is opened once it is read.
fn file<'a>(rt: &'a HostRuntime, path: &'a str) -> Counted<FileAtPath<'a, HostRuntime>>
    ensures { result.failures ≡ 0 }
{
    Counted::new(FileAtPath::new(rt, path))
}

/// The words that the process was started with. A word that is not UTF-8 fits no command.
fn given_words(rt: &HostRuntime) -> Result<Vec<String>, Refused> {
    let given = env::args(rt)?;
    Ok(given.collect::<Vec<String>>(rt.alloc())?)
}
