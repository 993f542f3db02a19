//! The program's command line.
use clap::error::ErrorKind;
use clap::{Arg, ArgAction, ArgMatches};
use command_answers::{Refused, Status, eid_of_word};
use command_questions::{
    CertifiedJson, DrawnRows, Emulation, Export, ExportKind, Flights, Form, LineForm, MakeFiles,
    PartSize, PlanJson, PlanQuestion, Question, ShownKind, WalkScript, WordQuestion,
};
use plan_exports::Link;
use program_texts::{GUIDE, guide_to, schema_of, text_of};
use std::alloc::{AllocError, Global};

/// A command with its arguments. Files stand by their paths.
#[derive(Clone, Copy)]
pub enum Subcommand<'a> {
    /// A question about the plan in one file, certified by another.
    Certified {
        question: Question<'a>,
        plan: &'a str,
        certificate: &'a str,
    },
    /// A question about the plan in a file.
    Planned {
        question: PlanQuestion<'a>,
        plan: &'a str,
    },
    /// What does `certify` say of the plan in a file, or `check` with the certificate in another, and why?
    Explain {
        plan: &'a str,
        certificate: Option<&'a str>,
    },
    /// What is wrong with the events in a file, or with the plan and its certificate?
    ExplainEvents {
        plan: &'a str,
        certificate: &'a str,
        events: &'a str,
    },
    /// What does `certifymove` say of the plans in two files, and why?
    ExplainMove {
        old: &'a str,
        new: &'a str,
    },
    /// How does the plan in a file stand once edits are made that take away what rules certificates out?
    Fix {
        plan: &'a str,
    },
    /// Do the nodes of the plan in one file, certified by another, reach whom a text wants them to reach?
    Require {
        plan: &'a str,
        certificate: &'a str,
        wanted: &'a str,
    },
    /// Does all that a folder has of a network fit together? If that is strict, nothing in its plan looks wrong.
    Verify {
        folder: &'a str,
        is_strict: bool,
    },
    /// Which plan is made of the board in a file, and into which files are it and its certificate written?
    Make {
        board: &'a str,
        /// The file of a plan whose numbers are kept.
        keep: Option<&'a str>,
        /// Whether those of the plan that stands where the new one is written aren't.
        anew: bool,
        files: MakeFiles<'a>,
    },
    /// What comes of the events in a file?
    Sim {
        plan: &'a str,
        certificate: &'a str,
        events: &'a str,
    },
    /// Does `sim` print the lines of a file?
    Expect {
        plan: &'a str,
        certificate: &'a str,
        events: &'a str,
        lines: &'a str,
    },
    /// Which events are a walk over the network?
    Script {
        script: WalkScript<'a>,
        plan: &'a str,
        certificate: &'a str,
    },
    /// May the nodes of the plan in one file go over, in any order, to the rows of the plan in another, by one
    /// certificate?
    Move {
        old: &'a str,
        new: &'a str,
        certificate: &'a str,
    },
    /// What is the certificate of such a move, or why has it none?
    CertifyMove {
        old: &'a str,
        new: &'a str,
    },
    /// What does the change from the plan in one file to the plan in another do?
    Diff {
        old: &'a str,
        new: &'a str,
    },
    /// By which steps do the nodes get from the rows of one plan to those of another, and into which folder are their
    /// files written?
    Rollout {
        old: &'a str,
        new: &'a str,
        folder: Option<&'a str>,
    },
    /// What comes of the events in a file while nodes go over from the rows of one plan to those of another?
    SimMove {
        old: &'a str,
        new: &'a str,
        certificate: &'a str,
        events: &'a str,
    },
    /// What is a node of a plan, in some form? The words of the whole command have the links.
    Export {
        export: Export<'a>,
        plan: &'a str,
        certificate: &'a str,
        words: &'a [String],
    },
    /// A text of the program itself: what a code means, a schema or a guide.
    Known {
        text: &'static str,
    },
    /// Which version is this, and which kit proved it?
    Version,
    /// A question that words answer.
    Worded {
        question: WordQuestion,
        words: &'a [String],
    },
    /// What are the bytes of a hex text?
    Show {
        kind: ShownKind,
        hex: &'a str,
    },
    /// What became of each entry of the capture in a file, and what do its messages say? The plan has names for it.
    Decode {
        capture: &'a str,
        plan: Option<&'a str>,
    },
    /// What did the devices of the capture in a file say, beside the plan, and did its packets go over this bus?
    /// If that is to be complete, what did nodes not say?
    Audit {
        bus: Option<&'a str>,
        is_complete: bool,
        plan: &'a str,
        certificate: &'a str,
        capture: &'a str,
    },
    /// What does a node of a plan send for the packets that come on standard input?
    Emulate {
        emulation: Emulation<'a>,
        plan: &'a str,
        certificate: &'a str,
    },
    /// What is answered in JSON about the plan in one file, certified by another?
    CertifiedJson {
        asked: CertifiedJson<'a>,
        plan: &'a str,
        certificate: &'a str,
    },
    /// What is answered in JSON about the plan in a file?
    PlannedJson {
        asked: PlanJson,
        plan: &'a str,
    },
    /// Which packets go over the buses while the events in a file are played?
    Capture {
        plan: &'a str,
        certificate: &'a str,
        events: &'a str,
    },
    /// What is the page about the plan in a file, certified by another or not?
    Report {
        plan: &'a str,
        certificate: Option<&'a str>,
    },
}

/// The command that a list of words stands for. The first word is the program's name.
pub fn parse_command<'a>(alloc: Global, list: &'a [String]) -> Result<Subcommand<'a>, Refused> {
    if let Some(command) = worded(list) {
        return Ok(command);
    }
    let matches = matches_of(alloc, list)?;
    let command = chosen(&matches, list).ok_or(Refused::Usage)?;
    if let Subcommand::Export { .. } = command {
        links_of_words(alloc, list)?;
    }
    Ok(command)
}

/// The command that a list of words stands for, or the status that a run of such words ends with: 2 or 3.
pub fn words<'a>(alloc: Global, list: &'a [String]) -> Result<Subcommand<'a>, Status> {
    parse_command(alloc, list).map_err(Refused::status)
}

fn matches_of<'a>(alloc: Global, list: &'a [String]) -> Result<ArgMatches<'a>, Refused> {
    grammar(alloc, list.get(1))?
        .try_get_matches_from(list)
        .map_err(refused_for)
}

/// The links that the words of `export` have, no two of one bus or of one device.
pub fn links_of_words<'a>(alloc: Global, list: &'a [String]) -> Result<Vec<Link<'a>>, Refused> {
    let matches = matches_of(alloc, list)?;
    let (_, arguments) = matches.subcommand().ok_or(Refused::Usage)?;
    let mut links = Vec::new(alloc);
    if let Some(words) = arguments.get_strs(REPEATED) {
        for word in words {
            add_link(&mut links, Link::of(*word).ok_or(Refused::Usage)?)?;
        }
    }
    Ok(links)
}

fn add_link<'a>(links: &mut Vec<Link<'a>>, link: Link<'a>) -> Result<(), Refused> {
    if links.iter().any(|other| other.bus == link.bus || other.device == link.device) {
        return Err(Refused::Usage);
    }
    match links.push(link) {
        Ok(()) => Ok(()),
        // no memory: the list of links could not grow.
        Err(_) => Err(Refused::NoMemory),
    }
}

/// Every error of the command line is usage, a call for help among them. Out of memory is `NoMemory`.
fn refused_for(error: clap::Error) -> Refused {
    match error.kind() {
        ErrorKind::OutOfMemory => Refused::NoMemory,
        _ => Refused::Usage,
    }
}

/// The commands that take any number of words.
const WORDED: [&str; 2] = ["describe", "record"];

/// A command that takes any number of words, at least one.
fn worded(list: &[String]) -> Option<Subcommand<'_>> {
    let [_, command, words @ ..] = list else {
        return None;
    };
    let question = match command.as_str() {
        "describe" => WordQuestion::Describe,
        "record" => WordQuestion::Record,
        _ => return None,
    };
    if words.is_empty() {
        return None;
    }
    Some(Subcommand::Worded { question, words })
}

/// The name of each command, the names of its arguments, and those of the arguments that may be left out.
static COMMANDS: [(&str, &[&str], &[&str]); 35] = [
    ("make", &["board"], &[]),
    ("rows", &["plan"], &[]),
    ("check", &["plan", "certificate"], &[]),
    ("certify", &["plan"], &[]),
    ("assign", &["plan", "certificate"], &[]),
    ("sim", &["plan", "certificate", "events"], &[]),
    ("expect", &["plan", "certificate", "events", "lines"], &[]),
    ("move", &["old", "new", "certificate"], &[]),
    ("certifymove", &["old", "new"], &[]),
    ("diff", &["old", "new"], &[]),
    ("rollout", &["old", "new"], &[]),
    ("simmove", &["old", "new", "certificate", "events"], &[]),
    ("walk", &["plan", "certificate", "node", "count"], &[]),
    (
        "script",
        &["plan", "certificate", "what", "node", "eid", "count"],
        &[],
    ),
    ("export", &["kind", "plan", "certificate", "node"], &[]),
    ("reach", &["plan", "certificate"], &[]),
    ("matrix", &["plan", "certificate"], &[]),
    ("require", &["plan", "certificate", "wanted"], &[]),
    ("trace", &["plan", "certificate", "from", "to"], &[]),
    ("draw", &["plan"], &["certificate"]),
    ("explain", &["plan"], &["certificate", "events"]),
    ("faults", &["plan"], &["certificate"]),
    ("fix", &["plan"], &[]),
    ("lint", &["plan"], &[]),
    ("verify", &["folder"], &[]),
    ("show", &["kind", "hex"], &[]),
    ("decode", &["capture"], &["plan"]),
    ("audit", &["plan", "certificate", "capture"], &[]),
    ("emulate", &["plan", "certificate", "node"], &[]),
    ("capture", &["plan", "certificate", "events"], &[]),
    ("report", &["plan"], &["certificate"]),
    ("code", &["code"], &[]),
    ("schema", &["kind"], &[]),
    ("guide", &[], &["command"]),
    ("version", &[], &[]),
];

/// What stands for an option that has no value.
const ALL: &str = "all";

/// The option that may stand several times.
const REPEATED: &str = "link";

/// The option by which an answer is told in JSON, and that by which it is a log of SARIF.
const JSON: &str = "json";

const SARIF: &str = "sarif";

/// The options that never have a value.
static FLAGS: [(&str, &str); 12] = [
    ("audit", "complete"),
    ("emulate", "addresses"),
    ("emulate", "configured"),
    ("emulate", "end"),
    ("explain", JSON),
    ("faults", JSON),
    ("faults", SARIF),
    ("lint", JSON),
    ("make", "anew"),
    ("reach", JSON),
    ("trace", JSON),
    ("verify", "strict"),
];

/// The options of commands, and what each means where no value follows it, if it may stand alone.
static OPTIONS: [(&str, &str, Option<&str>); 10] = [
    ("audit", "bus", None),
    ("draw", "rows", Some(ALL)),
    ("explain", "move", None),
    ("export", REPEATED, None),
    ("make", "certificate", None),
    ("make", "keep", None),
    ("make", "out", None),
    ("rollout", "write", None),
    ("script", "lose", None),
    ("script", "repeat", None),
];

/// The names of all commands.
pub fn command_names(alloc: Global) -> Result<Vec<&'static str>, AllocError> {
    let mut names = Vec::new(alloc);
    for &(name, _, _) in &COMMANDS {
        names.push(name)?;
    }
    names.extend_from_slice(&WORDED)?;
    Ok(names)
}

/// The words of the command of this name, if there is one. No other one could stand in its place, and making them all
/// would cost more than checking a small plan.
fn grammar<'a>(alloc: Global, named: Option<&String>) -> Result<clap::Command<'a>, AllocError> {
    let mut grammar = clap::Command::new(alloc, "mctpplan").subcommand_required(true);
    for &(name, required, optional) in &COMMANDS {
        if named.is_some_and(|word| word.as_str() == name) {
            grammar = grammar.subcommand(with_arguments(alloc, name, required, optional)?)?;
        }
    }
    Ok(grammar)
}

/// A command with its arguments in this order: first those that are required, then those that may be left out. Options
/// may stand anywhere.
fn with_arguments<'a>(
    alloc: Global,
    name: &'static str,
    required: &'static [&'static str],
    optional: &'static [&'static str],
) -> Result<clap::Command<'a>, AllocError> {
    let mut command = clap::Command::new(alloc, name);
    for id in required {
        command = command.arg(Arg::new(alloc, *id).required(true).action(ArgAction::Set))?;
    }
    for id in optional {
        command = command.arg(Arg::new(alloc, *id).action(ArgAction::Set))?;
    }
    for &(of, id, alone) in &OPTIONS {
        if of == name {
            command = command.arg(option(alloc, id, alone))?;
        }
    }
    for &(of, id) in &FLAGS {
        if of == name {
            command = command.arg(Arg::new(alloc, id).long(id).action(ArgAction::SetTrue))?;
        }
    }
    Ok(command)
}

/// An option, and what it means where no value follows it.
fn option<'a>(alloc: Global, id: &'a str, alone: Option<&'a str>) -> Arg<'a> {
    let action = if id == REPEATED {
        ArgAction::Append
    } else {
        ArgAction::Set
    };
    let option = Arg::new(alloc, id).long(id).action(action);
    match alone {
        Some(value) => option.num_args(0..=1).default_missing_value(value),
        None => option,
    }
}

/// A command over files, each of which the argument of its name has, and what else the command has.
macro_rules! asked {
    ($arguments:expr, $command:ident($($file:ident),*) $(, $name:ident: $value:expr)*) => {
        Some(Subcommand::$command {
            $($file: $arguments.get_str(stringify!($file))?,)*
            $($name: $value,)*
        })
    };
}

fn chosen<'a>(matches: &ArgMatches<'a>, list: &'a [String]) -> Option<Subcommand<'a>> {
    let (name, arguments) = matches.subcommand()?;
    match name {
        "make" => making(arguments),
        "rows" => planned(arguments, PlanQuestion::Rows),
        "check" => certified(arguments, Question::Check),
        "certify" => planned(arguments, PlanQuestion::Certify),
        "assign" => certified(arguments, Question::Assign),
        "sim" => asked!(arguments, Sim(plan, certificate, events)),
        "expect" => asked!(arguments, Expect(plan, certificate, events, lines)),
        "move" => asked!(arguments, Move(old, new, certificate)),
        "certifymove" => asked!(arguments, CertifyMove(old, new)),
        "diff" => asked!(arguments, Diff(old, new)),
        "rollout" => rolling_out(arguments),
        "simmove" => asked!(arguments, SimMove(old, new, certificate, events)),
        "walk" => certified(arguments, walked(arguments)?),
        "script" => scripting(arguments),
        "export" => exporting(arguments, list),
        "reach" if arguments.get_flag(JSON) => certified_json(arguments, CertifiedJson::Reach),
        "reach" => certified(arguments, Question::Reach),
        "matrix" => certified(arguments, Question::Matrix),
        "require" => asked!(arguments, Require(plan, certificate, wanted)),
        "trace" => tracing(arguments),
        "draw" => drawing(arguments),
        "explain" => explaining(arguments),
        "faults" => listing(arguments),
        "fix" => asked!(arguments, Fix(plan)),
        "lint" if arguments.get_flag(JSON) => planned_json(arguments, PlanJson::Lint),
        "lint" => planned(arguments, PlanQuestion::Lint),
        "verify" => verifying(arguments),
        "show" => showing(arguments),
        "decode" => asked!(arguments, Decode(capture), plan: arguments.get_str("plan")),
        "audit" =>
            asked!(arguments, Audit(plan, certificate, capture), bus: arguments.get_str("bus"),
                is_complete: arguments.get_flag("complete")),
        "emulate" => emulating(arguments),
        "capture" => asked!(arguments, Capture(plan, certificate, events)),
        "report" => asked!(arguments, Report(plan), certificate: arguments.get_str("certificate")),
        "code" => known(text_of(arguments.get_str("code")?)),
        "schema" => known(schema_of(arguments.get_str("kind")?)),
        "guide" => guiding(arguments),
        "version" => Some(Subcommand::Version),
        _ => None,
    }
}

fn certified<'a>(arguments: &ArgMatches<'a>, question: Question<'a>) -> Option<Subcommand<'a>> {
    asked!(arguments, Certified(plan, certificate), question: question)
}

fn planned<'a>(arguments: &ArgMatches<'a>, question: PlanQuestion<'a>) -> Option<Subcommand<'a>> {
    asked!(arguments, Planned(plan), question: question)
}

fn certified_json<'a>(
    arguments: &ArgMatches<'a>,
    asked: CertifiedJson<'a>,
) -> Option<Subcommand<'a>> {
    asked!(arguments, CertifiedJson(plan, certificate), asked: asked)
}

fn planned_json<'a>(arguments: &ArgMatches<'a>, asked: PlanJson) -> Option<Subcommand<'a>> {
    asked!(arguments, PlannedJson(plan), asked: asked)
}

fn making<'a>(arguments: &ArgMatches<'a>) -> Option<Subcommand<'a>> {
    let files = MakeFiles {
        plan: arguments.get_str("out"),
        certificate: arguments.get_str("certificate"),
    };
    if files.plan == Some("-") || files.certificate == Some("-") || is_one_file(files) {
        return None;
    }
    let keep = arguments.get_str("keep");
    let anew = arguments.get_flag("anew");
    // There is nothing to make anew where nothing would be kept.
    if anew && (keep.is_some() || files.plan.is_none()) {
        return None;
    }
    asked!(arguments, Make(board), keep: keep, anew: anew, files: files)
}

/// Whether the plan and its certificate would be written to one file.
fn is_one_file(files: MakeFiles<'_>) -> bool {
    files.plan.is_some() && files.plan == files.certificate
}

fn rolling_out<'a>(arguments: &ArgMatches<'a>) -> Option<Subcommand<'a>> {
    let folder = arguments.get_str("write");
    if folder == Some("-") || folder == Some("") {
        return None;
    }
    asked!(arguments, Rollout(old, new), folder: folder)
}

fn exporting<'a>(arguments: &ArgMatches<'a>, words: &'a [String]) -> Option<Subcommand<'a>> {
    let kind = form_of(arguments.get_str("kind")?)?;
    if !takes_links(kind) && arguments.get_str(REPEATED).is_some() {
        return None;
    }
    let node = arguments.get_str("node")?;
    asked!(arguments, Export(plan, certificate), export: Export { kind, node }, words: words)
}

/// Whether a form is of Linux, where a link says what a bus is called.
fn takes_links(kind: ExportKind) -> bool {
    matches!(
        kind,
        ExportKind::Linux | ExportKind::Mctpd | ExportKind::DeviceTree
    )
}

/// The form of a node that a word names.
pub fn form_of(word: &str) -> Option<ExportKind> {
    match word {
        "linux" => Some(ExportKind::Linux),
        "mctpd" => Some(ExportKind::Mctpd),
        "devicetree" => Some(ExportKind::DeviceTree),
        "c" => Some(ExportKind::C),
        "entries" => Some(ExportKind::Entries),
        "records" => Some(ExportKind::Records),
        _ => None,
    }
}

fn scripting<'a>(arguments: &ArgMatches<'a>) -> Option<Subcommand<'a>> {
    if arguments.get_str("what")? != "walk" {
        return None;
    }
    let script = WalkScript {
        node: arguments.get_str("node")?,
        eid: eid_of_word(arguments.get_str("eid")?)?,
        part: part_size_of(arguments.get_str("count")?)?,
        lost: flights(arguments.get_str("lose"))?,
        repeated: flights(arguments.get_str("repeat"))?,
    };
    asked!(arguments, Script(plan, certificate), script: script)
}

/// The flights that an option names.
fn flights(word: Option<&str>) -> Option<Flights<'_>> {
    match word {
        Some(word) => Flights::of(word),
        None => Some(Flights::NONE),
    }
}

/// The question of a walk.
fn walked<'a>(arguments: &ArgMatches<'a>) -> Option<Question<'a>> {
    let node = arguments.get_str("node")?;
    let part = part_size_of(arguments.get_str("count")?)?;
    Some(Question::Walk { node, part })
}

fn tracing<'a>(arguments: &ArgMatches<'a>) -> Option<Subcommand<'a>> {
    let from = arguments.get_str("from")?;
    let to = arguments.get_str("to")?;
    if arguments.get_flag(JSON) {
        return certified_json(arguments, CertifiedJson::Trace { from, to });
    }
    certified(arguments, Question::Trace { from, to })
}

/// A question in JSON about a plan with its certificate, or one about the plan alone where that is all.
fn json_with_or_without<'a>(
    arguments: &ArgMatches<'a>,
    asked: CertifiedJson<'a>,
    alone: PlanJson,
) -> Option<Subcommand<'a>> {
    match arguments.get_str("certificate") {
        Some(_) => certified_json(arguments, asked),
        None => planned_json(arguments, alone),
    }
}

/// A question about a plan with its certificate, or one about the plan alone where that is all.
fn with_or_without<'a>(
    arguments: &ArgMatches<'a>,
    question: Question<'a>,
    alone: PlanQuestion<'a>,
) -> Option<Subcommand<'a>> {
    match arguments.get_str("certificate") {
        Some(_) => certified(arguments, question),
        None => planned(arguments, alone),
    }
}

fn drawing<'a>(arguments: &ArgMatches<'a>) -> Option<Subcommand<'a>> {
    let rows = drawn_rows(arguments.get_str("rows"))?;
    with_or_without(
        arguments,
        Question::Draw { rows },
        PlanQuestion::Draw { rows },
    )
}

/// Which rows are drawn, by what stands behind the option.
fn drawn_rows(word: Option<&str>) -> Option<DrawnRows> {
    match word {
        None => Some(DrawnRows::Hidden),
        Some(ALL) => Some(DrawnRows::All),
        Some(word) => Some(DrawnRows::For(eid_of_word(word)?)),
    }
}

fn listing<'a>(arguments: &ArgMatches<'a>) -> Option<Subcommand<'a>> {
    let name = arguments.get_str("plan")?;
    let form = match (arguments.get_flag(JSON), arguments.get_flag(SARIF)) {
        (false, false) => {
            return with_or_without(
                arguments,
                Question::Faults { name },
                PlanQuestion::Faults { name },
            );
        }
        (true, false) => Form::Json,
        (false, true) => Form::Sarif,
        (true, true) => return None,
    };
    json_with_or_without(
        arguments,
        CertifiedJson::Faults(form),
        PlanJson::Faults(form),
    )
}

/// A folder is no text that could come on standard input.
fn verifying<'a>(arguments: &ArgMatches<'a>) -> Option<Subcommand<'a>> {
    let folder = arguments.get_str("folder")?;
    if folder == "-" || folder.is_empty() {
        return None;
    }
    Some(Subcommand::Verify {
        folder,
        is_strict: arguments.get_flag("strict"),
    })
}

/// Moves and events are explained in lines alone.
fn explaining<'a>(arguments: &ArgMatches<'a>) -> Option<Subcommand<'a>> {
    let in_json = arguments.get_flag(JSON);
    let certificate = arguments.get_str("certificate");
    match (arguments.get_str("move"), arguments.get_str("events")) {
        (None, None) if in_json => {
            json_with_or_without(arguments, CertifiedJson::Explain, PlanJson::Explain)
        }
        (None, None) => asked!(arguments, Explain(plan), certificate: certificate),
        (None, Some(_)) if !in_json => asked!(arguments, ExplainEvents(plan, certificate, events)),
        (Some(new), None) if !in_json && certificate.is_none() => Some(Subcommand::ExplainMove {
            old: arguments.get_str("plan")?,
            new,
        }),
        _ => None,
    }
}

fn showing<'a>(arguments: &ArgMatches<'a>) -> Option<Subcommand<'a>> {
    let kind = kind_of(arguments.get_str("kind")?)?;
    asked!(arguments, Show(hex), kind: kind)
}

/// Its packets come on standard input, which can't have a plan too.
fn emulating<'a>(arguments: &ArgMatches<'a>) -> Option<Subcommand<'a>> {
    let plan = arguments.get_str("plan")?;
    let certificate = arguments.get_str("certificate")?;
    if plan == "-" || certificate == "-" {
        return None;
    }
    Some(Subcommand::Emulate {
        emulation: Emulation {
            node: arguments.get_str("node")?,
            is_configured: arguments.get_flag("configured"),
            form: LineForm {
                is_addressed: arguments.get_flag("addresses"),
                has_ends: arguments.get_flag("end"),
            },
        },
        plan,
        certificate,
    })
}

fn kind_of(word: &str) -> Option<ShownKind> {
    match word {
        "packet" => Some(ShownKind::Packet),
        "record" => Some(ShownKind::Record),
        _ => None,
    }
}

/// The number of bytes that a word of ASCII digits gives, if a part of a record can have so many.
pub fn part_size_of(word: &str) -> Option<PartSize> {
    if !word.bytes().all(|digit| digit.is_ascii_digit()) {
        return None;
    }
    PartSize::of(word.parse().ok()?)
}

/// The guide to a command, or the list of all where none is named.
fn guiding<'a>(arguments: &ArgMatches<'a>) -> Option<Subcommand<'a>> {
    match arguments.get_str("command") {
        Some(command) => known(guide_to(command)),
        None => known(Some(GUIDE)),
    }
}

/// A text of the program itself, where there is one.
fn known(text: Option<&'static str>) -> Option<Subcommand<'static>> {
    Some(Subcommand::Known { text: text? })
}
