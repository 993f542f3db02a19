//! The command `make`: the plan that is made of a board.
ghost use Rattle.std.{specs.Prelude.{◌≡◌, ℕ, List, IfOk, IfErr, OnOk, string_bytes}, specs.Cow.{cow_str_bytes}, specs.Io.KnownBytes.{Appends}};
ghost use Rattle.net_plan.specs.Stream.{HasRoom};
ghost use Rattle.command_answers.{specs.declared.status.Status.TheVariants.{Fault}, specs.Answers.{stream}, specs.Told.{Concludes, ConcludesOnOutput}};
ghost use Rattle.plan_commands.specs.Making.{long_board, failed_board, AreHeld, IsFileUnread, IsAnswerWith, IsAnswerOf, MakesSo, MakesWithSo, IsUnwrittenBy};
ghost use Rattle.command_answers.specs.declared.refused.Refused.TheVariants as refused;

use board_made::{BoardAnswer, RecordFile, answer_board, files_of_board, unread_file};
use command_answers::{Answer, Input, Refused, Status, tell};
use command_questions::RecordFiles;
use net_plan::{PlanError, Sink, Source, TEXT_LIMIT, TextFault, read_within, write_whole};
use plan_values::Plan;
use std::alloc::{AllocError, AllocFailed, Global};

/// Prints on `output` the plan that is made of a board, or why none is, also where the board can't be read.
pub fn run_make<B: Source, F: RecordFiles, O: Sink, E: Sink>(
    alloc: Global,
    board: &mut B,
    files: &F,
    output: &mut O,
    errors: &mut E,
) -> Status
    requires board { HasRoom (B.account board.old) }
    requires output { HasRoom (O.account output.old) }
    requires errors { HasRoom (E.account errors.old) }
    ensures concludes { let boards = stream B.account board.old board.new in
        ConcludesOnOutput (MakesSo (F.holds files.now) boards) result
        (stream O.account output.old output.new) (stream E.account errors.old errors.new)
        (output.new ≡ output.old) (errors.new ≡ errors.old) }
{
    let answered = answer_make(alloc, board, files);
    tell(alloc, answered, output, errors)
}

/// The same, and writes the certificate of the plan to `certificate`, before the plan is printed. Where that fails,
/// says so on `errors`, and prints nothing. Where no plan is made, `certificate` is left as it is.
pub fn run_make_certified<B: Source, F: RecordFiles, C: Sink, O: Sink, E: Sink>(
    alloc: Global,
    board: &mut B,
    files: &F,
    certificate: &mut C,
    output: &mut O,
    errors: &mut E,
) -> Status
    requires board { HasRoom (B.account board.old) }
    requires certificate { HasRoom (C.account certificate.old) }
    requires output { HasRoom (O.account output.old) }
    requires errors { HasRoom (E.account errors.old) }
    ensures concludes { let boards = stream B.account board.old board.new in
        let certificates = stream C.account certificate.old certificate.new in
        Concludes (MakesWithSo (F.holds files.now) boards certificates) (λ why. IsUnwrittenBy certificates why) result
        (stream O.account output.old output.new) (stream E.account errors.old errors.new)
        (output.new ≡ output.old) (errors.new ≡ errors.old) }
    ensures kept { result ≡ Fault → certificate.new ≡ certificate.old }
{
    let answered = answer_certified(alloc, board, files, certificate);
    tell(alloc, answered, output, errors)
}

fn answer_make<B: Source, F: RecordFiles>(
    alloc: Global,
    board: &mut B,
    files: &F,
) -> Result<Answer, Refused>
    requires { HasRoom (B.account board.old) }
    ensures answers { let boards = stream B.account board.old board.new in
        IfOk result (λ answer. MakesSo (F.holds files.now) boards answer.status (cow_str_bytes answer.text)) }
    ensures refused { IfErr result (λ why. why ≡ refused.NoMemory) }
{
    match answered_board(alloc, board, files, None)? {
        BoardAnswer::Made(made) => Ok(Answer::found(made.plan)),
        BoardAnswer::NoPlan(reason) => Ok(Answer::fault(reason)),
        BoardAnswer::Unread(line) => Ok(Answer::unread(line)),
    }
}

fn answer_certified<B: Source, F: RecordFiles, C: Sink>(
    alloc: Global,
    board: &mut B,
    files: &F,
    certificate: &mut C,
) -> Result<Answer, Refused>
    requires board { HasRoom (B.account board.old) }
    requires certificate { HasRoom (C.account certificate.old) }
    ensures answers { let boards = stream B.account board.old board.new in
        let certificates = stream C.account certificate.old certificate.new in
        IfOk result (λ answer. MakesWithSo (F.holds files.now) boards certificates answer.status (cow_str_bytes answer.text)) }
    ensures refused { let certificates = stream C.account certificate.old certificate.new in
        IfErr result (λ why. IsUnwrittenBy certificates why) }
    ensures kept { IfOk result (λ answer. answer.status ≡ Fault → certificate.new ≡ certificate.old) }
{
    match answered_board(alloc, board, files, None)? {
        BoardAnswer::Made(made) => {
            write_certificate(certificate, &made.certificate)?;
            Ok(Answer::found(made.plan))
        }
        BoardAnswer::NoPlan(why) => Ok(Answer::fault(why)),
        BoardAnswer::Unread(why) => Ok(Answer::unread(why)),
    }
}

fn write_certificate<C: Sink>(certificate: &mut C, text: &str) -> Result<(), Refused>
    requires { HasRoom (C.account certificate.old) }
    ensures written { OnOk result (Appends (C.account certificate.old).bytes (C.account certificate.new).bytes text.now) }
    ensures unwritten { let certificates = stream C.account certificate.old certificate.new in
        IfErr result (λ why. IsUnwrittenBy certificates why) }
{
    match write_whole(certificate, text.as_bytes()) {
        Ok(()) => Ok(()),
        Err(_) => Err(Refused::Unreadable {
            input: Input::Certificate,
            cause: PlanError::Device,
        }),
    }
}

/// What is answered of the board that a source gives, where the numbers of an old plan are kept.
pub(crate) fn answered_board<B: Source, F: RecordFiles>(
    alloc: Global,
    board: &mut B,
    files: &F,
    old: Option<&Plan>,
) -> Result<BoardAnswer, AllocError>
    requires { HasRoom (B.account board.old) }
    ensures { let boards = stream B.account board.old board.new in
        IfOk result (λ answer. IsAnswerOf (F.holds files.now) boards answer) }
{
    match read_within(alloc, board, TEXT_LIMIT) {
        Ok(text) => Ok(answered_with(alloc, &text, files, old)?),
        Err(TextFault::TooLong) => Ok(BoardAnswer::Unread(long_line(alloc)?)),
        Err(TextFault::Device) => Ok(BoardAnswer::Unread(failed_line(alloc)?)),
        Err(TextFault::OutOfMemory) => Err(AllocError),
    }
}

/// What is answered of a board and of the files that its records name.
fn answered_with<F: RecordFiles>(
    alloc: Global,
    board: &[u8],
    files: &F,
    old: Option<&Plan>,
) -> Result<BoardAnswer, AllocError>
    ensures { IfOk result (λ answer. IsAnswerWith (F.holds files.now) board.now answer) }
{
    let names = files_of_board(alloc, board)?;
    match read_files(alloc, files, &names) {
        Ok(list) => Ok(answer_board(alloc, board, &list, old)?),
        Err(FileFault::Unread(line)) => Ok(BoardAnswer::Unread(line)),
        Err(FileFault::OutOfMemory) => Err(AllocError),
    }
}

/// Why a file can't be had: a line that says so, or too little memory.
#[derive(Drop)]
enum FileFault {
    Unread(String),
    OutOfMemory,
}

impl From<AllocError> for FileFault {
    ghost use Rattle.std.specs.Prelude.{◌≡◌};
    ghost use Rattle.plan_commands.specs.declared.make.FileFault.TheVariants.{OutOfMemory};

    ghost from_gives = { λ _ fault. fault ≡ OutOfMemory };

    fn from(_error: AllocError) -> FileFault {
        FileFault::OutOfMemory
    }
}

impl<T: Drop> From<AllocFailed<T>> for FileFault {
    ghost use Rattle.std.specs.Prelude.{◌≡◌};
    ghost use Rattle.plan_commands.specs.declared.make.FileFault.TheVariants.{OutOfMemory};

    ghost from_gives = { λ _ fault. fault ≡ OutOfMemory };

    fn from(_error: AllocFailed<T>) -> FileFault {
        FileFault::OutOfMemory
    }
}

fn read_files<F: RecordFiles>(
    alloc: Global,
    files: &F,
    names: &[String],
) -> Result<Vec<RecordFile>, FileFault>
    ensures held { IfOk result (λ list. AreHeld (F.holds files.now) list.items) }
    ensures unread { IfErr result (λ fault. IsFileUnread fault) }
{
    let mut list = Vec::new(alloc);
    for index in 0..names.len() {
        list.push(read_file(alloc, files, &names[index])?)?;
    }
    Ok(list)
}

fn read_file<F: RecordFiles>(alloc: Global, files: &F, name: &str) -> Result<RecordFile, FileFault>
    ensures held { IfOk result (λ file. F.holds files.now (string_bytes file.name) file.bytes.items) }
    ensures unread { IfErr result (λ fault. IsFileUnread fault) }
{
    match files.read(alloc, name) {
        Ok(bytes) => Ok(RecordFile {
            name: name.to_string(alloc)?,
            bytes,
        }),
        Err(TextFault::TooLong) => Err(unread(alloc, name, "has more bytes than a record")),
        Err(TextFault::Device) => Err(unread(alloc, name, "can't be opened or read")),
        Err(TextFault::OutOfMemory) => Err(FileFault::OutOfMemory),
    }
}

fn unread(alloc: Global, name: &str, why: &str) -> FileFault
    ensures { IsFileUnread result }
{
    match unread_file(alloc, name, why) {
        Ok(line) => FileFault::Unread(line),
        // no memory: there was no room for the line.
        Err(_) => FileFault::OutOfMemory,
    }
}

fn long_line(alloc: Global) -> Result<String, AllocError>
    ensures { IfOk result (λ line. string_bytes line ≡ long_board) }
{
    "unreadable board: the text is longer than 16777216 bytes\n".to_string(alloc)
}

fn failed_line(alloc: Global) -> Result<String, AllocError>
    ensures { IfOk result (λ line. string_bytes line ≡ failed_board) }
{
    "unreadable board: the file can't be opened or read\n".to_string(alloc)
}
