//! The command `rollout --write`: the steps from the rows of one plan to those of another, with their files.
ghost use Rattle.std.{specs.Prelude.{◌≡◌, ◌⊎◌, IfOk, IfErr, OnErr, OnOk, map, string_bytes}, specs.Cow.{cow_str_bytes}};
ghost use Rattle.net_plan.specs.Stream.{HasRoom};
ghost use Rattle.net_rollout.specs.Steps.{IsRollout};
ghost use Rattle.step_files.{specs.StepFiles.{file_value}, specs.Writes.{MayFail, WritesAll, WritesFirst, writes}};
ghost use Rattle.command_answers.{specs.declared.status.Status.TheVariants.{Yes, Fault, NoMemory}, specs.Answers.{stream, IsWithoutPlan}, specs.Told.{Concludes}};
ghost use Rattle.rollout_commands.{specs.Rollouts.{IsRolledOut}, specs.Writing.{IsMade, IsNoFilesReason, IsUnanswered, IsWithoutFiles, RollsOutWith, RollsOutWithSo}};
ghost use Rattle.command_answers.specs.declared.refused.Refused.TheVariants as refused;

use command_answers::{Answer, Refused, Status, read_plans, tell};
use net_plan::{Sink, Source};
use net_rollout::{Rollout, rollout};
use plan_texts::rollout_lines;
use plan_values::Plan;
use std::alloc::{AllocError, Global};
use step_files::{TextFile, TextFiles, Unmade, step_files, write_files};

/// Writes the files of the steps from the rows of one plan to those of another, and then tells the steps on `output`.
/// Where there are none to the new plan, tells what stands in the way, and writes no file. Where a plan can't be read
/// or a file can't be written, says so on `errors`, and tells nothing else; of two plans the first is told, and then
/// the other is not read.
pub fn run_rollout_written<P: Source, Q: Source, F: TextFiles, O: Sink, E: Sink>(
    alloc: Global,
    folder: &str,
    before: &mut P,
    after: &mut Q,
    files: &mut F,
    output: &mut O,
    errors: &mut E,
) -> Status
    requires before { HasRoom (P.account before.old) }
    requires after { HasRoom (Q.account after.old) }
    requires files { MayFail (F.account files.old) }
    requires output { HasRoom (O.account output.old) }
    requires errors { HasRoom (E.account errors.old) }
    ensures concludes { let befores = stream P.account before.old before.new in
        let afters = stream Q.account after.old after.new in
        let written = writes F.account files.old files.new in
        Concludes (RollsOutWithSo folder.now befores afters written) (λ why. IsWithoutFiles folder.now befores afters written why) result
        (stream O.account output.old output.new) (stream E.account errors.old errors.new)
        (output.new ≡ output.old) (errors.new ≡ errors.old) }
    ensures kept { (result ≡ Fault) ⊎ (result ≡ NoMemory) → files.new ≡ files.old }
    ensures in_order { let befores = stream P.account before.old before.new in
        IsWithoutPlan befores → after.new ≡ after.old }
{
    let answered = answer_written(alloc, folder, before, after, files);
    tell(alloc, answered, output, errors)
}

#[tactic(auto, using(crate::proofs::Written::told_so, crate::proofs::Written::none_so))]
fn answer_written<P: Source, Q: Source, F: TextFiles>(
    alloc: Global,
    folder: &str,
    before: &mut P,
    after: &mut Q,
    files: &mut F,
) -> Result<Answer, Refused>
    requires before { HasRoom (P.account before.old) }
    requires after { HasRoom (Q.account after.old) }
    requires files { MayFail (F.account files.old) }
    ensures answers { let befores = stream P.account before.old before.new in
        let afters = stream Q.account after.old after.new in
        let written = writes F.account files.old files.new in
        IfOk result (λ answer. RollsOutWithSo folder.now befores afters written answer.status (cow_str_bytes answer.text)) }
    ensures refused { let befores = stream P.account before.old before.new in
        let afters = stream Q.account after.old after.new in
        let written = writes F.account files.old files.new in
        IfErr result (λ why. IsWithoutFiles folder.now befores afters written why) }
    ensures kept { IfOk result (λ answer. answer.status ≡ Fault → files.new ≡ files.old) }
    ensures no_memory { IfErr result (λ why. (why ≡ refused.Unwritten) ⊎ (files.new ≡ files.old)) }
    ensures in_order { let befores = stream P.account before.old before.new in
        IsWithoutPlan befores → after.new ≡ after.old }
{
    let (before, after) = read_plans(alloc, before, after)?;
    answer_between(alloc, folder, &before, &after, files)
}

/// The answer on two plans.
#[tactic(auto, using(crate::proofs::Written::steps_told, crate::proofs::Written::nothing_told, crate::proofs::Written::broken_off))]
fn answer_between<F: TextFiles>(
    alloc: Global,
    folder: &str,
    before: &Plan,
    after: &Plan,
    files: &mut F,
) -> Result<Answer, Refused>
    requires files { MayFail (F.account files.old) }
    ensures answers { let written = writes F.account files.old files.new in
        IfOk result (λ answer. RollsOutWith folder.now written before.now after.now answer.status (cow_str_bytes answer.text)) }
    ensures refused { let written = writes F.account files.old files.new in
        IfErr result (λ why. IsUnanswered folder.now written before.now after.now why) }
    ensures kept { IfOk result (λ answer. answer.status ≡ Fault → files.new ≡ files.old) }
    ensures no_memory { IfErr result (λ why. (why ≡ refused.Unwritten) ⊎ (files.new ≡ files.old)) }
{
    match make_files(alloc, folder, before, after)? {
        Made::Steps {
            lines,
            files: texts,
        } => Ok(written_steps(files, lines, &texts)?),
        Made::Nothing(line) => Ok(Answer::fault(line)),
    }
}

/// The answer that tells steps, once their files are written.
fn written_steps<F: TextFiles>(
    files: &mut F,
    lines: String,
    texts: &[TextFile],
) -> Result<Answer, Refused>
    requires files { MayFail (F.account files.old) }
    ensures status { IfOk result (λ answer. answer.status ≡ Yes) }
    ensures text { IfOk result (λ answer. cow_str_bytes answer.text ≡ string_bytes lines) }
    ensures written { OnOk result (WritesAll (writes F.account files.old files.new) (map file_value texts.now)) }
    ensures refused { IfErr result (λ why. why ≡ refused.Unwritten) }
    ensures broken { OnErr result (WritesFirst (writes F.account files.old files.new) (map file_value texts.now)) }
{
    match write_files(files, texts) {
        Ok(()) => Ok(Answer::found(lines)),
        Err(_) => Err(Refused::Unwritten),
    }
}

/// What is made of two plans.
#[derive(Drop)]
enum Made {
    /// The lines of the steps, and their files.
    Steps { lines: String, files: Vec<TextFile> },
    /// The line that says why there are none.
    Nothing(String),
}

/// The lines of the steps and their files, or why there are none.
fn make_files(alloc: Global, folder: &str, before: &Plan, after: &Plan) -> Result<Made, AllocError>
    ensures { IfOk result (λ made. IsMade folder.now before.now after.now made) }
{
    let found = rollout(alloc, before, after)?;
    let lines = rollout_lines(alloc, before, &found)?;
    match found {
        Rollout::AnyOrder(_) | Rollout::Steps(..) => {
            with_files(alloc, folder, before, after, &found, lines)
        }
        Rollout::Stuck(..) | Rollout::Unfit(_) => Ok(Made::Nothing(lines)),
    }
}

/// The lines of steps with their files, or why there are none.
#[tactic(auto, using(crate::proofs::Written::rolled_out_into))]
fn with_files(
    alloc: Global,
    folder: &str,
    before: &Plan,
    after: &Plan,
    found: &Rollout,
    lines: String,
) -> Result<Made, AllocError>
    requires holds { IsRollout before.now after.now found.now }
    requires told { IsRolledOut before.now after.now found.now Yes (string_bytes lines) }
    ensures { IfOk result (λ made. IsMade folder.now before.now after.now made) }
{
    match step_files(alloc, folder, before, after, found) {
        Ok(files) => Ok(Made::Steps { lines, files }),
        Err(Unmade::OtherPlan) => {
            let line = no_files(alloc, "text that was made reads as its plan")?;
            Ok(Made::Nothing(line))
        }
        Err(Unmade::NoCertificate) => {
            let line = no_files(alloc, "certificate fits the plan after a step")?;
            Ok(Made::Nothing(line))
        }
        Err(Unmade::OutOfMemory) => Err(AllocError),
    }
}

fn no_files(alloc: Global, lacking: &str) -> Result<String, AllocError>
    ensures { IfOk result (λ line. IsNoFilesReason (string_bytes line)) }
{
    format!(in alloc; "no files: no {lacking}\n")
}
