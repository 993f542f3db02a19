//! The command `explain` of a move: what `certifymove` answers, and why.
ghost use Rattle.std.{specs.Prelude.{◌≡◌, ◌≢◌, IfOk, IfErr, map, string_bytes}, specs.Cow.{cow_str_bytes}};
ghost use Rattle.fault_texts.specs.Places.{IsPlaceTold};
ghost use Rattle.net_plan.{specs.Finding.{step_value}, specs.Stream.{HasRoom}};
ghost use Rattle.net_rules.specs.MoveObstacles.{NamesMoveObstacle, NamesSureFault, RulesOutMoveCertificates};
ghost use Rattle.command_answers.{specs.Answers.{stream, IsWithoutPlan}, specs.Told.{ConcludesOnOutput}, specs.UnreadInputs.{IsTextOf}};
ghost use Rattle.explain_commands.{specs.Explaining.{IsExplainedThere, IsToldWithEdits}, specs.ExplainingMoves.{ExplainsMoveSo, IsMoveErrorTold, IsMoveExplained, IsMoveExplainedWith, IsMoveObstacleText, IsMoveTold, IsNewFaultTold}, specs.MoveRows.{file_of}};
ghost use Rattle.net_rules.specs.declared.certify_error.CertifyError.TheVariants as error;
ghost use Rattle.net_rules.specs.declared.move_error.MoveError.TheVariants as move_error;
ghost use Rattle.command_answers.specs.declared.refused.Refused.TheVariants as refused;
ghost use Rattle.command_answers.specs.declared.status.Status.TheVariants as status;

mod differences;
mod rows;

use super::certified::cause_text;
use super::{edits_text, explained_there, sound_text, told_there};
use command_answers::{
    Answer, Input, PlanText, Refused, Status, plan_or_text, tell, unread_answer,
};
use differences::difference_text;
use fault_texts::pointer_place;
use net_check::{
    CertifyError, Fault, MoveError, MoveFault, MoveObstacle, MoveRule, Rule, Side, certify_move,
};
use net_explained::find_cause;
use net_plan::{PointerStep, Sink, Source};
use plan_texts::move_obstacle_line;
use rows::{loop_text, way_on_text};
use std::alloc::{AllocError, Global};

/// Says on `output` what `certifymove` says of a move from one plan to another, `yes` in place of the certificate, and
/// explains it. Where a plan can't be read, it says so there too; of two such plans the old one is told and the new one
/// is not read. The names are those of the files, first that of the old plan.
pub fn run_explain_move<P: Source, Q: Source, O: Sink, E: Sink>(
    alloc: Global,
    name: &str,
    new_name: &str,
    before: &mut P,
    after: &mut Q,
    output: &mut O,
    errors: &mut E,
) -> Status
    requires before { HasRoom (P.account before.old) }
    requires after { HasRoom (Q.account after.old) }
    requires output { HasRoom (O.account output.old) }
    requires errors { HasRoom (E.account errors.old) }
    ensures concludes { let befores = stream P.account before.old before.new in
        let afters = stream Q.account after.old after.new in
        ConcludesOnOutput (ExplainsMoveSo name.now new_name.now befores afters) result
        (stream O.account output.old output.new) (stream E.account errors.old errors.new)
        (output.new ≡ output.old) (errors.new ≡ errors.old) }
    ensures quiet { result ≢ status.NoMemory → (O.account output.new).failures ≡ (O.account output.old).failures → errors.new ≡ errors.old }
    ensures in_order { let befores = stream P.account before.old before.new in
        IsWithoutPlan befores → after.new ≡ after.old }
{
    let answered = answer_explain_move(alloc, name, new_name, before, after);
    tell(alloc, answered, output, errors)
}

fn answer_explain_move<P: Source, Q: Source>(
    alloc: Global,
    name: &str,
    new_name: &str,
    before: &mut P,
    after: &mut Q,
) -> Result<Answer, Refused>
    requires before { HasRoom (P.account before.old) }
    requires after { HasRoom (Q.account after.old) }
    ensures answers { let befores = stream P.account before.old before.new in
        let afters = stream Q.account after.old after.new in
        IfOk result (λ answer. ExplainsMoveSo name.now new_name.now befores afters answer.status (cow_str_bytes answer.text)) }
    ensures refused { IfErr result (λ why. why ≡ refused.NoMemory) }
    ensures in_order { let befores = stream P.account before.old before.new in
        IsWithoutPlan befores → after.new ≡ after.old }
{
    match plan_or_text(alloc, before) {
        Ok(given) => answer_of_new(alloc, name, new_name, &given, after),
        Err(unread) => unread_answer(alloc, Input::Plan, &unread),
    }
}

/// The answer on an old plan and the new one that a source gives.
fn answer_of_new<Q: Source>(
    alloc: Global,
    name: &str,
    new_name: &str,
    before: &PlanText,
    after: &mut Q,
) -> Result<Answer, Refused>
    requires after { HasRoom (Q.account after.old) }
    requires text { IsTextOf before.now.text.items before.now.plan }
    ensures answers { let afters = stream Q.account after.old after.new in
        IfOk result (λ answer. IsMoveExplainedWith (file_of name.now before.now) new_name.now afters answer.status (cow_str_bytes answer.text)) }
    ensures refused { IfErr result (λ why. why ≡ refused.NoMemory) }
{
    match plan_or_text(alloc, after) {
        Ok(given) => answer_of_plans(alloc, name, new_name, before, &given),
        Err(unread) => unread_answer(alloc, Input::Plan, &unread),
    }
}

/// The answer on both plans.
fn answer_of_plans(
    alloc: Global,
    name: &str,
    new_name: &str,
    before: &PlanText,
    after: &PlanText,
) -> Result<Answer, Refused>
    requires before { IsTextOf before.now.text.items before.now.plan }
    requires after { IsTextOf after.now.text.items after.now.plan }
    ensures answers { IfOk result (λ answer. IsMoveExplained (file_of name.now before.now) (file_of new_name.now after.now) answer.status (cow_str_bytes answer.text)) }
    ensures refused { IfErr result (λ why. why ≡ refused.NoMemory) }
{
    match certify_move(alloc, &before.plan, &after.plan) {
        Ok(certificate) => Ok(Answer::found(sound_text(alloc, &before.plan, &certificate)?)),
        Err(obstacle) => {
            let text = move_text(alloc, name, new_name, before, after, &obstacle)?;
            Ok(Answer::fault(text))
        }
    }
}

/// Says what rules certificates of a move out, and explains it.
fn move_text(
    alloc: Global,
    name: &str,
    new_name: &str,
    before: &PlanText,
    after: &PlanText,
    obstacle: &MoveObstacle,
) -> Result<String, AllocError>
    requires names { NamesMoveObstacle before.now.plan after.now.plan obstacle.now }
    requires none { RulesOutMoveCertificates before.now.plan after.now.plan obstacle.now }
    requires before { IsTextOf before.now.text.items before.now.plan }
    requires after { IsTextOf after.now.text.items after.now.plan }
    ensures { IfOk result (λ text. IsMoveObstacleText (file_of name.now before.now) (file_of new_name.now after.now) (string_bytes text)) }
{
    let line = move_obstacle_line(alloc, &before.plan, obstacle)?;
    let told = told_text(alloc, name, new_name, before, after, obstacle)?;
    format!(in alloc; "{line}{told}")
}

/// Explains what rules certificates of a move out.
fn told_text(
    alloc: Global,
    name: &str,
    new_name: &str,
    before: &PlanText,
    after: &PlanText,
    obstacle: &MoveObstacle,
) -> Result<String, AllocError>
    requires names { NamesMoveObstacle before.now.plan after.now.plan obstacle.now }
    requires before { IsTextOf before.now.text.items before.now.plan }
    requires after { IsTextOf after.now.text.items after.now.plan }
    ensures { IfOk result (λ text. IsMoveTold (file_of name.now before.now) (file_of new_name.now after.now) obstacle.now (string_bytes text)) }
{
    match obstacle {
        MoveObstacle::Old(error) => explained_there(alloc, name, before, error),
        MoveObstacle::Fault(error) => error_text(alloc, name, new_name, before, after, error),
        MoveObstacle::Loop(found) => loop_text(alloc, name, new_name, before, after, found),
        MoveObstacle::OutOfMemory => Err(AllocError),
    }
}

/// Explains what a move breaks whatever the certificate.
fn error_text(
    alloc: Global,
    name: &str,
    new_name: &str,
    before: &PlanText,
    after: &PlanText,
    error: &MoveError,
) -> Result<String, AllocError>
    requires names { NamesSureFault before.now.plan after.now.plan error.now }
    requires after { IsTextOf after.now.text.items after.now.plan }
    ensures { IfOk result (λ text. IsMoveErrorTold (file_of name.now before.now) (file_of new_name.now after.now) error.now (string_bytes text)) }
{
    match error {
        MoveError::Differ(node) => {
            Ok(difference_text(alloc, name, new_name, before, after, *node)?)
        }
        MoveError::Old(fault) => {
            way_on_text(alloc, name, new_name, before, after, Side::Old, fault)
        }
        MoveError::New(fault) => new_fault_text(alloc, name, new_name, before, after, fault),
        // (neither is there whatever the certificate)
        MoveError::Both(_) | MoveError::OutOfMemory => unreachable!(),
    }
}

/// Explains a fault of the new plan's rows.
fn new_fault_text(
    alloc: Global,
    name: &str,
    new_name: &str,
    before: &PlanText,
    after: &PlanText,
    fault: &MoveFault,
) -> Result<String, AllocError>
    requires names { NamesSureFault before.now.plan after.now.plan (move_error.New fault.now) }
    requires after { IsTextOf after.now.text.items after.now.plan }
    ensures { IfOk result (λ text. IsNewFaultTold (file_of name.now before.now) (file_of new_name.now after.now) fault.now.rule fault.now (string_bytes text)) }
{
    match fault.rule {
        MoveRule::OfPlan(rule) => rule_text(alloc, new_name, after, rule, fault),
        MoveRule::M02 => way_on_text(alloc, name, new_name, before, after, Side::New, fault),
        // (the new plan's rows don't break it)
        MoveRule::M03 => unreachable!(),
    }
}

/// Explains a fault of a rule of one plan, as `explain` of that plan does.
fn rule_text(
    alloc: Global,
    name: &str,
    given: &PlanText,
    rule: Rule,
    fault: &MoveFault,
) -> Result<String, AllocError>
    requires { IsTextOf given.now.text.items given.now.plan }
    ensures { IfOk result (λ text. IsExplainedThere name.now given.now.text.items given.now.plan (error.Fault (record { rule = rule; node = fault.now.node; entry = fault.now.entry; eid = fault.now.eid })) (string_bytes text)) }
{
    let fault = Fault {
        rule,
        node: fault.node,
        entry: fault.entry,
        eid: fault.eid,
    };
    let told = fault_lines(alloc, given, &fault)?;
    told_there(alloc, name, given, &CertifyError::Fault(fault), &told)
}

/// Explains a fault of a plan by its cause, and proposes edits.
fn fault_lines(alloc: Global, given: &PlanText, fault: &Fault) -> Result<String, AllocError>
    requires { IsTextOf given.now.text.items given.now.plan }
    ensures { IfOk result (λ text. IsToldWithEdits given.now.plan (error.Fault fault.now) (string_bytes text)) }
{
    match find_cause(&given.plan, fault) {
        Some(cause) => cause_text(alloc, given, fault, cause),
        None => edits_text(alloc, given, &CertifyError::Fault(*fault)),
    }
}

/// The line that tells where in the text of a plan a pointer leads.
fn place_of(
    alloc: Global,
    name: &str,
    given: &PlanText,
    pointer: &[PointerStep],
) -> Result<String, AllocError>
    ensures { IfOk result (λ line. IsPlaceTold name.now given.now.text.items (map step_value pointer.now) (string_bytes line)) }
{
    pointer_place(alloc, name, given.text.as_slice(), pointer)
}
