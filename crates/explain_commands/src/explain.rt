//! The command `explain`: what `certify` answers of a plan, and why.
ghost use Rattle.std.{specs.Prelude.{◌≡◌, ◌≢◌, IfOk, IfErr, option_map, string_bytes}, specs.Cow.{cow_str_bytes}};
ghost use Rattle.net_rules.specs.Certificates.{NamesObstacle, RulesOutCertificates};
ghost use Rattle.net_plan.specs.Stream.{HasRoom};
ghost use Rattle.command_answers.{specs.declared.status.Status.TheVariants.{NoMemory}, specs.Answers.{stream}, specs.Told.{ConcludesOnOutput}, specs.UnreadInputs.{IsTextOf}};
ghost use Rattle.explain_commands.specs.Explaining.{AreEditsTold, AreMoreTold, IsExplainedThere, IsObstacleText, IsToldWithEdits, IsSummedUp, IsExplained, ExplainsSo};
ghost use Rattle.command_answers.specs.declared.refused.Refused.TheVariants as refused;

pub mod certified;
pub mod events;
pub mod moved;

use command_answers::{
    Answer, Input, PlanText, Refused, Status, YES, plan_or_text, tell, unread_answer,
};
use explanation_texts::{edit_lines, obstacle_lines, summary_lines};
use fault_texts::{more_line, obstacle_place};
use net_check::{CertifyError, certify};
use net_explained::{most_hops, tried_edits};
use net_faults::all_faults;
use net_plan::{Sink, Source};
use plan_texts::obstacle_line;
use plan_values::{Certificate, Plan};
use std::alloc::{AllocError, Global};

/// Says on `output` what `certify` says of a plan, `yes` in place of the certificate, and explains it. Where the plan
/// can't be read, it says so there too, and where the text's first fault is. The name is that of the plan's file.
pub fn run_explain<P: Source, O: Sink, E: Sink>(
    alloc: Global,
    name: &str,
    plan: &mut P,
    output: &mut O,
    errors: &mut E,
) -> Status
    requires plan { HasRoom (P.account plan.old) }
    requires output { HasRoom (O.account output.old) }
    requires errors { HasRoom (E.account errors.old) }
    ensures concludes { let plans = stream P.account plan.old plan.new in
        ConcludesOnOutput (ExplainsSo name.now plans) result
        (stream O.account output.old output.new) (stream E.account errors.old errors.new)
        (output.new ≡ output.old) (errors.new ≡ errors.old) }
    ensures quiet { result ≢ NoMemory → (O.account output.new).failures ≡ (O.account output.old).failures → errors.new ≡ errors.old }
{
    let answered = answer_explain(alloc, name, plan);
    tell(alloc, answered, output, errors)
}

fn answer_explain<P: Source>(alloc: Global, name: &str, plan: &mut P) -> Result<Answer, Refused>
    requires { HasRoom (P.account plan.old) }
    ensures answers { let plans = stream P.account plan.old plan.new in
        IfOk result (λ answer. ExplainsSo name.now plans answer.status (cow_str_bytes answer.text)) }
    ensures refused { IfErr result (λ why. why ≡ refused.NoMemory) }
{
    match plan_or_text(alloc, plan) {
        Ok(given) => explained_plan(alloc, name, &given),
        Err(unread) => unread_answer(alloc, Input::Plan, &unread),
    }
}

/// The answer on a plan.
fn explained_plan(alloc: Global, name: &str, given: &PlanText) -> Result<Answer, Refused>
    requires { IsTextOf given.now.text.items given.now.plan }
    ensures answers { IfOk result (λ answer. IsExplained name.now given.now.text.items given.now.plan answer.status (cow_str_bytes answer.text)) }
    ensures refused { IfErr result (λ why. why ≡ refused.NoMemory) }
{
    match certify(alloc, &given.plan) {
        Ok(certificate) => Ok(Answer::found(sound_text(alloc, &given.plan, &certificate)?)),
        Err(obstacle) => Ok(Answer::fault(obstacle_text(alloc, name, given, &obstacle)?)),
    }
}

/// Says yes, and sums a plan up that the certificate fits.
fn sound_text(alloc: Global, plan: &Plan, certificate: &Certificate) -> Result<String, AllocError>
    ensures { IfOk result (λ text. IsSummedUp plan.now (string_bytes text)) }
{
    let mut text = YES.to_string(alloc)?;
    text.push_str(&summary_lines(alloc, plan, most_hops(plan, certificate))?)?;
    Ok(text)
}

/// Says what rules certificates of a plan out, and explains it.
fn obstacle_text(
    alloc: Global,
    name: &str,
    given: &PlanText,
    obstacle: &CertifyError,
) -> Result<String, AllocError>
    requires names { NamesObstacle given.now.plan obstacle.now }
    requires none { RulesOutCertificates given.now.plan obstacle.now }
    requires text { IsTextOf given.now.text.items given.now.plan }
    ensures { IfOk result (λ text. IsObstacleText name.now given.now.text.items given.now.plan (string_bytes text)) }
{
    let line = obstacle_line(alloc, &given.plan, obstacle)?;
    let rest = explained_there(alloc, name, given, obstacle)?;
    format!(in alloc; "{line}{rest}")
}

/// Explains what rules certificates of a plan out: where that stands, why, edits, and how many more faults there are.
fn explained_there(
    alloc: Global,
    name: &str,
    given: &PlanText,
    obstacle: &CertifyError,
) -> Result<String, AllocError>
    requires names { NamesObstacle given.now.plan obstacle.now }
    requires text { IsTextOf given.now.text.items given.now.plan }
    ensures { IfOk result (λ lines. IsExplainedThere name.now given.now.text.items given.now.plan obstacle.now (string_bytes lines)) }
{
    let told = explained_text(alloc, given, obstacle)?;
    told_there(alloc, name, given, obstacle, &told)
}

/// What explains an obstacle, with its place before and how many more faults there are behind.
fn told_there(
    alloc: Global,
    name: &str,
    given: &PlanText,
    obstacle: &CertifyError,
    told: &str,
) -> Result<String, AllocError>
    requires { IsToldWithEdits given.now.plan obstacle.now told.now }
    ensures { IfOk result (λ lines. IsExplainedThere name.now given.now.text.items given.now.plan obstacle.now (string_bytes lines)) }
{
    let place = obstacle_place(alloc, name, given.text.as_slice(), &given.plan, obstacle)?;
    let more = more_faults(alloc, name, &given.plan, None)?;
    format!(in alloc; "{place}{told}{more}")
}

/// Says how many more faults `faults` lists of a plan than the one that is told, or of a plan and a certificate, and by
/// which words.
pub fn more_faults(
    alloc: Global,
    words: &str,
    plan: &Plan,
    certificate: Option<&Certificate>,
) -> Result<String, AllocError>
    ensures { IfOk result (λ line. AreMoreTold plan.now (option_map (λ c. c.now) certificate.entry) words.now (string_bytes line)) }
{
    let faults = all_faults(alloc, plan, certificate)?;
    more_line(alloc, words, faults.len())
}

/// Explains what rules certificates of a plan out, and proposes edits.
fn explained_text(
    alloc: Global,
    given: &PlanText,
    obstacle: &CertifyError,
) -> Result<String, AllocError>
    requires names { NamesObstacle given.now.plan obstacle.now }
    requires text { IsTextOf given.now.text.items given.now.plan }
    ensures { IfOk result (λ text. IsToldWithEdits given.now.plan obstacle.now (string_bytes text)) }
{
    let mut text = obstacle_lines(alloc, &given.plan, obstacle)?;
    text.push_str(&edits_text(alloc, given, obstacle)?)?;
    Ok(text)
}

/// The edits that take away what rules certificates of a plan out, each of them tried.
pub fn edits_text(
    alloc: Global,
    given: &PlanText,
    obstacle: &CertifyError,
) -> Result<String, AllocError>
    requires { IsTextOf given.now.text.items given.now.plan }
    ensures { IfOk result (λ text. AreEditsTold given.now.plan obstacle.now (string_bytes text)) }
{
    let edits = tried_edits(alloc, given.text.as_slice(), &given.plan, obstacle)?;
    Ok(edit_lines(alloc, &given.plan, edits.as_slice())?)
}
