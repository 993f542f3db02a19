//! The command `require`: whether a checked plan's nodes reach whom they are to reach.
ghost use Rattle.std.{specs.Prelude.{◌≡◌, ◌++◌, codes, IfOk, IfErr, string_bytes}, specs.Fmt.{decimal}, specs.Cow.{cow_str_bytes}};
ghost use Rattle.command_answers.specs.declared.status.Status.TheVariants.{Unreadable};
ghost use Rattle.plan_commands.specs.Requiring.{AnswersWishes, unread_wanted, unread_line_text, IsRequiredOn, RequiresOn, RequiresOf};
ghost use Rattle.command_answers.specs.declared.refused.Refused.TheVariants as refused;

use command_answers::{Answer, Command, Refused, fault_answer};
use net_check::{Checked, check};
use net_plan::TextFault;
use net_reached::{BadLine, Wish, WishError, unmet_wishes, wish_lines, wishes_of_text};
use plan_values::{Certificate, Plan};
use std::alloc::{AllocError, Global};

/// Asks a plan with its certificate whether its nodes reach whom a text wants them to reach.
#[derive(Clone, Copy)]
pub struct RequireWays;

impl Command for RequireWays {
    type Of = ((Plan, Certificate), Result<Vec<u8>, TextFault>);

    ghost Answers = { λ s given ended text. RequiresOf given.0.0 given.0.1 given.1 ended text };

    ghost IsUnanswered = { λ s given why. why ≡ refused.NoMemory };

    /// That they do, or the lines of the text of which it isn't so, or the fault of the plan and its certificate; or why
    /// the text can't be read.
    fn answer(
        &self,
        alloc: Global,
        given: &((Plan, Certificate), Result<Vec<u8>, TextFault>),
    ) -> Result<Answer, Refused> {
        match &given.1 {
            Ok(text) => answer_of_text(alloc, &given.0.0, &given.0.1, text),
            Err(TextFault::TooLong) => unread(alloc, "J08"),
            Err(TextFault::Device) => unread(alloc, "file"),
            Err(TextFault::OutOfMemory) => Err(Refused::NoMemory),
        }
    }
}

/// The answer on a plan, a certificate and the text of what is wanted.
fn answer_of_text(
    alloc: Global,
    plan: &Plan,
    certificate: &Certificate,
    text: &[u8],
) -> Result<Answer, Refused>
    ensures answers { IfOk result (λ answer. RequiresOn plan.now certificate.now text.now answer.status (cow_str_bytes answer.text)) }
    ensures refused { IfErr result (λ why. why ≡ refused.NoMemory) }
{
    match check(alloc, plan, certificate) {
        Ok(checked) => required(alloc, &checked, text),
        Err(error) => fault_answer(alloc, plan, &error),
    }
}

/// The answer on a checked plan and the text of what is wanted.
fn required(alloc: Global, checked: &Checked, text: &[u8]) -> Result<Answer, Refused>
    ensures answers { IfOk result (λ answer. IsRequiredOn checked.now.0 text.now answer.status (cow_str_bytes answer.text)) }
    ensures refused { IfErr result (λ why. why ≡ refused.NoMemory) }
{
    match str::from_utf8(text) {
        Ok(text) => required_text(alloc, checked, text),
        Err(_) => unread(alloc, "J01"),
    }
}

fn required_text(alloc: Global, checked: &Checked, text: &str) -> Result<Answer, Refused>
    ensures answers { IfOk result (λ answer. IsRequiredOn checked.now.0 text.now answer.status (cow_str_bytes answer.text)) }
    ensures refused { IfErr result (λ why. why ≡ refused.NoMemory) }
{
    match wishes_of_text(alloc, checked.plan(), text) {
        Ok(wishes) => Ok(answer_of_wishes(alloc, checked, &wishes)?),
        Err(WishError::Unread(bad)) => Ok(unread_line(alloc, bad)?),
        Err(WishError::OutOfMemory) => Err(Refused::NoMemory),
    }
}

/// The answer on a checked plan and wishes.
fn answer_of_wishes(alloc: Global, checked: &Checked, wishes: &[Wish]) -> Result<Answer, AllocError>
    ensures { IfOk result (λ answer. AnswersWishes checked.now.0 wishes.now answer.status (cow_str_bytes answer.text)) }
{
    let unmet = unmet_wishes(alloc, checked, wishes)?;
    if unmet.is_empty() {
        return Ok(Answer::yes());
    }
    Ok(Answer::fault(wish_lines(alloc, checked.plan(), &unmet)?))
}

/// Says that a line says no wish, and where.
fn unread_line(alloc: Global, bad: BadLine) -> Result<Answer, AllocError>
    ensures { IfOk result (λ answer. (answer.status ≡ Unreadable) × (cow_str_bytes answer.text ≡ unread_line_text bad)) }
{
    let code = if bad.is_name { "J06" } else { "J05" };
    let mut text = code_line(alloc, code)?;
    text.push_str(&place_line(alloc, bad.line, bad.column)?)?;
    Ok(Answer::unread(text))
}

fn place_line(alloc: Global, line: usize, column: usize) -> Result<String, AllocError>
    ensures { IfOk result (λ text. string_bytes text ≡ codes "line " ++ (decimal line ++ (codes ", column " ++ (decimal column ++ codes "\n")))) }
{
    format!(in alloc; "line {line}, column {column}\n")
}

/// Says why what is wanted can't be read.
fn unread(alloc: Global, code: &str) -> Result<Answer, Refused>
    ensures answers { IfOk result (λ answer. (answer.status ≡ Unreadable) × (cow_str_bytes answer.text ≡ unread_wanted code.now)) }
    ensures refused { IfErr result (λ why. why ≡ refused.NoMemory) }
{
    Ok(Answer::unread(code_line(alloc, code)?))
}

fn code_line(alloc: Global, code: &str) -> Result<String, AllocError>
    ensures { IfOk result (λ line. string_bytes line ≡ unread_wanted code.now) }
{
    format!(in alloc; "unreadable wanted: {code}\n")
}
