//! The command `rows`: a plan with rows.
ghost use Rattle.std.{specs.Prelude.{IfOk}, specs.Cow.{cow_str_bytes}};
ghost use Rattle.command_answers.specs.UnreadInputs.{IsTextOf};
ghost use Rattle.plan_commands.specs.Making.{IsRowed};

use board_made::{RowsAnswer, answer_rows};
use command_answers::{Answer, PlanText};
use std::alloc::{AllocError, Global};

/// The plan with rows by which all its nodes reach each other, or why there is none. A plan that needs none is given
/// back as it stands.
pub fn rows_of_plan(alloc: Global, given: &PlanText) -> Result<Answer, AllocError>
    requires { IsTextOf given.now.text.items given.now.plan }
    ensures { IfOk result (λ answer. IsRowed given.now.text.items given.now.plan answer.status (cow_str_bytes answer.text)) }
{
    match answer_rows(alloc, given.text.as_slice(), &given.plan)? {
        RowsAnswer::Made(text) => Ok(Answer::found(text)),
        RowsAnswer::NoPlan(reason) => Ok(Answer::fault(reason)),
    }
}
