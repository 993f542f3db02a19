//! The command `lint`: what is lawful in a plan and still looks wrong.
ghost use Rattle.std.{specs.Prelude.{IfOk}, specs.Cow.{cow_str_bytes}};
ghost use Rattle.plan_commands.specs.Linting.{IsLinted};

use command_answers::Answer;
use net_questions::lint;
use plan_values::Plan;
use question_texts::lint_lines;
use std::alloc::{AllocError, Global};

/// All that looks wrong in a plan, or that it is clean.
pub fn findings_of_plan(alloc: Global, plan: &Plan) -> Result<Answer, AllocError>
    ensures { IfOk result (λ answer. IsLinted plan.now answer.status (cow_str_bytes answer.text)) }
{
    let findings = lint(alloc, plan)?;
    if findings.is_empty() {
        return Ok(Answer::clean());
    }
    Ok(Answer::fault(lint_lines(alloc, plan, &findings)?))
}
