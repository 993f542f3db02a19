//! The command `diff`: what a change of plans does.
ghost use Rattle.std.specs.Prelude.{◌≡◌};
ghost use Rattle.plan_differences.specs.Diffs.{Diffs};
ghost use Rattle.command_answers.specs.declared.refused.Refused.TheVariants as refused;

use crate::told::changes_told;
use command_answers::{Answer, Command, Refused};
use plan_values::Plan;
use std::alloc::Global;
use std::borrow::CowStr;

/// Asks two plans what the change from the first to the second does.
#[derive(Clone, Copy)]
pub struct Diff;

impl Command for Diff {
    type Of = (Plan, Plan);

    ghost Answers = { λ s given ended text. Diffs given.0 given.1 ended text };

    ghost IsUnanswered = { λ s given why. why ≡ refused.NoMemory };

    /// What the change does, or nothing where the plans are the same.
    fn answer(&self, alloc: Global, given: &(Plan, Plan)) -> Result<Answer, Refused> {
        match changes_told(alloc, &given.0, &given.1)? {
            Some(text) => Ok(Answer::fault(text)),
            None => Ok(Answer::said(CowStr::Borrowed(""))),
        }
    }
}
