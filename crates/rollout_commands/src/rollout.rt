//! The command `rollout`: how nodes get from the rows of one plan to those of another.
ghost use Rattle.std.specs.Prelude.{◌≡◌};
ghost use Rattle.rollout_commands.specs.Rollouts.{RollsOut};
ghost use Rattle.command_answers.specs.declared.refused.Refused.TheVariants as refused;

use command_answers::{Answer, Command, Refused};
use net_rollout::{Rollout, rollout};
use plan_texts::rollout_lines;
use plan_values::Plan;
use std::alloc::Global;

/// Asks two plans for the steps from the rows of the first to those of the second.
#[derive(Clone, Copy)]
pub struct TellSteps;

impl Command for TellSteps {
    type Of = (Plan, Plan);

    ghost Answers = { λ s given ended text. RollsOut given.0 given.1 ended text };

    ghost IsUnanswered = { λ s given why. why ≡ refused.NoMemory };

    /// The lines of the steps, or of what stands in their way.
    fn answer(&self, alloc: Global, given: &(Plan, Plan)) -> Result<Answer, Refused> {
        let found = rollout(alloc, &given.0, &given.1)?;
        let lines = rollout_lines(alloc, &given.0, &found)?;
        match found {
            Rollout::AnyOrder(_) | Rollout::Steps(..) => Ok(Answer::found(lines)),
            Rollout::Stuck(..) | Rollout::Unfit(_) => Ok(Answer::fault(lines)),
        }
    }
}
