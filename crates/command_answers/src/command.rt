//! A command as a value: what it reads, what it answers on that, and the one function that runs it.
ghost use Rattle.std.{specs.Prelude.{◌≡◌, ◌⊎◌, ⊤, ℕ, List, IfOk, IfErr}, specs.Cow.{cow_str_bytes}};
ghost use Rattle.net_plan.specs.Stream.{HasRoom};
ghost use Rattle.command_answers.{specs.declared.refused.Refused.{Refused}, specs.declared.status.Status.{Status}, specs.Answers.{stream}, specs.Told.{Concludes}};

use crate::answer::{Answer, refuse, tell};
use crate::refused::Refused;
use crate::status::Status;
use net_plan::Sink;
use std::alloc::Global;

/// An input that is read for what was read before it, of the type `F`. The inputs of a command are read for nothing,
/// `()`.
pub trait Reads<F> {
    /// What it gives.
    type Given: Drop;

    // It may be read; from how it was to how it is, it gave this, or nothing for this reason; and what follows an input
    // that gave nothing was left as it was.
    ghost IsReady: { Self → Type 0 };

    ghost Gave: { Self → Self → F → Self.Given → Type 0 };

    ghost IsUnread: { Self → Self → F → Refused → Type 0 };

    ghost IsInOrder: { Self → Self → F → Type 0 } = { λ s t first. ⊤ };

    /// Reads the input.
    fn read(&mut self, alloc: Global, first: &F) -> Result<Self::Given, Refused>
        requires { IsReady self.old }
        ensures given { IfOk result (λ given. Gave self.old self.new first.now given) }
        ensures unread { IfErr result (λ why. IsUnread self.old self.new first.now why) }
        ensures in_order { IsInOrder self.old self.new first.now };
}

/// What is asked of what was read, of the type `Of`.
pub trait Command {
    /// What has to be read.
    type Of: Drop;

    // The text answers in a run that ends so, or nothing does for this reason.
    ghost Answers: { Self → Self.Of → Status → List ℕ → Type 0 };

    ghost IsUnanswered: { Self → Self.Of → Refused → Type 0 };

    /// The answer.
    fn answer(&self, alloc: Global, given: &Self::Of) -> Result<Answer, Refused>
        ensures answers { IfOk result (λ answer. Answers self.now given.now answer.status (cow_str_bytes answer.text)) }
        ensures unanswered { IfErr result (λ why. IsUnanswered self.now given.now why) };
}

/// Reads the inputs of a command, and tells on `output` what it answers on them. Where an input can't be read, or there
/// is no answer, says so on `errors`; of inputs that can't be read the first is told, and those after it are not read.
pub fn run_command<I: Reads<()>, C: Command<Of = I::Given>, O: Sink, E: Sink>(
    alloc: Global,
    command: &C,
    inputs: &mut I,
    output: &mut O,
    errors: &mut E,
) -> Status
    requires inputs { I.IsReady inputs.old }
    requires output { HasRoom (O.account output.old) }
    requires errors { HasRoom (E.account errors.old) }
    ensures concludes { Concludes
        (λ ended text. (given : I.Given) × I.Gave inputs.old inputs.new tt given × C.Answers command.now given ended text)
        (λ why. I.IsUnread inputs.old inputs.new tt why
        ⊎ ((given : I.Given) × I.Gave inputs.old inputs.new tt given × C.IsUnanswered command.now given why)) result
        (stream O.account output.old output.new) (stream E.account errors.old errors.new)
        (output.new ≡ output.old) (errors.new ≡ errors.old) }
    ensures in_order { I.IsInOrder inputs.old inputs.new tt }
{
    match inputs.read(alloc, &()) {
        Ok(given) => {
            let answered = command.answer(alloc, &given);
            tell(alloc, answered, output, errors)
        }
        Err(refused) => refuse(alloc, refused, errors),
    }
}
