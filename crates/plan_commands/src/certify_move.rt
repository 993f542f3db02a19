//! The command `certifymove`: the certificate of a move from one plan to another, or why there is none.
ghost use Rattle.std.{specs.Prelude.{◌≡◌, IfOk}, specs.Cow.{cow_str_bytes}};
ghost use Rattle.plan_commands.specs.MoveCertifying.{CertifiesMove};
ghost use Rattle.command_answers.specs.declared.refused.Refused.TheVariants as refused;

use command_answers::{Answer, Command, Refused};
use net_check::certify_move;
use net_plan::text_of_certificate;
use plan_texts::move_obstacle_line;
use plan_values::Plan;
use std::alloc::{AllocError, Global};

/// Asks two plans for the certificate of a move from the first to the second.
#[derive(Clone, Copy)]
pub struct CertifyMove;

impl Command for CertifyMove {
    type Of = (Plan, Plan);

    ghost Answers = { λ s given ended text. CertifiesMove given.0 given.1 ended text };

    ghost IsUnanswered = { λ s given why. why ≡ refused.NoMemory };

    /// The certificate, or the line of what rules certificates of the move out.
    fn answer(&self, alloc: Global, given: &(Plan, Plan)) -> Result<Answer, Refused> {
        Ok(certificate_of_move(alloc, &given.0, &given.1)?)
    }
}

/// The certificate of a move, or the line of what rules certificates of it out.
fn certificate_of_move(alloc: Global, before: &Plan, after: &Plan) -> Result<Answer, AllocError>
    ensures { IfOk result (λ answer. CertifiesMove before.now after.now answer.status (cow_str_bytes answer.text)) }
{
    match certify_move(alloc, before, after) {
        Ok(certificate) => Ok(Answer::found(text_of_certificate(alloc, before, &certificate)?)),
        Err(obstacle) => Ok(Answer::fault(move_obstacle_line(alloc, before, &obstacle)?)),
    }
}
