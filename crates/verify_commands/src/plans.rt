//! What is judged of a plan alone.
ghost use Rattle.std.specs.Prelude.{◌≡◌, ⊤, false, IfOk};
ghost use Rattle.net_faults.specs.PlanFaults.{HasCertificate};
ghost use Rattle.verify_commands.specs.Parts.{IsClean, LooksWrong, Says};
ghost use Rattle.verify_commands.specs.declared.parts.Part.TheVariants as part;

use crate::parts::{Judged, Part};
use command_answers::PlanText;
use fault_texts::fault_lines;
use net_faults::plan_faults;
use net_questions::lint;
use plan_values::Plan;
use question_texts::lint_lines;
use std::alloc::{AllocError, Global};

/// Whether nothing rules certificates of a plan out. The name is that of the plan's file.
pub fn judge_faults(alloc: Global, name: &str, given: &PlanText) -> Result<Judged, AllocError>
    ensures part { IfOk result (λ judged. judged.part ≡ part.Faults) }
    ensures verdict { IfOk result (λ judged. Says judged.verdict (HasCertificate given.now.plan) (¬ HasCertificate given.now.plan) ⊥) }
{
    let faults = plan_faults(alloc, &given.plan)?;
    if faults.is_empty() {
        return Ok(Judged::holds(alloc, Part::Faults));
    }
    let lines = fault_lines(alloc, name, given.text.as_slice(), &given.plan, &faults)?;
    Judged::fails(alloc, Part::Faults, &lines)
}

/// Whether nothing in a plan looks wrong, which counts only where it is asked for.
pub fn judge_lint(alloc: Global, is_strict: bool, plan: &Plan) -> Result<Judged, AllocError>
    ensures part { IfOk result (λ judged. judged.part ≡ part.Lint) }
    ensures verdict { IfOk result (λ judged. Says judged.verdict (IsClean plan.now) (LooksWrong plan.now) (is_strict ≡ false)) }
{
    let findings = lint(alloc, plan)?;
    if findings.is_empty() {
        return Ok(Judged::holds(alloc, Part::Lint));
    }
    let lines = lint_lines(alloc, plan, &findings)?;
    judge_wrong(alloc, is_strict, &lines)
}

/// The verdict where something looks wrong.
fn judge_wrong(alloc: Global, is_strict: bool, lines: &str) -> Result<Judged, AllocError>
    ensures part { IfOk result (λ judged. judged.part ≡ part.Lint) }
    ensures verdict { IfOk result (λ judged. Says judged.verdict ⊥ ⊤ (is_strict ≡ false)) }
{
    if is_strict {
        Judged::fails(alloc, Part::Lint, lines)
    } else {
        Judged::noted(alloc, Part::Lint, lines)
    }
}
