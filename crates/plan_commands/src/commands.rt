//! The commands of one question each: `check`, `certify`, `assign` and `walk`.
ghost use Rattle.std.specs.Prelude.{◌≡◌};
ghost use Rattle.net_plan.specs.Stream.{HasRoom};
ghost use Rattle.command_answers.{specs.Answers.{stream, IsPlanUnread, IsWithoutPlan}, specs.Told.{Concludes}};
ghost use Rattle.command_questions.{specs.declared.certified.Question.TheVariants.{Check, Assign, Walk}, specs.declared.planned.PlanQuestion.TheVariants.{Certify}};
ghost use Rattle.plan_commands.{specs.Certified.{AnswersSo, IsUnansweredFor}, specs.Planned.{SaysSo}};

use crate::certified::run_certified;
use crate::planned::run_planned;
use command_answers::Status;
use command_questions::{PartSize, PlanQuestion, Question};
use net_plan::{Sink, Source};
use std::alloc::Global;

/// `check`: writes `yes` on `output`, or the first fault. Where a file can't be read, says so on `errors`.
pub fn run_check<P: Source, C: Source, O: Sink, E: Sink>(
    alloc: Global,
    plan: &mut P,
    certificate: &mut C,
    output: &mut O,
    errors: &mut E,
) -> Status
    requires plan { HasRoom (P.account plan.old) }
    requires certificate { HasRoom (C.account certificate.old) }
    requires output { HasRoom (O.account output.old) }
    requires errors { HasRoom (E.account errors.old) }
    ensures concludes { let plans = stream P.account plan.old plan.new in
        let certificates = stream C.account certificate.old certificate.new in
        Concludes (AnswersSo Check plans certificates) (IsUnansweredFor Check plans certificates) result
        (stream O.account output.old output.new) (stream E.account errors.old errors.new)
        (output.new ≡ output.old) (errors.new ≡ errors.old) }
    ensures in_order { IsWithoutPlan (stream P.account plan.old plan.new) → certificate.new ≡ certificate.old }
{
    run_certified(alloc, &Question::Check, plan, certificate, output, errors)
}

/// `certify`: writes the plan's certificate on `output`, or why it has none. Where the plan can't be read, says so on
/// `errors`.
pub fn run_certify<P: Source, O: Sink, E: Sink>(
    alloc: Global,
    plan: &mut P,
    output: &mut O,
    errors: &mut E,
) -> Status
    requires plan { HasRoom (P.account plan.old) }
    requires output { HasRoom (O.account output.old) }
    requires errors { HasRoom (E.account errors.old) }
    ensures concludes { let plans = stream P.account plan.old plan.new in
        Concludes (SaysSo Certify plans) (λ why. IsPlanUnread why plans) result
        (stream O.account output.old output.new) (stream E.account errors.old errors.new)
        (output.new ≡ output.old) (errors.new ≡ errors.old) }
{
    run_planned(alloc, &PlanQuestion::Certify, plan, output, errors)
}

/// `assign`: writes on `output` the requests that give the nodes their endpoint IDs and pools, or the first fault. Where
/// a file can't be read, says so on `errors`.
pub fn run_assign<P: Source, C: Source, O: Sink, E: Sink>(
    alloc: Global,
    plan: &mut P,
    certificate: &mut C,
    output: &mut O,
    errors: &mut E,
) -> Status
    requires plan { HasRoom (P.account plan.old) }
    requires certificate { HasRoom (C.account certificate.old) }
    requires output { HasRoom (O.account output.old) }
    requires errors { HasRoom (E.account errors.old) }
    ensures concludes { let plans = stream P.account plan.old plan.new in
        let certificates = stream C.account certificate.old certificate.new in
        Concludes (AnswersSo Assign plans certificates) (IsUnansweredFor Assign plans certificates) result
        (stream O.account output.old output.new) (stream E.account errors.old errors.new)
        (output.new ≡ output.old) (errors.new ≡ errors.old) }
    ensures in_order { IsWithoutPlan (stream P.account plan.old plan.new) → certificate.new ≡ certificate.old }
{
    run_certified(alloc, &Question::Assign, plan, certificate, output, errors)
}

/// `walk`: writes on `output` the records that a walk over the node's terminus collects by parts of `count` bytes, or the
/// first fault. Where a file can't be read, or the plan has no terminus at a node of the name, says so on `errors`.
pub fn run_walk<P: Source, C: Source, O: Sink, E: Sink>(
    alloc: Global,
    plan: &mut P,
    certificate: &mut C,
    node: &str,
    count: PartSize,
    output: &mut O,
    errors: &mut E,
) -> Status
    requires plan { HasRoom (P.account plan.old) }
    requires certificate { HasRoom (C.account certificate.old) }
    requires output { HasRoom (O.account output.old) }
    requires errors { HasRoom (E.account errors.old) }
    ensures concludes { let plans = stream P.account plan.old plan.new in
        let certificates = stream C.account certificate.old certificate.new in
        Concludes (AnswersSo (Walk node.entry count) plans certificates) (IsUnansweredFor (Walk node.entry count) plans certificates) result
        (stream O.account output.old output.new) (stream E.account errors.old errors.new)
        (output.new ≡ output.old) (errors.new ≡ errors.old) }
    ensures in_order { IsWithoutPlan (stream P.account plan.old plan.new) → certificate.new ≡ certificate.old }
{
    run_certified(
        alloc,
        &Question::Walk { node, part: count },
        plan,
        certificate,
        output,
        errors,
    )
}
