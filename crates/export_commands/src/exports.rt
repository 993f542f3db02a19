//! The command `export` over the files that it reads and the streams that it writes.
ghost use Rattle.std.specs.Prelude.{◌≡◌, ◌↔◌, IfOk, IfErr, IsTrue, MatchOption};
ghost use Rattle.command_answers.{specs.Answers.{stream, IsWithoutPlan}, specs.Told.{Concludes}};
ghost use Rattle.export_commands.specs.Exporting.{AnswersAt, AnswersExportOn, AnswersExportSo, HasForm, IsNamedIn, IsSubject, IsUnexportedOn, IsUnexportedFor};
ghost use Rattle.net_plan.specs.Stream.{HasRoom};
ghost use Rattle.command_answers.specs.declared.refused.Refused.TheVariants as refused;

use crate::exported::{exported, knows_buses};
use command_answers::{
    BytesAnswer, Refused, Status, fault_text, first_named, read_inputs, refuse, tell_bytes,
};
use command_questions::{Export, ExportKind};
use net_check::check;
use net_plan::{Sink, Source};
use net_tables::lookup::{is_bridge, terminus_at};
use plan_exports::Link;
use plan_values::{Certificate, Plan};
use std::alloc::Global;

/// Writes what a node of a plan is in a form on `output`, where the certificate fits the plan, or tells the fault
/// there. Where a file can't be read, or then where the plan has no such node or no bus of a link, says so on `errors`.
pub fn run_export<P: Source, C: Source, O: Sink, E: Sink>(
    alloc: Global,
    export: &Export,
    links: &[Link],
    plan: &mut P,
    certificate: &mut C,
    output: &mut O,
    errors: &mut E,
) -> Status
    requires plan { HasRoom (P.account plan.old) }
    requires certificate { HasRoom (C.account certificate.old) }
    requires output { HasRoom (O.account output.old) }
    requires errors { HasRoom (E.account errors.old) }
    ensures concludes { let plans = stream P.account plan.old plan.new in
        let certificates = stream C.account certificate.old certificate.new in
        Concludes (AnswersExportSo export.now links.now plans certificates) (IsUnexportedFor export.now links.now plans certificates) result
        (stream O.account output.old output.new) (stream E.account errors.old errors.new)
        (output.new ≡ output.old) (errors.new ≡ errors.old) }
    ensures in_order { IsWithoutPlan (stream P.account plan.old plan.new) → certificate.new ≡ certificate.old }
{
    match read_inputs(alloc, plan, certificate) {
        Ok((given, certificate)) => {
            let answered = answer_of_both(alloc, export, links, &given, &certificate);
            tell_bytes(alloc, answered, output, errors)
        }
        Err(refused) => refuse(alloc, refused, errors),
    }
}

/// The answer on a plan and a certificate.
fn answer_of_both(
    alloc: Global,
    export: &Export,
    links: &[Link],
    plan: &Plan,
    certificate: &Certificate,
) -> Result<BytesAnswer, Refused>
    ensures answers { IfOk result (λ answer. AnswersExportOn export.now links.now plan.now certificate.now answer.status answer.bytes.items) }
    ensures unanswered { IfErr result (IsUnexportedOn export.now links.now plan.now) }
{
    match subject_of(export, links, plan) {
        Some(node) => answer_at(alloc, export.kind, links, plan, certificate, node),
        None => Err(Refused::UnknownNode),
    }
}

/// The answer on a node that has what the form is of.
fn answer_at(
    alloc: Global,
    kind: ExportKind,
    links: &[Link],
    plan: &Plan,
    certificate: &Certificate,
    node: usize,
) -> Result<BytesAnswer, Refused>
    requires { HasForm kind plan.now node }
    ensures answers { IfOk result (λ answer. AnswersAt kind links.now plan.now certificate.now node answer.status answer.bytes.items) }
    ensures unanswered { IfErr result (λ why. why ≡ refused.NoMemory) }
{
    match check(alloc, plan, certificate) {
        Ok(checked) => Ok(BytesAnswer::whole(exported(alloc, &checked, kind, links, node)?)),
        Err(error) => Ok(BytesAnswer::fault(fault_text(alloc, plan, &error)?)),
    }
}

/// The first node of the export's name, if it has what the form is of, and each link's bus is one of the plan's.
#[tactic(auto, using(crate::proofs::Subjects::none_named, crate::proofs::Subjects::none_formed, crate::proofs::Subjects::none_linked))]
fn subject_of(export: &Export, links: &[Link], plan: &Plan) -> Option<usize>
    ensures { MatchOption result (¬ IsNamedIn export.now links.now plan.now) (IsSubject export.now links.now plan.now) }
{
    let node = first_named(plan, export.node)?;
    if !has_form(plan, export.kind, node) || !knows_buses(plan, links) {
        return None;
    }
    Some(node)
}

/// Whether a node has what a form is of: a bridge its routing table to tell, a terminus its records.
fn has_form(plan: &Plan, kind: ExportKind, node: usize) -> bool
    ensures { IsTrue result ↔ HasForm kind plan.now node }
{
    match kind {
        ExportKind::Linux | ExportKind::Mctpd | ExportKind::DeviceTree | ExportKind::C => true,
        ExportKind::Entries => is_bridge(plan, node),
        ExportKind::Records => terminus_at(plan, node).is_some(),
    }
}
