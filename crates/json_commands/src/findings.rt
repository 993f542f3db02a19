//! `lint`: what is lawful in a plan and still looks wrong.
ghost use Rattle.std.specs.Prelude.{◌≡◌, IfOk, map};
ghost use Rattle.net_plan.specs.Finding.{step_value};
ghost use Rattle.serde_json.specs.View.{view};
ghost use Rattle.command_questions.specs.declared.form.Form.TheVariants.{Json};
ghost use Rattle.json_commands.{specs.Findings.{IsFindingItem, IsLintSaid, address_pointer, bus_pointer, code_of, finding_pointer, port_pointer, status_of}, specs.Values.{IsListTold}};

use crate::lists::empty_list;
use crate::noted::{Noted, notes_of};
use crate::notes::{Subject, about, nodes_value, note_value};
use crate::places::{Placing, place_of, places_of};
use crate::reports::report;
use crate::said::Said;
use command_answers::{PlanText, Status};
use command_questions::Form;
use fault_texts::{part_pointer, record_pointer, row_pointer};
use net_plan::PointerStep;
use net_questions::{Finding, lint};
use plan_values::Plan;
use question_texts::lint_lines;
use serde_json::Value;
use std::alloc::{AllocError, Global};

/// All that looks wrong in a plan. The name is that of the plan's file.
pub fn findings_of_plan(alloc: Global, name: &str, given: &PlanText) -> Result<Said, AllocError>
    ensures { IfOk result (λ said. IsLintSaid name.now given.now.text.items given.now.plan said.status (view said.value)) }
{
    let findings = lint(alloc, &given.plan)?;
    let results = finding_results(alloc, name, given, &findings)?;
    Ok(report(alloc, Form::Json, "lint", status_of(&findings), results)?)
}

/// The notes of findings of a plan.
fn finding_results(
    alloc: Global,
    name: &str,
    given: &PlanText,
    findings: &[Finding],
) -> Result<Value, AllocError>
    ensures { IfOk result (λ value. IsListTold (IsFindingItem Json name.now given.now.text.items) findings.now (view value)) }
{
    let noter = FindingNoter { plan: &given.plan };
    notes_of(alloc, Form::Json, name, given, &noter, findings)
}

/// How a run ends that tells such findings.
fn status_of(findings: &[Finding]) -> Status
    ensures { result ≡ status_of findings.now }
{
    if findings.is_empty() {
        Status::Yes
    } else {
        Status::Fault
    }
}

/// Makes the notes of findings.
#[derive(Clone, Copy)]
struct FindingNoter<'a> {
    plan: &'a Plan,
}

impl<'a> Noted for FindingNoter<'a> {
    type Item = Finding;

    ghost noted = { λ s form name text finding d. IsFindingItem form name text finding d };

    fn note(
        &self,
        alloc: Global,
        placing: &Placing<'_, '_, '_>,
        item: &Finding,
    ) -> Result<Value, AllocError> {
        let pointer = finding_pointer(alloc, item)?;
        let place = place_of(alloc, placing, &pointer)?;
        let other = other_pointer(alloc, item)?;
        let related = places_of(alloc, placing, other)?;
        let words = lint_lines(alloc, self.plan, &[*item])?;
        let nodes = finding_nodes(alloc, self.plan, item)?;
        let subject = subject_of(item);
        note_value(alloc, placing.form, &subject, nodes, place, related, &words)
    }
}

/// What a finding is about: of a pool its endpoint ID, and the row or the record.
fn subject_of(finding: &Finding) -> Subject
    ensures { result.code.now ≡ code_of finding.now }
{
    let code = code_of(finding);
    let (eids, entry) = match *finding {
        Finding::PoolEidNotLedOn { eid, .. } => (Some((eid, eid)), None),
        Finding::IdleRow { row, .. } => (None, Some(row)),
        Finding::SharedSensorId { record, .. }
        | Finding::EmptyReadableRange { record, .. }
        | Finding::CrossedThresholds { record, .. }
        | Finding::UnknownTerminusHandle { record, .. }
        | Finding::UncontainedEntity { record, .. } => (None, Some(record)),
        _ => (None, None),
    };
    about("finding", code, eids, entry)
}

/// The code of a finding.
fn code_of(finding: &Finding) -> &'static str
    ensures { result.now ≡ code_of finding.now }
{
    match finding {
        Finding::SharedAddress { .. } => "H01",
        Finding::MissingAddress { .. } => "H02",
        Finding::SharedTid { .. } => "H03",
        Finding::MissingLocator { .. } => "H04",
        Finding::SharedSensorId { .. } => "H05",
        Finding::OwnerHasNoWay { .. } => "H06",
        Finding::NoWayToOwner { .. } => "H07",
        Finding::IdleRow { .. } => "H08",
        Finding::PoolEidNotLedOn { .. } => "H09",
        Finding::LonePort { .. } => "H10",
        Finding::EmptyReadableRange { .. } => "H11",
        Finding::Isolated { .. } => "H12",
        Finding::ForeignMedia { .. } => "H13",
        Finding::ReservedBinding { .. } => "H14",
        Finding::ReservedAddress { .. } => "H15",
        Finding::EmptyBus { .. } => "H16",
        Finding::CrossedThresholds { .. } => "H17",
        Finding::UnknownTerminusHandle { .. } => "H18",
        Finding::UncontainedEntity { .. } => "H19",
        Finding::OddAddress { .. } => "H20",
        Finding::ForeignLength { .. } => "H21",
        Finding::UncarriedUnit { .. } => "H22",
        Finding::SharedSevenBits { .. } => "H23",
    }
}

/// The nodes of a finding.
fn finding_nodes(alloc: Global, plan: &Plan, finding: &Finding) -> Result<Value, AllocError> {
    match *finding {
        Finding::SharedAddress { node, other, .. }
        | Finding::SharedSevenBits { node, other, .. }
        | Finding::SharedTid { node, other }
        | Finding::OwnerHasNoWay { node, owner: other }
        | Finding::NoWayToOwner { node, owner: other } => {
            nodes_value(alloc, plan, &[node, other])
        }
        Finding::ForeignMedia { .. }
        | Finding::ReservedBinding { .. }
        | Finding::EmptyBus { .. }
        | Finding::UncarriedUnit { .. } => Ok(empty_list(alloc)),
        Finding::MissingAddress { node, .. }
        | Finding::MissingLocator { node }
        | Finding::SharedSensorId { node, .. }
        | Finding::IdleRow { node, .. }
        | Finding::PoolEidNotLedOn { node, .. }
        | Finding::LonePort { node, .. }
        | Finding::EmptyReadableRange { node, .. }
        | Finding::Isolated { node }
        | Finding::ReservedAddress { node, .. }
        | Finding::OddAddress { node, .. }
        | Finding::ForeignLength { node, .. }
        | Finding::CrossedThresholds { node, .. }
        | Finding::UnknownTerminusHandle { node, .. }
        | Finding::UncontainedEntity { node, .. } => nodes_value(alloc, plan, &[node]),
    }
}

/// The pointer to what looks wrong.
fn finding_pointer(alloc: Global, finding: &Finding) -> Result<Vec<PointerStep>, AllocError>
    ensures { IfOk result (λ pointer. map step_value pointer.items ≡ finding_pointer finding.now) }
{
    match *finding {
        Finding::SharedAddress { node, port, .. }
        | Finding::MissingAddress { node, port }
        | Finding::ReservedAddress { node, port }
        | Finding::OddAddress { node, port }
        | Finding::ForeignLength { node, port }
        | Finding::SharedSevenBits { node, port, .. } => address_pointer(alloc, node, port),
        Finding::SharedTid { node, .. } | Finding::MissingLocator { node } => {
            part_pointer(alloc, node, "terminus")
        }
        Finding::SharedSensorId { node, record }
        | Finding::EmptyReadableRange { node, record }
        | Finding::CrossedThresholds { node, record }
        | Finding::UnknownTerminusHandle { node, record }
        | Finding::UncontainedEntity { node, record } => record_pointer(alloc, node, record),
        Finding::OwnerHasNoWay { node, .. } => part_pointer(alloc, node, "owner"),
        Finding::NoWayToOwner { node, .. } | Finding::Isolated { node } => {
            part_pointer(alloc, node, "rows")
        }
        Finding::IdleRow { node, row } => row_pointer(alloc, node, row),
        Finding::PoolEidNotLedOn { node, .. } => part_pointer(alloc, node, "pool"),
        Finding::LonePort { node, port } => port_pointer(alloc, node, port),
        Finding::ForeignMedia { bus }
        | Finding::ReservedBinding { bus }
        | Finding::EmptyBus { bus }
        | Finding::UncarriedUnit { bus } => bus_pointer(alloc, bus),
    }
}

/// The pointer to the other that a finding is about, if there is one.
fn other_pointer(alloc: Global, finding: &Finding) -> Result<Option<Vec<PointerStep>>, AllocError> {
    let pointer = match *finding {
        Finding::SharedAddress {
            other,
            other_port,
            ..
        }
        | Finding::SharedSevenBits {
            other,
            other_port,
            ..
        } => address_pointer(alloc, other, other_port)?,
        Finding::SharedTid { other, .. } => part_pointer(alloc, other, "terminus")?,
        Finding::OwnerHasNoWay { owner, .. } => part_pointer(alloc, owner, "rows")?,
        Finding::NoWayToOwner { owner, .. } => part_pointer(alloc, owner, "eid")?,
        _ => return Ok(None),
    };
    Ok(Some(pointer))
}

/// The pointer to a port of a node.
fn port_pointer(alloc: Global, node: usize, port: usize) -> Result<Vec<PointerStep>, AllocError>
    ensures { IfOk result (λ pointer. map step_value pointer.items ≡ port_pointer node port) }
{
    [
        PointerStep::Key("nodes"),
        PointerStep::Index(node),
        PointerStep::Key("ports"),
        PointerStep::Index(port),
    ]
    .to_vec(alloc)
}

/// The pointer to the address of a port.
fn address_pointer(alloc: Global, node: usize, port: usize) -> Result<Vec<PointerStep>, AllocError>
    ensures { IfOk result (λ pointer. map step_value pointer.items ≡ address_pointer node port) }
{
    let mut pointer = port_pointer(alloc, node, port)?;
    pointer.push(PointerStep::Key("address"))?;
    Ok(pointer)
}

/// The pointer to a bus.
pub fn bus_pointer(alloc: Global, bus: usize) -> Result<Vec<PointerStep>, AllocError>
    ensures { IfOk result (λ pointer. map step_value pointer.items ≡ bus_pointer bus) }
{
    [PointerStep::Key("buses"), PointerStep::Index(bus)].to_vec(alloc)
}
