//! `faults`: every fault of a plan, or of a plan and its certificate; and the note of each.
ghost use Rattle.std.specs.Prelude.{◌≡◌, IfOk, None, Some, map};
ghost use Rattle.json.specs.Value.{value_view};
ghost use Rattle.net_pointers.specs.Offsets.{IsTextOf};
ghost use Rattle.net_plan.specs.Finding.{step_value};
ghost use Rattle.fault_texts.specs.Places.{plan_fault_pointer};
ghost use Rattle.serde_json.specs.View.{view};
ghost use Rattle.json_commands.{specs.Faults.{AreFaultsSaid, AreFaultsTold, IsFaultItem, IsFaultsSaid, IsObstacleAlone, fault_code, rule_of}, specs.Values.{IsListTold}};
ghost use Rattle.command_answers.specs.declared.status.Status.TheVariants as status;

use crate::findings::bus_pointer;
use crate::lists::empty_list;
use crate::noted::{Noted, notes_of};
use crate::notes::{Subject, about, nodes_value, note_value};
use crate::places::{Placing, place_of, places_of};
use crate::reports::report;
use crate::said::Said;
use crate::ways::hop_pointer;
use command_answers::{PlanText, Status};
use command_questions::Form;
use explanation_texts::{around, cause_lines};
use fault_texts::{
    obstacle_pointer, part_pointer, record_pointer, row_pointer, run_pointer, run_words,
    words_with_more,
};
use mctp_transport::Eid;
use net_explained::{Cause, find_cause};
use net_faults::{PlanFault, all_faults, plan_faults};
use net_plan::PointerStep;
use net_rules::{CertifyError, Fault, FaultRun};
use plan_values::{Certificate, Plan};
use serde_json::Value;
use std::alloc::{AllocError, Global};
use std::slice;

/// All that rules certificates of a plan out. The name is that of the plan's file.
pub fn faults_of_plan(
    alloc: Global,
    form: Form,
    name: &str,
    given: &PlanText,
) -> Result<Said, AllocError>
    ensures { IfOk result (λ said. IsFaultsSaid form name.now given.now.text.items given.now.plan said.status (view said.value)) }
{
    let faults = plan_faults(alloc, &given.plan)?;
    if faults.is_empty() {
        return Ok(report(alloc, form, "faults", Status::Yes, empty_list(alloc))?);
    }
    Ok(faults_said(alloc, form, name, given, &faults)?)
}

/// Every fault of a plan and a certificate that are not accepted.
pub fn faults_of_both(
    alloc: Global,
    form: Form,
    name: &str,
    given: &PlanText,
    certificate: &Certificate,
) -> Result<Said, AllocError>
    ensures { IfOk result (λ said. (said.status ≡ status.Fault)
        × AreFaultsSaid form name.now given.now.text.items given.now.plan (Some certificate.now) (view said.value)) }
{
    let faults = all_faults(alloc, &given.plan, Some(certificate))?;
    Ok(faults_said(alloc, form, name, given, &faults)?)
}

/// What is said of these faults of a plan.
fn faults_said(
    alloc: Global,
    form: Form,
    name: &str,
    given: &PlanText,
    faults: &[PlanFault],
) -> Result<Said, AllocError>
    ensures { IfOk result (λ said. (said.status ≡ status.Fault)
        × AreFaultsTold form name.now given.now.text.items given.now.plan faults.now (view said.value)) }
{
    let results = fault_results(alloc, form, name, given, faults)?;
    Ok(report(alloc, form, "faults", Status::Fault, results)?)
}

/// The one note of what rules certificates of a plan out.
pub fn obstacle_results(
    alloc: Global,
    form: Form,
    name: &str,
    given: &PlanText,
    obstacle: CertifyError,
) -> Result<Value, AllocError>
    ensures { IfOk result (λ value. IsObstacleAlone form name.now given.now.text.items given.now.plan obstacle (view value)) }
{
    let fault = PlanFault::Obstacle(obstacle, 0);
    fault_results(alloc, form, name, given, slice::from_ref(&fault))
}

/// The notes of faults of a plan.
fn fault_results(
    alloc: Global,
    form: Form,
    name: &str,
    given: &PlanText,
    faults: &[PlanFault],
) -> Result<Value, AllocError>
    ensures { IfOk result (λ value. IsListTold (IsFaultItem form name.now given.now.text.items given.now.plan) faults.now (view value)) }
{
    let noter = FaultNoter { plan: &given.plan };
    notes_of(alloc, form, name, given, &noter, faults)
}

/// Makes the notes of faults of a plan.
#[derive(Clone, Copy)]
struct FaultNoter<'a> {
    plan: &'a Plan,
}

impl<'a> Noted for FaultNoter<'a> {
    type Item = PlanFault;

    ghost noted = { λ s form name text fault d. IsFaultItem form name text s.plan.now fault d };

    fn note(
        &self,
        alloc: Global,
        placing: &Placing<'_, '_, '_>,
        item: &PlanFault,
    ) -> Result<Value, AllocError> {
        let pointer = fault_pointer(alloc, self.plan, item)?;
        let place = place_of(alloc, placing, &pointer)?;
        let related = related_to(alloc, placing, self.plan, item)?;
        let words = fault_words(alloc, placing.form, self.plan, item)?;
        let nodes = fault_nodes(alloc, self.plan, item)?;
        let subject = fault_subject(item);
        note_value(alloc, placing.form, &subject, nodes, place, related, &words)
    }
}

/// The pointer to what a fault speaks of.
fn fault_pointer(
    alloc: Global,
    plan: &Plan,
    fault: &PlanFault,
) -> Result<Vec<PointerStep>, AllocError>
    ensures { IfOk result (λ pointer. map step_value pointer.items ≡ plan_fault_pointer plan.now fault.now) }
{
    match fault {
        PlanFault::Broken(run) => run_pointer(alloc, run),
        PlanFault::Obstacle(obstacle, _) => obstacle_pointer(alloc, plan, obstacle),
    }
}

/// The words of a fault, without its place: its line, and below it why. A log of SARIF has the code elsewhere, so there
/// they are the sentences alone, where there are some.
fn fault_words(
    alloc: Global,
    form: Form,
    plan: &Plan,
    fault: &PlanFault,
) -> Result<String, AllocError> {
    let run = match fault {
        PlanFault::Broken(run) => run,
        PlanFault::Obstacle(obstacle, more) => {
            return words_with_more(alloc, plan, obstacle, *more);
        }
    };
    let why = cause_words(alloc, plan, &first_fault(run))?;
    match form {
        Form::Sarif if !why.is_empty() => Ok(why),
        Form::Json | Form::Sarif => {
            let line = run_words(alloc, plan, run)?;
            format!(in alloc; "{line}\n{why}")
        }
    }
}

/// Why a plan breaks a rule, in sentences; none where its certificate does.
fn cause_words(alloc: Global, plan: &Plan, fault: &Fault) -> Result<String, AllocError> {
    match find_cause(plan, fault) {
        Some(cause) => cause_lines(alloc, plan, fault, cause),
        None => Ok(String::new(alloc)),
    }
}

// ---- whom a note is about

fn fault_subject(fault: &PlanFault) -> Subject
    ensures { result.code.now ≡ fault_code fault.now }
{
    match fault {
        PlanFault::Broken(run) => {
            let eids = run.eids.map(|eids| (eids.first, eids.last));
            about("fault", run.rule.code(), eids, run.entry)
        }
        PlanFault::Obstacle(obstacle, _) => obstacle_subject(obstacle),
    }
}

fn obstacle_subject(obstacle: &CertifyError) -> Subject
    ensures { result.code.now ≡ rule_of obstacle.now }
{
    match obstacle {
        CertifyError::Fault(fault) => {
            let eids = fault.eid.map(|eid| (eid, eid));
            about("fault", fault.rule.code(), eids, fault.entry)
        }
        CertifyError::OwnerLoop(_) => about("owner loop", "C07", None, None),
        CertifyError::Loop(eid, _) => about("loop", "C10", Some((*eid, *eid)), None),
        CertifyError::BadChain(_, _, entry) => about("chain", "C14", None, Some(*entry)),
        CertifyError::OutOfMemory => about("no memory", "no memory", None, None),
    }
}

/// The nodes of a fault: those of a loop each once.
fn fault_nodes(alloc: Global, plan: &Plan, fault: &PlanFault) -> Result<Value, AllocError> {
    let obstacle = match fault {
        PlanFault::Broken(run) => return nodes_value(alloc, plan, &[run.node]),
        PlanFault::Obstacle(obstacle, _) => obstacle,
    };
    match obstacle {
        CertifyError::Fault(fault) => nodes_value(alloc, plan, &[fault.node]),
        CertifyError::OwnerLoop(nodes) => nodes_value(alloc, plan, around(nodes)),
        CertifyError::Loop(_, nodes) => nodes_value(alloc, plan, around(nodes)),
        CertifyError::BadChain(node, ..) => nodes_value(alloc, plan, &[*node]),
        CertifyError::OutOfMemory => Ok(empty_list(alloc)),
    }
}

// ---- where the others stand

/// Where the others stand that are involved: what the cause of a fault names, of a run that of its first fault; the hops
/// of a loop. Want of memory has no note.
fn related_to(
    alloc: Global,
    placing: &Placing<'_, '_, '_>,
    plan: &Plan,
    fault: &PlanFault,
) -> Result<Value, AllocError>
    requires { IsTextOf placing.now.index.now (value_view placing.now.tree.now) }
{
    let obstacle = match fault {
        PlanFault::Broken(run) => return cause_places(alloc, placing, plan, &first_fault(run)),
        PlanFault::Obstacle(obstacle, _) => obstacle,
    };
    match obstacle {
        CertifyError::Fault(fault) => cause_places(alloc, placing, plan, fault),
        CertifyError::OwnerLoop(nodes) => hop_places(alloc, placing, plan, None, around(nodes)),
        CertifyError::Loop(eid, nodes) => {
            hop_places(alloc, placing, plan, Some(*eid), around(nodes))
        }
        CertifyError::BadChain(..) => Ok(empty_list(alloc)),
        CertifyError::OutOfMemory => Err(AllocError),
    }
}

/// The first fault of a run.
fn first_fault(run: &FaultRun) -> Fault {
    Fault {
        rule: run.rule,
        node: run.node,
        entry: run.entry,
        eid: run.eids.map(|eids| eids.first),
    }
}

/// Where the other stands that is involved in a fault of a plan.
fn cause_places(
    alloc: Global,
    placing: &Placing<'_, '_, '_>,
    plan: &Plan,
    fault: &Fault,
) -> Result<Value, AllocError>
    requires { IsTextOf placing.now.index.now (value_view placing.now.tree.now) }
{
    match find_cause(plan, fault) {
        Some(cause) => places_of(alloc, placing, cause_pointer(alloc, fault.node, cause)?),
        None => Ok(empty_list(alloc)),
    }
}

/// Where the hops of a loop stand, one for each node: its row for the endpoint ID, or its owner where none is given.
fn hop_places(
    alloc: Global,
    placing: &Placing<'_, '_, '_>,
    plan: &Plan,
    eid: Option<Eid>,
    nodes: &[usize],
) -> Result<Value, AllocError>
    requires { IsTextOf placing.now.index.now (value_view placing.now.tree.now) }
{
    let mut places = Vec::new(alloc);
    for &node in nodes {
        let pointer = match eid {
            Some(eid) => hop_pointer(alloc, plan, eid, node)?,
            None => part_pointer(alloc, node, "owner")?,
        };
        places.push(place_of(alloc, placing, &pointer)?)?;
    }
    Ok(Value::Array(places))
}

/// The pointer to what a cause names beside the place of the fault at a node, if it names something.
fn cause_pointer(
    alloc: Global,
    node: usize,
    cause: Cause,
) -> Result<Option<Vec<PointerStep>>, AllocError> {
    let pointer = match cause {
        Cause::SharedName { earlier } => part_pointer(alloc, earlier, "name")?,
        Cause::SharedEid { earlier } => part_pointer(alloc, earlier, "eid")?,
        Cause::OverlappedRow { earlier, .. } => row_pointer(alloc, node, earlier)?,
        Cause::NoSuchPort => part_pointer(alloc, node, "ports")?,
        Cause::NextNotOnBus { bus } => bus_pointer(alloc, bus)?,
        Cause::OwnerIsEndpoint { owner } => part_pointer(alloc, owner, "kind")?,
        Cause::OwnerSharesNoBus { owner } => part_pointer(alloc, owner, "ports")?,
        Cause::OutsideOwnersPool { owner } | Cause::PoolBeyondOwners { owner, .. } => {
            part_pointer(alloc, owner, "pool")?
        }
        Cause::InPeersPool { peer } => part_pointer(alloc, peer, "pool")?,
        Cause::PoolOfEndpoint => part_pointer(alloc, node, "kind")?,
        Cause::PoolsMeet { earlier, .. } => part_pointer(alloc, earlier, "pool")?,
        Cause::NextIsEndpoint { holder }
        | Cause::NextHasNoRow { holder }
        | Cause::OtherTerminus { holder, .. } => part_pointer(alloc, holder, "eid")?,
        Cause::SharedHandle { earlier } => record_pointer(alloc, node, earlier)?,
        _ => return Ok(None),
    };
    Ok(Some(pointer))
}
