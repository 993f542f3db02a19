//! What was told of a terminus' records, each answer judged by itself (DSP0248, GetPDR).
ghost use Rattle.std.specs.Prelude.{◌≡◌, ◌==◌, ◌||◌, ◌+◌, ◌<◌, ◌⊎◌, ◌↔◌, ◌++◌, ℕ, List, Bool, not, IsTrue, IfOk, OnOk, MatchOption, Some, length, map, slice_get};
ghost use Rattle.pldm_message.{specs.PdrValues.{part as pdr_part, part_request}, specs.Pdrs.{Part}};
ghost use Rattle.pdr_repository.specs.Records.{entries, handle_at};
ghost use Rattle.audited_captures.{specs.RecordParts.{record_part_value, RecordPartValue}, specs.RecordReadings.{place_of, IsToldAt, IsPartAt}, specs.AsPlanned.{IsAmong}, specs.RecordSteps.{start_if, starts_of, left_from, better, IsLeadFrom, AddsLeads, AreLeads, IsFaultAt, IsVerdict, IsVerdictAt, IsVerdictOver, IsVerdictBeside, AreAllVerdicts}};

use crate::record_faults::{RecordFault, fault_from, rest_of};
use crate::record_parts::RecordPart;
use pldm_message::{GetPdrRequest, PdrPart, TransferOperation};
use std::alloc::{AllocError, Global};

/// A transfer handle that was handed out, and where in the record it goes on.
#[derive(Clone, Copy, Debug)]
pub struct Lead {
    /// The record's place.
    pub place: usize,
    pub handle: u32,
    pub offset: usize,
}

/// What an answer about records is beside the planned ones.
#[derive(Clone, Copy, Debug)]
pub enum Verdict {
    /// It isn't known from which byte on was asked.
    Unknown,
    /// It fails, as the planned terminus does.
    Refused,
    /// It is what the record at this place has, perhaps up to its end.
    Reads { place: usize, is_end: bool },
    /// No planned record has the handle.
    Extra { handle: u32 },
    /// The record at this place is another.
    Differs { place: usize, fault: RecordFault },
}

/// The verdicts on answers about records, which are planned by place.
pub fn verdicts_of(
    alloc: Global,
    records: &[(u32, Vec<u8>)],
    parts: &[RecordPart],
) -> Result<Vec<Verdict>, AllocError>
    ensures { IfOk result (λ verdicts. AreAllVerdicts (entries records.now) (map record_part_value parts.now) verdicts.items) }
{
    let mut leads = Vec::new(alloc);
    let mut verdicts = Vec::new(alloc);
    for part in parts {
        verdicts.push(judge(alloc, records, &mut leads, part)?)?;
    }
    Ok(verdicts)
}

/// The verdict on an answer. The handle that it hands out is added to those from before.
fn judge(
    alloc: Global,
    records: &[(u32, Vec<u8>)],
    leads: &mut Vec<Lead>,
    part: &RecordPart,
) -> Result<Verdict, AllocError>
    ensures { (i : ℕ) (parts : List RecordPartValue) → slice_get parts i ≡ Some (record_part_value part.now) → AreLeads (entries records.now) parts i leads.old.items
        → IfOk result (λ v. IsVerdict (entries records.now) parts i (record_part_value part.now) v) × OnOk result (AreLeads (entries records.now) parts (i + 1) leads.new.items) }
{
    match place_of(records, part.request.record_handle) {
        None => Ok(verdict_beside(part)),
        Some(place) => judge_at(alloc, records, leads, place, part),
    }
}

/// The place of the record that a handle means: 0 means the first one.
fn place_of(records: &[(u32, Vec<u8>)], handle: u32) -> Option<usize>
    ensures { result ≡ place_of (entries records.now) handle }
{
    for i in 0..records.len() {
        if is_meant(handle, records[i].0) {
            return Some(i);
        }
    }
    None
}

fn is_meant(handle: u32, other: u32) -> bool
    ensures { result ≡ (handle == 0 || other == handle) }
{
    handle == 0 || other == handle
}

/// The verdict on an answer about a record that isn't planned.
fn verdict_beside(part: &RecordPart) -> Verdict
    ensures { IsVerdictBeside (record_part_value part.now) result }
{
    match &part.told {
        Some(Err(_)) => Verdict::Refused,
        Some(Ok(_)) | None => Verdict::Extra {
            handle: part.request.record_handle,
        },
    }
}

/// The verdict on an answer about the record at a place.
fn judge_at(
    alloc: Global,
    records: &[(u32, Vec<u8>)],
    leads: &mut Vec<Lead>,
    place: usize,
    part: &RecordPart,
) -> Result<Verdict, AllocError>
    requires { place < length records.now }
    ensures verdict { IfOk result (λ v. IsVerdictOver (entries records.now) place (λ o. IsAmong o (starts_of place (part_request part.now.request) leads.old.items)) (record_part_value part.now) v) }
    ensures leads { OnOk result (AddsLeads (entries records.now) place (starts_of place (part_request part.now.request) leads.old.items) (record_part_value part.now) leads.old.items leads.new.items) }
{
    let starts = starts_of(alloc, place, &part.request, leads)?;
    add_leads(leads, records, place, &starts, part)?;
    Ok(verdict_over(records, place, &starts, part))
}

/// Where a request for the record at a place may begin, by the handles that were handed out.
fn starts_of(
    alloc: Global,
    place: usize,
    request: &GetPdrRequest,
    leads: &[Lead],
) -> Result<Vec<usize>, AllocError>
    ensures { IfOk result (λ starts. starts.items ≡ starts_of place (part_request request.now) leads.now) }
{
    let mut starts = Vec::new(alloc);
    if request.operation == TransferOperation::FIRST_PART {
        starts.push(0)?;
    } else if request.operation == TransferOperation::NEXT_PART {
        for lead in leads {
            add_start(&mut starts, place, request.data_transfer_handle, lead)?;
        }
    }
    Ok(starts)
}

fn add_start(
    starts: &mut Vec<usize>,
    place: usize,
    handle: u32,
    lead: &Lead,
) -> Result<(), AllocError>
    ensures { OnOk result (starts.new.items ≡ starts.old.items ++ start_if place handle lead.now) }
{
    if lead.place == place && lead.handle == handle {
        starts.push(lead.offset)?;
    }
    Ok(())
}

/// Adds the handles that an answer hands out, where its request begins at one of these offsets.
fn add_leads(
    leads: &mut Vec<Lead>,
    records: &[(u32, Vec<u8>)],
    place: usize,
    starts: &[usize],
    part: &RecordPart,
) -> Result<(), AllocError>
    requires { place < length records.now }
    ensures { OnOk result (AddsLeads (entries records.now) place starts.now (record_part_value part.now) leads.old.items leads.new.items) }
{
    for start in starts {
        add_from(leads, records, place, *start, part)?;
    }
    Ok(())
}

/// Adds the handle that an answer hands out, where its request begins at the offset.
fn add_from(
    leads: &mut Vec<Lead>,
    records: &[(u32, Vec<u8>)],
    place: usize,
    offset: usize,
    part: &RecordPart,
) -> Result<(), AllocError>
    requires { place < length records.now }
    ensures { OnOk result ((l : Lead) → IsAmong l leads.new.items ↔ (IsAmong l leads.old.items ⊎ ((l.place ≡ place) × IsLeadFrom (entries records.now) offset (record_part_value part.now) l))) }
{
    match lead_from(records, place, offset, part) {
        Some(lead) => add_lead(leads, lead),
        None => Ok(()),
    }
}

/// Adds a handle that was handed out, unless it is known.
fn add_lead(leads: &mut Vec<Lead>, lead: Lead) -> Result<(), AllocError>
    ensures { OnOk result ((l : Lead) → IsAmong l leads.new.items ↔ (IsAmong l leads.old.items ⊎ (lead ≡ l))) }
{
    if !is_known(leads, lead) {
        leads.push(lead)?;
    }
    Ok(())
}

fn is_known(leads: &[Lead], lead: Lead) -> bool
    ensures { IsTrue result → IsAmong lead leads.now }
{
    for known in leads {
        if is_same(known, lead) {
            return true;
        }
    }
    false
}

fn is_same(lead: &Lead, other: Lead) -> bool
    ensures { IsTrue result → lead.now ≡ other }
{
    lead.place == other.place && lead.handle == other.handle && lead.offset == other.offset
}

/// The handle that an answer hands out, where its request begins at the offset, with the place where it goes on.
fn lead_from(
    records: &[(u32, Vec<u8>)],
    place: usize,
    offset: usize,
    part: &RecordPart,
) -> Option<Lead>
    requires { place < length records.now }
    ensures { MatchOption result ((l : Lead) → l.place ≡ place → ¬ IsLeadFrom (entries records.now) offset (record_part_value part.now) l)
        (λ lead. (l : Lead) → ((l.place ≡ place) × IsLeadFrom (entries records.now) offset (record_part_value part.now) l) ↔ (lead ≡ l)) }
{
    let Some(given) = part_at(records, place, offset, part) else {
        return None;
    };
    if given.bytes.len() == left_from(records, place, offset) {
        return None;
    }
    Some(Lead {
        place,
        handle: given.next_data_transfer_handle,
        offset: offset + given.bytes.len(),
    })
}

/// The part that an answer tells, if it is the planned record's from the offset on.
fn part_at<'m>(
    records: &[(u32, Vec<u8>)],
    place: usize,
    offset: usize,
    part: &RecordPart<'m>,
) -> Option<PdrPart<'m>>
    requires { place < length records.now }
    ensures { MatchOption result ((p : Part) (left : Bool) → ¬ IsPartAt (entries records.now) place offset (record_part_value part.now) p left)
        (λ given. IsPartAt (entries records.now) place offset (record_part_value part.now) (pdr_part given) (not (length given.bytes.now == left_from (entries records.now) place offset))) }
{
    match fault_at(records, place, offset, part) {
        Some(_) => None,
        None => match part.told {
            Some(Ok(given)) => Some(given),
            Some(Err(_)) | None => None,
        },
    }
}

/// How many bytes the record at a place has from the offset on.
fn left_from(records: &[(u32, Vec<u8>)], place: usize, offset: usize) -> usize
    requires { place < length records.now }
    ensures left { result ≡ left_from (entries records.now) place offset }
    ensures within { offset + result < 18446744073709551616 }
{
    rest_of(&records[place].1, offset).len()
}

/// What is wrong with what was told of the record at a place from the offset on.
fn fault_at(
    records: &[(u32, Vec<u8>)],
    place: usize,
    offset: usize,
    part: &RecordPart,
) -> Option<RecordFault>
    requires { place < length records.now }
    ensures { MatchOption result (IsToldAt (entries records.now) place offset (record_part_value part.now)) (λ f. IsFaultAt (entries records.now) place offset (record_part_value part.now) f) }
{
    fault_from(
        handle_behind(records, place),
        &records[place].1,
        offset,
        part,
    )
}

/// The handle of the record behind a place, 0 at the last.
fn handle_behind(records: &[(u32, Vec<u8>)], place: usize) -> u32
    requires { place < length records.now }
    ensures { result ≡ handle_at (entries records.now) (place + 1) }
{
    match records.get(place + 1) {
        Some(record) => record.0,
        None => 0,
    }
}

/// The verdict on an answer about the record at a place, whose request begins at one of these offsets.
fn verdict_over(
    records: &[(u32, Vec<u8>)],
    place: usize,
    starts: &[usize],
    part: &RecordPart,
) -> Verdict
    requires { place < length records.now }
    ensures { IsVerdictOver (entries records.now) place (λ o. IsAmong o starts.now) (record_part_value part.now) result }
{
    let mut verdict = Verdict::Unknown;
    for start in starts {
        verdict = better(verdict, verdict_at(records, place, *start, part));
    }
    verdict
}

/// The first of two verdicts if it is that all is as planned, else the second.
fn better(first: Verdict, second: Verdict) -> Verdict
    ensures { result ≡ better first second }
{
    match first {
        Verdict::Refused | Verdict::Reads { .. } => first,
        Verdict::Unknown | Verdict::Extra { .. } | Verdict::Differs { .. } => second,
    }
}

/// The verdict where the request begins at the offset.
fn verdict_at(records: &[(u32, Vec<u8>)], place: usize, offset: usize, part: &RecordPart) -> Verdict
    requires { place < length records.now }
    ensures { IsVerdictAt (entries records.now) place offset (record_part_value part.now) result }
{
    if let Some(fault) = fault_at(records, place, offset, part) {
        return Verdict::Differs { place, fault };
    }
    match part_at(records, place, offset, part) {
        Some(given) => Verdict::Reads {
            place,
            is_end: given.bytes.len() == left_from(records, place, offset),
        },
        None => Verdict::Refused,
    }
}
