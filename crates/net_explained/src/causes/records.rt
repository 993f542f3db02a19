//! C12 and C13: what is wrong with a terminus without records, with a handle, and with a record's bytes.
ghost use Rattle.std.specs.Prelude.{◌≡◌, ℕ, ◌↔◌, IsTrue, Some, None, MatchResult};
ghost use Rattle.pdr_repository.specs.Records.{IsRecordOf};
ghost use Rattle.net_rules.specs.declared.rule.Rule.TheVariants.{C12, C13};
ghost use Rattle.net_explained.{specs.Searches.{IsFirstBelow}, specs.Causes.{IsCauseAt, HasRecordThat, IsEmptyTerminus, AreNoRecordFor}};

use crate::cause::Cause;
use mctp_transport::Wire;
use net_tables::lookup::{record_at, terminus_at};
use pdr_record::RecordError;
use plan_values::{Plan, PlannedRecord};

/// That the node's terminus has no records.
#[tactic(auto, unfolding(net_tables::specs::Repositories::HasRecords))]
pub fn none(plan: &Plan, node: usize) -> Option<Cause>
    ensures { IsCauseAt plan.now (record { rule = C12; node = node; entry = None; eid = None }) result }
{
    if is_empty_terminus(plan, node) {
        Some(Cause::NoRecords)
    } else {
        None
    }
}

/// Whether the node has a terminus, without records.
fn is_empty_terminus(plan: &Plan, node: usize) -> bool
    ensures { IsTrue result ↔ IsEmptyTerminus plan.now node }
{
    match terminus_at(plan, node) {
        Some(terminus) => terminus.records.is_empty(),
        None => false,
    }
}

/// That the record's handle is 0, or which earlier record of the node has it.
pub fn old_handle(plan: &Plan, node: usize, index: usize) -> Option<Cause>
    ensures { IsCauseAt plan.now (record { rule = C12; node = node; entry = Some index; eid = None }) result }
{
    let found = record_at(plan, node, index)?;
    if found.handle == 0 {
        return Some(Cause::HandleIsZero);
    }
    match first_of_handle(plan, node, index, found.handle) {
        Some(earlier) => Some(Cause::SharedHandle { earlier }),
        None => None,
    }
}

/// The first of the node's records before the end that has the handle.
fn first_of_handle(plan: &Plan, node: usize, end: usize, handle: u32) -> Option<usize>
    ensures { IsFirstBelow end (λ i. HasRecordThat plan.now node i (λ r. r.handle ≡ handle)) result }
{
    for earlier in 0..end {
        if has_handle(plan, node, earlier, handle) {
            return Some(earlier);
        }
    }
    None
}

/// Whether the node has the record, and it has the handle.
fn has_handle(plan: &Plan, node: usize, index: usize, handle: u32) -> bool
    ensures { IsTrue result ↔ HasRecordThat plan.now node index (λ r. r.handle ≡ handle) }
{
    match record_at(plan, node, index) {
        Some(listed) => is_of(listed, handle),
        None => false,
    }
}

/// Whether the record has the handle.
fn is_of(listed: &PlannedRecord, handle: u32) -> bool
    ensures { IsTrue result ↔ (listed.now.handle ≡ handle) }
{
    listed.handle == handle
}

/// Why the bytes of the node's record are not those of a record of its handle.
pub fn unreadable(plan: &Plan, node: usize, index: usize) -> Option<Cause>
    ensures { IsCauseAt plan.now (record { rule = C13; node = node; entry = Some index; eid = None }) result }
{
    match record_at(plan, node, index) {
        Some(listed) => match handle_in(&listed.bytes) {
            Ok(handle) if handle == listed.handle => None,
            Ok(handle) => Some(Cause::OtherHandle { handle }),
            Err(why) => Some(Cause::UnreadableRecord { why }),
        },
        None => None,
    }
}

/// The handle in the header, if the bytes are those of a record, all of them; or why they are not.
fn handle_in(bytes: &[u8]) -> Result<u32, RecordError>
    ensures { MatchResult result (λ handle. (other : ℕ) → IsRecordOf other bytes.now ↔ (other ≡ handle)) (λ why. AreNoRecordFor why bytes.now) }
{
    match pdr_record::Record::read(bytes) {
        Ok(read) => Ok(read.handle),
        Err(why) => Err(why),
    }
}
