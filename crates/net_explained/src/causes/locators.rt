//! C15: what is wrong with a terminus locator.
ghost use Rattle.std.specs.Prelude.{◌≡◌, ◌≢◌, ℕ, List, [], ◌∷◌, length, ◌↔◌, IsTrue, Some, None, MatchOption};
ghost use Rattle.net_rules.{specs.Locators.{IsEidLocator, HasOneByteAsEid}, specs.declared.rule.Rule.TheVariants.{C15}};
ghost use Rattle.net_explained.specs.Causes.{IsCauseAt};

use crate::cause::Cause;
use crate::holders::holder_before;
use mctp_transport::Eid;
use net_rules::{eid_locator, is_held_with_tid};
use net_tables::lookup::record_at;
use plan_values::{Plan, PlannedRecord};

/// That the record is a terminus locator whose value is not one byte long.
pub fn long(plan: &Plan, node: usize, index: usize) -> Option<Cause>
    ensures { IsCauseAt plan.now (record { rule = C15; node = node; entry = Some index; eid = None }) result }
{
    let listed = record_at(plan, node, index)?;
    match tid_of_long(listed) {
        Some(tid) => Some(Cause::LongLocator { tid }),
        None => None,
    }
}

/// The terminus ID of the locator, if the record is one whose value is not one byte long.
fn tid_of_long(listed: &PlannedRecord) -> Option<u8>
    ensures { MatchOption result (HasOneByteAsEid listed.now) (λ tid. (value : List ℕ) × IsEidLocator listed.now.bytes.items tid value × (length value ≢ 1)) }
{
    match eid_locator(&listed.bytes) {
        Some(locator) => {
            if locator.locator_value.len() == 1 {
                None
            } else {
                Some(locator.tid)
            }
        }
        None => None,
    }
}

/// Who holds the endpoint ID of the node's terminus locator, where no holder's terminus has the locator's terminus ID.
pub fn misleading(plan: &Plan, node: usize, index: usize, eid: Eid) -> Option<Cause>
    ensures { IsCauseAt plan.now (record { rule = C15; node = node; entry = Some index; eid = Some eid.value }) result }
{
    let listed = record_at(plan, node, index)?;
    let tid = tid_located(listed, eid)?;
    if is_held_with_tid(plan, tid, eid) {
        return None;
    }
    match holder_before(plan, plan.nodes.len(), eid) {
        Some(holder) => Some(Cause::OtherTerminus { holder, tid }),
        None => Some(Cause::NobodyHolds { tid }),
    }
}

/// The terminus ID of the locator, if the record is one of the endpoint ID.
fn tid_located(listed: &PlannedRecord, eid: Eid) -> Option<u8>
    ensures { (tid : ℕ) → IsEidLocator listed.now.bytes.items tid (eid.value ∷ []) ↔ (result ≡ Some tid) }
{
    let locator = eid_locator(&listed.bytes)?;
    if locator.locator_value == [eid.value].as_slice() {
        Some(locator.tid)
    } else {
        None
    }
}
