//! H04: whether a terminus has a locator of its own.
ghost use Rattle.std.specs.Prelude.{◌≡◌, ◌↔◌, [], ◌∷◌, IsTrue};
ghost use Rattle.net_rules.specs.Locators.{IsEidLocator};
ghost use Rattle.net_questions.specs.Lint.{HasLocator, IsUnlocated, LacksLocator};

use crate::lookup::eid_at;
use mctp_transport::Eid;
use net_rules::eid_locator;
use net_tables::lookup::{records_at, terminus_at};
use plan_values::{Plan, PlannedRecord};

/// Whether a node has a terminus, and no valid locator of its own terminus ID and endpoint ID.
pub fn lacks_locator(plan: &Plan, node: usize) -> bool
    ensures { IsTrue result ↔ LacksLocator plan.now node }
{
    match terminus_at(plan, node) {
        Some(terminus) => is_unlocated(plan, node, terminus.tid),
        None => false,
    }
}

/// Whether a node has no valid locator of the terminus ID and of its own endpoint ID.
fn is_unlocated(plan: &Plan, node: usize, tid: u8) -> bool
    ensures { IsTrue result ↔ IsUnlocated plan.now node tid }
{
    if node < plan.nodes.len() {
        has_no_locator(plan, node, tid, eid_at(plan, node))
    } else {
        false
    }
}

/// Whether none of a node's records is a valid locator of the terminus ID and the endpoint ID.
fn has_no_locator(plan: &Plan, node: usize, tid: u8, eid: Eid) -> bool
    ensures { IsTrue result ↔ ¬ HasLocator plan.now node tid eid.value }
{
    let records = records_at(plan, node);
    for listed in records {
        if locates(listed, tid, eid) {
            return false;
        }
    }
    true
}

/// Whether a record is a valid locator of the terminus ID and the endpoint ID.
fn locates(listed: &PlannedRecord, tid: u8, eid: Eid) -> bool
    ensures { IsTrue result ↔ IsEidLocator listed.now.bytes.items tid (eid.value ∷ []) }
{
    match eid_locator(&listed.bytes) {
        Some(locator) => is_of(locator.tid, locator.locator_value, tid, eid),
        None => false,
    }
}

/// Whether a locator's terminus ID and value are these.
fn is_of(found: u8, value: &[u8], tid: u8, eid: Eid) -> bool
    ensures { IsTrue result ↔ (found ≡ tid) × (value.now ≡ eid.value ∷ []) }
{
    found == tid && value == [eid.value].as_slice()
}
