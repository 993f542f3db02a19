//! What a record locates, if it is a terminus locator.
ghost use Rattle.std.specs.Prelude.{◌≡◌, ◌≢◌, ◌↔◌, ◌∷◌, [], ℕ, IsTrue, Some};
ghost use Rattle.plan_values.specs.declared.plan.Plan.{Plan};
ghost use Rattle.net_tables.specs.Routing.{eid_number};
ghost use Rattle.net_rules.specs.Locators.{HasOneByteAsEid, IsHeldByTerminus, LocatesTerminus};

use crate::holders::Holders;
use crate::rules::locators::{eid_locator, is_held_by_terminus};
use mctp_transport::Eid;
use plan_values::{Plan, PlannedRecord};

/// Whether the record, as a terminus locator, has a value of one byte.
#[tactic(auto, unfolding(crate::specs::Locators::HasOneByteAsEid))]
pub fn has_one_byte_as_eid(listed: &PlannedRecord) -> bool
    ensures { IsTrue result ↔ HasOneByteAsEid listed.now }
{
    match eid_locator(&listed.bytes) {
        Some(locator) => locator.locator_value.len() == 1,
        None => true,
    }
}

/// Whether the record, as a terminus locator of this endpoint ID, locates a terminus of the plan.
pub fn locates_terminus(
    plan: &Plan,
    holders: &Holders<'_>,
    listed: &PlannedRecord,
    eid: Eid,
) -> bool
    requires { holders.now ≡ plan.now }
    ensures { IsTrue result ↔ LocatesTerminus plan.now listed.now eid.value }
{
    match eid_locator(&listed.bytes) {
        Some(locator) => is_value_held(plan, holders, locator.tid, locator.locator_value, eid),
        None => true,
    }
}

/// Whether a node of the terminus ID holds the endpoint ID, if the value is that.
fn is_value_held(plan: &Plan, holders: &Holders<'_>, tid: u8, value: &[u8], eid: Eid) -> bool
    requires { holders.now ≡ plan.now }
    ensures { IsTrue result ↔ (value.now ≡ eid.value ∷ [] → IsHeldByTerminus plan.now tid eid.value) }
{
    let [number] = value else {
        return true;
    };
    *number != eid.value || is_held_by_terminus(plan, holders, tid, eid)
}

/// The endpoint ID of which the record is a terminus locator, if it is one.
pub fn located_eid(listed: &PlannedRecord) -> Option<Eid>
    ensures { (plan : Plan) (e : ℕ) → eid_number result ≢ Some e → LocatesTerminus plan listed.now e }
{
    match eid_locator(&listed.bytes) {
        Some(locator) => eid_of_value(locator.locator_value),
        None => None,
    }
}

/// The endpoint ID that the value is, if it has one byte.
fn eid_of_value(value: &[u8]) -> Option<Eid>
    ensures { (e : ℕ) → eid_number result ≢ Some e → value.now ≢ e ∷ [] }
{
    let [number] = value else {
        return None;
    };
    Some(Eid::new(*number))
}
