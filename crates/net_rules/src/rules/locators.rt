//! C15: terminus locators name a node that holds the endpoint ID, and whose terminus has the terminus ID.
ghost use Rattle.std.specs.Prelude.{◌≡◌, ℕ, List, [], ◌∷◌, length, ◌↔◌, IsTrue, IfSome, IsSomeAnd, Some, option_map};
ghost use Rattle.net_tables.{specs.Routing.{Holds}, specs.Repositories.{terminus_of}};
ghost use Rattle.net_rules.{specs.Locators.{IsEidLocator, HasOneByteAsEid, IsHeldByTerminus, LocatesTerminus}, specs.Rules.{PlanDemands, AtNodeOrEid}, specs.Search.{IsFirstSpot}};

use crate::holders::Holders;
use crate::rule::Rule;
use crate::spot::Spot;
use mctp_transport::{Eid, Wire};
use net_tables::lookup::{holds, records_at, terminus_at};
use pdr_record::{Body, TERMINUS_LOCATOR, TerminusLocator, has_type};
use plan_values::{Plan, PlannedRecord};

/// Where a terminus locator does not locate a terminus of the plan.
pub fn misleading_locator(plan: &Plan, holders: &Holders<'_>, node: usize) -> Option<Spot>
    requires { holders.now ≡ plan.now }
    ensures { IsFirstSpot (PlanDemands plan.now Rule.C15 node) result }
{
    let records = records_at(plan, node);
    for (j, listed) in records.iter().enumerate() {
        if let Some(spot) = misleading_at(plan, holders, listed) {
            return Some(spot.in_entry(j));
        }
    }
    None
}

/// Where a record, as a terminus locator, does not locate a terminus of the plan: by the length of its value, or by its
/// endpoint ID.
fn misleading_at(plan: &Plan, holders: &Holders<'_>, listed: &PlannedRecord) -> Option<Spot>
    requires { holders.now ≡ plan.now }
    ensures { IsFirstSpot (AtNodeOrEid (HasOneByteAsEid listed.now) (LocatesTerminus plan.now listed.now)) result }
{
    match eid_locator(&listed.bytes) {
        Some(locator) => misleading_value(plan, holders, locator.tid, locator.locator_value),
        None => None,
    }
}

/// Where a locator's value is no endpoint ID, or one that no node of the terminus ID holds.
fn misleading_value(plan: &Plan, holders: &Holders<'_>, tid: u8, value: &[u8]) -> Option<Spot>
    requires { holders.now ≡ plan.now }
    ensures { IsFirstSpot (AtNodeOrEid (length value.now ≡ 1) (λ e. value.now ≡ e ∷ [] → IsHeldByTerminus plan.now tid e)) result }
{
    let [number] = value else {
        return Some(Spot::at_node());
    };
    let eid = Eid::new(*number);
    if is_held_by_terminus(plan, holders, tid, eid) {
        return None;
    }
    Some(Spot::at_eid(eid))
}

/// The locator that the bytes are, if they are those of a terminus locator that is valid and names an MCTP endpoint ID.
pub fn eid_locator(bytes: &[u8]) -> Option<TerminusLocator<'_>>
    ensures found { IfSome result (λ locator. IsEidLocator bytes.now locator.tid locator.locator_value.now) }
    ensures all { (tid : ℕ) (value : List ℕ) → IsEidLocator bytes.now tid value → IsSomeAnd result (λ locator. (locator.tid ≡ tid) × (locator.locator_value.now ≡ value)) }
{
    if !has_type(bytes, TERMINUS_LOCATOR) {
        return None;
    }
    valid_eid_locator(bytes)
}

/// The same without a look at the type first. It stands apart, since what is read of a record takes room.
#[inline(never)]
fn valid_eid_locator(bytes: &[u8]) -> Option<TerminusLocator<'_>>
    ensures found { IfSome result (λ locator. IsEidLocator bytes.now locator.tid locator.locator_value.now) }
    ensures all { (tid : ℕ) (value : List ℕ) → IsEidLocator bytes.now tid value → IsSomeAnd result (λ locator. (locator.tid ≡ tid) × (locator.locator_value.now ≡ value)) }
{
    match pdr_record::Record::read(bytes) {
        Ok(record) => match record.body {
            Body::Terminus(locator) if locator.validity == 1 && locator.locator_type == 1 => {
                Some(locator)
            }
            _ => None,
        },
        Err(_) => None,
    }
}

/// Whether a node holds the endpoint ID whose terminus has the terminus ID. Mostly one node holds it.
pub(crate) fn is_held_by_terminus(plan: &Plan, holders: &Holders<'_>, tid: u8, eid: Eid) -> bool
    requires { holders.now ≡ plan.now }
    ensures { IsTrue result ↔ IsHeldByTerminus plan.now tid eid.value }
{
    match holders.first(eid) {
        Some(holder) => has_tid(plan, holder, tid) || is_held_with_tid(plan, tid, eid),
        None => false,
    }
}

/// The same by a search through all nodes.
pub fn is_held_with_tid(plan: &Plan, tid: u8, eid: Eid) -> bool
    ensures { IsTrue result ↔ IsHeldByTerminus plan.now tid eid.value }
{
    for node in 0..plan.nodes.len() {
        if is_holder(plan, node, tid, eid) {
            return true;
        }
    }
    false
}

/// Whether the node holds the endpoint ID and has a terminus of the terminus ID.
fn is_holder(plan: &Plan, node: usize, tid: u8, eid: Eid) -> bool
    ensures { IsTrue result ↔ (Holds plan.now node eid.value × (option_map (λ t. t.tid) (terminus_of plan.now node) ≡ Some tid)) }
{
    holds(plan, node, eid) && has_tid(plan, node, tid)
}

/// Whether the node has a terminus of the terminus ID.
fn has_tid(plan: &Plan, node: usize, tid: u8) -> bool
    ensures { IsTrue result ↔ (option_map (λ t. t.tid) (terminus_of plan.now node) ≡ Some tid) }
{
    match terminus_at(plan, node) {
        Some(terminus) => terminus.tid == tid,
        None => false,
    }
}
