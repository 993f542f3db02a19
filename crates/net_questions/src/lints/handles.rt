//! H18: the terminus handles of sensors.
ghost use Rattle.std.specs.Prelude.{◌≡◌, ◌↔◌, ℕ, IsTrue, IfSome, IsSomeAnd};
ghost use Rattle.pdr_record.specs.Bodies.{body_value};
ghost use Rattle.net_questions.{specs.RecordIndexes.{AreRecordIndexes, handle_of}, specs.Sensors.{IsLocatorOf, HasLocatorOf, HasUnknownHandle, NamesNoTerminus}};

use super::bodies::{body, sensor};
use super::record_index::{RecordIndex, has_locator_of};
use net_tables::lookup::record_at;
use pdr_record::Body;
use plan_values::Plan;

/// Whether a node's record is a sensor's, and no terminus locator of the node has its terminus handle.
pub fn names_no_terminus(plan: &Plan, indexes: &[RecordIndex], node: usize, index: usize) -> bool
    requires { AreRecordIndexes plan.now indexes.now }
    ensures { IsTrue result ↔ NamesNoTerminus plan.now node index }
{
    match record_at(plan, node, index) {
        Some(listed) => has_unknown_handle(plan, indexes, node, &listed.bytes),
        None => false,
    }
}

/// Whether the bytes are those of a sensor's record, and no terminus locator of the node has its terminus handle.
fn has_unknown_handle(plan: &Plan, indexes: &[RecordIndex], node: usize, bytes: &[u8]) -> bool
    requires { AreRecordIndexes plan.now indexes.now }
    ensures { IsTrue result ↔ HasUnknownHandle plan.now node bytes.now }
{
    match sensor(bytes) {
        Some(sensor) => lacks_locator_of(plan, indexes, node, sensor.terminus_handle),
        None => false,
    }
}

fn lacks_locator_of(plan: &Plan, indexes: &[RecordIndex], node: usize, handle: u16) -> bool
    requires { AreRecordIndexes plan.now indexes.now }
    ensures { IsTrue result ↔ ¬ HasLocatorOf plan.now node handle }
{
    !has_locator_of(plan, indexes, node, handle)
}

/// The terminus handle in the bytes, if they are those of a terminus locator.
pub fn locator_handle(bytes: &[u8]) -> Option<u16>
    ensures found { IfSome result (λ handle. IsLocatorOf bytes.now handle) }
    ensures all { (handle : ℕ) → IsLocatorOf bytes.now handle → IsSomeAnd result (λ found. found ≡ handle) }
{
    match body(bytes) {
        Some(body) => handle_of(&body),
        None => None,
    }
}

/// The terminus handle of a terminus locator's body.
fn handle_of(body: &Body) -> Option<u16>
    ensures { result ≡ handle_of (body_value body.now) }
{
    match body {
        Body::Terminus(locator) => Some(locator.terminus_handle),
        Body::Numeric(_) | Body::State(_) | Body::Association(_) | Body::Other { .. } => None,
    }
}
