//! What the records of each node are found by.
ghost use Rattle.std.{specs.Prelude.{◌≡◌, ◌<◌, ◌↔◌, IsSomeAnd, IfOk, OnOk, IsTrue}, specs.Ordering.{nat_cmp}, specs.BTreeMap.{get}};
ghost use Rattle.net_questions.{specs.Lint.{IsSensorRecord, HasEarlierSensor}, specs.Sensors.{HasAssociationOf, IsLocatorOf, HasLocatorOf}, specs.RecordIndexes.{AreContained, AreFirst, IsRecordIndex, AreRecordIndexes, NotesAny}};
ghost use Rattle.pdr_record.specs.Values.{entity_value};

use super::entities::{EntityKey, key_of, note_contained};
use super::handles::locator_handle;
use super::sensors::sensor_id;
use net_tables::lookup::records_at;
use pdr_record::Entity;
use plan_values::Plan;
use std::alloc::{AllocError, Global};
use std::collections::{BTreeMap, BTreeSet};

/// The first records of a node that have a sensor ID or a terminus handle, and the entities that its associations
/// contain, so that no search is needed for them.
#[derive(Drop)]
pub struct RecordIndex {
    /// The index of the first sensor's record of each sensor ID.
    sensors: BTreeMap<u16, usize>,
    /// The index of the first terminus locator of each terminus handle.
    locators: BTreeMap<u16, usize>,
    /// Each entity that an entity association contains.
    contained: BTreeSet<EntityKey>,
}

/// The index of each node's records.
pub fn record_indexes(alloc: Global, plan: &Plan) -> Result<Vec<RecordIndex>, AllocError>
    ensures { IfOk result (λ indexes. AreRecordIndexes plan.now indexes.items) }
{
    let mut indexes = Vec::new(alloc);
    for node in 0..plan.nodes.len() {
        indexes.push(record_index(alloc, plan, node)?)?;
    }
    Ok(indexes)
}

/// The index of a node's records.
fn record_index(alloc: Global, plan: &Plan, node: usize) -> Result<RecordIndex, AllocError>
    ensures { IfOk result (IsRecordIndex plan.now node) }
{
    Ok(RecordIndex {
        sensors: first_sensors(alloc, plan, node)?,
        locators: first_locators(alloc, plan, node)?,
        contained: contained_entities(alloc, plan, node)?,
    })
}

/// The index of a node's first sensor's record of each sensor ID.
fn first_sensors(
    alloc: Global,
    plan: &Plan,
    node: usize,
) -> Result<BTreeMap<u16, usize>, AllocError>
    ensures { IfOk result (AreFirst IsSensorRecord plan.now node) }
{
    let mut first = BTreeMap::new(alloc);
    let records = records_at(plan, node);
    for at in 0..records.len() {
        note(&mut first, sensor_id(&records[at].bytes), at)?;
    }
    Ok(first)
}

/// The index of a node's first terminus locator of each terminus handle.
fn first_locators(
    alloc: Global,
    plan: &Plan,
    node: usize,
) -> Result<BTreeMap<u16, usize>, AllocError>
    ensures { IfOk result (AreFirst IsLocatorOf plan.now node) }
{
    let mut first = BTreeMap::new(alloc);
    let records = records_at(plan, node);
    for at in 0..records.len() {
        note(&mut first, locator_handle(&records[at].bytes), at)?;
    }
    Ok(first)
}

/// The entities that a node's entity associations contain.
fn contained_entities(
    alloc: Global,
    plan: &Plan,
    node: usize,
) -> Result<BTreeSet<EntityKey>, AllocError>
    ensures { IfOk result (AreContained plan.now node) }
{
    let mut contained = BTreeSet::new(alloc);
    let records = records_at(plan, node);
    for listed in records {
        note_contained(&mut contained, &listed.bytes)?;
    }
    Ok(contained)
}

/// Notes an index for a number, if there is one, that has none yet.
fn note(first: &mut BTreeMap<u16, usize>, number: Option<u16>, at: usize) -> Result<(), AllocError>
    ensures { OnOk result (NotesAny first.old number at first.new) }
{
    let Some(number) = number else {
        return Ok(());
    };
    match first_at(first, number) {
        Some(_) => Ok(()),
        None => {
            first.insert(number, at)?;
            Ok(())
        }
    }
}

/// The index that was noted for a number, if one was.
fn first_at(first: &BTreeMap<u16, usize>, number: u16) -> Option<usize>
    ensures { result ≡ get nat_cmp first.now number }
{
    first.get(&number).copied()
}

/// Whether one of the node's records before `index` is a sensor's with the sensor ID.
pub fn has_earlier_sensor(
    plan: &Plan,
    indexes: &[RecordIndex],
    node: usize,
    index: usize,
    id: u16,
) -> bool
    requires { AreRecordIndexes plan.now indexes.now }
    ensures { IsTrue result ↔ HasEarlierSensor plan.now node index id }
{
    match indexes.get(node) {
        Some(records) => is_before(first_at(&records.sensors, id), index),
        None => false,
    }
}

/// Whether there is a first index, and it stands before this one.
fn is_before(first: Option<usize>, index: usize) -> bool
    ensures { IsTrue result ↔ IsSomeAnd first (λ at. at < index) }
{
    match first {
        Some(at) => at < index,
        None => false,
    }
}

/// Whether one of a node's records is a terminus locator with the terminus handle.
pub fn has_locator_of(plan: &Plan, indexes: &[RecordIndex], node: usize, handle: u16) -> bool
    requires { AreRecordIndexes plan.now indexes.now }
    ensures { IsTrue result ↔ HasLocatorOf plan.now node handle }
{
    match indexes.get(node) {
        Some(records) => first_at(&records.locators, handle).is_some(),
        None => false,
    }
}

/// Whether one of a node's records is an entity association that contains the entity.
pub fn has_association_of(plan: &Plan, indexes: &[RecordIndex], node: usize, entity: Entity) -> bool
    requires { AreRecordIndexes plan.now indexes.now }
    ensures { IsTrue result ↔ HasAssociationOf plan.now node (entity_value entity) }
{
    match indexes.get(node) {
        Some(records) => records.contained.contains(&key_of(entity)),
        None => false,
    }
}
