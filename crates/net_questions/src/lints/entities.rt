//! H19: the entities that sensors measure.
ghost use Rattle.std.specs.Prelude.{◌≡◌, ◌↔◌, IsTrue, OnOk, Contains};
ghost use Rattle.pdr_record.{specs.Bodies.{body_value}, specs.Lists.{entities_value}, specs.Values.{entity_value}};
ghost use Rattle.net_questions.{specs.Sensors.{Associates, IsUncontained, HasUncontainedEntity, MeasuresUncontained}, specs.RecordIndexes.{AreRecordIndexes, AssociatesIn, NotesEntities, entity_key}};

use super::bodies::{body, sensor};
use super::record_index::{RecordIndex, has_association_of};
use net_tables::lookup::record_at;
use pdr_record::{Body, Entities, Entity};
use plan_values::Plan;
use std::alloc::AllocError;
use std::collections::BTreeSet;

/// An entity's type, its instance number and its container.
pub type EntityKey = (u16, u16, u16);

/// Whether a node's record is a sensor's, and no entity association of the node contains its entity.
pub fn measures_uncontained(plan: &Plan, indexes: &[RecordIndex], node: usize, index: usize) -> bool
    requires { AreRecordIndexes plan.now indexes.now }
    ensures { IsTrue result ↔ MeasuresUncontained plan.now node index }
{
    match record_at(plan, node, index) {
        Some(listed) => has_uncontained_entity(plan, indexes, node, &listed.bytes),
        None => false,
    }
}

/// Whether the bytes are those of a sensor's record, and no entity association of the node contains its entity.
fn has_uncontained_entity(plan: &Plan, indexes: &[RecordIndex], node: usize, bytes: &[u8]) -> bool
    requires { AreRecordIndexes plan.now indexes.now }
    ensures { IsTrue result ↔ HasUncontainedEntity plan.now node bytes.now }
{
    match sensor(bytes) {
        Some(sensor) => is_uncontained(plan, indexes, node, sensor.entity),
        None => false,
    }
}

/// Whether an entity is in a container that is not the system, and no entity association of the node contains it.
fn is_uncontained(plan: &Plan, indexes: &[RecordIndex], node: usize, entity: Entity) -> bool
    requires { AreRecordIndexes plan.now indexes.now }
    ensures { IsTrue result ↔ IsUncontained plan.now node (entity_value entity) }
{
    entity.container_id != 0 && !has_association_of(plan, indexes, node, entity)
}

/// Notes the entities that the bytes contain, where they are an entity association's.
pub fn note_contained(contained: &mut BTreeSet<EntityKey>, bytes: &[u8]) -> Result<(), AllocError>
    ensures { OnOk result (NotesEntities contained.old (Associates bytes.now) contained.new) }
{
    match body(bytes) {
        Some(body) => note_body(contained, &body),
        None => Ok(()),
    }
}

/// Notes the entities that a body contains, where it is an entity association's.
fn note_body(contained: &mut BTreeSet<EntityKey>, body: &Body) -> Result<(), AllocError>
    ensures { OnOk result (NotesEntities contained.old (AssociatesIn (body_value body.now)) contained.new) }
{
    match body {
        Body::Association(association) => note_all(contained, &association.contained_entities),
        Body::Terminus(_) | Body::Numeric(_) | Body::State(_) | Body::Other { .. } => Ok(()),
    }
}

fn note_all(contained: &mut BTreeSet<EntityKey>, entities: &Entities) -> Result<(), AllocError>
    ensures { OnOk result (NotesEntities contained.old (Contains (entities_value entities.now)) contained.new) }
{
    let mut left = entities.iter();
    while let Some(entity) = left.next() {
        note(contained, entity)?;
    }
    Ok(())
}

fn note(contained: &mut BTreeSet<EntityKey>, entity: Entity) -> Result<(), AllocError>
    ensures { OnOk result (NotesEntities contained.old (λ e. entity_value entity ≡ e) contained.new) }
{
    contained.insert(key_of(entity))?;
    Ok(())
}

/// What entities are told apart by.
pub fn key_of(entity: Entity) -> EntityKey
    ensures { result ≡ entity_key (entity_value entity) }
{
    (
        entity.entity_type,
        entity.instance_number,
        entity.container_id,
    )
}
