//! Entity associations.
ghost use Rattle.std.specs.Prelude.{◌≡◌, ◌<◌, ◌+◌, ◌*◌, length, slice_index, IfOk, IfErr};
ghost use Rattle.pdr_record.{specs.Fields.{bytes_of, followed, Fit}, specs.Layouts.{association_fields}, specs.Written.{fields_of}};

use crate::entities::Entities;
use crate::entity::Entity;
use crate::field::Field;
use crate::reading::FieldReader;
use crate::record_error::RecordError;

/// Which entities an entity contains (DSP0248, Entity Association PDR, type 15): `10 + 6n` bytes for `n` of them, at
/// most 255. A number's lowest byte comes first.
#[derive(Clone, Copy, Debug, PartialEq, Eq)]
pub struct EntityAssociation<'a> {
    /// Two bytes: the number by which entities name this container.
    pub container_id: u16,
    /// One byte: 0 physical containment, 1 logical containment.
    pub association_type: u8,
    /// Six bytes: the entity that contains the others.
    pub container_entity: Entity,
    /// One byte for how many there are, and six for each: the entities in it.
    pub contained_entities: Entities<'a>,
}

impl<'a> EntityAssociation<'a> {
    ghost use Rattle.pdr_record.specs.ListValues.{association_value};

    pub(crate) fn take(fields: &mut FieldReader<'a>) -> Result<EntityAssociation<'a>, RecordError>
        ensures field { IfOk result (λ a. fields.old.rest.now ≡ followed (association_fields (association_value a)) fields.new.rest.now) }
        ensures fits { IfOk result (λ a. Fit (association_fields (association_value a))) }
        ensures refused { IfErr result (λ e. (e ≡ RecordError.Ends) × (length fields.old.rest.now < 10 + 6 * slice_index fields.old.rest.now 9)) }
    {
        fields.want(10)?;
        let container_id = fields.u16();
        let association_type = fields.u8();
        let container_entity = Entity::take(fields);
        let count = fields.u8();
        let contained_entities = Entities::take(fields, count)?;
        Ok(EntityAssociation {
            container_id,
            association_type,
            container_entity,
            contained_entities,
        })
    }

    pub(crate) fn fields(&self) -> [Field<'a>; 7]
        ensures { bytes_of (fields_of result) ≡ bytes_of (association_fields (association_value self.now)) }
    {
        let container = &self.container_entity;
        [
            Field::U16(self.container_id),
            Field::U8(self.association_type),
            Field::U16(container.entity_type),
            Field::U16(container.instance_number),
            Field::U16(container.container_id),
            Field::U8(self.contained_entities.count()),
            Field::Raw(self.contained_entities.bytes()),
        ]
    }
}
