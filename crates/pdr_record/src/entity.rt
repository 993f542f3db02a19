//! Entities (DSP0248, section 9): what a record is about.
ghost use Rattle.std.specs.Prelude.{◌≡◌, ◌≤◌, ◌+◌, length};
ghost use Rattle.pdr_record.{specs.Fields.{followed}, specs.Layouts.{entity_fields}};

use crate::reading::FieldReader;

/// An entity: what kind of thing it is, which one of them, and what contains it. It has six bytes, two for each number,
/// whose lowest byte comes first (DSP0248, section 9).
#[derive(Clone, Copy, Debug, PartialEq, Eq)]
pub struct Entity {
    /// Two bytes: what kind of thing it is, as a number of DSP0249's table.
    pub entity_type: u16,
    /// Two bytes: which one of its kind in its container.
    pub instance_number: u16,
    /// Two bytes: the container, 0 for the system as a whole.
    pub container_id: u16,
}

impl Entity {
    ghost use Rattle.pdr_record.specs.Values.{entity_value};

    /// The entity at the front of six bytes and more.
    pub(crate) fn take(fields: &mut FieldReader) -> Entity
        requires { 6 ≤ length fields.old.rest.now }
        ensures field { fields.old.rest.now ≡ followed (entity_fields (entity_value result)) fields.new.rest.now }
        ensures left { length fields.old.rest.now ≡ 6 + length fields.new.rest.now }
    {
        Entity {
            entity_type: fields.u16(),
            instance_number: fields.u16(),
            container_id: fields.u16(),
        }
    }
}
