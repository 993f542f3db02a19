//! How the records of sensors begin.
ghost use Rattle.std.specs.Prelude.{◌≡◌, ◌≤◌, ◌+◌, length};
ghost use Rattle.pdr_record.{specs.Fields.{followed, Fit}, specs.Layouts.{sensor_fields}};

use crate::entity::Entity;
use crate::field::Field;
use crate::reading::FieldReader;

/// How the record of a numeric or a state sensor begins: in 12 bytes, two for each number but the last two fields, the
/// lowest byte first (DSP0248, sections 28.4 and 28.6).
#[derive(Clone, Copy, Debug, PartialEq, Eq)]
pub struct Sensor {
    /// Two bytes: the handle by which the records name the terminus.
    pub terminus_handle: u16,
    /// Two bytes: the sensor among those of its terminus.
    pub sensor_id: u16,
    /// Six bytes: the entity that is measured.
    pub entity: Entity,
    /// One byte: how the sensor is to be initialized; 0 not at all.
    pub sensor_init: u8,
    /// One byte: 1 where there is a record of names of the sensor, else 0.
    pub auxiliary_names_pdr: u8,
}

impl Sensor {
    ghost use Rattle.pdr_record.specs.Values.{sensor_value};

    /// The fields at the front of twelve bytes and more.
    pub(crate) fn take(fields: &mut FieldReader) -> Sensor
        requires { 12 ≤ length fields.old.rest.now }
        ensures field { fields.old.rest.now ≡ followed (sensor_fields (sensor_value result)) fields.new.rest.now }
        ensures fits { Fit (sensor_fields (sensor_value result)) }
        ensures left { length fields.old.rest.now ≡ 12 + length fields.new.rest.now }
    {
        Sensor {
            terminus_handle: fields.u16(),
            sensor_id: fields.u16(),
            entity: Entity::take(fields),
            sensor_init: fields.u8(),
            auxiliary_names_pdr: fields.u8(),
        }
    }
}
