//! State sensors.
ghost use Rattle.std.specs.Prelude.{◌≡◌, ◌<◌, ◌⊎◌, length, drop, slice_index, IfOk, IfErr, None};
ghost use Rattle.pdr_record.{specs.Fields.{bytes_of, followed, Fit}, specs.Layouts.{state_fields}, specs.ListsAt.{after_state_sets}, specs.Written.{fields_of}};

use crate::field::Field;
use crate::reading::FieldReader;
use crate::record_error::RecordError;
use crate::sensor::Sensor;
use crate::state_sets::StateSets;

/// A state sensor (DSP0248, State Sensor PDR, type 4): 13 bytes and the state sets of its composite sensors.
#[derive(Clone, Copy, Debug, PartialEq, Eq)]
pub struct StateSensor<'a> {
    /// The first 12 bytes.
    pub sensor: Sensor,
    /// One byte for how many there are, and then a state set for each composite sensor.
    pub state_sets: StateSets<'a>,
}

impl<'a> StateSensor<'a> {
    ghost use Rattle.pdr_record.specs.ListValues.{state_value};

    pub(crate) fn take(fields: &mut FieldReader<'a>) -> Result<StateSensor<'a>, RecordError>
        ensures field { IfOk result (λ s. fields.old.rest.now ≡ followed (state_fields (state_value s)) fields.new.rest.now) }
        ensures fits { IfOk result (λ s. Fit (state_fields (state_value s))) }
        ensures refused { let bytes = fields.old.rest.now in
            IfErr result (λ e. (e ≡ RecordError.Ends) × ((length bytes < 13) ⊎ (after_state_sets (slice_index bytes 12) (drop 13 bytes) ≡ None))) }
    {
        fields.want(13)?;
        let sensor = Sensor::take(fields);
        let count = fields.u8();
        let state_sets = StateSets::take(fields, count)?;
        Ok(StateSensor { sensor, state_sets })
    }

    pub(crate) fn fields(&self) -> [Field<'a>; 9]
        ensures { bytes_of (fields_of result) ≡ bytes_of (state_fields (state_value self.now)) }
    {
        let sensor = &self.sensor;
        [
            Field::U16(sensor.terminus_handle),
            Field::U16(sensor.sensor_id),
            Field::U16(sensor.entity.entity_type),
            Field::U16(sensor.entity.instance_number),
            Field::U16(sensor.entity.container_id),
            Field::U8(sensor.sensor_init),
            Field::U8(sensor.auxiliary_names_pdr),
            Field::U8(self.state_sets.count()),
            Field::Raw(self.state_sets.bytes()),
        ]
    }
}
