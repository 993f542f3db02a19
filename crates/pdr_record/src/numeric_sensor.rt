//! Numeric sensors.
ghost use Rattle.std.specs.Prelude.{◌≡◌, ◌<◌, ◌≤◌, ◌+◌, length, IfOk, IfErr};
ghost use Rattle.pdr_record.{specs.Fields.{bytes_of, followed, Fit}, specs.Layouts.{numeric_fields, IsNumeric}, specs.Written.{fields_of}, specs.Endings.{IsNumericFault}};

use crate::field::Field;
use crate::precision::Precision;
use crate::range_field_format::RangeFieldFormat;
use crate::ranges::Ranges;
use crate::reading::FieldReader;
use crate::record_error::RecordError;
use crate::sensor::Sensor;
use crate::sensor_data_size::SensorDataSize;
use crate::timing::Timing;
use crate::units::Units;

/// A numeric sensor (DSP0248, Numeric Sensor PDR, type 2): `47 + 3d + 9r` bytes, where `d` is the width of its data
/// size and `r` that of its range field format. A number's lowest byte comes first.
#[derive(Clone, Copy, Debug, PartialEq, Eq)]
pub struct NumericSensor<'a> {
    /// The first 12 bytes.
    pub sensor: Sensor,
    /// 10 bytes: the unit of what is measured.
    pub units: Units,
    /// One byte: how wide a reading is.
    pub sensor_data_size: SensorDataSize,
    /// 12 bytes: how a reading becomes a value.
    pub precision: Precision,
    /// As wide as a reading, in steps of it: how far a reading has to come back behind a threshold.
    pub hysteresis: &'a [u8],
    /// 10 bytes: thresholds and times.
    pub timing: Timing,
    /// As wide as a reading: the highest reading.
    pub max_readable: &'a [u8],
    /// As wide as a reading: the lowest reading.
    pub min_readable: &'a [u8],
    /// One byte: how wide each range field is.
    pub range_field_format: RangeFieldFormat,
    /// One byte: a bit for each range field but the two of warnings, set where it holds a value.
    pub range_field_support: u8,
    /// Nine range fields, as wide as their format says.
    pub ranges: Ranges<'a>,
}

impl<'a> NumericSensor<'a> {
    ghost use Rattle.pdr_record.specs.NumericValues.{numeric_value};

    pub(crate) fn take(fields: &mut FieldReader<'a>) -> Result<NumericSensor<'a>, RecordError>
        ensures field { IfOk result (λ n. fields.old.rest.now ≡ followed (numeric_fields (numeric_value n)) fields.new.rest.now) }
        ensures fits { IfOk result (λ n. Fit (numeric_fields (numeric_value n))) }
        ensures layout { IfOk result (λ n. IsNumeric (numeric_value n)) }
        ensures refused { IfErr result (λ e. IsNumericFault e fields.old.rest.now) }
    {
        fields.want(23)?;
        let sensor = Sensor::take(fields);
        let units = Units::take(fields);
        let sensor_data_size = SensorDataSize::of(fields.u8())?;
        let width = sensor_data_size.width();
        fields.want(23 + 3 * width)?;
        let precision = Precision::take(fields);
        let hysteresis = fields.bytes(width);
        let timing = Timing::take(fields);
        let max_readable = fields.bytes(width);
        let min_readable = fields.bytes(width);
        let range_field_format = RangeFieldFormat::of(fields.u8())?;
        let width = range_field_format.width();
        fields.want(1 + 9 * width)?;
        Ok(NumericSensor {
            sensor,
            units,
            sensor_data_size,
            precision,
            hysteresis,
            timing,
            max_readable,
            min_readable,
            range_field_format,
            range_field_support: fields.u8(),
            ranges: Ranges::take(fields, width),
        })
    }

    /// How many bytes its fields have.
    pub fn len(&self) -> usize
        requires { IsNumeric (numeric_value self.now) }
        ensures { result ≡ length (bytes_of (numeric_fields (numeric_value self.now))) }
    {
        47 + 3 * self.sensor_data_size.width() + 9 * self.range_field_format.width()
    }

    pub(crate) fn fields(&self) -> [Field<'a>; 41]
        ensures { fields_of result ≡ numeric_fields (numeric_value self.now) }
    {
        let NumericSensor {
            sensor,
            units,
            precision,
            timing,
            ranges,
            ..
        } = self;
        [
            Field::U16(sensor.terminus_handle),
            Field::U16(sensor.sensor_id),
            Field::U16(sensor.entity.entity_type),
            Field::U16(sensor.entity.instance_number),
            Field::U16(sensor.entity.container_id),
            Field::U8(sensor.sensor_init),
            Field::U8(sensor.auxiliary_names_pdr),
            Field::U8(units.base_unit),
            Field::U8(units.unit_modifier),
            Field::U8(units.rate_unit),
            Field::U8(units.base_oem_unit_handle),
            Field::U8(units.aux_unit),
            Field::U8(units.aux_unit_modifier),
            Field::U8(units.aux_rate_unit),
            Field::U8(units.rel),
            Field::U8(units.aux_oem_unit_handle),
            Field::U8(units.is_linear),
            Field::U8(self.sensor_data_size.code()),
            Field::U32(precision.resolution),
            Field::U32(precision.offset),
            Field::U16(precision.accuracy),
            Field::U8(precision.plus_tolerance),
            Field::U8(precision.minus_tolerance),
            Field::Raw(self.hysteresis),
            Field::U8(timing.supported_thresholds),
            Field::U8(timing.threshold_and_hysteresis_volatility),
            Field::U32(timing.state_transition_interval),
            Field::U32(timing.update_interval),
            Field::Raw(self.max_readable),
            Field::Raw(self.min_readable),
            Field::U8(self.range_field_format.code()),
            Field::U8(self.range_field_support),
            Field::Raw(ranges.nominal_value),
            Field::Raw(ranges.normal_max),
            Field::Raw(ranges.normal_min),
            Field::Raw(ranges.warning_high),
            Field::Raw(ranges.warning_low),
            Field::Raw(ranges.critical_high),
            Field::Raw(ranges.critical_low),
            Field::Raw(ranges.fatal_high),
            Field::Raw(ranges.fatal_low),
        ]
    }
}
