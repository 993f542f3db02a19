//! The fields of each part of a record.
ghost use Rattle.std.specs.Prelude.{◌≡◌, map};
ghost use Rattle.pdr_record.{specs.NumericValues.{numeric_value}, specs.RecordValues.{record_value}, specs.Values.{terminus_value, sensor_value, units_value, precision_value, timing_value, ranges_value}, specs.ListValues.{association_value}};
ghost use Rattle.record_fields.{specs.Meanings.{named_of}, specs.Named.{header_named, locator_named, terminus_named, sensor_named, units_named, precision_named, timing_named, readable_named, ranges_named, container_named}};

use crate::held::{NamedField, bits, entity, number, raw, real, sized};
use pdr_record::{
    EntityAssociation, NumericSensor, Precision, Ranges, Record, Sensor, TerminusLocator, Timing,
    Units,
};

/// The code of a signed byte.
const SIGNED_BYTE: u8 = 1;

/// The type of a locator that is an endpoint ID.
const MCTP_EID: u8 = 1;

/// The common header.
pub fn header_fields<'a>(whole: &Record) -> [NamedField<'a>; 4]
    ensures { map named_of result ≡ header_named (record_value whole.now) }
{
    [
        number("handle", u64::from(whole.handle)),
        number("type", u64::from(whole.body.record_type())),
        number("change", u64::from(whole.change)),
        number("length", whole.body.len() as u64),
    ]
}

/// A terminus locator.
pub fn terminus_fields<'a>(terminus: &TerminusLocator<'a>) -> [NamedField<'a>; 6]
    ensures { map named_of result ≡ terminus_named (terminus_value terminus.now) }
{
    [
        number("terminus-handle", u64::from(terminus.terminus_handle)),
        number("validity", u64::from(terminus.validity)),
        number("tid", u64::from(terminus.tid)),
        number("container-id", u64::from(terminus.container_id)),
        number("locator-type", u64::from(terminus.locator_type)),
        locator_field(terminus.locator_type, terminus.locator_value),
    ]
}

/// The value of a locator.
fn locator_field<'a>(locator_type: u8, value: &'a [u8]) -> NamedField<'a>
    ensures { named_of result ≡ locator_named locator_type value.now }
{
    match (locator_type, value) {
        (MCTP_EID, [eid]) => number("eid", u64::from(*eid)),
        _ => raw("locator-value", value),
    }
}

/// How a sensor's record begins.
pub fn sensor_fields<'a>(sensor: &Sensor) -> [NamedField<'a>; 7]
    ensures { map named_of result ≡ sensor_named (sensor_value sensor.now) }
{
    [
        number("terminus-handle", u64::from(sensor.terminus_handle)),
        number("sensor-id", u64::from(sensor.sensor_id)),
        number("entity-type", u64::from(sensor.entity.entity_type)),
        number("entity-instance", u64::from(sensor.entity.instance_number)),
        number("container-id", u64::from(sensor.entity.container_id)),
        number("sensor-init", u64::from(sensor.sensor_init)),
        number("auxiliary-names", u64::from(sensor.auxiliary_names_pdr)),
    ]
}

/// What a numeric sensor measures in.
pub fn units_fields<'a>(units: &Units) -> [NamedField<'a>; 10]
    ensures { map named_of result ≡ units_named (units_value units.now) }
{
    [
        number("base-unit", u64::from(units.base_unit)),
        bits("unit-modifier", SIGNED_BYTE, u64::from(units.unit_modifier)),
        number("rate-unit", u64::from(units.rate_unit)),
        number("base-oem-unit", u64::from(units.base_oem_unit_handle)),
        number("aux-unit", u64::from(units.aux_unit)),
        bits(
            "aux-unit-modifier",
            SIGNED_BYTE,
            u64::from(units.aux_unit_modifier),
        ),
        number("aux-rate-unit", u64::from(units.aux_rate_unit)),
        number("rel", u64::from(units.rel)),
        number("aux-oem-unit", u64::from(units.aux_oem_unit_handle)),
        number("is-linear", u64::from(units.is_linear)),
    ]
}

/// How exact a numeric sensor is.
pub fn precision_fields<'a>(precision: &Precision) -> [NamedField<'a>; 5]
    ensures { map named_of result ≡ precision_named (precision_value precision.now) }
{
    [
        real("resolution", precision.resolution),
        real("offset", precision.offset),
        number("accuracy", u64::from(precision.accuracy)),
        number("plus-tolerance", u64::from(precision.plus_tolerance)),
        number("minus-tolerance", u64::from(precision.minus_tolerance)),
    ]
}

/// The thresholds and times of a numeric sensor.
pub fn timing_fields<'a>(timing: &Timing) -> [NamedField<'a>; 4]
    ensures { map named_of result ≡ timing_named (timing_value timing.now) }
{
    [
        number(
            "supported-thresholds",
            u64::from(timing.supported_thresholds),
        ),
        number(
            "volatility",
            u64::from(timing.threshold_and_hysteresis_volatility),
        ),
        real(
            "state-transition-interval",
            timing.state_transition_interval,
        ),
        real("update-interval", timing.update_interval),
    ]
}

/// What a numeric sensor's readings may be.
pub fn readable_fields<'a>(numeric: &NumericSensor) -> [NamedField<'a>; 4]
    ensures { map named_of result ≡ readable_named (numeric_value numeric.now) }
{
    let code = numeric.sensor_data_size.code();
    [
        sized("max-readable", code, numeric.max_readable),
        sized("min-readable", code, numeric.min_readable),
        number("range-format", u64::from(numeric.range_field_format.code())),
        number("range-support", u64::from(numeric.range_field_support)),
    ]
}

/// What a numeric sensor's readings are compared with, by the code of their format.
pub fn ranges_fields<'a>(format: u8, ranges: &Ranges) -> [NamedField<'a>; 9]
    ensures { map named_of result ≡ ranges_named format (ranges_value ranges.now) }
{
    [
        sized("nominal-value", format, ranges.nominal_value),
        sized("normal-max", format, ranges.normal_max),
        sized("normal-min", format, ranges.normal_min),
        sized("warning-high", format, ranges.warning_high),
        sized("warning-low", format, ranges.warning_low),
        sized("critical-high", format, ranges.critical_high),
        sized("critical-low", format, ranges.critical_low),
        sized("fatal-high", format, ranges.fatal_high),
        sized("fatal-low", format, ranges.fatal_low),
    ]
}

/// What contains the entities of an association.
pub fn container_fields<'a>(association: &EntityAssociation) -> [NamedField<'a>; 3]
    ensures { map named_of result ≡ container_named (association_value association.now) }
{
    [
        number("container-id", u64::from(association.container_id)),
        number("association-type", u64::from(association.association_type)),
        entity("container-entity", association.container_entity),
    ]
}
