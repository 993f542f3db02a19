//! H17: the thresholds of numeric sensors.
ghost use Rattle.std.specs.Prelude.{◌≡◌, ◌<◌, ◌↔◌, ℕ, IsTrue, IfSome, option_map, length};
ghost use Rattle.pdr_record.{specs.declared.range_field_format.RangeFieldFormat.TheVariants.{Integer}, specs.Layouts.{IsNumeric, width_of}, specs.Numbers.{size_code}, specs.NumericValues.{numeric_value}};
ghost use Rattle.net_questions.specs.Sensors.{has_bit, given, threshold_of, AreCrossed, CrossesLater, HasCrossed, AreOfCrossed, HasCrossedThresholds};

use super::sensors::{is_over, numeric_sensor};
use net_tables::lookup::record_at;
use pdr_record::{NumericSensor, RangeFieldFormat, SensorDataSize};
use plan_values::{Plan, PlannedRecord};

/// How many thresholds a numeric sensor may have.
const THRESHOLDS: usize = 6;

/// Whether a node's record is a numeric sensor's, of whose thresholds a lower one is over a higher one.
pub fn has_crossed_thresholds(plan: &Plan, node: usize, index: usize) -> bool
    ensures { IsTrue result ↔ HasCrossedThresholds plan.now node index }
{
    match record_at(plan, node, index) {
        Some(listed) => are_of_crossed(listed),
        None => false,
    }
}

/// Whether a record is a numeric sensor's, of whose thresholds a lower one is over a higher one.
fn are_of_crossed(listed: &PlannedRecord) -> bool
    ensures { IsTrue result ↔ AreOfCrossed listed.now.bytes.items }
{
    match numeric_sensor(&listed.bytes) {
        Some(sensor) => has_crossed(&sensor),
        None => false,
    }
}

/// Whether a lower threshold of the sensor is over a higher one. Real numbers are not compared.
fn has_crossed(sensor: &NumericSensor) -> bool
    requires { IsNumeric (numeric_value sensor.now) }
    ensures { IsTrue result ↔ HasCrossed (numeric_value sensor.now) }
{
    match sensor.range_field_format {
        RangeFieldFormat::Integer(size) => some_crosses(sensor, size),
        RangeFieldFormat::Real32 => false,
    }
}

/// Whether a lower threshold is over a higher one.
fn some_crosses(sensor: &NumericSensor, size: SensorDataSize) -> bool
    requires layout { IsNumeric (numeric_value sensor.now) }
    requires size { sensor.now.range_field_format ≡ Integer size }
    ensures { IsTrue result ↔ (i : ℕ) × CrossesLater (numeric_value sensor.now) i }
{
    for lower in 0..THRESHOLDS {
        if crosses_later(sensor, size, lower) {
            return true;
        }
    }
    false
}

/// Whether the threshold at an index is over a later one.
fn crosses_later(sensor: &NumericSensor, size: SensorDataSize, lower: usize) -> bool
    requires layout { IsNumeric (numeric_value sensor.now) }
    requires size { sensor.now.range_field_format ≡ Integer size }
    ensures { IsTrue result ↔ CrossesLater (numeric_value sensor.now) lower }
{
    for higher in 0..THRESHOLDS {
        if is_over_later(sensor, size, lower, higher) {
            return true;
        }
    }
    false
}

/// Whether the threshold at an index is over the one at a later index.
fn is_over_later(sensor: &NumericSensor, size: SensorDataSize, lower: usize, higher: usize) -> bool
    requires layout { IsNumeric (numeric_value sensor.now) }
    requires size { sensor.now.range_field_format ≡ Integer size }
    ensures { IsTrue result ↔ (lower < higher) × AreCrossed (numeric_value sensor.now) lower higher }
{
    lower < higher && are_crossed(sensor, size, lower, higher)
}

/// Whether the thresholds at two indices are there, and the first one is over the second one.
fn are_crossed(sensor: &NumericSensor, size: SensorDataSize, lower: usize, higher: usize) -> bool
    requires layout { IsNumeric (numeric_value sensor.now) }
    requires size { sensor.now.range_field_format ≡ Integer size }
    ensures { IsTrue result ↔ AreCrossed (numeric_value sensor.now) lower higher }
{
    match (threshold(sensor, lower), threshold(sensor, higher)) {
        (Some(low), Some(high)) => is_over(size, low, high),
        _ => false,
    }
}

/// The threshold at an index, from the lowest to the highest, if the sensor has it (DSP0248, supportedThresholds and
/// rangeFieldSupport).
fn threshold<'a>(sensor: &NumericSensor<'a>, index: usize) -> Option<&'a [u8]>
    requires { IsNumeric (numeric_value sensor.now) }
    ensures value { option_map (λ value. value.now) result ≡ threshold_of (numeric_value sensor.now) index }
    ensures width { IfSome result (λ value. length value.now ≡ width_of (numeric_value sensor.now).range_format) }
{
    let supported = sensor.timing.supported_thresholds;
    let given_in_range = sensor.range_field_support;
    let ranges = &sensor.ranges;
    match index {
        0 => given(
            has_bit(supported, 32) && has_bit(given_in_range, 64),
            ranges.fatal_low,
        ),
        1 => given(
            has_bit(supported, 16) && has_bit(given_in_range, 16),
            ranges.critical_low,
        ),
        2 => given(has_bit(supported, 8), ranges.warning_low),
        3 => given(has_bit(supported, 1), ranges.warning_high),
        4 => given(
            has_bit(supported, 2) && has_bit(given_in_range, 8),
            ranges.critical_high,
        ),
        5 => given(
            has_bit(supported, 4) && has_bit(given_in_range, 32),
            ranges.fatal_high,
        ),
        _ => None,
    }
}

/// The value, where it is given.
fn given(is_given: bool, value: &[u8]) -> Option<&[u8]>
    ensures value { option_map (λ v. v.now) result ≡ given is_given value.now }
    ensures own { IfSome result (λ v. v.now ≡ value.now) }
{
    if is_given { Some(value) } else { None }
}

/// Whether the bit of this weight is set.
fn has_bit(bits: u8, weight: u8) -> bool
    requires { 0 < weight }
    ensures { result ≡ has_bit bits weight }
{
    (bits / weight) % 2 == 1
}
