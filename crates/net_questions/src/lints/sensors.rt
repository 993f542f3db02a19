//! H05 and H11: the sensor IDs of sensors, and the readable ranges of numeric ones.
ghost use Rattle.std.specs.Prelude.{◌≡◌, ◌<◌, ◌≤◌, ◌↔◌, ◌^◌, ◌/◌, ◌%◌, ℕ, length, IsTrue, IfSome, IsSomeAnd, Some};
ghost use Rattle.pdr_record.{specs.Layouts.{NumericValue, IsNumeric, width_of}, specs.Numbers.{size_code}, specs.NumericValues.{numeric_value}};
ghost use Rattle.net_questions.{specs.Lint.{sensor_id_of, IsSensorRecord, HasEarlierSensor, RepeatsSensorId, SharesSensorId, number_of, flipped, position_of, IsOver, IsNumericSensor, HasEmptyRange, HasEmptyReadableRange}, specs.RecordIndexes.{AreRecordIndexes}};

use super::record_index::{RecordIndex, has_earlier_sensor};
use mctp_transport::Wire;
use net_tables::lookup::record_at;
use pdr_record::{Body, NUMERIC_SENSOR, NumericSensor, SensorDataSize, has_type};
use plan_values::{Plan, PlannedRecord};
use record_fields::bits_of;

/// Whether a node's record is a sensor's, and an earlier one is one of the same sensor ID.
pub fn shares_sensor_id(plan: &Plan, indexes: &[RecordIndex], node: usize, index: usize) -> bool
    requires { AreRecordIndexes plan.now indexes.now }
    ensures { IsTrue result ↔ SharesSensorId plan.now node index }
{
    match record_at(plan, node, index) {
        Some(listed) => repeats_sensor_id(plan, indexes, node, index, &listed.bytes),
        None => false,
    }
}

/// Whether the bytes are those of a sensor's record, and one of the node's records before `index` is one of the same
/// sensor ID.
fn repeats_sensor_id(
    plan: &Plan,
    indexes: &[RecordIndex],
    node: usize,
    index: usize,
    bytes: &[u8],
) -> bool
    requires { AreRecordIndexes plan.now indexes.now }
    ensures { IsTrue result ↔ RepeatsSensorId plan.now node index bytes.now }
{
    match sensor_id(bytes) {
        Some(id) => has_earlier_sensor(plan, indexes, node, index, id),
        None => false,
    }
}

/// The sensor ID in the bytes, if they are those of a numeric or state sensor's record.
pub fn sensor_id(bytes: &[u8]) -> Option<u16>
    ensures found { IfSome result (λ id. IsSensorRecord bytes.now id) }
    ensures all { (id : ℕ) → IsSensorRecord bytes.now id → IsSomeAnd result (λ found. found ≡ id) }
{
    match pdr_record::Record::read(bytes) {
        Ok(record) => match record.body {
            Body::Numeric(numeric) => Some(numeric.sensor.sensor_id),
            Body::State(state) => Some(state.sensor.sensor_id),
            Body::Terminus(_) | Body::Association(_) | Body::Other { .. } => None,
        },
        Err(_) => None,
    }
}

/// Whether a node's record is a numeric sensor's whose least readable value is over its greatest one.
pub fn has_empty_readable_range(plan: &Plan, node: usize, index: usize) -> bool
    ensures { IsTrue result ↔ HasEmptyReadableRange plan.now node index }
{
    match record_at(plan, node, index) {
        Some(listed) => has_empty_range(listed),
        None => false,
    }
}

/// Whether a record is a numeric sensor's whose least readable value is over its greatest one.
fn has_empty_range(listed: &PlannedRecord) -> bool
    ensures { IsTrue result ↔ HasEmptyRange listed.now.bytes.items }
{
    match numeric_sensor(&listed.bytes) {
        Some(sensor) => is_over(
            sensor.sensor_data_size,
            sensor.min_readable,
            sensor.max_readable,
        ),
        None => false,
    }
}

/// The numeric sensor whose record the bytes are, if they are one's.
pub fn numeric_sensor(bytes: &[u8]) -> Option<NumericSensor<'_>>
    ensures found { IfSome result (λ sensor. IsNumericSensor bytes.now (numeric_value sensor)) }
    ensures layout { IfSome result (λ sensor. IsNumeric (numeric_value sensor)) }
    ensures all { (s : NumericValue) → IsNumericSensor bytes.now s → IsSomeAnd result (λ sensor. numeric_value sensor ≡ s) }
{
    if !has_type(bytes, NUMERIC_SENSOR) {
        return None;
    }
    match pdr_record::Record::read(bytes) {
        Ok(record) => match record.body {
            Body::Numeric(sensor) => Some(sensor),
            _ => None,
        },
        Err(_) => None,
    }
}

/// Whether one value of the data size is over another.
pub fn is_over(size: SensorDataSize, value: &[u8], other: &[u8]) -> bool
    requires value { length value.now ≡ width_of (size_code size) }
    requires other { length other.now ≡ width_of (size_code size) }
    ensures { IsTrue result ↔ IsOver (size_code size) value.now other.now }
{
    position(size, number(other)) < position(size, number(value))
}

/// The position of a number among those of its data size, in their order.
fn position(size: SensorDataSize, number: u64) -> u64
    requires { number < 2 ^ 32 }
    ensures { result ≡ position_of (size_code size) number }
{
    match size {
        SensorDataSize::S8 => flip(number, 1 << 7),
        SensorDataSize::S16 => flip(number, 1 << 15),
        SensorDataSize::S32 => flip(number, 1 << 31),
        SensorDataSize::U8 | SensorDataSize::U16 | SensorDataSize::U32 => number,
    }
}

/// A number whose sign bit, of this weight, is flipped.
fn flip(number: u64, sign: u64) -> u64
    requires number { number < 2 ^ 32 }
    requires sign { sign < 2 ^ 32 }
    ensures { result ≡ flipped sign number }
{
    if number < sign {
        number + sign
    } else {
        number - sign
    }
}

/// The number that at most four bytes are, the lowest first.
fn number(bytes: &[u8]) -> u64
    requires { length bytes.now ≤ 4 }
    ensures range { result < 2 ^ 32 }
    ensures number { result ≡ number_of bytes.now }
{
    bits_of(bytes)
}
