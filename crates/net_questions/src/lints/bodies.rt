//! The bodies of records that a plan lists as bytes.
ghost use Rattle.std.specs.Prelude.{◌≡◌, IfSome, IsSomeAnd, option_map};
ghost use Rattle.pdr_record.{specs.Bodies.{body_value}, specs.Layouts.{SensorValue}, specs.Records.{BodyValue}, specs.Values.{sensor_value}};
ghost use Rattle.net_questions.specs.Sensors.{HasBody, IsSensor, sensor_of};

use mctp_transport::Wire;
use pdr_record::{Body, Record, Sensor};

/// The body of a record, if the bytes are those of one.
pub fn body(bytes: &[u8]) -> Option<Body<'_>>
    ensures found { IfSome result (λ body. HasBody bytes.now (body_value body)) }
    ensures all { (body : BodyValue) → HasBody bytes.now body → IsSomeAnd result (λ found. body_value found ≡ body) }
{
    match Record::read(bytes) {
        Ok(record) => Some(record.body),
        Err(_) => None,
    }
}

/// How the record of a numeric or state sensor begins, if the bytes are those of one.
pub fn sensor(bytes: &[u8]) -> Option<Sensor>
    ensures found { IfSome result (λ sensor. IsSensor bytes.now (sensor_value sensor)) }
    ensures all { (sensor : SensorValue) → IsSensor bytes.now sensor → IsSomeAnd result (λ found. sensor_value found ≡ sensor) }
{
    match body(bytes) {
        Some(body) => sensor_of(&body),
        None => None,
    }
}

fn sensor_of(body: &Body) -> Option<Sensor>
    ensures { option_map sensor_value result ≡ sensor_of (body_value body.now) }
{
    match body {
        Body::Numeric(numeric) => Some(numeric.sensor),
        Body::State(state) => Some(state.sensor),
        Body::Terminus(_) | Body::Association(_) | Body::Other { .. } => None,
    }
}
