//! What follows the header of a record.
ghost use Rattle.std.specs.Prelude.{◌≡◌, ◌↔◌, ◌≤◌, ◌++◌, [], length, drop, IfOk, IfErr, IsTrue};
ghost use Rattle.pdr_record.{specs.Fields.{bytes_of, followed}, specs.Records.{type_of, body_fields, IsBody, IsOtherType}};

use crate::entity_association::EntityAssociation;
use crate::field::{Field, put_fields};
use crate::numeric_sensor::NumericSensor;
use crate::reading::FieldReader;
use crate::record_error::RecordError;
use crate::state_sensor::StateSensor;
use crate::terminus_locator::TerminusLocator;

/// The type of a terminus locator (DSP0248, PDR types).
pub const TERMINUS_LOCATOR: u8 = 1;

/// The type of a numeric sensor.
pub const NUMERIC_SENSOR: u8 = 2;

/// The type of a state sensor.
const STATE_SENSOR: u8 = 4;

/// The type of an entity association.
const ENTITY_ASSOCIATION: u8 = 15;

/// Whether a type has none of the four layouts.
pub fn is_other_type(record_type: u8) -> bool
    ensures { IsTrue result ↔ IsOtherType record_type }
{
    !matches!(
        record_type,
        TERMINUS_LOCATOR | NUMERIC_SENSOR | STATE_SENSOR | ENTITY_ASSOCIATION
    )
}

/// What follows the header of a record: one of four layouts (DSP0248), or the bytes of another type. A number's lowest
/// byte comes first.
#[derive(Clone, Copy, Debug, PartialEq, Eq)]
pub enum Body<'a> {
    /// Type 1, a terminus locator: 8 bytes and the locator's value.
    Terminus(TerminusLocator<'a>),
    /// Type 2, a numeric sensor: `47 + 3d + 9r` bytes, for values of `d` and `r` bytes.
    Numeric(NumericSensor<'a>),
    /// Type 4, a state sensor: 13 bytes and its state sets.
    State(StateSensor<'a>),
    /// Type 15, an entity association: `10 + 6n` bytes for `n` entities.
    Association(EntityAssociation<'a>),
    /// Any other type, and its bytes as they are.
    Other { record_type: u8, bytes: &'a [u8] },
}

impl<'a> Body<'a> {
    ghost use Rattle.pdr_record.{specs.Bodies.{body_value}, specs.Faults.{IsBodyFault}, specs.Endings.{IsFrontFault}};

    /// The body that the bytes are under a type's number, all of them. D04 is answered where they end before a field
    /// does, D06 where a field has a code that is not supported, and D05 where bytes follow the last field. Under any
    /// other number than those of the four layouts all bytes are read.
    pub fn read(record_type: u8, bytes: &'a [u8]) -> Result<Body<'a>, RecordError>
        ensures record_type { IfOk result (λ body. type_of (body_value body) ≡ record_type) }
        ensures bytes { IfOk result (λ body. bytes.now ≡ bytes_of (body_fields (body_value body))) }
        ensures lawful { IfOk result (λ body. IsBody (body_value body)) }
        ensures refused { IfErr result (λ e. IsBodyFault e record_type bytes.now) }
    {
        let mut fields = FieldReader { rest: bytes };
        let body = Body::take(record_type, &mut fields)?;
        if !fields.rest.is_empty() {
            return Err(RecordError::LeftOver);
        }
        Ok(body)
    }

    /// The body at the front of the fields. A type without layout takes all bytes.
    fn take(record_type: u8, fields: &mut FieldReader<'a>) -> Result<Body<'a>, RecordError>
        ensures record_type { IfOk result (λ body. type_of (body_value body) ≡ record_type) }
        ensures field { IfOk result (λ body. fields.old.rest.now ≡ followed (body_fields (body_value body)) fields.new.rest.now) }
        ensures lawful { IfOk result (λ body. IsBody (body_value body)) }
        ensures other { IsOtherType record_type → fields.new.rest.now ≡ [] }
        ensures refused { IfErr result (λ e. IsFrontFault e record_type fields.old.rest.now) }
    {
        match record_type {
            TERMINUS_LOCATOR => Ok(Body::Terminus(TerminusLocator::take(fields)?)),
            NUMERIC_SENSOR => Ok(Body::Numeric(NumericSensor::take(fields)?)),
            STATE_SENSOR => Ok(Body::State(StateSensor::take(fields)?)),
            ENTITY_ASSOCIATION => Ok(Body::Association(EntityAssociation::take(fields)?)),
            _ => Ok(Body::Other {
                record_type,
                bytes: fields.bytes(fields.rest.len()),
            }),
        }
    }

    /// The number of the record's type.
    pub fn record_type(&self) -> u8
        ensures { result ≡ type_of (body_value self.now) }
    {
        match self {
            Body::Terminus(_) => TERMINUS_LOCATOR,
            Body::Numeric(_) => NUMERIC_SENSOR,
            Body::State(_) => STATE_SENSOR,
            Body::Association(_) => ENTITY_ASSOCIATION,
            Body::Other { record_type, .. } => *record_type,
        }
    }

    /// How many bytes the body has.
    pub fn len(&self) -> usize
        requires { IsBody (body_value self.now) }
        ensures { result ≡ length (bytes_of (body_fields (body_value self.now))) }
    {
        match self {
            Body::Terminus(terminus) => 8 + terminus.locator_value.len(),
            Body::Numeric(numeric) => numeric.len(),
            Body::State(state) => 13 + state.state_sets.bytes().len(),
            Body::Association(association) => 10 + association.contained_entities.bytes().len(),
            Body::Other { bytes, .. } => bytes.len(),
        }
    }

    /// Writes the body's bytes at the front of `out`, which has room for them, and returns how many they are.
    pub fn put(&self, out: &mut [u8]) -> usize
        requires lawful { IsBody (body_value self.now) }
        requires room { length (bytes_of (body_fields (body_value self.now))) ≤ length out.old }
        ensures count { result ≡ length (bytes_of (body_fields (body_value self.now))) }
        ensures front { out.new ≡ bytes_of (body_fields (body_value self.now)) ++ drop result out.old }
    {
        match self {
            Body::Terminus(terminus) => put_fields(out, &terminus.fields()),
            Body::Numeric(numeric) => put_fields(out, &numeric.fields()),
            Body::State(state) => put_fields(out, &state.fields()),
            Body::Association(association) => put_fields(out, &association.fields()),
            Body::Other { bytes, .. } => put_fields(out, &[Field::Raw(bytes)]),
        }
    }
}
