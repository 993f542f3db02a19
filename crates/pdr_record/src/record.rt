//! Records: the common header and a body.
ghost use Rattle.std.specs.Prelude.{◌≡◌, ◌↔◌, ℕ, IfOk, IfErr, IsTrue, Some, slice_get};
ghost use Rattle.pdr_record.{specs.Records.{record_of, IsRecord, IsOtherRecordOf}, specs.Bodies.{body_value}, specs.Props.{record_prop}};

use crate::body::{Body, is_other_type};
use crate::field::{Field, put_fields};
use crate::reading::FieldReader;
use crate::record_error::RecordError;
use mctp_transport::Wire;

/// The bytes of the common header, which each record begins with: the handle (4 bytes), the header version (1), the
/// type (1), the change number (2) and how many bytes follow (2) (DSP0248, Common PDR header).
pub const HEADER_LENGTH: usize = 10;

/// The version of the common header.
const HEADER_VERSION: u8 = 1;

/// Where the type stands in the common header.
const TYPE_AT: usize = 5;

/// Whether the bytes have this type where the common header has its own.
pub fn has_type(bytes: &[u8], record_type: u8) -> bool
    ensures { IsTrue result ↔ (slice_get bytes.now 5 ≡ Some record_type) }
{
    bytes.get(TYPE_AT) == Some(&record_type)
}

/// The handle of the record that the bytes are, all of them, where its type has none of the four layouts. It is told by
/// the header and the number of bytes behind it.
pub fn other_handle(bytes: &[u8]) -> Option<u32>
    ensures { (handle : ℕ) → (result ≡ Some handle) ↔ IsOtherRecordOf handle bytes.now }
{
    let [h0, h1, h2, h3, version, number, _, _, l0, l1, body @ ..] = bytes else {
        return None;
    };
    let data_length = u16::from_le_bytes([*l0, *l1]);
    if *version != HEADER_VERSION || usize::from(data_length) != body.len() {
        return None;
    }
    if !is_other_type(*number) {
        return None;
    }
    Some(u32::from_le_bytes([*h0, *h1, *h2, *h3]))
}

/// A platform descriptor record: the common header of 10 bytes, and at most 65535 bytes behind it, each number with its
/// lowest byte first (DSP0248, Common PDR header). The header version is 1, so it is not kept, nor is the number of
/// bytes behind the header.
#[derive(Clone, Copy, Debug, PartialEq, Eq)]
pub struct Record<'a> {
    /// Four bytes: tells the record from the others of its terminus, where it is not 0. Any number is read.
    pub handle: u32,
    /// Two bytes: another one whenever the record has changed.
    pub change: u16,
    /// What follows the header of 10 bytes.
    pub body: Body<'a>,
    ghost lawful: { IsRecord (record_of handle change (body_value body)) } by { record_prop (record_of handle change (body_value body)) },
}

impl<'a> Wire<'a> for Record<'a> {
    ghost use Rattle.std.specs.Prelude.{◌≡◌, ◌↔◌, ◌++◌, ℕ, List, length, drop, IfOk, IfErr, IsOkAnd, Err};
    ghost use Rattle.mctp_transport.specs.Wire.{Spells};
    ghost use Rattle.pdr_record.{specs.Records.{RecordValue, record_bytes, IsRecord}, specs.RecordLaws.{one_record}, specs.RecordValues.{record_value}, specs.Faults.{IsFault}};

    type Error = RecordError;

    ghost Meaning = { RecordValue };

    ghost meaning = { record_value };

    ghost IsLawful = { IsRecord };

    ghost spelling = { record_bytes };

    /// The record that the bytes are, all of them. What it lends are slices of these bytes.
    ///
    /// Else the first cause is answered, in this order: D01 for fewer than 10 bytes, D02 for a header version other
    /// than 1, D03 for a data length that is not the number of bytes behind the header; then, by the body's fields in
    /// their order, D04 where the bytes end before a field does and D06 for a code that is not supported; at last D05
    /// for bytes behind the last field.
    fn read(bytes: &'a [u8]) -> Result<Self, RecordError>
        ensures ok { IfOk result (λ r. Spells IsRecord record_bytes (record_value r) bytes.now) }
        ensures all { (m : RecordValue) → Spells IsRecord record_bytes m bytes.now → IsOkAnd result (λ r. record_value r ≡ m) }
        ensures refused { (e : RecordError) → (result ≡ Err e) ↔ IsFault e bytes.now }
    {
        Record::of(bytes)
    }

    fn len(&self) -> usize {
        HEADER_LENGTH + self.body.len()
    }

    fn put(&self, out: &mut [u8]) -> usize {
        let data_length = self.body.len() as u16;
        let header = [
            Field::U32(self.handle),
            Field::U8(HEADER_VERSION),
            Field::U8(self.body.record_type()),
            Field::U16(self.change),
            Field::U16(data_length),
        ];
        let at = put_fields(out, &header);
        at + self.body.put(&mut out[at..])
    }

    ghost one_value = { one_record };
}

impl<'a> Record<'a> {
    ghost use Rattle.mctp_transport.specs.Wire.{Spells};
    ghost use Rattle.pdr_record.{specs.Records.{record_bytes, IsRecord}, specs.RecordValues.{record_value}, specs.Faults.{IsFault}};

    fn of(bytes: &'a [u8]) -> Result<Record<'a>, RecordError>
        ensures ok { IfOk result (λ r. Spells IsRecord record_bytes (record_value r) bytes.now) }
        ensures refused { IfErr result (λ e. IsFault e bytes.now) }
    {
        let mut fields = FieldReader { rest: bytes };
        if bytes.len() < HEADER_LENGTH {
            return Err(RecordError::Short);
        }
        let handle = fields.u32();
        if fields.u8() != HEADER_VERSION {
            return Err(RecordError::Version);
        }
        let record_type = fields.u8();
        let change = fields.u16();
        if usize::from(fields.u16()) != fields.rest.len() {
            return Err(RecordError::Length);
        }
        let body = Body::read(record_type, fields.rest)?;
        Ok(Record {
            handle,
            change,
            body,
        })
    }
}
