//! Fields as they are written.
ghost use Rattle.std.specs.Prelude.{◌≡◌, ◌≤◌, ◌++◌, length, drop};
ghost use Rattle.pdr_record.{specs.Fields.{bytes_of, followed, field_bytes}, specs.Written.{field_of, fields_of}};

use byteorder::{ByteOrder, LittleEndian};

/// A field of a record: a number, whose lowest byte comes first, or bytes as they are.
#[derive(Clone, Copy, Debug)]
pub enum Field<'a> {
    /// One byte.
    U8(u8),
    /// Two bytes.
    U16(u16),
    /// Four bytes.
    U32(u32),
    /// As many bytes as these.
    Raw(&'a [u8]),
}

/// Writes fields at the front of `out`, and returns how many bytes they have.
pub fn put_fields(out: &mut [u8], fields: &[Field]) -> usize
    requires { length (bytes_of (fields_of fields.now)) ≤ length out.old }
    ensures count { result ≡ length (bytes_of (fields_of fields.now)) }
    ensures front { out.new ≡ followed (fields_of fields.now) (drop result out.old) }
{
    let mut at = 0;
    for field in fields {
        at += put_field(&mut out[at..], *field);
    }
    at
}

fn put_field(out: &mut [u8], field: Field) -> usize
    requires { length (field_bytes (field_of field)) ≤ length out.old }
    ensures count { result ≡ length (field_bytes (field_of field.entry)) }
    ensures front { out.new ≡ field_bytes (field_of field.entry) ++ drop result out.old }
{
    match field {
        Field::U8(number) => {
            out[0] = number;
            1
        }
        Field::U16(number) => {
            LittleEndian::write_u16(out, number);
            2
        }
        Field::U32(number) => {
            LittleEndian::write_u32(out, number);
            4
        }
        Field::Raw(bytes) => {
            out[..bytes.len()].copy_from_slice(bytes);
            bytes.len()
        }
    }
}
