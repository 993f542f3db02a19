//! Reading the fields of a record's body, one after the other.
ghost use Rattle.std.specs.Prelude.{◌≡◌, ◌<◌, ◌≤◌, ◌+◌, ◌++◌, ◌∷◌, length, IfErr, OnOk};
ghost use Rattle.byteorder.specs.Endian.{little_bytes};

use crate::record_error::RecordError;
use byteorder::{ByteOrder, LittleEndian};

/// The bytes of a body that are not read yet.
#[derive(Clone, Copy, Debug)]
pub struct FieldReader<'a> {
    /// They begin with the next field.
    pub rest: &'a [u8],
}

impl<'a> FieldReader<'a> {
    /// Refuses where fewer than `count` bytes are left.
    pub fn want(&self, count: usize) -> Result<(), RecordError>
        ensures enough { OnOk result (count ≤ length self.now.rest.now) }
        ensures refused { IfErr result (λ e. (e ≡ RecordError.Ends) × (length self.now.rest.now < count)) }
    {
        if self.rest.len() < count {
            return Err(RecordError::Ends);
        }
        Ok(())
    }

    /// A number in one byte.
    pub fn u8(&mut self) -> u8
        requires { 1 ≤ length self.old.rest.now }
        ensures field { self.old.rest.now ≡ result ∷ self.new.rest.now }
        ensures left { length self.old.rest.now ≡ 1 + length self.new.rest.now }
    {
        self.bytes(1)[0]
    }

    /// A number in two bytes, the lowest first.
    pub fn u16(&mut self) -> u16
        requires { 2 ≤ length self.old.rest.now }
        ensures field { self.old.rest.now ≡ little_bytes 2 result ++ self.new.rest.now }
        ensures left { length self.old.rest.now ≡ 2 + length self.new.rest.now }
    {
        u16_of(self.bytes(2))
    }

    /// A number in four bytes, the lowest first.
    pub fn u32(&mut self) -> u32
        requires { 4 ≤ length self.old.rest.now }
        ensures field { self.old.rest.now ≡ little_bytes 4 result ++ self.new.rest.now }
        ensures left { length self.old.rest.now ≡ 4 + length self.new.rest.now }
    {
        u32_of(self.bytes(4))
    }

    /// `count` bytes as they are.
    pub fn bytes(&mut self, count: usize) -> &'a [u8]
        requires { count ≤ length self.old.rest.now }
        ensures count { length result.now ≡ count }
        ensures field { self.old.rest.now ≡ result.now ++ self.new.rest.now }
        ensures left { length self.old.rest.now ≡ count + length self.new.rest.now }
    {
        let (front, rest) = self.rest.split_at(count);
        self.rest = rest;
        front
    }
}

/// The number in two bytes, the lowest first.
fn u16_of(bytes: &[u8]) -> u16
    requires { length bytes.now ≡ 2 }
    ensures { little_bytes 2 result ≡ bytes.now }
{
    LittleEndian::read_u16(bytes)
}

/// The number in four bytes, the lowest first.
fn u32_of(bytes: &[u8]) -> u32
    requires { length bytes.now ≡ 4 }
    ensures { little_bytes 4 result ≡ bytes.now }
{
    LittleEndian::read_u32(bytes)
}
