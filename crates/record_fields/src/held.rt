//! What a field of a record is called, and what it holds.
ghost use Rattle.std.specs.Prelude.{◌≡◌};
ghost use Rattle.record_fields.{specs.Meanings.{named_of}, specs.Named.{number, bits, sized, raw, entity}};
ghost use Rattle.pdr_record.specs.Values.{entity_value};

use crate::sized::bits_of;
use pdr_record::{Entity, StateSet};

/// What a field holds.
#[derive(Clone, Copy, Debug, PartialEq, Eq)]
pub enum Held<'a> {
    /// A number.
    Number(u64),
    /// A number in the bits of a data size (DSP0248, sensorDataSize), by its code: unsigned (0, 2, 4), two's complement
    /// (1, 3, 5), or a real number of 32 bits (6).
    Sized { code: u8, bits: u64 },
    /// Bytes as they are.
    Bytes(&'a [u8]),
    /// A state set, and the states of it that are possible.
    StateSet(StateSet<'a>),
    /// An entity.
    Entity(Entity),
}

/// A field of a record.
#[derive(Clone, Copy, Debug, PartialEq, Eq)]
pub struct NamedField<'a> {
    /// The standard's name (DSP0248), in small letters with dashes.
    pub name: &'static str,
    /// What it holds.
    pub held: Held<'a>,
}

/// The code of a real number of 32 bits.
const REAL: u8 = 6;

/// A field that holds a number.
pub fn number<'a>(name: &'static str, value: u64) -> NamedField<'a>
    ensures { named_of result ≡ number name.now value }
{
    NamedField {
        name,
        held: Held::Number(value),
    }
}

/// A field that holds the bits of a number of a data size.
pub fn bits<'a>(name: &'static str, code: u8, value: u64) -> NamedField<'a>
    ensures { named_of result ≡ bits name.now code value }
{
    NamedField {
        name,
        held: Held::Sized { code, bits: value },
    }
}

/// A field that holds a real number of 32 bits.
pub fn real<'a>(name: &'static str, value: u32) -> NamedField<'a>
    ensures { named_of result ≡ bits name.now 6 value }
{
    bits(name, REAL, u64::from(value))
}

/// A field that holds a number of a data size in its bytes, the lowest first.
pub fn sized<'a>(name: &'static str, code: u8, bytes: &[u8]) -> NamedField<'a>
    ensures { named_of result ≡ sized name.now code bytes.now }
{
    bits(name, code, bits_of(bytes))
}

/// A field that holds bytes.
pub fn raw<'a>(name: &'static str, bytes: &'a [u8]) -> NamedField<'a>
    ensures { named_of result ≡ raw name.now bytes.now }
{
    NamedField {
        name,
        held: Held::Bytes(bytes),
    }
}

/// A field that holds an entity.
pub fn entity<'a>(name: &'static str, value: Entity) -> NamedField<'a>
    ensures { named_of result ≡ entity name.now (entity_value value) }
{
    NamedField {
        name,
        held: Held::Entity(value),
    }
}
