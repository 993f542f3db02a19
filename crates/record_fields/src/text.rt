//! How what a field holds is written.
ghost use Rattle.std.specs.Prelude.{◌≡◌, ◌≤◌, IfOk, string_bytes};
ghost use Rattle.pdr_record.{specs.StateSetValues.{state_set_value}, specs.Values.{entity_value}};
ghost use Rattle.record_fields.{specs.Meanings.{holding_of, named_of}, specs.Named.{Set, Thing}, specs.Texts.{holding_text, sized_text, signed_text, hexadecimal, field_text}};

use crate::held::{Held, NamedField};
use pdr_record::{Entity, StateSet};
use std::alloc::{AllocError, Global};

/// A field's name, what stands between, and what it holds.
pub fn field_text(alloc: Global, between: &str, field: &NamedField) -> Result<String, AllocError>
    ensures { IfOk result (λ text. string_bytes text ≡ field_text between.now (named_of field.now)) }
{
    let name = field.name;
    let held = held_text(alloc, &field.held)?;
    format!(in alloc; "{name}{between}{held}")
}

fn held_text(alloc: Global, held: &Held) -> Result<String, AllocError>
    ensures { IfOk result (λ text. string_bytes text ≡ holding_text (holding_of held.now)) }
{
    match held {
        Held::Number(number) => format!(in alloc; "{number}"),
        Held::Sized { code, bits } => sized_text(alloc, *code, *bits),
        Held::Bytes(bytes) => hex::encode(alloc, *bytes),
        Held::StateSet(set) => state_set_text(alloc, set),
        Held::Entity(entity) => entity_text(alloc, entity),
    }
}

fn sized_text(alloc: Global, code: u8, bits: u64) -> Result<String, AllocError>
    ensures { IfOk result (λ text. string_bytes text ≡ sized_text code bits) }
{
    match code {
        1 => signed_text(alloc, 1 << 7, bits),
        3 => signed_text(alloc, 1 << 15, bits),
        5 => signed_text(alloc, 1 << 31, bits),
        6 => hexadecimal(alloc, bits),
        _ => format!(in alloc; "{bits}"),
    }
}

/// A number in two's complement, whose sign bit has this weight.
fn signed_text(alloc: Global, sign: u64, bits: u64) -> Result<String, AllocError>
    requires { sign ≤ 2147483648 }
    ensures { IfOk result (λ text. string_bytes text ≡ signed_text sign bits) }
{
    if bits < sign {
        return format!(in alloc; "{bits}");
    }
    let below = (2 * sign).saturating_sub(bits);
    format!(in alloc; "-{below}")
}

/// A number in hexadecimal digits.
pub fn hexadecimal(alloc: Global, number: u64) -> Result<String, AllocError>
    ensures { IfOk result (λ text. string_bytes text ≡ hexadecimal number) }
{
    format!(in alloc; "0x{number:x}")
}

fn state_set_text(alloc: Global, set: &StateSet) -> Result<String, AllocError>
    ensures { IfOk result (λ text. string_bytes text ≡ holding_text (Set (state_set_value set.now))) }
{
    let id = set.state_set_id;
    let states = hex::encode(alloc, set.possible_states)?;
    format!(in alloc; "{id}:{states}")
}

fn entity_text(alloc: Global, entity: &Entity) -> Result<String, AllocError>
    ensures { IfOk result (λ text. string_bytes text ≡ holding_text (Thing (entity_value entity.now))) }
{
    let kind = entity.entity_type;
    let instance = entity.instance_number;
    let container = entity.container_id;
    format!(in alloc; "{kind}/{instance}/{container}")
}
