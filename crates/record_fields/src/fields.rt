//! All fields of a record.
ghost use Rattle.std.specs.Prelude.{◌≡◌, ◌++◌, IfOk, OnOk, map};
ghost use Rattle.pdr_record.{specs.Bodies.{body_value}, specs.ListValues.{state_value, association_value}, specs.Lists.{state_sets_value, entities_value}, specs.NumericValues.{numeric_value}, specs.RecordValues.{record_value}, specs.StateSetValues.{state_set_value}, specs.Values.{entity_value}};
ghost use Rattle.record_fields.{specs.Meanings.{named_of}, specs.Named.{named_fields, body_named, numeric_named, sizes_named, limits_named, state_named, association_named, state_set_named, contained_named}};

use crate::held::{Held, NamedField, entity, number, raw, sized};
use crate::layouts::{
    container_fields, header_fields, precision_fields, ranges_fields, readable_fields,
    sensor_fields, terminus_fields, timing_fields, units_fields,
};
use pdr_record::{
    Body, Entities, Entity, EntityAssociation, NumericSensor, Record, StateSensor, StateSet,
    StateSets,
};
use std::alloc::{AllocError, Global};

/// Every field of a record, in the order of its bytes (DSP0248). Sizes of parts and counts are left out, but for the
/// number of bytes behind the header.
pub fn named_fields<'a>(
    alloc: Global,
    whole: &Record<'a>,
) -> Result<Vec<NamedField<'a>>, AllocError>
    ensures { IfOk result (λ fields. map named_of fields.items ≡ named_fields (record_value whole.now)) }
{
    let mut fields = Vec::new(alloc);
    add(&header_fields(whole), &mut fields)?;
    add_body(&whole.body, &mut fields)?;
    Ok(fields)
}

fn add<'a>(more: &[NamedField<'a>], fields: &mut Vec<NamedField<'a>>) -> Result<(), AllocError>
    ensures { OnOk result (map named_of fields.new.items ≡ map named_of fields.old.items ++ map named_of more.now) }
{
    fields.extend_from_slice(more)
}

fn add_body<'a>(body: &Body<'a>, fields: &mut Vec<NamedField<'a>>) -> Result<(), AllocError>
    ensures { OnOk result (map named_of fields.new.items ≡ map named_of fields.old.items ++ body_named (body_value body.now)) }
{
    match body {
        Body::Terminus(terminus) => add(&terminus_fields(terminus), fields),
        Body::Numeric(numeric) => add_numeric(numeric, fields),
        Body::State(state) => add_state(state, fields),
        Body::Association(association) => add_association(association, fields),
        Body::Other { bytes, .. } => add(&[raw("bytes", bytes)], fields),
    }
}

fn add_numeric<'a>(
    numeric: &NumericSensor<'a>,
    fields: &mut Vec<NamedField<'a>>,
) -> Result<(), AllocError>
    ensures { OnOk result (map named_of fields.new.items ≡ map named_of fields.old.items ++ numeric_named (numeric_value numeric.now)) }
{
    add(&sensor_fields(&numeric.sensor), fields)?;
    add(&units_fields(&numeric.units), fields)?;
    add_sizes(numeric, fields)?;
    add_limits(numeric, fields)
}

/// The fields of a numeric sensor from its data size to its hysteresis.
fn add_sizes<'a>(
    numeric: &NumericSensor<'a>,
    fields: &mut Vec<NamedField<'a>>,
) -> Result<(), AllocError>
    ensures { OnOk result (map named_of fields.new.items ≡ map named_of fields.old.items ++ sizes_named (numeric_value numeric.now)) }
{
    let code = numeric.sensor_data_size.code();
    add(&[number("data-size", u64::from(code))], fields)?;
    add(&precision_fields(&numeric.precision), fields)?;
    add(&[sized("hysteresis", code, numeric.hysteresis)], fields)
}

/// The fields of a numeric sensor behind its hysteresis.
fn add_limits<'a>(
    numeric: &NumericSensor<'a>,
    fields: &mut Vec<NamedField<'a>>,
) -> Result<(), AllocError>
    ensures { OnOk result (map named_of fields.new.items ≡ map named_of fields.old.items ++ limits_named (numeric_value numeric.now)) }
{
    let format = numeric.range_field_format.code();
    add(&timing_fields(&numeric.timing), fields)?;
    add(&readable_fields(numeric), fields)?;
    add(&ranges_fields(format, &numeric.ranges), fields)
}

fn add_state<'a>(
    state: &StateSensor<'a>,
    fields: &mut Vec<NamedField<'a>>,
) -> Result<(), AllocError>
    ensures { OnOk result (map named_of fields.new.items ≡ map named_of fields.old.items ++ state_named (state_value state.now)) }
{
    add(&sensor_fields(&state.sensor), fields)?;
    add_state_sets(&state.state_sets, fields)
}

fn add_state_sets<'a>(
    sets: &StateSets<'a>,
    fields: &mut Vec<NamedField<'a>>,
) -> Result<(), AllocError>
    ensures { OnOk result (map named_of fields.new.items ≡ map named_of fields.old.items ++ map state_set_named (state_sets_value sets.now)) }
{
    let mut left = sets.iter();
    while let Some(set) = left.next() {
        add(&[state_set(set)], fields)?;
    }
    Ok(())
}

fn state_set<'a>(given: StateSet<'a>) -> NamedField<'a>
    ensures { named_of result ≡ state_set_named (state_set_value given.entry) }
{
    NamedField {
        name: "state-set",
        held: Held::StateSet(given),
    }
}

fn add_association<'a>(
    association: &EntityAssociation<'a>,
    fields: &mut Vec<NamedField<'a>>,
) -> Result<(), AllocError>
    ensures { OnOk result (map named_of fields.new.items ≡ map named_of fields.old.items ++ association_named (association_value association.now)) }
{
    add(&container_fields(association), fields)?;
    add_contained(&association.contained_entities, fields)
}

fn add_contained<'a>(
    entities: &Entities<'a>,
    fields: &mut Vec<NamedField<'a>>,
) -> Result<(), AllocError>
    ensures { OnOk result (map named_of fields.new.items ≡ map named_of fields.old.items ++ map contained_named (entities_value entities.now)) }
{
    let mut left = entities.iter();
    while let Some(contained) = left.next() {
        add(&[contained_field(contained)], fields)?;
    }
    Ok(())
}

fn contained_field<'a>(contained: Entity) -> NamedField<'a>
    ensures { named_of result ≡ contained_named (entity_value contained) }
{
    entity("contained-entity", contained)
}
