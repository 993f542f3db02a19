//! What the command `show` prints.
ghost use Rattle.std.specs.Prelude.{◌≡◌, IfOk, string_bytes};
ghost use Rattle.mctp_transport.specs.Packets.{packet_value_of};
ghost use Rattle.pdr_record.{specs.Bodies.{body_value}, specs.ListValues.{state_value, association_value}, specs.NumericValues.{numeric_value}, specs.RecordValues.{record_value}, specs.Values.{terminus_value, sensor_value, entity_value}};
ghost use Rattle.plan_texts.specs.Shown.{refused_bytes, packet_bytes, address_words_of, position_words_of, tag_words_of, record_text_bytes, body_bytes, terminus_bytes, locator_words_of, numeric_bytes, state_bytes, sensor_words_of, entity_words_of, association_bytes};

use mctp_transport::PacketView;
use pdr_record::{
    Body, Entity, EntityAssociation, NumericSensor, Record, Sensor, StateSensor, TerminusLocator,
};
use std::alloc::{AllocError, Global};

/// Why bytes are refused.
pub fn refused_text(alloc: Global, code: &str) -> Result<String, AllocError>
    ensures { IfOk result (λ text. string_bytes text ≡ refused_bytes code.now) }
{
    format!(in alloc; "refused {code}\n")
}

/// A packet's header and payload.
pub fn packet_text(alloc: Global, packet: &PacketView) -> Result<String, AllocError>
    ensures { IfOk result (λ text. string_bytes text ≡ packet_bytes (packet_value_of packet.now)) }
{
    let addresses = address_words(alloc, packet)?;
    let position = position_words(alloc, packet)?;
    let tag = tag_words(alloc, packet)?;
    let payload = hex::encode(alloc, packet.payload)?;
    format!(in alloc; "packet {addresses} {position} {tag} payload {payload}\n")
}

fn address_words(alloc: Global, packet: &PacketView) -> Result<String, AllocError>
    ensures { IfOk result (λ text. string_bytes text ≡ address_words_of (packet_value_of packet.now)) }
{
    let reserved = packet.header.reserved.value;
    let destination = packet.header.destination.value;
    let source = packet.header.source.value;
    format!(in alloc; "reserved {reserved} destination {destination} source {source}")
}

/// The packet's position in its message.
fn position_words(alloc: Global, packet: &PacketView) -> Result<String, AllocError>
    ensures { IfOk result (λ text. string_bytes text ≡ position_words_of (packet_value_of packet.now)) }
{
    let som = u8::from(packet.header.som);
    let eom = u8::from(packet.header.eom);
    let number = packet.header.number.value;
    format!(in alloc; "som {som} eom {eom} number {number}")
}

fn tag_words(alloc: Global, packet: &PacketView) -> Result<String, AllocError>
    ensures { IfOk result (λ text. string_bytes text ≡ tag_words_of (packet_value_of packet.now)) }
{
    let owner = u8::from(packet.header.owner);
    let tag = packet.header.tag.value;
    format!(in alloc; "owner {owner} tag {tag}")
}

/// A record's header, and in a second line its body.
pub fn record_text(alloc: Global, shown: &Record) -> Result<String, AllocError>
    ensures { IfOk result (λ text. string_bytes text ≡ record_text_bytes (record_value shown.now)) }
{
    let handle = shown.handle;
    let record_type = shown.body.record_type();
    let change = shown.change;
    let length = shown.body.len();
    let body = body_text(alloc, &shown.body)?;
    format!(in alloc;
        "record handle {handle} type {record_type} change {change} length {length}\n{body}"
    )
}

fn body_text(alloc: Global, body: &Body) -> Result<String, AllocError>
    ensures { IfOk result (λ text. string_bytes text ≡ body_bytes (body_value body.now)) }
{
    match body {
        Body::Terminus(terminus) => terminus_text(alloc, terminus),
        Body::Numeric(numeric) => numeric_text(alloc, numeric),
        Body::State(state) => state_text(alloc, state),
        Body::Association(association) => association_text(alloc, association),
        Body::Other { bytes, .. } => {
            let bytes = hex::encode(alloc, *bytes)?;
            format!(in alloc; "other {bytes}\n")
        }
    }
}

fn terminus_text(alloc: Global, terminus: &TerminusLocator) -> Result<String, AllocError>
    ensures { IfOk result (λ text. string_bytes text ≡ terminus_bytes (terminus_value terminus.now)) }
{
    let handle = terminus.terminus_handle;
    let validity = terminus.validity;
    let tid = terminus.tid;
    let locator = locator_words(alloc, terminus)?;
    format!(in alloc; "terminus {handle} validity {validity} tid {tid} {locator}\n")
}

fn locator_words(alloc: Global, terminus: &TerminusLocator) -> Result<String, AllocError>
    ensures { IfOk result (λ text. string_bytes text ≡ locator_words_of (terminus_value terminus.now)) }
{
    let container = terminus.container_id;
    let locator = terminus.locator_type;
    let value = hex::encode(alloc, terminus.locator_value)?;
    format!(in alloc; "container {container} locator {locator} value {value}")
}

fn numeric_text(alloc: Global, numeric: &NumericSensor) -> Result<String, AllocError>
    ensures { IfOk result (λ text. string_bytes text ≡ numeric_bytes (numeric_value numeric.now)) }
{
    let sensor = sensor_words(alloc, &numeric.sensor)?;
    let data = numeric.sensor_data_size.code();
    let range = numeric.range_field_format.code();
    format!(in alloc; "numeric {sensor} data {data} range {range}\n")
}

fn state_text(alloc: Global, state: &StateSensor) -> Result<String, AllocError>
    ensures { IfOk result (λ text. string_bytes text ≡ state_bytes (state_value state.now)) }
{
    let sensor = sensor_words(alloc, &state.sensor)?;
    let sets = state.state_sets.count();
    format!(in alloc; "state {sensor} sets {sets}\n")
}

fn sensor_words(alloc: Global, sensor: &Sensor) -> Result<String, AllocError>
    ensures { IfOk result (λ text. string_bytes text ≡ sensor_words_of (sensor_value sensor.now)) }
{
    let handle = sensor.terminus_handle;
    let id = sensor.sensor_id;
    let entity = entity_words(alloc, &sensor.entity)?;
    format!(in alloc; "{handle} sensor {id} {entity}")
}

fn entity_words(alloc: Global, entity: &Entity) -> Result<String, AllocError>
    ensures { IfOk result (λ text. string_bytes text ≡ entity_words_of (entity_value entity.now)) }
{
    let kind = entity.entity_type;
    let instance = entity.instance_number;
    let container = entity.container_id;
    format!(in alloc; "entity {kind} instance {instance} container {container}")
}

fn association_text(alloc: Global, association: &EntityAssociation) -> Result<String, AllocError>
    ensures { IfOk result (λ text. string_bytes text ≡ association_bytes (association_value association.now)) }
{
    let own = association.container_id;
    let kind = association.association_type;
    let entity = entity_words(alloc, &association.container_entity)?;
    let contained = association.contained_entities.count();
    format!(in alloc; "association {own} type {kind} {entity} contained {contained}\n")
}
