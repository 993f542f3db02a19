//! The lines that tell what became of an entry.
ghost use Rattle.std.{specs.Prelude.{◌≡◌, ◌++◌, ◌∷◌, [], IfOk, OnOk, ℕ, List, string_bytes, option_map, codes}, specs.Fmt.{decimal}};
ghost use Rattle.bus_captures.specs.Values.{entry_value};
ghost use Rattle.mctp_transport.{specs.Heard.{heard_answer}, specs.Packets.{packet_value_of}};
ghost use Rattle.heard_captures.specs.Sights.{seen_of};
ghost use Rattle.hex.specs.Hex.{encode_lower};
ghost use Rattle.plan_texts.specs.Shown.{address_words_of, position_words_of, tag_words_of, refused_bytes};
ghost use Rattle.decoded_texts.{specs.Seen.{answer_word, way_word, fed_line, told_line, link_words, unread_words}, specs.Steps.{AddsTold, AddsStep}};

use crate::heads::head_text;
use crate::message::message_text;
use crate::names::{Names, push_names, unit_by};
use bus_captures::{Direction, Entry, Unread};
use heard_captures::{Sight, Stations, see};
use mctp_transport::{Heard, PacketView};
use std::alloc::{AllocError, Global};

/// Adds the lines of an entry of this number. A packet is given to the assembler of its interface and destination.
pub fn push_entry(
    alloc: Global,
    text: &mut String,
    stations: &mut Stations,
    names: Option<&Names>,
    number: usize,
    entry: &Entry,
) -> Result<(), AllocError>
    ensures { OnOk result (AddsStep stations.old stations.new (option_map (λ n. n.now.plan.now) names.entry) (entry_value entry.now) (string_bytes text.old) (string_bytes text.new)) }
{
    let sight = see(alloc, stations, unit_by(names), entry)?;
    text.push_str(&head_text(alloc, number, entry)?)?;
    push_sight(alloc, text, names, &sight)
}

/// Adds the lines of what became of an entry.
fn push_sight(
    alloc: Global,
    text: &mut String,
    names: Option<&Names>,
    sight: &Sight,
) -> Result<(), AllocError>
    ensures { OnOk result (AddsTold (option_map (λ n. n.now.plan.now) names.entry) (seen_of sight.now) (string_bytes text.old) (string_bytes text.new)) }
{
    match sight {
        Sight::Fed(_, packet, heard) => push_fed(alloc, text, names, packet, heard),
        Sight::NoPacket(error) => push_refused(text, error.code()),
        Sight::Told(way, message) => push_told(alloc, text, *way, *message),
        Sight::Other(protocol) => push_other(text, *protocol),
        Sight::NotRead(why) => push_not_read(alloc, text, *why),
    }
}

/// Adds the lines of a packet and of what its assembler made of it.
fn push_fed(
    alloc: Global,
    text: &mut String,
    names: Option<&Names>,
    packet: &PacketView,
    heard: &Heard,
) -> Result<(), AllocError>
    ensures { OnOk result ((said : List ℕ) × (string_bytes text.new ≡ string_bytes text.old ++ (fed_line (option_map (λ n. n.now.plan.now) names.entry) (packet_value_of packet.now) (heard_answer heard.now) ++ said))) }
{
    push_fed_line(alloc, text, names, packet, heard)?;
    push_said(alloc, text, heard)
}

fn push_fed_line(
    alloc: Global,
    text: &mut String,
    names: Option<&Names>,
    packet: &PacketView,
    heard: &Heard,
) -> Result<(), AllocError>
    ensures { OnOk result (string_bytes text.new ≡ string_bytes text.old ++ fed_line (option_map (λ n. n.now.plan.now) names.entry) (packet_value_of packet.now) (heard_answer heard.now)) }
{
    push_answer(text, heard)?;
    push_addresses(text, packet)?;
    push_position(text, packet)?;
    push_tag(text, packet)?;
    push_payload(alloc, text, packet)?;
    push_names(text, names, packet)?;
    text.push_str("\n")
}

/// Adds what its assembler made of a packet.
fn push_answer(text: &mut String, heard: &Heard) -> Result<(), AllocError>
    ensures { OnOk result (string_bytes text.new ≡ string_bytes text.old ++ (codes " " ++ (answer_word (heard_answer heard.now) ++ codes " packet "))) }
{
    match heard {
        Heard::Whole(_) => write!(text, " whole packet "),
        Heard::Held => write!(text, " held packet "),
        Heard::Dropped(cause) => {
            let code = cause.code();
            write!(text, " dropped {code} packet ")
        }
    }
}

/// Adds where a packet goes and comes from.
fn push_addresses(text: &mut String, packet: &PacketView) -> Result<(), AllocError>
    ensures { OnOk result (string_bytes text.new ≡ string_bytes text.old ++ address_words_of (packet_value_of packet.now)) }
{
    let reserved = packet.header.reserved.value;
    let destination = packet.header.destination.value;
    let source = packet.header.source.value;
    write!(
        text,
        "reserved {reserved} destination {destination} source {source}"
    )
}

/// Adds a packet's position in its message.
fn push_position(text: &mut String, packet: &PacketView) -> Result<(), AllocError>
    ensures { OnOk result (string_bytes text.new ≡ string_bytes text.old ++ (codes " " ++ position_words_of (packet_value_of packet.now))) }
{
    let som = u8::from(packet.header.som);
    let eom = u8::from(packet.header.eom);
    let number = packet.header.number.value;
    write!(text, " som {som} eom {eom} number {number}")
}

fn push_tag(text: &mut String, packet: &PacketView) -> Result<(), AllocError>
    ensures { OnOk result (string_bytes text.new ≡ string_bytes text.old ++ (codes " " ++ (tag_words_of (packet_value_of packet.now) ++ codes " payload "))) }
{
    let owner = u8::from(packet.header.owner);
    let tag = packet.header.tag.value;
    write!(text, " owner {owner} tag {tag} payload ")
}

fn push_payload(alloc: Global, text: &mut String, packet: &PacketView) -> Result<(), AllocError>
    ensures { OnOk result (string_bytes text.new ≡ string_bytes text.old ++ encode_lower (packet_value_of packet.now).payload) }
{
    let payload = hex::encode(alloc, packet.payload)?;
    text.push_str(&payload)
}

/// Adds what the message says that a packet ended, or nothing where it ended none.
fn push_said(alloc: Global, text: &mut String, heard: &Heard) -> Result<(), AllocError>
    ensures { OnOk result ((said : List ℕ) × (string_bytes text.new ≡ string_bytes text.old ++ said)) }
{
    match heard {
        Heard::Whole(message) => push_message(alloc, text, message),
        Heard::Held | Heard::Dropped(_) => Ok(()),
    }
}

/// Adds what a message says.
fn push_message(alloc: Global, text: &mut String, message: &[u8]) -> Result<(), AllocError>
    ensures { OnOk result ((said : List ℕ) × (string_bytes text.new ≡ string_bytes text.old ++ said)) }
{
    let said = message_text(alloc, message)?;
    text.push_str(&said)
}

/// Adds the lines of a message that was captured whole.
fn push_told(
    alloc: Global,
    text: &mut String,
    way: Option<Direction>,
    message: &[u8],
) -> Result<(), AllocError>
    ensures { OnOk result ((said : List ℕ) × (string_bytes text.new ≡ string_bytes text.old ++ (told_line way message.now ++ said))) }
{
    push_told_line(alloc, text, way, message)?;
    push_message(alloc, text, message)
}

fn push_refused(text: &mut String, code: &str) -> Result<(), AllocError>
    ensures { OnOk result (string_bytes text.new ≡ string_bytes text.old ++ (codes " " ++ refused_bytes code.now)) }
{
    write!(text, " refused {code}\n")
}

fn push_other(text: &mut String, protocol: u16) -> Result<(), AllocError>
    ensures { OnOk result (string_bytes text.new ≡ string_bytes text.old ++ (codes " protocol " ++ (decimal protocol ++ codes "\n"))) }
{
    write!(text, " protocol {protocol}\n")
}

fn push_told_line(
    alloc: Global,
    text: &mut String,
    way: Option<Direction>,
    message: &[u8],
) -> Result<(), AllocError>
    ensures { OnOk result (string_bytes text.new ≡ string_bytes text.old ++ told_line way message.now) }
{
    let word = way_word(way);
    let bytes = hex::encode(alloc, message)?;
    write!(text, " {word} {bytes}\n")
}

fn way_word(way: Option<Direction>) -> &'static str
    ensures { result.now ≡ way_word way }
{
    match way {
        None => "message",
        Some(Direction::Sent) => "sent message",
        Some(Direction::Received) => "received message",
    }
}

/// Adds why something isn't read.
fn push_not_read(alloc: Global, text: &mut String, why: Unread) -> Result<(), AllocError>
    ensures { OnOk result (string_bytes text.new ≡ string_bytes text.old ++ (codes " unread " ++ (unread_words why ++ codes "\n"))) }
{
    let words = unread_words(alloc, why)?;
    write!(text, " unread {words}\n")
}

fn unread_words(alloc: Global, why: Unread) -> Result<String, AllocError>
    ensures { IfOk result (λ words. string_bytes words ≡ unread_words why) }
{
    match why {
        Unread::Link(number) => link_words(alloc, number),
        Unread::Pec { told, computed } => pec_words(alloc, told, computed),
        _ => String::from_str(alloc, why.word()),
    }
}

/// A link type that isn't read, and those that are.
pub fn link_words(alloc: Global, number: u32) -> Result<String, AllocError>
    ensures { IfOk result (λ words. string_bytes words ≡ link_words number) }
{
    format!(in alloc; "link {number} (read are 113, 147, 209, 276 and 291)")
}

/// The check byte that a frame has, and the one that is computed, in hex.
fn pec_words(alloc: Global, told: u8, computed: u8) -> Result<String, AllocError>
    ensures { IfOk result (λ words. string_bytes words ≡ codes "pec " ++ (encode_lower (told ∷ []) ++ (codes " computed " ++ encode_lower (computed ∷ [])))) }
{
    let told = hex::encode(alloc, &[told])?;
    let computed = hex::encode(alloc, &[computed])?;
    format!(in alloc; "pec {told} computed {computed}")
}
