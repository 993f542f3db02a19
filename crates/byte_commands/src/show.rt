//! The command `show`: what bytes are, or why they are nothing.
ghost use Rattle.std.{specs.Prelude.{◌≡◌, IfOk, IfErr}, specs.Cow.{cow_str_bytes}};
ghost use Rattle.net_plan.specs.Stream.{HasRoom};
ghost use Rattle.command_answers.{specs.Answers.{stream}, specs.Told.{Concludes}};
ghost use Rattle.byte_commands.specs.Show.{IsDecoded, IsNotShown, IsShown, ShowsSo};

use command_answers::{Answer, Refused, Status, tell};
use command_questions::ShownKind;
use hex::FromHexError;
use mctp_transport::{PacketView, Wire};
use net_plan::Sink;
use pdr_record::Record;
use plan_texts::{packet_text, record_text, refused_text};
use std::alloc::{AllocError, Global};

/// Says on `output` what the bytes of a hex text are, or why they are refused. Where the text is no hex, says so on
/// `errors`.
pub fn run_show<O: Sink, E: Sink>(
    alloc: Global,
    kind: ShownKind,
    hex: &str,
    output: &mut O,
    errors: &mut E,
) -> Status
    requires output { HasRoom (O.account output.old) }
    requires errors { HasRoom (E.account errors.old) }
    ensures concludes { Concludes (ShowsSo kind hex.now) (IsNotShown hex.now) result
        (stream O.account output.old output.new) (stream E.account errors.old errors.new)
        (output.new ≡ output.old) (errors.new ≡ errors.old) }
{
    let answered = answer_show(alloc, kind, hex);
    tell(alloc, answered, output, errors)
}

fn answer_show(alloc: Global, kind: ShownKind, hex: &str) -> Result<Answer, Refused>
    ensures answers { IfOk result (λ answer. ShowsSo kind hex.now answer.status (cow_str_bytes answer.text)) }
    ensures no_hex { IfErr result (IsNotShown hex.now) }
{
    let bytes = decode(alloc, hex)?;
    Ok(shown(alloc, kind, &bytes)?)
}

/// The bytes of a hex text.
fn decode(alloc: Global, text: &str) -> Result<Vec<u8>, Refused>
    ensures decoded { IfOk result (λ bytes. IsDecoded text.now bytes.items) }
    ensures refused { IfErr result (IsNotShown text.now) }
{
    match hex::decode(alloc, text) {
        Ok(bytes) => Ok(bytes),
        Err(FromHexError::OutOfMemory) => Err(Refused::NoMemory),
        Err(_) => Err(Refused::UnreadableHex),
    }
}

/// What bytes are.
fn shown(alloc: Global, kind: ShownKind, bytes: &[u8]) -> Result<Answer, AllocError>
    ensures { IfOk result (λ shown. IsShown shown.status kind bytes.now (cow_str_bytes shown.text)) }
{
    match kind {
        ShownKind::Packet => shown_packet(alloc, bytes),
        ShownKind::Record => shown_record(alloc, bytes),
    }
}

/// What bytes are as a packet.
fn shown_packet(alloc: Global, bytes: &[u8]) -> Result<Answer, AllocError>
    ensures { IfOk result (λ shown. IsShown shown.status ShownKind.Packet bytes.now (cow_str_bytes shown.text)) }
{
    match PacketView::read(bytes) {
        Ok(packet) => Ok(Answer::found(packet_text(alloc, &packet)?)),
        Err(error) => Ok(Answer::fault(refused_text(alloc, error.code())?)),
    }
}

/// What bytes are as a record.
fn shown_record(alloc: Global, bytes: &[u8]) -> Result<Answer, AllocError>
    ensures { IfOk result (λ shown. IsShown shown.status ShownKind.Record bytes.now (cow_str_bytes shown.text)) }
{
    match Record::read(bytes) {
        Ok(record) => Ok(Answer::found(record_text(alloc, &record)?)),
        Err(error) => Ok(Answer::fault(refused_text(alloc, error.code())?)),
    }
}
