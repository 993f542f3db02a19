//! What all termini do with a request (DSP0240, PLDM message fields).
ghost use Rattle.std.specs.Prelude.{◌≡◌, ◌≤◌, [], length, false, MatchOption};
ghost use Rattle.pldm_message.{specs.declared.command.Command.{Command}, specs.Headers.{BeginsWith}, specs.HeaderValues.{header_value}, specs.Heads.{outcome_value}};
ghost use Rattle.pdr_repository.{specs.Answers.{Answers, IsAsked, IsOf, answer_of}, specs.Replying.{IsAskedFor, NamesCommand, Replies}};
ghost use Rattle.pldm_message.specs.declared.kind.MessageKind.TheVariants as kind;

use crate::commands::{get_pdr, get_pldm_types, get_tid, set_tid};
use crate::repository::Repository;
use crate::terminus::MAX_ANSWER;
use arrayvec::ArrayVec;
use mctp_transport::Wire;
use pldm_message::{
    Command, CompletionCode, ErrorResponse, GetPdrAnswer, GetPldmTypesAnswer, GetTidAnswer,
    InstanceId, MessageKind, PldmHeader, PldmType, ResponseHead, SetTidAnswer, Tid,
};

/// The header of a request that is to be answered.
fn asked(request: &[u8]) -> Option<PldmHeader>
    ensures { MatchOption result (¬ IsAsked request.now) (λ h. BeginsWith (header_value h) request.now × (h.kind ≡ kind.Request)) }
{
    let header = PldmHeader::front(request).ok()?;
    if header.kind == MessageKind::Request {
        Some(header)
    } else {
        None
    }
}

/// The command of a header, if it is known.
#[tactic(auto, using(crate::proofs::CommandLaws::none_of))]
fn command_of(header: &PldmHeader) -> Option<Command>
    ensures { MatchOption result ((c : Command) → ¬ IsOf c (header_value header.now)) (λ c. IsOf c (header_value header.now)) }
{
    if header.is_of(Command::SetTid) {
        return Some(Command::SetTid);
    }
    if header.is_of(Command::GetTid) {
        return Some(Command::GetTid);
    }
    if header.is_of(Command::GetPldmTypes) {
        return Some(Command::GetPldmTypes);
    }
    if header.is_of(Command::GetPdr) {
        return Some(Command::GetPdr);
    }
    None
}

/// The command of a header, or the code that is answered where its PLDM type or its command is unknown.
fn known_command(header: &PldmHeader) -> Result<Command, CompletionCode>
    ensures { NamesCommand (header_value header.now) (outcome_value (λ c. c) result) }
{
    let pldm_type = header.pldm_type;
    if pldm_type != PldmType::MESSAGING_CONTROL && pldm_type != PldmType::PLATFORM_MONITORING {
        return Err(CompletionCode::INVALID_PLDM_TYPE);
    }
    command_of(header).ok_or(CompletionCode::UNSUPPORTED_COMMAND)
}

/// Writes an answer, in place of what stands there.
fn write<'a, W: Wire<'a>>(answer: &W, out: &mut ArrayVec<u8, MAX_ANSWER>)
    requires { length (W.spelling (W.meaning answer.now)) ≤ 4096 }
    ensures { out.new.items ≡ W.spelling (W.meaning answer.now) }
{
    // What stands there is written over.
    let len = answer.len();
    out.truncate(len);
    for _byte in out.len()..len {
        out.push(0);
    }
    let _ = answer.put(out.as_mut_slice());
}

/// Carries out a request with this command, and writes its answer.
fn reply<R: Repository>(
    tid: &mut Tid,
    records: &R,
    command: Command,
    instance: InstanceId,
    request: &[u8],
    out: &mut ArrayVec<u8, MAX_ANSWER>,
)
    requires { IsAskedFor command request.now }
    ensures { Replies command instance.value tid.old.value (R.records records.now) request.now out.new.items tid.new.value }
{
    let head = ResponseHead::new(instance);
    match command {
        Command::SetTid => {
            let outcome = set_tid(tid, request);
            write(&SetTidAnswer { head, outcome }, out);
        }
        Command::GetTid => {
            let outcome = get_tid(*tid, request);
            write(&GetTidAnswer { head, outcome }, out);
        }
        Command::GetPldmTypes => {
            let outcome = get_pldm_types(request);
            write(&GetPldmTypesAnswer { head, outcome }, out);
        }
        Command::GetPdr => {
            let outcome = get_pdr(records, request);
            write(&GetPdrAnswer { head, outcome }, out);
        }
    }
}

/// Writes the answer to a request of a terminus with this TID and these records, as `Terminus::answer` says.
pub(crate) fn answer_request<R: Repository>(
    tid: &mut Tid,
    records: &R,
    request: &[u8],
    out: &mut ArrayVec<u8, MAX_ANSWER>,
) -> bool
    ensures answered { Answers tid.old.value (R.records records.now) request.now (answer_of result out.new.items) tid.new.value }
    ensures silent { result ≡ false → out.new.items ≡ [] }
{
    let Some(header) = asked(request) else {
        out.clear();
        return false;
    };
    match known_command(&header) {
        Ok(command) => reply(tid, records, command, header.instance, request, out),
        Err(code) => {
            let header = header.answer();
            write(&ErrorResponse { header, code }, out);
        }
    }
    true
}
