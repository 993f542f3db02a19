//! Messages that were heard, by who asked whom: control messages, and requests for parts of records and for terminus IDs
//! with their answers.
ghost use Rattle.std.specs.Prelude.{◌≡◌, ◌⊎◌, ◌++◌, ℕ, IfOk, OnOk, MatchOption, Option, map, option_map};
ghost use Rattle.heard_captures.specs.Messages.{message_value};
ghost use Rattle.mctp_control.{specs.Requests.{command_value}, specs.Responses.{answer_value}};
ghost use Rattle.audited_captures.specs.Words.{WordValue, word_value, number_asked, number_answered, IsRequestWord, IsResponseWord, IsAskingWord, IsTellingWord, IsTidAskingWord, IsTidTellingWord, IsPartHeader, IsPartTold, told_part, IsQuestion, IsReply, IsWord, IsNoWord, IsMisowned, IsNotMisowned, AddsWord, AreWords};
ghost use Rattle.pdr_repository.specs.Parts.{PartAnswer};
ghost use Rattle.pldm_message.{specs.HeaderValues.{header_value}, specs.Heads.{outcome_value}, specs.PdrValues.{part}};

use heard_captures::Message;
use mctp_control::{ControlAnswer, ControlCommand, Request, Response};
use mctp_transport::{Eid, Tag, Wire};
use pldm_message::{
    Command, CompletionCode, GetPdrAnswer, GetPdrRequest, GetTid, GetTidAnswer, MessageKind,
    PdrPart, PldmHeader, Tid,
};
use std::alloc::{AllocError, Global};

/// The number of what asks for parts of records and tells them. No control command has it.
const GET_PDR: u16 = 337;

/// The same of terminus IDs.
const GET_TID: u16 = 258;

/// What an answer to a request for a part of a record tells: the part, or why there is none; nothing where its bytes are
/// no such answer.
pub type PartTold<'m> = Option<Result<PdrPart<'m>, CompletionCode>>;

/// What a message says: it asks, or it answers.
#[derive(Debug, Drop)]
pub enum Body<'m> {
    Asks(ControlCommand),
    Answers(ControlAnswer),
    /// Asks for a part of a record.
    AsksPart(GetPdrRequest),
    /// Answers that.
    TellsPart(PartTold<'m>),
    /// Asks for the terminus ID.
    AsksTid,
    /// Answers that: the ID, or why there is none.
    TellsTid(Result<Tid, CompletionCode>),
}

impl<'m> Body<'m> {
    ghost use Rattle.std.specs.Prelude.{◌≡◌};
    ghost use Rattle.audited_captures.specs.Words.{body_value, command_of, is_question};

    /// Whether it asks.
    pub fn is_question(&self) -> bool
        ensures { result ≡ is_question (body_value self.now) }
    {
        match self {
            Body::Asks(_) | Body::AsksPart(_) | Body::AsksTid => true,
            Body::Answers(_) | Body::TellsPart(_) | Body::TellsTid(_) => false,
        }
    }

    /// The number of the command that is asked or answered.
    pub fn command(&self) -> u16
        ensures { result ≡ command_of (body_value self.now) }
    {
        match self {
            Body::Asks(command) => number_of_command(command),
            Body::Answers(answer) => number_of_answer(answer),
            Body::AsksPart(_) | Body::TellsPart(_) => GET_PDR,
            Body::AsksTid | Body::TellsTid(_) => GET_TID,
        }
    }
}

/// A message that was heard whole, and that asks or answers.
#[derive(Debug, Drop)]
pub struct Word<'m> {
    /// The endpoint ID that asks, and gets the answer.
    pub requester: Eid,
    /// The endpoint ID that is asked, and answers.
    pub responder: Eid,
    pub tag: Tag,
    /// The instance ID.
    pub instance: u8,
    pub body: Body<'m>,
}

/// What messages say that ask and answer, in their order.
pub fn words_of(alloc: Global, messages: &[Message]) -> Result<Vec<Word<'_>>, AllocError>
    ensures { IfOk result (λ words. AreWords (map message_value messages.now) (map word_value words.items)) }
{
    let mut words = Vec::new(alloc);
    for message in messages {
        add_word(&mut words, message)?;
    }
    Ok(words)
}

/// Adds what a message says, if it asks or answers.
fn add_word<'m>(words: &mut Vec<Word<'m>>, message: &'m Message) -> Result<(), AllocError>
    ensures { OnOk result (AddsWord (message_value message.now) (map word_value words.old.items) (map word_value words.new.items)) }
{
    match word_of(message) {
        Some(word) => Ok(words.push(word)?),
        None => Ok(()),
    }
}

/// What a message says: it asks where its sender owns the tag, and else it answers. None where it does neither.
fn word_of(message: &Message) -> Option<Word<'_>>
    ensures { MatchOption result (IsNoWord (message_value message.now)) (λ word. IsWord (message_value message.now) (word_value word)) }
{
    if message.owner {
        asking(message)
    } else {
        answering(message)
    }
}

/// What the bytes of a message say that says the wrong of who owns its tag: they ask where its sender doesn't own it, or
/// answer where it does.
pub fn misowned(message: &Message) -> Option<Word<'_>>
    ensures { MatchOption result (IsNotMisowned (message_value message.now)) (λ word. IsMisowned (message_value message.now) (word_value word)) }
{
    if message.owner {
        answering(message)
    } else {
        asking(message)
    }
}

/// What the bytes of a message ask.
fn asking(message: &Message) -> Option<Word<'_>>
    ensures { MatchOption result ((w : WordValue) → ¬ IsQuestion (message_value message.now) w) (λ word. IsQuestion (message_value message.now) (word_value word)) }
{
    match request_of(message) {
        Some(word) => Some(word),
        None => pldm_asking(message),
    }
}

fn pldm_asking(message: &Message) -> Option<Word<'_>>
    ensures { MatchOption result ((w : WordValue) → ¬ (IsAskingWord (message_value message.now) w ⊎ IsTidAskingWord (message_value message.now) w)) (λ word. IsAskingWord (message_value message.now) (word_value word) ⊎ IsTidAskingWord (message_value message.now) (word_value word)) }
{
    match part_request_of(message) {
        Some(word) => Some(word),
        None => tid_request_of(message),
    }
}

/// What the bytes of a message answer.
fn answering(message: &Message) -> Option<Word<'_>>
    ensures { MatchOption result ((w : WordValue) → ¬ IsReply (message_value message.now) w) (λ word. IsReply (message_value message.now) (word_value word)) }
{
    match response_of(message) {
        Some(word) => Some(word),
        None => pldm_answering(message),
    }
}

fn pldm_answering(message: &Message) -> Option<Word<'_>>
    ensures { MatchOption result ((w : WordValue) → ¬ (IsTellingWord (message_value message.now) w ⊎ IsTidTellingWord (message_value message.now) w)) (λ word. IsTellingWord (message_value message.now) (word_value word) ⊎ IsTidTellingWord (message_value message.now) (word_value word)) }
{
    match part_answer_of(message) {
        Some(word) => Some(word),
        None => tid_answer_of(message),
    }
}

fn request_of(message: &Message) -> Option<Word<'_>>
    ensures { MatchOption result ((w : WordValue) → ¬ IsRequestWord (message_value message.now) w) (λ word. IsRequestWord (message_value message.now) (word_value word)) }
{
    match Request::read(&message.bytes) {
        Ok(request) => Some(Word {
            requester: message.source,
            responder: message.destination,
            tag: message.tag,
            instance: request.header.instance.value,
            body: Body::Asks(request.command),
        }),
        Err(_) => None,
    }
}

fn response_of(message: &Message) -> Option<Word<'_>>
    ensures { MatchOption result ((w : WordValue) → ¬ IsResponseWord (message_value message.now) w) (λ word. IsResponseWord (message_value message.now) (word_value word)) }
{
    match Response::read(&message.bytes) {
        Ok(response) => Some(Word {
            requester: message.destination,
            responder: message.source,
            tag: message.tag,
            instance: response.header.instance.value,
            body: Body::Answers(response.answer),
        }),
        Err(_) => None,
    }
}

fn part_request_of(message: &Message) -> Option<Word<'_>>
    ensures { MatchOption result ((w : WordValue) → ¬ IsAskingWord (message_value message.now) w) (λ word. IsAskingWord (message_value message.now) (word_value word)) }
{
    match GetPdrRequest::read(&message.bytes) {
        Ok(request) => Some(Word {
            requester: message.source,
            responder: message.destination,
            tag: message.tag,
            instance: request.head.instance.value,
            body: Body::AsksPart(request),
        }),
        Err(_) => None,
    }
}

/// What begins as an answer to a request for a part of a record.
fn part_answer_of(message: &Message) -> Option<Word<'_>>
    ensures { MatchOption result ((w : WordValue) → ¬ IsTellingWord (message_value message.now) w) (λ word. IsTellingWord (message_value message.now) (word_value word)) }
{
    match PldmHeader::front(&message.bytes) {
        Ok(header) => told_part(message, &header),
        Err(_) => None,
    }
}

/// The word of a message that begins with this header.
fn told_part<'m>(message: &'m Message, header: &PldmHeader) -> Option<Word<'m>>
    ensures { MatchOption result (¬ IsPartHeader (header_value header.now)) (λ word. IsPartHeader (header_value header.now) × ((told : Option PartAnswer) × IsPartTold (message_value message.now).bytes told × (word_value word ≡ told_part (message_value message.now) (header_value header.now) told))) }
{
    if header.kind == MessageKind::Response && header.is_of(Command::GetPdr) {
        return Some(Word {
            requester: message.destination,
            responder: message.source,
            tag: message.tag,
            instance: header.instance.value,
            body: Body::TellsPart(part_told(&message.bytes)),
        });
    }
    None
}

fn part_told(bytes: &[u8]) -> PartTold<'_>
    ensures { IsPartTold bytes.now (option_map (outcome_value part) result) }
{
    match GetPdrAnswer::read(bytes) {
        Ok(answer) => Some(answer.outcome),
        Err(_) => None,
    }
}

fn tid_request_of(message: &Message) -> Option<Word<'_>>
    ensures { MatchOption result ((w : WordValue) → ¬ IsTidAskingWord (message_value message.now) w) (λ word. IsTidAskingWord (message_value message.now) (word_value word)) }
{
    match GetTid::read(&message.bytes) {
        Ok(request) => Some(Word {
            requester: message.source,
            responder: message.destination,
            tag: message.tag,
            instance: request.head.instance.value,
            body: Body::AsksTid,
        }),
        Err(_) => None,
    }
}

fn tid_answer_of(message: &Message) -> Option<Word<'_>>
    ensures { MatchOption result ((w : WordValue) → ¬ IsTidTellingWord (message_value message.now) w) (λ word. IsTidTellingWord (message_value message.now) (word_value word)) }
{
    match GetTidAnswer::read(&message.bytes) {
        Ok(answer) => Some(Word {
            requester: message.destination,
            responder: message.source,
            tag: message.tag,
            instance: answer.head.instance.value,
            body: Body::TellsTid(answer.outcome),
        }),
        Err(_) => None,
    }
}

fn number_of_command(command: &ControlCommand) -> u16
    ensures { result ≡ number_asked (command_value command.now) }
{
    match command {
        ControlCommand::SetEndpointId { .. } => 1,
        ControlCommand::GetEndpointId => 2,
        ControlCommand::AllocateEndpointIds { .. } => 8,
        ControlCommand::GetRoutingTableEntries { .. } => 10,
    }
}

fn number_of_answer(answer: &ControlAnswer) -> u16
    ensures { result ≡ number_answered (answer_value answer.now) }
{
    match answer {
        ControlAnswer::SetEndpointId { .. } => 1,
        ControlAnswer::GetEndpointId { .. } => 2,
        ControlAnswer::AllocateEndpointIds { .. } => 8,
        ControlAnswer::GetRoutingTableEntries { .. } => 10,
        ControlAnswer::Failed { command, .. } => u16::from(*command as u8),
    }
}
