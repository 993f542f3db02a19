//! Responses of control messages (DSP0236, "MCTP control message format").
ghost use Rattle.std.specs.Prelude.{◌≡◌, ◌<◌, ◌≤◌, ◌++◌, length, drop};

use crate::command_number::CommandNumber;
use crate::control_error::ControlError;
use crate::entries::{Entries, MAX_ENTRY_BYTES, byte_count, put_table};
use crate::header::ControlHeader;
use crate::statuses::{EndpointStatus, PoolStatus, SetStatus};
use mctp_transport::{Eid, Wire};

/// A completion code other than 0x00, which is success (DSP0236, "MCTP control message completion codes"): 0x01 error,
/// 0x02 invalid data, 0x03 invalid length, 0x04 not ready, 0x05 unsupported command, and others.
#[derive(Clone, Copy, Debug, PartialEq, Eq)]
pub struct CompletionCode {
    /// One byte, 1 to 255.
    pub code: u8,
    pub ghost no_success: { 0 < code },
}

impl CompletionCode {
    /// A field of the request has a value that is not allowed.
    pub const INVALID_DATA: CompletionCode = CompletionCode { code: 0x02 };
    /// The request has more or fewer bytes than its command.
    pub const INVALID_LENGTH: CompletionCode = CompletionCode { code: 0x03 };
    /// The device has no such command.
    pub const UNSUPPORTED_COMMAND: CompletionCode = CompletionCode { code: 0x05 };

    /// The completion code of this number, which is not 0x00.
    pub fn new(code: u8) -> Self
        requires { 0 < code }
        ensures { result.code ≡ code }
    {
        CompletionCode { code }
    }
}

/// What is answered, with its data. Byte 0 is the first behind the completion code.
#[derive(Debug, PartialEq, Eq, Drop)]
pub enum ControlAnswer {
    /// Success of 0x01, Set Endpoint ID. Three bytes: the status, the device's EID, the size of the pool that it wants.
    SetEndpointId {
        /// Byte 0: whether the endpoint ID was taken, and whether a pool is wanted.
        status: SetStatus,
        /// Byte 1: the device's endpoint ID.
        eid: Eid,
        /// Byte 2: how many endpoint IDs it wants for its pool.
        size: u8,
    },
    /// Success of 0x02, Get Endpoint ID. Three bytes: the device's EID (0: none), its status, a byte for the medium.
    GetEndpointId {
        /// Byte 0: the device's endpoint ID, 0 where it has none.
        eid: Eid,
        /// Byte 1: the kind of the device, and of its endpoint ID.
        status: EndpointStatus,
        /// Byte 2: information of the medium.
        medium: u8,
    },
    /// Success of 0x08, Allocate Endpoint IDs. Three bytes: the status, the size of the pool, its first EID.
    AllocateEndpointIds {
        /// Byte 0: whether the pool was taken.
        status: PoolStatus,
        /// Byte 1: how many endpoint IDs the pool has.
        size: u8,
        /// Byte 2: the first of them.
        first: Eid,
    },
    /// Success of 0x0A, Get Routing Table Entries: the next entry handle (0xFF: no more), the number of entries, the
    /// entries.
    GetRoutingTableEntries {
        /// Byte 0: the handle of the next entry, 0xFF where there is no more.
        next: u8,
        /// Byte 1 for their number, and then their bytes.
        entries: Entries,
    },
    /// Another completion code than success. Nothing follows.
    Failed {
        /// The command that was asked for.
        command: CommandNumber,
        /// The completion code.
        failure: CompletionCode,
    },
}

/// A response: byte 0x00, the header with the Rq bit clear, the command's number, the completion code, the data. At
/// most 64 bytes.
#[derive(Debug, PartialEq, Eq, Drop)]
pub struct Response {
    /// The first byte behind the message type.
    pub header: ControlHeader,
    /// One byte for the command that is answered, one for the completion code, and what follows it.
    pub answer: ControlAnswer,
}

impl ControlAnswer {
    ghost use Rattle.std.specs.Prelude.{◌↔◌, ◌≢◌, ◌≤◌, ◌∷◌, ◌++◌, ℕ, List, length, drop, IfOk, IfErr, IsOkAnd, Err};
    ghost use Rattle.mctp_control.{specs.Responses.{AnswerValue, IsAnswer, answer_bytes, answer_value}, specs.Refusals.{IsUnknown, IsAnswerData, IsTableData}};

    /// The answer to the command of this number with this completion code and these data.
    fn read(number: u8, code: u8, rest: &[u8]) -> Result<Self, ControlError>
        ensures ok { IfOk result (λ v. IsAnswer (answer_value v) × (number ∷ code ∷ rest.now ≡ answer_bytes (answer_value v))) }
        ensures all { (m : AnswerValue) → IsAnswer m → number ∷ code ∷ rest.now ≡ answer_bytes m → IsOkAnd result (λ v. answer_value v ≡ m) }
        ensures unknown { (result ≡ Err ControlError.UnknownCommand) ↔ IsUnknown number }
        ensures length { (result ≡ Err ControlError.Length) ↔ (¬ IsUnknown number × ¬ IsAnswerData number code rest.now) }
        ensures no_other { (result ≢ Err ControlError.Short) × (result ≢ Err ControlError.OtherMessage) }
    {
        let command = CommandNumber::of(number).ok_or(ControlError::UnknownCommand)?;
        match (number, code, rest) {
            (1, 0, [status, eid, size]) => Ok(ControlAnswer::SetEndpointId {
                status: SetStatus::of(*status),
                eid: Eid::new(*eid),
                size: *size,
            }),
            (2, 0, [eid, status, medium]) => Ok(ControlAnswer::GetEndpointId {
                eid: Eid::new(*eid),
                status: EndpointStatus::of(*status),
                medium: *medium,
            }),
            (8, 0, [status, size, first]) => Ok(ControlAnswer::AllocateEndpointIds {
                status: PoolStatus::of(*status),
                size: *size,
                first: Eid::new(*first),
            }),
            (10, 0, [next, count, entries @ ..]) => ControlAnswer::table(*next, *count, entries),
            (_, 1.., []) => Ok(ControlAnswer::Failed {
                command,
                failure: CompletionCode::new(code),
            }),
            _ => Err(ControlError::Length),
        }
    }

    /// A part of a table: `count` entries, which are all of the bytes.
    fn table(next: u8, count: u8, bytes: &[u8]) -> Result<Self, ControlError>
        ensures ok { IfOk result (λ v. IsAnswer (answer_value v) × (10 ∷ 0 ∷ next ∷ count ∷ bytes.now ≡ answer_bytes (answer_value v))) }
        ensures all { (m : AnswerValue) → IsAnswer m → 10 ∷ 0 ∷ next ∷ count ∷ bytes.now ≡ answer_bytes m → IsOkAnd result (λ v. answer_value v ≡ m) }
        ensures length { (result ≡ Err ControlError.Length) ↔ ¬ IsTableData (next ∷ count ∷ bytes.now) }
        ensures only { IfErr result (λ e. e ≡ ControlError.Length) }
    {
        if bytes.len() > MAX_ENTRY_BYTES {
            return Err(ControlError::Length);
        }
        match Entries::read(count, bytes) {
            Some(entries) => Ok(ControlAnswer::GetRoutingTableEntries { next, entries }),
            None => Err(ControlError::Length),
        }
    }

    /// How many bytes the number, the code and the data have.
    pub(crate) fn len(&self) -> usize
        ensures lawful { IsAnswer (answer_value self.now) }
        ensures count { result ≡ length (answer_bytes (answer_value self.now)) }
    {
        // What is read here is known to be a byte.
        match self {
            ControlAnswer::SetEndpointId { size, .. } => {
                let _size = *size;
                5
            }
            ControlAnswer::GetEndpointId { medium, .. } => {
                let _medium = *medium;
                5
            }
            ControlAnswer::AllocateEndpointIds { size, .. } => {
                let _size = *size;
                5
            }
            ControlAnswer::GetRoutingTableEntries { next, entries } => {
                let _next = *next;
                4 + byte_count(entries.items.as_slice())
            }
            ControlAnswer::Failed { failure, .. } => {
                let _code = failure.code;
                2
            }
        }
    }

    /// Writes the number, the code and the data at the front.
    pub(crate) fn put(&self, out: &mut [u8])
        requires { length (answer_bytes (answer_value self.now)) ≤ length out.old }
        ensures { out.new ≡ answer_bytes (answer_value self.now) ++ drop (length (answer_bytes (answer_value self.now))) out.old }
    {
        match self {
            ControlAnswer::SetEndpointId { status, eid, size } => {
                put_front(out, [1, 0, status.byte(), eid.value, *size]);
            }
            ControlAnswer::GetEndpointId {
                eid,
                status,
                medium,
            } => put_front(out, [2, 0, eid.value, status.byte(), *medium]),
            ControlAnswer::AllocateEndpointIds {
                status,
                size,
                first,
            } => put_front(out, [8, 0, status.byte(), *size, first.value]),
            ControlAnswer::GetRoutingTableEntries { next, entries } => {
                put_table(*next, entries.items.as_slice(), out);
            }
            ControlAnswer::Failed { command, failure } => {
                put_front(out, [*command as u8, failure.code]);
            }
        }
    }
}

/// Writes these bytes at the front.
fn put_front<const N: usize>(out: &mut [u8], bytes: [u8; N])
    requires { N ≤ length out.old }
    ensures { out.new ≡ bytes.entry ++ drop N out.old }
{
    out[..N].copy_from_slice(&bytes);
}

impl<'a> Wire<'a> for Response {
    ghost use Rattle.std.specs.Prelude.{◌≡◌, ◌↔◌, IfOk, IsOkAnd, Err};
    ghost use Rattle.mctp_control.{specs.Responses.{ResponseValue, IsResponse, SpellsResponse, response_bytes, response_value}, specs.ResponseLaws.{one_response}, specs.Refusals.{IsShortResponse, IsNoResponse, HasUnknownCommand, HasResponseLength}};

    type Error = ControlError;

    ghost Meaning = { ResponseValue };

    ghost meaning = { response_value };

    ghost IsLawful = { IsResponse };

    ghost spelling = { response_bytes };

    /// The response that the bytes are.
    fn read(bytes: &'a [u8]) -> Result<Self, ControlError>
        ensures ok { IfOk result (λ v. SpellsResponse (response_value v) bytes.now) }
        ensures all { (m : ResponseValue) → SpellsResponse m bytes.now → IsOkAnd result (λ v. response_value v ≡ m) }
        ensures short { (result ≡ Err ControlError.Short) ↔ IsShortResponse bytes.now }
        ensures other_message { (result ≡ Err ControlError.OtherMessage) ↔ (¬ IsShortResponse bytes.now × IsNoResponse bytes.now) }
        ensures unknown_command { (result ≡ Err ControlError.UnknownCommand)
            ↔ (¬ IsShortResponse bytes.now × ¬ IsNoResponse bytes.now × HasUnknownCommand bytes.now) }
        ensures length { (result ≡ Err ControlError.Length)
            ↔ (¬ IsShortResponse bytes.now × ¬ IsNoResponse bytes.now × ¬ HasUnknownCommand bytes.now × ¬ HasResponseLength bytes.now) }
    {
        let [first, header, number, code, rest @ ..] = bytes else {
            return Err(ControlError::Short);
        };
        if *first != 0 || *header >= 128 {
            return Err(ControlError::OtherMessage);
        }
        let answer = ControlAnswer::read(*number, *code, rest)?;
        Ok(Response {
            header: ControlHeader::of(*header),
            answer,
        })
    }

    fn len(&self) -> usize {
        2 + self.answer.len()
    }

    fn put(&self, out: &mut [u8]) -> usize {
        out[0] = 0;
        out[1] = self.header.bits();
        self.answer.put(&mut out[2..]);
        self.len()
    }

    ghost one_value = { one_response };
}
