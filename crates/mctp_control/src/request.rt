//! Requests of control messages (DSP0236, "MCTP control message format").
ghost use Rattle.std.specs.Prelude.{◌≡◌};

use crate::control_error::ControlError;
use crate::header::ControlHeader;
use crate::operations::{AllocateOperation, ReservedBits, SetOperation};
use mctp_transport::{Eid, Wire};

/// What is asked, with its data (DSP0236, the command of the same name). Byte 0 is the first of the data.
#[derive(Clone, Copy, Debug, PartialEq, Eq)]
pub enum ControlCommand {
    /// 0x01: give the device an EID. Two bytes: the operation, the EID.
    SetEndpointId {
        /// Byte 0, bits 1 and 0: what is to be done.
        operation: SetOperation,
        /// Byte 0, bits 7 to 2.
        reserved: ReservedBits,
        /// Byte 1: the endpoint ID that is given.
        eid: Eid,
    },
    /// 0x02: tell the EID and the kind of the device. No bytes.
    GetEndpointId,
    /// 0x08: give a bridge its pool of EIDs. Three bytes: the operation, the number of EIDs,
    /// the first EID.
    AllocateEndpointIds {
        /// Byte 0, bits 1 and 0: what is to be done.
        operation: AllocateOperation,
        /// Byte 0, bits 7 to 2.
        reserved: ReservedBits,
        /// Byte 1: how many endpoint IDs the pool has.
        size: u8,
        /// Byte 2: the first of them.
        first: Eid,
    },
    /// 0x0A: tell the entries of the routing table from this one on. One byte: the entry
    /// handle, 0 for the first.
    GetRoutingTableEntries {
        /// Byte 0: the entry handle.
        handle: u8,
    },
}

/// A request: byte 0x00, the header with the Rq bit set, the command's number, the command's data.
#[derive(Clone, Copy, Debug, PartialEq, Eq)]
pub struct Request {
    /// The first byte behind the message type.
    pub header: ControlHeader,
    /// One byte for the command, and the command's data.
    pub command: ControlCommand,
}

impl ControlCommand {
    ghost use Rattle.std.specs.Prelude.{◌↔◌, ◌≢◌, ◌≤◌, ◌∷◌, ◌++◌, ℕ, List, length, drop, IfOk, IsOkAnd, Err};
    ghost use Rattle.mctp_control.{specs.Requests.{CommandValue, IsCommand, command_bytes, command_value}, specs.Refusals.{IsUnknown, IsCommandLength}};

    /// The command of this number with these data.
    fn read(number: u8, rest: &[u8]) -> Result<Self, ControlError>
        ensures ok { IfOk result (λ v. number ∷ rest.now ≡ command_bytes (command_value v)) }
        ensures all { (m : CommandValue) → IsCommand m → number ∷ rest.now ≡ command_bytes m → IsOkAnd result (λ v. command_value v ≡ m) }
        ensures unknown { (result ≡ Err ControlError.UnknownCommand) ↔ IsUnknown number }
        ensures length { (result ≡ Err ControlError.Length) ↔ (¬ IsUnknown number × ¬ IsCommandLength number (length rest.now)) }
        ensures no_other { (result ≢ Err ControlError.Short) × (result ≢ Err ControlError.OtherMessage) }
    {
        match (number, rest) {
            (1, [operation, eid]) => Ok(ControlCommand::SetEndpointId {
                operation: SetOperation::from_number(operation % 4),
                reserved: ReservedBits::new(operation / 4),
                eid: Eid::new(*eid),
            }),
            (2, []) => Ok(ControlCommand::GetEndpointId),
            (8, [operation, size, first]) => Ok(ControlCommand::AllocateEndpointIds {
                operation: AllocateOperation::from_number(operation % 4),
                reserved: ReservedBits::new(operation / 4),
                size: *size,
                first: Eid::new(*first),
            }),
            (10, [handle]) => Ok(ControlCommand::GetRoutingTableEntries { handle: *handle }),
            (1 | 2 | 8 | 10, _) => Err(ControlError::Length),
            _ => Err(ControlError::UnknownCommand),
        }
    }

    /// How many bytes the number and the data have.
    fn len(self) -> usize
        ensures lawful { IsCommand (command_value self) }
        ensures count { result ≡ length (command_bytes (command_value self)) }
    {
        match self {
            ControlCommand::SetEndpointId { .. } => 3,
            ControlCommand::GetEndpointId => 1,
            ControlCommand::AllocateEndpointIds { .. } => 4,
            ControlCommand::GetRoutingTableEntries { .. } => 2,
        }
    }

    /// Writes the number and the data at the front.
    fn put(&self, out: &mut [u8])
        requires { length (command_bytes (command_value self.now)) ≤ length out.old }
        ensures { out.new ≡ command_bytes (command_value self.now) ++ drop (length (command_bytes (command_value self.now))) out.old }
    {
        match self {
            ControlCommand::SetEndpointId {
                operation,
                reserved,
                eid,
            } => {
                out[0] = 1;
                out[1] = 4 * reserved.value + (*operation as u8);
                out[2] = eid.value;
            }
            ControlCommand::GetEndpointId => out[0] = 2,
            ControlCommand::AllocateEndpointIds {
                operation,
                reserved,
                size,
                first,
            } => {
                out[0] = 8;
                out[1] = 4 * reserved.value + (*operation as u8);
                out[2] = *size;
                out[3] = first.value;
            }
            ControlCommand::GetRoutingTableEntries { handle } => {
                out[0] = 10;
                out[1] = *handle;
            }
        }
    }
}

impl<'a> Wire<'a> for Request {
    ghost use Rattle.std.specs.Prelude.{◌≡◌, ◌↔◌, IfOk, IsOkAnd, Err};
    ghost use Rattle.mctp_control.{specs.Requests.{RequestValue, IsRequest, SpellsRequest, request_bytes, request_value}, specs.RequestLaws.{one_request}, specs.Refusals.{IsShortRequest, IsNoRequest, HasUnknownCommand, HasRequestLength}};

    type Error = ControlError;

    ghost Meaning = { RequestValue };

    ghost meaning = { request_value };

    ghost IsLawful = { IsRequest };

    ghost spelling = { request_bytes };

    /// The request that the bytes are.
    fn read(bytes: &'a [u8]) -> Result<Self, ControlError>
        ensures ok { IfOk result (λ v. SpellsRequest (request_value v) bytes.now) }
        ensures all { (m : RequestValue) → SpellsRequest m bytes.now → IsOkAnd result (λ v. request_value v ≡ m) }
        ensures short { (result ≡ Err ControlError.Short) ↔ IsShortRequest bytes.now }
        ensures other_message { (result ≡ Err ControlError.OtherMessage) ↔ (¬ IsShortRequest bytes.now × IsNoRequest bytes.now) }
        ensures unknown_command { (result ≡ Err ControlError.UnknownCommand)
            ↔ (¬ IsShortRequest bytes.now × ¬ IsNoRequest bytes.now × HasUnknownCommand bytes.now) }
        ensures length { (result ≡ Err ControlError.Length)
            ↔ (¬ IsShortRequest bytes.now × ¬ IsNoRequest bytes.now × ¬ HasUnknownCommand bytes.now × ¬ HasRequestLength bytes.now) }
    {
        let [first, header, number, rest @ ..] = bytes else {
            return Err(ControlError::Short);
        };
        if *first != 0 || *header < 128 {
            return Err(ControlError::OtherMessage);
        }
        let command = ControlCommand::read(*number, rest)?;
        Ok(Request {
            header: ControlHeader::of(header % 128),
            command,
        })
    }

    fn len(&self) -> usize {
        2 + self.command.len()
    }

    fn put(&self, out: &mut [u8]) -> usize {
        out[0] = 0;
        out[1] = 128 + self.header.bits();
        self.command.put(&mut out[2..]);
        self.len()
    }

    ghost one_value = { one_request };
}
