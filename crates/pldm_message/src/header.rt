//! The four bytes that each PLDM message begins with.
ghost use Rattle.std.specs.Prelude.{◌≡◌, ◌<◌};

use crate::command::Command;
use crate::instance::InstanceId;
use crate::kind::MessageKind;
use crate::pldm_error::PldmError;
use mctp_transport::Wire;

/// The bytes of a header, with MCTP's message type.
pub const HEADER_LENGTH: usize = 4;

/// A PLDM type, 0 to 63 (DSP0245).
#[derive(Clone, Copy, Debug, PartialEq, Eq)]
pub struct PldmType {
    /// Six bits: the number.
    pub value: u8,
    pub ghost in_range: { value < 64 },
}

impl PldmType {
    /// 0: messaging control and discovery (DSP0240).
    pub const MESSAGING_CONTROL: PldmType = PldmType { value: 0 };
    /// 2: platform monitoring and control (DSP0248).
    pub const PLATFORM_MONITORING: PldmType = PldmType { value: 2 };

    /// The type of a number below 64.
    pub fn new(value: u8) -> Self
        requires { value < 64 }
        ensures { result.value ≡ value }
    {
        PldmType { value }
    }
}

/// A message's header: its first four bytes, which are MCTP's message type, then Rq in bit 7, D in bit 6, a reserved
/// bit and the instance ID in bits 4 to 0, then the header version in bits 7 and 6 and the PLDM type in bits 5 to 0,
/// then the command (DSP0240, PLDM message fields). The message type is 1 and the header version 0, so neither is kept.
#[derive(Clone, Copy, Debug, PartialEq, Eq)]
pub struct PldmHeader {
    /// Byte 1, bits 7 and 6: request, response or a request that wants no answer.
    pub kind: MessageKind,
    /// Byte 1, bit 5, as it was read.
    pub reserved: bool,
    /// Byte 1, bits 4 to 0: the instance ID.
    pub instance: InstanceId,
    /// Byte 2, bits 5 to 0: the PLDM type.
    pub pldm_type: PldmType,
    /// Byte 3: the command, any byte. Which commands there are depends on the PLDM type.
    pub command: u8,
    pub ghost in_range: { command < 256 },
}

impl PldmHeader {
    ghost use Rattle.std.{specs.Prelude.{◌≡◌, ◌↔◌, IsTrue, IfOk, IsOkAnd, None, false}, specs.Result.{result_err}};
    ghost use Rattle.pldm_message.{specs.Commands.{type_of, command_byte}, specs.Headers.{HeaderValue, BeginsWith}, specs.HeaderValues.{header_value}, specs.Faults.{HeaderFault}};

    /// The header that a message begins with, whatever follows it. Else the first cause of L01 for fewer than 4 bytes,
    /// L02 for another message type, L03 for another header version, and L05 for Rq 0 with D 1.
    pub fn front(message: &[u8]) -> Result<PldmHeader, PldmError>
        ensures ok { IfOk result (λ h. BeginsWith (header_value h) message.now) }
        ensures all { (m : HeaderValue) → BeginsWith m message.now → IsOkAnd result (λ h. header_value h ≡ m) }
        ensures fault { HeaderFault message.now (result_err result) (result_err result ≡ None) }
    {
        let [message_type, instance, version, command, ..] = message else {
            return Err(PldmError::Short);
        };
        if *message_type != 1 {
            return Err(PldmError::MessageType);
        }
        if version / 64 != 0 {
            return Err(PldmError::Version);
        }
        let kind = match instance / 64 {
            0 => MessageKind::Response,
            1 => return Err(PldmError::ReservedKind),
            2 => MessageKind::Request,
            _ => MessageKind::Datagram,
        };
        Ok(PldmHeader {
            kind,
            reserved: instance / 32 % 2 != 0,
            instance: InstanceId::new(instance % 32),
            pldm_type: PldmType::new(*version),
            command: *command,
        })
    }

    /// The header of the answer to a request with this header: a response with the reserved bit clear.
    pub fn answer(&self) -> PldmHeader
        ensures { header_value result ≡ record (header_value self.now) { kind = MessageKind.Response; reserved = false } }
    {
        PldmHeader {
            kind: MessageKind::Response,
            reserved: false,
            instance: self.instance,
            pldm_type: self.pldm_type,
            command: self.command,
        }
    }

    /// Whether it has the PLDM type and command byte of this command.
    pub fn is_of(&self, command: Command) -> bool
        ensures { IsTrue result ↔ ((self.now.pldm_type.value ≡ type_of command) × (self.now.command ≡ command_byte command)) }
    {
        self.pldm_type == command.pldm_type() && self.command == command.byte()
    }
}

impl<'a> Wire<'a> for PldmHeader {
    ghost use Rattle.std.{specs.Prelude.{◌≡◌, ◌++◌, ℕ, List, length, drop, IfOk, IsOkAnd}, specs.Result.{result_err}};
    ghost use Rattle.mctp_transport.specs.Wire.{Spells};
    ghost use Rattle.pldm_message.{specs.Headers.{HeaderValue, IsHeader, header_bytes}, specs.HeaderLaws.{one_header}, specs.HeaderValues.{header_value}, specs.Faults.{MessageFault}};

    type Error = PldmError;

    ghost Meaning = { HeaderValue };

    ghost meaning = { header_value };

    ghost IsLawful = { IsHeader };

    ghost spelling = { header_bytes };

    /// The header that the four bytes are. Else the first cause of `front`, and L04 where there are more bytes.
    fn read(bytes: &'a [u8]) -> Result<Self, PldmError>
        ensures ok { IfOk result (λ h. Spells IsHeader header_bytes (header_value h) bytes.now) }
        ensures all { (m : HeaderValue) → Spells IsHeader header_bytes m bytes.now → IsOkAnd result (λ h. header_value h ≡ m) }
        ensures fault { MessageFault (Unit {0}) 4 bytes.now (result_err result) }
    {
        let header = PldmHeader::front(bytes)?;
        if bytes.len() != HEADER_LENGTH {
            return Err(PldmError::Length);
        }
        Ok(header)
    }

    fn len(&self) -> usize {
        HEADER_LENGTH
    }

    fn put(&self, out: &mut [u8]) -> usize {
        out[0] = 1;
        out[1] = 64 * self.kind.bits() + 32 * u8::from(self.reserved) + self.instance.value;
        out[2] = self.pldm_type.value;
        out[3] = self.command;
        HEADER_LENGTH
    }

    ghost one_value = { one_header };
}
