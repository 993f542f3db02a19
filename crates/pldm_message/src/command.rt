//! The commands that this crate has messages of (DSP0240, messaging control and discovery; DSP0248, GetPDR).
ghost use Rattle.std.specs.Prelude.{◌≡◌};

use crate::header::PldmType;

/// A command, with its PLDM type and its byte in the header.
#[derive(Clone, Copy, Debug, PartialEq, Eq)]
pub enum Command {
    /// Type 0, command 0x01 (DSP0240, SetTID).
    SetTid,
    /// Type 0, command 0x02 (DSP0240, GetTID).
    GetTid,
    /// Type 0, command 0x04 (DSP0240, GetPLDMTypes).
    GetPldmTypes,
    /// Type 2, command 0x51 (DSP0248, GetPDR).
    GetPdr,
}

impl Command {
    ghost use Rattle.pldm_message.specs.Commands.{type_of, command_byte};

    /// 0 for messaging control and discovery, 2 for platform monitoring and control.
    pub fn pldm_type(self) -> PldmType
        ensures { result.value ≡ type_of self }
    {
        match self {
            Command::SetTid | Command::GetTid | Command::GetPldmTypes => {
                PldmType::MESSAGING_CONTROL
            }
            Command::GetPdr => PldmType::PLATFORM_MONITORING,
        }
    }

    /// The header's command byte, its fourth.
    pub fn byte(self) -> u8
        ensures { result ≡ command_byte self }
    {
        match self {
            Command::SetTid => 0x01,
            Command::GetTid => 0x02,
            Command::GetPldmTypes => 0x04,
            Command::GetPdr => 0x51,
        }
    }
}
