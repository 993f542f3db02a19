//! Which PLDM types a terminus has.
ghost use Rattle.std.specs.Prelude.{◌≡◌, ◌↔◌, IsTrue, length};

use crate::header::PldmType;

/// The bytes of a set of PLDM types.
pub const TYPES_LENGTH: usize = 8;

/// A set of PLDM types, in 8 bytes: bit j of byte i says whether it has type 8 i + j (DSP0240, GetPLDMTypes).
#[derive(Clone, Copy, Debug, PartialEq, Eq)]
pub struct PldmTypes {
    /// Eight bytes: bit j of byte i says whether type 8 i + j is there.
    pub bits: [u8; 8],
    pub ghost eight: { length bits ≡ 8 },
}

impl PldmTypes {
    ghost use Rattle.pldm_message.specs.BaseCommands.{HasType};

    /// The set of these bits.
    pub fn new(bits: [u8; 8]) -> Self
        ensures { result.bits ≡ bits }
    {
        PldmTypes { bits }
    }

    /// The set that these eight bytes are.
    pub fn of(bytes: &[u8]) -> Self
        requires { length bytes.now ≡ 8 }
        ensures { result.bits ≡ bytes.now }
    {
        let mut bits = [0; TYPES_LENGTH];
        bits.copy_from_slice(bytes);
        PldmTypes { bits }
    }

    /// Whether the type is in the set.
    pub fn has(&self, pldm_type: PldmType) -> bool
        ensures { IsTrue result ↔ HasType self.now.bits pldm_type.value }
    {
        let byte = self.bits[usize::from(pldm_type.value / 8)];
        byte >> (pldm_type.value % 8) & 1 == 1
    }
}
