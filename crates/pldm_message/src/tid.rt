//! Terminus IDs.
ghost use Rattle.std.specs.Prelude.{◌≡◌, ◌<◌, ◌↔◌, IsTrue};

/// A terminus ID, in one byte (DSP0240, SetTID): 0 says that none is set, 1 to 254 can be set, 255 is reserved.
#[derive(Clone, Copy, Debug, PartialEq, Eq)]
pub struct Tid {
    /// One byte: the number.
    pub value: u8,
    pub ghost in_range: { value < 256 },
}

impl Tid {
    ghost use Rattle.pldm_message.specs.BaseCommands.{IsAssignableTid};

    /// The terminus ID of any byte.
    pub fn new(value: u8) -> Self
        ensures { result.value ≡ value }
    {
        Tid { value }
    }

    /// Whether a terminus can be given it: 1 to 254.
    pub fn is_assignable(self) -> bool
        ensures { IsTrue result ↔ IsAssignableTid self.value }
    {
        1 <= self.value && self.value <= 254
    }
}
