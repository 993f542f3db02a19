//! Instance IDs, which tell the requests of one requester from each other.
ghost use Rattle.std.specs.Prelude.{◌≡◌, ◌<◌};

/// An instance ID, 0 to 31, in bits 4 to 0 of a message's second byte (DSP0240, PLDM message fields). An answer has
/// that of its request.
#[derive(Clone, Copy, Debug, PartialEq, Eq)]
pub struct InstanceId {
    /// Five bits: the number.
    pub value: u8,
    pub ghost in_range: { value < 32 },
}

impl InstanceId {
    /// The ID of a number below 32.
    pub fn new(value: u8) -> Self
        requires { value < 32 }
        ensures { result.value ≡ value }
    {
        InstanceId { value }
    }
}
