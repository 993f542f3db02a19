//! What requests and responses have in common (DSP0236, "MCTP control message format").
ghost use Rattle.std.specs.Prelude.{◌≡◌, ◌<◌};

/// An instance ID, 0 to 31: a response repeats that of its request.
#[derive(Clone, Copy, Debug, PartialEq, Eq)]
pub struct ControlInstanceId {
    /// Five bits: the number.
    pub value: u8,
    pub ghost in_range: { value < 32 },
}

impl ControlInstanceId {
    /// The instance ID of this number, which is below 32.
    pub fn new(value: u8) -> Self
        requires { value < 32 }
        ensures { result.value ≡ value }
    {
        ControlInstanceId { value }
    }
}

/// The second byte of a control message without its Rq bit, which is set in a request and clear in a response.
#[derive(Clone, Copy, Debug, PartialEq, Eq)]
pub struct ControlHeader {
    /// Bit 6, the D bit: set where the sender wants no response.
    pub datagram: bool,
    /// Bit 5, kept as read.
    pub reserved: bool,
    /// Bits 4 to 0: tells the request from others that are under way.
    pub instance: ControlInstanceId,
}

impl ControlHeader {
    ghost use Rattle.std.specs.Prelude.{◌+◌, ◌*◌};
    ghost use Rattle.mctp_control.specs.Headers.{header_value, header_byte};

    /// The header of a byte's bits 6 to 0.
    pub(crate) fn of(bits: u8) -> Self
        requires { bits < 128 }
        ensures { header_byte 0 (header_value result) ≡ bits }
    {
        ControlHeader {
            datagram: bits / 64 != 0,
            reserved: bits / 32 % 2 != 0,
            instance: ControlInstanceId::new(bits % 32),
        }
    }

    /// Bits 6 to 0.
    pub(crate) fn bits(self) -> u8
        ensures { result ≡ header_byte 0 (header_value self) }
    {
        64 * u8::from(self.datagram) + 32 * u8::from(self.reserved) + self.instance.value
    }
}
