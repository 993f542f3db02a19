//! The operations of requests (DSP0236, "Set Endpoint ID" and "Allocate Endpoint IDs"): the first byte after the
//! command.
ghost use Rattle.std.specs.Prelude.{◌≡◌, ◌<◌};

/// What Set Endpoint ID does: bits 1 and 0 of its first byte.
#[derive(Clone, Copy, Debug, PartialEq, Eq)]
pub enum SetOperation {
    /// 0: takes the EID where none is held or the same bus gave it.
    Set = 0,
    /// 1: takes the EID whatever is held.
    Force = 1,
    /// 2: goes back to a static EID.
    Reset = 2,
    /// 3: sets the discovered flag.
    SetDiscovered = 3,
}

impl SetOperation {
    ghost use Rattle.mctp_control.specs.Numbers.{set_number};

    pub(crate) fn from_number(number: u8) -> Self
        requires { number < 4 }
        ensures { set_number result ≡ number }
    {
        match number {
            0 => SetOperation::Set,
            1 => SetOperation::Force,
            2 => SetOperation::Reset,
            _ => SetOperation::SetDiscovered,
        }
    }
}

/// What Allocate Endpoint IDs does: bits 1 and 0 of its first byte.
#[derive(Clone, Copy, Debug, PartialEq, Eq)]
pub enum AllocateOperation {
    /// 0: takes the pool where none is held or the same bus gave it.
    Allocate = 0,
    /// 1: takes the pool whatever is held.
    Force = 1,
    /// 2: tells the present pool.
    GetInformation = 2,
    /// 3: reserved.
    Reserved = 3,
}

impl AllocateOperation {
    ghost use Rattle.mctp_control.specs.Numbers.{allocate_number};

    pub(crate) fn from_number(number: u8) -> Self
        requires { number < 4 }
        ensures { allocate_number result ≡ number }
    {
        match number {
            0 => AllocateOperation::Allocate,
            1 => AllocateOperation::Force,
            2 => AllocateOperation::GetInformation,
            _ => AllocateOperation::Reserved,
        }
    }
}

/// The reserved bits 7 to 2 of an operation's byte, as a number from 0 to 63. They are kept as read.
#[derive(Clone, Copy, Debug, PartialEq, Eq)]
pub struct ReservedBits {
    /// Six bits, of which bit 7 is the highest.
    pub value: u8,
    pub ghost in_range: { value < 64 },
}

impl ReservedBits {
    /// The bits of this number, which is below 64.
    pub fn new(value: u8) -> Self
        requires { value < 64 }
        ensures { result.value ≡ value }
    {
        ReservedBits { value }
    }
}
