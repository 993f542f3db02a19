//! The parts of a packet's header, and the key that they make.
ghost use Rattle.std.specs.Prelude.{◌≡◌, ◌<◌, ◌≤◌, ◌+◌, ◌%◌, ◌↔◌, IsTrue};

/// An endpoint ID (DSP0236, section 8.2): 0 is null, 1 to 7 are reserved, 8 to 254 can be assigned, 255 is broadcast.
#[derive(Clone, Copy, Debug, PartialEq, Eq)]
pub struct Eid {
    /// One byte: the number.
    pub value: u8,
    pub ghost in_range: { value < 256 },
}

impl Eid {
    ghost use Rattle.mctp_transport.specs.PacketValues.{IsAssignable};

    /// The endpoint ID of this number: any byte is one.
    pub fn new(value: u8) -> Self
        ensures { result.value ≡ value }
    {
        Eid { value }
    }

    /// Whether an endpoint can hold it: 8 to 254.
    pub fn is_assignable(self) -> bool
        ensures { IsTrue result ↔ IsAssignable self.value }
    {
        8 <= self.value && self.value <= 254
    }
}

/// A message tag, 0 to 7, in three bits (DSP0236, section 8.1).
#[derive(Clone, Copy, Debug, PartialEq, Eq)]
pub struct Tag {
    /// Three bits: the number.
    pub value: u8,
    pub ghost in_range: { value < 8 },
}

impl Tag {
    /// The tag of this number, which is below 8.
    pub fn new(value: u8) -> Self
        requires { value < 8 }
        ensures { result.value ≡ value }
    {
        Tag { value }
    }
}

/// A packet sequence number, 0 to 3, in two bits (DSP0236, section 8.1). The number after 3 is 0.
#[derive(Clone, Copy, Debug, PartialEq, Eq)]
pub struct Seq {
    /// Two bits: the number.
    pub value: u8,
    pub ghost in_range: { value < 4 },
}

impl Seq {
    /// The sequence number of this value, which is below 4.
    pub fn new(value: u8) -> Self
        requires { value < 4 }
        ensures { result.value ≡ value }
    {
        Seq { value }
    }

    /// The number of the packet after this one.
    pub fn next(self) -> Self
        ensures { result.value ≡ (self.value + 1) % 4 }
    {
        Seq::new((self.value + 1) % 4)
    }
}

/// The reserved bits 7 to 4 of a header's first byte, as a number from 0 to 15. They are kept as read.
#[derive(Clone, Copy, Debug, PartialEq, Eq)]
pub struct Reserved {
    /// Four bits, of which bit 7 is the highest.
    pub value: u8,
    pub ghost in_range: { value < 16 },
}

impl Reserved {
    /// The bits of this number, which is below 16.
    pub fn new(value: u8) -> Self
        requires { value < 16 }
        ensures { result.value ≡ value }
    {
        Reserved { value }
    }
}

/// What tells one message under way to an endpoint from another: the source endpoint ID, the message tag, and
/// whether the source owns the tag (DSP0236, section 8.1).
#[derive(Clone, Copy, Debug, PartialEq, Eq)]
pub struct Key {
    /// One byte: the endpoint ID of the sender.
    pub source: Eid,
    /// Three bits: the message tag.
    pub tag: Tag,
    /// One bit: whether the sender owns the tag.
    pub owner: bool,
}
