//! The statuses in responses (DSP0236, "Set Endpoint ID", "Get Endpoint ID", "Allocate Endpoint IDs").
ghost use Rattle.std.specs.Prelude.{◌≡◌, ◌<◌};

use crate::operations::ReservedBits;

/// Whether a device took the EID or the pool that it was given.
#[derive(Clone, Copy, Debug, PartialEq, Eq)]
pub enum Acceptance {
    /// 0: taken.
    Accepted = 0,
    /// 1: not taken.
    Rejected = 1,
    /// 2: reserved.
    Reserved2 = 2,
    /// 3: reserved.
    Reserved3 = 3,
}

impl Acceptance {
    ghost use Rattle.mctp_control.specs.Numbers.{acceptance_number};

    fn from_number(number: u8) -> Self
        requires { number < 4 }
        ensures { acceptance_number result ≡ number }
    {
        match number {
            0 => Acceptance::Accepted,
            1 => Acceptance::Rejected,
            2 => Acceptance::Reserved2,
            _ => Acceptance::Reserved3,
        }
    }
}

/// Whether a device wants a pool of EIDs.
#[derive(Clone, Copy, Debug, PartialEq, Eq)]
pub enum Allocation {
    /// 0: it uses none.
    NoPool = 0,
    /// 1: it wants one.
    Required = 1,
    /// 2: it has one.
    Received = 2,
    /// 3: reserved.
    Reserved = 3,
}

impl Allocation {
    ghost use Rattle.mctp_control.specs.Numbers.{allocation_number};

    fn from_number(number: u8) -> Self
        requires { number < 4 }
        ensures { allocation_number result ≡ number }
    {
        match number {
            0 => Allocation::NoPool,
            1 => Allocation::Required,
            2 => Allocation::Received,
            _ => Allocation::Reserved,
        }
    }
}

/// What a device is.
#[derive(Clone, Copy, Debug, PartialEq, Eq)]
pub enum EndpointType {
    /// 0: an endpoint and no more.
    Simple = 0,
    /// 1: a bridge or a bus owner.
    Bridge = 1,
    /// 2: reserved.
    Reserved2 = 2,
    /// 3: reserved.
    Reserved3 = 3,
}

impl EndpointType {
    ghost use Rattle.mctp_control.specs.Numbers.{endpoint_number};

    fn from_number(number: u8) -> Self
        requires { number < 4 }
        ensures { endpoint_number result ≡ number }
    {
        match number {
            0 => EndpointType::Simple,
            1 => EndpointType::Bridge,
            2 => EndpointType::Reserved2,
            _ => EndpointType::Reserved3,
        }
    }
}

/// Where a device's EID is from.
#[derive(Clone, Copy, Debug, PartialEq, Eq)]
pub enum EidType {
    /// 0: it is given.
    Dynamic = 0,
    /// 1: the device may have a static one.
    Static = 1,
    /// 2: it is the static one.
    StaticPresent = 2,
    /// 3: it is given in place of the static one.
    StaticReplaced = 3,
}

impl EidType {
    ghost use Rattle.mctp_control.specs.Numbers.{eid_type_number};

    fn from_number(number: u8) -> Self
        requires { number < 4 }
        ensures { eid_type_number result ≡ number }
    {
        match number {
            0 => EidType::Dynamic,
            1 => EidType::Static,
            2 => EidType::StaticPresent,
            _ => EidType::StaticReplaced,
        }
    }
}

/// Two reserved bits, as a number from 0 to 3.
#[derive(Clone, Copy, Debug, PartialEq, Eq)]
pub struct ReservedPair {
    /// Two bits.
    pub value: u8,
    pub ghost in_range: { value < 4 },
}

impl ReservedPair {
    /// The bits of this number, which is below 4.
    pub fn new(value: u8) -> Self
        requires { value < 4 }
        ensures { result.value ≡ value }
    {
        ReservedPair { value }
    }
}

/// The first byte of a response to Set Endpoint ID. Bits 7, 6, 3 and 2 are kept as read.
#[derive(Clone, Copy, Debug, PartialEq, Eq)]
pub struct SetStatus {
    /// Bits 7 and 6.
    pub high: ReservedPair,
    /// Bits 5 and 4: whether the EID was taken.
    pub acceptance: Acceptance,
    /// Bits 3 and 2.
    pub low: ReservedPair,
    /// Bits 1 and 0: whether the device wants a pool.
    pub allocation: Allocation,
}

impl SetStatus {
    ghost use Rattle.mctp_control.{specs.Numbers.{acceptance_number, allocation_number}, specs.Statuses.{pairs_byte, set_status}};

    /// The status with clear reserved bits.
    pub fn new(acceptance: Acceptance, allocation: Allocation) -> Self
        ensures { set_status result ≡ record { high = 0; second = acceptance_number acceptance; third = 0; low = allocation_number allocation } }
    {
        SetStatus {
            high: ReservedPair::new(0),
            acceptance,
            low: ReservedPair::new(0),
            allocation,
        }
    }

    pub(crate) fn of(byte: u8) -> Self
        ensures { pairs_byte (set_status result) ≡ byte }
    {
        SetStatus {
            high: ReservedPair::new(byte / 64),
            acceptance: Acceptance::from_number(byte / 16 % 4),
            low: ReservedPair::new(byte / 4 % 4),
            allocation: Allocation::from_number(byte % 4),
        }
    }

    pub(crate) fn byte(self) -> u8
        ensures { result ≡ pairs_byte (set_status self) }
    {
        64 * self.high.value
            + 16 * (self.acceptance as u8)
            + 4 * self.low.value
            + (self.allocation as u8)
    }
}

/// The second byte of a response to Get Endpoint ID. Bits 7, 6, 3 and 2 are kept as read.
#[derive(Clone, Copy, Debug, PartialEq, Eq)]
pub struct EndpointStatus {
    /// Bits 7 and 6.
    pub high: ReservedPair,
    /// Bits 5 and 4: what the device is.
    pub endpoint: EndpointType,
    /// Bits 3 and 2.
    pub low: ReservedPair,
    /// Bits 1 and 0: where its EID is from.
    pub eid: EidType,
}

impl EndpointStatus {
    ghost use Rattle.mctp_control.{specs.Numbers.{endpoint_number, eid_type_number}, specs.Statuses.{pairs_byte, endpoint_status}};

    /// The status with clear reserved bits.
    pub fn new(endpoint: EndpointType, eid: EidType) -> Self
        ensures { endpoint_status result ≡ record { high = 0; second = endpoint_number endpoint; third = 0; low = eid_type_number eid } }
    {
        EndpointStatus {
            high: ReservedPair::new(0),
            endpoint,
            low: ReservedPair::new(0),
            eid,
        }
    }

    pub(crate) fn of(byte: u8) -> Self
        ensures { pairs_byte (endpoint_status result) ≡ byte }
    {
        EndpointStatus {
            high: ReservedPair::new(byte / 64),
            endpoint: EndpointType::from_number(byte / 16 % 4),
            low: ReservedPair::new(byte / 4 % 4),
            eid: EidType::from_number(byte % 4),
        }
    }

    pub(crate) fn byte(self) -> u8
        ensures { result ≡ pairs_byte (endpoint_status self) }
    {
        64 * self.high.value + 16 * (self.endpoint as u8) + 4 * self.low.value + (self.eid as u8)
    }
}

/// The first byte of a response to Allocate Endpoint IDs.
#[derive(Clone, Copy, Debug, PartialEq, Eq)]
pub struct PoolStatus {
    /// Bits 7 to 2, kept as read.
    pub reserved: ReservedBits,
    /// Bits 1 and 0: whether the pool was taken.
    pub acceptance: Acceptance,
}

impl PoolStatus {
    ghost use Rattle.mctp_control.{specs.Numbers.{acceptance_number}, specs.Statuses.{pool_byte, pool_status}};

    /// The status with clear reserved bits.
    pub fn new(acceptance: Acceptance) -> Self
        ensures { pool_status result ≡ record { reserved = 0; acceptance = acceptance_number acceptance } }
    {
        PoolStatus {
            reserved: ReservedBits::new(0),
            acceptance,
        }
    }

    pub(crate) fn of(byte: u8) -> Self
        ensures { pool_byte (pool_status result) ≡ byte }
    {
        PoolStatus {
            reserved: ReservedBits::new(byte / 4),
            acceptance: Acceptance::from_number(byte % 4),
        }
    }

    pub(crate) fn byte(self) -> u8
        ensures { result ≡ pool_byte (pool_status self) }
    {
        4 * self.reserved.value + (self.acceptance as u8)
    }
}
