//! What is lawful in a plan, and still looks wrong.
use mctp_transport::Eid;

/// What looks wrong, and whom it is about. A node or a bus is told by its index in the plan's list; a port, a row or a
/// record by its index in its node's list.
#[derive(Clone, Copy, Debug, PartialEq, Eq)]
pub enum Finding {
    /// H01: two ports on one bus have one address. The second port comes later in the plan.
    SharedAddress {
        node: usize,
        port: usize,
        other: usize,
        other_port: usize,
    },
    /// H02: a port has no address, and another on its bus has one.
    MissingAddress {
        node: usize,
        port: usize,
    },
    /// H03: two termini have one terminus ID, which is not 0. The second node comes later in the plan.
    SharedTid {
        node: usize,
        other: usize,
    },
    /// H04: a terminus has no valid locator of its own terminus ID and endpoint ID.
    MissingLocator {
        node: usize,
    },
    /// H05: a record is a numeric or state sensor's, and an earlier one of its terminus is one with the same sensor ID.
    SharedSensorId {
        node: usize,
        record: usize,
    },
    /// H06: the topmost owner of a node has no way to it.
    OwnerHasNoWay {
        node: usize,
        owner: usize,
    },
    /// H07: a node has no way to its topmost owner.
    NoWayToOwner {
        node: usize,
        owner: usize,
    },
    /// H08: none of a row's endpoint IDs is held by a node or lies in a pool.
    IdleRow {
        node: usize,
        row: usize,
    },
    /// H09: an endpoint ID of a bridge's pool is held by another node, and the bridge has no row for it.
    PoolEidNotLedOn {
        node: usize,
        eid: Eid,
    },
    /// H10: a port is the only one on its bus.
    LonePort {
        node: usize,
        port: usize,
    },
    /// H11: a record is a numeric sensor's whose least readable value is over its greatest one.
    EmptyReadableRange {
        node: usize,
        record: usize,
    },
    /// H12: a node has no rows, and no node has a row for its endpoint ID.
    Isolated {
        node: usize,
    },
    /// H13: a bus has media of another physical transport binding than its own.
    ForeignMedia {
        bus: usize,
    },
    /// H14: a bus has the reserved binding 0.
    ReservedBinding {
        bus: usize,
    },
    /// H15: the address of a port is reserved on its bus.
    ReservedAddress {
        node: usize,
        port: usize,
    },
    /// H16: no port is on a bus.
    EmptyBus {
        bus: usize,
    },
    /// H17: a record is a numeric sensor's, of whose thresholds a lower one is over a higher one.
    CrossedThresholds {
        node: usize,
        record: usize,
    },
    /// H18: a record is a numeric or state sensor's, and no terminus locator of its terminus has its terminus handle.
    UnknownTerminusHandle {
        node: usize,
        record: usize,
    },
    /// H19: a record is a numeric or state sensor's, and no entity association of its terminus contains its entity.
    UncontainedEntity {
        node: usize,
        record: usize,
    },
    /// H20: the address of a port is odd, and on its bus bit 0 is no part of an address.
    OddAddress {
        node: usize,
        port: usize,
    },
    /// H21: the address of a port has a length that addresses on its bus don't have.
    ForeignLength {
        node: usize,
        port: usize,
    },
    /// H22: the plan's transmission unit is more than a packet on a bus can carry.
    UncarriedUnit {
        bus: usize,
    },
    /// H23: two ports on one bus have addresses that differ in bit 0 alone, and there it is no part of an address. The
    /// second port comes later in the plan.
    SharedSevenBits {
        node: usize,
        port: usize,
        other: usize,
        other_port: usize,
    },
}
