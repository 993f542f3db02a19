//! Why a plan breaks a rule at an index.
use mctp_transport::Eid;
use pdr_record::RecordError;

/// Why a plan breaks a rule at an index, and who else is involved. A node is told by its index in the plan's list; a
/// row or a record by its index in its node's list.
#[derive(Clone, Copy, Debug, PartialEq, Eq)]
pub enum Cause {
    /// C01: an earlier node has the node's name.
    SharedName { earlier: usize },
    /// C02: the endpoint ID is one of those that can't be assigned.
    UnassignableEid,
    /// C03: an earlier node holds the endpoint ID.
    SharedEid { earlier: usize },
    /// C04: the row covers nothing, or more than can be assigned.
    RowOutOfRange,
    /// C05: an earlier row of the node covers one of the row's endpoint IDs.
    OverlappedRow { earlier: usize, eid: Eid },
    /// C06: the row leads back to its own node.
    NextIsItself,
    /// C06: the node has no such port.
    NoSuchPort,
    /// C06: the next node has no port on the bus of the row's port.
    NextNotOnBus { bus: usize },
    /// C06: the row covers several endpoint IDs and leads to an endpoint.
    EndpointForSeveral,
    /// C07: the owner is no bridge.
    OwnerIsEndpoint { owner: usize },
    /// C07: the owner shares no bus with the node.
    OwnerSharesNoBus { owner: usize },
    /// C08: the endpoint ID lies outside the owner's pool, or the owner has none.
    OutsideOwnersPool { owner: usize },
    /// C08: the endpoint ID lies in the pool of a bridge that has the node's owner; the bridge may be the node itself.
    InPeersPool { peer: usize },
    /// C09: a node with a pool is no bridge.
    PoolOfEndpoint,
    /// C09: the pool is empty, or reaches beyond what can be assigned.
    PoolOutOfRange,
    /// C09: an endpoint ID of the pool lies outside the owner's pool, or the owner has none.
    PoolBeyondOwners { owner: usize, eid: Eid },
    /// C09: an earlier node with the node's owner has an endpoint ID of the pool in its own.
    PoolsMeet { earlier: usize, eid: Eid },
    /// C11: the holder is another node, and the row's next node is an endpoint that doesn't hold the endpoint ID.
    NextIsEndpoint { holder: usize },
    /// C11: the holder is another node, and the row's next node is a bridge without a row for the endpoint ID.
    NextHasNoRow { holder: usize },
    /// C12: the terminus has no records.
    NoRecords,
    /// C12: the record's handle is 0.
    HandleIsZero,
    /// C12: an earlier record of the terminus has the record's handle.
    SharedHandle { earlier: usize },
    /// C13: the bytes are not those of a record, and why.
    UnreadableRecord { why: RecordError },
    /// C13: the bytes are those of a record with another handle in its header.
    OtherHandle { handle: u32 },
    /// C15: the value of the locator, which has this terminus ID, is not one byte long.
    LongLocator { tid: u8 },
    /// C15: no node holds the endpoint ID of the locator, which has this terminus ID.
    NobodyHolds { tid: u8 },
    /// C15: this node holds the endpoint ID of the locator, which has this terminus ID; no holder's terminus has it.
    OtherTerminus { holder: usize, tid: u8 },
}
