//! What becomes of a packet.
use mctp_routing::ForwardFault;
use mctp_transport::DropCause;

/// Why nothing is sent for a packet.
#[derive(Clone, Copy, Debug, PartialEq, Eq)]
pub enum Reason {
    /// It is for another node, and is not sent on.
    ForwardFault(ForwardFault),
    /// It is for another node, and the port of the row is none of the node's.
    NoPort,
    /// It is for the node, whose assembler drops it.
    Unassembled(DropCause),
    /// With it a message comes that is no request: the tag owner bit is clear.
    NoRequest,
    /// With it a request comes to which there is no answer.
    NoAnswer,
}

/// What a node does with a packet.
#[derive(Debug, Drop)]
pub enum Received {
    /// It sends these packets over the bus, one after another: the packet itself to the next node, or those of the
    /// answer to a request.
    Sent { bus: usize, packets: Vec<Vec<u8>> },
    /// It waits for the next packets of the message.
    Held,
    /// It sends nothing.
    Dropped(Reason),
}
