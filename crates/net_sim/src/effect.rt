//! What an event does to the packets of a network.
use crate::refusal::Refusal;
use mctp_routing::ForwardFault;
use mctp_transport::{DropCause, Key};

/// What an event does to the packets of a network, their assemblers and the termini. Nodes are places in the plan's
/// list.
#[derive(Debug, Drop)]
pub enum Effect {
    /// The flight of this number was put in at the node.
    PutIn {
        number: u32,
        node: usize,
    },
    /// The flight went on to the node, its hop of this number.
    Moved {
        number: u32,
        node: usize,
        hops: u8,
    },
    /// The flight ended at the node, and its message is open there.
    Held {
        number: u32,
        node: usize,
        key: Key,
    },
    /// The flight ended at the node, and with it its message came, which is these bytes.
    Whole {
        number: u32,
        node: usize,
        key: Key,
        bytes: Vec<u8>,
    },
    /// The flight ended at the node, whose assembler dropped its packet.
    Dropped {
        number: u32,
        node: usize,
        key: Key,
        why: DropCause,
    },
    /// The flight ended on its way.
    Stopped {
        number: u32,
        why: ForwardFault,
    },
    /// The flight was lost.
    Lost {
        number: u32,
    },
    /// The time of a key was up at the node, and a message of the key was open there or not.
    Expired {
        node: usize,
        was_open: bool,
    },
    /// The node's terminus answered, by the flights from the first to the last.
    Answered {
        node: usize,
        first: u32,
        last: u32,
    },
    /// The node's terminus has no answer.
    Silent {
        node: usize,
    },
    /// The node goes by its new rows from now on.
    Switched {
        node: usize,
    },
    /// Nothing has changed.
    Refused(Refusal),
}
