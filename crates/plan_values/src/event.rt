//! The events of a run of a network.
use mctp_transport::{Eid, Key, Tag};

/// What happens in a run of a network. A node is given by its index in the plan's list, a flight or a walker by its
/// number, from 1 on.
#[derive(Debug, Drop)]
pub enum Event {
    /// A packet is put in at a node. The bytes are the packet's, its MCTP header (DSP0236) among them.
    Put {
        node: usize,
        bytes: Vec<u8>,
    },
    /// A flight goes on from where it is; with `keep` it stays as well, and a new one goes on.
    Move {
        flight: u32,
        keep: bool,
    },
    /// A flight is lost.
    Lose {
        flight: u32,
    },
    /// A node gives up the message of this key that it is assembling.
    Expire {
        node: usize,
        key: Key,
    },
    /// The terminus of a node answers the oldest request that waits there.
    Answer {
        node: usize,
    },
    /// A node forwards by the rows of the new plan from now on.
    Switch {
        node: usize,
    },
    /// A walker is set up at a node: it collects the records of the terminus that holds `eid` (8 to 254), by requests
    /// under `tag`, each of which asks for at most `count` bytes of a record (8 to 4079).
    Walk {
        node: usize,
        eid: Eid,
        tag: Tag,
        count: u16,
    },
    /// A walker puts in its next request, or once more the one that has no answer yet.
    Ask {
        walker: usize,
    },
    /// A walker is asked what it has collected so far.
    Collected {
        walker: usize,
    },
}
