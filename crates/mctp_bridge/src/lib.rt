//! What bridges do (DSP0236, bridging): tables over ranges of endpoint IDs, what a node does with a packet, and how a
//! bridge tells its routing table and another reads it. Sections are those of DSP0236 1.3.
#![tactic(auto)]

mod entry_reader;
mod laws;
mod read_fault;
mod routing_entries;
mod table_part;

pub use entry_reader::{EntryReader, MAX_READ, MAX_TAKEN, NO_MORE};
pub use laws::{asks_what_is_due, every_reply_is_taken, readings_collect_all};
pub use mctp_routing::{
    Decision, DeviceKind, ForwardFault, ForwardingNode, Hop, Piece, Pieces, RangeTable, TableFault,
    TableRow, decide, one_list_of_pieces,
};
pub use read_fault::ReadFault;
pub use routing_entries::{Neighbor, route_entries};
