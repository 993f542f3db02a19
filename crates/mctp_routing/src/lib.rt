//! What an MCTP bridge decides by (DSP0236, bridging): its routing table, and where it sends a packet. Sections are
//! those of DSP0236 1.3.
#![tactic(auto)]

mod decision;
mod laws;
mod pieces;
mod range_table;
mod row;
mod row_faults;
mod table_fault;

pub use decision::{Decision, ForwardFault, ForwardingNode, decide};
pub use laws::one_list_of_pieces;
pub use mctp_transport::DeviceKind;
pub use pieces::{Piece, Pieces};
pub use range_table::RangeTable;
pub use row::{Hop, TableRow};
pub use table_fault::TableFault;
