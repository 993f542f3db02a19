//! MCTP packets (DSP0236): what they are made of, their bytes, cutting messages into them and joining them to
//! messages. Sections are those of DSP0236 1.3.
#![tactic(auto)]

mod address;
mod assembler;
mod cutting;
mod device_kind;
mod drop_cause;
mod eid_run;
mod heard;
mod laws;
mod packet;
mod packet_error;
mod wire;

pub use address::{Eid, Key, Reserved, Seq, Tag};
pub use assembler::{Assembler, Fed, MAX_SLOTS};
pub use cutting::{MAX_MESSAGE, Packets, cut_joins, one_cut};
pub use device_kind::DeviceKind;
pub use drop_cause::DropCause;
pub use eid_run::EidRun;
pub use heard::{Heard, hear, idle_assemblers};
pub use laws::{one_spelling, open_keys};
pub use packet::{BASELINE_UNIT, HEADER_LENGTH, Header, MAX_UNIT, Packet, PacketView};
pub use packet_error::PacketError;
pub use wire::{Wire, round_trip};
