//! Captures of a bus: what a capture file (pcap, pcapng) or a text of hex lines holds, packet by packet, and such files that
//! are written.
#![tactic(auto)]

mod block;
mod blocks;
mod capture;
mod carried;
mod file;
mod format;
mod frame;
mod hex_text;
mod interfaces;
mod laws;
mod line;
mod link;
mod options;
mod reading;
mod record;
mod section;
mod smbus;
mod sort;
mod text;
mod time;
mod units;
mod writing;

pub use capture::{
    Capture, CaptureFault, Direction, End, Entry, Interface, Kind, MAX_ENTRIES, Time, Unread,
};
pub use carried::CarriedPacket;
pub use laws::one_list_of_records;
pub use line::{split_word, uncommented};
pub use reading::read_capture;
pub use writing::{add_packet, begin_file, written_reads_back};
