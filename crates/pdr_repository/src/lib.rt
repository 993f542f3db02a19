//! Record repositories (DSP0248, GetPDR): the check byte of a record, termini that answer requests for their records
//! part by part, and the walk that reads all records of a terminus. Sections are those of DSP0248 1.2.
#![tactic(auto)]

mod answering;
mod block_terminus;
mod commands;
mod crc;
mod handle_index;
mod lawful_list;
mod laws;
mod list_terminus;
mod parts;
mod record_block;
mod record_list;
mod repository;
mod terminus;
mod walk_fault;
mod walker;

pub use block_terminus::BlockTerminus;
pub use crc::crc8;
pub use lawful_list::{MAX_RECORDS, ascend, is_lawful_list, is_record};
pub use laws::{
    collects_once, one_answer, one_check_byte, one_lent_part, requests_are_answered,
    walks_collect_all,
};
pub use list_terminus::ListTerminus;
pub use parts::{MAX_PART, five_packets};
pub use terminus::{MAX_ANSWER, Terminus};
pub use walk_fault::{Step, WalkFault};
pub use walker::Walker;
