//! What the values of a board say, and whether it lacks what a plan needs.
#![tactic(auto)]

mod cut;
mod eids;
mod lacking;
mod lines;
mod owners;
mod said;
mod shares;

pub use cut::is_cut_off;
pub use eids::{eids_text, says_run};
pub use lacking::lacks;
pub use lines::{lacking_words, node_text};
pub use said::{
    board_of_text, has_item, is_left_out, is_list_at, is_number, is_text, item, says_none_or,
    says_number, says_or, says_text,
};
