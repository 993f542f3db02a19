//! The lines of `faults`, and where in the text of a plan a fault stands.
#![tactic(auto)]

mod fault_lists;
mod places;

pub use fault_lists::{fault_lines, more_line, run_words, words_with_more};
pub use places::{
    obstacle_place, obstacle_pointer, part_pointer, pointer_place, record_pointer, row_pointer,
    run_pointer, way_pointer,
};
