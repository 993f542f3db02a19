//! Why answers about plans are so, in sentences, and which edits would help.
#![tactic(auto)]

mod causes;
mod certificates;
mod explanations;
mod lookups;
mod pieces;
mod proposals;
mod summaries;

pub use certificates::certificate_fault_lines;
pub use explanations::{around, cause_lines, index_for, obstacle_lines};
pub use proposals::{edit_line, edit_lines, value_text};
pub use summaries::summary_lines;

/// What is said where a certificate is at fault, and its plan has another.
pub const REMEDY: &str =
    "This plan has a certificate.\nHint: take the one that mctpplan certify makes.\n";

/// What is said where a certificate is at fault, and its plan has none.
pub const NO_CERTIFICATE: &str =
    "This plan has no certificate, whatever this one says. mctpplan certify says:\n";
