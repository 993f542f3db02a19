//! The command line of `mctpplan`: the command that words stand for, the files at its paths, and hints at a terminal.
#![tactic(auto)]

mod files;
mod hints;
mod subcommand;

pub use files::{FileAtPath, FileToWrite, FilesAtPaths, FilesBeside};
pub use hints::{hint_node, hint_nodes, hint_record, hint_words};
pub use program_texts::{GUIDE, VERSION};
pub use subcommand::{Subcommand, links_of_words, parse_command, words};
