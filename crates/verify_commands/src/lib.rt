//! The command `verify` of `mctpplan`: whether all that a folder has of a network fits together.
#![tactic(auto)]

mod boards;
mod files;
mod fit;
mod folder;
mod names;
mod parts;
mod plans;
mod report;
mod runs;
mod unjudged;
mod verify;
mod wanted;

pub use files::FilesInFolder;
pub use folder::FolderFiles;
pub use verify::{Verification, run_verify};
