//! How a walk stands.
use pdr_repository::WalkFault;

/// Whether a walk goes on.
#[derive(Clone, Copy, Debug, PartialEq, Eq)]
pub enum Standing {
    /// Something is still to be asked.
    Open,
    /// All records are collected.
    Done,
    /// This fault has ended it.
    Ended(WalkFault),
}
