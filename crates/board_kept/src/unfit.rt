//! Why a checked plan is not fit.
use std::alloc::{AllocError, AllocFailed};

/// Why a checked plan is not fit for a board, or for the plan of which it was made. Nodes are named by their indices.
#[derive(Clone, Copy, Debug, PartialEq, Eq)]
pub enum Unfit {
    /// Something that is given is not in the plan.
    NotKept,
    /// The one node is to reach the other, and it does not.
    Unreached { from: usize, to: usize },
    /// There is too little memory.
    OutOfMemory,
}

impl From<AllocError> for Unfit {
    fn from(_error: AllocError) -> Unfit {
        Unfit::OutOfMemory
    }
}

impl<T: Drop> From<AllocFailed<T>> for Unfit {
    fn from(_error: AllocFailed<T>) -> Unfit {
        Unfit::OutOfMemory
    }
}
