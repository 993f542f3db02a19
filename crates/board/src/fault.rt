//! Why a text is no board.
use std::alloc::{AllocError, AllocFailed};

/// Why a text is no board.
#[derive(Drop)]
pub enum BoardError {
    /// The text says at a line and a column, both from 1, what can't stand there.
    Unread {
        line: usize,
        column: usize,
        /// What stands there and what may.
        reason: String,
    },
    /// There is too little memory.
    OutOfMemory,
}

impl From<AllocError> for BoardError {
    fn from(_error: AllocError) -> BoardError {
        BoardError::OutOfMemory
    }
}

impl<T: Drop> From<AllocFailed<T>> for BoardError {
    fn from(_error: AllocFailed<T>) -> BoardError {
        BoardError::OutOfMemory
    }
}
