//! What a walker makes of a message.
use pdr_repository::{Step, WalkFault};

/// What a walker made of a message that came at its node under the key of its answers.
#[derive(Debug, Drop)]
pub struct Handed {
    /// The walker's number, from 1.
    pub walker: usize,
    pub result: Result<Step, WalkFault>,
}
