//! What comes of an event.
use crate::effect::Effect;
use crate::handed::Handed;
use crate::standing::Standing;
use crate::walk_refusal::WalkRefusal;

/// What comes of an event. Walkers are numbered from 1.
#[derive(Debug, Drop)]
pub enum Outcome {
    /// What happened to the packets, and what a walker made of the message that came with it, if one was handed it.
    Happened {
        effect: Effect,
        handed: Option<Handed>,
    },
    /// The walk of this walker begins.
    Begun {
        walker: usize,
    },
    /// The walker's request was put in, as the flight of this number.
    Asked {
        walker: usize,
        number: u32,
    },
    /// The walker has collected so many records.
    Collected {
        walker: usize,
        records: usize,
        standing: Standing,
    },
    /// An event of a walk was refused. Nothing has changed.
    Refused(WalkRefusal),
}
