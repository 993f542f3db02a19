//! What is asked of words alone.

/// A question that words answer: the command of the name asks it.
#[derive(Clone, Copy)]
pub enum WordQuestion {
    /// What does each field of the record hold, whose bytes the words are in hex?
    Describe,
    /// What are the bytes of the record whose type and fields the words say?
    Record,
}

/// What bytes are shown as.
#[derive(Clone, Copy)]
pub enum ShownKind {
    Packet,
    Record,
}
