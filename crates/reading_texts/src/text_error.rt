//! Why a text doesn't read.
use net_pointers::TextTrouble;

/// What is wrong with a text, and the lines that tell it.
#[derive(Drop)]
pub struct TextFault {
    pub trouble: TextTrouble,
    pub lines: String,
}

/// Why a text doesn't read.
#[derive(Drop)]
pub enum TextError {
    /// It has this fault.
    Faulty(TextFault),
    /// There was too little memory.
    OutOfMemory,
}
