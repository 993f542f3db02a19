//! Marks around the calls that are tried with growths of memory refused, which `tools/try growths` does.
use std::alloc::Global;

/// What a mark tells.
#[derive(Clone, Copy)]
pub enum Mark {
    /// The growths from here on are counted, and may be refused.
    Begins,
    /// Those from here on are not.
    Ends,
    /// A call has answered that memory ran out.
    Lacked,
}

/// Sets a mark: memory of a size that nothing else asks for, and that is let go of at once. The tool never refuses it.
pub fn set_mark(alloc: Global, mark: Mark) {
    let size = match mark {
        Mark::Begins => 1_000_003usize,
        Mark::Ends => 1_000_033,
        Mark::Lacked => 1_000_037,
    };
    let _ = Vec::<u8>::with_capacity(alloc, size);
}

/// Tells by a mark that a call lacked memory. It was to answer so.
pub fn lacked(alloc: Global) -> bool {
    set_mark(alloc, Mark::Lacked);
    true
}
