//! Which kit proved this program. None is named here: what tools/build and tools/gate prove from nothing is a copy of
//! these sources, in which they name theirs.

/// What `version` says of it.
pub const PROVED: &str = "no kit is named, so this program is not known to be proved\n";
