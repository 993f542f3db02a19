//! Two nodes, and whether packets of the one reach the other.

/// Two different nodes, by their places in the plan's list, and how many moves along rows lead from the one to the
/// other.
#[derive(Clone, Copy, Debug, PartialEq, Eq, Drop)]
pub struct Pair {
    pub from: usize,
    pub to: usize,
    /// The number of moves, none where there is no way.
    pub there: Option<usize>,
    /// The number of moves of the way back, none where there is no way.
    pub back: Option<usize>,
}
