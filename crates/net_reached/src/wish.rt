//! What a line of a text wants of a plan's nodes.

/// What a line wants. Nodes stand by their places in the plan's list.
#[derive(Clone, Copy, Debug, PartialEq, Eq)]
pub enum Wish<'t> {
    /// Nothing: the line is a remark.
    Nothing { line: &'t str },
    /// Packets of the one node reach the other.
    Reaches { from: usize, to: usize },
    /// Packets of the node reach each node.
    ReachesAll { from: usize },
    /// Packets of the one node don't reach the other.
    Avoids { from: usize, to: usize },
}
