// How nodes are named.

/// The id of a node: its place in the arena.
#[derive(Clone, Copy, Debug, Default, PartialEq, Eq, PartialOrd, Ord, Hash)]
pub struct NodeId {
    /// The place, counted from 0.
    pub place: usize,
}

/// One of the nodes that stand for an old one, as the level above is told of it.
// It has a default since a list of pieces has places in itself, and needs a value for those that hold none yet. No
// such value is read.
#[derive(Clone, Copy, Debug, Default, PartialEq, Eq)]
pub struct Piece {
    /// The packed key at which its range begins: the separator to its left in the node above, and 0 of a first
    /// child, which has none.
    pub low: u64,
    /// Its place in the arena.
    pub id: NodeId,
}
