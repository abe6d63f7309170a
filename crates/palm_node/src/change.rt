// What a pass makes of the nodes of a level, as the level below tells the one above.
use crate::id::NodeId;
use crate::path::Path;
use crate::piece_list::PieceList;
use palm_base::{ItemList, RowList};

/// The changes of a level, in order. Contracts see the list.
pub type ChangeList = ItemList<Change>;

/// The inner nodes that were removed with children left, in order. Contracts see the list.
pub type RemovedList = ItemList<Removed>;

/// What a pass makes of a node.
#[derive(Debug, Drop)]
pub struct Change {
    /// Where the node is.
    pub node: NodeId,
    /// The way to it from the root.
    pub path: Path,
    /// The nodes that stand for it, in order. None of them where it was removed.
    pub pieces: PieceList,
}

/// An inner node that a pass removed since too few children were left to it. The children still stand below it. A
/// removed leaf, and an inner node that was left with none, are dropped at once and not listed.
#[derive(Clone, Copy, Debug, PartialEq, Eq)]
pub struct Removed {
    /// Its level, counted from the leaves at 1.
    pub level: u32,
    /// Where it is.
    pub id: NodeId,
}

/// What a pass over a level makes.
#[derive(Debug, Drop)]
pub struct Changes {
    /// The changes of its nodes, from left to right.
    pub nodes: ChangeList,
    /// The rows that are left without a leaf.
    pub loose: RowList,
    /// The inner nodes that it removed with children left. Those that it dropped at once aren't listed.
    pub removed: RemovedList,
}
