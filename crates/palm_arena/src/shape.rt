// Where a tree stands in an arena: its root and its height. The nodes below are found from there.
use palm_node::NodeId;

/// Where a tree stands in an arena.
#[derive(Clone, Copy, Debug, PartialEq, Eq)]
pub struct Shape {
    /// Where its root is.
    pub root: NodeId,
    /// How many levels it has. A leaf alone is one level.
    pub levels: u32,
}
