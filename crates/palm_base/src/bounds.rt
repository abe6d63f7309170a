//! How wide the nodes of the table's tree are. Leaves and inner nodes have bounds of their own.

/// The least number of rows of a leaf below the root.
pub const LEAST_LEAF_ROWS: usize = 8;

/// The greatest number of rows of a leaf.
pub const MOST_LEAF_ROWS: usize = 2 * LEAST_LEAF_ROWS;

/// The least number of children of an inner node below the root.
pub const LEAST_CHILDREN: usize = 8;

/// The greatest number of children of an inner node.
pub const MOST_CHILDREN: usize = 2 * LEAST_CHILDREN;

/// The greatest number of levels that a table's tree has. A tree of one level more would have more rows than there are
/// prefixes.
pub const MOST_LEVELS: usize = 17;
