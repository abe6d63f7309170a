// A node: a leaf or an inner node. It has all that it needs in itself, so that it moves and is copied as a whole.
ghost use Rattle.std.specs.Prelude.{◌≡◌};

use crate::inner::Inner;
use crate::leaf::Leaf;

/// A node of the tree.
#[derive(Debug, Drop)]
pub enum Node {
    /// A node of rows.
    Leaf(Leaf),
    /// A node of children, which are one level lower.
    Inner(Inner),
}

impl Node {
    /// The same node once more.
    pub fn copy(&self) -> Node
        ensures { result ≡ self.now }
    {
        match self {
            Node::Leaf(leaf) => Node::Leaf(leaf.copy()),
            Node::Inner(inner) => Node::Inner(inner.copy()),
        }
    }
}
