// What stands at a place of the arena: a node, a node that is away, or nothing.
ghost use Rattle.std.specs.Prelude.{◌≡◌};

use palm_node::Node;

/// What stands at a place of an arena.
#[derive(Debug, Drop)]
pub enum Place {
    /// No node: its id is free.
    Empty,
    /// A node that is lent: it is in a lease, and comes back.
    Lent,
    /// A node.
    Holds(Node),
}

impl Place {
    // What stands there once more.
    pub(crate) fn copy(&self) -> Place
        ensures { result ≡ self.now }
    {
        match self {
            Place::Empty => Place::Empty,
            Place::Lent => Place::Lent,
            Place::Holds(node) => Place::Holds(node.copy()),
        }
    }
}
