// The lease of a node that is lent: the arena has nothing at its place until the lease is given back.
ghost use Rattle.std.specs.Prelude.{◌≡◌};
ghost use Rattle.std.specs.Borrow.{sem};
ghost use Rattle.palm_arena.specs.LendsNode.{LendsNode};

use palm_node::{Node, NodeId};
use std::marker::Model;

/// A node that an arena lends, to be changed. Contracts see its id and the node.
///
/// It can't be dropped: `Arena::give_back` takes it.
#[derive(Debug)]
pub struct Lease {
    pub(crate) id: NodeId,
    pub(crate) node: Node,
}

impl Model for Lease {
    ghost use Rattle.palm_arena.specs.LeaseState.{LeaseState};

    ghost Value = { LeaseState };

    ghost view = { λ a. record { id = a.id; node = a.node } };
}

impl Lease {
    /// The id of the node, at whose place it has to be given back.
    pub fn id(&self) -> NodeId
        ensures { result ≡ self.now.id }
    {
        self.id
    }

    /// The node, to be read.
    pub fn node(&self) -> &Node
        ensures { result.now ≡ self.now.node }
    {
        &self.node
    }

    /// The node, to be changed. What is written shows in the lease.
    pub fn node_mut(&mut self) -> &mut Node
        ensures* writes_back { sem 𝓛 (LendsNode self.entry result) }
        ensures value { result.now ≡ self.old.node }
    {
        &mut self.node
    }
}
