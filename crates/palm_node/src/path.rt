// The way down to a node, kept in fixed room: each inner node that is passed, and beside it the place of the child
// taken there, of which there are so few that a byte holds it. Here is the way through the root 4 to its child 3,
// which is node 9, and on to the first child of that:
//
//     nodes           4 | 9 | -  ..  -     128 bytes
//     children        3 | 0 | -  ..  -      16 bytes
//     how many steps  2                      8 bytes
//
// It is 152 bytes wide. The steps past those that count are what they were made or left as, and none reads them. So
// a path is copied as a whole, with no look at how many steps it has.
ghost use Rattle.std.specs.Prelude.{◌≡◌, ◌<◌, ◌≤◌, ◌++◌, ◌∷◌, [], length, take, ◌==◌};
ghost use Rattle.std.specs.Prelude.{slice_get, Some};

use crate::id::NodeId;
use palm_base::{MOST_CHILDREN, MOST_LEVELS};
use std::marker::Model;

/// The greatest number of steps of a path: one from each level to the next.
pub const MOST_PATH: usize = MOST_LEVELS - 1;

/// A way down from the root: the inner nodes passed, and the place of the child taken at each. Contracts see the list
/// of these pairs.
#[derive(Debug, Drop)]
pub struct Path {
    nodes: [NodeId; MOST_PATH],
    children: [u8; MOST_PATH],
    len: usize,
}

impl Model for Path {
    ghost use Rattle.std.specs.Prelude.{List, ℕ, take};
    ghost use Rattle.std.specs.List.{zip};
    ghost use Rattle.palm_node.specs.declared.id.NodeId.{NodeId};
    ghost use Rattle.palm_node.specs.PathSteps.{HoldsPath};

    ghost Value = { List (NodeId × ℕ) };

    ghost view = { λ a. take a.len (zip a.nodes a.children) };

    ghost invariant = { λ a. HoldsPath a.nodes a.children a.len };
}

impl Path {
    /// The path that ends at the root: no steps.
    pub fn new() -> Path
        ensures { result ≡ [] }
    {
        Path {
            nodes: [NodeId::default(); MOST_PATH],
            children: [0; MOST_PATH],
            len: 0,
        }
    }

    /// The same path once more.
    pub fn copy(&self) -> Path
        ensures { result ≡ self.now }
    {
        Path {
            nodes: self.nodes,
            children: self.children,
            len: self.len,
        }
    }

    /// The number of steps.
    pub fn len(&self) -> usize
        ensures len { result ≡ length self.now }
        ensures most { result ≤ MOST_PATH }
    {
        self.len
    }

    /// Whether there is no step.
    pub fn is_empty(&self) -> bool
        ensures { result ≡ (length self.now == 0) }
    {
        self.len() == 0
    }

    /// The step at a place, counted from the root.
    pub fn get(&self, i: usize) -> (NodeId, usize)
        requires { i < length self.now }
        ensures { slice_get self.now i ≡ Some result }
    {
        let nodes = &self.nodes;
        let children = &self.children;
        (nodes[i], usize::from(children[i]))
    }

    /// The first steps of the path, so many of them.
    pub fn front(&self, len: usize) -> Path
        requires { len ≤ length self.now }
        ensures { result ≡ take len self.now }
    {
        Path {
            nodes: self.nodes,
            children: self.children,
            len,
        }
    }

    /// Adds a step at the end: from this inner node to its child at this place.
    pub fn push(&mut self, node: NodeId, child: usize)
        requires room { length self.old < MOST_PATH }
        requires child { child < MOST_CHILDREN }
        ensures { self.new ≡ self.old ++ (node, child) ∷ [] }
    {
        let len = self.len;
        self.nodes[len] = node;
        self.children[len] = child as u8;
        self.len = len + 1;
    }
}
