// The tree: one table's rows in an arena's nodes, between two batches.
ghost use Rattle.std.specs.Prelude.{◌≡◌, ◌<◌, [], length, IfOk, None};
ghost use Rattle.std.proofs.Common.{zero};
ghost use Rattle.palm_base.specs.Key.{key};
ghost use Rattle.palm_base.specs.Table.{rate_at, best_for};
ghost use Rattle.palm_base.specs.Tree.{rows_of, levels_of};
ghost use Rattle.palm_tree.specs.TreeValue.{leaf_alone, tree_in};

use crate::floor::{Jump, jump_from};
use palm_arena::{Arena, Shape};
use palm_base::{Amount, Digits, NoMemory, Row, Steps};
use palm_node::{Leaf, Node, NodeId};
use std::alloc::Global;
use std::marker::{Brand, Model};
use std::sync::ledger::{Blank, Ledger};

/// A lawful B+ tree of a table's rows, with no batch under way. Contracts see its nodes at their ids, its shape,
/// and the ids that the latest batch moved. `tree_in` is the tree that they are, without the ids.
#[derive(Debug, Drop)]
pub struct Tree {
    /// The nodes, by their ids.
    pub arena: Arena,
    /// Where the tree stands among them.
    pub shape: Shape,
    /// How many rows the leaves have in all.
    pub rows: u64,
}

impl Model for Tree {
    ghost use Rattle.palm_tree.specs.TreeValue.{TreeState, HoldsTree};

    ghost Value = { TreeState };

    ghost view = { λ a. record {
      places = a.arena.places;
      shape = a.shape;
      moved = a.arena.moved;
    } };

    ghost invariant = { λ a. HoldsTree a.arena a.shape a.rows };
}

// An arena of an empty leaf alone, made with a counter of its own.
fn one_leaf<L: Ledger>(alloc: Global, blank: Blank) -> Result<(Arena, NodeId), NoMemory>
    requires blank_name { blank.name ≡ L.name }
    requires blank_parts { blank.parts ≡ L.parts }
    requires blank { 0 < blank.parts }
    ensures { IfOk result (λ (arena, root). (arena.begun ≡ None) × (arena.places ≡ leaf_alone root)) }
{
    let mut steps = Steps::<L>::new(blank);
    let mut arena = Arena::new(alloc)?;
    arena.begin();
    let root = arena.take(Node::Leaf(Leaf::from_rows(&[])), &mut steps)?;
    arena.commit();
    Ok((arena, root))
}

impl Tree {
    /// The empty tree: a leaf of no rows. `NoMemory` where the room for it was refused.
    pub fn new(alloc: Global) -> Result<Tree, NoMemory>
        ensures { IfOk result (λ tree. tree_in tree ≡ (zero, [])) }
    {
        let (arena, root) = one_leaf::<Brand>(alloc, Blank::new(1))?;
        let shape = Shape { root, levels: 1 };
        Ok(Tree {
            arena,
            shape,
            rows: 0,
        })
    }

    /// The rate of a prefix. `None` exactly where the table has no row of it. It reads one node on each level.
    pub fn get(&self, prefix: &Digits) -> Option<Amount>
        ensures { result ≡ rate_at (key prefix.now) (rows_of (tree_in self.now)) }
    {
        let key = prefix.key();
        let mut id = self.shape.root;
        for _level in 1..self.shape.levels {
            let Node::Inner(inner) = self.arena.read(id) else {
                unreachable!()
            };
            id = inner.child(inner.route(key));
        }
        let Node::Leaf(leaf) = self.arena.read(id) else {
            unreachable!()
        };
        leaf.get(key)
    }

    /// The row by which a number is rated, that of the longest prefix that begins it. `None` exactly where no row's
    /// prefix begins the number. It looks up what stands last at or before the number. Where that doesn't begin it,
    /// no front of the number longer than what they share is a row, and the search goes on from that front.
    pub fn longest(&self, number: &Digits) -> Option<Row>
        ensures { result ≡ best_for number.now (rows_of (tree_in self.now)) }
    {
        if self.rows == 0 {
            return None;
        }
        let mut len = number.len();
        loop {
            match jump_from(self.floor(&number.front(len)), number) {
                Jump::Done(row) => return row,
                Jump::To(shorter) => len = shorter,
            }
        }
    }

    /// How many rows the table has.
    pub fn row_count(&self) -> u64
        ensures { result ≡ length (rows_of (tree_in self.now)) }
    {
        self.rows
    }

    /// How many levels the tree has. A leaf alone is one level.
    pub fn levels(&self) -> u32
        ensures { result ≡ levels_of (tree_in self.now) }
    {
        self.shape.levels
    }
}
