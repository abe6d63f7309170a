// The building of a tree from sorted rows: its leaves first, and then a level of nodes over them at a time, up to
// the one that is the root.
//
// 300 rows are cut into 19 leaves, these 19 nodes into 2, and those 2 stand under the root:
//
//     rows     1 .. 16 | 17 .. 32 | ..  | 286 .. 300      19 leaves of 16 or 15 rows
//     level 1  leaves 1 .. 10        | leaves 11 .. 19     2 nodes of 10 and 9 children
//     level 2  both of them                                the root
ghost use Rattle.std.specs.Prelude.{◌≡◌, ◌<◌, [], length, map, IfOk, OnOk, None, IsSome};
ghost use Rattle.std.proofs.Common.{zero};
ghost use Rattle.palm_base.specs.Table.{row_key, IsTable};
ghost use Rattle.palm_base.specs.Lows.{PrefixesHold};
ghost use Rattle.palm_base.specs.Pass.{first_low, leaves_of, top, set_of, batch_tree};
ghost use Rattle.palm_node.specs.LeafRows.{IsLeaf};
ghost use Rattle.palm_arena.specs.ArenaState.{NoneLent};
ghost use Rattle.palm_arena.specs.Reads.{map_of, IsWhole};
ghost use Rattle.palm_tree.specs.BuiltLeaves.{AreLeaves};
ghost use Rattle.palm_tree.specs.TreeValue.{tree_in, tree_of};

use crate::tree::Tree;
use palm_arena::{Arena, Shape, next_low, raise};
use palm_base::{MOST_LEAF_ROWS, NoMemory, Row, RowList, Steps};
use palm_node::{Leaf, Node, Piece, PieceList, piece_size, pieces};
use std::alloc::Global;
use std::marker::Brand;
use std::sync::ledger::{Blank, Ledger};

// The key of a leaf's first row, or 0 where it has none.
fn first_key(leaf: &Leaf) -> u64
    ensures key { result ≡ first_low row_key leaf.now }
    ensures leaf { IsLeaf leaf.now }
{
    if leaf.len() == 0 {
        return 0;
    }
    leaf.row(0).prefix.key()
}

// Puts the leaves into an arena that rows are cut into, and lists them.
fn add_leaves<L: Ledger>(
    alloc: Global,
    rows: &[Row],
    arena: &mut Arena,
    steps: &mut Steps<L>,
) -> Result<PieceList, NoMemory>
    requires table { IsTable rows.now }
    requires empty { arena.old.places ≡ [] }
    requires under_way { IsSome arena.old.begun }
    ensures level { IfOk result (λ leaves. AreLeaves rows.now (map_of arena.new.places) leaves) }
    ensures under_way { OnOk result (IsSome arena.new.begun) }
    ensures none_lent { OnOk result (NoneLent arena.new.places) }
    ensures prefixes { OnOk result (PrefixesHold rows.now) }
{
    let mut leaves = PieceList::new(alloc);
    let mut rest = rows;
    for i in 0..pieces(MOST_LEAF_ROWS, rows.len()) {
        let (part, later) = rest.split_at(piece_size(MOST_LEAF_ROWS, rows.len(), i));
        let leaf = Leaf::from_rows(part);
        let low = next_low(&leaves, first_key(&leaf));
        let id = arena.take(Node::Leaf(leaf), steps)?;
        leaves.push(Piece { low, id })?;
        rest = later;
    }
    Ok(leaves)
}

// Puts the nodes into an arena of the tree that one batch of Sets of rows leaves of the empty tree, and gives its
// shape.
fn put_nodes<L: Ledger>(
    alloc: Global,
    rows: &[Row],
    arena: &mut Arena,
    steps: &mut Steps<L>,
) -> Result<Shape, NoMemory>
    requires some { 0 < length rows.now }
    requires table { IsTable rows.now }
    requires empty { arena.old.places ≡ [] }
    requires under_way { IsSome arena.old.begun }
    ensures whole { IfOk result (λ shape. IsWhole (map_of arena.new.places) shape) }
    ensures tree { IfOk result (λ shape. tree_of arena.new.places shape ≡ top zero (leaves_of 0 rows.now)) }
    ensures under_way { OnOk result (IsSome arena.new.begun) }
    ensures none_lent { OnOk result (NoneLent arena.new.places) }
    ensures prefixes { OnOk result (PrefixesHold rows.now) }
{
    let leaves = add_leaves(alloc, rows, arena, steps)?;
    let shape = raise(alloc, leaves, 0, arena, steps)?;
    Ok(shape)
}

// An arena of the tree that one batch of Sets of rows leaves of the empty tree, made with a counter of its own.
fn grow<L: Ledger>(alloc: Global, blank: Blank, rows: &[Row]) -> Result<(Arena, Shape), NoMemory>
    requires blank_name { blank.name ≡ L.name }
    requires blank_parts { blank.parts ≡ L.parts }
    requires blank { 0 < blank.parts }
    requires some { 0 < length rows.now }
    requires table { IsTable rows.now }
    ensures idle { IfOk result (λ (arena, shape). arena.begun ≡ None) }
    ensures none_lent { IfOk result (λ (arena, shape). NoneLent arena.places) }
    ensures whole { IfOk result (λ (arena, shape). IsWhole (map_of arena.places) shape) }
    ensures tree { IfOk result (λ (arena, shape).
        tree_of arena.places shape ≡ top zero (leaves_of 0 rows.now)) }
    ensures prefixes { OnOk result (PrefixesHold rows.now) }
{
    let mut steps = Steps::<L>::new(blank);
    let mut arena = Arena::new(alloc)?;
    arena.begin();
    let shape = put_nodes(alloc, rows, &mut arena, &mut steps)?;
    arena.commit();
    Ok((arena, shape))
}

impl Tree {
    /// The tree that one batch of Sets of these rows leaves of the empty tree. It is built from its leaves up, in
    /// time that grows as the rows do. `NoMemory` where room was refused.
    pub fn build(alloc: Global, rows: &RowList) -> Result<Tree, NoMemory>
        requires { IsTable rows.now }
        ensures { IfOk result (λ tree. tree_in tree ≡ batch_tree (zero, []) (map set_of rows.now)) }
    {
        if rows.is_empty() {
            return Tree::new(alloc);
        }
        let (arena, shape) = grow::<Brand>(alloc, Blank::new(1), rows.as_slice())?;
        Ok(Tree {
            arena,
            shape,
            rows: rows.len() as u64,
        })
    }
}
