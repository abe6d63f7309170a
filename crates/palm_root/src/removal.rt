// The orphans of a pass: the rows of removed leaves, and all rows under removed inner nodes, which are taken out of
// the arena.
ghost use Rattle.std.specs.Prelude.{◌≡◌, List, OnOk, IfOk, IsSome};
ghost use Rattle.palm_base.specs.Pass.{orphans_of};
ghost use Rattle.palm_base.specs.declared.row.Row.{Row};
ghost use Rattle.palm_arena.specs.ArenaState.{NoneLent};
ghost use Rattle.palm_arena.specs.Reads.{map_of};
ghost use Rattle.palm_arena.specs.Cells.{Cell, Owns};
ghost use Rattle.palm_arena.specs.Placed.{value_of};
ghost use Rattle.palm_arena.specs.Standing.{Kept};
ghost use Rattle.palm_arena.specs.Passes.{Pass, IsPass, outcome_of};
ghost use Rattle.palm_root.specs.Sweeps.{StandsIn, IsSwept, AreSwept, HoldsRemoved};
ghost use Rattle.std.specs.List.Sorted.{IsNonDecreasingBy};
ghost use Rattle.std.specs.Prelude.{length, map, IsPermutation};
ghost use Rattle.palm_arena.specs.Standing.{removed_of};
ghost use Rattle.palm_base.specs.Table.{row_key};

use arrayvec::ArrayVec;
use palm_arena::Arena;
use palm_base::{MOST_CHILDREN, NoMemory, Row, RowList};
use palm_node::{Changes, Inner, Node, NodeId, Removed};
use std::alloc::Global;

// The children of an inner node.
fn children_of(inner: &Inner) -> ArrayVec<NodeId, MOST_CHILDREN>
    ensures { result.items ≡ inner.now.children }
{
    let mut children = ArrayVec::new();
    for i in 0..inner.len() {
        children.push(inner.child(i));
    }
    children
}

// Takes a node out of an arena with all that is under it, so many levels down, and appends its rows.
fn sweep(arena: &mut Arena, id: NodeId, below: u32, rows: &mut Vec<Row>) -> Result<(), NoMemory>
    requires under_way { IsSome arena.old.begun }
    requires none_lent { NoneLent arena.old.places }
    requires stands { (kept : Kept) × (others : List Cell)
        × StandsIn (map_of arena.old.places) below id kept others }
    ensures swept { OnOk result
        ((kept : Kept) (others : List Cell)
        → StandsIn (map_of arena.old.places) below id kept others
        → IsSwept (map_of arena.new.places) rows.old.items rows.new.items kept others) }
    ensures begun { arena.new.begun ≡ arena.old.begun }
    ensures moved { arena.new.moved ≡ arena.old.moved }
    ensures none_lent { NoneLent arena.new.places }
{
    let children = match arena.read(id) {
        Node::Leaf(leaf) => {
            leaf.append_rows(rows)?;
            arena.drop_node(id)?;
            return Ok(());
        }
        Node::Inner(inner) => children_of(inner),
    };
    for child in children.as_slice() {
        sweep(arena, *child, below - 1, rows)?;
    }
    arena.drop_node(id)?;
    Ok(())
}

// Takes removed nodes out of an arena with all that is under them, and appends their rows.
fn sweep_all(arena: &mut Arena, removed: &[Removed], rows: &mut Vec<Row>) -> Result<(), NoMemory>
    requires under_way { IsSome arena.old.begun }
    requires none_lent { NoneLent arena.old.places }
    requires stands { (kept : List Kept) × (others : List Cell)
        × (removed.now ≡ map removed_of kept)
        × AreSwept (map_of arena.old.places) rows.old.items rows.old.items kept others 0 }
    ensures swept { OnOk result
        ((kept : List Kept) (others : List Cell) → removed.now ≡ map removed_of kept
        → AreSwept (map_of arena.old.places) rows.old.items rows.old.items kept others 0
        → AreSwept (map_of arena.new.places) rows.old.items rows.new.items kept others
        (length kept)) }
    ensures begun { arena.new.begun ≡ arena.old.begun }
    ensures moved { arena.new.moved ≡ arena.old.moved }
    ensures none_lent { NoneLent arena.new.places }
{
    for node in removed {
        sweep(arena, node.id, node.level - 1, rows)?;
    }
    Ok(())
}

// Puts rows in the order of their keys.
fn sort_rows(rows: &mut [Row])
    ensures same { IsPermutation rows.old rows.new }
    ensures len { length rows.new ≡ length rows.old }
    ensures sorted { IsNonDecreasingBy row_key rows.new }
{
    rows.sort_unstable_by_key(|row| row.prefix.key());
}

/// The orphans of a pass, whose changes these are: the rows that they leave loose, and all rows under the nodes
/// that they removed, in rising order. These nodes and all that is under them are dropped, and every other node
/// stays.
///
/// `NoMemory` where room for the rows or for the batch's notes was refused. The batch is still under way then, and
/// rolling back gives what it would have given before.
pub fn orphans(alloc: Global, arena: &mut Arena, changes: &Changes) -> Result<RowList, NoMemory>
    requires under_way { IsSome arena.old.begun }
    requires none_lent { NoneLent arena.old.places }
    requires removed { (loose : List Row) × (others : List Cell)
        × HoldsRemoved loose others (map_of arena.old.places) changes.now }
    ensures rows { IfOk result (λ rows.
        (p : Pass) (others : List Cell) → IsPass p
        → HoldsRemoved (outcome_of p).loose others (map_of arena.old.places) changes.now
        → rows ≡ orphans_of (value_of p.tree) p.edits) }
    ensures dropped { OnOk result
        ((loose : List Row) (others : List Cell)
        → HoldsRemoved loose others (map_of arena.old.places) changes.now
        → Owns (map_of arena.new.places) others) }
    ensures begun { arena.new.begun ≡ arena.old.begun }
    ensures moved { arena.new.moved ≡ arena.old.moved }
    ensures none_lent { NoneLent arena.new.places }
{
    let mut rows = Vec::from_slice(alloc, changes.loose.as_slice())?;
    sweep_all(arena, changes.removed.as_slice(), &mut rows)?;
    sort_rows(&mut rows);
    Ok(RowList::from_vec(rows))
}
