// The root of a tree after a pass: over what the pass leaves below the old one.
//
// Where what is left is as it was, the root stays. Else it goes, and what is left has new levels over it, up to one
// node that is the root: of no pieces it is an empty leaf, and one piece is the root itself.
ghost use Rattle.std.specs.Prelude.{◌≡◌, ◌+◌, ◌-◌, ◌*◌, ◌≤◌, ◌<◌, ◌∷◌, true};
ghost use Rattle.std.specs.Prelude.{length, ℕ, IfOk, OnOk, IsSome, Some, MatchOption};
ghost use Rattle.palm_node.specs.declared.change.Change.{Change};
ghost use Rattle.palm_arena.specs.ArenaState.{NoneLent, IsHeld};
ghost use Rattle.palm_arena.specs.Reads.{map_of};
ghost use Rattle.palm_arena.specs.Passes.{Pass, IsRepaired, IsWithin, untouched_in};
ghost use Rattle.palm_level.specs.Groups.{is_still};
ghost use Rattle.palm_base.specs.declared.bounds.TheConstants.{MOST_LEVELS};
ghost use Rattle.palm_node.specs.declared.change.Changes.{Changes};
ghost use Rattle.palm_node.specs.declared.node.Node.TheVariants as node;
ghost use Rattle.palm_arena.specs.Cells.{Turns, HasCells};
ghost use Rattle.std.specs.Prelude.{[]};
ghost use Rattle.palm_root.specs.Roots.{StandsBelow, HasLeft, IsFound, IsFew, IsHeadOf, HasPut, root_cells};

use palm_arena::{Arena, Shape, raise};
use palm_base::{NoMemory, Steps};
use palm_level::{all_stand_alone, children_after};
use palm_node::{Change, Changes, Leaf, Node, PieceList};
use std::alloc::Global;
use std::sync::ledger::Ledger;

// What is left of a root leaf. `None` where it stays.
fn leaf_left(changes: &[Change]) -> Result<Option<PieceList>, NoMemory>
    ensures { IfOk result (λ left. MatchOption left (is_still changes.now ≡ true) (IsHeadOf changes.now)) }
{
    let Some(change) = changes.first() else {
        return Ok(None);
    };
    if all_stand_alone(changes) {
        return Ok(None);
    }
    Ok(Some(change.pieces.try_copy()?))
}

// What is left below the root. `None` where it stays.
fn find_left(
    alloc: Global,
    arena: &Arena,
    shape: Shape,
    changes: &Changes,
) -> Result<Option<PieceList>, NoMemory>
    requires stands { (p : Pass) × StandsBelow p (map_of arena.now.places) shape changes.now }
    ensures found { IfOk result (λ left.
        (p : Pass) → StandsBelow p (map_of arena.now.places) shape changes.now
        → IsFound p (map_of arena.now.places) changes.now shape left) }
    ensures few { IfOk result (λ left. (n : ℕ) → IsWithin n changes.now → IsFew n left) }
{
    if shape.levels <= 1 {
        let left = leaf_left(changes.nodes.as_slice())?;
        return Ok(left);
    }
    let Node::Inner(inner) = arena.read(shape.root) else {
        unreachable!()
    };
    // The contract of `len` says that the node is within its bounds, as `children_after` requires.
    let _ = inner.len();
    let left = children_after(alloc, inner, changes.nodes.as_slice())?;
    Ok(left)
}

// Drops the root where it is an inner node. A leaf became its pieces already.
fn drop_root(arena: &mut Arena, shape: Shape) -> Result<(), NoMemory>
    requires under_way { IsSome arena.old.begun }
    requires none_lent { NoneLent arena.old.places }
    requires held { 1 < shape.levels → IsHeld arena.old.places shape.root }
    ensures dropped { OnOk result
        (Turns (map_of arena.old.places) (map_of arena.new.places)
        (root_cells (map_of arena.old.places) shape) []) }
    ensures begun { arena.new.begun ≡ arena.old.begun }
    ensures moved { arena.new.moved ≡ arena.old.moved }
    ensures none_lent { NoneLent arena.new.places }
{
    if shape.levels <= 1 {
        return Ok(());
    }
    arena.drop_node(shape.root)?;
    Ok(())
}

// An empty leaf at the root of a tree.
fn take_leaf<L: Ledger>(arena: &mut Arena, steps: &mut Steps<L>) -> Result<Shape, NoMemory>
    requires under_way { IsSome arena.old.begun }
    requires none_lent { NoneLent arena.old.places }
    ensures taken { IfOk result (λ shape.
        (shape.levels ≡ 1)
        × Turns (map_of arena.old.places) (map_of arena.new.places) []
        ((shape.root, node.Leaf []) ∷ [])) }
    ensures begun { arena.new.begun ≡ arena.old.begun }
    ensures none_lent { NoneLent arena.new.places }
    ensures ticks { steps.new ≡ steps.old + 1 }
    ensures moved { length arena.new.moved ≤ length arena.old.moved + 1 }
{
    let root = arena.take(Node::Leaf(Leaf::from_rows(&[])), steps)?;
    Ok(Shape { root, levels: 1 })
}

// Puts the root into an arena over a level that stands so many levels above the leaves.
fn put_root<L: Ledger>(
    alloc: Global,
    level: PieceList,
    below: u32,
    arena: &mut Arena,
    steps: &mut Steps<L>,
) -> Result<Shape, NoMemory>
    requires under_way { IsSome arena.old.begun }
    requires none_lent { NoneLent arena.old.places }
    requires most { below ≤ MOST_LEVELS }
    requires left { (p : Pass) × (changes : Changes)
        × HasLeft p [] (map_of arena.old.places) changes below level }
    ensures repaired { IfOk result (λ shape.
        (p : Pass) (changes : Changes) → HasLeft p [] (map_of arena.old.places) changes below level
        → HasCells (map_of arena.old.places) (untouched_in p)
        → IsRepaired p (map_of arena.new.places) changes shape) }
    ensures begun { arena.new.begun ≡ arena.old.begun }
    ensures none_lent { NoneLent arena.new.places }
    ensures ticks { HasPut (length level) steps.old steps.new }
    ensures moved { length arena.new.moved + steps.old ≤ length arena.old.moved + steps.new }
{
    if level.is_empty() {
        let shape = take_leaf(arena, steps)?;
        return Ok(shape);
    }
    let shape = raise(alloc, level, below, arena, steps)?;
    Ok(shape)
}

/// Puts a root over what a pass leaves below the old one, and gives the shape of the tree after the pass: of no
/// pieces an empty leaf, of one piece this itself, and else as many levels of nodes over them as come to one root.
/// A root below which all is at its place stays. `changes` are those of the level below the root, or of the leaves
/// where the root is one.
///
/// `NoMemory` where room was refused. The batch is still under way then, and rolling back gives what it would have
/// given before.
pub fn repair<L: Ledger>(
    alloc: Global,
    arena: &mut Arena,
    shape: Shape,
    changes: &Changes,
    steps: &mut Steps<L>,
) -> Result<Shape, NoMemory>
    requires under_way { IsSome arena.old.begun }
    requires none_lent { NoneLent arena.old.places }
    requires stands { (p : Pass) × StandsBelow p (map_of arena.old.places) shape changes.now }
    ensures repaired { IfOk result (λ after.
        (p : Pass) → StandsBelow p (map_of arena.old.places) shape changes.now
        → IsRepaired p (map_of arena.new.places) changes.now after) }
    ensures begun { arena.new.begun ≡ arena.old.begun }
    ensures none_lent { NoneLent arena.new.places }
    ensures ticks { (n : ℕ) → IsWithin n changes.now → steps.new ≤ steps.old + 4 * n }
    ensures moved { length arena.new.moved + steps.old ≤ length arena.old.moved + steps.new }
{
    let Some(level) = find_left(alloc, arena, shape, changes)? else {
        return Ok(shape);
    };
    drop_root(arena, shape)?;
    let after = put_root(alloc, level, shape.levels.saturating_sub(2), arena, steps)?;
    Ok(after)
}
