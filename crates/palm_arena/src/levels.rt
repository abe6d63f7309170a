// The levels of nodes over pieces, up to the one that is the root.
ghost use Rattle.std.specs.Prelude.{◌≡◌, ◌+◌, ◌<◌, ◌≤◌, ◌==◌, if◌then◌else◌, List};
ghost use Rattle.std.specs.Prelude.{length, IfOk, OnOk, IsSome};
ghost use Rattle.palm_base.specs.Cut.{piece_count};
ghost use Rattle.palm_node.specs.InnerNode.{Rise, later_lows};
ghost use Rattle.palm_arena.specs.ArenaState.{NoneLent};
ghost use Rattle.palm_arena.specs.Reads.{map_of};
ghost use Rattle.palm_base.specs.Tree.{Tree};
ghost use Rattle.palm_arena.specs.Cells.{Cell, HasCells};
ghost use Rattle.palm_arena.specs.Passes.{StandsAlone};
ghost use Rattle.palm_base.specs.declared.bounds.TheConstants.{MOST_LEVELS};
ghost use Rattle.palm_arena.specs.Levels.{IsTaken, IsLevel, HasRaised};

use crate::arena::Arena;
use crate::shape::Shape;
use palm_base::{MOST_CHILDREN, NoMemory, Steps};
use palm_node::{Inner, Node, Piece, PieceList, piece_size, pieces};
use std::alloc::Global;
use std::sync::ledger::Ledger;

/// The low of the next node of a level, where those before it are listed and its keys begin at `own`: 0 of the
/// first, which has no separator to its left, and `own` of a later one.
pub fn next_low(made: &PieceList, own: u64) -> u64
    ensures { result ≡ (if length made.now == 0 then 0 else own) }
{
    if made.is_empty() { 0 } else { own }
}

// Puts the nodes into an arena that stand over the pieces of a level, and lists them. It counts one step for each
// of them.
fn take_level<L: Ledger>(
    alloc: Global,
    level: &[Piece],
    arena: &mut Arena,
    steps: &mut Steps<L>,
) -> Result<PieceList, NoMemory>
    requires rising { Rise (later_lows level.now) }
    requires under_way { IsSome arena.old.begun }
    requires none_lent { NoneLent arena.old.places }
    ensures taken { IfOk result (λ made.
        IsTaken level.now made (map_of arena.old.places) (map_of arena.new.places)) }
    ensures begun { arena.new.begun ≡ arena.old.begun }
    ensures none_lent { NoneLent arena.new.places }
    ensures ticks { steps.new ≤ steps.old + piece_count MOST_CHILDREN (length level.now) }
    ensures moved { length arena.new.moved + steps.old ≤ length arena.old.moved + steps.new }
{
    let mut made = PieceList::new(alloc);
    let mut rest = level;
    for i in 0..pieces(MOST_CHILDREN, level.len()) {
        let (part, later) = rest.split_at(piece_size(MOST_CHILDREN, level.len(), i));
        let low = next_low(&made, part[0].low);
        let id = arena.take(Node::Inner(Inner::over(part)), steps)?;
        made.push(Piece { low, id })?;
        rest = later;
    }
    Ok(made)
}

/// Puts the nodes into an arena of the levels over a level, up to one that is the root, and gives the shape of the
/// tree that they make. The level stands so many levels above the leaves, and one piece alone is the root itself.
/// Of 300 pieces it puts 19 nodes, 2 over these, and the root over both. It counts one step for each node that it
/// puts: 22 of 300 pieces, and none of one.
///
/// `NoMemory` where room was refused. What was put stays then, so the batch has to be rolled back.
pub fn raise<L: Ledger>(
    alloc: Global,
    lowest: PieceList,
    below: u32,
    arena: &mut Arena,
    steps: &mut Steps<L>,
) -> Result<Shape, NoMemory>
    requires some { 1 ≤ length lowest }
    requires most { below ≤ MOST_LEVELS }
    requires under_way { IsSome arena.old.begun }
    requires none_lent { NoneLent arena.old.places }
    requires level { (tree : Tree) × (others : List Cell)
        × IsLevel tree others (map_of arena.old.places) below lowest }
    ensures raised { IfOk result (λ shape.
        (tree : Tree) (others : List Cell)
        → IsLevel tree others (map_of arena.old.places) below lowest
        → StandsAlone tree others (map_of arena.new.places) shape) }
    ensures others { OnOk result
        ((cells : List Cell) → HasCells (map_of arena.old.places) cells
        → HasCells (map_of arena.new.places) cells) }
    ensures begun { arena.new.begun ≡ arena.old.begun }
    ensures none_lent { NoneLent arena.new.places }
    ensures ticks { HasRaised (length lowest) steps.old steps.new }
    ensures moved { length arena.new.moved + steps.old ≤ length arena.old.moved + steps.new }
{
    let mut level = lowest;
    let mut levels = below + 1;
    while level.len() > 1 {
        level = take_level(alloc, level.as_slice(), arena, steps)?;
        levels += 1;
    }
    let root = level.get(0).id;
    Ok(Shape { root, levels })
}
