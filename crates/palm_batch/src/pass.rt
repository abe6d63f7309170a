// A pass of a batch's edits over the tree, from its calls to the tree that they leave.
ghost use Rattle.std.specs.Prelude.{◌≡◌, ℕ, ◌+◌, ◌-◌, ◌*◌, ◌≤◌, length, IsSome, IfOk, OnOk};
ghost use Rattle.std.specs.List.{AllByRecursion};
ghost use Rattle.std.proofs.Common.{suc};
ghost use Rattle.palm_share.specs.declared.share.TheConstants.{MOST_WORKERS};
ghost use Rattle.palm_base.specs.Pass.{passed_tree, orphans_of};
ghost use Rattle.palm_base.specs.Tree.{Tree};
ghost use Rattle.palm_arena.specs.ArenaState.{NoneLent};
ghost use Rattle.palm_arena.specs.Passes.{Pass, StandsAt, IsWithin};
ghost use Rattle.palm_arena.specs.Reads.{map_of, HasTree};
ghost use Rattle.palm_route.specs.Edits.{EditsPrefix};
ghost use Rattle.palm_root.specs.Roots.{level_below};
ghost use Rattle.palm_batch.specs.Passing.{IsTree, edits_in, parts_at, groups_at, answers_at};

use palm_arena::{Arena, Shape};
use palm_base::{Entry, NoMemory, RowList, Steps};
use palm_leaf::{AnswerList, LeafOutcome, change_leaves};
use palm_level::change_level;
use palm_node::Changes;
use palm_root::{orphans, repair};
use palm_route::{Groups, descend, expand, group};
use palm_share::Gate;
use std::alloc::Global;
use std::sync::ledger::Ledger;
use std::thread::Threads;

/// What comes of a pass over the tree.
#[derive(Debug, Drop)]
pub struct Passed {
    /// Where the tree stands after the pass.
    pub shape: Shape,
    /// What the leaves answer the parts of the batch, from left to right.
    pub answers: AnswerList,
    /// The rows that are in the tree no more and have to be set again, in rising order.
    pub orphans: RowList,
}

// The parts of a batch, put together by leaf. `NoMemory` where room for them was refused.
pub(crate) fn route<R: Threads + Sync, G: Gate + Sync>(
    rt: &R,
    alloc: Global,
    arena: &Arena,
    shape: Shape,
    batch: &[Entry],
    workers: u32,
    gate: &G,
) -> Result<Groups, NoMemory>
    requires tree { HasTree (map_of arena.now.places) shape }
    requires some { 1 ≤ workers }
    requires few { workers ≤ MOST_WORKERS }
    ensures groups { IfOk result (λ groups. groups ≡ groups_at (map_of arena.now.places) shape batch.now) }
    ensures prefixes { OnOk result (AllByRecursion (λ entry. EditsPrefix entry.call) batch.now) }
{
    let parts = expand(alloc, arena, shape, batch)?;
    let routed = descend(rt, alloc, arena, shape, parts, workers, gate)?;
    let groups = group(rt, alloc, routed, workers)?;
    Ok(groups)
}

// Does the levels above the leaves, up to below the root. `NoMemory` where memory was refused: the batch has to be
// rolled back.
pub(crate) fn change_levels<R: Threads + Sync, G: Gate + Sync, L: Ledger>(
    rt: &R,
    alloc: Global,
    arena: &mut Arena,
    shape: Shape,
    leaves: Changes,
    workers: u32,
    gate: &G,
    steps: &mut Steps<L>,
) -> Result<Changes, NoMemory>
    requires under_way { IsSome arena.old.begun }
    requires none_lent { NoneLent arena.old.places }
    requires some { 1 ≤ workers }
    requires few { workers ≤ MOST_WORKERS }
    requires stands { (p : Pass) × (shape.levels ≡ suc p.tree.0)
        × StandsAt p 1 (map_of arena.old.places) leaves }
    ensures stands { IfOk result (λ made.
        (p : Pass) → shape.levels ≡ suc p.tree.0 → StandsAt p 1 (map_of arena.old.places) leaves
        → StandsAt p (level_below shape.levels) (map_of arena.new.places) made) }
    ensures begun { arena.new.begun ≡ arena.old.begun }
    ensures none_lent { NoneLent arena.new.places }
    ensures within { IfOk result (λ made. (n : ℕ) → IsWithin n leaves → IsWithin n made) }
    ensures ticks { (n : ℕ) → IsWithin n leaves → steps.new ≤ steps.old + 2 * n * (shape.levels - 2) }
    ensures moved { length arena.new.moved + steps.old ≤ length arena.old.moved + steps.new }
{
    let mut changes = leaves;
    for level in 2..shape.levels {
        changes = change_level(
            rt, alloc, arena, shape, &changes, level, workers, gate, steps,
        )?;
    }
    Ok(changes)
}

/// Passes the Sets and Dels of a batch over the tree at `shape`, answers all its parts, and takes out the rows that
/// the pass leaves over. The tree is then the serial rule's after its first pass, at the new shape.
///
/// `NoMemory` where room was refused. The batch has to be rolled back then.
pub fn run_pass<R: Threads + Sync, G: Gate + Sync, L: Ledger>(
    rt: &R,
    alloc: Global,
    arena: &mut Arena,
    shape: Shape,
    batch: &[Entry],
    workers: u32,
    gate: &G,
    steps: &mut Steps<L>,
) -> Result<Passed, NoMemory>
    requires under_way { IsSome arena.old.begun }
    requires none_lent { NoneLent arena.old.places }
    requires some { 1 ≤ workers }
    requires few { workers ≤ MOST_WORKERS }
    requires tree { (tree : Tree) × IsTree tree (map_of arena.old.places) shape }
    ensures tree { IfOk result (λ passed.
        (tree : Tree) → IsTree tree (map_of arena.old.places) shape
        → IsTree (passed_tree tree (edits_in batch.now)) (map_of arena.new.places) passed.shape) }
    ensures orphans { IfOk result (λ passed.
        (tree : Tree) → IsTree tree (map_of arena.old.places) shape
        → passed.orphans ≡ orphans_of tree (edits_in batch.now)) }
    ensures answers { IfOk result (λ passed.
        passed.answers ≡ answers_at (map_of arena.old.places) shape batch.now) }
    ensures prefixes { OnOk result (AllByRecursion (λ entry. EditsPrefix entry.call) batch.now) }
    ensures begun { arena.new.begun ≡ arena.old.begun }
    ensures none_lent { NoneLent arena.new.places }
    ensures ticks { steps.new ≤ steps.old + 2 * length
        (parts_at (map_of arena.old.places) shape batch.now) * (shape.levels + 2) }
    ensures moved { length arena.new.moved + steps.old ≤ length arena.old.moved + steps.new }
{
    let groups = route(rt, alloc, arena, shape, batch, workers, gate)?;
    let LeafOutcome { answers, changes } = change_leaves(
        rt, alloc, arena, shape, groups, workers, gate, steps,
    )?;
    let changes = change_levels(rt, alloc, arena, shape, changes, workers, gate, steps)?;
    let shape = repair(alloc, arena, shape, &changes, steps)?;
    let orphans = orphans(alloc, arena, &changes)?;
    Ok(Passed {
        shape,
        answers,
        orphans,
    })
}
