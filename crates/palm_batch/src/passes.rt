// The passes of a batch over the nodes of a tree: one of its edits, with its replies, and one that puts its orphans
// in again.
ghost use Rattle.std.specs.Prelude.{◌≡◌, ◌+◌, ◌≤◌, length, map, IsSome, IfOk};
ghost use Rattle.palm_share.specs.declared.share.TheConstants.{MOST_WORKERS};
ghost use Rattle.palm_base.specs.History.{calls_of, replies_to};
ghost use Rattle.palm_base.specs.Pass.{batch_tree};
ghost use Rattle.palm_base.specs.Tree.{Tree, rows_of};
ghost use Rattle.palm_arena.specs.ArenaState.{NoneLent};
ghost use Rattle.palm_arena.specs.Reads.{map_of};
ghost use Rattle.palm_batch.specs.Costs.{cost_on};
ghost use Rattle.palm_batch.specs.Passing.{IsTree, set_entry};

use crate::pass::{Passed, run_pass};
use crate::replies::join_answers;
use palm_arena::{Arena, Shape};
use palm_base::{Call, Entry, NoMemory, Reply, Row, Steps};
use palm_share::Gate;
use std::alloc::Global;
use std::sync::ledger::Ledger;
use std::thread::Threads;

/// What comes of a batch over the nodes of a tree.
#[derive(Debug, Drop)]
pub(crate) struct Ran {
    /// Where the tree stands after the batch.
    pub shape: Shape,
    /// The replies to the batch, in its order.
    pub replies: Vec<Reply>,
}

// The Set that puts a row in.
fn set_entry(row: &Row) -> Entry
    ensures { result ≡ set_entry row.now }
{
    let Row { prefix, rate } = *row;
    Entry {
        caller: 0,
        place: 0,
        call: Call::Set { prefix, rate },
    }
}

// The batch that puts rows in again.
fn sets_of(alloc: Global, rows: &[Row]) -> Result<Vec<Entry>, NoMemory>
    ensures { IfOk result (λ sets. sets.items ≡ map set_entry rows.now) }
{
    Ok(rows.iter().map(set_entry).collect(alloc)?)
}

// Runs a batch over the tree at `shape`, whose arena a batch is under way in. Where memory is refused it has to be
// rolled back. A batch of no calls touches nothing.
pub(crate) fn run_passes<R: Threads + Sync, G: Gate + Sync, L: Ledger>(
    rt: &R,
    alloc: Global,
    arena: &mut Arena,
    shape: Shape,
    batch: &[Entry],
    workers: u32,
    gate: &G,
    steps: &mut Steps<L>,
) -> Result<Ran, NoMemory>
    requires under_way { IsSome arena.old.begun }
    requires none_lent { NoneLent arena.old.places }
    requires some { 1 ≤ workers }
    requires few { workers ≤ MOST_WORKERS }
    requires tree { (tree : Tree) × IsTree tree (map_of arena.old.places) shape }
    ensures tree { IfOk result (λ ran.
        (tree : Tree) → IsTree tree (map_of arena.old.places) shape
        → IsTree (batch_tree tree (calls_of batch.now)) (map_of arena.new.places) ran.shape) }
    ensures replies { IfOk result (λ ran.
        (tree : Tree) → IsTree tree (map_of arena.old.places) shape
        → ran.replies.items ≡ replies_to (rows_of tree) batch.now) }
    ensures begun { arena.new.begun ≡ arena.old.begun }
    ensures none_lent { NoneLent arena.new.places }
    ensures ticks { (tree : Tree) → IsTree tree (map_of arena.old.places) shape
        → steps.new ≤ steps.old + cost_on tree batch.now }
    ensures moved { length arena.new.moved + steps.old ≤ length arena.old.moved + steps.new }
{
    if batch.is_empty() {
        let replies = Vec::new(alloc);
        return Ok(Ran { shape, replies });
    }
    let Passed {
        shape,
        answers,
        orphans,
    } = run_pass(rt, alloc, arena, shape, batch, workers, gate, steps)?;
    let replies = join_answers(alloc, batch, answers)?;
    let sets = sets_of(alloc, orphans.as_slice())?;
    let Passed { shape, .. } = run_pass(rt, alloc, arena, shape, &sets, workers, gate, steps)?;
    Ok(Ran { shape, replies })
}
