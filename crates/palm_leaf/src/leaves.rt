// The leaf stage of a pass: the touched leaves are lent with their parts, worked on beside each other, given back
// and settled.
ghost use Rattle.std.specs.Prelude.{◌≡◌, ◌≤◌, ◌+◌, ◌*◌, List, All, length, vec_len, IsSome, IfOk};
ghost use Rattle.std.specs.List.{flat_map, AllZip};
ghost use Rattle.palm_arena.specs.ArenaState.{NoneLent};
ghost use Rattle.palm_arena.specs.Passes.{Pass, Begins, StandsAt, IsWithin};
ghost use Rattle.palm_arena.specs.Reads.{map_of};
ghost use Rattle.palm_route.specs.declared.part.Part.{Part};
ghost use Rattle.palm_leaf.specs.Answers.{answers_in, rows_at};
ghost use Rattle.palm_leaf.specs.Routed.{IsRouted, parts_in};
ghost use Rattle.palm_leaf.specs.Worked.{IsReady, HasRun};
ghost use Rattle.palm_share.specs.Jobs.{Holds, Relates};
ghost use Rattle.palm_leaf.specs.Stage.{least_of, HasGroups, LeavesDone};

use crate::answer::LeafOutcome;
use crate::leaf_work::LeafWork;
use crate::lending::{give_leaves_back, lend_leaves};
use crate::settling::{Gathered, settle_leaves};
use palm_arena::{Arena, Shape};
use palm_base::{LEAST_LEAF_ROWS, NoMemory, RowList, Steps};
use palm_node::{Changes, RemovedList};
use palm_route::{Group, Groups};
use palm_share::{Gate, MOST_WORKERS, each_mut};
use std::alloc::Global;
use std::sync::ledger::Ledger;
use std::thread::Threads;

// With how many rows a leaf stands on: a root with any, and every other with the least of a leaf.
fn least_rows(shape: Shape) -> usize
    ensures { result ≡ least_of shape }
{
    if shape.levels == 1 {
        0
    } else {
        LEAST_LEAF_ROWS
    }
}

// Works on all leaves beside each other.
fn run_works<R: Threads + Sync, G: Gate + Sync>(
    rt: &R,
    alloc: Global,
    works: &mut Vec<Option<LeafWork<'_>>>,
    workers: u32,
    gate: &G,
)
    requires some { 1 ≤ workers }
    requires few { workers ≤ MOST_WORKERS }
    requires ready { All (Holds IsReady) works.old.items }
    ensures ran { AllZip (Relates HasRun) works.old.items works.new.items }
    ensures len { vec_len works.new ≡ vec_len works.old }
{
    each_mut(rt, alloc, works, workers, gate);
}

// Does the work on the leaves of groups.
fn work_leaves<R: Threads + Sync, G: Gate + Sync, L: Ledger>(
    rt: &R,
    alloc: Global,
    arena: &mut Arena,
    groups: &[Group],
    least: usize,
    workers: u32,
    gate: &G,
    steps: &mut Steps<L>,
) -> Result<Gathered, NoMemory>
    requires under_way { IsSome arena.old.begun }
    requires none_lent { NoneLent arena.old.places }
    requires some { 1 ≤ workers }
    requires few { workers ≤ MOST_WORKERS }
    requires groups { HasGroups (map_of arena.old.places) groups.now }
    ensures done { IfOk result (λ gathered.
        LeavesDone (map_of arena.old.places) (map_of arena.new.places) least groups.now gathered) }
    ensures begun { arena.new.begun ≡ arena.old.begun }
    ensures none_lent { NoneLent arena.new.places }
    ensures ticks { steps.new ≤ steps.old + 2 * parts_in groups.now }
    ensures moved { length arena.new.moved + steps.old ≤ length arena.old.moved + steps.new }
{
    let mut done = Vec::with_capacity(alloc, groups.len())?;
    let mut works = Vec::with_capacity(alloc, groups.len())?;
    match lend_leaves(alloc, arena, groups, least, &mut works, steps) {
        Ok(()) => {
            run_works(rt, alloc, &mut works, workers, gate);
            give_leaves_back(arena, works, &mut done);
            let gathered = settle_leaves(alloc, arena, done, steps)?;
            Ok(gathered)
        }
        Err(refused) => {
            give_leaves_back(arena, works, &mut done);
            Err(refused)
        }
    }
}

/// Does the leaves of a pass: each touched leaf's parts are resolved over its rows in the order of their arrival,
/// each part is answered, and the rows that are left are cut into leaves. A leaf below the root that is left with
/// some rows, but fewer than `LEAST_LEAF_ROWS`, is removed, and its rows are loose; one that is left with none is
/// removed. The parts of a leaf are answered in the order of their arrival, the leaves from left to right.
///
/// The leaves are worked on by at most `workers` workers beside each other. It counts a step for each leaf that it
/// lends, and one for each leaf that it takes. `NoMemory` where memory was refused: no leaf is lent then, and what
/// the batch under way began with can be rolled back to.
pub fn change_leaves<R: Threads + Sync, G: Gate + Sync, L: Ledger>(
    rt: &R,
    alloc: Global,
    arena: &mut Arena,
    shape: Shape,
    groups: Groups,
    workers: u32,
    gate: &G,
    steps: &mut Steps<L>,
) -> Result<LeafOutcome, NoMemory>
    requires under_way { IsSome arena.old.begun }
    requires none_lent { NoneLent arena.old.places }
    requires some { 1 ≤ workers }
    requires few { workers ≤ MOST_WORKERS }
    requires pass { (p : Pass) × (parts : List Part) × Begins p (map_of arena.old.places) shape
        × IsRouted p (map_of arena.old.places) shape groups parts }
    ensures stands { IfOk result (λ outcome.
        (p : Pass) (parts : List Part) → Begins p (map_of arena.old.places) shape
        → IsRouted p (map_of arena.old.places) shape groups parts
        → StandsAt p 1 (map_of arena.new.places) outcome.changes) }
    ensures answers { IfOk result (λ outcome.
        outcome.answers ≡ flat_map
        (λ group. answers_in (rows_at (map_of arena.old.places) group.leaf) group.parts)
        groups) }
    ensures begun { arena.new.begun ≡ arena.old.begun }
    ensures none_lent { NoneLent arena.new.places }
    ensures within { IfOk result (λ outcome. IsWithin (parts_in groups) outcome.changes) }
    ensures ticks { steps.new ≤ steps.old + 2 * parts_in groups }
    ensures moved { length arena.new.moved + steps.old ≤ length arena.old.moved + steps.new }
{
    let least = least_rows(shape);
    let groups = groups.into_list();
    let gathered = work_leaves(rt, alloc, arena, &groups, least, workers, gate, steps)?;
    let Gathered {
        answers,
        nodes,
        loose,
    } = gathered;
    let changes = Changes {
        nodes,
        loose: RowList::from_vec(loose),
        removed: RemovedList::new(alloc),
    };
    Ok(LeafOutcome { answers, changes })
}
