// A level of the tree, done in a pass: from the changes of the level below to its own.
ghost use Rattle.std.specs.Prelude.{◌≡◌, ℕ, ◌+◌, ◌-◌, ◌*◌, ◌<◌, ◌≤◌, [], length, map};
ghost use Rattle.std.specs.Prelude.{sum_by, IsSome, IfOk, OnOk, All};
ghost use Rattle.std.specs.List.{AllByRecursion, AllZip};
ghost use Rattle.std.specs.Vec.{vec_len, vec_capacity};
ghost use Rattle.std.proofs.Common.{suc};
ghost use Rattle.palm_share.specs.declared.share.TheConstants.{MOST_WORKERS};
ghost use Rattle.palm_share.specs.Jobs.{Holds, Relates};
ghost use Rattle.palm_arena.specs.ArenaState.{NoneLent};
ghost use Rattle.palm_arena.specs.Reads.{map_of};
ghost use Rattle.palm_arena.specs.Passes.{Pass, StandsAt, IsWithin};
ghost use Rattle.palm_level.specs.Plans.{IsPlanned, planned_key};
ghost use Rattle.palm_level.specs.Tasks.{WorkMayRun, TaskRan, LentTo, planned_id, Distinct, HasWorked, spare_of};

use crate::plan::{Planned, plan_all};
use crate::task::{Task, finish_all, give_all, lend_all};
use palm_arena::{Arena, Shape};
use palm_base::{NoMemory, Steps};
use palm_node::{ChangeList, Changes, RemovedList};
use palm_share::{Gate, each_mut};
use std::alloc::Global;
use std::sync::ledger::Ledger;
use std::thread::Threads;

// Runs the tasks beside each other.
fn run_all<R: Threads + Sync, G: Gate + Sync>(
    rt: &R,
    alloc: Global,
    tasks: &mut Vec<Option<Task<'_>>>,
    workers: u32,
    gate: &G,
)
    requires some { 1 ≤ workers }
    requires few { workers ≤ MOST_WORKERS }
    requires ready { All (Holds (λ task. WorkMayRun task.work)) tasks.old.items }
    ensures ran { AllZip (Relates (λ before after. TaskRan before after)) tasks.old.items tasks.new.items }
{
    each_mut(rt, alloc, tasks, workers, gate);
}

// Lends the nodes that are made anew, makes them beside each other, and ends the work on them. Where memory is
// refused, the tasks that are left have their leases.
fn work_all<'a, R: Threads + Sync, G: Gate + Sync, L: Ledger>(
    rt: &R,
    alloc: Global,
    arena: &mut Arena,
    level: u32,
    planned: Vec<Planned<'a>>,
    tasks: &mut Vec<Option<Task<'a>>>,
    made: &mut Changes,
    workers: u32,
    gate: &G,
    steps: &mut Steps<L>,
) -> Result<(), NoMemory>
    requires under_way { IsSome arena.old.begun }
    requires none_lent { NoneLent arena.old.places }
    requires some { 1 ≤ workers }
    requires few { workers ≤ MOST_WORKERS }
    requires planned { AllByRecursion (IsPlanned (map_of arena.old.places)) planned.items }
    requires distinct { Distinct (map planned_id planned.items) }
    requires empty { tasks.old.items ≡ [] }
    requires room { vec_len planned ≤ vec_capacity tasks.old }
    ensures lent { LentTo arena.new.places tasks.new.items }
    ensures empty { OnOk result (tasks.new.items ≡ []) }
    ensures begun { arena.new.begun ≡ arena.old.begun }
    ensures ok { OnOk result
        (HasWorked (map_of arena.old.places) level (map planned_key planned.entry.items)
        (map_of arena.new.places) made.old made.new) }
    ensures ticks { steps.new ≤ steps.old + vec_len planned.entry + sum_by
        (spare_of (map_of arena.old.places)) (map planned_key planned.entry.items) }
    ensures moved { length arena.new.moved + steps.old ≤ length arena.old.moved + steps.new }
{
    lend_all(arena, planned, tasks, steps)?;
    run_all(rt, alloc, tasks, workers, gate);
    finish_all(alloc, arena, level, tasks, made, steps)
}

/// Does the next level of a pass: each inner node with changed children gets what stands for them in their place,
/// and becomes pieces itself. It is cut where its children are too many, removed with those that are left where
/// they are too few, and dropped where none is left. `changes` are those of the level below, and what it gives
/// those of `level`, counted from the leaves at 1, with the loose rows and the removed nodes of both.
///
/// The nodes are made anew by at most `workers` workers beside each other. Only nodes whose children changed in
/// number or place are written. `NoMemory` where memory was refused: the batch has to be rolled back.
pub fn change_level<R: Threads + Sync, G: Gate + Sync, L: Ledger>(
    rt: &R,
    alloc: Global,
    arena: &mut Arena,
    shape: Shape,
    changes: &Changes,
    level: u32,
    workers: u32,
    gate: &G,
    steps: &mut Steps<L>,
) -> Result<Changes, NoMemory>
    requires under_way { IsSome arena.old.begun }
    requires none_lent { NoneLent arena.old.places }
    requires some { 1 ≤ workers }
    requires few { workers ≤ MOST_WORKERS }
    requires level { (2 ≤ level) × (level < shape.levels) }
    requires stands { (p : Pass) × (shape.levels ≡ suc p.tree.0)
        × StandsAt p (level - 1) (map_of arena.old.places) changes.now }
    ensures stands { IfOk result (λ made.
        (p : Pass) → shape.levels ≡ suc p.tree.0
        → StandsAt p (level - 1) (map_of arena.old.places) changes.now
        → StandsAt p level (map_of arena.new.places) made) }
    ensures begun { arena.new.begun ≡ arena.old.begun }
    ensures none_lent { NoneLent arena.new.places }
    ensures within { IfOk result (λ made. (n : ℕ) → IsWithin n changes.now → IsWithin n made) }
    ensures ticks { (n : ℕ) → IsWithin n changes.now → steps.new ≤ steps.old + 2 * n }
    ensures moved { length arena.new.moved + steps.old ≤ length arena.old.moved + steps.new }
{
    let planned = plan_all(alloc, arena, changes.nodes.as_slice())?;
    let mut made = Changes {
        nodes: ChangeList::from_vec(Vec::with_capacity(alloc, planned.len())?),
        loose: changes.loose.try_copy()?,
        removed: RemovedList::from_vec(Vec::from_slice(alloc, changes.removed.as_slice())?),
    };
    let mut tasks = Vec::with_capacity(alloc, planned.len())?;
    let worked = work_all(
        rt, alloc, arena, level, planned, &mut tasks, &mut made, workers, gate, steps,
    );
    match worked {
        Ok(()) => {
            tasks.destroy_empty();
            Ok(made)
        }
        Err(refused) => {
            give_all(arena, tasks);
            Err(refused)
        }
    }
}
