// The work on the touched nodes of a level: their nodes are lent, made anew beside each other, and given back.
ghost use Rattle.std.specs.Prelude.{◌≡◌, ◌+◌, ◌<◌, ◌≤◌, ◌∷◌, [], length, map, sum_by};
ghost use Rattle.std.specs.Prelude.{Some, None, IsSome, IfOk, OnOk, OnErr};
ghost use Rattle.std.specs.List.{AllByRecursion};
ghost use Rattle.std.specs.Vec.{vec_len, vec_capacity};
ghost use Rattle.palm_base.specs.Pass.{is_small};
ghost use Rattle.palm_base.specs.declared.bounds.TheConstants.{LEAST_CHILDREN};
ghost use Rattle.palm_node.specs.declared.node.Node.{Node};
ghost use Rattle.palm_node.specs.declared.id.NodeId.{NodeId};
ghost use Rattle.palm_arena.specs.ArenaState.{IsLent, NoneLent};
ghost use Rattle.palm_arena.specs.Reads.{map_of};
ghost use Rattle.palm_level.specs.Plans.{IsPlanned};
ghost use Rattle.palm_level.specs.Tasks.{StandsForAny, FinishesAny, planned_id, Distinct, HasLent, IsTask};
ghost use Rattle.palm_level.specs.Tasks.{later_of, HasFinished, TaskIsLent, TaskComesHome, Took, SameLent};
ghost use Rattle.palm_level.specs.Tasks.{PutsBackAny, later_count, WorkIsLent, Starts, IsThere, LentTo, ComesHome};
ghost use Rattle.palm_level.specs.Tasks.{WorkMayRun, TaskRan};

use crate::node_work::{LaterNode, LevelWork};
use crate::plan::{Parent, Planned};
use palm_arena::Arena;
use palm_base::{LEAST_CHILDREN, NoMemory, Steps};
use palm_node::{Change, Changes, Node, NodeId, Piece, PieceList, Removed, RemovedList};
use palm_share::Job;
use std::alloc::Global;
use std::sync::ledger::Ledger;

/// The work on a node whose children changed, with its lease where it is made anew.
pub struct Task<'a> {
    /// The node.
    pub parent: Parent<'a>,
    /// The work with its lease. None where the node stays as it is.
    pub work: Option<LevelWork<'a>>,
}

impl Job for Task<'_> {
    ghost ready = { λ task. WorkMayRun task.work };

    ghost ran = { λ before after. TaskRan before after };

    fn run(&mut self) {
        if let Some(work) = &mut self.work {
            work.run();
        }
    }
}

// Lends the node of a parent that is made anew.
fn start<'a, L: Ledger>(
    arena: &mut Arena,
    planned: Planned<'a>,
    steps: &mut Steps<L>,
) -> Result<Task<'a>, NoMemory>
    requires under_way { IsSome arena.old.begun }
    requires there { IsThere arena.old.places planned planned.room }
    ensures ok { IfOk result (λ task. Starts planned.entry arena.old arena.new task) }
    ensures err { OnErr result (arena.new ≡ arena.old) }
    ensures ticks { steps.new ≤ steps.old + 1 }
    ensures moved { length arena.new.moved + steps.old ≤ length arena.old.moved + steps.new }
{
    let Planned { parent, room } = planned;
    let work = match room {
        None => None,
        Some(room) => Some(LevelWork {
            lease: arena.lend(parent.node, steps)?,
            changes: parent.changes,
            children: room.children,
            later: room.later,
        }),
    };
    Ok(Task { parent, work })
}

/// Whether so few children are left that their node goes: some, and fewer than `LEAST_CHILDREN`.
pub fn is_few(children: &[Piece]) -> bool
    ensures { result ≡ is_small LEAST_CHILDREN children.now }
{
    !children.is_empty() && children.len() < LEAST_CHILDREN
}

// Takes ids for the later nodes that stand for one, and lists them.
fn take_later<L: Ledger>(
    arena: &mut Arena,
    later: Vec<LaterNode>,
    pieces: &mut PieceList,
    steps: &mut Steps<L>,
) -> Result<(), NoMemory>
    requires { IsSome arena.old.begun }
    ensures ok { OnOk result (Took arena.old arena.new pieces.old pieces.new later.items) }
    ensures same_lent { SameLent arena.old.places arena.new.places }
    ensures begun { arena.new.begun ≡ arena.old.begun }
    ensures ticks { steps.new ≤ steps.old + vec_len later }
    ensures moved { length arena.new.moved + steps.old ≤ length arena.old.moved + steps.new }
{
    for one in later {
        let id = arena.take(Node::Inner(one.node), steps)?;
        pieces.push(Piece { low: one.low, id })?;
    }
    Ok(())
}

// Gives a node back that was made anew, and gives the pieces that stand for it: it is dropped where no child is
// left, and removed where few are, so that no piece stands for it.
fn put_back<L: Ledger>(
    alloc: Global,
    arena: &mut Arena,
    low: u64,
    level: u32,
    work: LevelWork<'_>,
    removed: &mut RemovedList,
    steps: &mut Steps<L>,
) -> Result<PieceList, NoMemory>
    requires under_way { IsSome arena.old.begun }
    requires lent { IsLent arena.old.places work.lease.id }
    ensures ok { IfOk result (λ pieces.
        PutsBackAny level low work.entry arena.old arena.new removed.old removed.new pieces) }
    ensures home { ComesHome arena.old.places arena.new.places (Some work.entry) }
    ensures begun { arena.new.begun ≡ arena.old.begun }
    ensures ticks { steps.new ≤ steps.old + vec_len work.entry.later }
    ensures moved { length arena.new.moved + steps.old ≤ length arena.old.moved + steps.new }
{
    let LevelWork {
        lease,
        changes: _,
        children,
        later,
    } = work;
    let id = lease.id();
    arena.give_back(lease);
    let mut pieces = PieceList::new(alloc);
    if children.is_empty() {
        arena.drop_node(id)?;
        return Ok(pieces);
    }
    if is_few(&children) {
        removed.push(Removed { level, id })?;
        return Ok(pieces);
    }
    pieces.push(Piece { low, id })?;
    take_later(arena, later, &mut pieces, steps)?;
    Ok(pieces)
}

// The one piece that stands for a node that stays as it is: itself.
fn stay(alloc: Global, low: u64, node: NodeId) -> Result<PieceList, NoMemory>
    ensures { IfOk result (λ pieces. pieces ≡ record { low = low; id = node } ∷ []) }
{
    let mut pieces = PieceList::new(alloc);
    pieces.push(Piece { low, id: node })?;
    Ok(pieces)
}

// Gives a node back, and gives the pieces that stand for it.
fn stand_for<L: Ledger>(
    alloc: Global,
    arena: &mut Arena,
    low: u64,
    node: NodeId,
    level: u32,
    work: Option<LevelWork<'_>>,
    removed: &mut RemovedList,
    steps: &mut Steps<L>,
) -> Result<PieceList, NoMemory>
    requires under_way { IsSome arena.old.begun }
    requires lent { WorkIsLent arena.old.places work }
    ensures ok { IfOk result (λ pieces.
        StandsForAny level low node work.entry arena.old arena.new removed.old removed.new pieces) }
    ensures home { ComesHome arena.old.places arena.new.places work.entry }
    ensures begun { arena.new.begun ≡ arena.old.begun }
    ensures ticks { steps.new ≤ steps.old + later_count work.entry }
    ensures moved { length arena.new.moved + steps.old ≤ length arena.old.moved + steps.new }
{
    let Some(work) = work else {
        return stay(alloc, low, node);
    };
    put_back(alloc, arena, low, level, work, removed, steps)
}

// Ends the work on a node, and lists what became of it.
fn finish<L: Ledger>(
    alloc: Global,
    arena: &mut Arena,
    level: u32,
    task: Task<'_>,
    changes: &mut Changes,
    steps: &mut Steps<L>,
) -> Result<(), NoMemory>
    requires under_way { IsSome arena.old.begun }
    requires lent { WorkIsLent arena.old.places task.work }
    ensures ok { OnOk result (FinishesAny level task.entry arena.old arena.new changes.old changes.new) }
    ensures home { ComesHome arena.old.places arena.new.places task.entry.work }
    ensures begun { arena.new.begun ≡ arena.old.begun }
    ensures ticks { steps.new ≤ steps.old + later_count task.entry.work }
    ensures moved { length arena.new.moved + steps.old ≤ length arena.old.moved + steps.new }
{
    let Task { parent, work } = task;
    let Parent {
        node,
        path,
        low,
        ..
    } = parent;
    let removed = &mut changes.removed;
    let pieces = stand_for(alloc, arena, low, node, level, work, removed, steps)?;
    changes.nodes.push(Change { node, path, pieces })?;
    Ok(())
}

/// Lends the nodes of all parents that are made anew, a step for each. The tasks stand in the other order.
/// `NoMemory` where memory was refused: the nodes of the tasks that are listed are lent.
pub fn lend_all<'a, L: Ledger>(
    arena: &mut Arena,
    planned: Vec<Planned<'a>>,
    tasks: &mut Vec<Option<Task<'a>>>,
    steps: &mut Steps<L>,
) -> Result<(), NoMemory>
    requires under_way { IsSome arena.old.begun }
    requires none_lent { NoneLent arena.old.places }
    requires planned { AllByRecursion (IsPlanned (map_of arena.old.places)) planned.items }
    requires distinct { Distinct (map planned_id planned.items) }
    requires empty { tasks.old.items ≡ [] }
    requires room { vec_len planned ≤ vec_capacity tasks.old }
    ensures lent { LentTo arena.new.places tasks.new.items }
    ensures begun { arena.new.begun ≡ arena.old.begun }
    ensures ok { OnOk result (HasLent arena.old arena.new planned.entry.items tasks.new.items) }
    ensures ticks { steps.new ≤ steps.old + vec_len planned.entry }
    ensures moved { length arena.new.moved + steps.old ≤ length arena.old.moved + steps.new }
{
    let mut planned = planned;
    while let Some(next) = planned.pop() {
        let task = start(arena, next, steps)?;
        tasks.push_reserved(Some(task));
    }
    Ok(())
}

/// Ends the work on all nodes, the last task first, and lists what became of them. Where memory is refused, the
/// tasks that are left still have their leases.
pub fn finish_all<L: Ledger>(
    alloc: Global,
    arena: &mut Arena,
    level: u32,
    tasks: &mut Vec<Option<Task<'_>>>,
    changes: &mut Changes,
    steps: &mut Steps<L>,
) -> Result<(), NoMemory>
    requires under_way { IsSome arena.old.begun }
    requires lent { LentTo arena.old.places tasks.old.items }
    requires there { AllByRecursion IsTask tasks.old.items }
    ensures lent { LentTo arena.new.places tasks.new.items }
    ensures begun { arena.new.begun ≡ arena.old.begun }
    ensures ok { OnOk result (HasFinished level arena.old arena.new tasks.old.items changes.old changes.new) }
    ensures empty { OnOk result (tasks.new.items ≡ []) }
    ensures ticks { steps.new ≤ steps.old + sum_by later_of tasks.old.items }
    ensures moved { length arena.new.moved + steps.old ≤ length arena.old.moved + steps.new }
{
    while let Some(item) = tasks.pop() {
        let Some(task) = item else { unreachable!() };
        finish(alloc, arena, level, task, changes, steps)?;
    }
    Ok(())
}

// Gives the lease of a task back.
fn give(arena: &mut Arena, task: Option<Task<'_>>)
    requires { TaskIsLent arena.old.places task }
    ensures home { TaskComesHome arena.old.places arena.new.places task.entry }
    ensures begun { arena.new.begun ≡ arena.old.begun }
    ensures moved { arena.new.moved ≡ arena.old.moved }
{
    let Some(Task { parent: _, work }) = task else {
        return;
    };
    let Some(work) = work else {
        return;
    };
    let LevelWork {
        lease,
        changes: _,
        children: _,
        later: _,
    } = work;
    arena.give_back(lease);
}

/// Gives all leases back.
pub fn give_all(arena: &mut Arena, tasks: Vec<Option<Task<'_>>>)
    requires { LentTo arena.old.places tasks.items }
    ensures none_lent { NoneLent arena.new.places }
    ensures begun { arena.new.begun ≡ arena.old.begun }
    ensures moved { arena.new.moved ≡ arena.old.moved }
{
    let mut tasks = tasks;
    while let Some(task) = tasks.pop() {
        give(arena, task);
    }
    tasks.destroy_empty();
}
