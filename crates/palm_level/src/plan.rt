// What is done to the parents of changed nodes: who they are, which of them are made anew, and the room for that.
ghost use Rattle.std.specs.Prelude.{◌≡◌, ◌+◌, ◌-◌, ◌<◌, ◌≤◌, ◌∷◌, length, take, drop};
ghost use Rattle.std.specs.Prelude.{map, true, false, IfOk, Some, MatchOption};
ghost use Rattle.std.specs.List.{AllByRecursion};
ghost use Rattle.palm_node.specs.InnerNode.{IsInner};
ghost use Rattle.palm_arena.specs.Reads.{map_of};
ghost use Rattle.palm_level.specs.Splices.{last_step, path_above, children_left, PlacesRise};
ghost use Rattle.palm_level.specs.Runs.{runs};
ghost use Rattle.palm_level.specs.Groups.{touched_of, is_alone, is_still, low_at};
ghost use Rattle.palm_level.specs.Plans.{Fits, IsInnerAt, CanWork, IsRoomAt, planned_key, touched_by, piece_total};
ghost use Rattle.palm_level.specs.Plans.{HasRoom, IsPlanned};

use crate::node_work::{LaterNode, last_step_of, splice};
use palm_arena::Arena;
use palm_base::{MOST_CHILDREN, NoMemory};
use palm_node::{Change, Inner, Node, NodeId, Path, Piece, PieceList, pieces};
use std::alloc::Global;

/// An inner node with children that changed.
#[derive(Drop)]
pub struct Parent<'a> {
    /// Where it is.
    pub node: NodeId,
    /// The way to it from the root.
    pub path: Path,
    /// Its low, as its parent has written it: a packed key, and 0 of a first child.
    pub low: u64,
    /// The changes of its children, from left to right.
    pub changes: &'a [Change],
}

/// The room that the work on a node needs.
#[derive(Drop)]
pub struct Room {
    /// For what stands for its children.
    pub children: Vec<Piece>,
    /// For the nodes past the first that these are cut into.
    pub later: Vec<LaterNode>,
}

/// A node with the room to make it anew, and without it where it stays as it is.
#[derive(Drop)]
pub struct Planned<'a> {
    /// The node.
    pub parent: Parent<'a>,
    /// The room to make it anew.
    pub room: Option<Room>,
}

// How many of the changes, from the first on, are of one parent.
fn run_length(changes: &[Change]) -> usize
    requires some { 1 ≤ length changes.now }
    requires paths { AllByRecursion (λ change. 0 < length change.path) changes.now }
    ensures some { 1 ≤ result }
    ensures inside { result ≤ length changes.now }
    ensures run { runs changes.now ≡ take result changes.now ∷ runs (drop result changes.now) }
{
    let (parent, _) = last_step_of(&changes[0].path);
    for i in 1..changes.len() {
        let (other, _) = last_step_of(&changes[i].path);
        if other != parent {
            return i;
        }
    }
    changes.len()
}

// Whether one piece stands for a node: itself.
fn stands_alone(change: &Change) -> bool
    ensures { result ≡ is_alone change.now.node change.now.pieces }
{
    match change.pieces.as_slice() {
        [piece] => piece.id == change.node,
        _ => false,
    }
}

/// Whether each of the changed nodes stands for itself alone, so that their parent stays as it is.
pub fn all_stand_alone(changes: &[Change]) -> bool
    ensures { result ≡ is_still changes.now }
{
    for change in changes {
        if !stands_alone(change) {
            return false;
        }
    }
    true
}

// How many pieces stand for changed children, and how many children the node has. `NoMemory` where they are more than
// memory holds.
fn count_most(inner: &Inner, changes: &[Change]) -> Result<usize, NoMemory>
    ensures { IfOk result (λ count. count ≡ length inner.now.children + piece_total changes.now) }
{
    let mut count = inner.len();
    for change in changes {
        match count.checked_add(change.pieces.len()) {
            Some(more) => count = more,
            None => return Err(NoMemory),
        }
    }
    Ok(count)
}

/// What is left of the children of an inner node where some of them changed: those that didn't, and what stands for
/// those that did. `None` where each of these stands for itself alone, so that the node stays as it is. `NoMemory`
/// where room was refused.
pub fn children_after(
    alloc: Global,
    inner: &Inner,
    changes: &[Change],
) -> Result<Option<PieceList>, NoMemory>
    requires inner { IsInner inner.now }
    requires paths { AllByRecursion (λ change. 0 < length change.path) changes.now }
    requires places { PlacesRise 0 (length inner.now.children) changes.now }
    ensures { IfOk result (λ left.
        MatchOption left (is_still changes.now ≡ true) (λ children.
        (is_still changes.now ≡ false) × (children ≡ children_left inner.now changes.now))) }
{
    if all_stand_alone(changes) {
        return Ok(None);
    }
    let most = count_most(inner, changes)?;
    let mut children = Vec::with_capacity(alloc, most)?;
    splice(inner, changes, &mut children);
    Ok(Some(PieceList::from_vec(children)))
}

// Room for the work on a node.
fn make_room(alloc: Global, inner: &Inner, changes: &[Change]) -> Result<Room, NoMemory>
    requires inner { IsInner inner.now }
    requires places { PlacesRise 0 (length inner.now.children) changes.now }
    ensures { IfOk result (λ room. HasRoom inner.now changes.now room) }
{
    let most = count_most(inner, changes)?;
    Ok(Room {
        children: Vec::with_capacity(alloc, most)?,
        later: Vec::with_capacity(alloc, pieces(MOST_CHILDREN, most))?,
    })
}

// The way to the node that a path goes through last.
fn path_to_parent(path: &Path) -> Path
    ensures { result ≡ path_above path.now }
{
    path.front(path.len().saturating_sub(1))
}

// The low of the node that a path leads to: its parent's separator before it, and 0 where it is the first child.
fn low_of_path(arena: &Arena, path: &Path) -> u64
    requires path { 1 ≤ length path.now }
    requires inner { IsInnerAt (map_of arena.now.places) (last_step path.now) }
    ensures { result ≡ low_at (map_of arena.now.places) path.now }
{
    let (node, child) = last_step_of(path);
    let Node::Inner(inner) = arena.read(node) else {
        unreachable!()
    };
    inner.low_of_child(child, 0)
}

// The room to make a node anew, and none where it stays as it is.
fn plan_room(
    alloc: Global,
    arena: &Arena,
    node: NodeId,
    changes: &[Change],
) -> Result<Option<Room>, NoMemory>
    requires { CanWork (map_of arena.now.places) node changes.now }
    ensures { IfOk result (λ room. IsRoomAt (map_of arena.now.places) node changes.now room) }
{
    if all_stand_alone(changes) {
        return Ok(None);
    }
    let Node::Inner(inner) = arena.read(node) else {
        unreachable!()
    };
    // The contract of `len` says that the node is within its bounds, as `make_room` requires.
    let _ = inner.len();
    Ok(Some(make_room(alloc, inner, changes)?))
}

// The parent of the changes of a run.
fn find_parent<'a>(arena: &Arena, run: &'a [Change]) -> Parent<'a>
    requires { Fits (map_of arena.now.places) run.now }
    ensures { touched_by result ≡ touched_of (map_of arena.now.places) run.now }
{
    let first = &run[0];
    let path = path_to_parent(&first.path);
    let (node, _) = last_step_of(&first.path);
    Parent {
        node,
        low: low_of_path(arena, &path),
        path,
        changes: run,
    }
}

/// The parents of the changes, each with the room to make it anew, in order. `NoMemory` where room was refused.
pub fn plan_all<'a>(
    alloc: Global,
    arena: &Arena,
    changes: &'a [Change],
) -> Result<Vec<Planned<'a>>, NoMemory>
    requires paths { AllByRecursion (λ change. 0 < length change.path) changes.now }
    requires fits { AllByRecursion (Fits (map_of arena.now.places)) (runs changes.now) }
    ensures parents { IfOk result (λ planned.
        map planned_key planned.items
        ≡ map (touched_of (map_of arena.now.places)) (runs changes.now)) }
    ensures planned { IfOk result (λ planned.
        AllByRecursion (IsPlanned (map_of arena.now.places)) planned.items) }
{
    let mut planned = Vec::new(alloc);
    let mut rest = changes;
    while !rest.is_empty() {
        let (run, after) = rest.split_at(run_length(rest));
        let parent = find_parent(arena, run);
        let room = plan_room(alloc, arena, parent.node, run)?;
        planned.push(Planned { parent, room })?;
        rest = after;
    }
    Ok(planned)
}
