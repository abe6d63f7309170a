// The way of a part down the tree: at each inner node to the child whose range has the part's key.
ghost use Rattle.std.specs.Prelude.{◌≡◌, ◌<◌, ◌≤◌, ◌⊎◌, [], length, map, All, IfOk};
ghost use Rattle.std.specs.List.{AllByRecursion, flat_map};
ghost use Rattle.std.specs.Vec.{vec_len, vec_capacity};
ghost use Rattle.palm_arena.specs.Leaves.{leaves_at};
ghost use Rattle.palm_arena.specs.Reads.{map_of, HasTree};
ghost use Rattle.palm_share.specs.Jobs.{Holds};
ghost use Rattle.palm_route.specs.Groups.{IsRoutedTo};
ghost use Rattle.palm_route.specs.Shares.{HasRoom, AreCut, RoutesOne, share_of, routed_of};

use crate::part::{Part, PartList, Routed, RoutedList};
use palm_arena::{Arena, Shape};
use palm_base::{ItemList, NoMemory};
use palm_node::{Node, Path};
use palm_share::{Gate, Job, MOST_WORKERS, each_mut};
use std::alloc::Global;
use std::thread::Threads;

// A part that is still at the root.
fn at_root(shape: Shape, part: &Part) -> Routed
    ensures { result ≡ record { part = part.now; leaf = shape.root; path = []; low = 0 } }
{
    Routed {
        part: part.copy(),
        leaf: shape.root,
        path: Path::new(),
        low: 0,
    }
}

// Walks a part from the root to the leaf whose range has its key. What is known of the way is written where it is
// to stand, since it is wide.
fn walk(arena: &Arena, shape: Shape, routed: &mut Routed)
    requires tree { HasTree (map_of arena.now.places) shape }
    requires begin { routed.old ≡ record { part = routed.old.part; leaf = shape.root; path = []; low = 0 } }
    ensures part { routed.new.part ≡ routed.old.part }
    ensures routed { IsRoutedTo (leaves_at (map_of arena.now.places) shape) routed.new }
{
    for _level in 1..shape.levels {
        let Node::Inner(inner) = arena.read(routed.leaf) else {
            unreachable!()
        };
        let child = inner.route(routed.part.key);
        routed.path.push(routed.leaf, child);
        routed.low = inner.low_of_child(child, routed.low);
        routed.leaf = inner.child(child);
    }
}

// Puts a part at the leaf whose range has its key behind others, for which there is room.
fn route(arena: &Arena, shape: Shape, part: &Part, routed: &mut Vec<Routed>)
    requires tree { HasTree (map_of arena.now.places) shape }
    requires room { length routed.old.items < vec_capacity routed.old }
    ensures ok { RoutesOne (leaves_at (map_of arena.now.places) shape) part.now routed.old.items
        routed.new.items }
    ensures capacity { vec_capacity routed.new ≡ vec_capacity routed.old }
{
    routed.push_reserved(at_root(shape, part));
    let Some(last) = routed.last_mut() else {
        unreachable!()
    };
    walk(arena, shape, last);
}

// A share of the parts that are routed down a tree, and room for them once they are routed.
#[derive(Drop)]
struct DescentWork<'a> {
    arena: &'a Arena,
    shape: Shape,
    parts: &'a [Part],
    routed: Vec<Routed>,
}

impl<'a> Job for DescentWork<'a> {
    ghost ready = { λ work. HasTree (map_of work.arena.now.places) work.shape × HasRoom work };

    ghost ran = { λ before after.
        (map (λ one. one.part) after.routed.items ≡ before.parts.now)
        × AllByRecursion (IsRoutedTo (leaves_at (map_of before.arena.now.places) before.shape))
        after.routed.items };

    fn run(&mut self) {
        for part in self.parts {
            route(self.arena, self.shape, part, &mut self.routed);
        }
    }
}

// Cuts parts into so many shares, no two of which differ by more than one part.
fn cut<'a>(
    alloc: Global,
    arena: &'a Arena,
    shape: Shape,
    parts: &'a [Part],
    shares: usize,
) -> Result<Vec<Option<DescentWork<'a>>>, NoMemory>
    requires { length parts.now ≡ 0 ⊎ 0 < shares }
    ensures shares { IfOk result (λ works. AreCut parts.now (map share_of works.items)) }
    ensures count { IfOk result (λ works. vec_len works ≡ shares) }
    ensures begin { IfOk result (λ works.
        AllByRecursion
        (Holds (λ work. (work.arena.now ≡ arena.now) × (work.shape ≡ shape) × HasRoom work))
        works.items) }
{
    let mut rest = parts;
    let mut works = Vec::with_capacity(alloc, shares)?;
    while works.len() < shares {
        let (parts, behind) = rest.split_at(rest.len().div_ceil(shares - works.len()));
        let routed = Vec::with_capacity(alloc, parts.len())?;
        works.push_reserved(Some(DescentWork {
            arena,
            shape,
            parts,
            routed,
        }));
        rest = behind;
    }
    Ok(works)
}

// For how many routed parts there must be room beside their shares: for none where all are one share.
fn room_beside(count: usize, shares: usize) -> usize
    ensures { (shares ≡ 1 → ⊥) → result ≡ count }
{
    if shares == 1 { 0 } else { count }
}

// Moves the routed parts of all shares to where there is room for them.
fn append_all(works: Vec<Option<DescentWork<'_>>>, routed: &mut Vec<Routed>)
    requires there { All (Holds (λ _. Unit {0})) works.items }
    requires empty { routed.old.items ≡ [] }
    requires room { length (flat_map routed_of works.items) ≤ vec_capacity routed.old }
    ensures { routed.new.items ≡ flat_map routed_of works.entry.items }
{
    for work in works {
        let Some(mut work) = work else { unreachable!() };
        let Ok(()) = routed.append(&mut work.routed) else {
            unreachable!()
        };
    }
}

// The routed parts of all shares. Those of a single share stay where they are, and those of several are moved to
// where there is room for them.
fn join(mut works: Vec<Option<DescentWork<'_>>>, mut room: Vec<Routed>) -> Vec<Routed>
    requires there { All (Holds (λ _. Unit {0})) works.items }
    requires empty { room.items ≡ [] }
    requires room { (length works.items ≡ 1 → ⊥)
        → length (flat_map routed_of works.items) ≤ vec_capacity room }
    ensures { result.items ≡ flat_map routed_of works.entry.items }
{
    if works.len() == 1 {
        let Some(Some(work)) = works.pop() else {
            unreachable!()
        };
        return work.routed;
    }
    append_all(works, &mut room);
    room
}

/// Routes parts down a tree, by at most `workers` workers beside each other: each part to the leaf whose range has
/// its key. The parts keep their order. They are cut into as many shares as there are workers, or as there are
/// parts where these are fewer, and no share has two parts more than another. Before each share its worker passes
/// the gate.
///
/// `NoMemory` where room for them was refused, before any worker starts.
pub fn descend<R: Threads + Sync, G: Gate + Sync>(
    rt: &R,
    alloc: Global,
    arena: &Arena,
    shape: Shape,
    parts: PartList,
    workers: u32,
    gate: &G,
) -> Result<RoutedList, NoMemory>
    requires tree { HasTree (map_of arena.now.places) shape }
    requires some { 1 ≤ workers }
    requires few { workers ≤ MOST_WORKERS }
    ensures parts { IfOk result (λ routed. map (λ one. one.part) routed ≡ parts) }
    ensures routed { IfOk result (λ routed.
        AllByRecursion (IsRoutedTo (leaves_at (map_of arena.now.places) shape)) routed) }
{
    let shares = parts.len().min(workers as usize);
    let room = Vec::with_capacity(alloc, room_beside(parts.len(), shares))?;
    let mut works = cut(alloc, arena, shape, parts.as_slice(), shares)?;
    each_mut(rt, alloc, works.as_mut_slice(), workers, gate);
    Ok(ItemList::from_vec(join(works, room)))
}
