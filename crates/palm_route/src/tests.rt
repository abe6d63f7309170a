// Parts put together by leaf, and the way of calls down an empty tree.
ghost use Rattle.std.specs.Prelude.{◌≡◌, ◌<◌, ◌≤◌, IfOk};
ghost use Rattle.palm_arena.specs.Reads.{map_of, HasTree};
ghost use Rattle.palm_share.specs.declared.share.TheConstants.{MOST_WORKERS};

use super::*;
use palm_arena::{Arena, Shape};
use palm_base::{Amount, Call, Digits, Entry, Limit, NoMemory, Steps};
use palm_node::{Leaf, Node, NodeId, Path};
use palm_share::{Gate, Who};
use std::alloc::Global;
use std::marker::Brand;
use std::process::Abort;
use std::sync::atomic::{AtomicU64, Ordering};
use std::sync::ledger::{Blank, Ledger};
use std::test::Fail;
use std::thread::Threads;

fn digits(rt: &impl Abort, prefix: &str) -> Digits {
    Digits::read(prefix.as_bytes()).expect(rt, "a prefix")
}

// A part of an entry that looks for a prefix, at a leaf whose range begins at this key.
fn at_leaf(entry: u64, number: u64, prefix: Digits, leaf: usize, low: u64) -> Routed {
    Routed {
        part: Part {
            entry,
            number,
            key: prefix.key(),
            ask: Ask::Look,
        },
        leaf: NodeId { place: leaf },
        path: Path::new(),
        low,
    }
}

// The group is of this leaf, and its parts are of these entries.
fn assert_group(rt: &impl Abort, group: &Group, leaf: usize, entries: &[u64]) {
    assert_eq!(rt; group.leaf.place, leaf);
    assert_eq!(rt; group.parts.len(), entries.len(), "parts of {leaf}");
    for (part, entry) in group.parts.as_slice().iter().zip(entries) {
        assert_eq!(rt; part.entry, *entry, "a part of {leaf}");
    }
}

// The groups are of these leaves, in order, and the parts of each are of these entries.
fn assert_groups(rt: &impl Abort, groups: Groups, wanted: &[(usize, &[u64])]) {
    assert_eq!(rt; groups.len(), wanted.len());
    for (group, want) in groups.into_list().iter().zip(wanted) {
        let (leaf, entries) = *want;
        assert_group(rt, group, leaf, entries);
    }
}

// The parts of Get 26, Get 10 and List 18 19, routed to leaves of 10 to 18 and from 19 on.
fn routed_parts(rt: &impl Abort, alloc: Global) -> Result<RoutedList, NoMemory> {
    let second = digits(rt, "19").key();
    let parts = [
        (0, 0, "26", 2, second),
        (1, 0, "10", 1, 0),
        (2, 0, "18", 1, 0),
        (2, 1, "19", 2, second),
    ];
    let mut routed = RoutedList::new(alloc);
    for (entry, number, prefix, leaf, low) in parts {
        routed.push(at_leaf(entry, number, digits(rt, prefix), leaf, low))?;
    }
    Ok(routed)
}

#[test]
fn groups_parts_by_leaf(rt: HostRuntime) -> Result<(), Fail> {
    let routed = routed_parts(&rt, rt.alloc())?;
    let groups = group(&rt, rt.alloc(), routed, 2)?;
    assert_groups(&rt, groups, &[(1, &[1, 2]), (2, &[0, 2])]);
    Ok(())
}

#[test]
fn groups_nothing(rt: HostRuntime) -> Result<(), Fail> {
    let groups = group(&rt, rt.alloc(), RoutedList::new(rt.alloc()), 1)?;
    assert!(rt; groups.is_empty());
    Ok(())
}

// An arena of the empty tree: a leaf of no rows.
fn empty_tree<L: Ledger>(alloc: Global, blank: Blank) -> Result<(Arena, Shape), NoMemory>
    requires blank_name { blank.name ≡ L.name }
    requires blank_parts { blank.parts ≡ L.parts }
    requires blank { 0 < blank.parts }
    ensures { IfOk result (λ made. HasTree (map_of made.0.places) made.1) }
{
    let mut steps = Steps::<L>::new(blank);
    let mut arena = Arena::new(alloc)?;
    arena.begin();
    let root = arena.take(Node::Leaf(Leaf::from_rows(&[])), &mut steps)?;
    arena.commit();
    Ok((arena, Shape { root, levels: 1 }))
}

// One call of each kind. The List meets the one leaf there is.
fn calls(rt: &impl Abort) -> [Call; 5] {
    let prefix = digits(rt, "44");
    let number = digits(rt, "442");
    [
        Call::Set {
            prefix,
            rate: Amount::new(5).expect(rt, "a rate"),
        },
        Call::Del { prefix },
        Call::Get { prefix },
        Call::Rate { number },
        Call::List {
            from: prefix,
            to: number,
            limit: Limit::new(3).expect(rt, "a limit"),
        },
    ]
}

// A batch of one call of each kind.
fn batch_of_calls(rt: &impl Abort, alloc: Global) -> Result<Vec<Entry>, NoMemory> {
    let mut batch = Vec::new(alloc);
    for call in calls(rt) {
        batch.push(Entry {
            caller: 0,
            place: 0,
            call,
        })?;
    }
    Ok(batch)
}

// Counts how often it is passed.
#[derive(Drop)]
struct Passed {
    count: AtomicU64,
}

impl Gate for Passed {
    fn pass(&self, _who: Who, _turn: u64) {
        self.count.fetch_add(1, Ordering::SeqCst);
    }
}

// The calls have seven parts, which go to the one leaf in this number of shares.
fn assert_routed(
    rt: &(impl Abort + Threads + Sync),
    alloc: Global,
    arena: &Arena,
    shape: Shape,
    workers: u32,
    shares: u64,
) -> Result<(), NoMemory>
    requires tree { HasTree (map_of arena.now.places) shape }
    requires some { 1 ≤ workers }
    requires few { workers ≤ MOST_WORKERS }
{
    let batch = batch_of_calls(rt, alloc)?;
    let parts = expand(alloc, arena, shape, &batch)?;
    assert_eq!(rt; parts.len(), 7);
    let gate = Passed {
        count: AtomicU64::new(0),
    };
    let routed = descend(rt, alloc, arena, shape, parts, workers, &gate)?;
    assert_eq!(rt;
        gate.count.load(Ordering::SeqCst),
        shares,
        "{workers} workers"
    );
    let groups = group(rt, alloc, routed, workers)?;
    assert_groups(rt, groups, &[(shape.root.place, &[0, 1, 2, 3, 3, 3, 4])]);
    Ok(())
}

#[test]
fn routes_each_call_to_the_leaf_of_an_empty_tree(rt: HostRuntime) -> Result<(), Fail> {
    let (arena, shape) = empty_tree::<Brand>(rt.alloc(), Blank::new(1))?;
    for (workers, shares) in [(1, 1), (2, 2), (3, 3), (4, 4), (5, 5), (64, 7)] {
        assert_routed(&rt, rt.alloc(), &arena, shape, workers, shares)?;
    }
    Ok(())
}

// A batch of so many Gets, each of which has one part.
fn batch_of_gets(rt: &impl Abort, alloc: Global, count: usize) -> Result<Vec<Entry>, NoMemory> {
    let prefix = digits(rt, "44");
    let mut batch = Vec::new(alloc);
    for _ in 0..count {
        batch.push(Entry {
            caller: 0,
            place: 0,
            call: Call::Get { prefix },
        })?;
    }
    Ok(batch)
}

// So many parts are routed by so many workers in this number of shares.
fn assert_shares(
    rt: &(impl Abort + Threads + Sync),
    alloc: Global,
    arena: &Arena,
    shape: Shape,
    count: usize,
    workers: u32,
    shares: u64,
) -> Result<(), NoMemory>
    requires tree { HasTree (map_of arena.now.places) shape }
    requires some { 1 ≤ workers }
    requires few { workers ≤ MOST_WORKERS }
{
    let batch = batch_of_gets(rt, alloc, count)?;
    let parts = expand(alloc, arena, shape, &batch)?;
    let gate = Passed {
        count: AtomicU64::new(0),
    };
    let routed = descend(rt, alloc, arena, shape, parts, workers, &gate)?;
    assert_eq!(rt; routed.len(), count);
    assert_eq!(rt;
        gate.count.load(Ordering::SeqCst),
        shares,
        "{count} parts, {workers} workers"
    );
    Ok(())
}

#[test]
fn parts_are_routed_in_a_share_for_each_worker_that_has_one(rt: HostRuntime) -> Result<(), Fail> {
    let (arena, shape) = empty_tree::<Brand>(rt.alloc(), Blank::new(1))?;
    // the parts, and the shares of 1, 3, 5 and 64 workers
    for (parts, shares) in [
        (0, [0, 0, 0, 0]),
        (1, [1, 1, 1, 1]),
        (2, [1, 2, 2, 2]),
        (7, [1, 3, 5, 7]),
        (12, [1, 3, 5, 12]),
        (64, [1, 3, 5, 64]),
    ] {
        assert_shares(&rt, rt.alloc(), &arena, shape, parts, 1, shares[0])?;
        assert_shares(&rt, rt.alloc(), &arena, shape, parts, 3, shares[1])?;
        assert_shares(&rt, rt.alloc(), &arena, shape, parts, 5, shares[2])?;
        assert_shares(&rt, rt.alloc(), &arena, shape, parts, 64, shares[3])?;
    }
    Ok(())
}
