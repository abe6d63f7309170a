// The stages of a batch on trees, with workers of all numbers.
ghost use Rattle.std.specs.Prelude.{◌≡◌, ◌<◌, ◌≤◌, length, IsSome};
ghost use Rattle.palm_base.specs.Table.{IsTable};
ghost use Rattle.palm_share.specs.declared.share.TheConstants.{MOST_WORKERS};
ghost use Rattle.palm_arena.specs.ArenaState.{NoneLent};
ghost use Rattle.palm_arena.specs.Reads.{map_of};
ghost use Rattle.palm_tree.specs.TreeValue.{tree_in};
ghost use Rattle.palm_batch.specs.declared.batch.TheConstants.{MOST_CALLS};
ghost use Rattle.palm_batch.specs.Passing.{IsTree};

use crate::batch::run_batch;
use crate::calls::{amount, del, digits, entries, get, list, set};
use crate::pass::{Passed, change_levels, route, run_pass};
use palm_arena::{Arena, Shape};
use palm_base::{Call, Entry, NoMemory, Row, RowList, Steps};
use palm_leaf::{LeafAnswer, LeafOutcome, change_leaves};
use palm_node::Changes;
use palm_route::{Groups, PartList};
use palm_share::{Gate, MOST_WORKERS, OpenGate, Who};
use palm_tree::Tree;
use std::alloc::Global;
use std::marker::Brand;
use std::process::Abort;
use std::sync::atomic::{AtomicBool, AtomicU64, Ordering};
use std::sync::ledger::{Blank, Ledger};
use std::test::Fail;
use std::thread::Threads;

fn assert_rise(rt: &impl Abort, rows: &[Row])
    ensures { IsTable rows.now }
{
    for i in 1..rows.len() {
        assert!(rt; rows[i - 1].prefix.key() < rows[i].prefix.key());
    }
}

/// The tree that is built from the rows of these numbers, each at itself as its rate.
pub fn built(rt: &impl Abort, alloc: Global, from: u64, to: u64) -> Result<Tree, Fail> {
    let mut rows = RowList::new(alloc);
    for number in from..=to {
        let text = format!(in alloc; "{number}")?;
        let prefix = digits(rt, text.as_str());
        let rate = amount(rt, number);
        rows.push(Row { prefix, rate })?;
    }
    assert_rise(rt, rows.as_slice());
    Ok(Tree::build(alloc, &rows)?)
}

// The touched leaves of a batch on a tree.
fn touched<R: Threads + Sync>(
    rt: &R,
    alloc: Global,
    tree: &Tree,
    batch: &[Entry],
    workers: u32,
) -> Result<Groups, NoMemory>
    requires some { 1 ≤ workers }
    requires few { workers ≤ MOST_WORKERS }
{
    route(
        rt,
        alloc,
        &tree.arena,
        tree.shape,
        batch,
        workers,
        &OpenGate,
    )
}

// The arena of a tree, in which a batch has begun, and the tree's shape.
fn begun(tree: Tree) -> (Arena, Shape)
    ensures under_way { IsSome result.0.begun }
    ensures none_lent { NoneLent result.0.places }
    ensures tree { IsTree (tree_in tree) (map_of result.0.places) result.1 }
{
    let Tree {
        mut arena,
        shape,
        ..
    } = tree;
    arena.begin();
    (arena, shape)
}

// What the leaves of a tree answer a batch, and the changes below its root. The gate is that of the levels.
fn staged<R: Threads + Sync, G: Gate + Sync, L: Ledger>(
    rt: &R,
    alloc: Global,
    tree: Tree,
    batch: &[Entry],
    workers: u32,
    gate: &G,
    blank: Blank,
) -> Result<LeafOutcome, NoMemory>
    requires blank_name { blank.name ≡ L.name }
    requires blank_parts { blank.parts ≡ L.parts }
    requires blank { 0 < blank.parts }
    requires some { 1 ≤ workers }
    requires few { workers ≤ MOST_WORKERS }
{
    let mut steps = Steps::<L>::new(blank);
    let (mut arena, shape) = begun(tree);
    let groups = route(rt, alloc, &arena, shape, batch, workers, &OpenGate)?;
    let LeafOutcome { answers, changes } = change_leaves(
        rt, alloc, &mut arena, shape, groups, workers, &OpenGate, &mut steps,
    )?;
    let changes = change_levels(
        rt, alloc, &mut arena, shape, changes, workers, gate, &mut steps,
    )?;
    Ok(LeafOutcome { answers, changes })
}

// The same, with a counter of its own.
fn outcome_of<R: Threads + Sync, G: Gate + Sync>(
    rt: &R,
    alloc: Global,
    tree: Tree,
    batch: &[Entry],
    workers: u32,
    gate: &G,
) -> Result<LeafOutcome, NoMemory>
    requires some { 1 ≤ workers }
    requires few { workers ≤ MOST_WORKERS }
{
    staged::<R, G, Brand>(rt, alloc, tree, batch, workers, gate, Blank::new(1))
}

const MARK: u64 = u64::MAX;

// The entries of the parts of each group, with a mark behind each group.
fn entries_of(alloc: Global, groups: Groups) -> Result<Vec<u64>, NoMemory> {
    let mut told = Vec::new(alloc);
    for group in groups.into_list() {
        append_entries(&group.parts, &mut told)?;
        told.push(MARK)?;
    }
    Ok(told)
}

fn append_entries(parts: &PartList, told: &mut Vec<u64>) -> Result<(), NoMemory> {
    for part in parts.as_slice() {
        told.push(part.entry)?;
    }
    Ok(())
}

#[test]
fn parts_come_together_by_leaf(rt: HostRuntime) -> Result<(), Fail> {
    let alloc = rt.alloc();
    let tree = built(&rt, alloc, 10, 26)?;
    let calls = [get(&rt, "26"), get(&rt, "10"), list(&rt, "18", "19", 5)];
    let batch = entries(alloc, &calls)?;
    for workers in [1, 2, 3, MOST_WORKERS] {
        let groups = touched(&rt, alloc, &tree, &batch, workers)?;
        let told = entries_of(alloc, groups)?;
        assert!(rt;
            told.as_slice() == [1, 2, MARK, 0, 2, MARK].as_slice(),
            "{workers} workers"
        );
    }
    Ok(())
}

// What a pass of a batch over a tree leaves.
fn passed<R: Threads + Sync, L: Ledger>(
    rt: &R,
    alloc: Global,
    tree: Tree,
    batch: &[Entry],
    workers: u32,
    blank: Blank,
) -> Result<Passed, NoMemory>
    requires blank_name { blank.name ≡ L.name }
    requires blank_parts { blank.parts ≡ L.parts }
    requires blank { 0 < blank.parts }
    requires some { 1 ≤ workers }
    requires few { workers ≤ MOST_WORKERS }
{
    let mut steps = Steps::<L>::new(blank);
    let (mut arena, shape) = begun(tree);
    run_pass(
        rt, alloc, &mut arena, shape, batch, workers, &OpenGate, &mut steps,
    )
}

// What an answer tells: the rate that was there, or none, or how many rows were found.
fn told(answer: &LeafAnswer) -> (Option<u64>, Option<usize>) {
    match answer {
        LeafAnswer::Old(rate) => (rate.map(|rate| rate.get()), None),
        LeafAnswer::Found(rows) => (None, Some(rows.len())),
    }
}

#[test]
fn leaves_answer_each_part_on_the_rows_that_earlier_parts_leave(
    rt: HostRuntime,
) -> Result<(), Fail> {
    let alloc = rt.alloc();
    let edits = [
        del(&rt, "10"),
        del(&rt, "11"),
        del(&rt, "26"),
        list(&rt, "0", "999999999999999", 100),
    ];
    let edited = [
        (Some(10), None),
        (Some(11), None),
        (None, Some(7)),
        (Some(26), None),
        (None, Some(7)),
    ];
    let one = [
        set(&rt, "44", 5),
        get(&rt, "44"),
        set(&rt, "44", 6),
        del(&rt, "44"),
        get(&rt, "44"),
    ];
    let set_once = [
        (None, None),
        (Some(5), None),
        (Some(5), None),
        (Some(6), None),
        (None, None),
    ];
    for workers in [1, 3, MOST_WORKERS] {
        let loose = assert_answers(&rt, alloc, &edits, &edited, workers)?;
        assert_eq!(rt; loose, 14, "{workers} workers");
        let loose = assert_answers(&rt, alloc, &one, &set_once, workers)?;
        assert_eq!(rt; loose, 0, "{workers} workers");
    }
    Ok(())
}

// On the tree of 10 to 26 the calls are answered so. Gives the number of loose rows.
fn assert_answers<R: Threads + Sync + Abort>(
    rt: &R,
    alloc: Global,
    calls: &[Call],
    expected: &[(Option<u64>, Option<usize>)],
    workers: u32,
) -> Result<usize, Fail>
    requires some { 1 ≤ workers }
    requires few { workers ≤ MOST_WORKERS }
{
    let tree = built(rt, alloc, 10, 26)?;
    let batch = entries(alloc, calls)?;
    let outcome = outcome_of(rt, alloc, tree, &batch, workers, &OpenGate)?;
    assert_eq!(rt; outcome.answers.len(), expected.len());
    for (one, expected) in outcome.answers.as_slice().iter().zip(expected) {
        assert!(rt; told(&one.answer) == *expected, "{workers} workers");
    }
    Ok(outcome.changes.loose.len())
}

// The number of pieces of each change.
fn piece_counts(alloc: Global, changes: &Changes) -> Result<Vec<usize>, NoMemory> {
    let mut counts = Vec::new(alloc);
    for change in changes.nodes.as_slice() {
        counts.push(change.pieces.len())?;
    }
    Ok(counts)
}

// The Sets of the prefixes of these numbers, each at itself as its rate.
fn sets_of(rt: &impl Abort, alloc: Global, from: u64, to: u64) -> Result<Vec<Call>, Fail> {
    let mut calls = Vec::new(alloc);
    for number in from..=to {
        let text = format!(in alloc; "{number}")?;
        calls.push(set(rt, text.as_str(), number))?;
    }
    Ok(calls)
}

// The prefixes 100 to 124 begin with 10, 11 and 12, so that they go to the first leaf of the tree of 10 to 26.
#[test]
fn a_leaf_of_34_rows_becomes_three(rt: HostRuntime) -> Result<(), Fail> {
    let alloc = rt.alloc();
    let batch = entries(alloc, &sets_of(&rt, alloc, 100, 124)?)?;
    for workers in [1, 3, MOST_WORKERS] {
        let tree = built(&rt, alloc, 10, 26)?;
        let outcome = outcome_of(&rt, alloc, tree, &batch, workers, &OpenGate)?;
        let counts = piece_counts(alloc, &outcome.changes)?;
        assert!(rt; counts.as_slice() == [3].as_slice(), "{workers} workers");
    }
    Ok(())
}

// Two workers that each raise a flag at their first turn and look for the other's, for as long as it takes, or
// until one gives up.
#[derive(Drop)]
struct Flags {
    first: AtomicBool,
    second: AtomicBool,
    gave_up: AtomicU64,
}

impl Flags {
    fn meet(&self, mine: &AtomicBool, theirs: &AtomicBool) {
        mine.store(true, Ordering::SeqCst);
        for _ in 0..100_000_000u32 {
            if theirs.load(Ordering::SeqCst) {
                return;
            }
        }
        self.gave_up.fetch_add(1, Ordering::SeqCst);
    }
}

impl Gate for Flags {
    fn pass(&self, who: Who, _turn: u64) {
        match who {
            Who::Worker(0) => self.meet(&self.first, &self.second),
            Who::Worker(1) => self.meet(&self.second, &self.first),
            _ => {}
        }
    }
}

// The tree of 100 to 499 has 25 full leaves under two nodes. Two Sets split its first leaf and its last, so that
// both nodes are made anew.
#[test]
fn two_workers_make_two_nodes_anew_beside_each_other(rt: HostRuntime) -> Result<(), Fail> {
    let alloc = rt.alloc();
    let gate = Flags {
        first: AtomicBool::new(false),
        second: AtomicBool::new(false),
        gave_up: AtomicU64::new(0),
    };
    let tree = built(&rt, alloc, 100, 499)?;
    assert_eq!(rt; tree.levels(), 3);
    let batch = entries(alloc, &[set(&rt, "1000", 1), set(&rt, "4990", 2)])?;
    let outcome = outcome_of(&rt, alloc, tree, &batch, 2, &gate)?;
    let counts = piece_counts(alloc, &outcome.changes)?;
    assert!(rt; counts.as_slice() == [1, 1].as_slice());
    assert_eq!(rt; gate.gave_up.load(Ordering::SeqCst), 0);
    Ok(())
}

// Two workers that count their passes. At its k-th each looks whether the other's count has come to k, for as long
// as it takes, or until one gives up.
#[derive(Drop)]
struct Counts {
    first: AtomicU64,
    second: AtomicU64,
    gave_up: AtomicU64,
}

impl Counts {
    fn meet(&self, mine: &AtomicU64, theirs: &AtomicU64) {
        let passes = mine.fetch_add(1, Ordering::SeqCst).wrapping_add(1);
        for _ in 0..100_000_000u32 {
            if theirs.load(Ordering::SeqCst) >= passes {
                return;
            }
        }
        self.gave_up.fetch_add(1, Ordering::SeqCst);
    }
}

impl Gate for Counts {
    fn pass(&self, who: Who, _turn: u64) {
        match who {
            Who::Worker(0) => self.meet(&self.first, &self.second),
            Who::Worker(1) => self.meet(&self.second, &self.first),
            _ => {}
        }
    }
}

// What a batch on a tree is answered, as text.
fn replied<R: Threads + Sync, G: Gate + Sync, L: Ledger>(
    rt: &R,
    alloc: Global,
    tree: &mut Tree,
    batch: &[Entry],
    workers: u32,
    gate: &G,
    blank: Blank,
) -> Result<String, Fail>
    requires blank_name { blank.name ≡ L.name }
    requires blank_parts { blank.parts ≡ L.parts }
    requires blank { 0 < blank.parts }
    requires few_calls { length batch.now ≤ MOST_CALLS }
    requires some { 1 ≤ workers }
    requires few { workers ≤ MOST_WORKERS }
{
    let mut steps = Steps::<L>::new(blank);
    let replies = run_batch(rt, tree, batch, workers, gate, &mut steps)?;
    Ok(format!(in alloc; "{replies:?}")?)
}

// The two Sets are routed in two shares, change two leaves and make two nodes anew, so that each worker passes
// three times.
#[test]
fn two_workers_come_through_a_whole_batch_beside_each_other(rt: HostRuntime) -> Result<(), Fail> {
    let alloc = rt.alloc();
    let gate = Counts {
        first: AtomicU64::new(0),
        second: AtomicU64::new(0),
        gave_up: AtomicU64::new(0),
    };
    let mut tree = built(&rt, alloc, 100, 499)?;
    let batch = entries(alloc, &[set(&rt, "1000", 1), set(&rt, "4990", 2)])?;
    assert_eq!(rt; batch.len(), 2);
    let told = replied::<HostRuntime, Counts, Brand>(
        &rt,
        alloc,
        &mut tree,
        &batch,
        2,
        &gate,
        Blank::new(1),
    )?;
    assert_eq!(rt; told.as_str(), "[New, New]");
    assert_eq!(rt; tree.row_count(), 402);
    assert_eq!(rt; gate.gave_up.load(Ordering::SeqCst), 0);
    assert_eq!(rt; gate.first.load(Ordering::SeqCst), 3);
    assert_eq!(rt; gate.second.load(Ordering::SeqCst), 3);
    Ok(())
}

// How many orphans a pass leaves, the number of the first of them, and how many levels the tree has.
fn left_by(passed: &Passed) -> (usize, Option<u64>, u32) {
    let orphans = passed.orphans.as_slice();
    let first = orphans.first().map(|row| row.rate.get());
    (orphans.len(), first, passed.shape.levels)
}

// On the tree of these numbers the pass of the calls leaves so much.
fn assert_left<R: Threads + Sync + Abort>(
    rt: &R,
    alloc: Global,
    (from, to): (u64, u64),
    calls: &[Call],
    expected: (usize, Option<u64>, u32),
) -> Result<(), Fail> {
    let batch = entries(alloc, calls)?;
    for workers in [1, 3, MOST_WORKERS] {
        let tree = built(rt, alloc, from, to)?;
        let passed = passed::<R, Brand>(rt, alloc, tree, &batch, workers, Blank::new(1))?;
        assert!(rt;
            left_by(&passed) == expected,
            "{from} to {to}, {workers} workers"
        );
    }
    Ok(())
}

// The Dels of the prefixes of these numbers.
fn dels_of(rt: &impl Abort, alloc: Global, from: u64, to: u64) -> Result<Vec<Call>, Fail> {
    let mut calls = Vec::new(alloc);
    for number in from..=to {
        let text = format!(in alloc; "{number}")?;
        calls.push(del(rt, text.as_str()))?;
    }
    Ok(calls)
}

// The tree of 10 to 26 has leaves of 9 and 8 rows, and that of 10 to 25 is one full leaf. That of 100 to 355 has 16
// full leaves, and that of 100 to 499 has 25 under nodes of 13 and 12, of which the Dels empty five under the
// second.
#[test]
fn a_pass_ends_in_a_root_and_gathers_orphans(rt: HostRuntime) -> Result<(), Fail> {
    let alloc = rt.alloc();
    let dels = dels_of(&rt, alloc, 308, 387)?;
    let gets = [get(&rt, "10"), get(&rt, "26")];
    let three = [del(&rt, "10"), del(&rt, "11"), del(&rt, "26")];
    let cases: [((u64, u64), &[Call], (usize, Option<u64>, u32)); 6] = [
        ((10, 26), &gets, (0, None, 2)),
        ((10, 26), &three, (14, Some(12), 1)),
        ((10, 26), &[del(&rt, "26")], (7, Some(19), 1)),
        ((10, 25), &[set(&rt, "26", 26)], (0, None, 2)),
        ((100, 355), &[set(&rt, "356", 356)], (0, None, 3)),
        ((100, 499), &dels, (112, Some(388), 2)),
    ];
    for (numbers, calls, expected) in cases {
        assert_left(&rt, alloc, numbers, calls, expected)?;
    }
    Ok(())
}
