// Histories on an engine, with workers of all numbers, and the shapes that they leave.
ghost use Rattle.std.specs.Prelude.{◌≡◌, ◌<◌, ◌≤◌};
ghost use Rattle.palm_share.specs.declared.share.TheConstants.{MOST_WORKERS};
ghost use Rattle.palm_batch.specs.declared.batch.TheConstants.{MOST_CALLS};

use super::*;
use palm_base::text::{append, append_number, append_rows};
use palm_base::{Amount, Call, Digits, Entry, NoMemory, Steps};
use palm_share::{Gate, MOST_WORKERS, OpenGate, Who};
use std::alloc::Global;
use std::marker::Brand;
use std::process::Abort;
use std::sync::atomic::{AtomicBool, AtomicU64, Ordering};
use std::sync::ledger::{Blank, Ledger};
use std::test::Fail;
use std::thread::Threads;

// More calls than any history here has.
const ALL: u32 = 1_000;

// Calls on the rows of these numbers, from one to another, both included.
#[derive(Clone, Copy, Debug)]
enum Edits {
    // Sets of their prefixes, each at its number as its rate.
    Sets(u64, u64),
    // Dels of their prefixes.
    Dels(u64, u64),
}

// The prefix of a number has two digits at least, so that 5 stands at 05.
fn append_prefix(number: u64, text: &mut Vec<u8>) -> Result<(), NoMemory> {
    if number < 10 {
        append(b"0", text)?;
    }
    append_number(number, text)
}

fn call(rt: &impl Abort, edits: Edits, number: u64, text: &[u8]) -> Call {
    let prefix = Digits::read(text).expect(rt, "a prefix");
    match edits {
        Edits::Sets(..) => {
            let rate = Amount::new(number).expect(rt, "a rate");
            Call::Set { prefix, rate }
        }
        Edits::Dels(..) => Call::Del { prefix },
    }
}

fn roll_of(rt: &impl Abort, alloc: Global, edits: Edits) -> Result<Vec<Entry>, NoMemory> {
    let (Edits::Sets(from, to) | Edits::Dels(from, to)) = edits;
    let mut roll = Vec::new(alloc);
    let mut text = Vec::new(alloc);
    for number in from..=to {
        text.clear();
        append_prefix(number, &mut text)?;
        roll.push(Entry {
            caller: 0,
            place: roll.len() as u64,
            call: call(rt, edits, number, &text),
        })?;
    }
    Ok(roll)
}

// Runs a roll to its end, in batches of at most `max` calls.
fn run_all<R: Threads + Sync + Abort, L: Ledger>(
    rt: &R,
    engine: &mut Engine,
    roll: &[Entry],
    max: u32,
    workers: u32,
    steps: &mut Steps<L>,
) -> Result<(), NoMemory>
    requires least { 1 ≤ max }
    requires most { max ≤ MOST_CALLS }
    requires some { 1 ≤ workers }
    requires few { workers ≤ MOST_WORKERS }
{
    let mut rest = roll;
    while !rest.is_empty() {
        let (batch, later) = rest.split_at(rest.len().min(max as usize));
        let replies = engine.run_list(rt, rest, max, workers, &OpenGate, steps)?;
        assert_eq!(rt; replies.len(), batch.len());
        rest = later;
    }
    Ok(())
}

fn shape_of(alloc: Global, engine: &Engine) -> Result<Vec<u8>, NoMemory> {
    let mut text = Vec::new(alloc);
    engine.tree.dump(&mut text)?;
    Ok(text)
}

// The engine that a history leaves of an empty table. Each part of the history begins a batch of its own.
fn left_with<R: Threads + Sync + Abort, L: Ledger>(
    rt: &R,
    alloc: Global,
    history: &[Edits],
    max: u32,
    workers: u32,
    blank: Blank,
) -> Result<Engine, NoMemory>
    requires blank_name { blank.name ≡ L.name }
    requires blank_parts { blank.parts ≡ L.parts }
    requires blank { 0 < blank.parts }
    requires least { 1 ≤ max }
    requires most { max ≤ MOST_CALLS }
    requires some { 1 ≤ workers }
    requires few { workers ≤ MOST_WORKERS }
{
    let mut steps = Steps::<L>::new(blank);
    let mut engine = Engine::new(alloc)?;
    for edits in history {
        let roll = roll_of(rt, alloc, *edits)?;
        run_all(rt, &mut engine, &roll, max, workers, &mut steps)?;
    }
    Ok(engine)
}

// The same, with a counter of its own.
fn left_by<R: Threads + Sync + Abort>(
    rt: &R,
    alloc: Global,
    history: &[Edits],
    max: u32,
    workers: u32,
) -> Result<Engine, NoMemory>
    requires least { 1 ≤ max }
    requires most { max ≤ MOST_CALLS }
    requires some { 1 ≤ workers }
    requires few { workers ≤ MOST_WORKERS }
{
    left_with::<R, Brand>(rt, alloc, history, max, workers, Blank::new(1))
}

// The rows of these numbers, as a leaf's line shows them.
fn append_numbers(from: u64, to: u64, text: &mut Vec<u8>) -> Result<(), NoMemory> {
    for number in from..=to {
        append(b" ", text)?;
        append_prefix(number, text)?;
        append(b" ", text)?;
        append_number(number, text)?;
    }
    Ok(())
}

// The text of a shape: the lines above its leaves, and of each leaf the begin of its line and the numbers whose
// rows follow.
fn shape_text(
    alloc: Global,
    upper: &str,
    leaves: &[(&str, u64, u64)],
) -> Result<Vec<u8>, NoMemory> {
    let mut text = Vec::new(alloc);
    append(upper.as_bytes(), &mut text)?;
    for (begin, from, to) in leaves {
        append(begin.as_bytes(), &mut text)?;
        append_numbers(*from, *to, &mut text)?;
        append(b"\n", &mut text)?;
    }
    Ok(text)
}

// The full leaves of the tree of 100 to 499.
fn full_leaves() -> [(&'static str, u64, u64); 25] {
    let mut leaves = [("leaf 16", 100, 115); 25];
    for i in 1..25 {
        leaves[i].1 = 100 + 16 * i as u64;
        leaves[i].2 = 115 + 16 * i as u64;
    }
    leaves
}

const THREE_LEVELS: &str = "tree 3 400
inner 2 308
inner 13 116 132 148 164 180 196 212 228 244 260 276 292
inner 12 324 340 356 372 388 404 420 436 452 468 484
";

// A history leaves this shape, whatever the workers.
fn assert_left<R: Threads + Sync + Abort>(
    rt: &R,
    alloc: Global,
    history: &[Edits],
    max: u32,
    expected: &[u8],
) -> Result<(), NoMemory>
    requires least { 1 ≤ max }
    requires most { max ≤ MOST_CALLS }
{
    for workers in [1, 3, MOST_WORKERS] {
        let engine = left_by(rt, alloc, history, max, workers)?;
        let left = shape_of(alloc, &engine)?;
        assert!(rt;
            left.as_slice() == expected,
            "{history:?}, {workers} workers"
        );
    }
    Ok(())
}

#[test]
fn histories_leave_their_shapes(rt: HostRuntime) -> Result<(), Fail> {
    use Edits::{Dels, Sets};
    let alloc = rt.alloc();
    let full = full_leaves();
    let merged = "tree 2 23\ninner 2 33\n";
    let cases: [(&[Edits], &str, &[(&str, u64, u64)]); 6] = [
        (&[Sets(10, 25)], "tree 1 16\n", &[("leaf 16", 10, 25)]),
        (
            &[Sets(10, 26)],
            "tree 2 17\ninner 2 19\n",
            &[("leaf 9", 10, 18), ("leaf 8", 19, 26)],
        ),
        (
            &[Sets(10, 26), Dels(26, 26)],
            "tree 1 16\n",
            &[("leaf 16", 10, 25)],
        ),
        (
            &[Sets(10, 43), Dels(10, 21), Sets(5, 5)],
            merged,
            &[("leaf 12 05 5", 22, 32), ("leaf 11", 33, 43)],
        ),
        (&[Sets(100, 499)], THREE_LEVELS, &full),
        (
            &[Sets(100, 499), Dels(110, 499)],
            "tree 1 10\n",
            &[("leaf 10", 100, 109)],
        ),
    ];
    for (history, upper, leaves) in cases {
        let expected = shape_text(alloc, upper, leaves)?;
        assert_left(&rt, alloc, history, ALL, &expected)?;
    }
    Ok(())
}

// The first leaf is left too small, and its rows are put in anew.
#[test]
fn all_rows_are_those_that_a_history_leaves(rt: HostRuntime) -> Result<(), Fail> {
    use Edits::{Dels, Sets};
    let alloc = rt.alloc();
    let history = [Sets(10, 26), Dels(10, 11), Dels(26, 26)];
    let engine = left_by(&rt, alloc, &history, ALL, 1)?;
    let mut left = Vec::new(alloc);
    append_rows(&engine.tree.all_rows()?, &mut left)?;
    let mut expected = Vec::new(alloc);
    append(b"14", &mut expected)?;
    append_numbers(12, 25, &mut expected)?;
    assert_eq!(rt; left, expected);
    Ok(())
}

// The same calls leave other shapes in one batch and in a batch for each call.
#[test]
fn shapes_go_by_the_cutting(rt: HostRuntime) -> Result<(), Fail> {
    let alloc = rt.alloc();
    let history = [Edits::Sets(10, 43)];
    let together = [
        ("leaf 12", 10, 21),
        ("leaf 11", 22, 32),
        ("leaf 11", 33, 43),
    ];
    let expected = shape_text(alloc, "tree 2 34\ninner 3 22 33\n", &together)?;
    assert_left(&rt, alloc, &history, ALL, &expected)?;
    let alone = [("leaf 9", 10, 18), ("leaf 9", 19, 27), ("leaf 16", 28, 43)];
    let expected = shape_text(alloc, "tree 2 34\ninner 3 19 28\n", &alone)?;
    assert_left(&rt, alloc, &history, 1, &expected)?;
    Ok(())
}

// Runs the front of five calls with a counter of its own, and gives the number of its replies and the shape that it
// leaves.
fn front_with<R: Threads + Sync + Abort, L: Ledger>(
    rt: &R,
    alloc: Global,
    max: u32,
    blank: Blank,
) -> Result<(usize, Vec<u8>), NoMemory>
    requires blank_name { blank.name ≡ L.name }
    requires blank_parts { blank.parts ≡ L.parts }
    requires blank { 0 < blank.parts }
    requires least { 1 ≤ max }
    requires most { max ≤ MOST_CALLS }
{
    let mut steps = Steps::<L>::new(blank);
    let mut engine = Engine::new(alloc)?;
    let five = roll_of(rt, alloc, Edits::Sets(10, 14))?;
    let replies = engine.run_list(rt, &five, max, 1, &OpenGate, &mut steps)?;
    Ok((replies.len(), shape_of(alloc, &engine)?))
}

#[test]
fn a_batch_is_the_front_of_the_roll(rt: HostRuntime) -> Result<(), Fail> {
    let alloc = rt.alloc();
    let (replies, left) = front_with::<HostRuntime, Brand>(&rt, alloc, 2, Blank::new(1))?;
    assert_eq!(rt; replies, 2);
    assert!(rt; left.as_slice() == b"tree 1 2\nleaf 2 10 10 11 11\n".as_slice());
    Ok(())
}

// Runs a roll as one batch. Where memory is refused it says so, the shape is that of before, and the batch is run
// once more.
fn run_in_spite<R: Threads + Sync + Abort + Print, L: Ledger>(
    rt: &R,
    alloc: Global,
    engine: &mut Engine,
    roll: &[Entry],
    steps: &mut Steps<L>,
) -> Result<(), Fail> {
    let before = shape_of(alloc, engine)?;
    if engine.run_list(rt, roll, ALL, 1, &OpenGate, steps).is_err() {
        println!(rt; "a batch was refused")?;
        let kept = shape_of(alloc, engine)?;
        assert!(rt; kept.as_slice() == before.as_slice(), "a refused batch");
        engine.run_list(rt, roll, ALL, 1, &OpenGate, steps)?;
    }
    Ok(())
}

// Builds a tree of three levels and takes it down to a leaf, and gives the shapes of both.
fn grown_and_felled<R: Threads + Sync + Abort + Print, L: Ledger>(
    rt: &R,
    alloc: Global,
    blank: Blank,
) -> Result<(Vec<u8>, Vec<u8>), Fail>
    requires blank_name { blank.name ≡ L.name }
    requires blank_parts { blank.parts ≡ L.parts }
    requires blank { 0 < blank.parts }
{
    let mut steps = Steps::<L>::new(blank);
    let sets = roll_of(rt, alloc, Edits::Sets(100, 499))?;
    let dels = roll_of(rt, alloc, Edits::Dels(110, 499))?;
    let mut engine = Engine::new(alloc)?;
    run_in_spite(rt, alloc, &mut engine, &sets, &mut steps)?;
    let grown = shape_of(alloc, &engine)?;
    run_in_spite(rt, alloc, &mut engine, &dels, &mut steps)?;
    Ok((grown, shape_of(alloc, &engine)?))
}

// Where no memory is refused, this tells only what both batches leave. tools/refuse_allocations runs it with each
// allocation refused in turn.
#[test]
fn a_refused_batch_leaves_the_shape_of_before(rt: HostRuntime) -> Result<(), Fail> {
    let alloc = rt.alloc();
    let three = shape_text(alloc, THREE_LEVELS, &full_leaves())?;
    let one = shape_text(alloc, "tree 1 10\n", &[("leaf 10", 100, 109)])?;
    let (grown, felled) = grown_and_felled::<HostRuntime, Brand>(&rt, alloc, Blank::new(1))?;
    assert!(rt; grown.as_slice() == three.as_slice(), "the Sets");
    assert!(rt; felled.as_slice() == one.as_slice(), "the Dels");
    Ok(())
}

// Two workers that each raise a flag and look for the other's, for as long as it takes, or until one gives up.
#[derive(Drop)]
struct Flags {
    first: AtomicBool,
    second: AtomicBool,
    gave_up: AtomicU64,
}

impl Flags {
    fn meet(&self, mine: &AtomicBool, theirs: &AtomicBool) {
        mine.store(true, Ordering::SeqCst);
        for _ in 0..100_000_000u32 {
            if theirs.load(Ordering::SeqCst) {
                return;
            }
        }
        self.gave_up.fetch_add(1, Ordering::SeqCst);
    }
}

impl Gate for Flags {
    fn pass(&self, who: Who, _turn: u64) {
        match who {
            Who::Worker(0) => self.meet(&self.first, &self.second),
            Who::Worker(1) => self.meet(&self.second, &self.first),
            _ => {}
        }
    }
}

// Runs Sets that meet two leaves of three with two workers, who pass a gate.
fn run_gated<R: Threads + Sync + Abort, G: Gate + Sync, L: Ledger>(
    rt: &R,
    alloc: Global,
    gate: &G,
    blank: Blank,
) -> Result<(), NoMemory>
    requires blank_name { blank.name ≡ L.name }
    requires blank_parts { blank.parts ≡ L.parts }
    requires blank { 0 < blank.parts }
{
    let mut steps = Steps::<L>::new(blank);
    let mut engine = left_by(rt, alloc, &[Edits::Sets(10, 43)], ALL, 1)?;
    let roll = roll_of(rt, alloc, Edits::Sets(20, 30))?;
    let replies = engine.run_list(rt, &roll, ALL, 2, gate, &mut steps)?;
    assert_eq!(rt; replies.len(), 11);
    Ok(())
}

#[test]
fn two_workers_run_a_batch_beside_each_other(rt: HostRuntime) -> Result<(), Fail> {
    let gate = Flags {
        first: AtomicBool::new(false),
        second: AtomicBool::new(false),
        gave_up: AtomicU64::new(0),
    };
    run_gated::<_, _, Brand>(&rt, rt.alloc(), &gate, Blank::new(1))?;
    assert_eq!(rt; gate.gave_up.load(Ordering::SeqCst), 0);
    assert!(rt; gate.second.load(Ordering::SeqCst), "the second worker");
    Ok(())
}
