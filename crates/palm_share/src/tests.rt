// Workers beside each other, and the gate that each item passes.
ghost use Rattle.std.specs.Prelude.{◌≡◌, ◌+◌, ◌<◌};

use super::*;
use std::process::Abort;
use std::sync::atomic::{AtomicBool, AtomicU64, Ordering};
use std::test::Fail;

#[derive(Drop)]
struct Raise {
    value: u64,
}

impl Job for Raise {
    ghost ready = { λ job. job.value < 1000 };

    ghost ran = { λ before after. after.value ≡ before.value + 1 };

    fn run(&mut self) {
        self.value += 1;
    }
}

// Two workers that each raise a flag and look for the other's, for as long as it takes, or until one gives up.
#[derive(Drop)]
struct Flags {
    first: AtomicBool,
    second: AtomicBool,
    gave_up: AtomicU64,
}

impl Flags {
    fn meet(&self, mine: &AtomicBool, theirs: &AtomicBool) {
        mine.store(true, Ordering::SeqCst);
        for _ in 0..100_000_000u32 {
            if theirs.load(Ordering::SeqCst) {
                return;
            }
        }
        self.gave_up.fetch_add(1, Ordering::SeqCst);
    }
}

impl Gate for Flags {
    fn pass(&self, who: Who, _turn: u64) {
        match who {
            Who::Worker(0) => self.meet(&self.first, &self.second),
            Who::Worker(1) => self.meet(&self.second, &self.first),
            _ => {}
        }
    }
}

// Adds up the places that were passed, and counts them.
#[derive(Drop)]
struct Places {
    sum: AtomicU64,
    count: AtomicU64,
}

impl Gate for Places {
    fn pass(&self, _who: Who, turn: u64) {
        self.sum.fetch_add(turn, Ordering::SeqCst);
        self.count.fetch_add(1, Ordering::SeqCst);
    }
}

fn value_of(rt: &impl Abort, item: &Option<Raise>) -> u64 {
    match item {
        Some(job) => job.value,
        None => panic!(rt; "an item is gone"),
    }
}

#[test]
fn two_workers_run_beside_each_other(rt: HostRuntime) -> Result<(), Fail> {
    let gate = Flags {
        first: AtomicBool::new(false),
        second: AtomicBool::new(false),
        gave_up: AtomicU64::new(0),
    };
    let mut items = [Some(Raise { value: 1 }), Some(Raise { value: 2 })];
    each_mut(&rt, rt.alloc(), &mut items, 2, &gate);
    assert_eq!(rt; gate.gave_up.load(Ordering::SeqCst), 0);
    assert_eq!(rt; value_of(&rt, &items[0]), 2);
    assert_eq!(rt; value_of(&rt, &items[1]), 3);
    Ok(())
}

// Each item was raised once: they began with 10, 20, 30 and so on.
fn assert_raised(rt: &impl Abort, items: &[Option<Raise>], workers: u32) {
    for (i, item) in items.iter().enumerate() {
        assert_eq!(rt;
            value_of(rt, item),
            10 * (i as u64 + 1) + 1,
            "{workers} workers"
        );
    }
}

#[test]
fn each_item_passes_the_gate_once(rt: HostRuntime) -> Result<(), Fail> {
    for workers in [1, 2, 3, 64] {
        let gate = Places {
            sum: AtomicU64::new(0),
            count: AtomicU64::new(0),
        };
        let mut items = [
            Some(Raise { value: 10 }),
            Some(Raise { value: 20 }),
            Some(Raise { value: 30 }),
            Some(Raise { value: 40 }),
            Some(Raise { value: 50 }),
        ];
        each_mut(&rt, rt.alloc(), &mut items, workers, &gate);
        assert_eq!(rt; gate.count.load(Ordering::SeqCst), 5, "{workers} workers");
        assert_eq!(rt; gate.sum.load(Ordering::SeqCst), 10, "{workers} workers");
        assert_raised(&rt, &items, workers);
    }
    Ok(())
}

#[test]
fn no_items_are_no_work(rt: HostRuntime) -> Result<(), Fail> {
    let gate = Places {
        sum: AtomicU64::new(0),
        count: AtomicU64::new(0),
    };
    let mut items: [Option<Raise>; 0] = [];
    each_mut(&rt, rt.alloc(), &mut items, 3, &gate);
    assert_eq!(rt; gate.count.load(Ordering::SeqCst), 0);
    Ok(())
}

// A job that counts that it was run.
#[derive(Drop)]
struct Counted<'a> {
    runs: &'a AtomicU64,
}

impl Job for Counted<'_> {
    ghost ready = { λ _. Unit {0} };

    ghost ran = { λ _ _. Unit {0} };

    fn run(&mut self) {
        self.runs.fetch_add(1, Ordering::SeqCst);
    }
}

// Counts the turns at which more or fewer jobs were run than stand before it.
#[derive(Drop)]
struct Turns<'a> {
    runs: &'a AtomicU64,
    wrong: AtomicU64,
}

impl Gate for Turns<'_> {
    fn pass(&self, _who: Who, turn: u64) {
        if self.runs.load(Ordering::SeqCst) != turn {
            self.wrong.fetch_add(1, Ordering::SeqCst);
        }
    }
}

#[test]
fn the_gate_is_passed_before_its_item(rt: HostRuntime) -> Result<(), Fail> {
    let runs = AtomicU64::new(0);
    let gate = Turns {
        runs: &runs,
        wrong: AtomicU64::new(0),
    };
    let mut items = [
        Some(Counted { runs: &runs }),
        Some(Counted { runs: &runs }),
        Some(Counted { runs: &runs }),
    ];
    each_mut(&rt, rt.alloc(), &mut items, 1, &gate);
    assert_eq!(rt; gate.wrong.load(Ordering::SeqCst), 0);
    assert_eq!(rt; runs.load(Ordering::SeqCst), 3);
    Ok(())
}
