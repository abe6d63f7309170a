// Work in shares, by fork and join: every worker is done before the call that started it returns.
ghost use Rattle.std.specs.Prelude.{◌≡◌, ◌≤◌, ◌<◌, length, All};
ghost use Rattle.std.specs.List.{AllZip};
ghost use Rattle.palm_share.specs.Jobs.{Holds, Relates};

use crate::gate::{Gate, Who};
use std::alloc::Global;
use std::thread;
use std::thread::Threads;

/// The greatest number of workers.
pub const MOST_WORKERS: u32 = 64;

/// A piece of work that can be done beside others: it has all that it needs.
pub trait Job {
    /// When it may be run.
    ghost ready: { Self → Type 0 };

    /// How the job as it was and the job that was run stand to each other.
    ghost ran: { Self → Self → Type 0 };

    /// Does the work, and keeps what came of it.
    fn run(&mut self)
        requires { ready self.old }
        ensures { ran self.old self.new };
}

fn run_item<J: Job, G: Gate>(item: &mut Option<J>, worker: u32, turn: u64, gate: &G)
    requires { Holds J.ready item.old }
    ensures { Relates J.ran item.old item.new }
{
    gate.pass(Who::Worker(worker), turn);
    if let Some(job) = item {
        job.run();
    }
}

/// Runs each item once, in place, by at most `workers` workers beside each other. Before the item at the place `i` its
/// worker passes the gate with `i`.
///
/// It can't be refused: where a thread can't be started, the caller does its work. One worker starts no thread, and
/// workers without items do nothing.
pub fn each_mut<R: Threads + Sync, J: Job + Send, G: Gate + Sync>(
    rt: &R,
    _alloc: Global,
    items: &mut [Option<J>],
    workers: u32,
    gate: &G,
)
    requires some { 1 ≤ workers }
    requires few { workers ≤ MOST_WORKERS }
    requires ready { All (Holds J.ready) items.old }
    ensures len { length items.new ≡ length items.old }
    ensures ran { AllZip (Relates J.ran) items.old items.new }
{
    let size = items.len().div_ceil(workers as usize);
    let work = |i: usize, item: &mut Option<J>|
        requires { (0 < size) × Holds J.ready item.now }
        ensures { Relates J.ran item.entry.now item.exit.now }
    {
        run_item(
            item,
            (i / size).min(MOST_WORKERS as usize - 1) as u32,
            i as u64,
            gate,
        )
    };
    thread::for_each_mut(rt, items, workers as usize, &work);
}
